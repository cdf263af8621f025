//! The forms that represent steps, and the bases of steps, each found once.
ghost use Rattle.std.specs.Prelude.{◌≡◌, IfOk, OnOk};
ghost use Rattle.normal_form.specs.Normal.{normal_of};
ghost use Rattle.ground_instances.specs.Keys.{Has};
ghost use Rattle.ground_instances.specs.Notes.{AreRight, HasImages, HasOwn, IsNote, judged_given};

use crate::given::{Given, only_parent, step_at, verdict_at};
use dk_syntax::NoMemory;
use normal_form::{Nf, NfFault, normal};
use std::alloc::Global;
use std::collections::HashMap;
use step_check::Verdict;
use step_skolem::{SkMap, image_under};
use tstp_trace::Step;

/// The form that represents a step, the number of the step's base, and whether that is a leaf.
#[derive(Drop)]
pub struct Note {
    pub form: Nf,
    pub base: u32,
    pub is_leaf: bool,
}

/// The normal form of the step's formula. The verdict on the step says that it is within its limit.
fn own_form(alloc: Global, sign: bool, step: &Step) -> Result<Nf, NoMemory>
    ensures { IfOk result (λ form. form ≡ normal_of step.now.formula sign) }
{
    match normal(alloc, sign, &step.formula) {
        Ok(form) => Ok(form),
        Err(NfFault::TooLarge { nodes: _ }) => Err(NoMemory),
        Err(NfFault::Memory) => Err(NoMemory),
    }
}

/// What is noted of a step that isn't structural.
fn own_note(
    alloc: Global,
    given: &Given<'_>,
    number: u32,
    sign: bool,
    is_leaf: bool,
) -> Result<Note, NoMemory>
    requires { HasOwn (judged_given given.now) number sign is_leaf }
    ensures { IfOk result (λ note. IsNote (judged_given given.now) number note) }
{
    let Some(step) = step_at(given.steps, number) else {
        return Err(NoMemory);
    };
    let form = own_form(alloc, sign, step)?;
    Ok(Note {
        form,
        base: number,
        is_leaf,
    })
}

/// What is noted of a structural step, by the note of its parent.
fn image_note(
    alloc: Global,
    given: &Given<'_>,
    notes: &HashMap<u32, Note>,
    number: u32,
    map: &SkMap,
) -> Result<Note, NoMemory>
    requires images { HasImages (judged_given given.now) }
    requires right { AreRight (IsNote (judged_given given.now)) notes.now }
    requires here { Has (judged_given given.now) number (Verdict.Structural map.now) }
    ensures { IfOk result (λ note. IsNote (judged_given given.now) number note) }
{
    let Some(parent) = only_parent(given.rows, number) else {
        return Err(NoMemory);
    };
    let Some(above) = notes.get(&parent) else {
        return Err(NoMemory);
    };
    let form = image_under(alloc, &above.form, map)?;
    Ok(Note {
        form,
        base: above.base,
        is_leaf: above.is_leaf,
    })
}

/// What is noted of a step, by the note of its parent where it is structural.
fn note_of(
    alloc: Global,
    given: &Given<'_>,
    notes: &HashMap<u32, Note>,
    number: u32,
) -> Result<Note, NoMemory>
    requires images { HasImages (judged_given given.now) }
    requires right { AreRight (IsNote (judged_given given.now)) notes.now }
    ensures { IfOk result (λ note. IsNote (judged_given given.now) number note) }
{
    match verdict_at(given.verdicts, number) {
        None => Err(NoMemory),
        Some(Verdict::Structural(map)) => image_note(alloc, given, notes, number, map),
        Some(Verdict::Leaf) => own_note(alloc, given, number, true, true),
        Some(Verdict::Conjecture) => own_note(alloc, given, number, false, true),
        Some(Verdict::Clausal(_)) => own_note(alloc, given, number, true, false),
        Some(Verdict::Chained(_)) => own_note(alloc, given, number, true, false),
        Some(Verdict::Composes(_)) => own_note(alloc, given, number, true, false),
        Some(Verdict::Wrong(_)) => own_note(alloc, given, number, true, false),
        Some(Verdict::Over(_)) => own_note(alloc, given, number, true, false),
    }
}

/// The parent of a structural step.
fn parent_on_way(given: &Given<'_>, number: u32) -> Option<u32> {
    match verdict_at(given.verdicts, number) {
        Some(Verdict::Structural(_)) => only_parent(given.rows, number),
        _ => None,
    }
}

/// The way from a step along structural parents, up to the first step that is noted or isn't structural.
fn way_up(
    alloc: Global,
    given: &Given<'_>,
    notes: &HashMap<u32, Note>,
    number: u32,
) -> Result<Vec<u32>, NoMemory> {
    let mut way = Vec::new(alloc);
    let mut step = number;
    for _ in 0..given.verdicts.len() {
        if notes.contains_key(&step) {
            return Ok(way);
        }
        way.push(step)?;
        match parent_on_way(given, step) {
            None => return Ok(way),
            Some(parent) => step = parent,
        }
    }
    Ok(way)
}

/// Notes a step, and the steps on the way to its base, by a loop: the way may be as long as the trace.
pub fn note_step(
    alloc: Global,
    given: &Given<'_>,
    notes: &mut HashMap<u32, Note>,
    number: u32,
) -> Result<(), NoMemory>
    requires images { HasImages (judged_given given.now) }
    requires right { AreRight (IsNote (judged_given given.now)) notes.old }
    ensures { OnOk result (AreRight (IsNote (judged_given given.now)) notes.new) }
{
    let mut way = way_up(alloc, given, notes, number)?;
    while let Some(step) = way.pop() {
        let note = note_of(alloc, given, notes, step)?;
        notes.insert(step, note)?;
    }
    Ok(())
}
