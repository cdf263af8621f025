//! Which steps may be listed next.
ghost use Rattle.std.specs.Prelude.{◌≡◌, ℕ, ◌+◌, ◌<◌, ◌⊎◌, [], not, length, count_by, get_or, OnOk, IfOk};
ghost use Rattle.std.specs.Bool.{OnFalse, OnTrue};
ghost use Rattle.derivation_graph.specs.Agendas.{AreStuck, AreTurns, Fits, IsIn, IsMarked, IsOpen, IsPlaced, IsUnmarked};
ghost use Rattle.derivation_graph.specs.Graphs.{HasStepsForParents, IsStep};

use crate::ready::{put, take_least};
use crate::rows::{first_unmarked, is_unmarked_step, parents_at};
use dk_syntax::{NoMemory, Seq};
use std::alloc::Global;
use std::collections::BTreeSet;
use std::mem;

/// The ready steps, and at each step's number the steps that wait for it.
#[derive(Drop)]
pub struct Agenda {
    pub ready: BTreeSet<u32>,
    pub waiting: Vec<Seq<u32>>,
}

/// Puts the step, unless it is marked, where it belongs: to the ready ones, or to those that wait for its
/// first unmarked parent.
fn place(rows: &[Seq<u32>], marks: &[bool], agenda: &mut Agenda, step: u32) -> Result<(), NoMemory>
    requires parents { HasStepsForParents rows.now }
    requires long { length agenda.old.waiting.items ≡ length rows.now + 1 }
    ensures long { OnOk result (length agenda.new.waiting.items ≡ length rows.now + 1) }
    ensures placed { OnOk result (IsStep rows.now step → IsUnmarked marks.now step
        → IsPlaced rows.now marks.now agenda.new.ready agenda.new.waiting.items step) }
    ensures kept { OnOk result ((q : ℕ) → IsPlaced rows.now marks.now agenda.old.ready
        agenda.old.waiting.items q → IsPlaced rows.now marks.now agenda.new.ready
        agenda.new.waiting.items q) }
    ensures ready { OnOk result ((q : ℕ) → IsIn agenda.new.ready q → IsIn agenda.old.ready q
        ⊎ IsOpen rows.now marks.now q) }
{
    if !is_unmarked_step(rows, marks, step) {
        return Ok(());
    }
    match first_unmarked(marks, parents_at(rows, step)) {
        None => put(&mut agenda.ready, step)?,
        Some(parent) => agenda.waiting[parent as usize].push(step)?,
    }
    Ok(())
}

/// Places the steps that waited for a step that is marked now.
fn release(
    alloc: Global,
    rows: &[Seq<u32>],
    marks: &[bool],
    agenda: &mut Agenda,
    step: u32,
) -> Result<(), NoMemory>
    requires parents { HasStepsForParents rows.now }
    requires stands { IsStep rows.now step }
    requires marked { IsMarked marks.now step }
    requires fits { Fits rows.now marks.now agenda.old.ready agenda.old.waiting.items
        (get_or agenda.old.waiting.items step []) }
    ensures { OnOk result (Fits rows.now marks.now agenda.new.ready agenda.new.waiting.items []) }
{
    let nobody = Seq::from_vec(Vec::new(alloc));
    let waiters = mem::replace(&mut agenda.waiting[step as usize], nobody);
    for waiter in waiters.as_slice() {
        place(rows, marks, agenda, *waiter)?;
    }
    Ok(())
}

/// Lists for which nobody waits.
fn no_waiters(alloc: Global, count: usize) -> Result<Vec<Seq<u32>>, NoMemory>
    ensures { IfOk result (λ waiting. length waiting.items ≡ count) }
{
    let mut waiting = Vec::new(alloc);
    for _ in 0..count {
        waiting.push(Seq::from_vec(Vec::new(alloc)))?;
    }
    Ok(waiting)
}

/// Each step that isn't marked in its place.
pub fn begin(alloc: Global, rows: &[Seq<u32>], marks: &[bool]) -> Result<Agenda, NoMemory>
    requires parents { HasStepsForParents rows.now }
    ensures { IfOk result (λ agenda. Fits rows.now marks.now agenda.ready agenda.waiting.items []) }
{
    let waiting = no_waiters(alloc, rows.len() + 1)?;
    let mut agenda = Agenda {
        ready: BTreeSet::new(alloc),
        waiting,
    };
    let Ok(count) = u32::try_from(rows.len()) else {
        return Err(NoMemory);
    };
    for place_of_step in 0..count {
        place(rows, marks, &mut agenda, place_of_step + 1)?;
    }
    Ok(agenda)
}

/// Lists the least ready step, and answers whether there was one.
pub fn list_next(
    alloc: Global,
    rows: &[Seq<u32>],
    marks: &mut Vec<bool>,
    agenda: &mut Agenda,
    list: &mut Vec<u32>,
) -> Result<bool, NoMemory>
    requires parents { HasStepsForParents rows.now }
    requires turns { AreTurns rows.now marks.old.items list.old.items }
    requires fits { Fits rows.now marks.old.items agenda.old.ready agenda.old.waiting.items [] }
    ensures turns { OnOk result (AreTurns rows.now marks.new.items list.new.items) }
    ensures fits { OnOk result (Fits rows.now marks.new.items agenda.new.ready
        agenda.new.waiting.items []) }
    ensures fewer { IfOk result (λ more. OnTrue more
        (count_by not marks.new.items < count_by not marks.old.items)) }
    ensures stuck { IfOk result (λ more. OnFalse more (AreStuck rows.now list.new.items)) }
{
    let Some(step) = take_least(&mut agenda.ready) else {
        return Ok(false);
    };
    marks[step as usize] = true;
    list.push(step)?;
    release(alloc, rows, marks.as_slice(), agenda, step)?;
    Ok(true)
}
