//! Representatives of steps and of the parents on which they hang, along paths that may be as long as the trace.
ghost use Rattle.std.specs.Prelude.{◌≡◌, ℕ, reverse, MatchOption, OnOk, IfOk, Contains};
ghost use Rattle.derivation_graph.specs.Graphs.{IsStep};
ghost use Rattle.step_check.specs.Notes.{AreForms, AreNotes, case_given, EndsIn, Grow, Hangs, IsImageOf, IsPath, IsPrepared, IsSound, Spread};
ghost use Rattle.step_check.specs.Tables.{AreRight, IsKnown};

use crate::given::{Given, parents_at};
use crate::images::image_of;
use crate::links::open;
use crate::notes::{Forms, Link, Notes, Representative};
use crate::table::Table;
use dk_syntax::NoMemory;
use std::alloc::Global;

/// The number of the step, where its representative isn't known.
fn unless_known(images: &Table<Representative>, number: u32) -> Option<u32>
    ensures { MatchOption result (IsKnown images.now number) (λ same. same ≡ number) }
{
    match images.get(number) {
        Some(_) => None,
        None => Some(number),
    }
}

/// The parent on which a step hangs, where its representative isn't known.
fn unknown_parent(forms: &Forms, images: &Table<Representative>, number: u32) -> Option<u32>
    requires { IsKnown forms.now.links number }
    ensures { MatchOption result ((q : ℕ) → Hangs forms.now number q → IsKnown images.now q)
        (λ q. Hangs forms.now number q) }
{
    match forms.links.known(number) {
        Link::Apart => None,
        Link::Same(parent) => unless_known(images, *parent),
        Link::Skolem(parent, _) => unless_known(images, *parent),
    }
}

/// The path from a step up along the parents on which steps hang, as far as their representatives aren't known. Each
/// step on it is opened.
fn climb(
    alloc: Global,
    given: &Given<'_>,
    forms: &mut Forms,
    images: &Table<Representative>,
    number: u32,
) -> Result<Vec<u32>, NoMemory>
    requires sound { IsSound (case_given given.now) }
    requires stands { IsStep (case_given given.now).rows number }
    requires right { AreForms (case_given given.now) forms.old }
    ensures right { OnOk result (AreForms (case_given given.now) forms.new) }
    ensures grown { OnOk result (Grow forms.old forms.new) }
    ensures path { IfOk result (λ path.
        IsPath (case_given given.now) forms.new images.now (reverse path.items)) }
    ensures ends { IfOk result (λ path. EndsIn (reverse path.items) number) }
{
    let mut path = Vec::new(alloc);
    path.push(number)?;
    let mut step = number;
    for _ in 0..given.rows.len() {
        open(alloc, given, forms, step)?;
        match unknown_parent(forms, images, step) {
            None => return Ok(path),
            Some(parent) => {
                path.push(parent)?;
                step = parent;
            }
        }
    }
    unreachable!()
}

/// Notes the representatives of the steps on a path, the last one first.
fn settle(
    alloc: Global,
    given: &Given<'_>,
    forms: &Forms,
    images: &mut Table<Representative>,
    mut path: Vec<u32>,
) -> Result<(), NoMemory>
    requires sound { IsSound (case_given given.now) }
    requires forms { AreForms (case_given given.now) forms.now }
    requires images { AreRight (IsImageOf (case_given given.now)) images.old }
    requires path { IsPath (case_given given.now) forms.now images.old (reverse path.items) }
    ensures right { OnOk result (AreRight (IsImageOf (case_given given.now)) images.new) }
    ensures grown { OnOk result (Spread images.old images.new) }
    ensures known { OnOk result ((n : ℕ) → EndsIn (reverse path.items) n → IsKnown images.new n) }
{
    while let Some(number) = path.pop() {
        let image = image_of(alloc, given, forms, images, number)?;
        images.put(number, image)?;
    }
    Ok(())
}

/// Notes the representative of a step, unless it is known.
pub fn note_image(
    alloc: Global,
    given: &Given<'_>,
    notes: &mut Notes,
    number: u32,
) -> Result<(), NoMemory>
    requires sound { IsSound (case_given given.now) }
    requires stands { IsStep (case_given given.now).rows number }
    requires right { AreNotes (case_given given.now) notes.old }
    ensures right { OnOk result (AreNotes (case_given given.now) notes.new) }
    ensures forms { OnOk result (Grow notes.old.forms notes.new.forms) }
    ensures images { OnOk result (Spread notes.old.images notes.new.images) }
    ensures known { OnOk result (IsKnown notes.new.images number) }
{
    if notes.images.get(number).is_some() {
        return Ok(());
    }
    let path = climb(alloc, given, &mut notes.forms, &notes.images, number)?;
    settle(alloc, given, &notes.forms, &mut notes.images, path)
}

/// Notes the representatives of these steps.
fn note_each(
    alloc: Global,
    given: &Given<'_>,
    notes: &mut Notes,
    numbers: &[u32],
) -> Result<(), NoMemory>
    requires sound { IsSound (case_given given.now) }
    requires stand { (q : ℕ) → Contains numbers.now q → IsStep (case_given given.now).rows q }
    requires right { AreNotes (case_given given.now) notes.old }
    ensures right { OnOk result (AreNotes (case_given given.now) notes.new) }
    ensures forms { OnOk result (Grow notes.old.forms notes.new.forms) }
    ensures known { OnOk result ((q : ℕ) → Contains numbers.now q → IsKnown notes.new.images q) }
{
    for number in numbers {
        note_image(alloc, given, notes, *number)?;
    }
    Ok(())
}

/// Notes all that the verdict on a step wants to know.
pub fn prepare(
    alloc: Global,
    given: &Given<'_>,
    notes: &mut Notes,
    number: u32,
) -> Result<(), NoMemory>
    requires sound { IsSound (case_given given.now) }
    requires right { AreNotes (case_given given.now) notes.old }
    ensures right { OnOk result (AreNotes (case_given given.now) notes.new) }
    ensures prepared { OnOk result (IsPrepared (case_given given.now) notes.new number) }
{
    open(alloc, given, &mut notes.forms, number)?;
    note_each(alloc, given, notes, parents_at(given.rows, number))?;
    Ok(())
}
