//! How steps hang on their parents.
ghost use Rattle.std.specs.Prelude.{◌≡◌, ◌↔◌, ◌∷◌, [], ℕ, None, Bool, true, IsTrue, MatchOption, OnOk, IfOk};
ghost use Rattle.normal_form.specs.Sorting.{SameSorted};
ghost use Rattle.step_check.specs.Limits.{nodes_limit};
ghost use Rattle.step_check.specs.Notes.{AreForms, AreOwnsKnown, case_given, Grow, IsApart, IsFitted, IsLink, IsOpened, IsOwn, IsSortedOwn};
ghost use Rattle.step_check.specs.Representatives.{IsDerived, IsSame, IsSkolem, IsWithin};
ghost use Rattle.step_check.specs.Steps.{own_form};
ghost use Rattle.step_check.specs.Tables.{AreRight, IsKnown, Keeps};

use crate::given::{Given, has_conjecture_parent, parents_at, step_at};
use crate::limits::limit_of;
use crate::notes::{Forms, Link, Own};
use crate::own::{note_owns, own_form_of};
use crate::table::Table;
use dk_syntax::NoMemory;
use normal_form::{Sorted, nf_eq, sorted_of};
use std::alloc::Global;
use step_skolem::skolem_image;
use tstp_trace::StepSource;

/// The one parent of a derived step, which fits it, and whether the step says that it is a Skolem step.
#[derive(Clone, Copy)]
pub struct Fitted {
    pub parent: u32,
    pub skolem: bool,
}

/// The one number of the list.
fn only_one(numbers: &[u32]) -> Option<u32>
    ensures { MatchOption result ((q : ℕ) → numbers.now ≡ q ∷ [] → ⊥)
        (λ q. numbers.now ≡ q ∷ []) }
{
    if numbers.len() == 1 {
        Some(numbers[0])
    } else {
        None
    }
}

/// The parent of a step that is derived with these flags, where it has one parent and fits it.
fn fitted_parent(given: &Given<'_>, number: u32, cth: bool, esa: bool) -> Option<Fitted>
    requires { IsDerived (case_given given.now) number cth esa }
    ensures { MatchOption result
        ((q : ℕ) (skolem : Bool) → IsFitted (case_given given.now) number q skolem → ⊥)
        (λ it. IsFitted (case_given given.now) number it.parent it.skolem) }
{
    if has_conjecture_parent(given, number) != cth {
        return None;
    }
    match only_one(parents_at(given.rows, number)) {
        Some(parent) => Some(Fitted {
            parent,
            skolem: esa,
        }),
        None => None,
    }
}

/// The parent, where the step is derived, has one parent, and fits it.
fn fitted_at(given: &Given<'_>, number: u32) -> Option<Fitted>
    ensures { MatchOption result
        ((q : ℕ) (esa : Bool) → IsFitted (case_given given.now) number q esa → ⊥)
        (λ it. IsFitted (case_given given.now) number it.parent it.skolem) }
{
    match step_at(given.steps, number) {
        None => None,
        Some(step) => match &step.source {
            StepSource::Leaf(_) => None,
            StepSource::Derived { cth, esa, .. } => fitted_parent(given, number, *cth, *esa),
        },
    }
}

/// Notes the sorted form of a step's own form, unless it is known.
fn note_sorted(
    alloc: Global,
    given: &Given<'_>,
    owns: &Table<Own>,
    sorts: &mut Table<Sorted>,
    number: u32,
) -> Result<(), NoMemory>
    requires owns { AreRight (IsOwn (case_given given.now)) owns.now }
    requires known { IsKnown owns.now number }
    requires within { nodes_limit (own_form (case_given given.now) number) ≡ None }
    requires right { AreRight (IsSortedOwn (case_given given.now)) sorts.old }
    ensures right { OnOk result (AreRight (IsSortedOwn (case_given given.now)) sorts.new) }
    ensures kept { OnOk result (Keeps sorts.old sorts.new) }
    ensures known { OnOk result (IsKnown sorts.new number) }
{
    if sorts.get(number).is_some() {
        return Ok(());
    }
    let sorted = sorted_of(alloc, own_form_of(given, owns, number))?;
    sorts.put(number, sorted)?;
    Ok(())
}

/// Whether two own forms, whose sorted forms are known, are the same up to order and grouping.
fn same_sorted(given: &Given<'_>, sorts: &Table<Sorted>, number: u32, other: u32) -> bool
    requires right { AreRight (IsSortedOwn (case_given given.now)) sorts.now }
    requires known { IsKnown sorts.now number }
    requires other { IsKnown sorts.now other }
    ensures { IsTrue result ↔ IsSame (case_given given.now) number other }
{
    nf_eq(&sorts.known(number).form, &sorts.known(other).form)
}

/// How a Skolem step that isn't the same as its parent hangs on it.
fn skolem_link(
    alloc: Global,
    given: &Given<'_>,
    owns: &Table<Own>,
    number: u32,
    parent: u32,
) -> Result<Link, NoMemory>
    requires right { AreRight (IsOwn (case_given given.now)) owns.now }
    requires known { AreOwnsKnown (case_given given.now) owns.now number }
    requires within { IsWithin (case_given given.now) number }
    requires fitted { IsFitted (case_given given.now) number parent true }
    requires other { IsSame (case_given given.now) number parent → ⊥ }
    ensures { IfOk result (λ link. IsLink (case_given given.now) number link) }
{
    let to = own_form_of(given, owns, number);
    let from = own_form_of(given, owns, parent);
    let found = skolem_image(alloc, from, to)?;
    match found {
        Some(map) => Ok(Link::Skolem(parent, map)),
        None => Ok(Link::Apart),
    }
}

/// How a step hangs on the parent, which it fits.
fn fitted_link(
    alloc: Global,
    given: &Given<'_>,
    owns: &Table<Own>,
    sorts: &mut Table<Sorted>,
    number: u32,
    fitted: Fitted,
) -> Result<Link, NoMemory>
    requires right { AreRight (IsOwn (case_given given.now)) owns.now }
    requires sorts { AreRight (IsSortedOwn (case_given given.now)) sorts.old }
    requires known { AreOwnsKnown (case_given given.now) owns.now number }
    requires within { IsWithin (case_given given.now) number }
    requires fitted { IsFitted (case_given given.now) number fitted.parent fitted.skolem }
    ensures link { IfOk result (λ link. IsLink (case_given given.now) number link) }
    ensures sorts { OnOk result (AreRight (IsSortedOwn (case_given given.now)) sorts.new) }
{
    note_sorted(alloc, given, owns, sorts, number)?;
    note_sorted(alloc, given, owns, sorts, fitted.parent)?;
    if same_sorted(given, sorts, number, fitted.parent) {
        return Ok(Link::Same(fitted.parent));
    }
    if fitted.skolem {
        return skolem_link(alloc, given, owns, number, fitted.parent);
    }
    Ok(Link::Apart)
}

/// How a step hangs on its parent.
fn link_of(
    alloc: Global,
    given: &Given<'_>,
    owns: &Table<Own>,
    sorts: &mut Table<Sorted>,
    number: u32,
) -> Result<Link, NoMemory>
    requires right { AreRight (IsOwn (case_given given.now)) owns.now }
    requires sorts { AreRight (IsSortedOwn (case_given given.now)) sorts.old }
    requires known { AreOwnsKnown (case_given given.now) owns.now number }
    ensures link { IfOk result (λ link. IsLink (case_given given.now) number link) }
    ensures sorts { OnOk result (AreRight (IsSortedOwn (case_given given.now)) sorts.new) }
{
    if limit_of(given, owns, number).is_some() {
        return Ok(Link::Apart);
    }
    match fitted_at(given, number) {
        Some(fitted) => fitted_link(alloc, given, owns, sorts, number, fitted),
        None => Ok(Link::Apart),
    }
}

/// Notes how a step hangs on its parent, unless it is known.
fn note_link(
    alloc: Global,
    given: &Given<'_>,
    forms: &mut Forms,
    number: u32,
) -> Result<(), NoMemory>
    requires right { AreForms (case_given given.now) forms.old }
    requires known { AreOwnsKnown (case_given given.now) forms.old.owns number }
    ensures right { OnOk result (AreForms (case_given given.now) forms.new) }
    ensures owns { OnOk result (forms.new.owns ≡ forms.old.owns) }
    ensures kept { OnOk result (Keeps forms.old.links forms.new.links) }
    ensures known { OnOk result (IsKnown forms.new.links number) }
{
    if forms.links.get(number).is_some() {
        return Ok(());
    }
    let link = link_of(alloc, given, &forms.owns, &mut forms.sorts, number)?;
    forms.links.put(number, link)?;
    Ok(())
}

/// Notes the own forms of a step and of its parents, and how the step hangs on its parent.
pub fn open(
    alloc: Global,
    given: &Given<'_>,
    forms: &mut Forms,
    number: u32,
) -> Result<(), NoMemory>
    requires right { AreForms (case_given given.now) forms.old }
    ensures right { OnOk result (AreForms (case_given given.now) forms.new) }
    ensures grown { OnOk result (Grow forms.old forms.new) }
    ensures opened { OnOk result (IsOpened (case_given given.now) forms.new number) }
{
    note_owns(alloc, given, &mut forms.owns, number)?;
    note_link(alloc, given, forms, number)
}
