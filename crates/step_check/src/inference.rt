//! Verdicts on steps that come from other steps.
ghost use Rattle.std.specs.Prelude.{◌≡◌, [], ℕ, false, None, Contains, IfOk, MatchOption};
ghost use Rattle.std.specs.List.{list_any};
ghost use Rattle.normal_form.specs.Existentials.{existential_in};
ghost use Rattle.step_check.specs.Limits.{nodes_limit};
ghost use Rattle.step_check.specs.Notes.{AreNotes, case_given, IsCarriedVerdict, IsMisfit, IsPrepared, IsSound};
ghost use Rattle.step_check.specs.Representatives.{IsDerived, IsFit, IsWithin, MayCompose};
ghost use Rattle.step_check.specs.Steps.{own_form};
ghost use Rattle.step_check.specs.Steps as spec;
ghost use Rattle.step_check.specs.Tables.{IsKnown};
ghost use Rattle.step_check.specs.Verdicts.{HasVerdict, IsFlaggedVerdict, IsInferenceVerdict, IsOtherVerdict, IsPlainVerdict, IsWithinAll};

use crate::aliens::aliens_of;
use crate::clausal::{clausal_verdict, listed, lists_at};
use crate::given::{Given, has_conjecture_parent, parents_at};
use crate::images::{carried_map, representative_of};
use crate::limits::{exists_in, may_compose};
use crate::notes::{Link, Notes};
use crate::own::{full_limit_of, own_form_of};
use crate::verdict::{Limit, Reason, Verdict};
use dk_syntax::{NoMemory, Seq};
use std::alloc::Global;
use step_compose::compose_image;
use step_skolem::SkMap;

/// Whether an existential stands in the own form of one of the steps.
fn one_exists(given: &Given<'_>, notes: &Notes, numbers: &[u32]) -> bool
    requires right { AreNotes (case_given given.now) notes.now }
    requires known { (q : ℕ) → Contains numbers.now q → IsKnown notes.now.forms.owns q }
    requires within { (q : ℕ) → Contains numbers.now q
        → nodes_limit (own_form (case_given given.now) q) ≡ None }
    ensures { result ≡ list_any (λ q. existential_in (own_form (case_given given.now) q))
        numbers.now }
{
    for number in numbers {
        if exists_in(given, &notes.forms.owns, *number) {
            return true;
        }
    }
    false
}

/// Whether an existential stands in the own form of the step or of a parent.
fn has_existential(given: &Given<'_>, notes: &Notes, number: u32) -> bool
    requires right { AreNotes (case_given given.now) notes.now }
    requires prepared { IsPrepared (case_given given.now) notes.now number }
    requires within { IsWithin (case_given given.now) number }
    ensures { result ≡ spec.has_existential (case_given given.now) number }
{
    exists_in(given, &notes.forms.owns, number)
        || one_exists(given, notes, parents_at(given.rows, number))
}

/// The verdict by the clauses of the parents' representatives, where no existential and no new symbol is there.
fn by_clauses(
    alloc: Global,
    given: &Given<'_>,
    notes: &Notes,
    number: u32,
) -> Result<Verdict, NoMemory>
    requires sound { IsSound (case_given given.now) }
    requires right { AreNotes (case_given given.now) notes.now }
    requires prepared { IsPrepared (case_given given.now) notes.now number }
    requires within { IsWithin (case_given given.now) number }
    requires plain { spec.has_existential (case_given given.now) number ≡ false }
    requires known { spec.aliens_of (case_given given.now) number ≡ [] }
    ensures { IfOk result (λ verdict. IsPlainVerdict (case_given given.now) number verdict) }
{
    let targets = listed(alloc, own_form_of(given, &notes.forms.owns, number))?;
    let lists = lists_at(alloc, given, notes, parents_at(given.rows, number))?;
    clausal_verdict(alloc, &targets, &lists)
}

/// The verdict on a step without a flag that isn't structural.
fn plain_verdict(
    alloc: Global,
    given: &Given<'_>,
    notes: &Notes,
    number: u32,
) -> Result<Verdict, NoMemory>
    requires sound { IsSound (case_given given.now) }
    requires right { AreNotes (case_given given.now) notes.now }
    requires prepared { IsPrepared (case_given given.now) notes.now number }
    requires within { IsWithin (case_given given.now) number }
    ensures { IfOk result (λ verdict. IsPlainVerdict (case_given given.now) number verdict) }
{
    if has_existential(given, notes, number) {
        return Ok(Verdict::Wrong(Reason::HasExists));
    }
    let aliens = aliens_of(alloc, given, number)?;
    match aliens.as_slice().first() {
        Some(alien) => Ok(Verdict::Wrong(Reason::AlienSymbol(alien.copy(alloc)?))),
        None => by_clauses(alloc, given, notes, number),
    }
}

/// The verdict by a composed image of the parent's representative, which is in question.
fn composed_verdict(
    alloc: Global,
    given: &Given<'_>,
    notes: &Notes,
    number: u32,
    parent: u32,
) -> Result<Verdict, NoMemory>
    requires right { AreNotes (case_given given.now) notes.now }
    requires prepared { IsPrepared (case_given given.now) notes.now number }
    requires within { IsWithinAll (case_given given.now) number }
    requires may { MayCompose (case_given given.now) number parent }
    ensures { IfOk result (λ verdict. IsFlaggedVerdict (case_given given.now) number verdict) }
{
    let above = representative_of(given, &notes.forms, &notes.images, parent);
    let targets = listed(alloc, own_form_of(given, &notes.forms.owns, number))?;
    let aliens = aliens_of(alloc, given, number)?;
    let found = compose_image(alloc, above, &aliens, &targets)?;
    match found {
        Some(composed) => Ok(Verdict::Composes(composed)),
        None => Ok(Verdict::Wrong(Reason::NotImage)),
    }
}

/// The one parent from which a composed image is in question.
fn composing_parent(given: &Given<'_>, notes: &Notes, number: u32) -> Option<u32>
    requires right { AreNotes (case_given given.now) notes.now }
    requires prepared { IsPrepared (case_given given.now) notes.now number }
    requires within { IsWithin (case_given given.now) number }
    ensures { MatchOption result ((q : ℕ) → MayCompose (case_given given.now) number q → ⊥)
        (λ q. MayCompose (case_given given.now) number q) }
{
    if may_compose(given, &notes.forms.owns, number) {
        parents_at(given.rows, number).first().copied()
    } else {
        None
    }
}

/// The verdict on a step with a flag that isn't structural.
fn flagged_verdict(
    alloc: Global,
    given: &Given<'_>,
    notes: &Notes,
    number: u32,
) -> Result<Verdict, NoMemory>
    requires right { AreNotes (case_given given.now) notes.now }
    requires prepared { IsPrepared (case_given given.now) notes.now number }
    requires within { IsWithinAll (case_given given.now) number }
    ensures { IfOk result (λ verdict. IsFlaggedVerdict (case_given given.now) number verdict) }
{
    match composing_parent(given, notes, number) {
        Some(parent) => composed_verdict(alloc, given, notes, number, parent),
        None => Ok(Verdict::Wrong(Reason::NotImage)),
    }
}

/// The verdict on a step that fits its parents and isn't structural.
fn other_verdict(
    alloc: Global,
    given: &Given<'_>,
    notes: &Notes,
    number: u32,
    cth: bool,
    esa: bool,
) -> Result<Verdict, NoMemory>
    requires sound { IsSound (case_given given.now) }
    requires right { AreNotes (case_given given.now) notes.now }
    requires prepared { IsPrepared (case_given given.now) notes.now number }
    requires within { IsWithinAll (case_given given.now) number }
    ensures { IfOk result (λ verdict.
        IsOtherVerdict (case_given given.now) number cth esa verdict) }
{
    if cth || esa {
        return flagged_verdict(alloc, given, notes, number);
    }
    plain_verdict(alloc, given, notes, number)
}

/// The verdict on a step that is a Skolem image of its parent under the map.
fn skolem_verdict(
    alloc: Global,
    given: &Given<'_>,
    notes: &Notes,
    parent: u32,
    map: &SkMap,
) -> Result<Verdict, NoMemory>
    requires right { AreNotes (case_given given.now) notes.now }
    requires own { IsKnown notes.now.forms.owns parent }
    requires image { IsKnown notes.now.images parent }
    requires within { nodes_limit (own_form (case_given given.now) parent) ≡ None }
    ensures { IfOk result (λ verdict.
        IsCarriedVerdict (case_given given.now) parent map.now.entries verdict) }
{
    let above = representative_of(given, &notes.forms, &notes.images, parent);
    let own = own_form_of(given, &notes.forms.owns, parent);
    let carried = carried_map(alloc, own, above, map)?;
    Ok(Verdict::Structural(carried))
}

/// The verdict on a step that fits its parents.
fn fit_verdict(
    alloc: Global,
    given: &Given<'_>,
    notes: &Notes,
    number: u32,
    cth: bool,
    esa: bool,
) -> Result<Verdict, NoMemory>
    requires sound { IsSound (case_given given.now) }
    requires right { AreNotes (case_given given.now) notes.now }
    requires prepared { IsPrepared (case_given given.now) notes.now number }
    requires within { IsWithinAll (case_given given.now) number }
    requires derived { IsDerived (case_given given.now) number cth esa }
    requires fit { IsFit (case_given given.now) number cth }
    ensures { IfOk result (λ verdict.
        IsInferenceVerdict (case_given given.now) number cth esa verdict) }
{
    match notes.forms.links.known(number) {
        Link::Same(_) => Ok(Verdict::Structural(SkMap {
            entries: Seq::new(alloc),
        })),
        Link::Skolem(parent, map) => skolem_verdict(alloc, given, notes, *parent, map),
        Link::Apart => other_verdict(alloc, given, notes, number, cth, esa),
    }
}

/// What is wrong with a step that doesn't fit its parents.
fn misfit(given: &Given<'_>, number: u32, cth: bool) -> Option<Reason>
    ensures { MatchOption result (IsFit (case_given given.now) number cth)
        (λ reason. IsMisfit (case_given given.now) number cth reason) }
{
    match (has_conjecture_parent(given, number), cth) {
        (true, false) => Some(Reason::ConjectureParent),
        (false, true) => Some(Reason::NotConjecture),
        _ => None,
    }
}

/// The limit that the full image of the parent's representative passes, where it is in question.
fn full_limit(given: &Given<'_>, notes: &Notes, number: u32) -> Option<Limit>
    requires right { AreNotes (case_given given.now) notes.now }
    requires prepared { IsPrepared (case_given given.now) notes.now number }
    requires within { IsWithin (case_given given.now) number }
    ensures { MatchOption result (IsWithinAll (case_given given.now) number)
        (λ limit. HasVerdict (case_given given.now) number (Verdict.Over limit)) }
{
    let parent = composing_parent(given, notes, number)?;
    let above = representative_of(given, &notes.forms, &notes.images, parent);
    full_limit_of(above)
}

/// The verdict on a step that comes from other steps, where no own form passes a limit.
pub fn inference_verdict(
    alloc: Global,
    given: &Given<'_>,
    notes: &Notes,
    number: u32,
    cth: bool,
    esa: bool,
) -> Result<Verdict, NoMemory>
    requires sound { IsSound (case_given given.now) }
    requires right { AreNotes (case_given given.now) notes.now }
    requires prepared { IsPrepared (case_given given.now) notes.now number }
    requires within { IsWithin (case_given given.now) number }
    requires derived { IsDerived (case_given given.now) number cth esa }
    ensures { IfOk result (λ verdict. HasVerdict (case_given given.now) number verdict) }
{
    if let Some(limit) = full_limit(given, notes, number) {
        return Ok(Verdict::Over(limit));
    }
    if let Some(reason) = misfit(given, number, cth) {
        return Ok(Verdict::Wrong(reason));
    }
    fit_verdict(alloc, given, notes, number, cth, esa)
}
