//! The search through the clauses of all parents.
ghost use Rattle.std.specs.Prelude.{◌≡◌, IfOk, Option};
ghost use Rattle.step_clause.specs.Justifications.{AreNumbered, IsJustification, IsNumbered, IsNumberedList};
ghost use Rattle.step_clause.specs.Places.{Among, AmongAt, ClauseResolvesBy, IsAnswer, IsClauseResolution, IsListResolution, IsListSubsumption, IsParentResolution, ListResolvesBy, ListSubsumesBy, ParentResolvesBy};

use crate::justification::Justification;
use crate::places::{Place, number_of};
use crate::resolution::resolve;
use crate::subsumption::subsume;
use dk_syntax::{Clause, NoMemory, Seq};
use normal_form::ClauseList;
use std::alloc::Global;

/// The least subsumption from a clause of a parent's list.
fn subsume_by_list(
    alloc: Global,
    target: &Clause,
    list: &ClauseList,
    parent: u32,
) -> Result<Option<Justification>, NoMemory>
    requires target { IsNumbered target.now }
    requires list { IsNumberedList list.now }
    ensures { IfOk result (λ answer. IsAnswer (ListSubsumesBy target.now list.now)
        (IsListSubsumption target.now parent list.now) answer) }
{
    let rows = list.rows.as_slice();
    for k in 0..rows.len() {
        let number = number_of(k)?;
        let found = subsume(alloc, target, &rows[k].clause, Place { parent, number })?;
        if let Some(it) = found {
            return Ok(Some(it));
        }
    }
    Ok(None)
}

/// The least subsumption.
fn least_subsumption(
    alloc: Global,
    target: &Clause,
    parents: &[ClauseList],
) -> Result<Option<Justification>, NoMemory>
    requires target { IsNumbered target.now }
    requires parents { AreNumbered parents.now }
    ensures { IfOk result (λ answer. IsAnswer (Among (ListSubsumesBy target.now) parents.now)
        (λ it. AmongAt (λ parent list. IsListSubsumption target.now parent list it) parents.now)
        answer) }
{
    for k in 0..parents.len() {
        let parent = number_of(k)?;
        let found = subsume_by_list(alloc, target, &parents[k], parent)?;
        if let Some(it) = found {
            return Ok(Some(it));
        }
    }
    Ok(None)
}

/// The least resolution of a clause with one of a parent's list.
fn resolve_with_list(
    alloc: Global,
    target: &Clause,
    first: &Clause,
    at: Place,
    list: &ClauseList,
    parent: u32,
) -> Result<Option<Justification>, NoMemory>
    requires target { IsNumbered target.now }
    requires first { IsNumbered first.now }
    requires list { IsNumberedList list.now }
    ensures { IfOk result (λ answer. IsAnswer (ListResolvesBy target.now first.now list.now)
        (IsListResolution target.now at first.now parent list.now) answer) }
{
    let rows = list.rows.as_slice();
    for k in 0..rows.len() {
        let number = number_of(k)?;
        let found = resolve(
            alloc,
            target,
            first,
            &rows[k].clause,
            at,
            Place { parent, number },
        )?;
        if let Some(it) = found {
            return Ok(Some(it));
        }
    }
    Ok(None)
}

/// The least resolution of a clause with one of a parent.
fn resolve_with_parents(
    alloc: Global,
    target: &Clause,
    parents: &[ClauseList],
    first: &Clause,
    at: Place,
) -> Result<Option<Justification>, NoMemory>
    requires target { IsNumbered target.now }
    requires parents { AreNumbered parents.now }
    requires first { IsNumbered first.now }
    ensures { IfOk result (λ answer. IsAnswer (ClauseResolvesBy target.now parents.now first.now)
        (IsClauseResolution target.now parents.now at first.now) answer) }
{
    for k in 0..parents.len() {
        let parent = number_of(k)?;
        let found = resolve_with_list(alloc, target, first, at, &parents[k], parent)?;
        if let Some(it) = found {
            return Ok(Some(it));
        }
    }
    Ok(None)
}

/// The least resolution of a clause of a parent's list.
fn resolve_list(
    alloc: Global,
    target: &Clause,
    parents: &[ClauseList],
    list: &ClauseList,
    parent: u32,
) -> Result<Option<Justification>, NoMemory>
    requires target { IsNumbered target.now }
    requires parents { AreNumbered parents.now }
    requires list { IsNumberedList list.now }
    ensures { IfOk result (λ answer. IsAnswer (ParentResolvesBy target.now parents.now list.now)
        (IsParentResolution target.now parents.now parent list.now) answer) }
{
    let rows = list.rows.as_slice();
    for k in 0..rows.len() {
        let number = number_of(k)?;
        let at = Place { parent, number };
        let found = resolve_with_parents(alloc, target, parents, &rows[k].clause, at)?;
        if let Some(it) = found {
            return Ok(Some(it));
        }
    }
    Ok(None)
}

/// The least resolution.
fn least_resolution(
    alloc: Global,
    target: &Clause,
    parents: &[ClauseList],
) -> Result<Option<Justification>, NoMemory>
    requires target { IsNumbered target.now }
    requires parents { AreNumbered parents.now }
    ensures { IfOk result (λ answer. IsAnswer
        (Among (ParentResolvesBy target.now parents.now) parents.now)
        (λ it. AmongAt (λ parent list. IsParentResolution target.now parents.now parent list it)
        parents.now) answer) }
{
    for k in 0..parents.len() {
        let parent = number_of(k)?;
        let found = resolve_list(alloc, target, parents, &parents[k], parent)?;
        if let Some(it) = found {
            return Ok(Some(it));
        }
    }
    Ok(None)
}

/// The least justification of the target from clauses of its parents' lists, or `None` where there is none.
pub fn justify(
    alloc: Global,
    target: &Clause,
    parents: &Seq<ClauseList>,
) -> Result<Option<Justification>, NoMemory>
    requires target { IsNumbered target.now }
    requires parents { AreNumbered parents.now }
    ensures answer { IfOk result (λ answer. IsJustification target.now parents.now answer) }
    ensures alone { IfOk result (λ answer. (other : Option Justification)
        → IsJustification target.now parents.now other → other ≡ answer) }
{
    let found = least_subsumption(alloc, target, parents.as_slice())?;
    match found {
        Some(it) => Ok(Some(it)),
        None => {
            let last = least_resolution(alloc, target, parents.as_slice())?;
            Ok(last)
        }
    }
}
