//! Steps that lie on cycles.
ghost use Rattle.std.specs.Prelude.{◌≡◌, ℕ, ◌+◌, ◌↔◌, ◌<◌, [], ◌∷◌, length, IfOk, IfSome, IsTrue, MatchOption, OnOk};
ghost use Rattle.derivation_graph.specs.Graphs.{HasNoCycle, HasStepsForParents, IsLeastOnCycle, IsOnCycle, parents_in};
ghost use Rattle.derivation_graph.specs.Orders.{HasOrder};
ghost use Rattle.derivation_graph.specs.Ranks.{NeverFalls, NeverFallsFrom, RisesFrom};
ghost use Rattle.derivation_graph.specs.Reach.{Spreads};

use crate::listing::list_ready;
use crate::ranks::{guessed_ranks, rank_of};
use crate::rows::{is_marked, parents_at};
use dk_syntax::{NoMemory, Seq};
use std::alloc::Global;

/// Marks the number, unless it is marked, and puts it on the list of steps to visit.
fn reach(seen: &mut Vec<bool>, pending: &mut Vec<u32>, number: u32) -> Result<(), NoMemory>
    requires { number < length seen.old.items }
    ensures { OnOk result (Spreads (number ∷ []) seen.old.items seen.new.items pending.old.items
        pending.new.items) }
{
    if is_marked(seen.as_slice(), number) {
        return Ok(());
    }
    seen[number as usize] = true;
    pending.push(number)?;
    Ok(())
}

/// The same for each parent of the step.
fn visit(
    rows: &[Seq<u32>],
    seen: &mut Vec<bool>,
    pending: &mut Vec<u32>,
    step: u32,
) -> Result<(), NoMemory>
    requires parents { HasStepsForParents rows.now }
    requires long { length seen.old.items ≡ length rows.now + 1 }
    ensures { OnOk result (Spreads (parents_in rows.now step) seen.old.items seen.new.items
        pending.old.items pending.new.items) }
{
    for parent in parents_at(rows, step) {
        reach(seen, pending, *parent)?;
    }
    Ok(())
}

/// Whether a walk leads from the step to itself.
fn is_on_cycle(alloc: Global, rows: &[Seq<u32>], step: u32) -> Result<bool, NoMemory>
    requires { HasStepsForParents rows.now }
    ensures { IfOk result (λ found. IsTrue found ↔ IsOnCycle rows.now step) }
{
    let mut seen = vec![in alloc; false; rows.len() + 1]?;
    let mut pending = Vec::new(alloc);
    visit(rows, &mut seen, &mut pending, step)?;
    while let Some(next) = pending.pop() {
        visit(rows, &mut seen, &mut pending, next)?;
    }
    Ok(is_marked(seen.as_slice(), step))
}

/// Whether each parent of the step has at least its rank.
fn never_falls_from(rows: &[Seq<u32>], ranks: &[u32], step: u32) -> bool
    ensures { IsTrue result → NeverFallsFrom rows.now ranks.now step }
{
    let rank = rank_of(ranks, step);
    for parent in parents_at(rows, step) {
        if rank_of(ranks, *parent) < rank {
            return false;
        }
    }
    true
}

/// Whether each parent of any step has at least its rank.
fn never_falls(rows: &[Seq<u32>], ranks: &[u32]) -> bool
    ensures { IsTrue result → NeverFalls rows.now ranks.now }
{
    let Ok(count) = u32::try_from(rows.len()) else {
        return false;
    };
    for place in 0..count {
        if !never_falls_from(rows, ranks, place + 1) {
            return false;
        }
    }
    true
}

/// Whether each parent of the step has a greater rank.
fn rises_from(rows: &[Seq<u32>], ranks: &[u32], step: u32) -> bool
    ensures { IsTrue result → RisesFrom rows.now ranks.now step }
{
    let rank = rank_of(ranks, step);
    for parent in parents_at(rows, step) {
        if rank_of(ranks, *parent) <= rank {
            return false;
        }
    }
    true
}

/// The first step with a parent of no greater rank.
fn first_level(rows: &[Seq<u32>], ranks: &[u32]) -> Option<u32>
    ensures { IfSome result (λ step. (other : ℕ) → other < step
        → RisesFrom rows.now ranks.now other) }
{
    let Ok(count) = u32::try_from(rows.len()) else {
        return None;
    };
    for place in 0..count {
        if !rises_from(rows, ranks, place + 1) {
            return Some(place + 1);
        }
    }
    None
}

/// The least step that lies on a cycle, where these ranks show it: they never fall, and rise from each step
/// before it.
fn shown_cycle(alloc: Global, rows: &[Seq<u32>], ranks: &[u32]) -> Result<Option<u32>, NoMemory>
    requires { HasStepsForParents rows.now }
    ensures { IfOk result (λ found. IfSome found (IsLeastOnCycle rows.now)) }
{
    if !never_falls(rows, ranks) {
        return Ok(None);
    }
    let Some(step) = first_level(rows, ranks) else {
        return Ok(None);
    };
    if is_on_cycle(alloc, rows, step)? {
        return Ok(Some(step));
    }
    Ok(None)
}

/// The least step that lies on a cycle, by a walk from each step in turn.
fn walked_cycle(alloc: Global, rows: &[Seq<u32>]) -> Result<Option<u32>, NoMemory>
    requires { HasStepsForParents rows.now }
    ensures { IfOk result (λ found. MatchOption found (HasNoCycle rows.now)
        (IsLeastOnCycle rows.now)) }
{
    let Ok(count) = u32::try_from(rows.len()) else {
        return Err(NoMemory);
    };
    for place in 0..count {
        if is_on_cycle(alloc, rows, place + 1)? {
            return Ok(Some(place + 1));
        }
    }
    Ok(None)
}

/// The least step that lies on a cycle. The ranks that are guessed show it; if ever they did not, walks would.
fn least_on_cycle(alloc: Global, rows: &[Seq<u32>]) -> Result<Option<u32>, NoMemory>
    requires { HasStepsForParents rows.now }
    ensures { IfOk result (λ found. MatchOption found (HasNoCycle rows.now)
        (IsLeastOnCycle rows.now)) }
{
    let ranks = guessed_ranks(alloc, rows)?;
    match shown_cycle(alloc, rows, ranks.as_slice())? {
        Some(step) => Ok(Some(step)),
        None => walked_cycle(alloc, rows),
    }
}

/// The same, or none where there is an order of the steps.
pub fn find_cycle(alloc: Global, rows: &[Seq<u32>]) -> Result<Option<u32>, NoMemory>
    requires { HasStepsForParents rows.now }
    ensures { IfOk result (λ found. MatchOption found (HasNoCycle rows.now
        × HasOrder rows.now) (IsLeastOnCycle rows.now)) }
{
    let listing = list_ready(alloc, rows)?;
    if listing.whole {
        return Ok(None);
    }
    let found = least_on_cycle(alloc, rows)?;
    Ok(found)
}
