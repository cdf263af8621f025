//! Resolution: the pivots of two clauses are of one atom, and each other literal becomes a literal of the target.
ghost use Rattle.std.specs.Prelude.{◌≡◌, ◌+◌, ◌++◌, map, replicate, take, drop, length, None, IfOk};
ghost use Rattle.step_clause.specs.Justifications.{IsNumbered};
ghost use Rattle.step_clause.specs.Places.{IsAnswer, IsResolution, ResolvesBy};
ghost use Rattle.step_clause.specs.Search.{Fits, IsFound};
ghost use Rattle.step_clause.specs.Slots.{both_wanted, slot_of};

use crate::justification::Justification;
use crate::places::Place;
use crate::search::{Found, least_picks};
use crate::slots::{Pivots, Side, add_slots};
use crate::values::closed_values;
use dk_syntax::{Clause, NoMemory, Seq};
use std::alloc::Global;
use unifier::{Bindings, settled};

fn resolving_picks(
    alloc: Global,
    target: &Clause,
    first: &Clause,
    second: &Clause,
) -> Result<Option<Found>, NoMemory>
    requires target { IsNumbered target.now }
    requires first { IsNumbered first.now }
    requires second { IsNumbered second.now }
    ensures { IfOk result (λ answer. IsFound target.now.vars
        (λ r qs. Fits r target.now.lits both_wanted
        (map (slot_of target.now.vars Side.Positive) first.now.lits
        ++ map (slot_of (target.now.vars + first.now.vars) Side.Negative) second.now.lits) qs)
        (replicate (target.now.vars + first.now.vars + second.now.vars) None) answer) }
{
    let from = target.vars.checked_add(first.vars).ok_or(NoMemory)?;
    let count = from.checked_add(second.vars).ok_or(NoMemory)?;
    let mut slots = Seq::from_vec(Vec::new(alloc));
    add_slots(
        alloc,
        &mut slots,
        first.lits.as_slice(),
        target.vars,
        Side::Positive,
    )?;
    add_slots(
        alloc,
        &mut slots,
        second.lits.as_slice(),
        from,
        Side::Negative,
    )?;
    let bindings = Bindings::unbound(alloc, count)?;
    let pivots = Pivots {
        first: None,
        wants_positive: true,
        wants_negative: true,
    };
    let found = least_picks(alloc, target, &bindings, &pivots, slots.as_slice())?;
    Ok(found)
}

fn copied(alloc: Global, numbers: &[u32]) -> Result<Seq<u32>, NoMemory>
    ensures { IfOk result (λ all. all ≡ numbers.now) }
{
    let mut all = Vec::new(alloc);
    all.extend_from_slice(numbers)?;
    Ok(Seq::from_vec(all))
}

/// The first numbers, that many, and the others.
fn split(alloc: Global, numbers: &[u32], at: usize) -> Result<(Seq<u32>, Seq<u32>), NoMemory>
    ensures { IfOk result (λ parts. (parts.0 ≡ take at numbers.now)
        × (parts.1 ≡ drop at numbers.now)) }
{
    if at > numbers.len() {
        let all = copied(alloc, numbers)?;
        return Ok((all, Seq::from_vec(Vec::new(alloc))));
    }
    let first = copied(alloc, &numbers[..at])?;
    let others = copied(alloc, &numbers[at..])?;
    Ok((first, others))
}

/// The least justification by resolution of one clause with another.
pub fn resolve(
    alloc: Global,
    target: &Clause,
    first: &Clause,
    second: &Clause,
    at: Place,
    other: Place,
) -> Result<Option<Justification>, NoMemory>
    requires target { IsNumbered target.now }
    requires first { IsNumbered first.now }
    requires second { IsNumbered second.now }
    ensures { IfOk result (λ answer. IsAnswer (ResolvesBy target.now first.now second.now)
        (IsResolution target.now at.parent at.number other.parent other.number first.now second.now)
        answer) }
{
    let found = resolving_picks(alloc, target, first, second)?;
    match found {
        None => Ok(None),
        Some(f) => {
            let from = target.vars.checked_add(first.vars).ok_or(NoMemory)?;
            let solution = settled(alloc, &f.bindings)?;
            let pos_terms = closed_values(alloc, &solution, target.vars, target.vars, first.vars)?;
            let neg_terms = closed_values(alloc, &solution, target.vars, from, second.vars)?;
            let (pos_picks, neg_picks) = split(alloc, f.picks.as_slice(), first.lits.len())?;
            Ok(Some(Justification::Resolve {
                pos_parent: at.parent,
                pos_clause: at.number,
                neg_parent: other.parent,
                neg_clause: other.number,
                pos_picks,
                neg_picks,
                pos_terms,
                neg_terms,
            }))
        }
    }
}
