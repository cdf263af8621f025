//! Subsumption: each literal of one clause becomes a literal of the target.
ghost use Rattle.std.specs.Prelude.{◌≡◌, ◌+◌, map, replicate, None, IfOk};
ghost use Rattle.step_clause.specs.Justifications.{IsNumbered};
ghost use Rattle.step_clause.specs.Places.{IsAnswer, IsSubsumption, SubsumesBy};
ghost use Rattle.step_clause.specs.Search.{Fits, IsFound};
ghost use Rattle.step_clause.specs.Slots.{none_wanted, slot_of};

use crate::justification::Justification;
use crate::places::Place;
use crate::search::{Found, least_picks};
use crate::slots::{Pivots, Side, add_slots};
use crate::values::closed_values;
use dk_syntax::{Clause, NoMemory, Seq};
use std::alloc::Global;
use unifier::{Bindings, settled};

fn subsuming_picks(
    alloc: Global,
    target: &Clause,
    clause: &Clause,
) -> Result<Option<Found>, NoMemory>
    requires target { IsNumbered target.now }
    requires clause { IsNumbered clause.now }
    ensures { IfOk result (λ answer. IsFound target.now.vars
        (λ r qs. Fits r target.now.lits none_wanted
        (map (slot_of target.now.vars Side.Kept) clause.now.lits) qs)
        (replicate (target.now.vars + clause.now.vars) None) answer) }
{
    let count = target.vars.checked_add(clause.vars).ok_or(NoMemory)?;
    let mut slots = Seq::from_vec(Vec::new(alloc));
    add_slots(
        alloc,
        &mut slots,
        clause.lits.as_slice(),
        target.vars,
        Side::Kept,
    )?;
    let bindings = Bindings::unbound(alloc, count)?;
    let pivots = Pivots {
        first: None,
        wants_positive: false,
        wants_negative: false,
    };
    let found = least_picks(alloc, target, &bindings, &pivots, slots.as_slice())?;
    Ok(found)
}

/// The least justification by subsumption from one clause.
pub fn subsume(
    alloc: Global,
    target: &Clause,
    clause: &Clause,
    at: Place,
) -> Result<Option<Justification>, NoMemory>
    requires target { IsNumbered target.now }
    requires clause { IsNumbered clause.now }
    ensures { IfOk result (λ answer. IsAnswer (SubsumesBy target.now clause.now)
        (IsSubsumption target.now at.parent at.number clause.now) answer) }
{
    let found = subsuming_picks(alloc, target, clause)?;
    match found {
        None => Ok(None),
        Some(f) => {
            let solution = settled(alloc, &f.bindings)?;
            let terms = closed_values(alloc, &solution, target.vars, target.vars, clause.vars)?;
            let Found { picks, bindings: _ } = f;
            Ok(Some(Justification::Subsume {
                parent: at.parent,
                clause: at.number,
                picks,
                terms,
            }))
        }
    }
}
