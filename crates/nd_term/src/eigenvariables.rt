//! Variables by their levels.
#![tactic(auto, using(crate::proofs::LiftSteps::lift_steps))]

ghost use Rattle.std.specs.Prelude.{◌≡◌, ◌+◌, IfOk};
ghost use Rattle.lp_term.specs.View.{term_of};
ghost use Rattle.nd_term.specs.Places.{at_level, eigenvariables, shift_times, witnesses};

use crate::build::{symbol, variable};
use crate::place::Place;
use dk_syntax::NoMemory;
use lp_term::{Lp, lift};
use std::alloc::Global;

/// The variable that is bound at a level, at a place of a level.
pub fn at_level(level: u32, bound: u32) -> Lp
    ensures { term_of result ≡ at_level level bound }
{
    variable(level.saturating_sub(1).saturating_sub(bound))
}

/// The term so many binders further in.
pub fn further_in(alloc: Global, t: &Lp, binders: u32) -> Result<Lp, NoMemory>
    ensures { IfOk result (λ r. term_of r ≡ shift_times binders (term_of t.now)) }
{
    lift(alloc, t, binders, 0)
}

/// The number of binders before the k-th pair of them. A number past `u32` is want of memory.
fn pairs(first: u32, k: u32) -> Result<u32, NoMemory>
    ensures { IfOk result (λ level. level ≡ first + (k + k)) }
{
    let half = first.checked_add(k).ok_or(NoMemory)?;
    half.checked_add(k).ok_or(NoMemory)
}

/// The k-th eigenvariable, and `any` where there is none.
pub fn eigenvariable(alloc: Global, place: &Place<'_>, k: u32) -> Result<Lp, NoMemory>
    ensures { IfOk result (λ t. term_of t ≡ eigenvariables place.now k) }
{
    if (k as usize) < place.order.len() {
        return Ok(at_level(place.level, pairs(place.first_eigen, k)?));
    }
    symbol(alloc, b"any")
}

/// The variable after the k-th eigenvariable, and `any` where there is none.
pub fn witness(alloc: Global, place: &Place<'_>, k: u32) -> Result<Lp, NoMemory>
    ensures { IfOk result (λ t. term_of t ≡ witnesses place.now k) }
{
    if (k as usize) < place.order.len() {
        let before = pairs(place.first_eigen, k)?;
        return Ok(at_level(place.level, before.checked_add(1).ok_or(NoMemory)?));
    }
    symbol(alloc, b"any")
}
