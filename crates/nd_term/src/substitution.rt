//! Values put into translations.
#![tactic(auto, using(crate::proofs::SpotSteps::substitution_steps))]

ghost use Rattle.std.specs.Prelude.{◌≡◌, ◌≤◌, ◌+◌, ◌-◌, get_or, IfOk};
ghost use Rattle.lp_term.specs.LambdaPi.{substitute};
ghost use Rattle.lp_term.specs.View.{term_of};
ghost use Rattle.nd_term.specs.Places.{eigenvariables, shift_times};
ghost use Rattle.nd_term.specs.Spots.{frame_of, value_of, value_under};
ghost use Rattle.nd_term.specs.Translation.{translated_ground};

use crate::build::{apply, lambda, product, symbol, variable};
use crate::eigenvariables::{eigenvariable, further_in};
use crate::ground::ground_term;
use crate::place::Place;
use crate::spot::Spot;
use crate::values::Value;
use dk_syntax::NoMemory;
use lp_term::Lp;
use std::alloc::Global;

/// A value at the place.
pub fn value_term(alloc: Global, place: &Place<'_>, value: Value<'_>) -> Result<Lp, NoMemory>
    ensures { IfOk result (λ t. term_of t
        ≡ translated_ground (eigenvariables place.now) (value_of value.entry)) }
{
    match value {
        Value::Eigenvariable(k) => eigenvariable(alloc, place, k),
        Value::Ground(t) => ground_term(alloc, place, t),
        Value::Any => symbol(alloc, b"any"),
    }
}

/// The value of a variable at the place, and `any` where it has none.
fn value_at(alloc: Global, spot: &Spot<'_>, number: u32) -> Result<Lp, NoMemory>
    ensures { IfOk result (λ t. term_of t ≡ translated_ground (eigenvariables spot.now.place.now)
        (value_of (get_or spot.now.values.now number Value.Any))) }
{
    match spot.values.get(number as usize) {
        Some(value) => value_term(alloc, spot.place, *value),
        None => symbol(alloc, b"any"),
    }
}

/// What becomes of a variable below so many binders.
fn substituted_variable(
    alloc: Global,
    number: u32,
    spot: &Spot<'_>,
    bound: u32,
) -> Result<Lp, NoMemory>
    ensures { IfOk result (λ t. term_of t ≡ value_under (frame_of spot.now) bound number) }
{
    if number < bound {
        return Ok(variable(number));
    }
    let there = value_at(alloc, spot, number - bound)?;
    let binders = spot.extra.checked_add(bound).ok_or(NoMemory)?;
    further_in(alloc, &there, binders)
}

/// A translation with the values of the spot for the variables that are free in it. It stands below so many binders.
pub fn substituted(alloc: Global, t: &Lp, spot: &Spot<'_>, bound: u32) -> Result<Lp, NoMemory>
    ensures { IfOk result (λ r. term_of r
        ≡ substitute (value_under (frame_of spot.now) bound) (term_of t.now)) }
{
    match t {
        Lp::Sort => Ok(Lp::Sort),
        Lp::Sym(name) => Ok(Lp::Sym(name.copy(alloc)?)),
        Lp::Var(number) => substituted_variable(alloc, *number, spot, bound),
        Lp::Pat(name) => Ok(Lp::Pat(name.copy(alloc)?)),
        Lp::App(function, argument) => {
            let function = substituted(alloc, function.get(), spot, bound)?;
            let argument = substituted(alloc, argument.get(), spot, bound)?;
            apply(alloc, function, argument)
        }
        Lp::Lam(domain, body) => {
            let domain = substituted(alloc, domain.get(), spot, bound)?;
            let inner = bound.checked_add(1).ok_or(NoMemory)?;
            let body = substituted(alloc, body.get(), spot, inner)?;
            lambda(alloc, domain, body)
        }
        Lp::Pi(domain, body) => {
            let domain = substituted(alloc, domain.get(), spot, bound)?;
            let inner = bound.checked_add(1).ok_or(NoMemory)?;
            let body = substituted(alloc, body.get(), spot, inner)?;
            product(alloc, domain, body)
        }
    }
}
