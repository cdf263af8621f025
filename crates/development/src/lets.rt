//! The lets of instances.
#![tactic(auto)]

ghost use Rattle.std.specs.Prelude.{◌≡◌, ◌<◌, get_or, length, slice_get, IfOk, None, Some};
ghost use Rattle.std.specs.Option.{option_copied};
ghost use Rattle.development.specs.Buildable.{IsBuildable};
ghost use Rattle.development.specs.Lets.{let_built, lets_from};
ghost use Rattle.development.specs.Places.{IsGiven, IsIn};
ghost use Rattle.ground_instances.specs.Lists.{instances_of};
ghost use Rattle.ground_instances.specs.declared.instance.Instance.{Instance};
ghost use Rattle.lp_term.specs.ProofTerms.{let_term};
ghost use Rattle.lp_term.specs.View.{term_of};

use crate::clauses::{abstracted, typed};
use crate::given::{Given, further, place_in};
use crate::instances::proof_of_instance;
use dk_syntax::NoMemory;
use expansion::Thin;
use ground_instances::instance_at;
use lp_term::Lp;
use nd_term::Place;
use nd_term::build::{apply, lambda};
use std::alloc::Global;

/// The place of that level.
pub fn place_of<'a>(given: &Given<'a, '_>, level: u32) -> Place<'a>
    requires { IsGiven given.now }
    ensures { IsIn given.now.plan.now given.now.first level result }
{
    Place {
        level,
        first_eigen: given.first,
        order: &given.plan.order,
        symbols: given.symbols,
    }
}

/// The thin tree of the instance of that number, where it has one.
fn thin_at(thins: &[Option<Thin>], number: usize) -> Option<&Thin>
    ensures { option_copied result ≡ get_or thins.now number None }
{
    match thins.get(number) {
        Some(Some(thin)) => Some(thin),
        _ => None,
    }
}

/// `let x : a ≔ t in u`.
pub fn let_in(alloc: Global, a: Lp, t: Lp, u: Lp) -> Result<Lp, NoMemory>
    ensures { IfOk result (λ r. term_of r ≡ let_term (term_of a) (term_of t) (term_of u)) }
{
    apply(alloc, lambda(alloc, a, u)?, t)
}

/// The let of the instance of that number.
fn instance_let(alloc: Global, given: &Given<'_, '_>, number: u32, rest: Lp) -> Result<Lp, NoMemory>
    requires given { IsGiven given.now }
    requires buildable { IsBuildable given.now.problem.now given.now.trace.now given.now.plan.now }
    requires within { number < length given.now.plan.now.instances.rows }
    ensures { (it : Instance)
        → slice_get (instances_of given.now.plan.now.instances) number ≡ Some it
        → IfOk result (λ t. term_of t
        ≡ let_built given.now.problem.now given.now.trace.now given.now.plan.now given.now.first
        given.now.begin number it (term_of rest)) }
{
    let it = instance_at(alloc, &given.plan.instances, number)?;
    let lits = it.lits.as_slice();
    let place = place_of(given, further(given.begin, number as usize)?);
    let there = place_in(&place, lits.len())?;
    let thin = thin_at(given.plan.thins.as_slice(), number as usize);
    let falsity = proof_of_instance(alloc, given, &it, thin, &there)?;
    let term = abstracted(alloc, &place, lits, falsity)?;
    let domain = typed(alloc, &place, lits)?;
    let_in(alloc, domain, term, rest)
}

/// The lets of all instances over what stands inside them, put together from the last to the first.
pub fn lets(alloc: Global, given: &Given<'_, '_>, inside: Lp) -> Result<Lp, NoMemory>
    requires given { IsGiven given.now }
    requires buildable { IsBuildable given.now.problem.now given.now.trace.now given.now.plan.now }
    requires inside { term_of inside
        ≡ lets_from given.now.problem.now given.now.trace.now given.now.plan.now given.now.first
        given.now.begin (length given.now.plan.now.instances.rows) }
    ensures { IfOk result (λ t. term_of t
        ≡ lets_from given.now.problem.now given.now.trace.now given.now.plan.now given.now.first
        given.now.begin 0) }
{
    let count = given.plan.instances.rows.len();
    let mut left = u32::try_from(count).map_err(|_| NoMemory)?;
    let mut all = inside;
    while left > 0 {
        left -= 1;
        all = instance_let(alloc, given, left, all)?;
    }
    Ok(all)
}
