//! The types of clauses and the abstractions over literals.
#![tactic(auto)]

ghost use Rattle.std.specs.Prelude.{◌≡◌, ◌+◌, length, IfOk};
ghost use Rattle.development.specs.Clauses.{abstracted, typed};
ghost use Rattle.lp_term.specs.Connectives.{bot, proof_of};
ghost use Rattle.lp_term.specs.View.{term_of};
ghost use Rattle.nd_term.specs.Outputs.{output_clause, output_literal};
ghost use Rattle.nd_term.specs.Places.{eigenvariables, eigenvariables_at};
ghost use Rattle.nd_term.specs.Translation.{literal_type};

use crate::given::place_in;
use dk_syntax::{Literal, NoMemory};
use lp_term::Lp;
use nd_term::build::{falsity, lambda, negation, product, proof_type};
use nd_term::{Place, ground_atom};
use std::alloc::Global;

/// The type of the variable for a literal.
fn literal_type(alloc: Global, place: &Place<'_>, one: &Literal) -> Result<Lp, NoMemory>
    ensures { IfOk result (λ t. term_of t ≡ literal_type (eigenvariables place.now)
        (output_literal place.now.symbols.now place.now.order.now one.now)) }
{
    let atom = ground_atom(alloc, place, &one.pred, one.args.as_slice())?;
    if one.positive {
        return proof_type(alloc, negation(alloc, atom)?);
    }
    proof_type(alloc, atom)
}

/// The same so many binders further in.
fn literal_type_in(
    alloc: Global,
    place: &Place<'_>,
    binders: usize,
    one: &Literal,
) -> Result<Lp, NoMemory>
    ensures { IfOk result (λ t. term_of t ≡ literal_type
        (eigenvariables_at (place.now.level + binders) place.now.first_eigen (length place.now.order.now))
        (output_literal place.now.symbols.now place.now.order.now one.now)) }
{
    let there = place_in(place, binders)?;
    literal_type(alloc, &there, one)
}

/// `λ (n0 : N0), .. body` over the literals. The first variable is bound at the place.
pub fn abstracted(
    alloc: Global,
    place: &Place<'_>,
    lits: &[Literal],
    body: Lp,
) -> Result<Lp, NoMemory>
    ensures { IfOk result (λ t. term_of t
        ≡ abstracted place.now.level place.now.first_eigen (length place.now.order.now)
        (output_clause place.now.symbols.now place.now.order.now lits.now) (term_of body)) }
{
    let mut left = lits.len();
    let mut all = body;
    while left > 0 {
        left -= 1;
        let domain = literal_type_in(alloc, place, left, &lits[left])?;
        all = lambda(alloc, domain, all)?;
    }
    Ok(all)
}

/// `N0 → .. → Prf bot` at the place.
pub fn typed(alloc: Global, place: &Place<'_>, lits: &[Literal]) -> Result<Lp, NoMemory>
    ensures { IfOk result (λ t. term_of t
        ≡ typed place.now.level place.now.first_eigen (length place.now.order.now)
        (output_clause place.now.symbols.now place.now.order.now lits.now) (proof_of bot)) }
{
    let mut left = lits.len();
    let mut all = proof_type(alloc, falsity(alloc)?)?;
    while left > 0 {
        left -= 1;
        let domain = literal_type_in(alloc, place, left, &lits[left])?;
        all = product(alloc, domain, all)?;
    }
    Ok(all)
}
