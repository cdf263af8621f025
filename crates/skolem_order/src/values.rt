//! The terms that stand for the variables of quantifiers.
#![tactic(auto, using(crate::proofs::WalkSteps::value_steps))]

ghost use Rattle.std.specs.Prelude.{◌≡◌, map, nat_eq, reverse, IfOk};
ghost use Rattle.std.specs.List.{find, position};
ghost use Rattle.std.specs.Option.{option_copied};
ghost use Rattle.expansion.specs.Choices.{skolem_term, term_there};
ghost use Rattle.skolem_order.specs.Origins.{value};
ghost use Rattle.skolem_order.specs.Walks.{universals_of};

use crate::origins::Origin;
use crate::walk::Around;
use dk_syntax::{NoMemory, Seq, Term};
use std::alloc::Global;
use step_skolem::SkEntry;

/// A Skolem term: its symbol's origin and its arguments.
#[derive(Clone, Copy)]
pub struct Source<'a> {
    pub origin: &'a Origin,
    pub args: &'a Seq<Term>,
}

/// The terms for the variables of the quantifiers around a place, which are handed over with the
/// inmost last. It stands first in the answer.
pub fn terms_around(
    alloc: Global,
    source: &Source<'_>,
    mut around: Vec<Around>,
) -> Result<Vec<Term>, NoMemory>
    ensures { IfOk result (λ terms. terms.items
        ≡ map (value (universals_of source.now) source.now.origin.now.map.entries)
        (reverse around.items)) }
{
    let mut terms = Vec::new(alloc);
    while let Some(one) = around.pop() {
        terms.push(value_of(alloc, source, one)?)?;
    }
    Ok(terms)
}

fn value_of(alloc: Global, source: &Source<'_>, around: Around) -> Result<Term, NoMemory>
    ensures { IfOk result (λ term. term
        ≡ value (universals_of source.now) source.now.origin.now.map.entries around) }
{
    match around {
        Around::Universal(number) => universal_term(alloc, source, number),
        Around::Existential(number) => existential_term(alloc, source, number),
        Around::Vacant => Ok(Term::Any),
    }
}

/// The term of the universal with that number: the argument for it, and `Any` where the symbol has
/// none.
#[tactic(auto, unfolding(crate::specs::Walks::universals_of))]
fn universal_term(alloc: Global, source: &Source<'_>, number: u32) -> Result<Term, NoMemory>
    ensures { IfOk result (λ term. term ≡ universals_of source.now number) }
{
    let Some(own) = entry_for(source.origin.map.entries.as_slice(), source.origin.ex) else {
        return Ok(Term::Any);
    };
    let place = place_of(own.args.as_slice(), number);
    term_at(alloc, source.args.as_slice(), place)
}

/// The first entry for the existential with that number.
fn entry_for(entries: &[SkEntry], ex: u32) -> Option<&SkEntry>
    ensures { option_copied result ≡ find (λ one. nat_eq one.ex ex) entries.now }
{
    entries.iter().find(|one| one.ex == ex)
}

/// The place of the number, where it is in the list.
fn place_of(numbers: &[u32], number: u32) -> Option<usize>
    ensures { result ≡ position (λ other. nat_eq other number) numbers.now }
{
    numbers.iter().position(|other| *other == number)
}

/// The term at a place, and `Any` where there is none.
fn term_at(alloc: Global, terms: &[Term], place: Option<usize>) -> Result<Term, NoMemory>
    ensures { IfOk result (λ term. term ≡ term_there terms.now place) }
{
    let Some(place) = place else {
        return Ok(Term::Any);
    };
    match terms.get(place) {
        Some(term) => term.copy(alloc),
        None => Ok(Term::Any),
    }
}

/// The Skolem term of the existential with that number, and `Any` where the map has no entry for
/// it.
pub fn existential_term(alloc: Global, source: &Source<'_>, number: u32) -> Result<Term, NoMemory>
    ensures { IfOk result (λ term. term
        ≡ skolem_term (universals_of source.now) source.now.origin.now.map.entries number) }
{
    for one in source.origin.map.entries.as_slice() {
        if one.ex == number {
            return entry_term(alloc, source, one);
        }
    }
    Ok(Term::Any)
}

/// The entry's symbol at the terms of its universals.
fn entry_term(alloc: Global, source: &Source<'_>, one: &SkEntry) -> Result<Term, NoMemory>
    ensures { IfOk result (λ term.
        term ≡ Term.App one.now.symbol (map (universals_of source.now) one.now.args)) }
{
    let mut args = Seq::from_vec(Vec::with_capacity(alloc, one.args.len())?);
    for number in one.args.as_slice() {
        args.push(universal_term(alloc, source, *number)?)?;
    }
    Ok(Term::App(one.symbol.copy(alloc)?, args))
}
