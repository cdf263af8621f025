//! The terms that are chosen at quantifiers.
#![tactic(auto)]

ghost use Rattle.std.specs.Prelude.{◌≡◌, nat_eq, map, IfOk};
ghost use Rattle.std.specs.List.{position};
ghost use Rattle.expansion.specs.Choices.{skolem_term, term_there};
ghost use Rattle.expansion.specs.Walks.{universals_of};

use dk_syntax::{NoMemory, Seq, Term};
use normal_form::ClauseRow;
use std::alloc::Global;
use step_skolem::{SkEntry, SkMap};

/// What the choices go by: a row, the terms of its variables, and the map that leads to the row's form.
#[derive(Clone, Copy)]
pub struct Source<'a> {
    pub map: &'a SkMap,
    pub row: &'a ClauseRow,
    pub terms: &'a Seq<Term>,
}

/// The term of the row's variable that belongs to the universal with that number, and `Any` where none does.
#[tactic(auto, unfolding(crate::specs::Walks::universals_of))]
pub fn universal_term(alloc: Global, source: &Source<'_>, number: u32) -> Result<Term, NoMemory>
    ensures { IfOk result (λ term. term ≡ universals_of source.now number) }
{
    let place = place_of(source.row.quants.as_slice(), number);
    term_at(alloc, source.terms.as_slice(), place)
}

/// The place of the number, where it is in the list.
fn place_of(numbers: &[u32], number: u32) -> Option<usize>
    ensures { result ≡ position (λ other. nat_eq other number) numbers.now }
{
    numbers.iter().position(|other| *other == number)
}

/// The term at a place, and `Any` where there is none.
fn term_at(alloc: Global, terms: &[Term], place: Option<usize>) -> Result<Term, NoMemory>
    ensures { IfOk result (λ term. term ≡ term_there terms.now place) }
{
    let Some(place) = place else {
        return Ok(Term::Any);
    };
    match terms.get(place) {
        Some(term) => term.copy(alloc),
        None => Ok(Term::Any),
    }
}

/// The Skolem term of the existential with that number, and `Any` where the map has no entry for it.
pub fn existential_term(alloc: Global, source: &Source<'_>, number: u32) -> Result<Term, NoMemory>
    ensures { IfOk result (λ term.
        term ≡ skolem_term (universals_of source.now) source.now.map.now.entries number) }
{
    for one in source.map.entries.as_slice() {
        if one.ex == number {
            return entry_term(alloc, source, one);
        }
    }
    Ok(Term::Any)
}

/// The entry's symbol at the terms of its universals.
fn entry_term(alloc: Global, source: &Source<'_>, one: &SkEntry) -> Result<Term, NoMemory>
    ensures { IfOk result (λ term.
        term ≡ Term.App one.now.symbol (map (universals_of source.now) one.now.args)) }
{
    let mut args = Seq::from_vec(Vec::with_capacity(alloc, one.args.len())?);
    for number in one.args.as_slice() {
        args.push(universal_term(alloc, source, *number)?)?;
    }
    Ok(Term::App(one.symbol.copy(alloc)?, args))
}
