//! The variables of literals by first occurrence, and their places.
#![tactic(auto, using(crate::proofs::Places::number_steps))]

ghost use Rattle.std.specs.Prelude.{◌≡◌, false, map, true, IfOk, MatchOption, OnOk};
ghost use Rattle.dk_syntax.specs.Symbols.{joined};
ghost use Rattle.normal_form.specs.ClauseLists.{has_number, literal_variables, quants_of, variables_of, with_number, with_numbers};
ghost use Rattle.normal_form.specs.Renaming.{place_of};

use dk_syntax::{Literal, NoMemory, Seq, Term};
use std::alloc::Global;

/// The same number, where it fits.
pub fn number_of(n: usize) -> Result<u32, NoMemory>
    ensures { IfOk result (λ same. same ≡ n) }
{
    match u32::try_from(n) {
        Ok(same) => Ok(same),
        Err(_) => Err(NoMemory),
    }
}

/// The place of a number, where it is listed.
pub fn place_in(numbers: &[u32], n: u32) -> Option<usize>
    ensures { MatchOption result (has_number numbers.now n ≡ false)
        (λ k. (has_number numbers.now n ≡ true) × (k ≡ place_of numbers.now n)) }
{
    for k in 0..numbers.len() {
        if numbers[k] == n {
            return Some(k);
        }
    }
    None
}

fn add_number(seen: &mut Seq<u32>, n: u32) -> Result<(), NoMemory>
    ensures { OnOk result (seen.new ≡ with_number seen.old n) }
{
    match place_in(seen.as_slice(), n) {
        Some(_) => Ok(()),
        None => {
            seen.push(n)?;
            Ok(())
        }
    }
}

#[cycle(add_term)]
fn add_term(seen: &mut Seq<u32>, term: &Term) -> Result<(), NoMemory>
    ensures { OnOk result (seen.new ≡ with_numbers seen.old (variables_of term.now)) }
{
    match term {
        Term::Var(n) => add_number(seen, *n),
        Term::App(_, args) => add_terms(seen, args.as_slice()),
        Term::Any => Ok(()),
    }
}

#[cycle(add_term)]
fn add_terms(seen: &mut Seq<u32>, terms: &[Term]) -> Result<(), NoMemory>
    ensures { OnOk result (seen.new ≡ with_numbers seen.old (joined (map variables_of terms.now))) }
{
    for term in terms {
        add_term(seen, term)?;
    }
    Ok(())
}

/// The variables that occur in the literals, by first occurrence.
pub fn variables_in(alloc: Global, literals: &[Literal]) -> Result<Seq<u32>, NoMemory>
    ensures { IfOk result (λ variables. variables ≡ quants_of literals.now) }
{
    let mut seen = Seq::from_vec(Vec::new(alloc));
    for literal in literals {
        add_terms(&mut seen, literal.args.as_slice())?;
    }
    Ok(seen)
}
