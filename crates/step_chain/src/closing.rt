//! Variables as numbered in a resolvent.
#![tactic(auto, using(crate::proofs::Steps::term_steps))]

ghost use Rattle.std.specs.Prelude.{◌≡◌, ◌+◌, map, IfOk};
ghost use Rattle.dk_syntax.specs.Terms.{instance, substituted};
ghost use Rattle.unifier.specs.Substitution.{value};
ghost use Rattle.step_chain.specs.Resolvents.{closed_over, closed_terms_over};

use crate::numbering::{number_of, place_in};
use dk_syntax::{Literal, NoMemory, Seq, Term};
use std::alloc::Global;
use unifier::{Subst, bound_term};

fn close_variable(variables: &[u32], n: u32) -> Result<Term, NoMemory>
    ensures { IfOk result (λ term. term ≡ closed_over variables.now n) }
{
    match place_in(variables, n) {
        Some(k) => {
            let k = number_of(k)?;
            Ok(Term::Var(k))
        }
        None => Ok(Term::Any),
    }
}

/// The term with the place of each variable as its number, and `Any` for a variable that isn't listed.
#[cycle(close)]
fn close(term: &Term, alloc: Global, variables: &[u32]) -> Result<Term, NoMemory>
    ensures { IfOk result (λ answer. answer ≡ substituted (closed_over variables.now) term.now) }
{
    match term {
        Term::Var(n) => close_variable(variables, *n),
        Term::App(symbol, args) => {
            let symbol = symbol.copy(alloc)?;
            let args = close_each(args.as_slice(), alloc, variables)?;
            Ok(Term::App(symbol, args))
        }
        Term::Any => Ok(Term::Any),
    }
}

#[cycle(close)]
fn close_each(terms: &[Term], alloc: Global, variables: &[u32]) -> Result<Seq<Term>, NoMemory>
    ensures { IfOk result (λ all. all ≡ map (substituted (closed_over variables.now)) terms.now) }
{
    let mut all = Seq::from_vec(Vec::new(alloc));
    for term in terms {
        all.push(close(term, alloc, variables)?)?;
    }
    Ok(all)
}

/// The literals with the same for each variable.
pub fn close_literals(
    alloc: Global,
    literals: &[Literal],
    variables: &[u32],
) -> Result<Seq<Literal>, NoMemory>
    ensures { IfOk result (λ all. all ≡ map (instance (closed_over variables.now)) literals.now) }
{
    let mut all = Seq::from_vec(Vec::new(alloc));
    for literal in literals {
        let pred = literal.pred.copy(alloc)?;
        let args = close_each(literal.args.as_slice(), alloc, variables)?;
        all.push(Literal {
            positive: literal.positive,
            pred,
            args,
        })?;
    }
    Ok(all)
}

fn closed_value(
    alloc: Global,
    solution: &Subst,
    variables: &[u32],
    k: u32,
) -> Result<Term, NoMemory>
    ensures { IfOk result (λ answer. answer
        ≡ substituted (closed_over variables.now) (value solution.now.terms k)) }
{
    match bound_term(solution.terms.as_slice(), k) {
        Some(term) => {
            let answer = close(term, alloc, variables)?;
            Ok(answer)
        }
        None => {
            let answer = close(&Term::Var(k), alloc, variables)?;
            Ok(answer)
        }
    }
}

/// The terms of that many variables, of which the first is `from`.
pub fn closed_values(
    alloc: Global,
    solution: &Subst,
    variables: &[u32],
    from: u32,
    count: u32,
) -> Result<Seq<Term>, NoMemory>
    ensures { IfOk result (λ all. all ≡ closed_terms_over variables.now count
        (λ j. value solution.now.terms (from + j))) }
{
    let mut all = Seq::from_vec(Vec::new(alloc));
    for j in 0..count {
        let k = from.checked_add(j).ok_or(NoMemory)?;
        let term = closed_value(alloc, solution, variables, k)?;
        all.push(term)?;
    }
    Ok(all)
}
