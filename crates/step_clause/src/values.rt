//! The terms of a clause's variables.
#![tactic(auto, using(crate::proofs::Steps::term_steps))]

ghost use Rattle.std.specs.Prelude.{◌≡◌, ◌+◌, map, IfOk};
ghost use Rattle.unifier.specs.Substitution.{value};
ghost use Rattle.dk_syntax.specs.Terms.{substituted};
ghost use Rattle.step_clause.specs.Justifications.{closed, closed_terms};

use dk_syntax::{NoMemory, Seq, Term};
use std::alloc::Global;
use unifier::{Subst, bound_term};

/// The term with `Any` for each variable from `frozen` on.
#[cycle(close)]
fn close(term: &Term, alloc: Global, frozen: u32) -> Result<Term, NoMemory>
    ensures { IfOk result (λ answer. answer ≡ substituted (closed frozen) term.now) }
{
    match term {
        Term::Var(k) => {
            if *k < frozen {
                return Ok(Term::Var(*k));
            }
            Ok(Term::Any)
        }
        Term::App(symbol, args) => {
            let symbol = symbol.copy(alloc)?;
            let args = close_each(args.as_slice(), alloc, frozen)?;
            Ok(Term::App(symbol, args))
        }
        Term::Any => Ok(Term::Any),
    }
}

#[cycle(close)]
fn close_each(terms: &[Term], alloc: Global, frozen: u32) -> Result<Seq<Term>, NoMemory>
    ensures { IfOk result (λ all. all ≡ map (substituted (closed frozen)) terms.now) }
{
    let mut all = Seq::from_vec(Vec::new(alloc));
    for term in terms {
        all.push(close(term, alloc, frozen)?)?;
    }
    Ok(all)
}

/// What the substitution has for a variable, with `Any` for each variable from `frozen` on.
fn closed_value(alloc: Global, solution: &Subst, frozen: u32, k: u32) -> Result<Term, NoMemory>
    ensures { IfOk result (λ answer. answer
        ≡ substituted (closed frozen) (value solution.now.terms k)) }
{
    match bound_term(solution.terms.as_slice(), k) {
        Some(term) => {
            let answer = close(term, alloc, frozen)?;
            Ok(answer)
        }
        None => {
            let answer = close(&Term::Var(k), alloc, frozen)?;
            Ok(answer)
        }
    }
}

/// The terms of that many variables, of which the first is `from`.
pub fn closed_values(
    alloc: Global,
    solution: &Subst,
    frozen: u32,
    from: u32,
    count: u32,
) -> Result<Seq<Term>, NoMemory>
    ensures { IfOk result (λ all. all ≡ closed_terms frozen count
        (λ j. value solution.now.terms (from + j))) }
{
    let mut all = Seq::from_vec(Vec::new(alloc));
    for j in 0..count {
        let k = from.checked_add(j).ok_or(NoMemory)?;
        let term = closed_value(alloc, solution, frozen, k)?;
        all.push(term)?;
    }
    Ok(all)
}
