//! Formulas with ground terms for the variables of the quantifiers around them.
#![tactic(auto, using(crate::proofs::WalkSteps::putting_steps))]

ghost use Rattle.std.specs.Prelude.{◌≡◌, map, get_or, IfOk};
ghost use Rattle.dk_syntax.specs.Terms.{substituted};
ghost use Rattle.expansion.specs.Rows.{term_at};
ghost use Rattle.skolem_order.specs.Origins.{outside, put_in};

use crate::walk::next;
use dk_syntax::{Boxed, Formula, NoMemory, Seq, Term};
use std::alloc::Global;

/// The formula with these terms for the variables of the quantifiers around it, the inmost first,
/// where so many quantifiers stand between.
#[cycle(put)]
pub fn put(alloc: Global, f: &Formula, terms: &[Term], inside: u32) -> Result<Formula, NoMemory>
    ensures { IfOk result (λ put. put ≡ put_in (term_at terms.now) f.now inside) }
{
    match f {
        Formula::True => Ok(Formula::True),
        Formula::False => Ok(Formula::False),
        Formula::Atom(symbol, args) => {
            let symbol = symbol.copy(alloc)?;
            Ok(Formula::Atom(symbol, put_all(alloc, args.as_slice(), terms, inside)?))
        }
        Formula::Not(a) => Ok(Formula::Not(put_boxed(alloc, a, terms, inside)?)),
        Formula::And(a, b) => {
            let a = put_boxed(alloc, a, terms, inside)?;
            Ok(Formula::And(a, put_boxed(alloc, b, terms, inside)?))
        }
        Formula::Or(a, b) => {
            let a = put_boxed(alloc, a, terms, inside)?;
            Ok(Formula::Or(a, put_boxed(alloc, b, terms, inside)?))
        }
        Formula::Imp(a, b) => {
            let a = put_boxed(alloc, a, terms, inside)?;
            Ok(Formula::Imp(a, put_boxed(alloc, b, terms, inside)?))
        }
        Formula::Iff(a, b) => {
            let a = put_boxed(alloc, a, terms, inside)?;
            Ok(Formula::Iff(a, put_boxed(alloc, b, terms, inside)?))
        }
        Formula::All(a) => Ok(Formula::All(put_boxed(alloc, a, terms, next(inside)?)?)),
        Formula::Ex(a) => Ok(Formula::Ex(put_boxed(alloc, a, terms, next(inside)?)?)),
    }
}

#[cycle(put)]
fn put_boxed(
    alloc: Global,
    f: &Boxed<Formula>,
    terms: &[Term],
    inside: u32,
) -> Result<Boxed<Formula>, NoMemory>
    ensures { IfOk result (λ put. put ≡ put_in (term_at terms.now) f.now inside) }
{
    Ok(Boxed::new(alloc, put(alloc, f.get(), terms, inside)?)?)
}

#[cycle(put_term)]
fn put_term(alloc: Global, t: &Term, terms: &[Term], inside: u32) -> Result<Term, NoMemory>
    ensures { IfOk result (λ put.
        put ≡ substituted (outside (term_at terms.now) inside) t.now) }
{
    match t {
        Term::Var(k) => {
            if *k < inside {
                return Ok(Term::Var(*k));
            }
            term_for(alloc, terms, *k - inside)
        }
        Term::App(symbol, args) => {
            let symbol = symbol.copy(alloc)?;
            Ok(Term::App(symbol, put_all(alloc, args.as_slice(), terms, inside)?))
        }
        Term::Any => Ok(Term::Any),
    }
}

#[cycle(put_term)]
fn put_all(alloc: Global, args: &[Term], terms: &[Term], inside: u32) -> Result<Seq<Term>, NoMemory>
    ensures { IfOk result (λ put.
        put ≡ map (substituted (outside (term_at terms.now) inside)) args.now) }
{
    let mut put = Seq::from_vec(Vec::with_capacity(alloc, args.len())?);
    for arg in args {
        put.push(put_term(alloc, arg, terms, inside)?)?;
    }
    Ok(put)
}

/// The term for a variable of the quantifiers around, and `Any` where there are not so many.
fn term_for(alloc: Global, terms: &[Term], k: u32) -> Result<Term, NoMemory>
    ensures { IfOk result (λ term. term ≡ get_or terms.now k Term.Any) }
{
    match terms.get(k as usize) {
        Some(term) => term.copy(alloc),
        None => Ok(Term::Any),
    }
}
