//! Substitutions applied, one after another, and closed with `Any`.
ghost use Rattle.std.specs.Prelude.{◌≡◌, ◌<◌, ℕ, map, max, length, get_or, None, Some, IfOk, MatchOption};
ghost use Rattle.dk_syntax.specs.declared.Term.{Term as Tree};
ghost use Rattle.unifier.specs.Closing.{closed_entry, closing, composed_entry};
ghost use Rattle.unifier.specs.Substitution.{NoneBoundStands, Refines, Settled, value};
ghost use Rattle.dk_syntax.specs.Terms.{Below, substituted};

use crate::bindings::bound_term;
use crate::equations::Subst;
use dk_syntax::{NoMemory, Seq, Term};
use std::alloc::Global;

#[cycle(apply_list)]
fn apply_list(alloc: Global, s: &[Option<Term>], t: &Term) -> Result<Term, NoMemory>
    ensures { IfOk result (λ term. term ≡ substituted (value s.now) t.now) }
{
    match t {
        Term::Var(k) => match bound_term(s, *k) {
            Some(bound) => bound.copy(alloc),
            None => Ok(Term::Var(*k)),
        },
        Term::App(symbol, args) => {
            let symbol = symbol.copy(alloc)?;
            let args = apply_list_to_each(alloc, s, args.as_slice())?;
            Ok(Term::App(symbol, args))
        }
        Term::Any => Ok(Term::Any),
    }
}

#[cycle(apply_list)]
fn apply_list_to_each(
    alloc: Global,
    s: &[Option<Term>],
    terms: &[Term],
) -> Result<Seq<Term>, NoMemory>
    ensures { IfOk result (λ all. all ≡ map (substituted (value s.now)) terms.now) }
{
    let mut all = Seq::from_vec(Vec::new(alloc));
    for term in terms {
        all.push(apply_list(alloc, s, term)?)?;
    }
    Ok(all)
}

/// The term with each bound variable replaced.
pub fn apply(alloc: Global, s: &Subst, t: &Term) -> Result<Term, NoMemory>
    ensures { IfOk result (λ term. term ≡ substituted (value s.now.terms) t.now) }
{
    apply_list(alloc, s.terms.as_slice(), t)
}

fn entry(terms: &[Option<Term>], k: usize) -> Option<&Term>
    ensures { MatchOption result (get_or terms.now k None ≡ None)
        (λ term. get_or terms.now k None ≡ Some term.now) }
{
    match terms.get(k) {
        Some(Some(term)) => Some(term),
        _ => None,
    }
}

fn compose_entry(
    alloc: Global,
    first: &[Option<Term>],
    next: &[Option<Term>],
    k: usize,
) -> Result<Option<Term>, NoMemory>
    ensures { IfOk result (λ entry. entry
        ≡ composed_entry next.now (get_or first.now k None) (get_or next.now k None)) }
{
    match entry(first, k) {
        Some(term) => {
            let term = apply_list(alloc, next, term)?;
            Ok(Some(term))
        }
        None => match entry(next, k) {
            Some(term) => {
                let term = term.copy(alloc)?;
                Ok(Some(term))
            }
            None => Ok(None),
        },
    }
}

/// The substitution that applies the first and then the next. It has a place for each variable for which
/// one of them has a place.
pub fn compose(alloc: Global, first: &Subst, next: &Subst) -> Result<Subst, NoMemory>
    ensures length { IfOk result (λ s. length s.terms
        ≡ max (length first.now.terms) (length next.now.terms)) }
    ensures terms { IfOk result (λ s. (k : ℕ) → k < length s.terms
        → get_or s.terms k None ≡ composed_entry next.now.terms (get_or first.now.terms k None)
        (get_or next.now.terms k None)) }
{
    let firsts = first.terms.as_slice();
    let nexts = next.terms.as_slice();
    let size = firsts.len().max(nexts.len());
    let mut terms = Seq::from_vec(Vec::new(alloc));
    for k in 0..size {
        let entry = compose_entry(alloc, firsts, nexts, k)?;
        terms.push(entry)?;
    }
    Ok(Subst { terms })
}

#[cycle(close_term)]
fn close_term(alloc: Global, s: &[Option<Term>], frozen: u32, t: &Term) -> Result<Term, NoMemory>
    ensures { IfOk result (λ term. term ≡ substituted (closing frozen s.now) t.now) }
{
    match t {
        Term::Var(k) => {
            if *k < frozen {
                return Ok(Term::Var(*k));
            }
            match bound_term(s, *k) {
                Some(_) => Ok(Term::Var(*k)),
                None => Ok(Term::Any),
            }
        }
        Term::App(symbol, args) => {
            let symbol = symbol.copy(alloc)?;
            let args = close_terms(alloc, s, frozen, args.as_slice())?;
            Ok(Term::App(symbol, args))
        }
        Term::Any => Ok(Term::Any),
    }
}

#[cycle(close_term)]
fn close_terms(
    alloc: Global,
    s: &[Option<Term>],
    frozen: u32,
    terms: &[Term],
) -> Result<Seq<Term>, NoMemory>
    ensures { IfOk result (λ all. all ≡ map (substituted (closing frozen s.now)) terms.now) }
{
    let mut all = Seq::from_vec(Vec::new(alloc));
    for term in terms {
        all.push(close_term(alloc, s, frozen, term)?)?;
    }
    Ok(all)
}

fn close_entry(
    alloc: Global,
    s: &[Option<Term>],
    frozen: u32,
    k: usize,
) -> Result<Option<Term>, NoMemory>
    ensures { IfOk result (λ entry. entry ≡ closed_entry frozen s.now k (get_or s.now k None)) }
{
    match entry(s, k) {
        Some(term) => {
            let term = close_term(alloc, s, frozen, term)?;
            Ok(Some(term))
        }
        None => {
            if k < frozen as usize {
                return Ok(None);
            }
            Ok(Some(Term::Any))
        }
    }
}

/// The list with `Any` for each unbound variable from `frozen` on: at the list's places that have no term,
/// and inside its terms. A variable whose number is the list's length or greater is unbound.
pub fn close_with_any(alloc: Global, s: &Subst, frozen: u32) -> Result<Subst, NoMemory>
    ensures length { IfOk result (λ closed. length closed.terms ≡ length s.now.terms) }
    ensures terms { IfOk result (λ closed. (k : ℕ) → k < length s.now.terms
        → get_or closed.terms k None ≡ closed_entry frozen s.now.terms k
        (get_or s.now.terms k None)) }
    ensures below { IfOk result (λ closed. NoneBoundStands s.now.terms → (k : ℕ) (t : Tree)
        → get_or closed.terms k None ≡ Some t → Below frozen t) }
{
    let entries = s.terms.as_slice();
    let mut terms = Seq::from_vec(Vec::new(alloc));
    for k in 0..entries.len() {
        let entry = close_entry(alloc, entries, frozen, k)?;
        terms.push(entry)?;
    }
    Ok(Subst { terms })
}

/// Two lists of which each is a further instance of the other, as most general solutions of the same
/// equations are, differ by renaming alone: closed with `Any`, they give each term the same value.
pub fn closes_alike(s: &Subst, u: &Subst, frozen: u32)
    requires settled_s { Settled frozen s.now.terms }
    requires settled_u { Settled frozen u.now.terms }
    requires u_refines { Refines s.now.terms (value u.now.terms) }
    requires s_refines { Refines u.now.terms (value s.now.terms) }
    ensures { (t : Tree) → substituted (closing frozen s.now.terms)
        (substituted (value s.now.terms) t)
        ≡ substituted (closing frozen u.now.terms) (substituted (value u.now.terms) t) }
{}
