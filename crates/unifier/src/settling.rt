//! The settled list for bindings.
ghost use Rattle.std.specs.Prelude.{◌≡◌, ◌<◌, ◌⊎◌, ℕ, length, get_or, map, None, Some, IfOk};
ghost use Rattle.dk_syntax.specs.declared.Term.{Term as Tree};
ghost use Rattle.unifier.specs.Outcomes.{IsSettledBy, Sound};
ghost use Rattle.unifier.specs.Settling.{Known, settled_entry};
ghost use Rattle.unifier.specs.Substitution.{SameInstances, Settled};
ghost use Rattle.dk_syntax.specs.Terms.{substituted};

use crate::bindings::{Bindings, bound_term};
use crate::equations::Subst;
use dk_syntax::{NoMemory, Seq, Term};
use std::alloc::Global;

fn none_known(alloc: Global, count: usize) -> Result<Vec<Option<Term>>, NoMemory>
    ensures { IfOk result (λ known. (j : ℕ) → get_or known.items j None ≡ None) }
{
    let mut known = Vec::new(alloc);
    for _k in 0..count {
        known.push(None)?;
    }
    Ok(known)
}

fn keep(known: &mut [Option<Term>], j: u32, term: Term)
    ensures { (k : ℕ) (u : Tree) → get_or known.new k None ≡ Some u
        → (get_or known.old k None ≡ Some u) ⊎ ((k ≡ j) × (u ≡ term)) }
{
    let place = j as usize;
    if place < known.len() {
        known[place] = Some(term);
    }
}

/// The term with each bound variable replaced through the bindings. The terms of the variables that were
/// met are kept, so that each is found once.
#[cycle(settle)]
fn settle(
    alloc: Global,
    s: &[Option<Term>],
    known: &mut [Option<Term>],
    t: &Term,
    fuel: u64,
) -> Result<Term, NoMemory>
    requires { Known s.now known.old }
    ensures term { IfOk result (λ term. (m : ℕ → Tree) → IsSettledBy s.now m
        → term ≡ substituted m t.now) }
    ensures known { Known s.now known.new }
{
    if fuel == 0 {
        return Err(NoMemory);
    }
    match t {
        Term::Var(j) => {
            let term = settle_variable(alloc, s, known, *j, fuel - 1)?;
            Ok(term)
        }
        Term::App(symbol, args) => {
            let args = settle_each(alloc, s, known, args.as_slice(), fuel - 1)?;
            let symbol = symbol.copy(alloc)?;
            Ok(Term::App(symbol, args))
        }
        Term::Any => Ok(Term::Any),
    }
}

#[cycle(settle)]
fn settle_variable(
    alloc: Global,
    s: &[Option<Term>],
    known: &mut [Option<Term>],
    j: u32,
    fuel: u64,
) -> Result<Term, NoMemory>
    requires { Known s.now known.old }
    ensures term { IfOk result (λ term. (m : ℕ → Tree) → IsSettledBy s.now m → term ≡ m j) }
    ensures known { Known s.now known.new }
{
    if let Some(term) = bound_term(known, j) {
        let term = term.copy(alloc)?;
        return Ok(term);
    }
    match bound_term(s, j) {
        Some(t) => {
            let term = settle(alloc, s, known, t, fuel)?;
            let copy = term.copy(alloc)?;
            keep(known, j, copy);
            Ok(term)
        }
        None => Ok(Term::Var(j)),
    }
}

#[cycle(settle)]
fn settle_each(
    alloc: Global,
    s: &[Option<Term>],
    known: &mut [Option<Term>],
    terms: &[Term],
    fuel: u64,
) -> Result<Seq<Term>, NoMemory>
    requires { Known s.now known.old }
    ensures terms { IfOk result (λ all. (m : ℕ → Tree) → IsSettledBy s.now m
        → all ≡ map (substituted m) terms.now) }
    ensures known { Known s.now known.new }
{
    let mut all = Seq::from_vec(Vec::new(alloc));
    for term in terms {
        let term = settle(alloc, s, known, term, fuel)?;
        all.push(term)?;
    }
    Ok(all)
}

fn settle_entry(
    alloc: Global,
    s: &[Option<Term>],
    known: &mut [Option<Term>],
    k: u32,
) -> Result<Option<Term>, NoMemory>
    requires { Known s.now known.old }
    ensures entry { IfOk result (λ entry. (m : ℕ → Tree) → IsSettledBy s.now m
        → entry ≡ settled_entry m k (get_or s.now k None)) }
    ensures known { Known s.now known.new }
{
    match bound_term(s, k) {
        Some(_) => {
            let term = settle_variable(alloc, s, known, k, u64::MAX)?;
            Ok(Some(term))
        }
        None => Ok(None),
    }
}

fn number(k: usize) -> Result<u32, NoMemory>
    ensures { IfOk result (λ number. number ≡ k) }
{
    match u32::try_from(k) {
        Ok(number) => Ok(number),
        Err(_) => Err(NoMemory),
    }
}

fn settle_entries(
    alloc: Global,
    s: &[Option<Term>],
    known: &mut [Option<Term>],
) -> Result<Seq<Option<Term>>, NoMemory>
    requires { Known s.now known.old }
    ensures length { IfOk result (λ entries. length entries ≡ length s.now) }
    ensures entries { IfOk result (λ entries. (m : ℕ → Tree) → IsSettledBy s.now m → (k : ℕ)
        → k < length s.now → get_or entries k None ≡ settled_entry m k (get_or s.now k None)) }
{
    let mut entries = Seq::from_vec(Vec::new(alloc));
    for k in 0..s.len() {
        let variable = number(k)?;
        let entry = settle_entry(alloc, s, known, variable)?;
        entries.push(entry)?;
    }
    Ok(entries)
}

/// The list in which no bound variable stands in a term and which the same substitutions refine.
pub fn settled(alloc: Global, bindings: &Bindings) -> Result<Subst, NoMemory>
    ensures length { IfOk result (λ s. length s.terms ≡ length bindings.now.terms) }
    ensures settled { IfOk result (λ s. (frozen : ℕ) → Sound frozen bindings.now.terms
        → Settled frozen s.terms) }
    ensures same { IfOk result (λ s. (frozen : ℕ) → Sound frozen bindings.now.terms
        → SameInstances bindings.now.terms s.terms) }
{
    let s = bindings.terms.as_slice();
    let mut known = none_known(alloc, s.len())?;
    let terms = settle_entries(alloc, s, &mut known)?;
    Ok(Subst { terms })
}
