//! Variables bound to terms, while equations are added.
ghost use Rattle.std.specs.Prelude.{◌≡◌, ℕ, length, get_or, replicate, None, IfOk, MatchOption};
ghost use Rattle.dk_syntax.specs.declared.Term.{Term as Tree};
ghost use Rattle.unifier.specs.Outcomes.{Sound};
ghost use Rattle.unifier.specs.Substitution.{Refines};

use dk_syntax::{NoMemory, Seq, Term};
use std::alloc::Global;

/// Variables bound to terms, in which other bound variables may stand.
#[derive(Debug, Drop)]
pub struct Bindings {
    pub terms: Seq<Option<Term>>,
}

impl Bindings {
    /// That many variables, none of them bound.
    pub fn unbound(alloc: Global, count: u32) -> Result<Bindings, NoMemory>
        ensures terms { IfOk result (λ all. all.terms ≡ replicate count None) }
        ensures length { IfOk result (λ all. length all.terms ≡ count) }
        ensures sound { IfOk result (λ all. (frozen : ℕ) → Sound frozen all.terms) }
        ensures refined { IfOk result (λ all. (r : ℕ → Tree) → Refines all.terms r) }
    {
        let mut terms = Seq::from_vec(Vec::new(alloc));
        for _k in 0..count {
            terms.push(None)?;
        }
        Ok(Bindings { terms })
    }

    pub fn copy(&self, alloc: Global) -> Result<Bindings, NoMemory>
        ensures { IfOk result (λ copy. copy.terms ≡ self.now.terms) }
    {
        let mut terms = Seq::from_vec(Vec::new(alloc));
        for entry in self.terms.as_slice() {
            let entry = match entry {
                Some(term) => Some(term.copy(alloc)?),
                None => None,
            };
            terms.push(entry)?;
        }
        Ok(Bindings { terms })
    }
}

/// The term of a bound variable.
pub fn bound_term(terms: &[Option<Term>], k: u32) -> Option<&Term>
    ensures { MatchOption result (get_or terms.now k None ≡ None)
        (λ term. get_or terms.now k None ≡ Some term.now) }
{
    match terms.get(k as usize) {
        Some(Some(term)) => Some(term),
        _ => None,
    }
}
