//! Proofs by contradiction.
#![tactic(auto, using(crate::proofs::BuildSteps::build_steps))]

ghost use Rattle.std.specs.Prelude.{◌≡◌, ◌∷◌, List, IfOk};
ghost use Rattle.lp_term.specs.Connectives.{neg, proof_of, propositions};
ghost use Rattle.lp_term.specs.LambdaPi.{Term, shift};
ghost use Rattle.lp_term.specs.ProofTerms.{contradiction};
ghost use Rattle.lp_term.specs.Signature.{Extends};
ghost use Rattle.lp_term.specs.Typing.{Declaration, HasType};
ghost use Rattle.lp_term.specs.View.{term_of};

use crate::build::{apply_both, assume, negation, symbol, variable};
use dk_syntax::NoMemory;
use lp_term::Lp;
use std::alloc::Global;

/// `em C C (λ (v : Prf C), v) (λ (v : Prf (not C)), rest)`.
pub fn by_excluded_middle(alloc: Global, conjecture: &Lp, rest: Lp) -> Result<Lp, NoMemory>
    ensures { IfOk result (λ t. term_of t ≡ contradiction (term_of conjecture.now) (term_of rest)) }
{
    let middle = apply_both(
        alloc,
        symbol(alloc, b"em")?,
        conjecture.copy(alloc)?,
        conjecture.copy(alloc)?,
    )?;
    let holds = assume(alloc, conjecture.copy(alloc)?, variable(0))?;
    let fails = assume(alloc, negation(alloc, conjecture.copy(alloc)?)?, rest)?;
    apply_both(alloc, middle, holds, fails)
}

/// The proof of a conjecture by contradiction, from a proof of it below a proof of its negation.
pub fn contradict(alloc: Global, conjecture: &Lp, rest: Lp) -> Result<Lp, NoMemory>
    ensures term { IfOk result (λ t. term_of t
        ≡ contradiction (term_of conjecture.now) (term_of rest)) }
    ensures typed { (sig : List Declaration) (g : List Term) → Extends sig
        → HasType sig g (term_of conjecture.now) propositions
        → HasType sig (proof_of (neg (term_of conjecture.now)) ∷ g) (term_of rest)
        (proof_of (shift (term_of conjecture.now)))
        → IfOk result (λ t. HasType sig g (term_of t) (proof_of (term_of conjecture.now))) }
{
    by_excluded_middle(alloc, conjecture, rest)
}
