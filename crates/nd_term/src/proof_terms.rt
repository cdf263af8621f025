//! Proofs of single connectives.
#![tactic(auto, using(crate::proofs::BuildSteps::build_steps))]

ghost use Rattle.std.specs.Prelude.{◌≡◌, suc, IfOk};
ghost use Rattle.lp_term.specs.Connectives.{arrow, proof_of, propositions};
ghost use Rattle.lp_term.specs.LambdaPi.{lam, rename, shift, under_renaming, var};
ghost use Rattle.lp_term.specs.ProofTerms.{ex_term, iff_arg, iff_term, left_term, pair_term, right_term, top_term};
ghost use Rattle.lp_term.specs.View.{term_of};

use crate::build::{
    apply, apply_both, arrow, assume, deeper, individuals, lambda, product, proof_type,
    propositions, variable,
};
use dk_syntax::NoMemory;
use lp_term::{Lp, lift};
use std::alloc::Global;

/// `λ (r : Prop), λ (k : A), t`.
fn for_each_proposition(alloc: Global, domain: Lp, body: Lp) -> Result<Lp, NoMemory>
    ensures { IfOk result (λ t. term_of t
        ≡ lam propositions (lam (term_of domain) (term_of body))) }
{
    let inner = lambda(alloc, domain, body)?;
    lambda(alloc, propositions(alloc)?, inner)
}

/// `Prf p → Prf r`, where r is the proposition bound last.
fn gives_last(alloc: Global, p: Lp) -> Result<Lp, NoMemory>
    ensures { IfOk result (λ t. term_of t ≡ arrow (proof_of (term_of p)) (proof_of (var 0))) }
{
    let last = proof_type(alloc, variable(0))?;
    arrow(alloc, proof_type(alloc, p)?, &last)
}

/// The proof of `top`.
pub fn top_term(alloc: Global) -> Result<Lp, NoMemory>
    ensures { IfOk result (λ t. term_of t ≡ top_term) }
{
    for_each_proposition(alloc, proof_type(alloc, variable(0))?, variable(0))
}

/// The proof of a conjunction from the two variables bound last.
pub fn pair_term(alloc: Global, p: &Lp, q: &Lp) -> Result<Lp, NoMemory>
    ensures { IfOk result (λ t. term_of t
        ≡ pair_term (term_of p.now) (term_of q.now) (var 1) (var 0)) }
{
    let second = gives_last(alloc, deeper(alloc, q)?)?;
    let both = arrow(alloc, proof_type(alloc, deeper(alloc, p)?)?, &second)?;
    let pair = apply_both(alloc, variable(0), variable(3), variable(2))?;
    for_each_proposition(alloc, both, pair)
}

/// The proof of a disjunction by cases to come, from its left or its right side.
fn side_term(alloc: Global, p: &Lp, q: &Lp, case: Lp) -> Result<Lp, NoMemory>
    ensures { IfOk result (λ t. term_of t
        ≡ lam propositions (lam (arrow (proof_of (shift (term_of p.now))) (proof_of (var 0)))
        (lam (shift (arrow (proof_of (shift (term_of q.now))) (proof_of (var 0)))) (term_of case)))) }
{
    let left = gives_last(alloc, deeper(alloc, p)?)?;
    let right = gives_last(alloc, deeper(alloc, q)?)?;
    let inner = lambda(alloc, deeper(alloc, &right)?, case)?;
    for_each_proposition(alloc, left, inner)
}

/// The proof of a disjunction from the variable bound last, which proves its left side.
pub fn left_term(alloc: Global, p: &Lp, q: &Lp) -> Result<Lp, NoMemory>
    ensures { IfOk result (λ t. term_of t ≡ left_term (term_of p.now) (term_of q.now) (var 0)) }
{
    side_term(alloc, p, q, apply(alloc, variable(1), variable(3))?)
}

/// The proof of a disjunction from the variable bound last, which proves its right side.
pub fn right_term(alloc: Global, p: &Lp, q: &Lp) -> Result<Lp, NoMemory>
    ensures { IfOk result (λ t. term_of t ≡ right_term (term_of p.now) (term_of q.now) (var 0)) }
{
    side_term(alloc, p, q, apply(alloc, variable(0), variable(3))?)
}

/// `Prf p → Prf q`.
fn gives(alloc: Global, p: &Lp, q: &Lp) -> Result<Lp, NoMemory>
    ensures { IfOk result (λ t. term_of t
        ≡ arrow (proof_of (term_of p.now)) (proof_of (term_of q.now))) }
{
    let target = proof_type(alloc, q.copy(alloc)?)?;
    arrow(alloc, proof_type(alloc, p.copy(alloc)?)?, &target)
}

/// `(Prf p → Prf q) → (Prf q → Prf p) → Prf r`, where r is the proposition bound last.
fn both_ways(alloc: Global, p: &Lp, q: &Lp) -> Result<Lp, NoMemory>
    ensures { IfOk result (λ t. term_of t ≡ iff_arg (term_of p.now) (term_of q.now) (var 0)) }
{
    let last = proof_type(alloc, variable(0))?;
    let back = arrow(alloc, gives(alloc, q, p)?, &last)?;
    arrow(alloc, gives(alloc, p, q)?, &back)
}

/// The proof of an equivalence from proofs of its two directions, which stand two binders further in.
pub fn iff_term(alloc: Global, p: &Lp, q: &Lp, there: Lp, back: Lp) -> Result<Lp, NoMemory>
    ensures { IfOk result (λ t. term_of t
        ≡ iff_term (term_of p.now) (term_of q.now) (term_of there) (term_of back)) }
{
    let p = deeper(alloc, p)?;
    let q = deeper(alloc, q)?;
    let both = apply_both(alloc, variable(0), there, back)?;
    for_each_proposition(alloc, both_ways(alloc, &p, &q)?, both)
}

/// The term two binders further in.
fn twice_deeper(alloc: Global, t: &Lp) -> Result<Lp, NoMemory>
    ensures { IfOk result (λ r. term_of r ≡ shift (shift (term_of t.now))) }
{
    let once = deeper(alloc, t)?;
    deeper(alloc, &once)
}

/// A term under one binder with one binder more around that.
#[tactic(auto, using(crate::proofs::UnderSteps::view_under))]
fn deeper_under(alloc: Global, t: &Lp) -> Result<Lp, NoMemory>
    ensures { IfOk result (λ r. term_of r ≡ rename (under_renaming (λ n. suc n)) (term_of t.now)) }
{
    lift(alloc, t, 1, 1)
}

/// The proof of an existential with the body `b`, by the individual `u` and a proof of the body there.
pub fn ex_term(alloc: Global, b: &Lp, u: &Lp, proof: &Lp) -> Result<Lp, NoMemory>
    ensures { IfOk result (λ t. term_of t
        ≡ ex_term (term_of b.now) (term_of u.now) (term_of proof.now)) }
{
    let target = proof_type(alloc, variable(1))?;
    let body = proof_type(alloc, deeper_under(alloc, b)?)?;
    let each = product(alloc, individuals(alloc)?, arrow(alloc, body, &target)?)?;
    let u = twice_deeper(alloc, u)?;
    let used = apply_both(alloc, variable(0), u, twice_deeper(alloc, proof)?)?;
    for_each_proposition(alloc, each, used)
}
