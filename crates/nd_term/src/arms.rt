//! What stands around the consumers of a formula's parts.
#![tactic(auto, using(crate::proofs::ArmSteps::arm_steps))]

ghost use Rattle.std.specs.Prelude.{◌≡◌, IfOk};
ghost use Rattle.lp_term.specs.Connectives.{bot, imp, individuals, proof_of};
ghost use Rattle.lp_term.specs.LambdaPi.{app, lam, shift, var};
ghost use Rattle.lp_term.specs.Names.{any_name};
ghost use Rattle.lp_term.specs.ProofTerms.{ex_term, iff_term, left_term, pair_term, right_term};
ghost use Rattle.lp_term.specs.View.{term_of};
ghost use Rattle.nd_term.specs.Formulas.{ground_symbol};
ghost use Rattle.nd_term.specs.Frames.{deeper, named, said, said_under, with_value};
ghost use Rattle.nd_term.specs.Spots.{frame_of, value_of};
ghost use Rattle.nd_term.specs.Views.{theory_formula};

use crate::build::{
    apply, apply_both, assume, deeper, falsity, implication, individuals, lambda, variable,
};
use crate::proof_terms::{ex_term, iff_term, left_term, pair_term, right_term};
use crate::spot::Spot;
use crate::values::{Value, with_first};
use dk_syntax::{Formula, NoMemory};
use lp_term::Lp;
use std::alloc::Global;

/// `t bot k`: falsity from a proof that is used by cases.
pub fn used_for_falsity(alloc: Global, t: Lp, k: Lp) -> Result<Lp, NoMemory>
    ensures { IfOk result (λ r. term_of r ≡ app (app (term_of t) bot) (term_of k)) }
{
    apply_both(alloc, t, falsity(alloc)?, k)
}

/// `t bot (λ (a : Prf A), u) (λ (b : Prf B), v)`.
pub fn by_cases(
    alloc: Global,
    spot: &Spot<'_>,
    a: &Formula,
    b: &Formula,
    t: Lp,
    first: Lp,
    second: Lp,
) -> Result<Lp, NoMemory>
    ensures { let z = frame_of spot.now in IfOk result (λ r. term_of r
        ≡ app (app (app (term_of t) bot) (lam (proof_of (said z (theory_formula a.now))) (term_of first)))
        (lam (proof_of (said z (theory_formula b.now))) (term_of second))) }
{
    let first = assuming(alloc, spot, a, first)?;
    let second = assuming(alloc, spot, b, second)?;
    apply(alloc, used_for_falsity(alloc, t, first)?, second)
}

/// `λ (a : Prf A), u`.
pub fn assuming(alloc: Global, spot: &Spot<'_>, a: &Formula, u: Lp) -> Result<Lp, NoMemory>
    ensures { IfOk result (λ r. term_of r
        ≡ lam (proof_of (said (frame_of spot.now) (theory_formula a.now))) (term_of u)) }
{
    assume(alloc, spot.proposition(alloc, a)?, u)
}

/// `λ (a : Prf A), λ (b : Prf B), u`.
pub fn assuming_both(
    alloc: Global,
    spot: &Spot<'_>,
    a: &Formula,
    b: &Formula,
    u: Lp,
) -> Result<Lp, NoMemory>
    ensures { let z = frame_of spot.now in IfOk result (λ r. term_of r
        ≡ lam (proof_of (said z (theory_formula a.now)))
        (lam (proof_of (said (deeper z) (theory_formula b.now))) (term_of u))) }
{
    let below = spot.deeper()?;
    let inner = assuming(alloc, &below, b, u)?;
    assuming(alloc, spot, a, inner)
}

/// `λ (b : Prf B), t (pair a b)` below `a`.
pub fn pair_denied(
    alloc: Global,
    spot: &Spot<'_>,
    a: &Formula,
    b: &Formula,
    t: &Lp,
) -> Result<Lp, NoMemory>
    ensures { let z = frame_of spot.now in IfOk result (λ r. term_of r
        ≡ lam (proof_of (said (deeper z) (theory_formula b.now)))
        (app (shift (shift (term_of t.now))) (pair_term (said (deeper (deeper z)) (theory_formula a.now))
        (said (deeper (deeper z)) (theory_formula b.now)) (var 1) (var 0)))) }
{
    let below = spot.deeper()?;
    let there = below.deeper()?;
    let p = there.proposition(alloc, a)?;
    let pair = pair_term(alloc, &p, &there.proposition(alloc, b)?)?;
    let denied = deeper(alloc, &deeper(alloc, t)?)?;
    assuming(alloc, &below, b, apply(alloc, denied, pair)?)
}

/// `λ (a : Prf A), t (left a)`.
pub fn left_denied(
    alloc: Global,
    spot: &Spot<'_>,
    a: &Formula,
    b: &Formula,
    t: &Lp,
) -> Result<Lp, NoMemory>
    ensures { let z = frame_of spot.now in IfOk result (λ r. term_of r
        ≡ lam (proof_of (said z (theory_formula a.now))) (app (shift (term_of t.now))
        (left_term (said (deeper z) (theory_formula a.now)) (said (deeper z) (theory_formula b.now)) (var 0)))) }
{
    let below = spot.deeper()?;
    let p = below.proposition(alloc, a)?;
    let side = left_term(alloc, &p, &below.proposition(alloc, b)?)?;
    assuming(alloc, spot, a, apply(alloc, deeper(alloc, t)?, side)?)
}

/// `λ (b : Prf B), t (right b)`.
pub fn right_denied(
    alloc: Global,
    spot: &Spot<'_>,
    a: &Formula,
    b: &Formula,
    t: &Lp,
) -> Result<Lp, NoMemory>
    ensures { let z = frame_of spot.now in IfOk result (λ r. term_of r
        ≡ lam (proof_of (said z (theory_formula b.now))) (app (shift (term_of t.now))
        (right_term (said (deeper z) (theory_formula a.now)) (said (deeper z) (theory_formula b.now)) (var 0)))) }
{
    let below = spot.deeper()?;
    let p = below.proposition(alloc, a)?;
    let side = right_term(alloc, &p, &below.proposition(alloc, b)?)?;
    assuming(alloc, spot, b, apply(alloc, deeper(alloc, t)?, side)?)
}

/// `λ (b : Prf B), t (λ (a : Prf A), b)`.
pub fn conclusion_denied(
    alloc: Global,
    spot: &Spot<'_>,
    a: &Formula,
    b: &Formula,
    t: &Lp,
) -> Result<Lp, NoMemory>
    ensures { let z = frame_of spot.now in IfOk result (λ r. term_of r
        ≡ lam (proof_of (said z (theory_formula b.now))) (app (shift (term_of t.now))
        (lam (proof_of (said (deeper z) (theory_formula a.now))) (var 1)))) }
{
    let below = spot.deeper()?;
    let ignoring = assuming(alloc, &below, a, variable(1))?;
    assuming(alloc, spot, b, apply(alloc, deeper(alloc, t)?, ignoring)?)
}

/// `λ (a : Prf A), u B`: anything from an absurd assumption.
pub fn contradicted(
    alloc: Global,
    spot: &Spot<'_>,
    a: &Formula,
    b: &Formula,
    u: Lp,
) -> Result<Lp, NoMemory>
    ensures { let z = frame_of spot.now in IfOk result (λ r. term_of r
        ≡ lam (proof_of (said z (theory_formula a.now)))
        (app (term_of u) (said (deeper z) (theory_formula b.now)))) }
{
    let below = spot.deeper()?;
    let goal = below.proposition(alloc, b)?;
    assuming(alloc, spot, a, apply(alloc, u, goal)?)
}

/// `imp A B`.
fn implied(alloc: Global, spot: &Spot<'_>, a: &Formula, b: &Formula) -> Result<Lp, NoMemory>
    ensures { let z = frame_of spot.now in IfOk result (λ r. term_of r
        ≡ imp (said z (theory_formula a.now)) (said z (theory_formula b.now))) }
{
    let p = spot.proposition(alloc, a)?;
    implication(alloc, p, spot.proposition(alloc, b)?)
}

/// `λ (f : Prf (imp A B)), λ (g : Prf (imp B A)), u`.
pub fn assuming_ways(
    alloc: Global,
    spot: &Spot<'_>,
    a: &Formula,
    b: &Formula,
    u: Lp,
) -> Result<Lp, NoMemory>
    ensures { let z = frame_of spot.now in let f = theory_formula a.now in
        let h = theory_formula b.now in IfOk result (λ r. term_of r
        ≡ lam (proof_of (imp (said z f) (said z h)))
        (lam (proof_of (imp (said (deeper z) h) (said (deeper z) f))) (term_of u))) }
{
    let below = spot.deeper()?;
    let back = implied(alloc, &below, b, a)?;
    let inner = assume(alloc, back, u)?;
    assume(alloc, implied(alloc, spot, a, b)?, inner)
}

/// `iff A B` from its two directions, which stand two binders further in.
pub fn from_ways(
    alloc: Global,
    spot: &Spot<'_>,
    a: &Formula,
    b: &Formula,
    there: Lp,
    back: Lp,
) -> Result<Lp, NoMemory>
    ensures { let z = frame_of spot.now in IfOk result (λ r. term_of r
        ≡ iff_term (said z (theory_formula a.now)) (said z (theory_formula b.now)) (term_of there)
        (term_of back)) }
{
    let p = spot.proposition(alloc, a)?;
    iff_term(alloc, &p, &spot.proposition(alloc, b)?, there, back)
}

/// The proof of `iff A B` from the proofs `a` and `b` that are bound last.
fn both_hold(alloc: Global, spot: &Spot<'_>, a: &Formula, b: &Formula) -> Result<Lp, NoMemory>
    ensures { let z = frame_of spot.now in let f = theory_formula a.now in
        let h = theory_formula b.now in IfOk result (λ r. term_of r
        ≡ iff_term (said z f) (said z h) (lam (proof_of (said (deeper (deeper z)) f)) (var 3))
        (lam (proof_of (said (deeper (deeper z)) h)) (var 4))) }
{
    let below = spot.deeper()?.deeper()?;
    let there = assuming(alloc, &below, a, variable(3))?;
    let back = assuming(alloc, &below, b, variable(4))?;
    from_ways(alloc, spot, a, b, there, back)
}

/// `λ (b : Prf B), t (iff ..)` below `a`: both hold.
pub fn equivalence_denied(
    alloc: Global,
    spot: &Spot<'_>,
    a: &Formula,
    b: &Formula,
    t: &Lp,
) -> Result<Lp, NoMemory>
    ensures { let z = frame_of spot.now in let there = deeper (deeper z) in
        let f = theory_formula a.now in let h = theory_formula b.now in IfOk result (λ r. term_of r
        ≡ lam (proof_of (said (deeper z) h)) (app (shift (shift (term_of t.now)))
        (iff_term (said there f) (said there h) (lam (proof_of (said (deeper (deeper there)) f)) (var 3))
        (lam (proof_of (said (deeper (deeper there)) h)) (var 4))))) }
{
    let below = spot.deeper()?;
    let there = below.deeper()?;
    let both = both_hold(alloc, &there, a, b)?;
    let denied = deeper(alloc, &deeper(alloc, t)?)?;
    assuming(alloc, &below, b, apply(alloc, denied, both)?)
}

/// `λ (a : Prf A[s]), u`, where s is the value of the quantifier's variable.
fn assuming_instance(
    alloc: Global,
    spot: &Spot<'_>,
    body: &Formula,
    value: Value<'_>,
    u: Lp,
) -> Result<Lp, NoMemory>
    ensures { let z = frame_of spot.now in IfOk result (λ r. term_of r
        ≡ lam (proof_of (said (with_value (value_of value.entry) z) (theory_formula body.now)))
        (term_of u)) }
{
    let values = with_first(alloc, value, spot.values)?;
    let inside = spot.under(values.as_slice());
    assuming(alloc, &inside, body, u)
}

/// `λ (a : Prf A[s]), t (ex s a)`, where s is the value of the quantifier's variable.
pub fn instance_denied(
    alloc: Global,
    spot: &Spot<'_>,
    body: &Formula,
    value: Value<'_>,
    t: &Lp,
) -> Result<Lp, NoMemory>
    ensures { let z = frame_of spot.now in let f = theory_formula body.now in
        let u = value_of value.entry in IfOk result (λ r. term_of r
        ≡ lam (proof_of (said (with_value u z) f)) (app (shift (term_of t.now))
        (ex_term (said_under (deeper z) f) (named (deeper z) u) (var 0)))) }
{
    let below = spot.deeper()?;
    let family = below.body(alloc, body)?;
    let found = below.value(alloc, value)?;
    let proof = ex_term(alloc, &family, &found, &variable(0))?;
    let used = apply(alloc, deeper(alloc, t)?, proof)?;
    assuming_instance(alloc, spot, body, value, used)
}

/// `λ (x : I), λ (a : Prf A), u`.
pub fn assuming_someone(
    alloc: Global,
    spot: &Spot<'_>,
    body: &Formula,
    u: Lp,
) -> Result<Lp, NoMemory>
    ensures { IfOk result (λ r. term_of r ≡ lam individuals
        (lam (proof_of (said_under (frame_of spot.now) (theory_formula body.now))) (term_of u))) }
{
    let inner = assume(alloc, spot.body(alloc, body)?, u)?;
    lambda(alloc, individuals(alloc)?, inner)
}

/// `λ (a : Prf A), t (λ (x : I), a)`, where the quantifier's variable stands for `any`.
pub fn everywhere_denied(
    alloc: Global,
    spot: &Spot<'_>,
    body: &Formula,
    t: &Lp,
) -> Result<Lp, NoMemory>
    ensures { let z = with_value (ground_symbol any_name) (frame_of spot.now) in
        IfOk result (λ r. term_of r ≡ lam (proof_of (said z (theory_formula body.now)))
        (app (shift (term_of t.now)) (lam individuals (var 1)))) }
{
    let everywhere = lambda(alloc, individuals(alloc)?, variable(1))?;
    let used = apply(alloc, deeper(alloc, t)?, everywhere)?;
    assuming_instance(alloc, spot, body, Value::Any, used)
}
