//! The drinker terms.
#![tactic(auto, using(crate::proofs::BuildSteps::build_steps))]

ghost use Rattle.std.specs.Prelude.{◌≡◌, ◌<◌, List, IfOk};
ghost use Rattle.lp_term.specs.Connectives.{all, arrow, ex, imp, individuals, neg, proof_of, propositions};
ghost use Rattle.lp_term.specs.LambdaPi.{Term, app, con, lam, var};
ghost use Rattle.lp_term.specs.Names.{any_name};
ghost use Rattle.lp_term.specs.ProofTerms.{contradiction, ex_term};
ghost use Rattle.lp_term.specs.Signature.{Extends};
ghost use Rattle.lp_term.specs.Typing.{Declaration, HasType};
ghost use Rattle.lp_term.specs.View.{term_of};
ghost use Rattle.nd_term.specs.Drinkers.{drinker, drinks, negative_drinker, negative_drinker_type, positive_drinker, positive_drinker_type, refutes};

use crate::build::{
    apply, apply_both, arrow, assume, existential, implication, individuals, lambda, negation,
    propositions, symbol, variable,
};
use crate::contradiction::by_excluded_middle;
use crate::proof_terms::ex_term;
use dk_syntax::NoMemory;
use lp_term::Lp;
use std::alloc::Global;

/// `any`.
fn any(alloc: Global) -> Result<Lp, NoMemory>
    ensures { IfOk result (λ t. term_of t ≡ con any_name) }
{
    symbol(alloc, b"any")
}

/// `all f`.
fn universal(alloc: Global, family: Lp) -> Result<Lp, NoMemory>
    ensures { IfOk result (λ t. term_of t ≡ all (term_of family)) }
{
    apply(alloc, symbol(alloc, b"all")?, family)
}

/// `not (all f)` for a variable f.
fn not_everywhere(alloc: Global, f: u32) -> Result<Lp, NoMemory>
    ensures { IfOk result (λ t. term_of t ≡ neg (all (var f))) }
{
    negation(alloc, universal(alloc, variable(f))?)
}

/// `imp (ex f) (f c)` for a variable f, with c bound last.
fn drinks(alloc: Global, f: u32) -> Result<Lp, NoMemory>
    requires { f < 10 }
    ensures { IfOk result (λ t. term_of t ≡ drinks (var f)) }
{
    let someone = existential(alloc, variable(f + 1))?;
    implication(alloc, someone, apply(alloc, variable(f + 1), variable(0))?)
}

/// `imp (not (all f)) (not (f c))` for a variable f, with c bound last.
fn refutes(alloc: Global, f: u32) -> Result<Lp, NoMemory>
    requires { f < 10 }
    ensures { IfOk result (λ t. term_of t ≡ refutes (var f)) }
{
    let not_all = negation(alloc, universal(alloc, variable(f + 1))?)?;
    let not_here = negation(alloc, apply(alloc, variable(f + 1), variable(0))?)?;
    implication(alloc, not_all, not_here)
}

/// `ex (λ (c : I), b)`.
fn someone(alloc: Global, body: Lp) -> Result<Lp, NoMemory>
    ensures { IfOk result (λ t. term_of t ≡ ex (lam individuals (term_of body))) }
{
    existential(alloc, lambda(alloc, individuals(alloc)?, body)?)
}

/// A term for each family of propositions: `λ (f : I → Prop), t`.
fn for_each_family(alloc: Global, body: Lp) -> Result<Lp, NoMemory>
    ensures { IfOk result (λ t. term_of t
        ≡ lam (arrow individuals propositions) (term_of body)) }
{
    let target = propositions(alloc)?;
    lambda(alloc, arrow(alloc, individuals(alloc)?, &target)?, body)
}

/// Below `λ (h : Prf (ex f)), λ (x : I), λ (b : Prf (f x))`: x drinks.
fn drinker_found(alloc: Global) -> Result<Lp, NoMemory>
    ensures { IfOk result (λ t. term_of t
        ≡ ex_term (drinks (var 3)) (var 1) (lam (proof_of (ex (var 3))) (var 1))) }
{
    let proof = assume(alloc, existential(alloc, variable(3))?, variable(1))?;
    ex_term(alloc, &drinks(alloc, 3)?, &variable(1), &proof)
}

/// Where someone does it: the one who does.
fn where_some(alloc: Global) -> Result<Lp, NoMemory>
    ensures { IfOk result (λ t. term_of t
        ≡ lam (proof_of (ex (var 0))) (app (app (var 0) (ex (lam individuals (drinks (var 1)))))
        (lam individuals (lam (proof_of (app (var 2) (var 0)))
        (ex_term (drinks (var 3)) (var 1) (lam (proof_of (ex (var 3))) (var 1))))))) }
{
    let holds = apply(alloc, variable(2), variable(0))?;
    let found = assume(alloc, holds, drinker_found(alloc)?)?;
    let each = lambda(alloc, individuals(alloc)?, found)?;
    let goal = someone(alloc, drinks(alloc, 1)?)?;
    let used = apply_both(alloc, variable(0), goal, each)?;
    assume(alloc, existential(alloc, variable(0))?, used)
}

/// Where no one does it: anyone.
fn where_none(alloc: Global) -> Result<Lp, NoMemory>
    ensures { IfOk result (λ t. term_of t
        ≡ lam (proof_of (neg (ex (var 0)))) (ex_term (drinks (var 1)) (con any_name)
        (lam (proof_of (ex (var 1))) (app (app (var 1) (var 0)) (app (var 2) (con any_name)))))) }
{
    let there = apply(alloc, variable(2), any(alloc)?)?;
    let absurd = apply_both(alloc, variable(1), variable(0), there)?;
    let proof = assume(alloc, existential(alloc, variable(1))?, absurd)?;
    let anyone = ex_term(alloc, &drinks(alloc, 1)?, &any(alloc)?, &proof)?;
    let none = negation(alloc, existential(alloc, variable(0))?)?;
    assume(alloc, none, anyone)
}

/// The drinker of positive origins.
fn positive(alloc: Global) -> Result<Lp, NoMemory>
    ensures { IfOk result (λ t. term_of t ≡ positive_drinker) }
{
    let some = existential(alloc, variable(0))?;
    let goal = someone(alloc, drinks(alloc, 0)?)?;
    let middle = apply_both(alloc, symbol(alloc, b"em")?, some, goal)?;
    let both = apply_both(alloc, middle, where_some(alloc)?, where_none(alloc)?)?;
    for_each_family(alloc, both)
}

/// Below `q`, `x` and `b : Prf (not (f x))`: x refutes.
fn refuter(alloc: Global) -> Result<Lp, NoMemory>
    ensures { IfOk result (λ t. term_of t
        ≡ ex_term (refutes (var 4)) (var 1) (lam (proof_of (neg (all (var 4)))) (var 1))) }
{
    let proof = assume(alloc, not_everywhere(alloc, 4)?, variable(1))?;
    ex_term(alloc, &refutes(alloc, 4)?, &variable(1), &proof)
}

/// There, so that `q` gives a proof of `f x`.
fn refuted_there(alloc: Global) -> Result<Lp, NoMemory>
    ensures { IfOk result (λ t. term_of t
        ≡ app (app (var 3) (ex_term (refutes (var 4)) (var 1) (lam (proof_of (neg (all (var 4)))) (var 1))))
        (app (var 4) (var 1))) }
{
    let holds = apply(alloc, variable(4), variable(1))?;
    apply_both(alloc, variable(3), refuter(alloc)?, holds)
}

/// Below `q` and `z : Prf (not (all f))`: f holds everywhere, by contradiction at each.
fn everywhere(alloc: Global) -> Result<Lp, NoMemory>
    ensures { IfOk result (λ t. term_of t
        ≡ lam individuals (contradiction (app (var 3) (var 0)) (app (app (var 3) (ex_term (refutes (var 4)) (var 1)
        (lam (proof_of (neg (all (var 4)))) (var 1)))) (app (var 4) (var 1))))) }
{
    let holds = apply(alloc, variable(3), variable(0))?;
    let at_each = by_excluded_middle(alloc, &holds, refuted_there(alloc)?)?;
    lambda(alloc, individuals(alloc)?, at_each)
}

/// Below `q` and `z : Prf (not (all f))`: absurd, so that anything follows.
fn absurd_below(alloc: Global) -> Result<Lp, NoMemory>
    ensures { IfOk result (λ t. term_of t ≡ app (app (var 0)
        (lam individuals (contradiction (app (var 3) (var 0)) (app (app (var 3) (ex_term (refutes (var 4)) (var 1)
        (lam (proof_of (neg (all (var 4)))) (var 1)))) (app (var 4) (var 1))))))
        (neg (app (var 2) (con any_name)))) }
{
    let goal = negation(alloc, apply(alloc, variable(2), any(alloc)?)?)?;
    apply_both(alloc, variable(0), everywhere(alloc)?, goal)
}

/// Below `q`: anyone refutes.
fn anyone_refutes(alloc: Global) -> Result<Lp, NoMemory>
    ensures { IfOk result (λ t. term_of t
        ≡ ex_term (refutes (var 1)) (con any_name) (lam (proof_of (neg (all (var 1)))) (app (app (var 0)
        (lam individuals (contradiction (app (var 3) (var 0)) (app (app (var 3) (ex_term (refutes (var 4)) (var 1)
        (lam (proof_of (neg (all (var 4)))) (var 1)))) (app (var 4) (var 1))))))
        (neg (app (var 2) (con any_name)))))) }
{
    let absurd = absurd_below(alloc)?;
    let proof = assume(alloc, not_everywhere(alloc, 1)?, absurd)?;
    ex_term(alloc, &refutes(alloc, 1)?, &any(alloc)?, &proof)
}

/// The drinker of negative origins.
fn negative(alloc: Global) -> Result<Lp, NoMemory>
    ensures { IfOk result (λ t. term_of t ≡ negative_drinker) }
{
    let goal = someone(alloc, refutes(alloc, 0)?)?;
    let below = someone(alloc, refutes(alloc, 1)?)?;
    let absurd = apply_both(alloc, variable(0), anyone_refutes(alloc)?, below)?;
    for_each_family(alloc, by_excluded_middle(alloc, &goal, absurd)?)
}

/// The drinker term of positive origins, or of negative ones.
fn of_sign(alloc: Global, sign: bool) -> Result<Lp, NoMemory>
    ensures { IfOk result (λ t. term_of t ≡ drinker sign positive_drinker negative_drinker) }
{
    if sign {
        positive(alloc)
    } else {
        negative(alloc)
    }
}

/// The drinker term: for each family f of propositions, of someone who has f where anyone has, or who lacks f where
/// anyone lacks it.
pub fn drinker(alloc: Global, sign: bool) -> Result<Lp, NoMemory>
    ensures term { IfOk result (λ t. term_of t ≡ drinker sign positive_drinker negative_drinker) }
    ensures typed { (sig : List Declaration) (g : List Term) → Extends sig → IfOk result (λ t.
        HasType sig g (term_of t) (drinker sign positive_drinker_type negative_drinker_type)) }
{
    of_sign(alloc, sign)
}
