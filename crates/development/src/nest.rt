//! The nest of eigenvariables, each of which is bound with the variable of its formula.
#![tactic(auto)]

ghost use Rattle.std.specs.Prelude.{◌≡◌, ◌+◌, length, suc, IfOk};
ghost use Rattle.assemble.specs.Fitting.{eigenvariable_of, eigenvariables_of};
ghost use Rattle.development.specs.Nest.{chosen, nested};
ghost use Rattle.development.specs.Places.{IsGiven};
ghost use Rattle.lp_term.specs.LambdaPi.{rename, under_renaming};
ghost use Rattle.lp_term.specs.Connectives.{all, proof_of};
ghost use Rattle.lp_term.specs.View.{term_of};
ghost use Rattle.nd_term.specs.Drinkers.{drinker};
ghost use Rattle.nd_term.specs.Eigenvariables.{origin_body, witness_at};
ghost use Rattle.nd_term.specs.Places.{at_level, eigenvariables_at};

use crate::families::{Family, family_of};
use crate::given::{Given, further};
use dk_syntax::{NoMemory, Seq, Term};
use lp_term::{Lp, lift};
use nd_term::build::{
    apply, apply_both, existential, implication, individuals, lambda, negation, proof_type, symbol,
};
use nd_term::{Place, at_level};
use std::alloc::Global;

/// The term under one binder, with one binder more around that.
fn below_binder(alloc: Global, t: &Lp) -> Result<Lp, NoMemory>
    ensures { IfOk result (λ r. term_of r ≡ rename (under_renaming (λ k. suc k)) (term_of t.now)) }
{
    lift(alloc, t, 1, 1)
}

/// `all f`.
fn universal(alloc: Global, family: Lp) -> Result<Lp, NoMemory>
    ensures { IfOk result (λ t. term_of t ≡ all (term_of family)) }
{
    apply(alloc, symbol(alloc, b"all")?, family)
}

/// What the variable after an eigenvariable proves, from the body of the origin formula.
fn witness_type(alloc: Global, positive: bool, body: &Lp) -> Result<Lp, NoMemory>
    ensures { IfOk result (λ t. term_of t ≡ proof_of (witness_at positive
        (rename (under_renaming (λ k. suc k)) (term_of body.now)) (term_of body.now))) }
{
    let below = below_binder(alloc, body)?;
    let family = lambda(alloc, individuals(alloc)?, below)?;
    let here = body.copy(alloc)?;
    if positive {
        let someone = existential(alloc, family)?;
        return proof_type(alloc, implication(alloc, someone, here)?);
    }
    let not_all = negation(alloc, universal(alloc, family)?)?;
    let not_here = negation(alloc, here)?;
    proof_type(alloc, implication(alloc, not_all, not_here)?)
}

/// The variable of the drinker of a sign, at a place of the level.
fn drinker_variable(given: &Given<'_, '_>, positive: bool, level: u32) -> Result<Lp, NoMemory>
    ensures { IfOk result (λ t. term_of t ≡ drinker positive (at_level level (given.now.denied + 1))
        (at_level level (given.now.denied + 2))) }
{
    if positive {
        return Ok(at_level(level, further(given.denied, 1)?));
    }
    Ok(at_level(level, further(given.denied, 2)?))
}

/// `D F C (λ (x : I), λ (w : Prf W), inside)`.
fn chosen(
    alloc: Global,
    one: Family,
    drinker: Lp,
    conjecture: &Lp,
    inside: Lp,
) -> Result<Lp, NoMemory>
    ensures { IfOk result (λ t. term_of t ≡ chosen one.positive (term_of drinker)
        (term_of one.body) (term_of conjecture.now) (term_of inside)) }
{
    let witness = witness_type(alloc, one.positive, &one.body)?;
    let under = lambda(alloc, witness, inside)?;
    let below = lambda(alloc, individuals(alloc)?, under)?;
    let family = lambda(alloc, individuals(alloc)?, one.body.copy(alloc)?)?;
    let head = apply(alloc, drinker, family)?;
    apply_both(alloc, head, conjecture.copy(alloc)?, below)
}

/// So many terms.
fn marks(alloc: Global, count: usize) -> Result<Seq<Term>, NoMemory>
    ensures { IfOk result (λ all. length all ≡ count) }
{
    let mut all = Seq::from_vec(Vec::new(alloc));
    for _mark in 0..count {
        all.push(Term::Any)?;
    }
    Ok(all)
}

/// The part of the nest for a Skolem term, where as many eigenvariables are bound as there are marks.
fn eigenvariable(
    alloc: Global,
    given: &Given<'_, '_>,
    t: &Term,
    known: &Seq<Term>,
    conjecture: &Lp,
    inside: Lp,
) -> Result<Lp, NoMemory>
    requires { IsGiven given.now }
    ensures { let n = given.now.first + (length known.now + length known.now) in
        let o = eigenvariable_of given.now.plan.now.origins.list given.now.plan.now.order t.now in
        IfOk result (λ t. term_of t ≡ chosen o.positive
        (drinker o.positive (at_level n (given.now.denied + 1)) (at_level n (given.now.denied + 2)))
        (origin_body (eigenvariables_at n given.now.first (length known.now)) o)
        (term_of conjecture.now) (term_of inside)) }
{
    let half = further(given.first, known.len())?;
    let level = further(half, known.len())?;
    let there = Place {
        level,
        first_eigen: given.first,
        order: known,
        symbols: given.symbols,
    };
    let one = family_of(alloc, given, t, &there)?;
    let drinker = drinker_variable(given, one.positive, level)?;
    chosen(alloc, one, drinker, conjecture, inside)
}

/// The whole nest, put together from the last eigenvariable to the first.
pub fn nest(
    alloc: Global,
    given: &Given<'_, '_>,
    conjecture: &Lp,
    inside: Lp,
) -> Result<Lp, NoMemory>
    requires { IsGiven given.now }
    ensures { IfOk result (λ t. term_of t ≡ nested given.now.denied given.now.first 0
        (eigenvariables_of given.now.plan.now.origins.list given.now.plan.now.order)
        (term_of conjecture.now) (term_of inside)) }
{
    let order = given.plan.order.as_slice();
    let mut known = marks(alloc, order.len())?;
    let mut left = order.len();
    let mut all = inside;
    while left > 0 {
        left -= 1;
        known.pop();
        all = eigenvariable(alloc, given, &order[left], &known, conjecture, all)?;
    }
    Ok(all)
}
