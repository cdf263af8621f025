//! The body of goal.
#![tactic(auto)]

ghost use Rattle.std.specs.Prelude.{◌≡◌, IfOk};
ghost use Rattle.std.specs.List.{All};
ghost use Rattle.assemble.specs.Fitting.{symbols_of};
ghost use Rattle.assemble.specs.Problem.{theory_conclusion, theory_formulas};
ghost use Rattle.development.specs.Nest.{assumed};
ghost use Rattle.dk_syntax.specs.Lists.{Every};
ghost use Rattle.dk_syntax.specs.Problems.{formula_of};
ghost use Rattle.dk_syntax.specs.WellFormed.{IsClosed};
ghost use Rattle.lp_term.specs.Connectives.{arrow, ex, individuals, proof_of, propositions};
ghost use Rattle.lp_term.specs.LambdaPi.{lam, pi};
ghost use Rattle.lp_term.specs.ProofTerms.{let_term};
ghost use Rattle.lp_term.specs.View.{term_of};
ghost use Rattle.nd_term.specs.Drinkers.{negative_drinker, negative_drinker_type, positive_drinker, positive_drinker_type};
ghost use Rattle.nd_term.specs.Translation.{sentence};
ghost use Rattle.nd_term.specs.Views.{theory_formula};

use crate::lets::let_in;
use dk_syntax::{Named, NoMemory, Seq, SymKey};
use lp_term::{Lp, translate};
use nd_term::build::{
    apply, arrow, existential, falsity, implication, individuals, lambda, negation, product,
    proof_type, propositions, symbol, variable,
};
use nd_term::drinker;
use skolem_order::Origin;
use std::alloc::Global;

/// The Skolem symbols.
pub fn symbols_of(alloc: Global, origins: &[Origin]) -> Result<Seq<SymKey>, NoMemory>
    ensures { IfOk result (λ all. all ≡ symbols_of origins.now) }
{
    let mut all = Seq::from_vec(Vec::new(alloc));
    for origin in origins {
        all.push(origin.symbol.copy(alloc)?)?;
    }
    Ok(all)
}

/// The conjecture's proposition, and `bot` where there is none.
pub fn conclusion(alloc: Global, conjecture: &Option<Named>) -> Result<Lp, NoMemory>
    requires { Every IsClosed (formula_of conjecture.now) }
    ensures { IfOk result (λ t. term_of t ≡ sentence (theory_conclusion conjecture.now)) }
{
    match conjecture {
        Some(named) => translate(alloc, &named.formula),
        None => falsity(alloc),
    }
}

/// `Prf (ex (λ (c : I), f))` for each family, where `f` stands below the family and c.
fn drinker_type(alloc: Global, body: Lp) -> Result<Lp, NoMemory>
    ensures { IfOk result (λ t. term_of t ≡ pi (arrow individuals propositions)
        (proof_of (ex (lam individuals (term_of body))))) }
{
    let someone = existential(alloc, lambda(alloc, individuals(alloc)?, body)?)?;
    let target = propositions(alloc)?;
    let domain = arrow(alloc, individuals(alloc)?, &target)?;
    product(alloc, domain, proof_type(alloc, someone)?)
}

fn positive_type(alloc: Global) -> Result<Lp, NoMemory>
    ensures { IfOk result (λ t. term_of t ≡ positive_drinker_type) }
{
    let some = existential(alloc, variable(1))?;
    let here = apply(alloc, variable(1), variable(0))?;
    drinker_type(alloc, implication(alloc, some, here)?)
}

fn negative_type(alloc: Global) -> Result<Lp, NoMemory>
    ensures { IfOk result (λ t. term_of t ≡ negative_drinker_type) }
{
    let everywhere = apply(alloc, symbol(alloc, b"all")?, variable(1))?;
    let here = apply(alloc, variable(1), variable(0))?;
    let none = negation(alloc, everywhere)?;
    drinker_type(alloc, implication(alloc, none, negation(alloc, here)?)?)
}

/// The lets of the two drinkers.
pub fn drinking(alloc: Global, inside: Lp) -> Result<Lp, NoMemory>
    ensures { IfOk result (λ t. term_of t ≡ let_term positive_drinker_type positive_drinker
        (let_term negative_drinker_type negative_drinker (term_of inside))) }
{
    let negative = negative_type(alloc)?;
    let below = let_in(alloc, negative, drinker(alloc, false)?, inside)?;
    let positive = positive_type(alloc)?;
    let_in(alloc, positive, drinker(alloc, true)?, below)
}

/// `Prf H`.
fn hypothesis_type(alloc: Global, hypothesis: &Named) -> Result<Lp, NoMemory>
    requires { IsClosed hypothesis.now.formula }
    ensures { IfOk result (λ t. term_of t
        ≡ proof_of (sentence (theory_formula hypothesis.now.formula))) }
{
    proof_type(alloc, translate(alloc, &hypothesis.formula)?)
}

/// `λ (v : Prf H), .. u`, put together from the last hypothesis to the first.
pub fn assumed(alloc: Global, hyps: &[Named], u: Lp) -> Result<Lp, NoMemory>
    requires { All (λ hypothesis. IsClosed hypothesis.formula) hyps.now }
    ensures { IfOk result (λ t. term_of t ≡ assumed (theory_formulas hyps.now) (term_of u)) }
{
    let mut left = hyps.len();
    let mut all = u;
    while left > 0 {
        left -= 1;
        let domain = hypothesis_type(alloc, &hyps[left])?;
        all = lambda(alloc, domain, all)?;
    }
    Ok(all)
}
