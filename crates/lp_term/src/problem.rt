//! What a development for a problem declares.
#![tactic(auto, using(crate::proofs::ProblemLaws::problem_steps))]

ghost use Rattle.std.specs.Prelude.{◌≡◌, IfOk};
ghost use Rattle.lp_term.specs.Problems.{conclusion_of, constant_of, constants_of, function_type, goal_type_of, implication_of, result_of, symbol_type_of};
ghost use Rattle.lp_term.specs.Substitution.{lifted};
ghost use Rattle.lp_term.specs.Terms.{proof_of};
ghost use Rattle.lp_term.specs.Translation.{translated};

use crate::build::{product, proof_type, symbol};
use crate::command::Command;
use crate::identifier::ident_of;
use crate::lp::Lp;
use crate::replace::lift;
use crate::translation::translate;
use dk_syntax::{Formula, Kind, Named, NoMemory, Problem, Seq, SymKey};
use std::alloc::Global;

fn result_type(alloc: Global, kind: Kind) -> Result<Lp, NoMemory>
    ensures { IfOk result (λ t. t ≡ result_of kind) }
{
    match kind {
        Kind::Function => symbol(alloc, b"I"),
        Kind::Predicate => symbol(alloc, b"Prop"),
    }
}

/// The type of a symbol: `I → .. → I`, or `I → .. → Prop` for a predicate.
pub fn symbol_type(alloc: Global, key: &SymKey) -> Result<Lp, NoMemory>
    ensures { IfOk result (λ t. t ≡ symbol_type_of key.now) }
{
    let mut all = result_type(alloc, key.kind)?;
    for _argument in 0..key.arity {
        let domain = symbol(alloc, b"I")?;
        all = product(alloc, domain, all)?;
    }
    Ok(all)
}

fn constant(alloc: Global, key: &SymKey) -> Result<Command, NoMemory>
    ensures { IfOk result (λ command. command ≡ constant_of key.now) }
{
    let name = ident_of(alloc, key)?;
    Ok(Command::Constant(name, symbol_type(alloc, key)?))
}

/// One constant for each of the symbols.
pub fn constants(alloc: Global, symbols: &[SymKey]) -> Result<Seq<Command>, NoMemory>
    ensures { IfOk result (λ all. all ≡ constants_of symbols.now) }
{
    let mut all = Seq::from_vec(Vec::new(alloc));
    for key in symbols {
        all.push(constant(alloc, key)?)?;
    }
    Ok(all)
}

/// `Prf A`, raised by the binders around it, which bind none of its variables.
fn proof_below(alloc: Global, formula: &Formula, binders: u32) -> Result<Lp, NoMemory>
    ensures { IfOk result (λ t. t ≡ lifted binders (proof_of (translated formula.now)) 0) }
{
    let proposition = translate(alloc, formula)?;
    let below = lift(alloc, &proof_type(alloc, proposition)?, binders, 0)?;
    Ok(below)
}

fn conclusion_below(alloc: Global, conjecture: &Option<Named>, binders: u32) -> Result<Lp, NoMemory>
    ensures { IfOk result (λ t. t ≡ lifted binders (proof_of (conclusion_of conjecture.now)) 0) }
{
    match conjecture {
        Some(named) => proof_below(alloc, &named.formula, binders),
        None => {
            let falsity = symbol(alloc, b"bot")?;
            let of = proof_type(alloc, falsity)?;
            lift(alloc, &of, binders, 0)
        }
    }
}

/// `Prf H1 → .. → Prf Hn → Prf C` over all hypotheses, C being the conjecture or `bot`.
pub fn goal_type(alloc: Global, problem: &Problem) -> Result<Lp, NoMemory>
    ensures { IfOk result (λ t. t ≡ goal_type_of problem.now) }
{
    let mut rest = problem.hyps.as_slice();
    let count = u32::try_from(rest.len()).map_err(|_| NoMemory)?;
    let mut all = conclusion_below(alloc, &problem.conjecture, count)?;
    while let [front @ .., hypothesis] = rest {
        let binders = u32::try_from(front.len()).map_err(|_| NoMemory)?;
        let domain = proof_below(alloc, &hypothesis.formula, binders)?;
        all = product(alloc, domain, all)?;
        rest = front;
    }
    Ok(all)
}
