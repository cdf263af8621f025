//! What a walk over a form keeps: the quantifiers around, and what stands for their variables.
#![tactic(auto, using(crate::proofs::ValueSteps::value_steps))]

ghost use Rattle.std.specs.Prelude.{◌≡◌, ◌≤◌, ◌-◌, ◌+◌, length, map, reverse, slice_get, Some, IfOk, MatchOption};
ghost use Rattle.dk_syntax.specs.Terms.{instance, substituted};
ghost use Rattle.step_skolem.specs.Levels.{index, term_of, values_of};
ghost use Rattle.step_skolem.specs.Substitutions.{applied};

use dk_syntax::{Literal, NoMemory, Seq, SymKey, Term};
use std::alloc::Global;

/// A quantifier that the image keeps: a universal with its number in the first form, or an existential.
#[derive(Clone, Copy)]
pub enum Quantifier {
    Universal(u32),
    Existential,
}

/// What stands for the variable of a replaced existential: a symbol, applied to the quantifiers of the image at
/// these levels. The outermost quantifier has level 0.
#[derive(Drop)]
pub struct Replacement {
    pub symbol: SymKey,
    pub levels: Seq<u32>,
}

/// What stands for a variable of the first form: the quantifier of the image at a level, or a term.
#[derive(Drop)]
pub enum Value {
    Kept(u32),
    Replaced(Replacement),
}

/// The place of a walk over a form: the quantifiers that the image keeps around and the values of the form's variables,
/// with the outermost first, the numbers of the next universal and existential, and how many entries are taken.
#[derive(Drop)]
pub struct Walk {
    pub kept: Vec<Quantifier>,
    pub values: Vec<Value>,
    pub next_all: u32,
    pub next_ex: u32,
    pub taken: usize,
}

/// The literal with what stands for each of its variables.
pub fn instance_at(alloc: Global, walk: &Walk, literal: &Literal) -> Result<Literal, NoMemory>
    ensures { IfOk result (λ there. there ≡ instance (values_of walk.now) literal.now) }
{
    Ok(Literal {
        positive: literal.positive,
        pred: literal.pred.copy(alloc)?,
        args: terms_at(alloc, walk, literal.args.as_slice())?,
    })
}

#[cycle(term_at)]
fn term_at(alloc: Global, walk: &Walk, term: &Term) -> Result<Term, NoMemory>
    ensures { IfOk result (λ there. there ≡ substituted (values_of walk.now) term.now) }
{
    match term {
        Term::Var(k) => variable_at(alloc, walk, *k),
        Term::App(symbol, args) => {
            let symbol = symbol.copy(alloc)?;
            Ok(Term::App(symbol, terms_at(alloc, walk, args.as_slice())?))
        }
        Term::Any => Ok(Term::Any),
    }
}

#[cycle(term_at)]
fn terms_at(alloc: Global, walk: &Walk, terms: &[Term]) -> Result<Seq<Term>, NoMemory>
    ensures { IfOk result (λ there. there ≡ map (substituted (values_of walk.now)) terms.now) }
{
    let mut there = Seq::from_vec(Vec::with_capacity(alloc, terms.len())?);
    for term in terms {
        there.push(term_at(alloc, walk, term)?)?;
    }
    Ok(there)
}

/// What stands for a variable.
fn variable_at(alloc: Global, walk: &Walk, k: u32) -> Result<Term, NoMemory>
    ensures { IfOk result (λ there. there ≡ values_of walk.now k) }
{
    let depth = walk.kept.len();
    match value_at(walk.values.as_slice(), k) {
        Some(value) => value_term(alloc, depth, value),
        None => variable(k as usize - walk.values.len() + depth),
    }
}

/// The value of a variable, unless no quantifier of the first form binds it.
pub fn value_at(values: &[Value], k: u32) -> Option<&Value>
    ensures { MatchOption result (length values.now ≤ k)
        (λ value. slice_get (reverse values.now) k ≡ Some value.now) }
{
    let place = k as usize;
    if place >= values.len() {
        return None;
    }
    Some(&values[values.len() - 1 - place])
}

fn value_term(alloc: Global, depth: usize, value: &Value) -> Result<Term, NoMemory>
    ensures { IfOk result (λ there. there ≡ term_of depth value.now) }
{
    match value {
        Value::Kept(level) => variable(from_level(depth, *level)),
        Value::Replaced(replacement) => replaced_term(alloc, depth, replacement),
    }
}

fn replaced_term(alloc: Global, depth: usize, replacement: &Replacement) -> Result<Term, NoMemory>
    ensures { IfOk result (λ there. there
        ≡ applied replacement.now.symbol (map (index depth) replacement.now.levels)) }
{
    let mut args = Seq::from_vec(Vec::with_capacity(alloc, replacement.levels.len())?);
    for level in replacement.levels.as_slice() {
        args.push(variable(from_level(depth, *level))?)?;
    }
    Ok(Term::App(replacement.symbol.copy(alloc)?, args))
}

/// The variable of the quantifier at a level.
pub fn from_level(depth: usize, level: u32) -> usize
    ensures { result ≡ index depth level }
{
    depth.saturating_sub(level as usize + 1)
}

fn variable(number: usize) -> Result<Term, NoMemory>
    ensures { IfOk result (λ there. there ≡ Term.Var number) }
{
    match u32::try_from(number) {
        Ok(number) => Ok(Term::Var(number)),
        Err(_) => Err(NoMemory),
    }
}
