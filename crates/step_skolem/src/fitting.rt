//! The tests of an entry of a map.
#![tactic(auto, using(crate::proofs::SeenTerms::seen_steps))]

ghost use Rattle.std.specs.Prelude.{◌≡◌, length, map, reverse, slice_get, IfOk};
ghost use Rattle.dk_syntax.specs.Lists.{all_true};
ghost use Rattle.normal_form.specs.ClauseLists.{has_number};
ghost use Rattle.normal_form.specs.Forms.{form_of};
ghost use Rattle.step_skolem.specs.Images.{are_distinct as distinct};
ghost use Rattle.step_skolem.specs.Levels.{index};
ghost use Rattle.step_skolem.specs.Searching.{covers, covers_term, fit_of, fitting, is_covered, is_value_covered, number_in, numbers_in};

use crate::map::sum_of;
use crate::seeing::{Applied, seen_in};
use crate::walk::{Quantifier, Value, Walk, from_level, value_at};
use dk_syntax::{NoMemory, Seq, Term};
use normal_form::Nf;
use std::alloc::Global;

/// What stands for the variable of a replaced existential, with the numbers of the universals.
#[derive(Drop)]
pub struct Fit {
    pub applied: Applied,
    pub args: Seq<u32>,
}

/// What replaces an existential with that body, where it may.
pub fn fit_for(alloc: Global, walk: &Walk, a: &Nf, to: &Nf) -> Result<Option<Fit>, NoMemory>
    ensures { IfOk result (λ answer. answer ≡ fitting (reverse walk.now.kept.items)
        (reverse walk.now.values.items) (form_of a.now) (form_of to.now)) }
{
    match seen_in(alloc, 0, 0, a, to)? {
        Some(applied) => fit_from(alloc, walk, a, applied),
        None => Ok(None),
    }
}

fn fit_from(alloc: Global, walk: &Walk, a: &Nf, applied: Applied) -> Result<Option<Fit>, NoMemory>
    ensures { IfOk result (λ answer. answer ≡ fit_of (reverse walk.now.kept.items)
        (reverse walk.now.values.items) (form_of a.now) applied) }
{
    match numbers_at(alloc, walk.kept.as_slice(), applied.variables.as_slice())? {
        Some(args) => {
            if are_distinct(args.as_slice())
                && is_body_covered(walk, applied.variables.as_slice(), 1, a)?
            {
                Ok(Some(Fit { applied, args }))
            } else {
                Ok(None)
            }
        }
        None => Ok(None),
    }
}

/// The numbers of the universals to which the variables belong.
fn numbers_at(
    alloc: Global,
    kept: &[Quantifier],
    variables: &[u32],
) -> Result<Option<Seq<u32>>, NoMemory>
    ensures { IfOk result (λ answer. answer ≡ numbers_in (reverse kept.now) variables.now) }
{
    let mut numbers = Seq::from_vec(Vec::with_capacity(alloc, variables.len())?);
    for variable in variables {
        match number_at(kept, *variable) {
            Some(number) => numbers.push(number)?,
            None => return Ok(None),
        }
    }
    Ok(Some(numbers))
}

/// The number of the universal to which the variable belongs.
fn number_at(kept: &[Quantifier], variable: u32) -> Option<u32>
    ensures { result ≡ number_in (reverse kept.now) variable }
{
    let place = variable as usize;
    if place >= kept.len() {
        return None;
    }
    match kept[kept.len() - 1 - place] {
        Quantifier::Universal(number) => Some(number),
        Quantifier::Existential => None,
    }
}

fn are_distinct(numbers: &[u32]) -> bool
    ensures { result ≡ distinct numbers.now }
{
    for place in 0..numbers.len() {
        if contains(&numbers[place + 1..], numbers[place]) {
            return false;
        }
    }
    true
}

fn contains(numbers: &[u32], number: u32) -> bool
    ensures { result ≡ has_number numbers.now number }
{
    for other in numbers {
        if *other == number {
            return true;
        }
    }
    false
}

/// Whether what stands for each free variable is of these variables. So many variables are bound by the quantifiers
/// between.
fn is_body_covered(walk: &Walk, variables: &[u32], bound: u32, a: &Nf) -> Result<bool, NoMemory>
    ensures { IfOk result (λ yes. yes ≡ covers (is_covered (length walk.now.kept.items)
        (reverse walk.now.values.items) variables.now) bound (form_of a.now)) }
{
    match a {
        Nf::True | Nf::False => Ok(true),
        Nf::Lit(literal) => Ok(are_terms_covered(walk, variables, bound, literal.args.as_slice())),
        Nf::And(a, b) => Ok(
            is_body_covered(walk, variables, bound, a.get())?
                && is_body_covered(walk, variables, bound, b.get())?,
        ),
        Nf::Or(a, b) => Ok(
            is_body_covered(walk, variables, bound, a.get())?
                && is_body_covered(walk, variables, bound, b.get())?,
        ),
        Nf::All(a) => is_body_covered(walk, variables, sum_of(bound, 1)?, a.get()),
        Nf::Ex(a) => is_body_covered(walk, variables, sum_of(bound, 1)?, a.get()),
    }
}

#[cycle(is_term_covered)]
fn is_term_covered(walk: &Walk, variables: &[u32], bound: u32, term: &Term) -> bool
    ensures { result ≡ covers_term (is_covered (length walk.now.kept.items)
        (reverse walk.now.values.items) variables.now) bound term.now }
{
    match term {
        Term::Var(k) => *k < bound || is_variable_covered(walk, variables, *k - bound),
        Term::App(_, args) => are_terms_covered(walk, variables, bound, args.as_slice()),
        Term::Any => true,
    }
}

#[cycle(is_term_covered)]
fn are_terms_covered(walk: &Walk, variables: &[u32], bound: u32, terms: &[Term]) -> bool
    ensures { result ≡ all_true (map (covers_term (is_covered (length walk.now.kept.items)
        (reverse walk.now.values.items) variables.now) bound) terms.now) }
{
    for term in terms {
        if !is_term_covered(walk, variables, bound, term) {
            return false;
        }
    }
    true
}

fn is_variable_covered(walk: &Walk, variables: &[u32], k: u32) -> bool
    ensures { result ≡ is_covered (length walk.now.kept.items) (reverse walk.now.values.items)
        variables.now k }
{
    match value_at(walk.values.as_slice(), k) {
        Some(value) => is_covered_value(walk.kept.len(), variables, value),
        None => true,
    }
}

fn is_covered_value(depth: usize, variables: &[u32], value: &Value) -> bool
    ensures { result ≡ is_value_covered depth variables.now value.now }
{
    match value {
        Value::Kept(level) => contains_index(variables, depth, *level),
        Value::Replaced(replacement) => contains_indices(
            variables,
            depth,
            replacement.levels.as_slice(),
        ),
    }
}

fn contains_indices(variables: &[u32], depth: usize, levels: &[u32]) -> bool
    ensures { result ≡ all_true (map (λ level. has_number variables.now (index depth level))
        levels.now) }
{
    for level in levels {
        if !contains_index(variables, depth, *level) {
            return false;
        }
    }
    true
}

fn contains_index(variables: &[u32], depth: usize, level: u32) -> bool
    ensures { result ≡ has_number variables.now (index depth level) }
{
    let variable = from_level(depth, level);
    for other in variables {
        if *other as usize == variable {
            return true;
        }
    }
    false
}
