//! The proofs of instances.
#![tactic(auto)]

ghost use Rattle.std.specs.Prelude.{◌≡◌, ◌+◌, ◌∷◌, get_or, length, IfOk, [], Some, true, false};
ghost use Rattle.std.specs.Option.{option_copied};
ghost use Rattle.development.specs.Places.{IsGiven};
ghost use Rattle.development.specs.Proofs.{proof_at, proof_by, proof_of_instance, proof_of_leaf, proof_of_tree};
ghost use Rattle.ground_instances.specs.Instances.{clauses_in};
ghost use Rattle.ground_instances.specs.Keys.{verdict_in};
ghost use Rattle.ground_instances.specs.Lists.{instances_of};
ghost use Rattle.lp_term.specs.View.{term_of};
ghost use Rattle.plan.specs.Maps.{map_at};
ghost use Rattle.plan_typing.specs.Reasons.{justification_from};

use crate::given::{Given, further};
use crate::lookups::{hypothesis_of, justification_of};
use dk_syntax::{Formula, Literal, NoMemory, Seq};
use expansion::Thin;
use ground_instances::{Instance, Instances, instance_at};
use lp_term::Lp;
use nd_term::build::{apply, variable};
use nd_term::{Place, at_level, consume, resolve_term};
use plan::{StepMap, map_of_step};
use std::alloc::Global;
use step_clause::Justification;

/// The instance that is bound at the level, at the variables of so many literals in order.
fn in_order(alloc: Global, place: &Place<'_>, level: u32, count: usize) -> Result<Lp, NoMemory>
    ensures { IfOk result (λ t. term_of t ≡ proof_at place.now level count) }
{
    let mut left = u32::try_from(count).map_err(|_| NoMemory)?;
    let mut all = at_level(place.level, level);
    while left > 0 {
        left -= 1;
        all = apply(alloc, all, variable(left))?;
    }
    Ok(all)
}

/// Falsity from the hypothesis that a leaf names.
fn hypothesis_consumed(
    alloc: Global,
    given: &Given<'_, '_>,
    it: &StepMap,
    thin: &Thin,
    place: &Place<'_>,
) -> Result<Lp, NoMemory>
    requires { IsGiven given.now }
    ensures { IfOk result (λ t. term_of t
        ≡ proof_of_leaf given.now.problem.now given.now.trace.now given.now.plan.now place.now
        thin.now it.now true) }
{
    let base = hypothesis_of(given, it.leaf);
    match given.problem.hyps.as_slice().get(base as usize) {
        Some(named) => consume(alloc, &named.formula, thin, base, place),
        None => consume(alloc, &Formula::False, thin, base, place),
    }
}

/// Falsity from the denied conjecture.
fn conjecture_consumed(
    alloc: Global,
    given: &Given<'_, '_>,
    it: &StepMap,
    thin: &Thin,
    place: &Place<'_>,
) -> Result<Lp, NoMemory>
    requires { IsGiven given.now }
    ensures { IfOk result (λ t. term_of t
        ≡ proof_of_leaf given.now.problem.now given.now.trace.now given.now.plan.now place.now
        thin.now it.now false) }
{
    match &given.problem.conjecture {
        Some(named) => consume(alloc, &named.formula, thin, given.denied, place),
        None => consume(alloc, &Formula::False, thin, given.denied, place),
    }
}

/// Falsity from what is known of a leaf.
fn consumed(
    alloc: Global,
    given: &Given<'_, '_>,
    it: &StepMap,
    thin: &Thin,
    place: &Place<'_>,
) -> Result<Lp, NoMemory>
    requires { IsGiven given.now }
    ensures { IfOk result (λ t. term_of t
        ≡ proof_of_leaf given.now.problem.now given.now.trace.now given.now.plan.now place.now
        thin.now it.now it.now.sign) }
{
    if it.sign {
        return hypothesis_consumed(alloc, given, it, thin, place);
    }
    conjecture_consumed(alloc, given, it, thin, place)
}

fn proof_of_tree(
    alloc: Global,
    given: &Given<'_, '_>,
    it: &Instance,
    thin: &Thin,
    place: &Place<'_>,
) -> Result<Lp, NoMemory>
    requires { IsGiven given.now }
    ensures { IfOk result (λ t. term_of t
        ≡ proof_of_tree given.now.problem.now given.now.trace.now given.now.plan.now place.now
        given.now.begin (length it.now.lits) thin.now (map_at given.now.plan.now.maps it.now.step)) }
{
    match map_of_step(given.plan.maps.as_slice(), it.step) {
        Some(map) => consumed(alloc, given, map, thin, place),
        None => in_order(alloc, place, given.begin, it.lits.len()),
    }
}

/// The number of the instance that is needed at this place.
fn needed_at(it: &Instance, place: usize) -> u32
    ensures { result ≡ get_or it.now.needs place 0 }
{
    it.needs.as_slice().get(place).copied().unwrap_or(0)
}

/// The literals of the instance of that number.
fn literals_at(alloc: Global, instances: &Instances, number: u32) -> Result<Seq<Literal>, NoMemory>
    ensures { IfOk result (λ lits. lits ≡ get_or (clauses_in (instances_of instances.now)) number []) }
{
    if (number as usize) < instances.rows.len() {
        let it = instance_at(alloc, instances, number)?;
        let Instance {
            step: _,
            stage: _,
            clause: _,
            terms: _,
            lits,
            needs: _,
        } = it;
        return Ok(lits);
    }
    Ok(Seq::new(alloc))
}

/// The levels of the instances that are needed.
fn needed_levels(alloc: Global, begin: u32, first: u32, second: u32) -> Result<Seq<u32>, NoMemory>
    ensures { IfOk result (λ levels. levels ≡ (begin + first) ∷ (begin + second) ∷ []) }
{
    let mut levels = Seq::new(alloc);
    levels.push(further(begin, first as usize)?)?;
    levels.push(further(begin, second as usize)?)?;
    Ok(levels)
}

/// The proof by a justification.
fn justified(
    alloc: Global,
    given: &Given<'_, '_>,
    it: &Instance,
    j: &Justification,
    place: &Place<'_>,
) -> Result<Lp, NoMemory>
    ensures { IfOk result (λ t. term_of t
        ≡ proof_by given.now.problem.now given.now.trace.now given.now.plan.now place.now
        given.now.begin it.now (Some j.now)) }
{
    let first = needed_at(it, 0);
    let levels = needed_levels(alloc, given.begin, first, needed_at(it, 1))?;
    let mut parents = Seq::new(alloc);
    parents.push(literals_at(alloc, &given.plan.instances, first)?)?;
    resolve_term(alloc, j, &it.lits, &parents, &levels, place)
}

/// The proof by the step's verdict, or that of the one instance that is needed.
fn proof_by(
    alloc: Global,
    given: &Given<'_, '_>,
    it: &Instance,
    place: &Place<'_>,
) -> Result<Lp, NoMemory>
    ensures { IfOk result (λ t. term_of t
        ≡ proof_by given.now.problem.now given.now.trace.now given.now.plan.now place.now
        given.now.begin it.now (justification_from
        (verdict_in given.now.plan.now.verdicts.list it.now.step) it.now.stage it.now.clause)) }
{
    let verdicts = given.plan.verdicts.list.as_slice();
    match justification_of(verdicts, it.step, it.stage, it.clause) {
        Some(j) => justified(alloc, given, it, j, place),
        None => {
            let level = further(given.begin, needed_at(it, 0) as usize)?;
            in_order(alloc, place, level, it.lits.len())
        }
    }
}

/// The proof of falsity of an instance at a place where the variables of its literals are those bound last.
pub fn proof_of_instance(
    alloc: Global,
    given: &Given<'_, '_>,
    it: &Instance,
    thin: Option<&Thin>,
    place: &Place<'_>,
) -> Result<Lp, NoMemory>
    requires { IsGiven given.now }
    ensures { IfOk result (λ t. term_of t
        ≡ proof_of_instance given.now.problem.now given.now.trace.now given.now.plan.now place.now
        given.now.begin it.now (option_copied thin.entry)) }
{
    match thin {
        Some(thin) => proof_of_tree(alloc, given, it, thin, place),
        None => proof_by(alloc, given, it, place),
    }
}
