//! Own normal forms of steps.
ghost use Rattle.std.specs.Prelude.{◌≡◌, ℕ, None, Some, OnOk, IfOk, Contains};
ghost use Rattle.step_check.specs.Limits.{full_limit, nodes_limit};
ghost use Rattle.step_check.specs.Notes.{AreOwnsKnown, case_given, IsOwn, IsOwnOf};
ghost use Rattle.step_check.specs.Steps.{own_form, signed_form};
ghost use Rattle.step_check.specs.Tables.{AreRight, IsKnown, Keeps};

use crate::given::{Given, is_conjecture_leaf, parents_at, step_at};
use crate::notes::Own;
use crate::table::Table;
use crate::verdict::Limit;
use dk_syntax::{NoMemory, Problem};
use normal_form::{Nf, NfFault, has_exists, normal};
use std::alloc::Global;
use step_compose::full_counts;
use tstp_trace::Step;

/// The limit that the clause list of a form's full image passes. It takes no memory.
pub fn full_limit_of(form: &Nf) -> Option<Limit>
    ensures { result ≡ full_limit form.now }
{
    let counts = full_counts(form);
    if counts.clauses > 4096 {
        return Some(Limit::Clauses);
    }
    if counts.literals > 65_536 {
        return Some(Limit::Literals);
    }
    None
}

/// What is noted of a form whose number of nodes is within the limit.
fn own_of_form(form: Nf) -> Own
    requires { nodes_limit form ≡ None }
    ensures { IsOwnOf form result }
{
    let exists = has_exists(&form);
    let limit = if exists { None } else { full_limit_of(&form) };
    Own {
        form: Some(form),
        exists,
        limit,
    }
}

/// The step's own normal form, whose nodes are counted before it is built.
fn own_of_step(alloc: Global, problem: &Problem, step: &Step) -> Result<Own, NoMemory>
    ensures { IfOk result (λ own. IsOwnOf (signed_form problem.now step.now) own) }
{
    let sign = !is_conjecture_leaf(problem, &step.source);
    match normal(alloc, sign, &step.formula) {
        Ok(form) => Ok(own_of_form(form)),
        Err(NfFault::TooLarge { nodes: _ }) => Ok(Own {
            form: None,
            exists: false,
            limit: Some(Limit::NormalForm),
        }),
        Err(NfFault::Memory) => Err(NoMemory),
    }
}

fn own_at(alloc: Global, given: &Given<'_>, number: u32) -> Result<Own, NoMemory>
    ensures { IfOk result (λ own. IsOwn (case_given given.now) number own) }
{
    match step_at(given.steps, number) {
        Some(step) => own_of_step(alloc, given.problem, step),
        None => Ok(own_of_form(Nf::True)),
    }
}

/// Notes the own form of a step, unless it is known.
pub fn note_own(
    alloc: Global,
    given: &Given<'_>,
    owns: &mut Table<Own>,
    number: u32,
) -> Result<(), NoMemory>
    requires { AreRight (IsOwn (case_given given.now)) owns.old }
    ensures right { OnOk result (AreRight (IsOwn (case_given given.now)) owns.new) }
    ensures kept { OnOk result (Keeps owns.old owns.new) }
    ensures known { OnOk result (IsKnown owns.new number) }
{
    if owns.get(number).is_some() {
        return Ok(());
    }
    let own = own_at(alloc, given, number)?;
    owns.put(number, own)?;
    Ok(())
}

/// Notes the own forms of these steps.
fn note_each(
    alloc: Global,
    given: &Given<'_>,
    owns: &mut Table<Own>,
    numbers: &[u32],
) -> Result<(), NoMemory>
    requires { AreRight (IsOwn (case_given given.now)) owns.old }
    ensures right { OnOk result (AreRight (IsOwn (case_given given.now)) owns.new) }
    ensures kept { OnOk result (Keeps owns.old owns.new) }
    ensures known { OnOk result ((q : ℕ) → Contains numbers.now q → IsKnown owns.new q) }
{
    for number in numbers {
        note_own(alloc, given, owns, *number)?;
    }
    Ok(())
}

/// Notes the own forms of a step and of its parents.
pub fn note_owns(
    alloc: Global,
    given: &Given<'_>,
    owns: &mut Table<Own>,
    number: u32,
) -> Result<(), NoMemory>
    requires { AreRight (IsOwn (case_given given.now)) owns.old }
    ensures right { OnOk result (AreRight (IsOwn (case_given given.now)) owns.new) }
    ensures kept { OnOk result (Keeps owns.old owns.new) }
    ensures known { OnOk result (AreOwnsKnown (case_given given.now) owns.new number) }
{
    note_own(alloc, given, owns, number)?;
    note_each(alloc, given, owns, parents_at(given.rows, number))
}

/// The own form of a step, which is known and within the limit.
pub fn own_form_of<'n>(given: &Given<'_>, owns: &'n Table<Own>, number: u32) -> &'n Nf
    requires right { AreRight (IsOwn (case_given given.now)) owns.now }
    requires known { IsKnown owns.now number }
    requires within { nodes_limit (own_form (case_given given.now) number) ≡ None }
    ensures { result.now ≡ own_form (case_given given.now) number }
{
    match &owns.known(number).form {
        Some(form) => form,
        None => unreachable!(),
    }
}
