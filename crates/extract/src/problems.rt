//! Each derived step as a problem.
ghost use Rattle.std.specs.Prelude.{◌≡◌, ◌+◌, ◌++◌, codes, IfOk, OnOk};
ghost use Rattle.extract.specs.StepProblems as spec;
ghost use Rattle.tptp_text.specs.Printed.{printed_item};

use crate::bytes::{put, put_item_name, put_number};
use crate::steps::{number_at, parents_at, step_at};
use derivation_graph::Graph;
use dk_syntax::{Boxed, Formula, Name, NoMemory};
use std::alloc::Global;
use tptp_text::print_item;
use tstp_trace::{Step, StepSource, Trace};

fn put_item(
    alloc: Global,
    out: &mut Vec<u8>,
    name: &Name,
    role: &str,
    formula: &Formula,
) -> Result<(), NoMemory>
    ensures { OnOk result (out.new.items ≡ out.old.items
        ++ printed_item name.now role.now formula.now) }
{
    let role = Name::new(Vec::from_slice(alloc, role.as_bytes())?);
    let text = print_item(alloc, name, &role, formula)?;
    out.extend_from_slice(&text)?;
    Ok(())
}

fn negation(alloc: Global, formula: &Formula) -> Result<Formula, NoMemory>
    ensures { IfOk result (λ negation. negation ≡ Formula.Not formula.now) }
{
    Ok(Formula::Not(Boxed::new(alloc, formula.copy(alloc)?)?))
}

/// A parent as an axiom.
fn put_axiom(alloc: Global, out: &mut Vec<u8>, cth: bool, parent: &Step) -> Result<(), NoMemory>
    ensures { OnOk result (out.new.items ≡ out.old.items
        ++ printed_item parent.now.name (codes "axiom")
        (spec.premise_of cth parent.now.formula)) }
{
    if cth {
        let negated = negation(alloc, &parent.formula)?;
        put_item(alloc, out, &parent.name, "axiom", &negated)
    } else {
        put_item(alloc, out, &parent.name, "axiom", &parent.formula)
    }
}

/// The parents with these numbers as axioms.
fn put_axioms(
    alloc: Global,
    out: &mut Vec<u8>,
    steps: &[Step],
    cth: bool,
    parents: &[u32],
) -> Result<(), NoMemory>
    ensures { OnOk result (out.new.items ≡ out.old.items
        ++ spec.axioms_text steps.now cth parents.now) }
{
    for parent in parents {
        match step_at(steps, *parent) {
            None => {}
            Some(step) => put_axiom(alloc, out, cth, step)?,
        }
    }
    Ok(())
}

fn put_heading(alloc: Global, out: &mut Vec<u8>, number: u32, name: &Name) -> Result<(), NoMemory>
    ensures { OnOk result (out.new.items ≡ out.old.items ++ spec.heading_text number name.now) }
{
    put(out, "% step ")?;
    put_number(out, u64::from(number))?;
    put(out, " ")?;
    put_item_name(alloc, out, name)
}

fn put_skolem(alloc: Global, out: &mut Vec<u8>, number: u32, step: &Step) -> Result<(), NoMemory>
    ensures { OnOk result (out.new.items ≡ out.old.items ++ spec.skolem_text number step.now) }
{
    put_heading(alloc, out, number, &step.name)?;
    put(out, ": skolem\n")
}

fn put_consequence(
    alloc: Global,
    out: &mut Vec<u8>,
    steps: &[Step],
    cth: bool,
    parents: &[u32],
    number: u32,
    step: &Step,
) -> Result<(), NoMemory>
    ensures { OnOk result (out.new.items ≡ out.old.items
        ++ spec.consequence_text steps.now cth parents.now number step.now) }
{
    put_heading(alloc, out, number, &step.name)?;
    put(out, "\n")?;
    put_axioms(alloc, out, steps, cth, parents)?;
    put_item(alloc, out, &step.name, "conjecture", &step.formula)
}

fn put_problem(
    alloc: Global,
    out: &mut Vec<u8>,
    steps: &[Step],
    parents: &[u32],
    number: u32,
    step: &Step,
) -> Result<(), NoMemory>
    ensures { OnOk result (out.new.items ≡ out.old.items
        ++ spec.text_from step.now.source steps.now parents.now number step.now) }
{
    match &step.source {
        StepSource::Leaf(_) => Ok(()),
        StepSource::Derived { cth, esa, .. } => {
            if *esa {
                put_skolem(alloc, out, number, step)
            } else {
                put_consequence(alloc, out, steps, *cth, parents, number, step)
            }
        }
    }
}

/// A derived step as a problem, which is counted from 1, by the graph of its trace: its parents as axioms and its formula
/// as the conjecture, in TPTP. Of a Skolem step there is one line, and of a leaf nothing.
pub fn problem_of(
    alloc: Global,
    trace: &Trace,
    graph: &Graph,
    step: u32,
) -> Result<Vec<u8>, NoMemory>
    ensures { IfOk result (λ text. text.items
        ≡ spec.problem_of trace.now.steps graph.now.parents step) }
{
    let steps = trace.steps.as_slice();
    let parents = parents_at(graph.parents.as_slice(), step);
    let mut out = Vec::new(alloc);
    match step_at(steps, step) {
        None => {}
        Some(found) => put_problem(alloc, &mut out, steps, parents, step, found)?,
    }
    Ok(out)
}

/// All derived steps as problems, in order, by the graph of their trace.
pub fn problems_of(alloc: Global, trace: &Trace, graph: &Graph) -> Result<Vec<u8>, NoMemory>
    ensures { IfOk result (λ text. text.items
        ≡ spec.problems_of trace.now.steps graph.now.parents) }
{
    let steps = trace.steps.as_slice();
    let rows = graph.parents.as_slice();
    let mut out = Vec::new(alloc);
    for (place, step) in steps.iter().enumerate() {
        let number = number_at(place)?;
        put_problem(
            alloc,
            &mut out,
            steps,
            parents_at(rows, number),
            number,
            step,
        )?;
    }
    Ok(out)
}
