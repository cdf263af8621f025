//! The trace of items.
ghost use Rattle.std.specs.Prelude.{◌≡◌, ◌+◌, ◌++◌, ◌∷◌, [], ℕ, length, IfOk};
ghost use Rattle.tptp_text.specs.ProperItems.{HaveProperFormulas};
ghost use Rattle.tstp_trace.specs.Names.{AreDistinct, bytes_of, is_among, with_name};
ghost use Rattle.tstp_trace.specs.Traces.{names_of, HasProperSteps, HaveFitParents, IsStepAnswer, IsTraceAnswer};

use crate::derivations::source_of;
use crate::fault::TraceFault;
use crate::names::{add_name, next_number};
use crate::step::{Step, Trace};
use dk_syntax::Seq;
use indexmap::IndexSet;
use std::alloc::Global;
use tptp_text::{Body, Item, copy_items};

/// The step of an item.
fn step_of(
    alloc: Global,
    number: u32,
    names: &mut IndexSet<Vec<u8>>,
    item: Item,
) -> Result<Step, TraceFault>
    ensures answer { IsStepAnswer (bytes_of names.old.keys) number item result }
    ensures names { IfOk result (λ step. bytes_of names.new.keys
        ≡ with_name (bytes_of names.old.keys) item.name) }
{
    let Item {
        lang: _,
        name,
        role,
        body,
        free: _,
        source,
    } = item;
    let formula = match body {
        Body::Outside(kind) => {
            return Err(TraceFault::Outside { step: number, kind });
        }
        Body::Plain(formula) => formula,
    };
    if !add_name(alloc, names, &name)? {
        return Err(TraceFault::DuplicateName { step: number });
    }
    match source_of(alloc, number, &name, &source) {
        Ok(source) => Ok(Step {
            name,
            role,
            formula,
            source,
        }),
        Err(fault) => Err(fault),
    }
}

/// A step for each item.
fn all_steps(alloc: Global, items: Vec<Item>) -> Result<Trace, TraceFault>
    ensures { IsTraceAnswer items.items result }
{
    let mut names = IndexSet::new(alloc);
    let mut steps = Vec::new(alloc);
    let mut last = 0;
    for item in items {
        let number = next_number(last)?;
        match step_of(alloc, number, &mut names, item) {
            Ok(step) => steps.push(step)?,
            Err(fault) => return Err(fault),
        }
        last = number;
    }
    Ok(Trace {
        steps: Seq::from_vec(steps),
    })
}

/// The steps of a trace's items, whose names and formulas move into them.
pub fn trace_from(alloc: Global, items: Seq<Item>) -> Result<Trace, TraceFault>
    ensures answer { IsTraceAnswer items result }
    ensures long { IfOk result (λ trace. length trace.steps ≡ length items) }
    ensures names { IfOk result (λ trace. AreDistinct (names_of trace)) }
    ensures parents { IfOk result (λ trace. HaveFitParents trace.steps) }
    // Formulas that are read are closed and well-formed, and have no Any.
    ensures proper { IfOk result (λ trace. HaveProperFormulas items → HasProperSteps trace) }
{
    match all_steps(alloc, items.into_vec()) {
        Ok(trace) => Ok(trace),
        Err(fault) => Err(fault),
    }
}

/// The same of a copy of the items.
pub fn build_trace(alloc: Global, items: &Seq<Item>) -> Result<Trace, TraceFault>
    ensures answer { IsTraceAnswer items.now result }
    ensures long { IfOk result (λ trace. length trace.steps ≡ length items.now) }
    ensures names { IfOk result (λ trace. AreDistinct (names_of trace)) }
    ensures parents { IfOk result (λ trace. HaveFitParents trace.steps) }
    ensures proper { IfOk result (λ trace. HaveProperFormulas items.now → HasProperSteps trace) }
{
    let items = copy_items(alloc, items.as_slice())?;
    trace_from(alloc, items)
}
