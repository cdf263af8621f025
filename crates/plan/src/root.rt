//! The root of a trace.
ghost use Rattle.std.specs.Prelude.{◌≡◌, ◌↔◌, IfOk, IsTrue, map};
ghost use Rattle.derivation_graph.specs.Roots.{IsRootAnswer, MarksFalsities};
ghost use Rattle.dk_syntax.specs.declared.Formula.{Formula as Written};
ghost use Rattle.plan.specs.Plans.{barred_in, formulas_in};
ghost use Rattle.step_check.specs.Steps.{is_conjecture_leaf};

use derivation_graph::root_by_marks;
use dk_syntax::{Formula, NoMemory, Problem, Seq};
use std::alloc::Global;
use tstp_trace::{Step, StepSource, Trace};

fn is_falsity(formula: &Formula) -> bool
    ensures { IsTrue result ↔ (formula.now ≡ Formula.False) }
{
    matches!(formula, Formula::False)
}

/// Which steps have the formula `$false`: the root is looked for by this alone.
fn falsities(alloc: Global, steps: &[Step]) -> Result<Seq<bool>, NoMemory>
    ensures { IfOk result (λ marks. MarksFalsities (map (λ step. step.formula) steps.now) marks) }
{
    let mut marks = Seq::new(alloc);
    for step in steps {
        marks.push(is_falsity(&step.formula))?;
    }
    Ok(marks)
}

/// Whether a step from that source is a leaf that names the conjecture.
fn is_barred(problem: &Problem, source: &StepSource) -> bool
    ensures { result ≡ is_conjecture_leaf problem.now source.now }
{
    match (&problem.conjecture, source) {
        (Some(conjecture), StepSource::Leaf(name)) => name.same(&conjecture.name),
        _ => false,
    }
}

/// Which steps are leaves that name the conjecture.
fn bars(alloc: Global, problem: &Problem, trace: &Trace) -> Result<Seq<bool>, NoMemory>
    ensures { IfOk result (λ bars. bars ≡ barred_in problem.now trace.now) }
{
    let mut bars = Seq::new(alloc);
    for step in trace.steps.as_slice() {
        bars.push(is_barred(problem, &step.source))?;
    }
    Ok(bars)
}

/// The root of a trace, where there is one: the first step with the formula `$false` that is no leaf
/// which names the conjecture.
pub fn root_in(alloc: Global, problem: &Problem, trace: &Trace) -> Result<Option<u32>, NoMemory>
    ensures { IfOk result (λ root.
        IsRootAnswer (formulas_in trace.now) (barred_in problem.now trace.now) root) }
{
    let marks = falsities(alloc, trace.steps.as_slice())?;
    let barred = bars(alloc, problem, trace)?;
    if u32::try_from(marks.len()).is_err() {
        return Err(NoMemory);
    }
    Ok(root_by_marks(&marks, &barred))
}
