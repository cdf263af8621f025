//! What is given: a problem, the steps of a trace, and the numbers of each step's parents.
ghost use Rattle.std.specs.Prelude.{◌≡◌, None, Some, MatchOption};
ghost use Rattle.derivation_graph.specs.Graphs.{parents_in};
ghost use Rattle.step_check.specs.Notes.{case_given};
ghost use Rattle.step_check.specs.Steps.{step_in};
ghost use Rattle.step_check.specs.Steps as spec;

use dk_syntax::{Name, Problem, Seq};
use tstp_trace::{Step, StepSource};

#[derive(Clone, Copy)]
pub struct Given<'a> {
    pub problem: &'a Problem,
    pub steps: &'a [Step],
    pub rows: &'a [Seq<u32>],
}

/// The step of that number.
pub fn step_at(steps: &[Step], number: u32) -> Option<&Step>
    ensures { MatchOption result (step_in steps.entry.now number ≡ None)
        (λ step. step_in steps.entry.now number ≡ Some step.now) }
{
    if number == 0 {
        return None;
    }
    steps.get(number as usize - 1)
}

/// The numbers of the parents of the step of that number.
pub fn parents_at(rows: &[Seq<u32>], number: u32) -> &[u32]
    ensures { result.now ≡ parents_in rows.entry.now number }
{
    if number == 0 {
        return &[];
    }
    match rows.get(number as usize - 1) {
        Some(row) => row.as_slice(),
        None => &[],
    }
}

/// Whether the name is the conjecture's.
pub fn names_conjecture(problem: &Problem, name: &Name) -> bool
    ensures { result ≡ spec.names_conjecture problem.now name.now }
{
    match &problem.conjecture {
        Some(conjecture) => name.same(&conjecture.name),
        None => false,
    }
}

/// Whether the step is a leaf that names the conjecture.
pub fn is_conjecture_leaf(problem: &Problem, source: &StepSource) -> bool
    ensures { result ≡ spec.is_conjecture_leaf problem.now source.now }
{
    match source {
        StepSource::Leaf(name) => names_conjecture(problem, name),
        StepSource::Derived { .. } => false,
    }
}

/// Whether the step of that number is a leaf that names the conjecture.
pub fn negates_conjecture(given: &Given<'_>, number: u32) -> bool
    ensures { result ≡ spec.negates_conjecture given.now.problem.now
        (step_in given.now.steps.now number) }
{
    match step_at(given.steps, number) {
        Some(step) => is_conjecture_leaf(given.problem, &step.source),
        None => false,
    }
}

/// Whether a parent is a leaf that names the conjecture.
pub fn has_conjecture_parent(given: &Given<'_>, number: u32) -> bool
    ensures { result ≡ spec.has_conjecture_parent (case_given given.now) number }
{
    parents_at(given.rows, number)
        .iter()
        .any(|parent| negates_conjecture(given, *parent))
}
