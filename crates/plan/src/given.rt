//! What is given: the steps of a trace, the numbers of each step's parents, and the verdicts.
ghost use Rattle.std.specs.Prelude.{◌≡◌, ℕ, [], ◌∷◌, None, Some, MatchOption};
ghost use Rattle.derivation_graph.specs.Graphs.{parents_in};
ghost use Rattle.ground_instances.specs.Keys.{verdict_in};
ghost use Rattle.step_check.specs.Steps.{step_in};

use dk_syntax::Seq;
use step_check::Verdict;
use tstp_trace::Step;

#[derive(Clone, Copy)]
pub struct Given<'a> {
    pub steps: &'a [Step],
    pub rows: &'a [Seq<u32>],
    pub verdicts: &'a [Verdict],
}

/// The step of that number.
pub fn step_at(steps: &[Step], number: u32) -> Option<&Step>
    ensures { MatchOption result (step_in steps.entry.now number ≡ None)
        (λ step. step_in steps.entry.now number ≡ Some step.now) }
{
    if number == 0 {
        return None;
    }
    steps.get(number as usize - 1)
}

/// The verdict on the step of that number.
pub fn verdict_at(verdicts: &[Verdict], number: u32) -> Option<&Verdict>
    ensures { MatchOption result (verdict_in verdicts.entry.now number ≡ None)
        (λ verdict. verdict_in verdicts.entry.now number ≡ Some verdict.now) }
{
    if number == 0 {
        return None;
    }
    verdicts.get(number as usize - 1)
}

/// The numbers of the parents of the step of that number.
fn parents_at(rows: &[Seq<u32>], number: u32) -> &[u32]
    ensures { result.now ≡ parents_in rows.entry.now number }
{
    if number == 0 {
        return &[];
    }
    match rows.get(number as usize - 1) {
        Some(row) => row.as_slice(),
        None => &[],
    }
}

/// The number of the step's parent, where it has one alone.
pub fn only_parent(rows: &[Seq<u32>], number: u32) -> Option<u32>
    ensures { MatchOption result ((q : ℕ) → parents_in rows.now number ≡ q ∷ [] → ⊥)
        (λ q. parents_in rows.now number ≡ q ∷ []) }
{
    match parents_at(rows, number) {
        [parent] => Some(*parent),
        _ => None,
    }
}
