//! Steps and their parents by number. Steps count from 1.
ghost use Rattle.std.specs.Prelude.{◌≡◌, ◌+◌, IfOk, MatchOption, None, Some};
ghost use Rattle.derivation_graph.specs.Graphs.{parents_in};
ghost use Rattle.step_check.specs.Steps.{step_in};

use dk_syntax::{NoMemory, Seq};
use tstp_trace::Step;

/// The number of the step at a place.
pub fn number_at(place: usize) -> Result<u32, NoMemory>
    ensures { IfOk result (λ number. number ≡ 1 + place) }
{
    match u32::try_from(place) {
        Ok(before) if before < u32::MAX => Ok(before + 1),
        _ => Err(NoMemory),
    }
}

/// The step of that number.
pub fn step_at(steps: &[Step], number: u32) -> Option<&Step>
    ensures { MatchOption result (step_in steps.entry.now number ≡ None)
        (λ step. step_in steps.entry.now number ≡ Some step.now) }
{
    if number == 0 {
        return None;
    }
    steps.get(number as usize - 1)
}

/// The numbers of the parents of the step of that number.
pub fn parents_at(rows: &[Seq<u32>], number: u32) -> &[u32]
    ensures { result.now ≡ parents_in rows.entry.now number }
{
    if number == 0 {
        return &[];
    }
    match rows.get(number as usize - 1) {
        Some(row) => row.as_slice(),
        None => &[],
    }
}
