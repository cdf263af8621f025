//! What instances refer to: hypotheses by the names of leaves, and justifications in verdicts.
#![tactic(auto)]

ghost use Rattle.std.specs.Prelude.{◌≡◌, MatchOption, None, slice_get, Some};
ghost use Rattle.development.specs.Places.{IsGiven};
ghost use Rattle.ground_instances.specs.Keys.{verdict_in};
ghost use Rattle.plan_typing.specs.Reasons.{justification_at, justification_from, justification_in, leaf_name, name_of_step, place_named};
ghost use Rattle.step_check.specs.Steps.{step_in};

use crate::given::Given;
use crate::names::place_in;
use step_chain::Chain;
use step_check::Verdict;
use step_clause::Justification;
use tstp_trace::{Step, StepSource};

fn leaf_name(source: &StepSource) -> &[u8]
    ensures { result.now ≡ leaf_name source.now }
{
    match source {
        StepSource::Leaf(name) => name.as_bytes(),
        StepSource::Derived { .. } => &[],
    }
}

fn step_at(steps: &[Step], number: u32) -> Option<&Step>
    ensures { MatchOption result (step_in steps.entry.now number ≡ None)
        (λ step. step_in steps.entry.now number ≡ Some step.now) }
{
    if number == 0 {
        return None;
    }
    steps.get(number as usize - 1)
}

/// The name that the leaf of that number gives.
fn name_of_step(steps: &[Step], number: u32) -> &[u8]
    ensures { result.now ≡ name_of_step (step_in steps.now number) }
{
    match step_at(steps, number) {
        None => &[],
        Some(step) => leaf_name(&step.source),
    }
}

/// The place of the hypothesis that the leaf of that number names.
pub fn hypothesis_of(given: &Given<'_, '_>, leaf: u32) -> u32
    requires { IsGiven given.now }
    ensures { result ≡ place_named given.now.problem.now.hyps
        (name_of_step (step_in given.now.trace.now.steps leaf)) }
{
    let name = name_of_step(given.trace.steps.as_slice(), leaf);
    place_in(given.names, name)
}

/// The justification at a stage of a chain.
fn in_chain(chain: &Chain, stage: u32) -> Option<&Justification>
    ensures { MatchOption result (justification_at (Some chain.entry.now) stage ≡ None)
        (λ j. justification_at (Some chain.entry.now) stage ≡ Some j.now) }
{
    if stage == 0 {
        return chain.steps.as_slice().get(chain.mids.len());
    }
    chain.steps.as_slice().get(stage as usize - 1)
}

fn in_chains(chains: &[Chain], stage: u32, clause: u32) -> Option<&Justification>
    ensures { MatchOption result (justification_at (slice_get chains.entry.now clause) stage ≡ None)
        (λ j. justification_at (slice_get chains.entry.now clause) stage ≡ Some j.now) }
{
    match chains.get(clause as usize) {
        None => None,
        Some(chain) => in_chain(chain, stage),
    }
}

fn in_verdict(verdict: &Verdict, stage: u32, clause: u32) -> Option<&Justification>
    ensures { MatchOption result (justification_in verdict.entry.now stage clause ≡ None)
        (λ j. justification_in verdict.entry.now stage clause ≡ Some j.now) }
{
    match verdict {
        Verdict::Clausal(steps) => steps.as_slice().get(clause as usize),
        Verdict::Chained(chains) => in_chains(chains.as_slice(), stage, clause),
        Verdict::Composes(composed) => {
            if stage == 0 {
                return composed.steps.as_slice().get(clause as usize);
            }
            None
        }
        Verdict::Leaf | Verdict::Conjecture | Verdict::Structural(_) => None,
        Verdict::Wrong(_) | Verdict::Over(_) => None,
    }
}

fn verdict_at(verdicts: &[Verdict], number: u32) -> Option<&Verdict>
    ensures { MatchOption result (verdict_in verdicts.entry.now number ≡ None)
        (λ verdict. verdict_in verdicts.entry.now number ≡ Some verdict.now) }
{
    if number == 0 {
        return None;
    }
    verdicts.get(number as usize - 1)
}

/// The justification of the clause of a step, by the step's verdict.
pub fn justification_of(
    verdicts: &[Verdict],
    step: u32,
    stage: u32,
    clause: u32,
) -> Option<&Justification>
    ensures { MatchOption result
        (justification_from (verdict_in verdicts.entry.now step) stage clause ≡ None)
        (λ j. justification_from (verdict_in verdicts.entry.now step) stage clause ≡ Some j.now) }
{
    match verdict_at(verdicts, step) {
        None => None,
        Some(verdict) => in_verdict(verdict, stage, clause),
    }
}
