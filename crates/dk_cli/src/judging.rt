//! The verdicts on the steps of a derivation.
ghost use Rattle.std.specs.Prelude.{◌<◌, IfOk};
ghost use Rattle.dk_cli.specs.Judging.{HasVerdicts};
ghost use Rattle.dk_cli.specs.Stages.{Answered};
ghost use Rattle.dk_cli.specs.StepReport.{IsReported};
ghost use Rattle.dk_cli.specs.Steps.{IsDerived, answer_view};

use crate::derivation::Derivation;
use crate::refusal::Refusal;
use dk_io::Gate;
use dk_syntax::NoMemory;
use extract::step_lines;
use std::alloc::Global;
use std::thread::Threads;
use step_check::{Verdicts, judge_all};

fn verdicts_on<R: Threads + Sync, G: Gate>(
    rt: &R,
    alloc: Global,
    derivation: &Derivation,
    workers: u32,
    gate: &G,
) -> Result<Verdicts, NoMemory>
    requires derived { IsDerived derivation.now }
    requires workers { 0 < workers }
    ensures { IfOk result (λ verdicts. HasVerdicts derivation.now verdicts.list) }
{
    let Derivation {
        problem,
        trace,
        graph,
    } = derivation;
    judge_all(rt, alloc, problem, trace, graph, workers, gate)
}

/// The lines of the verdicts on the steps.
pub fn reported<R: Threads + Sync, G: Gate>(
    rt: &R,
    alloc: Global,
    derivation: &Derivation,
    workers: u32,
    gate: &G,
) -> Result<Vec<u8>, Refusal>
    requires derived { IsDerived derivation.now }
    requires workers { 0 < workers }
    ensures { Answered (IsReported derivation.now) (answer_view result) }
{
    let verdicts = verdicts_on(rt, alloc, derivation, workers, gate)?;
    let text = step_lines(alloc, &derivation.trace, &verdicts)?;
    Ok(text)
}
