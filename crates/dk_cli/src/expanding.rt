//! What `expansion` makes of a derivation: the report on its plan.
ghost use Rattle.std.specs.Prelude.{◌<◌};
ghost use Rattle.dk_cli.specs.Expansion.{IsExpanded};
ghost use Rattle.dk_cli.specs.Stages.{Answered};
ghost use Rattle.dk_cli.specs.Steps.{IsDerived, answer_view};

use crate::derivation::Derivation;
use crate::planning::planned;
use crate::refusal::Refusal;
use dk_io::Gate;
use extract::expansion_report;
use std::alloc::Global;
use std::thread::Threads;

/// The report, with that limit on the weight, or the first refusal.
pub fn expanded<R: Threads + Sync, G: Gate>(
    rt: &R,
    alloc: Global,
    derivation: &Derivation,
    limit: u64,
    workers: u32,
    gate: &G,
) -> Result<Vec<u8>, Refusal>
    requires derived { IsDerived derivation.now }
    requires workers { 0 < workers }
    ensures { Answered (IsExpanded limit derivation.now) (answer_view result) }
{
    let plan = planned(rt, alloc, derivation, limit, workers, gate)?;
    let text = expansion_report(alloc, &derivation.trace, &plan)?;
    Ok(text)
}
