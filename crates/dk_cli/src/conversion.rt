//! What `convert` and `dedukti` make of a derivation: a text, or the first refusal.
ghost use Rattle.std.specs.Prelude.{◌<◌, All, OnOk};
ghost use Rattle.dk_cli.specs.Conversion.{HasName, IsDeveloped, IsWritten};
ghost use Rattle.dk_cli.specs.Planning.{IsPlanFor};
ghost use Rattle.dk_cli.specs.Stages.{Answered};
ghost use Rattle.dk_cli.specs.Steps.{IsDerived, answer_view};

use crate::derivation::Derivation;
use crate::planning::planned;
use crate::refusal::Refusal;
use crate::syntax::Syntax;
use development::development;
use dk_io::Gate;
use dk_syntax::{NoMemory, SymKey};
use lp_term::ident_of;
use plan::Plan;
use std::alloc::Global;
use std::thread::Threads;

/// What `ident_of` says of each symbol's identifier, for the proof that the text is read back.
fn names(alloc: Global, symbols: &[SymKey]) -> Result<(), NoMemory>
    ensures { OnOk result (All HasName symbols.now) }
{
    for symbol in symbols {
        let _identifier = ident_of(alloc, symbol)?;
    }
    Ok(())
}

/// The text of the development of a plan.
pub fn written(
    alloc: Global,
    syntax: Syntax,
    derivation: &Derivation,
    plan: &Plan,
) -> Result<Vec<u8>, Refusal>
    requires derived { IsDerived derivation.now }
    requires plan { IsPlanFor derivation.now plan.now }
    ensures { Answered (IsWritten syntax derivation.now plan.now) (answer_view result) }
{
    let problem = &derivation.problem;
    names(alloc, problem.symbols.as_slice())?;
    let made = development(alloc, problem, &derivation.trace, plan)?;
    let text = syntax.print(alloc, &made)?;
    Ok(text)
}

/// The text that a trace proves of a problem, with that limit on the weight, or the first refusal.
pub fn developed<R: Threads + Sync, G: Gate>(
    rt: &R,
    alloc: Global,
    syntax: Syntax,
    derivation: &Derivation,
    limit: u64,
    workers: u32,
    gate: &G,
) -> Result<Vec<u8>, Refusal>
    requires derived { IsDerived derivation.now }
    requires workers { 0 < workers }
    ensures { Answered (IsDeveloped syntax limit derivation.now) (answer_view result) }
{
    let plan = planned(rt, alloc, derivation, limit, workers, gate)?;
    written(alloc, syntax, derivation, &plan)
}
