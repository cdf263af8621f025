//! The problem and the trace that the bytes of their files are.
ghost use Rattle.std.specs.Prelude.{◌≡◌, IfOk};
ghost use Rattle.tstp_trace.specs.Names.{AreDistinct};
ghost use Rattle.tstp_trace.specs.Traces.{HaveFitParents, names_of};
ghost use Rattle.dk_cli.specs.Derivations.{IsProblemIn, IsText, IsTraceIn, problem_refusal, text_refusal, trace_refusal};
ghost use Rattle.dk_cli.specs.Stages.{Answered, told_by};

use crate::refusal::{File, ItemFault, Refusal, StepFault};
use dk_syntax::{Problem, Seq};
use std::alloc::Global;
use tptp_text::{Item, TptpFault, read_items};
use tstp_trace::{ProblemFault, Trace, TraceFault, problem_from, trace_from};

fn told_text(file: File, found: Result<Seq<Item>, TptpFault>) -> Result<Seq<Item>, Refusal>
    ensures { result ≡ told_by (text_refusal file) found }
{
    match found {
        Ok(items) => Ok(items),
        Err(TptpFault::NotTptp { at }) => Err(Refusal::NotTptp { file, at }),
        Err(TptpFault::TooDeep { at }) => Err(Refusal::TooDeep { file, at }),
        Err(TptpFault::TooMany { .. }) => Err(Refusal::TooManyItems(file)),
        Err(TptpFault::Memory) => Err(Refusal::Memory),
    }
}

// the bytes are dropped as soon as the items are read
fn items_in(alloc: Global, bytes: Vec<u8>, file: File) -> Result<Seq<Item>, Refusal>
    ensures { Answered (IsText file bytes.items) result }
{
    told_text(file, read_items(alloc, &bytes))
}

fn problem_told(fault: ProblemFault) -> Refusal
    ensures { result ≡ problem_refusal fault }
{
    match fault {
        ProblemFault::Outside { item, kind } => Refusal::Item {
            item,
            fault: ItemFault::Outside(kind),
        },
        ProblemFault::BadRole { item } => Refusal::Item {
            item,
            fault: ItemFault::BadRole,
        },
        ProblemFault::FreeVariable { item, name } => Refusal::Item {
            item,
            fault: ItemFault::FreeVariable(name),
        },
        ProblemFault::DuplicateName { item } => Refusal::Item {
            item,
            fault: ItemFault::DuplicateName,
        },
        ProblemFault::TwoConjectures { item } => Refusal::Item {
            item,
            fault: ItemFault::SecondConjecture,
        },
        ProblemFault::Memory => Refusal::Memory,
    }
}

fn trace_told(fault: TraceFault) -> Refusal
    ensures { result ≡ trace_refusal fault }
{
    match fault {
        TraceFault::Outside { step, kind } => Refusal::Step {
            step,
            fault: StepFault::Outside(kind),
        },
        TraceFault::DuplicateName { step } => Refusal::Step {
            step,
            fault: StepFault::DuplicateName,
        },
        TraceFault::Unsupported { step, kind } => Refusal::Step {
            step,
            fault: StepFault::Unsupported(kind),
        },
        TraceFault::Memory => Refusal::Memory,
    }
}

fn told_problem(found: Result<Problem, ProblemFault>) -> Result<Problem, Refusal>
    ensures { result ≡ told_by problem_refusal found }
{
    match found {
        Ok(problem) => Ok(problem),
        Err(fault) => Err(problem_told(fault)),
    }
}

fn told_trace(found: Result<Trace, TraceFault>) -> Result<Trace, Refusal>
    ensures { result ≡ told_by trace_refusal found }
{
    match found {
        Ok(trace) => Ok(trace),
        Err(fault) => Err(trace_told(fault)),
    }
}

/// The problem that the bytes of its file are.
pub fn problem_in(alloc: Global, bytes: Vec<u8>) -> Result<Problem, Refusal>
    ensures { Answered (IsProblemIn bytes.items) result }
{
    let items = items_in(alloc, bytes, File::Problem)?;
    told_problem(problem_from(alloc, items))
}

/// The trace that the bytes of its file are.
pub fn trace_in(alloc: Global, bytes: Vec<u8>) -> Result<Trace, Refusal>
    ensures answer { Answered (IsTraceIn bytes.items) result }
    ensures names { IfOk result (λ trace. AreDistinct (names_of trace)) }
    ensures parents { IfOk result (λ trace. HaveFitParents trace.steps) }
{
    let items = items_in(alloc, bytes, File::Trace)?;
    told_trace(trace_from(alloc, items))
}
