//! The lines of the report on steps.
ghost use Rattle.std.specs.Prelude.{◌≡◌, ◌+◌, ◌++◌, ◌<◌, ◌≤◌, length, IfOk, OnOk};
ghost use Rattle.extract.specs.StepLines.{IsLineOf, line_of, lines_of};

use crate::bytes::{put, put_item_name, put_number};
use crate::steps::number_at;
use crate::words::put_verdict;
use dk_syntax::NoMemory;
use std::alloc::Global;
use step_check::{Verdict, Verdicts};
use tstp_trace::{Step, Trace};

fn put_line(
    alloc: Global,
    out: &mut Vec<u8>,
    number: u32,
    step: &Step,
    verdict: &Verdict,
) -> Result<(), NoMemory>
    ensures { OnOk result (out.new.items ≡ out.old.items ++ line_of number step.now verdict.now) }
{
    put_number(out, u64::from(number))?;
    put(out, " ")?;
    put_item_name(alloc, out, &step.name)?;
    put(out, " ")?;
    put_verdict(alloc, out, verdict)?;
    put(out, "\n")
}

/// The line of a step, which is counted from 1, by the verdicts on all steps of its trace.
pub fn step_line(
    alloc: Global,
    trace: &Trace,
    verdicts: &Verdicts,
    step: u32,
) -> Result<Vec<u8>, NoMemory>
    requires first { 0 < step }
    requires last { step ≤ length trace.now.steps }
    requires judged { length verdicts.now.list ≡ length trace.now.steps }
    ensures { IfOk result (λ text.
        IsLineOf trace.now.steps verdicts.now.list step text.items) }
{
    let place = step as usize - 1;
    let steps = trace.steps.as_slice();
    let list = verdicts.list.as_slice();
    let mut out = Vec::new(alloc);
    put_line(alloc, &mut out, step, &steps[place], &list[place])?;
    Ok(out)
}

/// The lines of all steps of a trace in order, by the verdicts on them.
pub fn step_lines(alloc: Global, trace: &Trace, verdicts: &Verdicts) -> Result<Vec<u8>, NoMemory>
    requires { length verdicts.now.list ≡ length trace.now.steps }
    ensures { IfOk result (λ text. text.items ≡ lines_of trace.now.steps verdicts.now.list) }
{
    let list = verdicts.list.as_slice();
    let mut out = Vec::new(alloc);
    for (place, step) in trace.steps.as_slice().iter().enumerate() {
        put_line(alloc, &mut out, number_at(place)?, step, &list[place])?;
    }
    Ok(out)
}
