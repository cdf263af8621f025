//! What `generate` makes: a problem of the generated family and its trace, converted, read back and checked, told in one line.
ghost use Rattle.std.specs.Prelude.{◌≡◌, ◌++◌, ◌<◌, decimal, IfOk, OnOk};
ghost use Rattle.generator.specs.Files.{problem_text, trace_text};
ghost use Rattle.dk_cli.specs.Derivations.{IsDerivationIn};
ghost use Rattle.dk_cli.specs.Generation.{IsGenerated, IsSummarized, IsSummaryOf, IsSummed, summary_text};
ghost use Rattle.dk_cli.specs.Planning.{IsPlanFor};
ghost use Rattle.dk_cli.specs.Stages.{Answered};
ghost use Rattle.dk_cli.specs.Steps.{IsDerived, answer_view};

use crate::checking::checked_in;
use crate::conversion::written;
use crate::derivation::{Derivation, derivation_in};
use crate::planning::planned;
use crate::refusal::Refusal;
use crate::syntax::Syntax;
use dk_io::Gate;
use dk_syntax::NoMemory;
use generator::{Files, generate};
use itoa::Buffer;
use plan::Plan;
use std::alloc::Global;
use std::thread::Threads;

/// The limit on the weight: that of `convert` where none is given.
const MADE_LIMIT: u64 = 1_000_000;

/// The derivation of the family's member of that number.
fn made_derivation(alloc: Global, number: u32) -> Result<Derivation, Refusal>
    ensures answer { Answered (IsDerivationIn (problem_text number) (trace_text number)) result }
    ensures derived { IfOk result IsDerived }
{
    let Files { problem, trace } = generate(alloc, number)?;
    derivation_in(alloc, problem, trace)
}

/// A count behind its words.
fn put_count(out: &mut Vec<u8>, words: &[u8], count: u64) -> Result<(), NoMemory>
    ensures { OnOk result (out.new.items ≡ out.old.items ++ (words.now ++ decimal count)) }
{
    let mut digits = Buffer::new();
    out.extend_from_slice(words)?;
    out.extend_from_slice(digits.format(count).as_bytes())?;
    Ok(())
}

fn summary(
    alloc: Global,
    number: u32,
    derivation: &Derivation,
    plan: &Plan,
) -> Result<Vec<u8>, NoMemory>
    ensures { IfOk result (λ line. line.items ≡ summary_text number derivation.now plan.now) }
{
    let mut line = Vec::new(alloc);
    put_count(&mut line, b"generate ", u64::from(number))?;
    put_count(&mut line, b": ", derivation.problem.hyps.len() as u64)?;
    put_count(
        &mut line,
        b" hypotheses, ",
        derivation.trace.steps.len() as u64,
    )?;
    put_count(&mut line, b" steps, ", plan.instances.rows.len() as u64)?;
    put_count(&mut line, b" instances, ", plan.order.len() as u64)?;
    put_count(&mut line, b" eigenvariables, weight ", plan.weight)?;
    line.extend_from_slice(b", typed\n")?;
    Ok(line)
}

/// The summary, where the text of the development is read back and accepted.
fn typed_summary(
    alloc: Global,
    number: u32,
    derivation: &Derivation,
    plan: &Plan,
    text: Vec<u8>,
) -> Result<Vec<u8>, Refusal>
    ensures { Answered (IsSummaryOf number derivation.now plan.now text.items)
        (answer_view result) }
{
    let _typed = checked_in(alloc, Syntax::Lambdapi, text)?;
    let line = summary(alloc, number, derivation, plan)?;
    Ok(line)
}

fn summarized(
    alloc: Global,
    number: u32,
    derivation: &Derivation,
    plan: &Plan,
) -> Result<Vec<u8>, Refusal>
    requires derived { IsDerived derivation.now }
    requires plan { IsPlanFor derivation.now plan.now }
    ensures { Answered (IsSummarized number derivation.now plan.now) (answer_view result) }
{
    let text = written(alloc, Syntax::Lambdapi, derivation, plan)?;
    typed_summary(alloc, number, derivation, plan, text)
}

fn summed<R: Threads + Sync, G: Gate>(
    rt: &R,
    alloc: Global,
    number: u32,
    derivation: &Derivation,
    workers: u32,
    gate: &G,
) -> Result<Vec<u8>, Refusal>
    requires derived { IsDerived derivation.now }
    requires workers { 0 < workers }
    ensures { Answered (IsSummed number derivation.now) (answer_view result) }
{
    let plan = planned(rt, alloc, derivation, MADE_LIMIT, workers, gate)?;
    summarized(alloc, number, derivation, &plan)
}

/// The line of the family's member of that number, or the first refusal.
pub fn generated<R: Threads + Sync, G: Gate>(
    rt: &R,
    alloc: Global,
    number: u32,
    workers: u32,
    gate: &G,
) -> Result<Vec<u8>, Refusal>
    requires { 0 < workers }
    ensures { Answered (IsGenerated number) (answer_view result) }
{
    let derivation = made_derivation(alloc, number)?;
    summed(rt, alloc, number, &derivation, workers, gate)
}
