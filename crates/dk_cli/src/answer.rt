//! The answer to the words: a text, or the first refusal. Neither the sink nor the notes are touched.
ghost use Rattle.std.specs.Prelude.{◌≡◌, ◌<◌, [], None, true, IfOk, IfSome};
ghost use Rattle.words.specs.Reading.{asks_command};
ghost use Rattle.words.specs.Views.{texts};
ghost use Rattle.dk_cli.specs.Answer.{Answers, AnswersCommand, IsFixed, IsMemory};
ghost use Rattle.dk_cli.specs.Commands.{asked_of, check, convert, expansion, extract, files_asked, files_of, steps};
ghost use Rattle.dk_cli.specs.Steps.{AnswersDerivation, IsDerived, ReadsFile, answer_view};
ghost use Rattle.dk_cli.specs.Views.{HasWorkers, command_view, names_view, output_view};

use crate::checking::checked_in;
use crate::command::{Command, Names, asked_command};
use crate::conversion::developed;
use crate::derivation::{Derivation, derivation_in};
use crate::expanding::expanded;
use crate::extraction::extracted;
use crate::generation::generated;
use crate::judging::reported;
use crate::output::{Output, made};
use crate::syntax::Syntax;
use crate::{File, Refusal};
use dk_io::{Gate, Inputs, ReadAll, read_all};
use std::alloc::Global;
use std::thread::Threads;
use words::usage;

fn read_file<I: Inputs>(
    alloc: Global,
    inputs: &mut I,
    name: &str,
    file: File,
) -> Result<Vec<u8>, Refusal>
    ensures same { I.told inputs.new ≡ I.told inputs.old }
    ensures reads { ReadsFile (I.told inputs.old) name.now file (I.faults inputs.old)
        (I.faults inputs.new) result }
{
    match read_all(alloc, inputs, name) {
        Ok(bytes) => Ok(bytes),
        Err(ReadAll::Fault) => Err(Refusal::ReadFault(file)),
        Err(ReadAll::TooLong) => Err(Refusal::TooLong(file)),
        Err(ReadAll::Memory) => Err(Refusal::Memory),
    }
}

/// The derivation of the files of these names.
fn derivation_of<I: Inputs>(
    alloc: Global,
    inputs: &mut I,
    names: Names<'_>,
) -> Result<Derivation, Refusal>
    ensures same { I.told inputs.new ≡ I.told inputs.old }
    ensures answers { AnswersDerivation (I.told inputs.old) (names_view names.entry)
        (I.faults inputs.old) (I.faults inputs.new) result }
    ensures derived { IfOk result IsDerived }
{
    let problem = read_file(alloc, inputs, names.problem, File::Problem)?;
    let trace = read_file(alloc, inputs, names.trace, File::Trace)?;
    derivation_in(alloc, problem, trace)
}

fn convert<R: Threads + Sync, I: Inputs, G: Gate>(
    rt: &R,
    alloc: Global,
    inputs: &mut I,
    syntax: Syntax,
    names: Names<'_>,
    limit: u64,
    workers: u32,
    gate: &G,
) -> Result<Vec<u8>, Refusal>
    requires { 0 < workers }
    ensures same { I.told inputs.new ≡ I.told inputs.old }
    ensures answers { AnswersCommand (I.told inputs.old)
        (convert syntax (names_view names.entry) limit)
        (I.faults inputs.old) (I.faults inputs.new) (answer_view result) }
{
    let derivation = derivation_of(alloc, inputs, names)?;
    developed(rt, alloc, syntax, &derivation, limit, workers, gate)
}

fn steps<R: Threads + Sync, I: Inputs, G: Gate>(
    rt: &R,
    alloc: Global,
    inputs: &mut I,
    names: Names<'_>,
    workers: u32,
    gate: &G,
) -> Result<Vec<u8>, Refusal>
    requires { 0 < workers }
    ensures same { I.told inputs.new ≡ I.told inputs.old }
    ensures answers { AnswersCommand (I.told inputs.old) (steps (names_view names.entry))
        (I.faults inputs.old) (I.faults inputs.new) (answer_view result) }
{
    let derivation = derivation_of(alloc, inputs, names)?;
    reported(rt, alloc, &derivation, workers, gate)
}

fn problems<I: Inputs>(alloc: Global, inputs: &mut I, names: Names<'_>) -> Result<Vec<u8>, Refusal>
    ensures same { I.told inputs.new ≡ I.told inputs.old }
    ensures answers { AnswersCommand (I.told inputs.old) (extract (names_view names.entry))
        (I.faults inputs.old) (I.faults inputs.new) (answer_view result) }
{
    let derivation = derivation_of(alloc, inputs, names)?;
    extracted(alloc, &derivation)
}

fn expansion<R: Threads + Sync, I: Inputs, G: Gate>(
    rt: &R,
    alloc: Global,
    inputs: &mut I,
    names: Names<'_>,
    limit: u64,
    workers: u32,
    gate: &G,
) -> Result<Vec<u8>, Refusal>
    requires { 0 < workers }
    ensures same { I.told inputs.new ≡ I.told inputs.old }
    ensures answers { AnswersCommand (I.told inputs.old) (expansion (names_view names.entry) limit)
        (I.faults inputs.old) (I.faults inputs.new) (answer_view result) }
{
    let derivation = derivation_of(alloc, inputs, names)?;
    expanded(rt, alloc, &derivation, limit, workers, gate)
}

fn check<I: Inputs>(
    alloc: Global,
    inputs: &mut I,
    syntax: Syntax,
    name: &str,
) -> Result<Vec<u8>, Refusal>
    ensures same { I.told inputs.new ≡ I.told inputs.old }
    ensures answers { AnswersCommand (I.told inputs.old) (check syntax name.now)
        (I.faults inputs.old) (I.faults inputs.new) (answer_view result) }
{
    let bytes = read_file(alloc, inputs, name, File::Development)?;
    checked_in(alloc, syntax, bytes)
}

/// The answer to a command.
fn command_answer<R: Threads + Sync, I: Inputs, G: Gate>(
    rt: &R,
    alloc: Global,
    inputs: &mut I,
    command: Command<'_>,
    gate: &G,
) -> Result<Output, Refusal>
    requires { HasWorkers command }
    ensures same { I.told inputs.new ≡ I.told inputs.old }
    ensures left { files_of (command_view command.entry) ≡ []
        → (I.left inputs.new ≡ I.left inputs.old) × (I.faults inputs.new ≡ I.faults inputs.old) }
    ensures answers { AnswersCommand (I.told inputs.old) (command_view command.entry)
        (I.faults inputs.old) (I.faults inputs.new) (output_view result) }
    ensures fixed { IsFixed (command_view command.entry) (output_view result) }
{
    match command {
        Command::Convert {
            syntax,
            names,
            limit,
            workers,
        } => made(convert(rt, alloc, inputs, syntax, names, limit, workers, gate)),
        Command::Steps { names, workers } => made(steps(rt, alloc, inputs, names, workers, gate)),
        Command::Extract(names) => made(problems(alloc, inputs, names)),
        Command::Expansion {
            names,
            limit,
            workers,
        } => made(expansion(rt, alloc, inputs, names, limit, workers, gate)),
        Command::Check { syntax, file } => made(check(alloc, inputs, syntax, file)),
        Command::Generate { number, workers } => {
            made(generated(rt, alloc, number, workers, gate))
        }
        Command::Help => Ok(Output::Fixed(usage())),
    }
}

/// The answer to the words, over these inputs.
pub fn answer<R: Threads + Sync, I: Inputs, G: Gate>(
    rt: &R,
    alloc: Global,
    words: &[String],
    inputs: &mut I,
    gate: &G,
) -> Result<Output, Refusal>
    ensures same { I.told inputs.new ≡ I.told inputs.old }
    ensures left { files_asked (asked_of (texts words.now)) ≡ []
        → (I.left inputs.new ≡ I.left inputs.old) × (I.faults inputs.new ≡ I.faults inputs.old) }
    ensures answers { Answers (I.told inputs.old) (asked_of (texts words.now))
        (I.faults inputs.old) (I.faults inputs.new) (output_view result) }
    ensures fixed { IfSome (asked_of (texts words.now)) (λ command.
        IsFixed command (output_view result)) }
    ensures memory { asked_of (texts words.now) ≡ None → IsMemory (output_view result)
        → asks_command (texts words.now) ≡ true }
{
    match asked_command(alloc, words) {
        Ok(Some(command)) => command_answer(rt, alloc, inputs, command, gate),
        Ok(None) => Err(Refusal::Words),
        Err(_) => Err(Refusal::Memory),
    }
}
