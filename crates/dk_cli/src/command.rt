//! What the words of the command line ask for.
ghost use Rattle.std.specs.Prelude.{◌≡◌, false, IfOk, IfSome, IsOk, option_map};
ghost use Rattle.words.specs.Reading.{asks_command};
ghost use Rattle.words.specs.Views.{texts, words_view};
ghost use Rattle.dk_cli.specs.Commands.{asked_of, without_workers};
ghost use Rattle.dk_cli.specs.Views.{AsksWorkers, HasWorkers, command_view};

use crate::syntax::Syntax;
use std::alloc::{AllocError, Global};
use words::{Words, read_words};

/// The names of a problem's file and of a trace's.
#[derive(Clone, Copy)]
pub struct Names<'a> {
    pub problem: &'a str,
    pub trace: &'a str,
}

/// A command with its files or its number, or the usage text.
#[derive(Clone, Copy)]
pub enum Command<'a> {
    Convert {
        syntax: Syntax,
        names: Names<'a>,
        limit: u64,
        workers: u32,
    },
    Steps {
        names: Names<'a>,
        workers: u32,
    },
    Extract(Names<'a>),
    Expansion {
        names: Names<'a>,
        limit: u64,
        workers: u32,
    },
    Check {
        syntax: Syntax,
        file: &'a str,
    },
    Generate {
        number: u32,
        workers: u32,
    },
    Help,
}

fn command_asked<'a>(asked: Words<'a>) -> Command<'a>
    requires { AsksWorkers (words_view asked) }
    ensures view { command_view result ≡ without_workers (words_view asked.entry) }
    ensures workers { HasWorkers result }
{
    match asked {
        Words::Convert {
            problem,
            trace,
            limit,
            workers,
        } => Command::Convert {
            syntax: Syntax::Lambdapi,
            names: Names { problem, trace },
            limit,
            workers,
        },
        Words::Steps {
            problem,
            trace,
            workers,
        } => Command::Steps {
            names: Names { problem, trace },
            workers,
        },
        Words::Extract { problem, trace, .. } => Command::Extract(Names { problem, trace }),
        Words::Expansion {
            problem,
            trace,
            limit,
            workers,
        } => Command::Expansion {
            names: Names { problem, trace },
            limit,
            workers,
        },
        Words::Check { file } => Command::Check {
            syntax: Syntax::Lambdapi,
            file,
        },
        Words::Generate { number, workers } => Command::Generate { number, workers },
        Words::Dedukti {
            problem,
            trace,
            limit,
            workers,
        } => Command::Convert {
            syntax: Syntax::Dedukti,
            names: Names { problem, trace },
            limit,
            workers,
        },
        Words::DkCheck { file } => Command::Check {
            syntax: Syntax::Dedukti,
            file,
        },
        Words::Help => Command::Help,
    }
}

/// What the words ask for: nothing where they are none of the program's forms. It takes memory only where the first
/// word is a command's.
pub fn asked_command<'a>(
    alloc: Global,
    words: &'a [String],
) -> Result<Option<Command<'a>>, AllocError>
    ensures view { IfOk result (λ asked.
        option_map command_view asked ≡ asked_of (texts words.entry.now)) }
    ensures workers { IfOk result (λ asked. IfSome asked HasWorkers) }
    ensures settled { asks_command (texts words.entry.now) ≡ false → IsOk result }
{
    let read = read_words(alloc, words)?;
    match read {
        Some(asked) => Ok(Some(command_asked(asked))),
        None => Ok(None),
    }
}
