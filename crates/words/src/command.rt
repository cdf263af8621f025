//! The commands.
ghost use Rattle.std.specs.Prelude.{◌≡◌, true, false, IfOk, IsOk, option_map};
ghost use Rattle.words.specs.Reading.{asks_command, command_of, command_on, is_command, help_on};
ghost use Rattle.words.specs.Reading.{checking, checking_dedukti, converting, converting_to_dedukti, expanding, extracting, generating, stepping};
ghost use Rattle.words.specs.Views.{texts, words_view};

use crate::given::{checked_file, generated_task, limited_files, unlimited_files};
use std::alloc::{AllocError, Global};

/// What the words ask for, with the names of files as they stand in the words.
#[derive(Clone, Copy)]
pub enum Words<'a> {
    /// Write the development. The limit is on the weight of the instances.
    Convert {
        problem: &'a str,
        trace: &'a str,
        limit: u64,
        workers: u32,
    },
    /// Write the verdict on each step.
    Steps {
        problem: &'a str,
        trace: &'a str,
        workers: u32,
    },
    /// Write each derived step as a problem.
    Extract {
        problem: &'a str,
        trace: &'a str,
        workers: u32,
    },
    /// Write eigenvariables, instances, thin trees and weight.
    Expansion {
        problem: &'a str,
        trace: &'a str,
        limit: u64,
        workers: u32,
    },
    /// Check a development.
    Check {
        file: &'a str,
    },
    /// Convert and check files that are made for the number.
    Generate {
        number: u32,
        workers: u32,
    },
    /// Write the development in Dedukti's syntax. The limit is on the weight of the instances.
    Dedukti {
        problem: &'a str,
        trace: &'a str,
        limit: u64,
        workers: u32,
    },
    /// Check a development in Dedukti's syntax.
    DkCheck {
        file: &'a str,
    },
    /// Write the usage text.
    Help,
}

fn read_convert<'a>(alloc: Global, words: &'a [String]) -> Result<Option<Words<'a>>, AllocError>
    ensures { IfOk result (λ asked. option_map words_view asked ≡ converting (texts words.entry.now)) }
{
    match limited_files(alloc, words)? {
        Some(files) => Ok(Some(Words::Convert {
            problem: files.problem,
            trace: files.trace,
            limit: files.limit as u64,
            workers: files.workers,
        })),
        None => Ok(None),
    }
}

fn read_steps<'a>(alloc: Global, words: &'a [String]) -> Result<Option<Words<'a>>, AllocError>
    ensures { IfOk result (λ asked. option_map words_view asked ≡ stepping (texts words.entry.now)) }
{
    match unlimited_files(alloc, words)? {
        Some(files) => Ok(Some(Words::Steps {
            problem: files.problem,
            trace: files.trace,
            workers: files.workers,
        })),
        None => Ok(None),
    }
}

fn read_extract<'a>(alloc: Global, words: &'a [String]) -> Result<Option<Words<'a>>, AllocError>
    ensures { IfOk result (λ asked. option_map words_view asked ≡ extracting (texts words.entry.now)) }
{
    match unlimited_files(alloc, words)? {
        Some(files) => Ok(Some(Words::Extract {
            problem: files.problem,
            trace: files.trace,
            workers: files.workers,
        })),
        None => Ok(None),
    }
}

fn read_expansion<'a>(alloc: Global, words: &'a [String]) -> Result<Option<Words<'a>>, AllocError>
    ensures { IfOk result (λ asked. option_map words_view asked ≡ expanding (texts words.entry.now)) }
{
    match limited_files(alloc, words)? {
        Some(files) => Ok(Some(Words::Expansion {
            problem: files.problem,
            trace: files.trace,
            limit: files.limit as u64,
            workers: files.workers,
        })),
        None => Ok(None),
    }
}

fn read_check<'a>(alloc: Global, words: &'a [String]) -> Result<Option<Words<'a>>, AllocError>
    ensures { IfOk result (λ asked. option_map words_view asked ≡ checking (texts words.entry.now)) }
{
    match checked_file(alloc, words)? {
        Some(file) => Ok(Some(Words::Check { file })),
        None => Ok(None),
    }
}

fn read_generate<'a>(alloc: Global, words: &'a [String]) -> Result<Option<Words<'a>>, AllocError>
    ensures { IfOk result (λ asked. option_map words_view asked ≡ generating (texts words.entry.now)) }
{
    match generated_task(alloc, words)? {
        Some(task) => Ok(Some(Words::Generate {
            number: task.number,
            workers: task.workers,
        })),
        None => Ok(None),
    }
}

fn read_dedukti<'a>(alloc: Global, words: &'a [String]) -> Result<Option<Words<'a>>, AllocError>
    ensures { IfOk result (λ asked. option_map words_view asked
        ≡ converting_to_dedukti (texts words.entry.now)) }
{
    match limited_files(alloc, words)? {
        Some(files) => Ok(Some(Words::Dedukti {
            problem: files.problem,
            trace: files.trace,
            limit: files.limit as u64,
            workers: files.workers,
        })),
        None => Ok(None),
    }
}

fn read_dkcheck<'a>(alloc: Global, words: &'a [String]) -> Result<Option<Words<'a>>, AllocError>
    ensures { IfOk result (λ asked. option_map words_view asked
        ≡ checking_dedukti (texts words.entry.now)) }
{
    match checked_file(alloc, words)? {
        Some(file) => Ok(Some(Words::DkCheck { file })),
        None => Ok(None),
    }
}

fn read_command<'a>(
    alloc: Global,
    word: &str,
    words: &'a [String],
) -> Result<Option<Words<'a>>, AllocError>
    requires { is_command word.now ≡ true }
    ensures { IfOk result (λ asked. option_map words_view asked ≡ command_on word.now (texts words.entry.now)) }
{
    match word {
        "convert" => read_convert(alloc, words),
        "steps" => read_steps(alloc, words),
        "extract" => read_extract(alloc, words),
        "expansion" => read_expansion(alloc, words),
        "check" => read_check(alloc, words),
        "generate" => read_generate(alloc, words),
        "dedukti" => read_dedukti(alloc, words),
        "dkcheck" => read_dkcheck(alloc, words),
        _ => Ok(None),
    }
}

fn help_alone<'a>(words: &'a [String]) -> Option<Words<'a>>
    ensures { option_map words_view result ≡ help_on (texts words.entry.now) }
{
    match words {
        [] => Some(Words::Help),
        _ => None,
    }
}

fn read_help<'a>(word: &str, words: &'a [String]) -> Option<Words<'a>>
    requires { is_command word.now ≡ false }
    ensures { option_map words_view result ≡ command_on word.now (texts words.entry.now) }
{
    match word {
        "--help" => help_alone(words),
        _ => None,
    }
}

/// Whether a word is a command's. It takes no memory.
pub fn is_command(word: &str) -> bool
    ensures { result ≡ is_command word.now }
{
    match word {
        "convert"
        | "steps"
        | "extract"
        | "expansion"
        | "check"
        | "generate"
        | "dedukti"
        | "dkcheck" => true,
        _ => false,
    }
}

/// What the words of a command line, without the program's name, ask for: nothing where they are none of its forms.
/// Memory is taken only where the first word is a command's.
pub fn read_words<'a>(alloc: Global, words: &'a [String]) -> Result<Option<Words<'a>>, AllocError>
    ensures read { IfOk result (λ asked. option_map words_view asked ≡ command_of (texts words.entry.now)) }
    ensures settled { asks_command (texts words.entry.now) ≡ false → IsOk result }
{
    match words {
        [word, rest @ ..] => {
            if is_command(word.as_str()) {
                read_command(alloc, word.as_str(), rest)
            } else {
                Ok(read_help(word.as_str(), rest))
            }
        }
        _ => Ok(None),
    }
}
