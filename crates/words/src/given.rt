//! What the words give to a command.
ghost use Rattle.std.specs.Prelude.{◌≡◌, IfOk, option_and_then, option_map};
ghost use Rattle.clap.specs.Words.{found_of, rows_of};
ghost use Rattle.words.specs.Parser.{app_for, given_found, picked_from, rows_read};
ghost use Rattle.words.specs.Reading.{file_in, files_of, files_in, limit_and_workers, limit_of, only_workers, sole_name, task_in, task_of, workers_of};
ghost use Rattle.words.specs.Views.{files_view, picked_view, task_view, texts};

use crate::number::{number_or, number_to};
use crate::parser::{Takes, matches_in, parser_for};
use clap::ArgMatches;
use std::alloc::{AllocError, Global};

const DEFAULT_LIMIT: u32 = 1_000_000;

const MOST_LIMIT: u32 = 40_000_000;

const DEFAULT_WORKERS: u32 = 4;

const MOST_WORKERS: u32 = 64;

const MOST_NUMBER: u32 = 500;

/// The texts that clap found.
#[derive(Clone, Copy)]
pub struct Picked<'a> {
    pub first: Option<&'a str>,
    pub second: Option<&'a str>,
    pub limit: Option<&'a str>,
    pub workers: Option<&'a str>,
}

/// A problem, a trace, and two numbers.
#[derive(Clone, Copy)]
pub struct Files<'a> {
    pub problem: &'a str,
    pub trace: &'a str,
    pub limit: u32,
    pub workers: u32,
}

/// A number of workers, and what `generate` makes files for.
#[derive(Clone, Copy)]
pub struct Task {
    pub number: u32,
    pub workers: u32,
}

fn picked_of<'a>(matches: &ArgMatches<'a>) -> Picked<'a>
    ensures { picked_view result ≡ picked_from (rows_of (found_of matches.now)) }
{
    let first = matches.get_str("FIRST");
    let second = matches.get_str("SECOND");
    let limit = matches.get_str("limit");
    let workers = matches.get_str("workers");
    Picked {
        first,
        second,
        limit,
        workers,
    }
}

fn picked_in<'a>(matches: Option<ArgMatches<'a>>) -> Option<Picked<'a>>
    ensures { option_map picked_view result
        ≡ option_map picked_from (option_map (λ m. rows_of (found_of m)) matches.entry) }
{
    match matches {
        Some(matches) => Some(picked_of(&matches)),
        None => None,
    }
}

fn found_in<'a>(
    alloc: Global,
    takes: Takes,
    words: &'a [String],
) -> Result<Option<Picked<'a>>, AllocError>
    ensures { IfOk result (λ found. option_map picked_view found
        ≡ option_map picked_from (rows_read (app_for takes.second takes.limit takes.workers) (texts words.entry.now))) }
{
    let parser = parser_for(alloc, takes)?;
    let matches = matches_in(parser, words)?;
    Ok(picked_in(matches))
}

fn files_of<'a>(found: Picked<'a>) -> Option<Files<'a>>
    ensures { option_map files_view result ≡ files_of (given_found (picked_view found.entry)) }
{
    let limit = number_or(DEFAULT_LIMIT, MOST_LIMIT, found.limit)?;
    let workers = number_or(DEFAULT_WORKERS, MOST_WORKERS, found.workers)?;
    match (found.first, found.second) {
        (Some(problem), Some(trace)) => Some(Files {
            problem,
            trace,
            limit,
            workers,
        }),
        _ => None,
    }
}

fn sole_name<'a>(found: Picked<'a>) -> Option<&'a str>
    ensures { option_map (λ t. t.now) result ≡ sole_name (given_found (picked_view found.entry)).names }
{
    match (found.first, found.second) {
        (Some(name), None) => Some(name),
        _ => None,
    }
}

fn task_of(found: Picked<'_>) -> Option<Task>
    ensures { option_map task_view result ≡ task_of (given_found (picked_view found.entry)) }
{
    let workers = number_or(DEFAULT_WORKERS, MOST_WORKERS, found.workers)?;
    let number = number_to(MOST_NUMBER, sole_name(found)?)?;
    Some(Task { number, workers })
}

fn files_found<'a>(found: Option<Picked<'a>>) -> Option<Files<'a>>
    ensures { option_map files_view result
        ≡ option_and_then (λ p. files_of (given_found p)) (option_map picked_view found.entry) }
{
    match found {
        Some(found) => files_of(found),
        None => None,
    }
}

fn name_found<'a>(found: Option<Picked<'a>>) -> Option<&'a str>
    ensures { option_map (λ t. t.now) result
        ≡ option_and_then (λ p. sole_name (given_found p).names) (option_map picked_view found.entry) }
{
    match found {
        Some(found) => sole_name(found),
        None => None,
    }
}

fn task_found(found: Option<Picked<'_>>) -> Option<Task>
    ensures { option_map task_view result
        ≡ option_and_then (λ p. task_of (given_found p)) (option_map picked_view found.entry) }
{
    match found {
        Some(found) => task_of(found),
        None => None,
    }
}

/// What a command on a problem and a trace is given, with a limit.
pub fn limited_files<'a>(
    alloc: Global,
    words: &'a [String],
) -> Result<Option<Files<'a>>, AllocError>
    ensures { IfOk result (λ files. option_map files_view files ≡ files_in limit_and_workers (texts words.entry.now)) }
{
    let takes = Takes {
        second: true,
        limit: true,
        workers: true,
    };
    let found = found_in(alloc, takes, words)?;
    Ok(files_found(found))
}

/// What a command on a problem and a trace is given that takes no limit.
pub fn unlimited_files<'a>(
    alloc: Global,
    words: &'a [String],
) -> Result<Option<Files<'a>>, AllocError>
    ensures { IfOk result (λ files. option_map files_view files ≡ files_in only_workers (texts words.entry.now)) }
{
    let takes = Takes {
        second: true,
        limit: false,
        workers: true,
    };
    let found = found_in(alloc, takes, words)?;
    Ok(files_found(found))
}

/// The file that `check` is given.
pub fn checked_file<'a>(alloc: Global, words: &'a [String]) -> Result<Option<&'a str>, AllocError>
    ensures { IfOk result (λ file. option_map (λ t. t.now) file ≡ file_in (texts words.entry.now)) }
{
    let takes = Takes {
        second: false,
        limit: false,
        workers: false,
    };
    let found = found_in(alloc, takes, words)?;
    Ok(name_found(found))
}

/// What `generate` is given.
pub fn generated_task<'a>(alloc: Global, words: &'a [String]) -> Result<Option<Task>, AllocError>
    ensures { IfOk result (λ task. option_map task_view task ≡ task_in (texts words.entry.now)) }
{
    let takes = Takes {
        second: false,
        limit: false,
        workers: true,
    };
    let found = found_in(alloc, takes, words)?;
    Ok(task_found(found))
}
