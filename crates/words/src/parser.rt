//! The command lines of clap.
ghost use Rattle.std.specs.Prelude.{◌≡◌, true, IfOk, map, string_bytes, option_map};
ghost use Rattle.clap.specs.Words.{app_of, found_of, is_simple_and_free, rows_of, with_rule};
ghost use Rattle.words.specs.Parser.{app_for, bare, name_if, name_rule, option_if, option_rule, picked_from, rows_read, with_name};
ghost use Rattle.words.specs.Views.{texts};

use clap::error::ErrorKind;
use clap::{Arg, ArgMatches, Command};
use std::alloc::{AllocError, Global};

/// What stands on a command line besides one name.
#[derive(Clone, Copy)]
pub struct Takes {
    pub second: bool,
    pub limit: bool,
    pub workers: bool,
}

fn bare_parser<'a>(alloc: Global) -> Command<'a>
    ensures { app_of result ≡ bare }
{
    Command::new(alloc, "ekskon")
        .no_binary_name(true)
        .disable_help_flag(true)
        .disable_version_flag(true)
}

fn add_name<'a>(
    alloc: Global,
    parser: Command<'a>,
    wanted: bool,
    id: &'a str,
) -> Result<Command<'a>, AllocError>
    ensures { IfOk result (λ r. app_of r ≡ name_if wanted (app_of parser.entry) id.entry.now) }
{
    if wanted {
        let argument = Arg::new(alloc, id);
        parser.arg(argument)
    } else {
        Ok(parser)
    }
}

fn add_option<'a>(
    alloc: Global,
    parser: Command<'a>,
    wanted: bool,
    id: &'a str,
) -> Result<Command<'a>, AllocError>
    ensures { IfOk result (λ r. app_of r ≡ option_if wanted (app_of parser.entry) id.entry.now) }
{
    if wanted {
        let argument = Arg::new(alloc, id).long(id);
        parser.arg(argument)
    } else {
        Ok(parser)
    }
}

/// The command line that takes this.
pub fn parser_for<'a>(alloc: Global, takes: Takes) -> Result<Command<'a>, AllocError>
    ensures { IfOk result (λ r. app_of r ≡ app_for takes.second takes.limit takes.workers) }
{
    let one_name = add_name(alloc, bare_parser(alloc), true, "FIRST")?;
    let names = add_name(alloc, one_name, takes.second, "SECOND")?;
    let limited = add_option(alloc, names, takes.limit, "limit")?;
    add_option(alloc, limited, takes.workers, "workers")
}

/// What clap finds in the words, where it takes them.
pub fn matches_in<'a>(
    parser: Command<'a>,
    words: &'a [String],
) -> Result<Option<ArgMatches<'a>>, AllocError>
    requires { is_simple_and_free (app_of parser) ≡ true }
    ensures { IfOk result (λ found. option_map (λ m. rows_of (found_of m)) found
        ≡ rows_read (app_of parser.entry) (texts words.entry.now)) }
{
    match parser.try_get_matches_from(words) {
        Ok(matches) => Ok(Some(matches)),
        Err(error) => match error.kind() {
            ErrorKind::OutOfMemory => Err(AllocError),
            _ => Ok(None),
        },
    }
}
