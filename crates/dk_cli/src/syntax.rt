//! The two syntaxes of developments.
ghost use Rattle.std.specs.Prelude.{◌≡◌, IfOk, OnOk};
ghost use Rattle.lp_text.specs.Levels.{commands_over};
ghost use Rattle.dk_cli.specs.Checking.{IsDevelopmentIn, dedukti_refusal, development_refusal};
ghost use Rattle.dk_cli.specs.Stages.{Answered, told_by};
ghost use Rattle.dk_cli.specs.Syntaxes.{syntax_word, text_in};

use crate::refusal::{File, Refusal};
use dedukti_read::{DkFault, read_dk};
use dedukti_text::print_dk;
use dk_syntax::NoMemory;
use lp_read::{LpFault, read_dev};
use lp_term::Dev;
use lp_text::print;
use std::alloc::Global;

/// How a development is written: after Lambdapi, or after Dedukti.
#[derive(Debug, Clone, Copy)]
pub enum Syntax {
    Lambdapi,
    Dedukti,
}

impl Syntax {
    pub fn word(self) -> &'static str
        ensures { result.now ≡ syntax_word self }
    {
        match self {
            Syntax::Lambdapi => "Lambdapi",
            Syntax::Dedukti => "Dedukti",
        }
    }

    /// The text of a development. Where it is given, fewer than 2 ^ 32 binders stand around each body.
    pub fn print(self, alloc: Global, development: &Dev) -> Result<Vec<u8>, NoMemory>
        ensures text { IfOk result (λ text. text.items ≡ text_in self development.now) }
        ensures over { OnOk result (commands_over development.now.commands ≡ 0) }
    {
        match self {
            Syntax::Lambdapi => print(alloc, development),
            Syntax::Dedukti => print_dk(alloc, development),
        }
    }

    /// The development that bytes are read as, or the first fault.
    pub fn read(self, alloc: Global, bytes: &[u8]) -> Result<Dev, Refusal>
        ensures { Answered (IsDevelopmentIn self bytes.now) result }
    {
        match self {
            Syntax::Lambdapi => told_lambdapi(read_dev(alloc, bytes)),
            Syntax::Dedukti => told_dedukti(read_dk(alloc, bytes)),
        }
    }
}

fn told_lambdapi(found: Result<Dev, LpFault>) -> Result<Dev, Refusal>
    ensures { result ≡ told_by development_refusal found }
{
    match found {
        Ok(development) => Ok(development),
        Err(LpFault::NotLp { at }) => Err(Refusal::NotDevelopment {
            syntax: Syntax::Lambdapi,
            at,
        }),
        Err(LpFault::TooDeep { at }) => Err(Refusal::TooDeep {
            file: File::Development,
            at,
        }),
        Err(LpFault::Memory) => Err(Refusal::Memory),
    }
}

fn told_dedukti(found: Result<Dev, DkFault>) -> Result<Dev, Refusal>
    ensures { result ≡ told_by dedukti_refusal found }
{
    match found {
        Ok(development) => Ok(development),
        Err(DkFault::NotDk { at }) => Err(Refusal::NotDevelopment {
            syntax: Syntax::Dedukti,
            at,
        }),
        Err(DkFault::TooDeep { at }) => Err(Refusal::TooDeep {
            file: File::Development,
            at,
        }),
        Err(DkFault::Memory) => Err(Refusal::Memory),
    }
}
