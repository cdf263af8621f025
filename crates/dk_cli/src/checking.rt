//! Whether a file is a development that the type checker accepts.
ghost use Rattle.std.specs.Prelude.{◌≡◌, IfOk};
ghost use Rattle.dk_cli.specs.Checking.{IsChecked, IsCheckedIn, IsDevelopmentIn, IsTyping, check_refusal, typed_text as typed_bytes};
ghost use Rattle.dk_cli.specs.Stages.{Answered, told_by};
ghost use Rattle.dk_cli.specs.Steps.{answer_view};

use crate::refusal::{Refusal, TypeFault};
use crate::syntax::Syntax;
use dk_syntax::NoMemory;
use lp_kernel::{CheckFault, Typed, check};
use lp_term::Dev;
use std::alloc::Global;

/// The development that the bytes of a file are read as. They are dropped as soon as it is read.
fn development_in(alloc: Global, syntax: Syntax, bytes: Vec<u8>) -> Result<Dev, Refusal>
    ensures { Answered (IsDevelopmentIn syntax bytes.items) result }
{
    syntax.read(alloc, &bytes)
}

fn check_told(fault: CheckFault) -> Refusal
    ensures { result ≡ check_refusal fault }
{
    match fault {
        CheckFault::BadPrelude { command } => Refusal::NotTyped(TypeFault::BadPrelude { command }),
        CheckFault::BadSymbol { command } => Refusal::NotTyped(TypeFault::BadSymbol { command }),
        CheckFault::BadGoal { command } => Refusal::NotTyped(TypeFault::BadGoal { command }),
        CheckFault::UnknownName { node, name } => {
            Refusal::NotTyped(TypeFault::UnknownName { node, name })
        }
        CheckFault::OutOfFragment { node } => Refusal::NotTyped(TypeFault::OutOfFragment { node }),
        CheckFault::IllTyped {
            node,
            want,
            found,
            level,
        } => Refusal::NotTyped(TypeFault::IllTyped {
            node,
            want,
            found,
            level,
        }),
        CheckFault::Memory => Refusal::Memory,
    }
}

fn told_check(found: Result<Typed, CheckFault>) -> Result<Typed, Refusal>
    ensures { result ≡ told_by check_refusal found }
{
    match found {
        Ok(typed) => Ok(typed),
        Err(fault) => Err(check_told(fault)),
    }
}

/// That a development is accepted, or its first failure.
fn typing(alloc: Global, development: &Dev) -> Result<Typed, Refusal>
    ensures { Answered (IsTyping development.now) result }
{
    told_check(check(alloc, development))
}

fn typed_text(alloc: Global) -> Result<Vec<u8>, NoMemory>
    ensures { IfOk result (λ text. text.items ≡ typed_bytes) }
{
    Ok(Vec::from_slice(alloc, b"typed\n")?)
}

/// `typed` and a newline, where the development is accepted.
fn checked(alloc: Global, development: &Dev) -> Result<Vec<u8>, Refusal>
    ensures { Answered (IsChecked development.now) (answer_view result) }
{
    let Typed = typing(alloc, development)?;
    let text = typed_text(alloc)?;
    Ok(text)
}

/// The same of the development that the bytes of a file are read as.
pub fn checked_in(alloc: Global, syntax: Syntax, bytes: Vec<u8>) -> Result<Vec<u8>, Refusal>
    ensures { Answered (IsCheckedIn syntax bytes.items) (answer_view result) }
{
    let development = development_in(alloc, syntax, bytes)?;
    checked(alloc, &development)
}
