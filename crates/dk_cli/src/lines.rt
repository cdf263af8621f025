//! The parts of lines that tell what is at fault.
ghost use Rattle.std.specs.Prelude.{◌≡◌, ◌++◌, IfOk, string_bytes, codes, decimal};
ghost use Rattle.extract.specs.Words.{limit_word, reason_text};
ghost use Rattle.tptp_text.specs.Printed.{printed_item_name};
ghost use Rattle.dk_cli.specs.Refusals.{in_line, item_fault_text, kind_word, step_fault_text, unsupported_word};

use crate::refusal::{ItemFault, StepFault};
use dk_syntax::{Name, NoMemory};
use extract::{limit_word, reason_text};
use itoa::Buffer;
use std::alloc::{AllocError, Global};
use step_check::{Limit, Reason};
use tptp_text::{OutsideKind, item_name_text};
use tstp_trace::Unsupported;

/// `FRONT NUMBER: WHY`.
pub fn numbered_line(
    alloc: Global,
    front: &str,
    number: u32,
    why: &str,
) -> Result<String, AllocError>
    ensures { IfOk result (λ line. string_bytes line ≡ front.now ++ decimal number ++ codes ": "
        ++ why.now) }
{
    let mut digits = Buffer::new();
    let mut line = String::from_str(alloc, front)?;
    line.push_str(digits.format(number))?;
    line.push_str(": ")?;
    line.push_str(why)?;
    Ok(line)
}

/// `FRONT NUMBER`.
pub fn counted_line(alloc: Global, front: &str, number: u64) -> Result<String, AllocError>
    ensures { IfOk result (λ line. string_bytes line ≡ front.now ++ decimal number) }
{
    let mut digits = Buffer::new();
    let mut line = String::from_str(alloc, front)?;
    line.push_str(digits.format(number))?;
    Ok(line)
}

fn kind_text(kind: OutsideKind) -> &'static str
    ensures { result.now ≡ kind_word kind }
{
    match kind {
        OutsideKind::Include => "include",
        OutsideKind::Language => "language",
        OutsideKind::Equality => "equality",
        OutsideKind::Number => "number",
        OutsideKind::Distinct => "distinct object",
        OutsideKind::Dollar => "dollar word",
    }
}

fn unsupported_text(why: Unsupported) -> &'static str
    ensures { result.now ≡ unsupported_word why }
{
    match why {
        Unsupported::Word => "word",
        Unsupported::Status => "status",
        Unsupported::NoParent => "no parent",
        Unsupported::ManyParents => "many parents",
        Unsupported::Mixed => "mixed",
    }
}

/// A front and the characters of a text, a byte each.
pub fn line_with(alloc: Global, front: &str, text: &[u8]) -> Result<String, AllocError>
    ensures { IfOk result (λ line. string_bytes line ≡ front.now ++ in_line text.now) }
{
    let mut line = String::from_str(alloc, front)?;
    for byte in text {
        line.push(char::from(*byte))?;
    }
    Ok(line)
}

fn outside_line(alloc: Global, kind: OutsideKind) -> Result<String, AllocError>
    ensures { IfOk result (λ line. string_bytes line ≡ codes "outside: " ++ kind_word kind) }
{
    let mut line = String::from_str(alloc, "outside: ")?;
    line.push_str(kind_text(kind))?;
    Ok(line)
}

fn unsupported_line(alloc: Global, why: Unsupported) -> Result<String, AllocError>
    ensures { IfOk result (λ line. string_bytes line ≡ codes "unsupported: "
        ++ unsupported_word why) }
{
    let mut line = String::from_str(alloc, "unsupported: ")?;
    line.push_str(unsupported_text(why))?;
    Ok(line)
}

fn missing_line(alloc: Global, name: &Name) -> Result<String, AllocError>
    ensures { IfOk result (λ line. string_bytes line ≡ codes "missing parent: "
        ++ in_line (printed_item_name name.now)) }
{
    let text = item_name_text(alloc, name).map_err(|_: NoMemory| AllocError)?;
    line_with(alloc, "missing parent: ", &text)
}

/// What is at fault in an item.
pub fn item_fault_line(alloc: Global, fault: &ItemFault) -> Result<String, AllocError>
    ensures { IfOk result (λ line. string_bytes line ≡ item_fault_text fault.now) }
{
    match fault {
        ItemFault::Outside(kind) => outside_line(alloc, *kind),
        ItemFault::BadRole => String::from_str(alloc, "bad role"),
        ItemFault::FreeVariable(name) => line_with(alloc, "free variable: ", name.as_bytes()),
        ItemFault::DuplicateName => String::from_str(alloc, "duplicate name"),
        ItemFault::SecondConjecture => String::from_str(alloc, "second conjecture"),
    }
}

fn wrong_line(alloc: Global, reason: &Reason) -> Result<String, AllocError>
    ensures { IfOk result (λ line. string_bytes line ≡ codes "wrong: "
        ++ in_line (reason_text reason.now)) }
{
    let text = reason_text(alloc, reason).map_err(|_: NoMemory| AllocError)?;
    line_with(alloc, "wrong: ", &text)
}

fn over_line(alloc: Global, limit: Limit) -> Result<String, AllocError>
    ensures { IfOk result (λ line. string_bytes line ≡ codes "over: " ++ limit_word limit) }
{
    let mut line = String::from_str(alloc, "over: ")?;
    line.push_str(limit_word(limit))?;
    Ok(line)
}

/// What is at fault in a step.
pub fn step_fault_line(alloc: Global, fault: &StepFault) -> Result<String, AllocError>
    ensures { IfOk result (λ line. string_bytes line ≡ step_fault_text fault.now) }
{
    match fault {
        StepFault::Outside(kind) => outside_line(alloc, *kind),
        StepFault::DuplicateName => String::from_str(alloc, "duplicate name"),
        StepFault::Unsupported(why) => unsupported_line(alloc, *why),
        StepFault::MissingParent(name) => missing_line(alloc, name),
        StepFault::Cycle => String::from_str(alloc, "cycle"),
        StepFault::Wrong(reason) => wrong_line(alloc, reason),
        StepFault::Over(limit) => over_line(alloc, *limit),
    }
}
