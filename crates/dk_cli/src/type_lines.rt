//! The lines that tell what is at fault in a development.
ghost use Rattle.std.specs.Prelude.{◌≡◌, ◌++◌, IfOk, string_bytes, codes, decimal};
ghost use Rattle.dk_cli.specs.Refusals.{in_line, type_fault_text, type_text, want_text};

use crate::lines::{counted_line, line_with};
use crate::refusal::TypeFault;
use dk_syntax::NoMemory;
use lp_kernel::Want;
use lp_term::{Ident, Lp};
use lp_text::print_piece;
use std::alloc::{AllocError, Global};

/// A type in a place of that level.
fn type_line(alloc: Global, of: &Lp, level: u32) -> Result<String, AllocError>
    ensures { IfOk result (λ line. string_bytes line ≡ type_text of.now level) }
{
    let text = print_piece(alloc, of, level).map_err(|_: NoMemory| AllocError)?;
    String::from_utf8_lossy(alloc, &text)
}

fn want_line(alloc: Global, want: &Want, level: u32) -> Result<String, AllocError>
    ensures { IfOk result (λ line. string_bytes line ≡ want_text want.now level) }
{
    match want {
        Want::Exactly(of) => type_line(alloc, of, level),
        Want::Product => String::from_str(alloc, "a product"),
        Want::Sorted => String::from_str(alloc, "a type"),
    }
}

fn unknown_line(alloc: Global, node: u64, name: &Ident) -> Result<String, AllocError>
    ensures { IfOk result (λ line. string_bytes line ≡ codes "unknown name at node " ++ decimal node
        ++ codes ": " ++ in_line name.now) }
{
    let mut front = counted_line(alloc, "unknown name at node ", node)?;
    front.push_str(": ")?;
    line_with(alloc, front.as_str(), name.as_bytes())
}

fn ill_typed_line(
    alloc: Global,
    node: u64,
    want: &Want,
    found: &Lp,
    level: u32,
) -> Result<String, AllocError>
    ensures { IfOk result (λ line. string_bytes line ≡ codes "ill typed at node " ++ decimal node
        ++ codes ": expected " ++ want_text want.now level
        ++ codes ", found " ++ type_text found.now level) }
{
    let wanted = want_line(alloc, want, level)?;
    let found = type_line(alloc, found, level)?;
    let mut line = counted_line(alloc, "ill typed at node ", node)?;
    line.push_str(": expected ")?;
    line.push_str(wanted.as_str())?;
    line.push_str(", found ")?;
    line.push_str(found.as_str())?;
    Ok(line)
}

/// What is at fault in a development.
pub fn type_fault_line(alloc: Global, fault: &TypeFault) -> Result<String, AllocError>
    ensures { IfOk result (λ line. string_bytes line ≡ type_fault_text fault.now) }
{
    match fault {
        TypeFault::BadPrelude { command } => {
            counted_line(alloc, "bad prelude: command ", u64::from(*command))
        }
        TypeFault::BadSymbol { command } => {
            counted_line(alloc, "bad symbol: command ", u64::from(*command))
        }
        TypeFault::BadGoal { command } => {
            counted_line(alloc, "bad goal: command ", u64::from(*command))
        }
        TypeFault::UnknownName { node, name } => unknown_line(alloc, *node, name),
        TypeFault::OutOfFragment { node } => {
            counted_line(alloc, "out of fragment at node ", *node)
        }
        TypeFault::IllTyped {
            node,
            want,
            found,
            level,
        } => ill_typed_line(alloc, *node, want, found, *level),
    }
}
