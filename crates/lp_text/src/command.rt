//! Commands and developments.
ghost use Rattle.std.specs.Prelude.{◌≡◌, ◌++◌, IfOk, OnOk};
ghost use Rattle.lp_text.specs.Levels.{bodies_over, command_over, commands_over};
ghost use Rattle.lp_text.specs.Print.{command_text, declaration_text, term_text, text_of};

use crate::bytes::put;
use crate::piece::put_term;
use dk_syntax::NoMemory;
use lp_term::{Command, Dev, Ident, Lp};
use std::alloc::Global;

/// `symbol NAME : TYPE`.
fn put_declaration(alloc: Global, out: &mut Vec<u8>, name: &Ident, of: &Lp) -> Result<(), NoMemory>
    ensures text { OnOk result (out.new.items ≡ out.old.items ++ declaration_text name.now of.now) }
    ensures over { OnOk result (bodies_over of.now 0 ≡ 0) }
{
    put(out, b"symbol ")?;
    put(out, name.as_bytes())?;
    put(out, b" : ")?;
    put_term(alloc, out, of, 0)
}

fn put_command(alloc: Global, out: &mut Vec<u8>, command: &Command) -> Result<(), NoMemory>
    ensures text { OnOk result (out.new.items ≡ out.old.items ++ command_text command.now) }
    ensures over { OnOk result (command_over command.now ≡ 0) }
{
    match command {
        Command::Constant(name, of) => {
            put(out, b"constant ")?;
            put_declaration(alloc, out, name, of)?;
            put(out, b";\n")
        }
        Command::Symbol(name, of) => {
            put_declaration(alloc, out, name, of)?;
            put(out, b";\n")
        }
        Command::Define(name, of, body) => {
            put_declaration(alloc, out, name, of)?;
            put(out, b" \xe2\x89\x94 ")?;
            put_term(alloc, out, body, 0)?;
            put(out, b";\n")
        }
        Command::Rule(left, right) => {
            put(out, b"rule ")?;
            put_term(alloc, out, left, 0)?;
            put(out, b" \xe2\x86\xaa ")?;
            put_term(alloc, out, right, 0)?;
            put(out, b";\n")
        }
    }
}

/// The text of a development. Where it is given, fewer than 2 ^ 32 binders stand around each body.
pub fn print(alloc: Global, d: &Dev) -> Result<Vec<u8>, NoMemory>
    ensures text { IfOk result (λ text. text.items ≡ text_of d.now) }
    ensures over { OnOk result (commands_over d.now.commands ≡ 0) }
{
    let mut out = Vec::new(alloc);
    for command in d.commands.as_slice() {
        put_command(alloc, &mut out, command)?;
    }
    Ok(out)
}

/// The text of a term in a place of that level: its part of a development's text.
pub fn print_piece(alloc: Global, t: &Lp, level: u32) -> Result<Vec<u8>, NoMemory>
    ensures { IfOk result (λ text. text.items ≡ term_text t.now level) }
{
    let mut out = Vec::new(alloc);
    put_term(alloc, &mut out, t, level)?;
    Ok(out)
}
