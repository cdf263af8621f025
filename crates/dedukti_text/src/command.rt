//! Commands and developments.
ghost use Rattle.std.specs.Prelude.{◌≡◌, ◌++◌, codes, IfOk, OnOk};
ghost use Rattle.std.specs.List.{flat_map};
ghost use Rattle.lp_text.specs.Levels.{bodies_over, command_over, commands_over};
ghost use Rattle.dedukti_text.specs.Patterns.{pattern_names as names_in};
ghost use Rattle.dedukti_text.specs.Print.{declaration_text, dk_command_text, dk_text_of, names_text};

use crate::bytes::put;
use crate::patterns::pattern_names;
use crate::piece::put_term;
use dk_syntax::NoMemory;
use lp_term::{Command, Dev, Ident, Lp};
use std::alloc::Global;

/// `NAME : TYPE`.
fn put_declaration(alloc: Global, out: &mut Vec<u8>, name: &Ident, of: &Lp) -> Result<(), NoMemory>
    ensures text { OnOk result (out.new.items ≡ out.old.items ++ declaration_text name.now of.now) }
    ensures over { OnOk result (bodies_over of.now 0 ≡ 0) }
{
    put(out, name.as_bytes())?;
    put(out, b" : ")?;
    put_term(alloc, out, of, 0)
}

/// Names that are not the first.
fn put_more_names(out: &mut Vec<u8>, names: &[Ident]) -> Result<(), NoMemory>
    ensures { OnOk result (out.new.items ≡ out.old.items
        ++ flat_map (λ name. codes ", " ++ name) names.now) }
{
    for name in names {
        put(out, b", ")?;
        put(out, name.as_bytes())?;
    }
    Ok(())
}

fn put_names(out: &mut Vec<u8>, names: &[Ident]) -> Result<(), NoMemory>
    ensures { OnOk result (out.new.items ≡ out.old.items ++ names_text names.now) }
{
    put(out, b"[")?;
    if let Some((first, more)) = names.split_first() {
        put(out, first.as_bytes())?;
        put_more_names(out, more)?;
    }
    put(out, b"] ")
}

fn put_rule(alloc: Global, out: &mut Vec<u8>, left: &Lp, right: &Lp) -> Result<(), NoMemory>
    ensures text { OnOk result (out.new.items ≡ out.old.items
        ++ dk_command_text (Command.Rule left.now right.now)) }
    ensures over { OnOk result (command_over (Command.Rule left.now right.now) ≡ 0) }
{
    let names = pattern_names(alloc, left)?;
    put_names(out, names.as_slice())?;
    put_term(alloc, out, left, 0)?;
    put(out, b" --> ")?;
    put_term(alloc, out, right, 0)?;
    put(out, b".\n")
}

fn put_command(alloc: Global, out: &mut Vec<u8>, command: &Command) -> Result<(), NoMemory>
    ensures text { OnOk result (out.new.items ≡ out.old.items ++ dk_command_text command.now) }
    ensures over { OnOk result (command_over command.now ≡ 0) }
{
    match command {
        Command::Constant(name, of) => {
            put_declaration(alloc, out, name, of)?;
            put(out, b".\n")
        }
        Command::Symbol(name, of) => {
            put(out, b"def ")?;
            put_declaration(alloc, out, name, of)?;
            put(out, b".\n")
        }
        Command::Define(name, of, body) => {
            put(out, b"def ")?;
            put_declaration(alloc, out, name, of)?;
            put(out, b" := ")?;
            put_term(alloc, out, body, 0)?;
            put(out, b".\n")
        }
        Command::Rule(left, right) => put_rule(alloc, out, left, right),
    }
}

/// The text of a development. Where it is given, fewer than 2 ^ 32 binders stand around each body.
pub fn print_dk(alloc: Global, d: &Dev) -> Result<Vec<u8>, NoMemory>
    ensures text { IfOk result (λ text. text.items ≡ dk_text_of d.now) }
    ensures over { OnOk result (commands_over d.now.commands ≡ 0) }
{
    let mut out = Vec::new(alloc);
    for command in d.commands.as_slice() {
        put_command(alloc, &mut out, command)?;
    }
    Ok(out)
}
