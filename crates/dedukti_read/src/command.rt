//! Reading one command.
#![tactic(auto, using(crate::proofs::TextSteps::text_steps), unfolding(crate::specs::ReadingText::turn_at, crate::specs::ReadingText::read_from))]

ghost use Rattle.std.specs.Prelude.{◌≡◌, IsTrue, ◌↔◌, length, IfOk};
ghost use Rattle.dedukti_read.specs.declared.state.Mode.TheVariants as m;
ghost use Rattle.dedukti_read.specs.Machine.{command_of, outside};
ghost use Rattle.dedukti_read.specs.ReadingText.{Answers, GivesRest, is_too_deep, kept_at, read_from, turn_at};
ghost use Rattle.dedukti_read.specs.Scan.{seen};

use crate::fault::DkFault;
use crate::matter::skip_matter;
use crate::scan::token_of;
use crate::scope::Scope;
use crate::stack::Stack;
use crate::state::{Mode, Place, Said, Turn};
use crate::step::step;
use dk_syntax::{NoMemory, Seq};
use lp_term::Command;
use std::alloc::Global;

fn outside(alloc: Global) -> Place
    ensures { result ≡ outside }
{
    Place {
        frames: Stack::new(alloc),
        scope: Scope::new(alloc),
        patterns: Seq::new(alloc),
    }
}

/// What the token in front leads to, and the bytes behind it.
fn turn<'a>(
    alloc: Global,
    place: &mut Place,
    mode: Mode,
    here: &'a [u8],
) -> Result<Option<(Turn, &'a [u8])>, NoMemory>
    ensures { GivesRest (λ rest. rest.now) result place.new (turn_at mode place.old here.now) }
{
    match token_of(alloc, here)? {
        None => Ok(None),
        Some((token, rest)) => match step(alloc, place, mode, token)? {
            None => Ok(None),
            Some(turn) => Ok(Some((turn, rest))),
        },
    }
}

/// The command that begins with the next token, and what stands behind its `;`.
pub(crate) fn read_command(alloc: Global, bytes: &[u8]) -> Result<Option<(Said, &[u8])>, NoMemory>
    ensures { IfOk result (λ o. seen (λ x. (x.0, x.1.now)) o
        ≡ read_from (length bytes.now) m.Command outside bytes.now) }
{
    let mut mode = Mode::Command;
    let mut place = outside(alloc);
    let mut rest = bytes;
    for _ in 0..bytes.len() {
        let here = skip_matter(rest);
        match turn(alloc, &mut place, mode, here)? {
            None => return Ok(None),
            Some((turn, after)) => match turn {
                Turn::End(said) => return Ok(Some((said, after))),
                Turn::On(next) => {
                    mode = next;
                    rest = after;
                }
            },
        }
    }
    Ok(None)
}

fn is_too_deep(said: &Said) -> bool
    ensures { result ≡ is_too_deep (command_of said.now) }
{
    match said {
        Said::Constant(_, of) => of.is_deep(),
        Said::Symbol(_, of) => of.is_deep(),
        Said::Define(_, of, body) => of.is_deep() || body.is_deep(),
        Said::Rule(left, right) => left.is_deep() || right.is_deep(),
    }
}

fn command(said: Said) -> Command
    ensures { result ≡ command_of said }
{
    match said {
        Said::Constant(name, of) => Command::Constant(name, of.term()),
        Said::Symbol(name, of) => Command::Symbol(name, of.term()),
        Said::Define(name, of, body) => Command::Define(name, of.term(), body.term()),
        Said::Rule(left, right) => Command::Rule(left.term(), right.term()),
    }
}

/// The command, unless a term of it is nested too deep.
pub(crate) fn kept(at: u64, said: Said) -> Result<Command, DkFault>
    ensures { Answers (λ x. x) result (kept_at at (command_of said)) }
{
    if is_too_deep(&said) {
        return Err(DkFault::TooDeep { at });
    }
    Ok(command(said))
}
