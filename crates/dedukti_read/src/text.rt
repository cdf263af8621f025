//! Reading a whole text.
#![tactic(auto, using(crate::proofs::TextSteps::text_steps), unfolding(crate::specs::ReadingText::one_at, crate::specs::ReadingText::commands_from))]

ghost use Rattle.std.specs.Prelude.{◌≡◌, ◌≢◌, ◌+◌, length, Result, Err};
ghost use Rattle.lp_term.specs.declared.Dev.{Dev as Development};
ghost use Rattle.dedukti_read.specs.declared.fault.DkFault.{DkFault as Fault};
ghost use Rattle.dedukti_read.specs.declared.fault.DkFault.TheVariants.{Memory};
ghost use Rattle.dedukti_read.specs.ReadingText.{Answers, as_development, commands_at, one_at};
ghost use Rattle.dedukti_read.specs.Text.{IsReadDkAnswer};

use crate::command::{kept, read_command};
use crate::fault::DkFault;
use crate::matter::skip_matter;
use dk_syntax::Seq;
use lp_term::{Command, Dev};
use std::alloc::Global;

/// The command that begins here, at that byte, and what stands behind its `;`.
fn one_command(alloc: Global, at: u64, here: &[u8]) -> Result<(Command, &[u8]), DkFault>
    ensures { Answers (λ x. (x.0, x.1.now)) result (one_at at here.now) }
{
    match read_command(alloc, here)? {
        None => Err(DkFault::NotDk { at }),
        Some((said, rest)) => {
            let command = kept(at, said)?;
            Ok((command, rest))
        }
    }
}

fn all_commands(alloc: Global, bytes: &[u8]) -> Result<Seq<Command>, DkFault>
    ensures { Answers (λ x. x) result
        (commands_at (length bytes.now) (length bytes.now + 1) bytes.now) }
{
    let mut commands = Seq::from_vec(Vec::new(alloc));
    let mut rest = bytes;
    for _ in 0..bytes.len() + 1 {
        let here = skip_matter(rest);
        if here.is_empty() {
            return Ok(commands);
        }
        let at = bytes.len().saturating_sub(here.len()) as u64;
        let (command, after) = one_command(alloc, at, here)?;
        commands.push(command)?;
        rest = after;
    }
    Err(DkFault::NotDk { at: 0 })
}

fn developed(read: Result<Seq<Command>, DkFault>) -> Result<Dev, DkFault>
    ensures { result ≡ as_development read }
{
    match read {
        Ok(commands) => Ok(Dev { commands }),
        Err(fault) => Err(fault),
    }
}

/// The development that the bytes are read as, or the first fault: where no command begins, or one with
/// a term whose side depth is above 10,000. A fault names the first byte behind the commands before it,
/// with white space and comments.
pub fn read_dk(alloc: Global, bytes: &[u8]) -> Result<Dev, DkFault>
    ensures answer { IsReadDkAnswer bytes.now result }
    // Whatever the answer of the text is, it is given, unless memory ran out.
    ensures only { (answer : Result Development Fault) → IsReadDkAnswer bytes.now answer
        → answer ≢ Err Memory → Answers (λ x. x) result answer }
{
    developed(all_commands(alloc, bytes))
}
