//! What a body is built from, and levels.
ghost use Rattle.std.specs.Prelude.{◌≡◌, ◌+◌, IfOk};
ghost use Rattle.development.specs.Places.{further_in};

use dk_syntax::{NoMemory, Problem, Seq, SymKey};
use nd_term::Place;
use plan::Plan;
use std::collections::HashMap;
use tstp_trace::Trace;

/// A problem with a plan, and where the variables of the body are bound.
#[derive(Clone, Copy)]
pub struct Given<'a, 'b> {
    pub problem: &'a Problem,
    pub trace: &'a Trace,
    pub plan: &'a Plan,
    /// The Skolem symbols.
    pub symbols: &'a Seq<SymKey>,
    /// The place of the first hypothesis of each name.
    pub names: &'a HashMap<&'b [u8], u32>,
    /// The level of the denied conjecture, which is the number of hypotheses.
    pub denied: u32,
    /// The level of the first eigenvariable, and of the first instance where there is none.
    pub first: u32,
    /// The level of the first instance.
    pub begin: u32,
}

/// The level so many binders further in. A number past `u32` is want of memory.
pub fn further(level: u32, binders: usize) -> Result<u32, NoMemory>
    ensures { IfOk result (λ n. n ≡ level + binders) }
{
    let more = u32::try_from(binders).map_err(|_| NoMemory)?;
    level.checked_add(more).ok_or(NoMemory)
}

/// The place so many binders further in.
pub fn place_in<'a>(place: &Place<'a>, binders: usize) -> Result<Place<'a>, NoMemory>
    ensures { IfOk result (λ there. there ≡ further_in place.now binders) }
{
    let level = further(place.level, binders)?;
    Ok(Place { level, ..*place })
}
