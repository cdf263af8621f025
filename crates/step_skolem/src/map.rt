//! Maps of Skolem images.
ghost use Rattle.std.specs.Prelude.{◌≡◌, ◌+◌, IfOk};
ghost use Rattle.step_skolem.specs.Images.{entry};

use dk_syntax::{NoMemory, Seq, SymKey};
use std::alloc::Global;

/// A replaced existential: its preorder number among the form's existentials, the symbol that stands for it, and
/// the preorder numbers, among the form's universals, of those that are the symbol's arguments.
#[derive(Debug, Drop)]
pub struct SkEntry {
    pub ex: u32,
    pub symbol: SymKey,
    pub args: Seq<u32>,
}

/// The entries in the order of their existentials, each existential once.
#[derive(Debug, Drop)]
pub struct SkMap {
    pub entries: Seq<SkEntry>,
}

impl SkMap {
    pub fn copy(&self, alloc: Global) -> Result<SkMap, NoMemory>
        ensures { IfOk result (λ map. map ≡ self.now) }
    {
        let mut entries = Seq::new(alloc);
        for one in self.entries.as_slice() {
            entries.push(copy_as(alloc, one.ex, one)?)?;
        }
        Ok(SkMap { entries })
    }
}

/// A copy of the entry under that number.
pub fn copy_as(alloc: Global, ex: u32, one: &SkEntry) -> Result<SkEntry, NoMemory>
    ensures { IfOk result (λ copy. copy ≡ entry ex one.now.symbol one.now.args) }
{
    Ok(SkEntry {
        ex,
        symbol: one.symbol.copy(alloc)?,
        args: Seq::from_vec(Vec::from_slice(alloc, one.args.as_slice())?),
    })
}

/// The sum of two numbers of quantifiers. No memory holds a form that has as many quantifiers as a number passes by
/// the range.
pub fn sum_of(a: u32, b: u32) -> Result<u32, NoMemory>
    ensures { IfOk result (λ sum. sum ≡ a + b) }
{
    a.checked_add(b).ok_or(NoMemory)
}
