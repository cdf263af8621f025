//! Symbols.
ghost use Rattle.std.specs.Prelude.{◌≡◌, ◌↔◌, IfOk, IsTrue};

use crate::memory::NoMemory;
use crate::name::Name;
use std::alloc::Global;

/// Whether a symbol makes terms or atoms.
#[derive(Clone, Copy, Debug, PartialEq, Eq, Hash)]
pub enum Kind {
    Function,
    Predicate,
}

/// A symbol: its name, its number of arguments and its kind. Symbols that differ in one of these
/// are different symbols.
#[derive(Debug, Drop, PartialEq, Eq, Hash)]
pub struct SymKey {
    pub name: Name,
    pub arity: u32,
    pub kind: Kind,
}

impl SymKey {
    pub fn copy(&self, alloc: Global) -> Result<SymKey, NoMemory>
        ensures { IfOk result (λ symbol. symbol ≡ self.now) }
    {
        Ok(SymKey {
            name: self.name.copy(alloc)?,
            arity: self.arity,
            kind: self.kind,
        })
    }

    /// Whether two symbols are one.
    pub fn same(&self, other: &SymKey) -> bool
        ensures { IsTrue result ↔ (self.now ≡ other.now) }
    {
        self.name.same(&other.name) && self.arity == other.arity && self.kind == other.kind
    }
}
