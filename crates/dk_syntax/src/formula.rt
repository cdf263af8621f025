//! Formulas.
ghost use Rattle.std.specs.Prelude.{◌≡◌, IfOk};

use crate::boxed::Boxed;
use crate::memory::NoMemory;
use crate::seq::Seq;
use crate::symbol::SymKey;
use crate::term::{Term, copy_terms};
use std::alloc::Global;

/// A formula of first-order logic. A variable is the number of quantifiers between it and its own, so
/// formulas that are equal up to bound names are equal values.
#[derive(Debug, Drop)]
pub enum Formula {
    True,
    False,
    Atom(SymKey, Seq<Term>),
    Not(Boxed<Formula>),
    And(Boxed<Formula>, Boxed<Formula>),
    Or(Boxed<Formula>, Boxed<Formula>),
    Imp(Boxed<Formula>, Boxed<Formula>),
    Iff(Boxed<Formula>, Boxed<Formula>),
    All(Boxed<Formula>),
    Ex(Boxed<Formula>),
}

impl Formula {
    #[cycle(copy_formula)]
    pub fn copy(&self, alloc: Global) -> Result<Formula, NoMemory>
        ensures { IfOk result (λ formula. formula ≡ self.now) }
    {
        match self {
            Formula::True => Ok(Formula::True),
            Formula::False => Ok(Formula::False),
            Formula::Atom(symbol, args) => {
                let symbol = symbol.copy(alloc)?;
                let args = copy_terms(alloc, args.as_slice())?;
                Ok(Formula::Atom(symbol, args))
            }
            Formula::Not(a) => Ok(Formula::Not(copy_boxed(alloc, a)?)),
            Formula::And(a, b) => {
                let a = copy_boxed(alloc, a)?;
                Ok(Formula::And(a, copy_boxed(alloc, b)?))
            }
            Formula::Or(a, b) => {
                let a = copy_boxed(alloc, a)?;
                Ok(Formula::Or(a, copy_boxed(alloc, b)?))
            }
            Formula::Imp(a, b) => {
                let a = copy_boxed(alloc, a)?;
                Ok(Formula::Imp(a, copy_boxed(alloc, b)?))
            }
            Formula::Iff(a, b) => {
                let a = copy_boxed(alloc, a)?;
                Ok(Formula::Iff(a, copy_boxed(alloc, b)?))
            }
            Formula::All(a) => Ok(Formula::All(copy_boxed(alloc, a)?)),
            Formula::Ex(a) => Ok(Formula::Ex(copy_boxed(alloc, a)?)),
        }
    }
}

#[cycle(copy_formula)]
fn copy_boxed(alloc: Global, formula: &Boxed<Formula>) -> Result<Boxed<Formula>, NoMemory>
    ensures { IfOk result (λ boxed. boxed ≡ formula.now) }
{
    Ok(Boxed::new(alloc, formula.get().copy(alloc)?)?)
}
