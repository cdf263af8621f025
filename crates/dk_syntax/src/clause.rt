//! Literals and clauses.
ghost use Rattle.std.specs.Prelude.{◌≡◌, IfOk};

use crate::memory::NoMemory;
use crate::seq::Seq;
use crate::symbol::SymKey;
use crate::term::{Term, copy_terms};
use std::alloc::Global;

/// An atom or its negation.
#[derive(Debug, Drop)]
pub struct Literal {
    pub positive: bool,
    pub pred: SymKey,
    pub args: Seq<Term>,
}

impl Literal {
    pub fn copy(&self, alloc: Global) -> Result<Literal, NoMemory>
        ensures { IfOk result (λ literal. literal ≡ self.now) }
    {
        Ok(Literal {
            positive: self.positive,
            pred: self.pred.copy(alloc)?,
            args: copy_terms(alloc, self.args.as_slice())?,
        })
    }
}

/// A clause: its literals, and the number of its variables, which are numbered from 0.
#[derive(Debug, Drop)]
pub struct Clause {
    pub vars: u32,
    pub lits: Seq<Literal>,
}

impl Clause {
    pub fn copy(&self, alloc: Global) -> Result<Clause, NoMemory>
        ensures { IfOk result (λ clause. clause ≡ self.now) }
    {
        Ok(Clause {
            vars: self.vars,
            lits: copy_literals(alloc, self.lits.as_slice())?,
        })
    }
}

/// Copies each literal of a list.
pub fn copy_literals(alloc: Global, literals: &[Literal]) -> Result<Seq<Literal>, NoMemory>
    ensures { IfOk result (λ all. all ≡ literals.now) }
{
    let mut all = Seq::from_vec(Vec::with_capacity(alloc, literals.len())?);
    for literal in literals {
        all.push(literal.copy(alloc)?)?;
    }
    Ok(all)
}
