//! Names of instances.
ghost use Rattle.std.specs.Prelude.{◌≡◌, IfOk};

use dk_syntax::{NoMemory, Seq};
use std::alloc::Global;

/// Which clause an instance is of: the step, the stage and the number of the clause.
#[derive(Clone, Copy, Debug, PartialEq, Eq, Hash)]
pub struct Place {
    pub step: u32,
    pub stage: u32,
    pub clause: u32,
}

/// An instance of a clause: the numbers of its terms.
#[derive(Debug, Drop, PartialEq, Eq, Hash)]
pub struct Named {
    pub place: Place,
    pub terms: Seq<u32>,
}

impl Named {
    pub fn copy(&self, alloc: Global) -> Result<Named, NoMemory>
        ensures { IfOk result (λ copy. copy ≡ self.now) }
    {
        Ok(Named {
            place: self.place,
            terms: Seq::from_vec(Vec::from_slice(alloc, self.terms.as_slice())?),
        })
    }
}

/// The lists that a justification takes its clauses from.
#[derive(Clone, Copy)]
pub enum Lists {
    /// Those of the parents.
    Parents,
    /// That of the stage before, after so many middle clauses, and that of the next parent.
    Stage(u32),
    /// That of the composed image.
    Image,
}
