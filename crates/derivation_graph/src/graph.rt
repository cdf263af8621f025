//! Graphs.
use dk_syntax::{Name, NoMemory, Seq};
use std::alloc::AllocFailed;

/// A step and the names of its parents.
#[derive(Debug, Drop)]
pub struct Node {
    pub name: Name,
    pub parents: Seq<Name>,
}

/// The numbers of the parents of each step, in order. Steps are numbered from 1.
#[derive(Debug, Drop)]
pub struct Graph {
    pub parents: Seq<Seq<u32>>,
}

/// Why nodes have no graph.
#[derive(Debug, Drop)]
pub enum GraphFault {
    /// No node has the name of that parent.
    MissingParent { step: u32, name: Name },
    /// The step lies on a cycle.
    Cycle { step: u32 },
    /// There was no memory.
    Memory,
}

impl From<NoMemory> for GraphFault {
    ghost use Rattle.std.specs.Prelude.{◌≡◌};
    ghost use Rattle.derivation_graph.specs.declared.graph.GraphFault.TheVariants.{Memory};

    ghost from_gives = { λ _ fault. fault ≡ Memory };

    fn from(_: NoMemory) -> GraphFault {
        GraphFault::Memory
    }
}

impl<T: Drop> From<AllocFailed<T>> for GraphFault {
    ghost use Rattle.std.specs.Prelude.{◌≡◌};
    ghost use Rattle.derivation_graph.specs.declared.graph.GraphFault.TheVariants.{Memory};

    ghost from_gives = { λ _ fault. fault ≡ Memory };

    fn from(_: AllocFailed<T>) -> GraphFault {
        GraphFault::Memory
    }
}
