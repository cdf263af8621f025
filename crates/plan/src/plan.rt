//! Plans, and why there is none.
use crate::maps::StepMap;
use derivation_graph::Graph;
use dk_syntax::{Name, NoMemory, Seq, Term};
use expansion::Thin;
use ground_instances::Instances;
use skolem_order::Origins;
use step_check::{Limit, Reason, Verdicts};

/// What the proof of a refutation is made from.
#[derive(Drop)]
pub struct Plan {
    pub graph: Graph,
    /// The number of the step that derives `$false`, counted from 1.
    pub root: u32,
    pub verdicts: Verdicts,
    pub instances: Instances,
    /// What the instances weigh.
    pub weight: u64,
    /// The map of each step that has one.
    pub maps: Seq<Option<StepMap>>,
    /// The thin tree of each instance that has one.
    pub thins: Seq<Option<Thin>>,
    pub origins: Origins,
    /// The Skolem terms that the thin trees and the instances' clauses need.
    pub order: Seq<Term>,
}

/// Why there is no plan, in the order in which it is looked for. The wrong steps and those over a
/// limit are taken together. Steps are counted from 1.
#[derive(Debug, Drop)]
pub enum PlanFault {
    /// No step has the parent's name.
    MissingParent { step: u32, name: Name },
    /// The step is the least on a cycle.
    Cycle { step: u32 },
    /// No step that may be the root has the formula `$false`.
    NoRefutation,
    Wrong { step: u32, reason: Reason },
    Over { step: u32, limit: Limit },
    /// The instances weigh more than the limit.
    OverWeight { limit: u64 },
    /// The first instance with a tree weight above 1,000,000 is of that step.
    OverWide { step: u32 },
    Memory,
}

impl From<NoMemory> for PlanFault {
    ghost use Rattle.std.specs.Prelude.{◌≡◌};
    ghost use Rattle.plan.specs.declared.plan.PlanFault.TheVariants.{Memory};

    ghost from_gives = { λ _ fault. fault ≡ Memory };

    fn from(_: NoMemory) -> PlanFault {
        PlanFault::Memory
    }
}
