//! The order of steps.
ghost use Rattle.std.specs.Prelude.{IfOk};
ghost use Rattle.derivation_graph.specs.Graphs.{HasNoCycle, HasStepsForParents};
ghost use Rattle.derivation_graph.specs.Orders.{IsOrderOf};

use crate::graph::Graph;
use crate::listing::list_ready;
use dk_syntax::{NoMemory, Seq};
use std::alloc::Global;

/// Each step once and after its parents, the least ready number first.
pub fn order(alloc: Global, graph: &Graph) -> Result<Seq<u32>, NoMemory>
    requires steps { HasStepsForParents graph.now.parents }
    requires acyclic { HasNoCycle graph.now.parents }
    ensures { IfOk result (λ list. IsOrderOf graph.now.parents list) }
{
    let listing = list_ready(alloc, graph.parents.as_slice())?;
    Ok(Seq::from_vec(listing.list))
}
