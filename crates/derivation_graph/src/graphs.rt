//! The graph of nodes.
ghost use Rattle.std.specs.Prelude.{IfOk};
ghost use Rattle.derivation_graph.specs.Graphs.{names_of, AreDistinct, HasStepsForParents, IsGraphAnswer};
ghost use Rattle.derivation_graph.specs.Orders.{HasOrder};

use crate::cycles::find_cycle;
use crate::graph::{Graph, GraphFault, Node};
use crate::names::{all_numbers, name_set};
use dk_syntax::Seq;
use std::alloc::Global;

/// The graph of nodes with distinct names. A parent may stand later in the file.
pub fn graph_of(alloc: Global, nodes: &Seq<Node>) -> Result<Graph, GraphFault>
    requires { AreDistinct (names_of nodes.now) }
    ensures answer { IsGraphAnswer nodes.now result }
    ensures steps { IfOk result (λ graph. HasStepsForParents graph.parents) }
    ensures ordered { IfOk result (λ graph. HasOrder graph.parents) }
{
    let nodes = nodes.as_slice();
    let names = name_set(alloc, nodes)?;
    let parents = all_numbers(alloc, &names, nodes)?;
    match find_cycle(alloc, parents.as_slice())? {
        None => Ok(Graph { parents }),
        Some(step) => Err(GraphFault::Cycle { step }),
    }
}
