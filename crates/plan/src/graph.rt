//! The graph of a trace.
ghost use Rattle.std.specs.Prelude.{◌≡◌, IfOk};
ghost use Rattle.plan.specs.Plans.{IsGraphStage, graph_told};
ghost use Rattle.step_check.specs.Steps.{node_of, nodes_of, parent_names};
ghost use Rattle.tstp_trace.specs.Names.{AreDistinct};
ghost use Rattle.tstp_trace.specs.Traces.{names_of};

use crate::plan::PlanFault;
use derivation_graph::{Graph, GraphFault, Node, graph_of};
use dk_syntax::{Name, NoMemory, Seq};
use std::alloc::Global;
use tstp_trace::{Step, StepSource, Trace};

fn copy_names(alloc: Global, names: &[Name]) -> Result<Seq<Name>, NoMemory>
    ensures { IfOk result (λ all. all ≡ names.now) }
{
    let mut all = Seq::new(alloc);
    for name in names {
        all.push(name.copy(alloc)?)?;
    }
    Ok(all)
}

/// The names of a step's parents.
fn parents(alloc: Global, source: &StepSource) -> Result<Seq<Name>, NoMemory>
    ensures { IfOk result (λ all. all ≡ parent_names source.now) }
{
    match source {
        StepSource::Leaf(_) => Ok(Seq::new(alloc)),
        StepSource::Derived { parents, .. } => copy_names(alloc, parents.as_slice()),
    }
}

fn node(alloc: Global, step: &Step) -> Result<Node, NoMemory>
    ensures { IfOk result (λ node. node ≡ node_of step.now) }
{
    Ok(Node {
        name: step.name.copy(alloc)?,
        parents: parents(alloc, &step.source)?,
    })
}

fn nodes(alloc: Global, trace: &Trace) -> Result<Seq<Node>, NoMemory>
    ensures { IfOk result (λ all. all ≡ nodes_of trace.now) }
{
    let mut all = Seq::new(alloc);
    for step in trace.steps.as_slice() {
        all.push(node(alloc, step)?)?;
    }
    Ok(all)
}

/// The graph, or why there is no plan.
fn told(found: Result<Graph, GraphFault>) -> Result<Graph, PlanFault>
    ensures { result ≡ graph_told found }
{
    match found {
        Ok(graph) => Ok(graph),
        Err(GraphFault::MissingParent { step, name }) => {
            Err(PlanFault::MissingParent { step, name })
        }
        Err(GraphFault::Cycle { step }) => Err(PlanFault::Cycle { step }),
        Err(GraphFault::Memory) => Err(PlanFault::Memory),
    }
}

/// The graph of a trace whose steps have different names.
pub fn graph_in(alloc: Global, trace: &Trace) -> Result<Graph, PlanFault>
    requires { AreDistinct (names_of trace.now) }
    ensures { IsGraphStage trace.now result }
{
    let nodes = nodes(alloc, trace)?;
    told(graph_of(alloc, &nodes))
}
