//! The problem, the trace and the graph that two files hold.
ghost use Rattle.std.specs.Prelude.{◌≡◌, map, IfOk};
ghost use Rattle.tstp_trace.specs.Names.{AreDistinct};
ghost use Rattle.tstp_trace.specs.Traces.{HaveFitParents, names_of};
ghost use Rattle.dk_cli.specs.Derivations.{IsDerivationIn, IsDerivedBy, IsGraphIn, graph_refusal};
ghost use Rattle.step_check.specs.Steps.{node_of, nodes_of, parent_names};
ghost use Rattle.dk_cli.specs.Stages.{Answered, told_by};
ghost use Rattle.dk_cli.specs.Steps.{AreRead, IsDerived};

use crate::reading::{problem_in, trace_in};
use crate::refusal::{Refusal, StepFault};
use derivation_graph::{Graph, GraphFault, Node, graph_of};
use dk_syntax::{Name, NoMemory, Problem, Seq};
use std::alloc::Global;
use tstp_trace::{Step, StepSource, Trace};

/// A problem, a trace, and the graph of the trace.
#[derive(Drop)]
pub struct Derivation {
    pub problem: Problem,
    pub trace: Trace,
    pub graph: Graph,
}

fn copy_names(alloc: Global, names: &[Name]) -> Result<Seq<Name>, NoMemory>
    ensures { IfOk result (λ all. all ≡ names.now) }
{
    let mut all = Seq::new(alloc);
    for name in names {
        all.push(name.copy(alloc)?)?;
    }
    Ok(all)
}

/// The names of a step's parents.
fn parents(alloc: Global, source: &StepSource) -> Result<Seq<Name>, NoMemory>
    ensures { IfOk result (λ all. all ≡ parent_names source.now) }
{
    match source {
        StepSource::Leaf(_) => Ok(Seq::new(alloc)),
        StepSource::Derived { parents, .. } => copy_names(alloc, parents.as_slice()),
    }
}

fn node(alloc: Global, step: &Step) -> Result<Node, NoMemory>
    ensures { IfOk result (λ node. node ≡ node_of step.now) }
{
    Ok(Node {
        name: step.name.copy(alloc)?,
        parents: parents(alloc, &step.source)?,
    })
}

fn nodes(alloc: Global, trace: &Trace) -> Result<Seq<Node>, NoMemory>
    ensures { IfOk result (λ all. all ≡ nodes_of trace.now) }
{
    let mut all = Seq::new(alloc);
    for step in trace.steps.as_slice() {
        all.push(node(alloc, step)?)?;
    }
    Ok(all)
}

fn told_graph(found: Result<Graph, GraphFault>) -> Result<Graph, Refusal>
    ensures { result ≡ told_by graph_refusal found }
{
    match found {
        Ok(graph) => Ok(graph),
        Err(GraphFault::MissingParent { step, name }) => Err(Refusal::Step {
            step,
            fault: StepFault::MissingParent(name),
        }),
        Err(GraphFault::Cycle { step }) => Err(Refusal::Step {
            step,
            fault: StepFault::Cycle,
        }),
        Err(GraphFault::Memory) => Err(Refusal::Memory),
    }
}

/// The graph of a trace.
fn graph_in(alloc: Global, trace: &Trace) -> Result<Graph, Refusal>
    requires { AreDistinct (names_of trace.now) }
    ensures { Answered (IsGraphIn trace.now) result }
{
    let nodes = nodes(alloc, trace)?;
    told_graph(graph_of(alloc, &nodes))
}

/// The derivation of a problem and a trace that were built.
fn derived_by(alloc: Global, problem: Problem, trace: Trace) -> Result<Derivation, Refusal>
    requires names { AreDistinct (names_of trace) }
    requires parents { HaveFitParents trace.steps }
    requires read { AreRead problem trace }
    ensures answer { Answered (IsDerivedBy problem trace) result }
    ensures derived { IfOk result IsDerived }
{
    let graph = graph_in(alloc, &trace)?;
    Ok(Derivation {
        problem,
        trace,
        graph,
    })
}

/// The derivation that the bytes of two files hold, or the first refusal.
pub fn derivation_in(alloc: Global, problem: Vec<u8>, trace: Vec<u8>) -> Result<Derivation, Refusal>
    ensures answer { Answered (IsDerivationIn problem.items trace.items) result }
    ensures derived { IfOk result IsDerived }
{
    let problem = problem_in(alloc, problem)?;
    let trace = trace_in(alloc, trace)?;
    derived_by(alloc, problem, trace)
}
