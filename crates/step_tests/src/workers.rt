//! Workers: pieces are judged beside each other, and their number doesn't matter.
ghost use Rattle.std.specs.Prelude.{◌≡◌, ◌<◌, Ok, IfOk};
ghost use Rattle.derivation_graph.specs.Graphs.{IsGraphAnswer};
ghost use Rattle.step_check.specs.Steps.{node_of, nodes_of, parent_names};
ghost use Rattle.tstp_trace.specs.Names.{AreDistinct};
ghost use Rattle.tstp_trace.specs.Traces.{names_of};

use derivation_graph::{Graph, Node, graph_of};
use dk_io::{Gate, NoGate};
use dk_syntax::{Name, NoMemory, Seq};
use std::alloc::Global;
use std::sync::atomic::{AtomicU64, Ordering};
use std::test::Fail;
use std::thread::Threads;
use step_check::{Verdict, Verdicts, judge_all};
use tptp_text::read_items;
use tstp_trace::{Step, StepSource, Trace, problem_from, trace_from};

const PROBLEM: &str = "fof(base,axiom,p0(c)).
fof(next0,axiom,![X]:(p0(X)=>?[Y]:(r(X,Y)&p1(Y)))).
fof(next1,axiom,![X]:(p1(X)=>?[Y]:(r(X,Y)&p2(Y)))).
fof(goal,conjecture,?[X]:p2(X)).
";

const TRACE: &str = "fof(base,axiom,p0(c),file(g,base)).
fof(next0,axiom,![X]:(p0(X)=>?[Y]:(r(X,Y)&p1(Y))),file(g,next0)).
fof(next1,axiom,![X]:(p1(X)=>?[Y]:(r(X,Y)&p2(Y))),file(g,next1)).
fof(sk0,plain,![X]:(~p0(X)|(r(X,s0(X))&p1(s0(X)))),inference(k,[status(esa)],[next0])).
fof(sk1,plain,![X]:(~p1(X)|(r(X,s1(X))&p2(s1(X)))),inference(k,[status(esa)],[next1])).
cnf(d1,plain,p1(s0(c)),inference(r,[status(thm)],[base,sk0])).
cnf(d2,plain,p2(s1(s0(c))),inference(r,[status(thm)],[d1,sk1])).
fof(goal,conjecture,?[X]:p2(X),file(g,goal)).
fof(neg,negated_conjecture,![X]:~p2(X),inference(n,[status(cth)],[goal])).
cnf(end,plain,$false,inference(r,[status(thm)],[d2,neg])).
";

/// The kinds of the verdicts on that trace, by their letters.
const KINDS: &str = "LLLSSCCNSC";

fn copy_names(alloc: Global, names: &[Name]) -> Result<Seq<Name>, NoMemory>
    ensures { IfOk result (λ all. all ≡ names.now) }
{
    let mut all = Seq::new(alloc);
    for name in names {
        all.push(name.copy(alloc)?)?;
    }
    Ok(all)
}

fn parents(alloc: Global, source: &StepSource) -> Result<Seq<Name>, NoMemory>
    ensures { IfOk result (λ all. all ≡ parent_names source.now) }
{
    match source {
        StepSource::Leaf(_) => Ok(Seq::new(alloc)),
        StepSource::Derived { parents, .. } => copy_names(alloc, parents.as_slice()),
    }
}

fn node(alloc: Global, step: &Step) -> Result<Node, NoMemory>
    ensures { IfOk result (λ node. node ≡ node_of step.now) }
{
    Ok(Node {
        name: step.name.copy(alloc)?,
        parents: parents(alloc, &step.source)?,
    })
}

fn nodes(alloc: Global, trace: &Trace) -> Result<Seq<Node>, NoMemory>
    ensures { IfOk result (λ all. all ≡ nodes_of trace.now) }
{
    let mut all = Seq::new(alloc);
    for step in trace.steps.as_slice() {
        all.push(node(alloc, step)?)?;
    }
    Ok(all)
}

fn graph_in(alloc: Global, trace: &Trace) -> Result<Graph, Fail>
    requires { AreDistinct (names_of trace.now) }
    ensures { IfOk result (λ graph. IsGraphAnswer (nodes_of trace.now) (Ok graph)) }
{
    let nodes = nodes(alloc, trace)?;
    match graph_of(alloc, &nodes) {
        Ok(graph) => Ok(graph),
        Err(_) => Err(Fail::new("the trace has no graph")),
    }
}

/// The verdicts on that trace.
fn verdicts_by<R: Threads + Sync, G: Gate>(
    rt: &R,
    alloc: Global,
    workers: u32,
    gate: &G,
) -> Result<Verdicts, Fail>
    requires { 0 < workers }
{
    let problem = problem_from(alloc, read_items(alloc, PROBLEM.as_bytes())?)?;
    let trace = trace_from(alloc, read_items(alloc, TRACE.as_bytes())?)?;
    let graph = graph_in(alloc, &trace)?;
    let verdicts = judge_all(rt, alloc, &problem, &trace, &graph, workers, gate)?;
    Ok(verdicts)
}

/// The first letter of the verdict's kind. N is for a leaf that names the conjecture, M for a composed image, H for chains.
fn letter(verdict: &Verdict) -> u8 {
    match verdict {
        Verdict::Leaf => b'L',
        Verdict::Conjecture => b'N',
        Verdict::Structural(_) => b'S',
        Verdict::Clausal(_) => b'C',
        Verdict::Chained(_) => b'H',
        Verdict::Composes(_) => b'M',
        Verdict::Wrong(_) => b'W',
        Verdict::Over(_) => b'O',
    }
}

fn letters(alloc: Global, verdicts: &Verdicts) -> Result<Vec<u8>, NoMemory> {
    let mut all = Vec::new(alloc);
    for verdict in verdicts.list.as_slice() {
        all.push(letter(verdict))?;
    }
    Ok(all)
}

#[test]
fn any_number_of_workers_finds_the_same(rt: HostRuntime) -> Result<(), Fail> {
    for workers in [1, 2, 64] {
        let verdicts = verdicts_by(&rt, rt.alloc(), workers, &NoGate)?;
        assert_eq!(rt;
            letters(rt.alloc(), &verdicts)?.as_slice(),
            KINDS.as_bytes()
        );
    }
    Ok(())
}

/// How often a piece looks for the other.
const TURNS: u32 = 200_000_000;

/// A gate at which two pieces look for each other.
#[derive(Drop)]
struct Meeting {
    came: [AtomicU64; 2],
    saw: [AtomicU64; 2],
}

impl Meeting {
    fn new() -> Meeting {
        Meeting {
            came: [AtomicU64::new(0), AtomicU64::new(0)],
            saw: [AtomicU64::new(0), AtomicU64::new(0)],
        }
    }
}

impl Gate for Meeting {
    fn pass(&self, piece: u32) {
        let (mine, other) = if piece == 0 { (0, 1) } else { (1, 0) };
        self.came[mine].store(1, Ordering::SeqCst);
        for _ in 0..TURNS {
            if self.came[other].load(Ordering::SeqCst) == 1 {
                self.saw[mine].store(1, Ordering::SeqCst);
                return;
            }
        }
    }
}

#[test]
fn two_pieces_run_beside_each_other(rt: HostRuntime) -> Result<(), Fail> {
    let gate = Meeting::new();
    let verdicts = verdicts_by(&rt, rt.alloc(), 2, &gate)?;
    assert_eq!(rt; verdicts.list.len(), KINDS.len());
    assert_eq!(rt;
        gate.saw[0].load(Ordering::SeqCst),
        1,
        "the first saw the second"
    );
    assert_eq!(rt;
        gate.saw[1].load(Ordering::SeqCst),
        1,
        "the second saw the first"
    );
    Ok(())
}
