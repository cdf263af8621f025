//! The verdicts on all steps, judged in pieces.
ghost use Rattle.std.specs.Prelude.{◌≡◌, ◌+◌, ◌<◌, ◌≤◌, ◌^◌, ◌++◌, length, IfOk, Ok};
ghost use Rattle.std.specs.Thread.{IsSync};
ghost use Rattle.derivation_graph.specs.Graphs.{IsGraphAnswer};
ghost use Rattle.step_check.specs.Freshness.{AreFirstVerdicts, AreVerdicts, HaveVerdicts};
ghost use Rattle.step_check.specs.Pieces.{start_of, IsPiece};
ghost use Rattle.step_check.specs.Steps.{case_of, nodes_of};
ghost use Rattle.tstp_trace.specs.Traces.{HaveFitParents};

use crate::freshness::fresh;
use crate::judging::judge_piece;
use crate::verdict::{Verdict, Verdicts};
use derivation_graph::Graph;
use dk_io::Gate;
use dk_syntax::{NoMemory, Problem, Seq};
use std::alloc::Global;
use std::thread::{Threads, join};
use tstp_trace::Trace;

/// How many steps stand before a piece.
fn start(steps: u64, pieces: u64, piece: u64) -> u32
    requires few { steps < 2 ^ 32 }
    requires some { 0 < pieces }
    requires within { piece ≤ pieces }
    requires bounded { pieces < 2 ^ 32 }
    ensures value { result ≡ start_of steps pieces piece }
    ensures inside { result ≤ steps }
{
    (piece * steps / pieces) as u32
}

/// The verdicts on the steps of one piece.
fn judge_one<G: Gate>(
    alloc: Global,
    problem: &Problem,
    trace: &Trace,
    graph: &Graph,
    pieces: u64,
    piece: u64,
    gate: &G,
) -> Result<Seq<Verdict>, NoMemory>
    requires graph { IsGraphAnswer (nodes_of trace.now) (Ok graph.now) }
    requires parents { HaveFitParents trace.now.steps }
    requires few { length graph.now.parents < 2 ^ 32 }
    requires within { piece < pieces }
    requires bounded { pieces < 2 ^ 32 }
    ensures { IfOk result (λ verdicts.
        IsPiece (case_of problem.now trace.now graph.now) pieces piece (piece + 1) verdicts) }
{
    gate.pass(piece as u32);
    let count = graph.parents.len() as u64;
    let before = start(count, pieces, piece);
    let last = start(count, pieces, piece + 1);
    judge_piece(alloc, problem, trace, graph, before, last)
}

/// One list behind the other.
fn joined(left: Seq<Verdict>, right: Seq<Verdict>) -> Result<Seq<Verdict>, NoMemory>
    ensures { IfOk result (λ verdicts. verdicts ≡ left ++ right) }
{
    let mut verdicts = left.into_vec();
    let mut more = right.into_vec();
    verdicts.append(&mut more)?;
    Ok(Seq::from_vec(verdicts))
}

/// The verdicts on the steps of the pieces from `low` up to `high`, each half of the pieces beside the other.
fn judge_pieces<R: Threads + Sync, G: Gate>(
    rt: &R,
    alloc: Global,
    problem: &Problem,
    trace: &Trace,
    graph: &Graph,
    pieces: u64,
    low: u64,
    high: u64,
    gate: &G,
) -> Result<Seq<Verdict>, NoMemory>
    requires graph { IsGraphAnswer (nodes_of trace.now) (Ok graph.now) }
    requires parents { HaveFitParents trace.now.steps }
    requires few { length graph.now.parents < 2 ^ 32 }
    requires some { low < high }
    requires within { high ≤ pieces }
    requires bounded { pieces < 2 ^ 32 }
    ensures { IfOk result (λ verdicts.
        IsPiece (case_of problem.now trace.now graph.now) pieces low high verdicts) }
{
    if high - low == 1 {
        return judge_one(alloc, problem, trace, graph, pieces, low, gate);
    }
    let middle = low + (high - low) / 2;
    let (left, right) = join(
        rt,
        || -> Result<Seq<Verdict>, NoMemory>
            requires { IsSync R.row × IsSync G.row × IsGraphAnswer (nodes_of trace.now) (Ok graph.now)
                × HaveFitParents trace.now.steps × (length graph.now.parents < 2 ^ 32)
                × (low < middle) × (middle ≤ pieces) × (pieces < 2 ^ 32) }
            ensures { IfOk result (λ verdicts. IsPiece
                (case_of problem.entry.now trace.entry.now graph.entry.now) pieces low middle verdicts) }
        { judge_pieces(rt, alloc, problem, trace, graph, pieces, low, middle, gate) },
        || -> Result<Seq<Verdict>, NoMemory>
            requires { IsSync R.row × IsSync G.row × IsGraphAnswer (nodes_of trace.now) (Ok graph.now)
                × HaveFitParents trace.now.steps × (length graph.now.parents < 2 ^ 32)
                × (middle < high) × (high ≤ pieces) × (pieces < 2 ^ 32) }
            ensures { IfOk result (λ verdicts. IsPiece
                (case_of problem.entry.now trace.entry.now graph.entry.now) pieces middle high verdicts) }
        { judge_pieces(rt, alloc, problem, trace, graph, pieces, middle, high, gate) },
    );
    joined(left?, right?)
}

/// The verdicts on all steps, before freshness, in as many pieces as there are workers.
fn judge_each<R: Threads + Sync, G: Gate>(
    rt: &R,
    alloc: Global,
    problem: &Problem,
    trace: &Trace,
    graph: &Graph,
    workers: u32,
    gate: &G,
) -> Result<Seq<Verdict>, NoMemory>
    requires graph { IsGraphAnswer (nodes_of trace.now) (Ok graph.now) }
    requires parents { HaveFitParents trace.now.steps }
    requires workers { 0 < workers }
    ensures { IfOk result (λ verdicts.
        AreFirstVerdicts (case_of problem.now trace.now graph.now) verdicts) }
{
    let count = graph.parents.len();
    if count > u32::MAX as usize {
        return Err(NoMemory);
    }
    let pieces = u64::from(workers).min(count as u64);
    if pieces == 0 {
        return Ok(Seq::new(alloc));
    }
    judge_pieces(rt, alloc, problem, trace, graph, pieces, 0, pieces, gate)
}

/// The verdict list of a trace, for its graph: the verdict on each step, in the order of the file, with freshness. The steps
/// are judged in as many pieces as there are workers, beside each other as far as threads can be had; the gate is passed once
/// before each piece. The answer does not depend on the number of workers.
pub fn judge_all<R: Threads + Sync, G: Gate>(
    rt: &R,
    alloc: Global,
    problem: &Problem,
    trace: &Trace,
    graph: &Graph,
    workers: u32,
    gate: &G,
) -> Result<Verdicts, NoMemory>
    requires graph { IsGraphAnswer (nodes_of trace.now) (Ok graph.now) }
    requires parents { HaveFitParents trace.now.steps }
    requires workers { 0 < workers }
    ensures { IfOk result (λ verdicts.
        AreVerdicts (case_of problem.now trace.now graph.now) verdicts.list) }
{
    let list = judge_each(rt, alloc, problem, trace, graph, workers, gate)?;
    let mut verdicts = Verdicts { list };
    fresh(problem, &mut verdicts);
    Ok(verdicts)
}
