//! Verdicts on steps, before freshness.
ghost use Rattle.std.specs.Prelude.{◌≡◌, ◌+◌, ◌≤◌, length, IfOk, Ok, OnOk};
ghost use Rattle.derivation_graph.specs.Graphs.{IsGraphAnswer, IsStep};
ghost use Rattle.step_check.specs.Freshness.{HaveVerdicts};
ghost use Rattle.step_check.specs.Notes.{AreNotes, case_given, IsPrepared, IsSound};
ghost use Rattle.step_check.specs.Representatives.{IsFormAnswer, IsWithin};
ghost use Rattle.step_check.specs.Steps.{case_of, nodes_of};
ghost use Rattle.step_check.specs.Verdicts.{HasVerdict};
ghost use Rattle.tstp_trace.specs.Traces.{HaveFitParents};

use crate::climbing::{note_image, prepare};
use crate::given::{Given, step_at};
use crate::images::representative_of;
use crate::inference::inference_verdict;
use crate::leaves::leaf_verdict;
use crate::limits::{is_too_large, limit_of};
use crate::notes::{Notes, blank};
use crate::own::note_own;
use crate::verdict::Verdict;
use derivation_graph::Graph;
use dk_syntax::{NoMemory, Problem, Seq};
use normal_form::Nf;
use std::alloc::Global;
use tstp_trace::{StepSource, Trace};

/// The verdict on a step where no own form passes a limit.
fn verdict_within(
    alloc: Global,
    given: &Given<'_>,
    notes: &Notes,
    number: u32,
) -> Result<Verdict, NoMemory>
    requires sound { IsSound (case_given given.now) }
    requires stands { IsStep (case_given given.now).rows number }
    requires right { AreNotes (case_given given.now) notes.now }
    requires prepared { IsPrepared (case_given given.now) notes.now number }
    requires within { IsWithin (case_given given.now) number }
    ensures { IfOk result (λ verdict. HasVerdict (case_given given.now) number verdict) }
{
    match step_at(given.steps, number) {
        None => unreachable!(),
        Some(step) => match &step.source {
            StepSource::Leaf(name) => Ok(leaf_verdict(given, step, name)),
            StepSource::Derived { cth, esa, .. } => {
                inference_verdict(alloc, given, notes, number, *cth, *esa)
            }
        },
    }
}

/// The verdict on a step, of which all is known that it wants.
fn verdict_of(
    alloc: Global,
    given: &Given<'_>,
    notes: &Notes,
    number: u32,
) -> Result<Verdict, NoMemory>
    requires sound { IsSound (case_given given.now) }
    requires stands { IsStep (case_given given.now).rows number }
    requires right { AreNotes (case_given given.now) notes.now }
    requires prepared { IsPrepared (case_given given.now) notes.now number }
    ensures { IfOk result (λ verdict. HasVerdict (case_given given.now) number verdict) }
{
    match limit_of(given, &notes.forms.owns, number) {
        Some(limit) => Ok(Verdict::Over(limit)),
        None => verdict_within(alloc, given, notes, number),
    }
}

/// Notes what the verdict on a step wants to know, and answers the verdict.
fn judge_noted(
    alloc: Global,
    given: &Given<'_>,
    notes: &mut Notes,
    number: u32,
) -> Result<Verdict, NoMemory>
    requires sound { IsSound (case_given given.now) }
    requires stands { IsStep (case_given given.now).rows number }
    requires right { AreNotes (case_given given.now) notes.old }
    ensures right { OnOk result (AreNotes (case_given given.now) notes.new) }
    ensures verdict { IfOk result (λ verdict.
        HasVerdict (case_given given.now) number verdict) }
{
    prepare(alloc, given, notes, number)?;
    verdict_of(alloc, given, notes, number)
}

/// The verdicts on the steps after the first `before` up to the step `last`.
fn judge_range(
    alloc: Global,
    given: &Given<'_>,
    before: u32,
    last: u32,
) -> Result<Seq<Verdict>, NoMemory>
    requires sound { IsSound (case_given given.now) }
    requires order { before ≤ last }
    requires stands { last ≤ length (case_given given.now).rows }
    ensures each { IfOk result (λ verdicts.
        HaveVerdicts (case_given given.now) before verdicts) }
    ensures long { IfOk result (λ verdicts. before + length verdicts ≡ last) }
{
    let mut notes = blank(alloc);
    let mut verdicts = Seq::new(alloc);
    for place in before..last {
        let verdict = judge_noted(alloc, given, &mut notes, place + 1)?;
        verdicts.push(verdict)?;
    }
    Ok(verdicts)
}

/// The representative of a step, or `None` where the step's own form has more nodes than the limit.
fn form_noted(
    alloc: Global,
    given: &Given<'_>,
    notes: &mut Notes,
    number: u32,
) -> Result<Option<Nf>, NoMemory>
    requires sound { IsSound (case_given given.now) }
    requires stands { IsStep (case_given given.now).rows number }
    requires right { AreNotes (case_given given.now) notes.old }
    ensures { IfOk result (λ answer. IsFormAnswer (case_given given.now) number answer) }
{
    note_own(alloc, given, &mut notes.forms.owns, number)?;
    if is_too_large(given, &notes.forms.owns, number) {
        return Ok(None);
    }
    note_image(alloc, given, notes, number)?;
    let form = representative_of(given, &notes.forms, &notes.images, number);
    Ok(Some(form.copy(alloc)?))
}

/// What is given with a trace and its graph.
fn given_of<'a>(problem: &'a Problem, trace: &'a Trace, graph: &'a Graph) -> Given<'a>
    requires graph { IsGraphAnswer (nodes_of trace.now) (Ok graph.now) }
    requires parents { HaveFitParents trace.now.steps }
    ensures case { case_given result ≡ case_of problem.entry.now trace.entry.now graph.entry.now }
    ensures sound { IsSound (case_given result) }
{
    Given {
        problem,
        steps: trace.steps.as_slice(),
        rows: graph.parents.as_slice(),
    }
}

/// The verdict on a step, before freshness, for the graph of the trace: the first case of its rules that applies.
pub fn judge(
    alloc: Global,
    problem: &Problem,
    trace: &Trace,
    graph: &Graph,
    step: u32,
) -> Result<Verdict, NoMemory>
    requires graph { IsGraphAnswer (nodes_of trace.now) (Ok graph.now) }
    requires parents { HaveFitParents trace.now.steps }
    requires stands { IsStep graph.now.parents step }
    ensures { IfOk result (λ verdict.
        HasVerdict (case_of problem.now trace.now graph.now) step verdict) }
{
    let given = given_of(problem, trace, graph);
    let mut notes = blank(alloc);
    judge_noted(alloc, &given, &mut notes, step)
}

/// The form that represents a step, or `None` exactly where the step's own normal form has more nodes than the limit.
/// It is the step's own normal form, or for a structural step the image of its parent's.
pub fn form(
    alloc: Global,
    problem: &Problem,
    trace: &Trace,
    graph: &Graph,
    step: u32,
) -> Result<Option<Nf>, NoMemory>
    requires graph { IsGraphAnswer (nodes_of trace.now) (Ok graph.now) }
    requires parents { HaveFitParents trace.now.steps }
    requires stands { IsStep graph.now.parents step }
    ensures { IfOk result (λ answer.
        IsFormAnswer (case_of problem.now trace.now graph.now) step answer) }
{
    let given = given_of(problem, trace, graph);
    let mut notes = blank(alloc);
    form_noted(alloc, &given, &mut notes, step)
}

/// The verdicts, before freshness, on the steps after the first `before` up to the step `last`.
pub fn judge_piece(
    alloc: Global,
    problem: &Problem,
    trace: &Trace,
    graph: &Graph,
    before: u32,
    last: u32,
) -> Result<Seq<Verdict>, NoMemory>
    requires graph { IsGraphAnswer (nodes_of trace.now) (Ok graph.now) }
    requires parents { HaveFitParents trace.now.steps }
    requires order { before ≤ last }
    requires stands { last ≤ length graph.now.parents }
    ensures each { IfOk result (λ verdicts.
        HaveVerdicts (case_of problem.now trace.now graph.now) before verdicts) }
    ensures long { IfOk result (λ verdicts. before + length verdicts ≡ last) }
{
    let given = given_of(problem, trace, graph);
    judge_range(alloc, &given, before, last)
}
