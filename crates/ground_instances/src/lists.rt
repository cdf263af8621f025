//! The clauses of instances.
ghost use Rattle.std.specs.Prelude.{◌≡◌, ◌<◌, ◌-◌, ⊤, ℕ, List, length, IfOk, OnOk, MatchOption};
ghost use Rattle.normal_form.specs.ClauseLists.{clause_rows};
ghost use Rattle.dk_syntax.specs.declared.Term.{Term as Tree};
ghost use Rattle.ground_instances.specs.Clauses.{IsFound, IsListed, IsMiddle, IsRowOf, IsStaged};
ghost use Rattle.ground_instances.specs.Naming.{IsFit, key_at};
ghost use Rattle.ground_instances.specs.Notes.{AreRight, IsListOf, IsNote, judged_given};

use crate::given::{Given, verdict_at};
use crate::naming::{Named, Place};
use crate::notes::Note;
use crate::variables::has_each_variable;
use dk_syntax::{Clause, NoMemory};
use normal_form::{ClauseFault, ClauseList, Nf, clauses};
use std::alloc::Global;
use std::collections::HashMap;
use step_chain::Chain;
use step_check::Verdict;

/// The clause list of a form that represents a step. The verdicts say that it is within its limits.
fn list_of(alloc: Global, form: &Nf) -> Result<ClauseList, NoMemory>
    ensures { IfOk result (λ list. list.rows ≡ clause_rows form.now) }
{
    match clauses(alloc, form) {
        Ok(list) => Ok(list),
        Err(ClauseFault::TooManyClauses { count: _ }) => Err(NoMemory),
        Err(ClauseFault::TooManyLiterals { count: _ }) => Err(NoMemory),
        Err(ClauseFault::Memory) => Err(NoMemory),
    }
}

/// Notes the clause list of a step whose form is noted, unless it is known.
pub fn note_list(
    alloc: Global,
    given: &Given<'_>,
    notes: &HashMap<u32, Note>,
    lists: &mut HashMap<u32, ClauseList>,
    number: u32,
) -> Result<(), NoMemory>
    requires notes { AreRight (IsNote (judged_given given.now)) notes.now }
    requires lists { AreRight (IsListOf (judged_given given.now)) lists.old }
    ensures { OnOk result (AreRight (IsListOf (judged_given given.now)) lists.new) }
{
    if lists.contains_key(&number) {
        return Ok(());
    }
    match notes.get(&number) {
        None => Err(NoMemory),
        Some(note) => {
            let list = list_of(alloc, &note.form)?;
            lists.insert(number, list)?;
            Ok(())
        }
    }
}

/// The clause of that number in a list.
fn row_clause(list: &ClauseList, clause: u32) -> Option<&Clause>
    ensures { MatchOption result ⊤ (λ it. IsRowOf list.entry.now clause it.now) }
{
    match list.rows.as_slice().get(clause as usize) {
        Some(row) => Some(&row.clause),
        None => None,
    }
}

/// The clause of that number in the list of a step.
fn listed_clause(lists: &HashMap<u32, ClauseList>, step: u32, clause: u32) -> Option<&Clause>
    ensures { MatchOption result ⊤ (λ it. IsListed lists.entry.now step clause it.now) }
{
    match lists.get(&step) {
        Some(list) => row_clause(list, clause),
        None => None,
    }
}

/// The middle clause at that place of a chain, which has that number.
fn middle_clause(chains: &[Chain], clause: u32, place: u32) -> Option<&Clause>
    ensures { MatchOption result ⊤ (λ it. IsMiddle chains.entry.now clause place it.now) }
{
    match chains.get(clause as usize) {
        Some(chain) => chain.mids.as_slice().get(place as usize),
        None => None,
    }
}

/// The clause of an instance at a stage after the first.
fn staged_clause(verdicts: &[Verdict], step: u32, stage: u32, clause: u32) -> Option<&Clause>
    requires { 0 < stage }
    ensures { MatchOption result ⊤ (λ it. IsStaged verdicts.entry.now step stage clause it.now) }
{
    match verdict_at(verdicts, step) {
        Some(Verdict::Chained(chains)) => middle_clause(chains.as_slice(), clause, stage - 1),
        Some(Verdict::Composes(composed)) if stage == 1 => row_clause(&composed.image, clause),
        _ => None,
    }
}

/// The clause at a place, where the list of its step is known.
pub fn clause_at<'a>(
    verdicts: &'a [Verdict],
    lists: &'a HashMap<u32, ClauseList>,
    place: Place,
) -> Option<&'a Clause>
    ensures { MatchOption result ⊤ (λ it.
        IsFound verdicts.entry.now lists.entry.now place it.now) }
{
    if place.stage == 0 {
        return listed_clause(lists, place.step, place.clause);
    }
    staged_clause(verdicts, place.step, place.stage, place.clause)
}

/// Refuses an instance without a clause, or with a term too many or too few, or one that doesn't stand in the ground
/// clause. The verdicts say that no instance that is needed is such.
pub fn ask_fit(
    alloc: Global,
    given: &Given<'_>,
    lists: &HashMap<u32, ClauseList>,
    named: &Named,
) -> Result<(), NoMemory>
    requires { AreRight (IsListOf (judged_given given.now)) lists.now }
    ensures { OnOk result ((terms : List Tree) → length terms ≡ length named.now.terms
        → IsFit (judged_given given.now) (key_at named.now.place terms)) }
{
    match clause_at(given.verdicts, lists, named.place) {
        None => Err(NoMemory),
        Some(clause) => {
            let each = has_each_variable(alloc, clause)?;
            if each && named.terms.len() == clause.vars as usize {
                return Ok(());
            }
            Err(NoMemory)
        }
    }
}
