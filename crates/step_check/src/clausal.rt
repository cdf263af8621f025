//! Verdicts on the clauses of a step.
ghost use Rattle.std.specs.Prelude.{◌≡◌, ◌≤◌, ◌<◌, ℕ, length, Contains, IfOk};
ghost use Rattle.normal_form.specs.ClauseLists.{clause_rows};
ghost use Rattle.step_check.specs.Notes.{AreNotes, case_given, IsShort};
ghost use Rattle.step_check.specs.Steps.{own_form};
ghost use Rattle.step_check.specs.Tables.{IsKnown};
ghost use Rattle.step_check.specs.Verdicts.{AreLists, IsClausalVerdict, IsListAt};
ghost use Rattle.step_clause.specs.Justifications.{AreNumbered, IsNumberedList};
ghost use Rattle.step_compose.specs.Composing.{HasShortList};

use crate::given::Given;
use crate::images::representative_of;
use crate::notes::Notes;
use crate::verdict::{Reason, Verdict};
use dk_syntax::{NoMemory, Seq};
use normal_form::{ClauseFault, ClauseList, Nf, clauses};
use std::alloc::Global;
use step_chain::chain_of;
use step_clause::justify;

/// The clause list of a form, which is within its limits.
pub fn listed(alloc: Global, form: &Nf) -> Result<ClauseList, NoMemory>
    requires { HasShortList form.now }
    ensures rows { IfOk result (λ list. list.rows ≡ clause_rows form.now) }
    ensures numbered { IfOk result (λ list. IsNumberedList list) }
{
    match clauses(alloc, form) {
        Ok(list) => Ok(list),
        Err(ClauseFault::TooManyClauses { count: _ }) => unreachable!(),
        Err(ClauseFault::TooManyLiterals { count: _ }) => unreachable!(),
        Err(ClauseFault::Memory) => Err(NoMemory),
    }
}

/// The clause list of a step's representative.
fn list_at(
    alloc: Global,
    given: &Given<'_>,
    notes: &Notes,
    number: u32,
) -> Result<ClauseList, NoMemory>
    requires right { AreNotes (case_given given.now) notes.now }
    requires own { IsKnown notes.now.forms.owns number }
    requires known { IsKnown notes.now.images number }
    requires short { IsShort (own_form (case_given given.now) number) }
    ensures { IfOk result (λ list. IsListAt (case_given given.now) number list) }
{
    let form = representative_of(given, &notes.forms, &notes.images, number);
    listed(alloc, form)
}

/// The clause lists of the steps' representatives.
pub fn lists_at(
    alloc: Global,
    given: &Given<'_>,
    notes: &Notes,
    numbers: &[u32],
) -> Result<Seq<ClauseList>, NoMemory>
    requires right { AreNotes (case_given given.now) notes.now }
    requires owns { (q : ℕ) → Contains numbers.now q → IsKnown notes.now.forms.owns q }
    requires images { (q : ℕ) → Contains numbers.now q → IsKnown notes.now.images q }
    requires short { (q : ℕ) → Contains numbers.now q
        → IsShort (own_form (case_given given.now) q) }
    ensures { IfOk result (λ lists. AreLists (case_given given.now) numbers.now lists) }
{
    let mut lists = Seq::new(alloc);
    for number in numbers {
        lists.push(list_at(alloc, given, notes, *number)?)?;
    }
    Ok(lists)
}

/// The number of a clause.
fn number_of(k: usize) -> Result<u32, NoMemory>
    ensures { IfOk result (λ number. number ≡ k) }
{
    u32::try_from(k).map_err(|_| NoMemory)
}

/// The verdict on clauses by justifications from one or two lists.
fn justified(
    alloc: Global,
    targets: &ClauseList,
    lists: &Seq<ClauseList>,
) -> Result<Verdict, NoMemory>
    requires targets { IsNumberedList targets.now }
    requires lists { AreNumbered lists.now }
    requires few { length lists.now ≤ 2 }
    ensures { IfOk result (λ verdict. IsClausalVerdict lists.now targets.now.rows verdict) }
{
    let mut steps = Seq::new(alloc);
    let rows = targets.rows.as_slice();
    for k in 0..rows.len() {
        let found = justify(alloc, &rows[k].clause, lists)?;
        match found {
            Some(step) => steps.push(step)?,
            None => return Ok(Verdict::Wrong(Reason::Unjustified(number_of(k)?))),
        }
    }
    Ok(Verdict::Clausal(steps))
}

/// The verdict on clauses by chains from three to eight lists.
fn chained(
    alloc: Global,
    targets: &ClauseList,
    lists: &Seq<ClauseList>,
) -> Result<Verdict, NoMemory>
    requires targets { IsNumberedList targets.now }
    requires lists { AreNumbered lists.now }
    requires more { 2 < length lists.now }
    requires few { length lists.now ≤ 8 }
    ensures { IfOk result (λ verdict. IsClausalVerdict lists.now targets.now.rows verdict) }
{
    let mut chains = Seq::new(alloc);
    let rows = targets.rows.as_slice();
    for k in 0..rows.len() {
        let found = chain_of(alloc, &rows[k].clause, lists)?;
        match found {
            Some(chain) => chains.push(chain)?,
            None => return Ok(Verdict::Wrong(Reason::Unjustified(number_of(k)?))),
        }
    }
    Ok(Verdict::Chained(chains))
}

/// The verdict on clauses by the clause lists of the parents.
pub fn clausal_verdict(
    alloc: Global,
    targets: &ClauseList,
    lists: &Seq<ClauseList>,
) -> Result<Verdict, NoMemory>
    requires targets { IsNumberedList targets.now }
    requires lists { AreNumbered lists.now }
    requires few { length lists.now ≤ 8 }
    ensures { IfOk result (λ verdict. IsClausalVerdict lists.now targets.now.rows verdict) }
{
    if lists.len() <= 2 {
        justified(alloc, targets, lists)
    } else {
        chained(alloc, targets, lists)
    }
}
