//! The list so far and what is still to be done.
ghost use Rattle.std.specs.Prelude.{◌≡◌, ◌+◌, ◌<◌, ◌≤◌, ◌↔◌, length, slice_get, Contains, IsTrue, IfOk, OnOk, MatchBool, Some};
ghost use Rattle.dk_syntax.specs.TermTables.{IsTermTable};
ghost use Rattle.ground_instances.specs.Notes.{AreRight, IsListOf, judged_given};
ghost use Rattle.ground_instances.specs.Rows.{AreBelow};
ghost use Rattle.ground_instances.specs.States.{Appends, AreNumbersOf, IsGroundClause, IsKept, row_by, weight_in};

use crate::entering::enter_literals;
use crate::given::Given;
use crate::instance::{Row, RowLit};
use crate::lists::clause_at;
use crate::naming::Named;
use dk_syntax::{NoMemory, Seq, TermTable};
use indexmap::IndexSet;
use normal_form::ClauseList;
use std::alloc::Global;
use std::collections::HashMap;

/// The list so far: the terms, the names of the rows, which are looked up, the rows, and the number of their literals.
#[derive(Drop)]
pub struct State {
    pub table: TermTable,
    pub names: IndexSet<Named>,
    pub rows: Vec<Row>,
    pub literals: u64,
}

/// What is still to be done with an instance.
#[derive(Drop)]
pub enum Task {
    /// To visit it.
    Visit(Named),
    /// To put it at the end of the list, once what it needs stands there.
    Append(Named, Seq<Named>),
}

/// Whether an instance stands in the list.
pub fn is_listed(names: &IndexSet<Named>, named: &Named) -> bool
    ensures { IsTrue result ↔ Contains names.now.keys named.now }
{
    names.contains(named)
}

/// The number of the instance of that name in the list.
fn number_of(names: &IndexSet<Named>, named: &Named) -> Result<u32, NoMemory>
    ensures { IfOk result (λ n. slice_get names.now.keys n ≡ Some named.now) }
{
    match names.get_index_of(named) {
        None => Err(NoMemory),
        Some(number) => match u32::try_from(number) {
            Ok(number) => Ok(number),
            Err(_) => Err(NoMemory),
        },
    }
}

/// The numbers of the instances of these names, all of which stand in the list.
fn numbers_of(alloc: Global, names: &IndexSet<Named>, needs: &[Named]) -> Result<Seq<u32>, NoMemory>
    ensures { IfOk result (λ numbers. AreNumbersOf names.now.keys needs.now numbers) }
{
    let mut numbers = Seq::new(alloc);
    for named in needs {
        let number = number_of(names, named)?;
        numbers.push(number)?;
    }
    Ok(numbers)
}

/// The ground clause of an instance.
fn ground_clause(
    alloc: Global,
    given: &Given<'_>,
    lists: &HashMap<u32, ClauseList>,
    table: &mut TermTable,
    named: &Named,
) -> Result<Seq<RowLit>, NoMemory>
    requires lists { AreRight (IsListOf (judged_given given.now)) lists.now }
    requires below { AreBelow (length table.old) named.now.terms }
    ensures { IfOk result (λ lits. IsGroundClause (judged_given given.now) table.old named.now
        table.new lits) }
{
    match clause_at(given.verdicts, lists, named.place) {
        None => Err(NoMemory),
        Some(clause) => {
            let values = named.terms.as_slice();
            let lits = enter_literals(alloc, table, values, clause.lits.as_slice())?;
            Ok(lits)
        }
    }
}

/// The row of an instance.
fn row_of(named: Named, lits: Seq<RowLit>, needs: Seq<u32>) -> Row
    ensures { result ≡ row_by named lits needs }
{
    let Named { place, terms } = named;
    Row {
        step: place.step,
        stage: place.stage,
        clause: place.clause,
        terms,
        lits,
        needs,
    }
}

/// Puts an instance at the end of the list. Where what it needs was visited, and the instance itself was not, it finds all
/// that it looks for.
pub fn append(
    alloc: Global,
    given: &Given<'_>,
    lists: &HashMap<u32, ClauseList>,
    state: &mut State,
    named: Named,
    needs: &[Named],
) -> Result<(), NoMemory>
    requires lists { AreRight (IsListOf (judged_given given.now)) lists.now }
    requires below { AreBelow (length state.old.table) named.terms }
    ensures { OnOk result (Appends (judged_given given.now) state.old named needs.now state.new) }
{
    if is_listed(&state.names, &named) {
        return Err(NoMemory);
    }
    let numbers = numbers_of(alloc, &state.names, needs)?;
    let lits = ground_clause(alloc, given, lists, &mut state.table, &named)?;
    let Some(literals) = state.literals.checked_add(lits.len() as u64) else {
        return Err(NoMemory);
    };
    state.names.insert(named.copy(alloc)?)?;
    state.rows.push(row_of(named, lits, numbers))?;
    state.literals = literals;
    Ok(())
}

/// The sum of two sizes of what stands in memory.
fn sum_of(a: u64, b: u64) -> Result<u64, NoMemory>
    ensures { IfOk result (λ sum. sum ≡ a + b) }
{
    a.checked_add(b).ok_or(NoMemory)
}

/// Whether the list so far weighs more than the limit.
pub fn weighs_over(state: &State, limit: u64) -> Result<bool, NoMemory>
    requires { IsKept state.now }
    ensures over { IfOk result (λ over. MatchBool over (limit < weight_in state.now)
        (weight_in state.now ≤ limit)) }
    ensures table { IsTermTable state.now.table }
{
    let terms = u64::from(state.table.len());
    let some = sum_of(state.literals, terms)?;
    let weight = sum_of(state.rows.len() as u64, some)?;
    Ok(limit < weight)
}
