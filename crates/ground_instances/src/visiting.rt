//! The visit of the instances that the root needs, by a loop with a list of tasks.
ghost use Rattle.std.specs.Prelude.{◌≡◌, ◌≤◌, ◌++◌, ℕ, [], ◌∷◌, map, length, reverse, IfOk, IfErr, OnOk};
ghost use Rattle.dk_syntax.specs.TermTables.{IsTermTable};
ghost use Rattle.ground_instances.specs.Notes.{AreFound, HasImages, judged_given};
ghost use Rattle.ground_instances.specs.Rows.{AreBelow};
ghost use Rattle.ground_instances.specs.States.{IsBegun, IsBlank, IsFirstTask, IsState, IsTaskBelow, IsVisitFault, weight_in};

use crate::given::Given;
use crate::instance::PullFault;
use crate::naming::{Named, Place};
use crate::needing::{Found, needs_of, prepare};
use crate::state::{State, Task, append, is_listed, weighs_over};
use dk_syntax::{NoMemory, Seq, TermTable};
use indexmap::IndexSet;
use std::alloc::Global;
use std::collections::HashMap;

/// Copies of the names.
fn copies(alloc: Global, names: &[Named]) -> Result<Vec<Named>, NoMemory>
    ensures { IfOk result (λ copies. copies.items ≡ names.now) }
{
    let mut copies = Vec::new(alloc);
    for named in names {
        copies.push(named.copy(alloc)?)?;
    }
    Ok(copies)
}

/// Puts visits on top of the tasks, the first of them uppermost.
fn push_visits(mut names: Vec<Named>, tasks: &mut Vec<Task>) -> Result<(), NoMemory>
    ensures { OnOk result (reverse tasks.new.items
        ≡ map Task.Visit names.items ++ reverse tasks.old.items) }
{
    while let Some(named) = names.pop() {
        tasks.push(Task::Visit(named))?;
    }
    Ok(())
}

/// Begins a visit of an instance. Where it isn't in the list, what it needs is to be visited, and then it is to be put at
/// the end.
fn begin(
    alloc: Global,
    given: &Given<'_>,
    found: &mut Found,
    state: &mut State,
    named: Named,
    tasks: &mut Vec<Task>,
) -> Result<(), NoMemory>
    requires images { HasImages (judged_given given.now) }
    requires found { AreFound (judged_given given.now) found.old }
    requires below { AreBelow (length state.old.table) named.terms }
    ensures found { OnOk result (AreFound (judged_given given.now) found.new) }
    ensures begun { OnOk result (IsBegun (judged_given given.now) state.old named
        (reverse tasks.old.items) state.new (reverse tasks.new.items)) }
{
    if is_listed(&state.names, &named) {
        return Ok(());
    }
    let needs = needs_of(alloc, given, &found.notes, &mut state.table, &named)?;
    prepare(alloc, given, found, needs.as_slice())?;
    let visits = copies(alloc, needs.as_slice())?;
    tasks.push(Task::Append(named, needs))?;
    push_visits(visits, tasks)?;
    Ok(())
}

/// Does a task, which may add tasks.
fn do_task(
    alloc: Global,
    given: &Given<'_>,
    found: &mut Found,
    state: &mut State,
    task: Task,
    tasks: &mut Vec<Task>,
) -> Result<(), NoMemory>
    requires images { HasImages (judged_given given.now) }
    requires found { AreFound (judged_given given.now) found.old }
    requires below { IsTaskBelow (length state.old.table) task }
    ensures found { OnOk result (AreFound (judged_given given.now) found.new) }
    ensures state { OnOk result ((root : ℕ) → IsTermTable state.old.table
        → IsState (judged_given given.now) root state.old (task ∷ reverse tasks.old.items)
        → IsState (judged_given given.now) root state.new (reverse tasks.new.items)) }
{
    match task {
        Task::Visit(named) => {
            begin(alloc, given, found, state, named, tasks)?;
            Ok(())
        }
        Task::Append(named, needs) => {
            append(alloc, given, &found.lists, state, named, needs.as_slice())?;
            Ok(())
        }
    }
}

/// An empty list.
fn blank_state(alloc: Global) -> Result<State, NoMemory>
    ensures { IfOk result (λ state. IsBlank state) }
{
    Ok(State {
        table: TermTable::new(alloc)?,
        names: IndexSet::new(alloc),
        rows: Vec::new(alloc),
        literals: 0,
    })
}

/// The visit of the root's empty clause, whose step is prepared.
fn first_tasks(
    alloc: Global,
    given: &Given<'_>,
    found: &mut Found,
    root: u32,
) -> Result<Vec<Task>, NoMemory>
    requires images { HasImages (judged_given given.now) }
    requires found { AreFound (judged_given given.now) found.old }
    ensures found { OnOk result (AreFound (judged_given given.now) found.new) }
    ensures tasks { IfOk result (λ tasks. IsFirstTask (judged_given given.now) root
        (reverse tasks.items)) }
{
    let mut roots = Vec::new(alloc);
    roots.push(Named {
        place: Place {
            step: root,
            stage: 0,
            clause: 0,
        },
        terms: Seq::new(alloc),
    })?;
    prepare(alloc, given, found, roots.as_slice())?;
    let mut tasks = Vec::new(alloc);
    push_visits(roots, &mut tasks)?;
    Ok(tasks)
}

/// The list after a visit of the root's empty clause, or that it weighs more than the limit. The weight is tested after each
/// task, before the list grows further. No trace leaves more tasks than are counted here.
pub fn visited(alloc: Global, given: &Given<'_>, root: u32, limit: u64) -> Result<State, PullFault>
    requires { HasImages (judged_given given.now) }
    ensures state { IfOk result (λ state. IsState (judged_given given.now) root state []) }
    ensures within { IfOk result (λ state. weight_in state ≤ limit) }
    ensures fault { IfErr result (λ fault. IsVisitFault (judged_given given.now) root limit fault) }
{
    let mut found = Found {
        notes: HashMap::new(alloc),
        lists: HashMap::new(alloc),
    };
    let mut state = blank_state(alloc)?;
    let mut tasks = first_tasks(alloc, given, &mut found, root)?;
    'tasks: for _ in 0..u64::MAX {
        let Some(task) = tasks.pop() else {
            return Ok(state);
        };
        do_task(alloc, given, &mut found, &mut state, task, &mut tasks)?;
        if weighs_over(&state, limit)? {
            return Err(PullFault::OverWeight { limit });
        }
    }
    Err(PullFault::Memory)
}
