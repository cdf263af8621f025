//! Names and the numbers of their steps.
ghost use Rattle.std.specs.Prelude.{◌≡◌, ◌+◌, ℕ, IfOk};
ghost use Rattle.derivation_graph.specs.Graphs.{AreDistinct, names_of, number_of};
ghost use Rattle.derivation_graph.specs.Names.{bytes_of, IsRowAnswer, IsRowsAnswer};

use crate::graph::{GraphFault, Node};
use dk_syntax::{Name, NoMemory, Seq};
use indexmap::IndexSet;
use std::alloc::Global;

/// The number of the step at a place.
fn step_number(place: usize) -> Result<u32, NoMemory>
    ensures { IfOk result (λ step. step ≡ place + 1) }
{
    match u32::try_from(place) {
        Ok(place) => place.checked_add(1).ok_or(NoMemory),
        Err(_) => Err(NoMemory),
    }
}

/// The names of the nodes, in order.
pub fn name_set(alloc: Global, nodes: &[Node]) -> Result<IndexSet<Vec<u8>>, NoMemory>
    requires { AreDistinct (names_of nodes.now) }
    ensures { IfOk result (λ set. bytes_of set.keys ≡ names_of nodes.now) }
{
    let mut set = IndexSet::new(alloc);
    for node in nodes {
        let name = Vec::from_slice(alloc, node.name.as_bytes())?;
        set.insert(name)?;
    }
    Ok(set)
}

/// The number of the step of that name, and 0 where none has it.
fn number_in(set: &IndexSet<Vec<u8>>, name: &Name) -> Result<u32, NoMemory>
    ensures { IfOk result (λ number. number ≡ number_of (bytes_of set.now.keys) name.now) }
{
    match set.get_index_of(name.as_bytes()) {
        None => Ok(0),
        Some(place) => {
            let number = step_number(place)?;
            Ok(number)
        }
    }
}

/// The numbers of a step's parents, or the first parent that no step has for a name.
fn parent_numbers(
    alloc: Global,
    set: &IndexSet<Vec<u8>>,
    step: u32,
    node: &Node,
) -> Result<Seq<u32>, GraphFault>
    ensures { IsRowAnswer (bytes_of set.now.keys) step node.now result }
{
    let mut row = Vec::new(alloc);
    for parent in node.parents.as_slice() {
        let number = number_in(set, parent)?;
        if number == 0 {
            let name = parent.copy(alloc)?;
            return Err(GraphFault::MissingParent { step, name });
        }
        row.push(number)?;
    }
    Ok(Seq::from_vec(row))
}

/// The numbers of the parents of each step, or the first parent that is missing.
pub fn all_numbers(
    alloc: Global,
    set: &IndexSet<Vec<u8>>,
    nodes: &[Node],
) -> Result<Seq<Seq<u32>>, GraphFault>
    requires { bytes_of set.now.keys ≡ names_of nodes.now }
    ensures { IsRowsAnswer nodes.now result }
{
    let mut rows = Vec::new(alloc);
    for (place, node) in nodes.iter().enumerate() {
        let step = step_number(place)?;
        match parent_numbers(alloc, set, step, node) {
            Ok(row) => rows.push(row)?,
            Err(fault) => return Err(fault),
        }
    }
    Ok(Seq::from_vec(rows))
}
