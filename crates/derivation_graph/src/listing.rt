//! Steps listed one by one.
ghost use Rattle.std.specs.Prelude.{[], ◌≡◌, ℕ, ◌<◌, length, IfOk, IsTrue};
ghost use Rattle.derivation_graph.specs.Agendas.{AreStuck, IsMarked};
ghost use Rattle.derivation_graph.specs.Graphs.{HasStepsForParents};
ghost use Rattle.derivation_graph.specs.Orders.{ComeAfter, ListsAll};

use crate::agenda::{begin, list_next};
use dk_syntax::{NoMemory, Seq};
use std::alloc::Global;

/// Steps in the order in which they were ready, and whether these are all steps.
#[derive(Drop)]
pub struct Listing {
    pub list: Vec<u32>,
    pub whole: bool,
}

/// Whether each number but 0 is marked.
fn all_marked(marks: &[bool]) -> bool
    ensures { IsTrue result → (n : ℕ) → 0 < n → n < length marks.now → IsMarked marks.now n }
{
    for number in 1..marks.len() {
        if !marks[number] {
            return false;
        }
    }
    true
}

/// At each turn the least ready step, until none is.
pub fn list_ready(alloc: Global, rows: &[Seq<u32>]) -> Result<Listing, NoMemory>
    requires { HasStepsForParents rows.now }
    ensures turns { IfOk result (λ listing. ComeAfter rows.now [] listing.list.items) }
    ensures stuck { IfOk result (λ listing. AreStuck rows.now listing.list.items) }
    ensures whole { IfOk result (λ listing. IsTrue listing.whole
        → ListsAll rows.now listing.list.items) }
{
    let mut marks = vec![in alloc; false; rows.len() + 1]?;
    let mut agenda = begin(alloc, rows, marks.as_slice())?;
    let mut list = Vec::new(alloc);
    loop {
        if !list_next(alloc, rows, &mut marks, &mut agenda, &mut list)? {
            let whole = all_marked(marks.as_slice());
            return Ok(Listing { list, whole });
        }
    }
}
