//! Ranks of steps that are guessed: the numbers of strongly connected components, by Pearce's search with one
//! array (D. J. Pearce, "A space-efficient algorithm for finding strongly connected components"), without
//! recursion. Nothing is claimed of them: who takes them tests what he needs.

ghost use Rattle.std.specs.Prelude.{◌≡◌, get_or};

use crate::rows::parents_at;
use dk_syntax::{NoMemory, Seq};
use std::alloc::Global;

/// A step that is searched, the place of its next parent, and whether it met no older step.
#[derive(Clone, Copy)]
struct Call {
    step: u32,
    place: usize,
    oldest: bool,
}

/// The ranks so far, 0 where a step wasn't met, the steps that are searched, those that wait for the end of
/// their component, the rank of the next step that is met, and that of the next component that ends.
#[derive(Drop)]
struct Search {
    ranks: Vec<u32>,
    calls: Vec<Call>,
    waiting: Vec<u32>,
    met: u32,
    ended: u32,
}

/// The rank of a step, 0 where it has none.
pub fn rank_of(ranks: &[u32], step: u32) -> u32
    ensures { result ≡ get_or ranks.now step 0 }
{
    ranks.get(step as usize).copied().unwrap_or(0)
}

fn set_rank(ranks: &mut Vec<u32>, step: u32, rank: u32) {
    if let Some(place) = ranks.get_mut(step as usize) {
        *place = rank;
    }
}

/// A step is met, and its parents are searched next.
fn enter(search: &mut Search, step: u32) -> Result<(), NoMemory> {
    set_rank(&mut search.ranks, step, search.met);
    search.met = search.met.saturating_add(1);
    search.calls.push(Call {
        step,
        place: 0,
        oldest: true,
    })?;
    Ok(())
}

/// Takes the step that waits last, where its rank is at least this.
fn take_waiting(search: &mut Search, rank: u32) -> Option<u32> {
    let step = *search.waiting.last()?;
    if rank_of(search.ranks.as_slice(), step) < rank {
        return None;
    }
    search.waiting.pop()
}

/// The component whose oldest step this is ends: each of its steps gets the component's rank.
fn end_component(search: &mut Search, oldest: u32) {
    let rank = rank_of(search.ranks.as_slice(), oldest);
    for _ in 0..u64::MAX {
        let Some(step) = take_waiting(search, rank) else {
            break;
        };
        set_rank(&mut search.ranks, step, search.ended);
        search.met = search.met.saturating_sub(1);
    }
    set_rank(&mut search.ranks, oldest, search.ended);
    search.met = search.met.saturating_sub(1);
    search.ended = search.ended.saturating_sub(1);
}

/// A parent that was met before: where it has the smaller rank, the step takes that.
fn compare(search: &mut Search, call: Call, rank: u32) -> Result<(), NoMemory> {
    let younger = rank < rank_of(search.ranks.as_slice(), call.step);
    if younger {
        set_rank(&mut search.ranks, call.step, rank);
    }
    search.calls.push(Call {
        step: call.step,
        place: call.place.saturating_add(1),
        oldest: call.oldest && !younger,
    })?;
    Ok(())
}

/// Looks at the next parent of the step that is searched; where there is none, the step is done.
fn turn(search: &mut Search, rows: &[Seq<u32>], call: Call) -> Result<(), NoMemory> {
    let Some(parent) = parents_at(rows, call.step).get(call.place).copied() else {
        if call.oldest {
            end_component(search, call.step);
        } else {
            search.waiting.push(call.step)?;
        }
        return Ok(());
    };
    match rank_of(search.ranks.as_slice(), parent) {
        0 => {
            search.calls.push(call)?;
            enter(search, parent)
        }
        rank => compare(search, call, rank),
    }
}

/// Searches what walks reach from the step and wasn't met.
fn search_from(search: &mut Search, rows: &[Seq<u32>], step: u32) -> Result<(), NoMemory> {
    if rank_of(search.ranks.as_slice(), step) != 0 {
        return Ok(());
    }
    enter(search, step)?;
    for _ in 0..u64::MAX {
        let Some(call) = search.calls.pop() else {
            break;
        };
        turn(search, rows, call)?;
    }
    Ok(())
}

/// A rank for each step: the steps of a component have one, and a component has a greater one than those
/// from which walks lead to it.
pub fn guessed_ranks(alloc: Global, rows: &[Seq<u32>]) -> Result<Vec<u32>, NoMemory> {
    let Ok(count) = u32::try_from(rows.len()) else {
        return Err(NoMemory);
    };
    let mut search = Search {
        ranks: vec![in alloc; 0; rows.len() + 1]?,
        calls: Vec::new(alloc),
        waiting: Vec::new(alloc),
        met: 1,
        ended: u32::MAX,
    };
    for place in 0..count {
        search_from(&mut search, rows, place + 1)?;
    }
    Ok(search.ranks)
}
