//! The least chain from the lists of all parents.
ghost use Rattle.std.specs.Prelude.{◌≡◌, ◌≤◌, length, true, IfOk};
ghost use Rattle.step_clause.specs.Justifications.{AreNumbered, IsNumbered, IsNumberedList};
ghost use Rattle.step_chain.specs.Chains.{IsChainAnswer, IsOnlyAnswer};
ghost use Rattle.step_chain.specs.Search.{ByNumber, HasContinuation, IsLeastOf};
ghost use Rattle.step_chain.specs.Symbols.{IsNotFromLast};

use crate::chain::Chain;
use crate::numbering::number_of;
use crate::search::{needs_middle, search};
use dk_syntax::{Clause, NoMemory, Seq};
use normal_form::ClauseList;
use std::alloc::Global;

/// The least chain that begins at a clause of the first list.
fn search_starts(
    alloc: Global,
    target: &Clause,
    first: &ClauseList,
    rest: &[ClauseList],
    needs: bool,
) -> Result<Option<Chain>, NoMemory>
    requires target { IsNumbered target.now }
    requires first { IsNumberedList first.now }
    requires rest { AreNumbered rest.now }
    requires needs { needs ≡ true → IsNotFromLast target.now rest.now }
    ensures { IfOk result (λ answer. IsLeastOf (ByNumber
        (λ start row. HasContinuation target.now start row.clause rest.now) first.now.rows) answer) }
{
    let rows = first.rows.as_slice();
    for k in 0..rows.len() {
        let start = number_of(k)?;
        let found = search(alloc, target, start, &rows[k].clause, rest, needs)?;
        if let Some(chain) = found {
            return Ok(Some(chain));
        }
    }
    Ok(None)
}

/// The least chain from the clause lists of three to eight parents to the target, or `None` where there is none.
///
/// A chain begins at a clause of the first list. Each middle clause is an exact resolvent of the middle clause before it
/// and a clause of the next list: some literals of one sign are taken in the one and some of the other sign in the other,
/// whose atoms a most general solution makes equal; the rest of both, after the solution, are its literals, each once.
/// The target has a justification from the last middle clause alone and the last list. Chains are ordered by the number of
/// the first clause, and then for each resolvent by the number of the other clause, the sign (first the positive literals of
/// the middle clause), and what is taken in both, literal by literal, left before taken.
pub fn chain_of(
    alloc: Global,
    target: &Clause,
    parents: &Seq<ClauseList>,
) -> Result<Option<Chain>, NoMemory>
    requires target { IsNumbered target.now }
    requires parents { AreNumbered parents.now }
    requires few { 3 ≤ length parents.now }
    requires many { length parents.now ≤ 8 }
    ensures answer { IfOk result (λ answer. IsChainAnswer target.now parents.now answer) }
    ensures alone { IfOk result (λ answer. IsOnlyAnswer target.now parents.now answer) }
{
    match parents.as_slice().split_first() {
        None => Ok(None),
        Some((first, rest)) => {
            let needs = needs_middle(alloc, target, rest)?;
            let found = search_starts(alloc, target, first, rest, needs)?;
            Ok(found)
        }
    }
}
