//! The search for the least chain: the clauses of the next list in order, both signs, and what is taken, so that what is
//! found first is the least.
ghost use Rattle.std.specs.Prelude.{◌≡◌, ◌+◌, ◌∷◌, [], ℕ, length, true, IfOk};
ghost use Rattle.step_clause.specs.Justifications.{AreNumbered, IsNumbered, IsNumberedList};
ghost use Rattle.step_chain.specs.Chains.{alone};
ghost use Rattle.step_chain.specs.Pairs.{HasChosen};
ghost use Rattle.step_chain.specs.Resolving.{IsPair};
ghost use Rattle.step_chain.specs.Search.{ByNumber, chain_with, HasBranchOf, HasChoice, HasContinuation, HasLink, HasSignedLink, IsLeastOf};
ghost use Rattle.step_chain.specs.Symbols.{IsNotFromLast};

use crate::chain::Chain;
use crate::choosing::Chosen;
use crate::numbering::number_of;
use crate::pair::Pair;
use crate::resolvent::{Resolvent, resolve_pair};
use crate::symbols::is_hopeless;
use dk_syntax::{Clause, NoMemory, Seq};
use normal_form::{ClauseList, ClauseRow};
use std::alloc::Global;
use step_clause::justify;

fn list_alone(alloc: Global, clause: &Clause) -> Result<ClauseList, NoMemory>
    ensures { IfOk result (λ list. list ≡ alone clause.now) }
{
    let clause = clause.copy(alloc)?;
    let row = ClauseRow {
        clause,
        quants: Seq::from_vec(Vec::new(alloc)),
        picks: Seq::from_vec(Vec::new(alloc)),
    };
    let mut rows = Seq::from_vec(Vec::new(alloc));
    rows.push(row)?;
    Ok(ClauseList { rows })
}

fn copy_row(alloc: Global, row: &ClauseRow) -> Result<ClauseRow, NoMemory>
    ensures { IfOk result (λ copy. copy ≡ row.now) }
{
    Ok(ClauseRow {
        clause: row.clause.copy(alloc)?,
        quants: Seq::from_vec(Vec::from_slice(alloc, row.quants.as_slice())?),
        picks: Seq::from_vec(Vec::from_slice(alloc, row.picks.as_slice())?),
    })
}

fn copy_list(alloc: Global, list: &ClauseList) -> Result<ClauseList, NoMemory>
    ensures { IfOk result (λ copy. copy ≡ list.now) }
{
    let mut rows = Seq::from_vec(Vec::new(alloc));
    for row in list.rows.as_slice() {
        rows.push(copy_row(alloc, row)?)?;
    }
    Ok(ClauseList { rows })
}

fn list_pair(alloc: Global, clause: &Clause, last: &ClauseList) -> Result<Seq<ClauseList>, NoMemory>
    ensures { IfOk result (λ lists. lists ≡ alone clause.now ∷ last.now ∷ []) }
{
    let first = list_alone(alloc, clause)?;
    let second = copy_list(alloc, last)?;
    let mut lists = Seq::from_vec(Vec::new(alloc));
    lists.push(first)?;
    lists.push(second)?;
    Ok(lists)
}

fn list_single(alloc: Global, list: &ClauseList) -> Result<Seq<ClauseList>, NoMemory>
    ensures { IfOk result (λ lists. lists ≡ list.now ∷ []) }
{
    let list = copy_list(alloc, list)?;
    let mut lists = Seq::from_vec(Vec::new(alloc));
    lists.push(list)?;
    Ok(lists)
}

/// Whether the target doesn't follow from the last list alone.
pub fn needs_middle(alloc: Global, target: &Clause, rest: &[ClauseList]) -> Result<bool, NoMemory>
    requires target { IsNumbered target.now }
    requires rest { AreNumbered rest.now }
    ensures { IfOk result (λ needs. needs ≡ true → IsNotFromLast target.now rest.now) }
{
    match rest.split_last() {
        None => Ok(false),
        Some((last, _front)) => {
            let lists = list_single(alloc, last)?;
            let found = justify(alloc, target, &lists)?;
            match found {
                Some(_) => Ok(false),
                None => Ok(true),
            }
        }
    }
}

/// The justification of the target from the last middle clause alone and the last list.
fn finish(
    alloc: Global,
    target: &Clause,
    middle: &Clause,
    last: &ClauseList,
) -> Result<Option<Chain>, NoMemory>
    requires target { IsNumbered target.now }
    requires middle { IsNumbered middle.now }
    requires last { IsNumberedList last.now }
    ensures { IfOk result (λ answer. (number : ℕ)
        → IsLeastOf (HasContinuation target.now number middle.now (last.now ∷ [])) answer) }
{
    let lists = list_pair(alloc, middle, last)?;
    let found = justify(alloc, target, &lists)?;
    match found {
        None => Ok(None),
        Some(step) => {
            let mut steps = Seq::from_vec(Vec::new(alloc));
            steps.push(step)?;
            let mids = Seq::from_vec(Vec::new(alloc));
            Ok(Some(Chain { mids, steps }))
        }
    }
}

/// The chain with one more middle clause before the others.
fn with_first(first: Resolvent, chain: Chain) -> Result<Chain, NoMemory>
    ensures { IfOk result (λ all. all ≡ chain_with (first.clause ∷ chain.mids)
        (first.step ∷ chain.steps)) }
{
    let Resolvent { clause, step } = first;
    let Chain { mids, steps } = chain;
    let mut mids = mids.into_vec();
    mids.insert(0, clause)?;
    let mut steps = steps.into_vec();
    steps.insert(0, step)?;
    Ok(Chain {
        mids: Seq::from_vec(mids),
        steps: Seq::from_vec(steps),
    })
}

/// The least continuation by the literals that are taken.
#[cycle(search)]
fn branch(
    alloc: Global,
    target: &Clause,
    first: &Clause,
    second: &Clause,
    pair: &Pair,
    chosen: &Chosen,
    later: &[ClauseList],
    needs: bool,
) -> Result<Option<Chain>, NoMemory>
    requires target { IsNumbered target.now }
    requires first { IsNumbered first.now }
    requires second { IsNumbered second.now }
    requires later { AreNumbered later.now }
    requires pair { IsPair first.now second.now pair.now }
    requires chosen { HasChosen pair.now.slots chosen.now }
    requires all { length chosen.now.taken ≡ length pair.now.slots }
    requires needs { needs ≡ true → IsNotFromLast target.now later.now }
    ensures { IfOk result (λ answer. IsLeastOf
        (HasBranchOf target.now later.now first.now second.now pair.now chosen.now.taken) answer) }
{
    let made = resolve_pair(alloc, first, second, pair, chosen)?;
    match made {
        None => Ok(None),
        Some(it) => {
            let found = search(alloc, target, 0, &it.clause, later, needs)?;
            match found {
                None => Ok(None),
                Some(chain) => {
                    let all = with_first(it, chain)?;
                    Ok(Some(all))
                }
            }
        }
    }
}

/// The least continuation where some literals are taken or left and that many are still to be, left before taken.
#[cycle(search)]
fn choose(
    alloc: Global,
    target: &Clause,
    first: &Clause,
    second: &Clause,
    pair: &Pair,
    chosen: &Chosen,
    later: &[ClauseList],
    left: usize,
    needs: bool,
) -> Result<Option<Chain>, NoMemory>
    requires target { IsNumbered target.now }
    requires first { IsNumbered first.now }
    requires second { IsNumbered second.now }
    requires later { AreNumbered later.now }
    requires pair { IsPair first.now second.now pair.now }
    requires chosen { HasChosen pair.now.slots chosen.now }
    requires left { length chosen.now.taken + left ≡ length pair.now.slots }
    requires needs { needs ≡ true → IsNotFromLast target.now later.now }
    ensures { IfOk result (λ answer. IsLeastOf
        (HasChoice (HasBranchOf target.now later.now first.now second.now pair.now)
        (length pair.now.slots) chosen.now.taken) answer) }
{
    if left == 0 {
        let found = branch(alloc, target, first, second, pair, chosen, later, needs)?;
        return Ok(found);
    }
    let without = chosen.leave(alloc, pair.slots.as_slice())?;
    let found = choose(
        alloc,
        target,
        first,
        second,
        pair,
        &without,
        later,
        left - 1,
        needs,
    )?;
    match found {
        Some(chain) => Ok(Some(chain)),
        None => {
            let with = chosen.take(alloc, pair.slots.as_slice())?;
            match with {
                None => Ok(None),
                Some(next) => {
                    let taken = choose(
                        alloc,
                        target,
                        first,
                        second,
                        pair,
                        &next,
                        later,
                        left - 1,
                        needs,
                    )?;
                    Ok(taken)
                }
            }
        }
    }
}

/// The least continuation by a resolvent with a clause, where the first clause's literals of the sign are taken.
#[cycle(search)]
fn search_sign(
    alloc: Global,
    target: &Clause,
    number: u32,
    first: &Clause,
    other: u32,
    second: &Clause,
    sign: bool,
    later: &[ClauseList],
    needs: bool,
) -> Result<Option<Chain>, NoMemory>
    requires target { IsNumbered target.now }
    requires first { IsNumbered first.now }
    requires second { IsNumbered second.now }
    requires later { AreNumbered later.now }
    requires needs { needs ≡ true → IsNotFromLast target.now later.now }
    ensures { IfOk result (λ answer. IsLeastOf
        (HasSignedLink target.now later.now number first.now other second.now sign) answer) }
{
    let pair = Pair::new(alloc, number, first, other, second, sign)?;
    let vars = first.vars.checked_add(second.vars).ok_or(NoMemory)?;
    let chosen = Chosen::nothing(alloc, vars)?;
    let found = choose(
        alloc,
        target,
        first,
        second,
        &pair,
        &chosen,
        later,
        pair.slots.len(),
        needs,
    )?;
    Ok(found)
}

/// The least continuation by a resolvent with a clause.
#[cycle(search)]
fn search_clause(
    alloc: Global,
    target: &Clause,
    number: u32,
    first: &Clause,
    other: u32,
    second: &Clause,
    later: &[ClauseList],
    needs: bool,
) -> Result<Option<Chain>, NoMemory>
    requires target { IsNumbered target.now }
    requires first { IsNumbered first.now }
    requires second { IsNumbered second.now }
    requires later { AreNumbered later.now }
    requires needs { needs ≡ true → IsNotFromLast target.now later.now }
    ensures { IfOk result (λ answer. IsLeastOf
        (HasLink target.now later.now number first.now other second.now) answer) }
{
    let positive = search_sign(
        alloc, target, number, first, other, second, true, later, needs,
    )?;
    match positive {
        Some(chain) => Ok(Some(chain)),
        None => {
            let negative = search_sign(
                alloc, target, number, first, other, second, false, later, needs,
            )?;
            Ok(negative)
        }
    }
}

/// The least continuation by a resolvent with a clause of a list.
#[cycle(search)]
fn search_rows(
    alloc: Global,
    target: &Clause,
    number: u32,
    first: &Clause,
    next: &ClauseList,
    later: &[ClauseList],
    needs: bool,
) -> Result<Option<Chain>, NoMemory>
    requires target { IsNumbered target.now }
    requires first { IsNumbered first.now }
    requires next { IsNumberedList next.now }
    requires later { AreNumbered later.now }
    requires needs { needs ≡ true → IsNotFromLast target.now later.now }
    ensures { IfOk result (λ answer. IsLeastOf (ByNumber
        (λ other row. HasLink target.now later.now number first.now other row.clause) next.now.rows)
        answer) }
{
    let rows = next.rows.as_slice();
    for k in 0..rows.len() {
        let other = number_of(k)?;
        let found = search_clause(
            alloc,
            target,
            number,
            first,
            other,
            &rows[k].clause,
            later,
            needs,
        )?;
        if let Some(chain) = found {
            return Ok(Some(chain));
        }
    }
    Ok(None)
}

/// The least continuation from a middle clause over the lists of the parents to come.
#[cycle(search)]
pub fn search(
    alloc: Global,
    target: &Clause,
    number: u32,
    middle: &Clause,
    rest: &[ClauseList],
    needs: bool,
) -> Result<Option<Chain>, NoMemory>
    requires target { IsNumbered target.now }
    requires middle { IsNumbered middle.now }
    requires rest { AreNumbered rest.now }
    requires needs { needs ≡ true → IsNotFromLast target.now rest.now }
    ensures { IfOk result (λ answer. IsLeastOf
        (HasContinuation target.now number middle.now rest.now) answer) }
{
    if is_hopeless(target, middle, rest, needs) {
        return Ok(None);
    }
    match rest.split_first() {
        None => Ok(None),
        Some((next, later)) => {
            if later.is_empty() {
                let found = finish(alloc, target, middle, next)?;
                return Ok(found);
            }
            let found = search_rows(alloc, target, number, middle, next, later, needs)?;
            Ok(found)
        }
    }
}
