//! The search for the least picks, literal by literal, with the bindings of the literals before.
ghost use Rattle.std.specs.Prelude.{◌≡◌, ◌∷◌, length, IfOk, IsTrue, ◌↔◌};
ghost use Rattle.unifier.specs.Outcomes.{Sound};
ghost use Rattle.dk_syntax.specs.Terms.{EachBelow};
ghost use Rattle.step_clause.specs.Justifications.{LiteralsBelow};
ghost use Rattle.step_clause.specs.Search.{Fits, FitsAfter, FitsAsPivot, IsEnd, IsFound, IsFoundAtLiteral, PivotsBelow, SameAtom, SlotsBelow};

use crate::slots::{Pivots, Slot};
use crate::symbols::{may_fit, pivots_may_come, symbols_allow};
use dk_syntax::{Clause, Literal, NoMemory, Seq, Term};
use std::alloc::Global;
use unifier::{Bindings, extend_terms};

/// A pick for each literal, and the most general bindings for these picks.
#[derive(Drop)]
pub struct Found {
    pub picks: Seq<u32>,
    pub bindings: Bindings,
}

/// The same with a pick before the others.
fn with_first(alloc: Global, first: usize, found: Found) -> Result<Found, NoMemory>
    ensures picks { IfOk result (λ all. all.picks ≡ first ∷ found.picks) }
    ensures bindings { IfOk result (λ all. all.bindings ≡ found.bindings) }
{
    if first > 4294967295 {
        return Err(NoMemory);
    }
    let Found { picks, bindings } = found;
    let mut all = Vec::new(alloc);
    all.push(first as u32)?;
    all.extend_from_slice(picks.as_slice())?;
    let picks = Seq::from_vec(all);
    Ok(Found { picks, bindings })
}

/// No picks for no literals, where no pivot is wanted.
fn at_end(alloc: Global, s: &Bindings, pivots: &Pivots) -> Result<Option<Found>, NoMemory>
    ensures { IfOk result (λ answer. IsEnd pivots.now s.now.terms answer) }
{
    if pivots.wants_positive {
        return Ok(None);
    }
    if pivots.wants_negative {
        return Ok(None);
    }
    let bindings = s.copy(alloc)?;
    let picks = Seq::from_vec(Vec::new(alloc));
    Ok(Some(Found { picks, bindings }))
}

/// The least picks for the rest, where the atoms of `c` and `d` are equal.
#[cycle(search)]
fn search_atom(
    alloc: Global,
    target: &Clause,
    s: &Bindings,
    pivots: &Pivots,
    c: &Literal,
    d: &Literal,
    rest: &[Slot],
) -> Result<Option<Found>, NoMemory>
    requires sound { Sound target.now.vars s.now.terms }
    requires below_target { LiteralsBelow (length s.now.terms) target.now.lits }
    requires below_pivots { PivotsBelow (length s.now.terms) pivots.now.first }
    requires below_c { EachBelow (length s.now.terms) c.now.args }
    requires below_d { EachBelow (length s.now.terms) d.now.args }
    requires below_rest { SlotsBelow (length s.now.terms) rest.now }
    ensures { IfOk result (λ answer. IsFound target.now.vars
        (λ r qs. SameAtom r c.now d.now × Fits r target.now.lits pivots.now rest.now qs) s.now.terms
        answer) }
{
    if !c.pred.same(&d.pred) {
        return Ok(None);
    }
    let mut tried = s.copy(alloc)?;
    let same = extend_terms(
        alloc,
        &mut tried,
        c.args.as_slice(),
        d.args.as_slice(),
        target.vars,
    )?;
    if !same {
        return Ok(None);
    }
    let found = search(alloc, target, &tried, pivots, rest)?;
    Ok(found)
}

/// The least picks for the rest, where `c` and `d` are equal.
#[cycle(search)]
fn search_literal(
    alloc: Global,
    target: &Clause,
    s: &Bindings,
    pivots: &Pivots,
    c: &Literal,
    d: &Literal,
    rest: &[Slot],
) -> Result<Option<Found>, NoMemory>
    requires sound { Sound target.now.vars s.now.terms }
    requires below_target { LiteralsBelow (length s.now.terms) target.now.lits }
    requires below_pivots { PivotsBelow (length s.now.terms) pivots.now.first }
    requires below_c { EachBelow (length s.now.terms) c.now.args }
    requires below_d { EachBelow (length s.now.terms) d.now.args }
    requires below_rest { SlotsBelow (length s.now.terms) rest.now }
    ensures { IfOk result (λ answer. IsFound target.now.vars
        (FitsAfter target.now.lits pivots.now c.now d.now rest.now) s.now.terms answer) }
{
    if c.positive != d.positive {
        return Ok(None);
    }
    let found = search_atom(alloc, target, s, pivots, c, d, rest)?;
    Ok(found)
}

/// The least picks of which the first is that of a literal of the target.
#[cycle(search)]
fn search_literals(
    alloc: Global,
    target: &Clause,
    s: &Bindings,
    pivots: &Pivots,
    slot: &Slot,
    rest: &[Slot],
) -> Result<Option<Found>, NoMemory>
    requires sound { Sound target.now.vars s.now.terms }
    requires below_target { LiteralsBelow (length s.now.terms) target.now.lits }
    requires below_pivots { PivotsBelow (length s.now.terms) pivots.now.first }
    requires below_slot { EachBelow (length s.now.terms) slot.now.literal.args }
    requires below_rest { SlotsBelow (length s.now.terms) rest.now }
    ensures { IfOk result (λ answer. IsFoundAtLiteral target.now.vars target.now.lits pivots.now
        slot.now rest.now s.now.terms answer) }
{
    let ds = target.lits.as_slice();
    for p in 0..ds.len() {
        let found = search_literal(alloc, target, s, pivots, &slot.literal, &ds[p], rest)?;
        if let Some(f) = found {
            let all = with_first(alloc, p, f)?;
            return Ok(Some(all));
        }
    }
    Ok(None)
}

/// The least picks for the rest, where the literal is a pivot.
#[cycle(search)]
fn search_pivot(
    alloc: Global,
    target: &Clause,
    s: &Bindings,
    pivots: &Pivots,
    slot: &Slot,
    rest: &[Slot],
) -> Result<Option<Found>, NoMemory>
    requires sound { Sound target.now.vars s.now.terms }
    requires below_target { LiteralsBelow (length s.now.terms) target.now.lits }
    requires below_pivots { PivotsBelow (length s.now.terms) pivots.now.first }
    requires below_slot { EachBelow (length s.now.terms) slot.now.literal.args }
    requires below_rest { SlotsBelow (length s.now.terms) rest.now }
    ensures { IfOk result (λ answer. IsFound target.now.vars
        (FitsAsPivot target.now.lits pivots.now slot.now rest.now) s.now.terms answer) }
{
    if !slot.may_cut {
        return Ok(None);
    }
    let next = pivots.after(alloc, &slot.literal)?;
    match &pivots.first {
        Some(first) => {
            let found = search_atom(alloc, target, s, &next, &slot.literal, first, rest)?;
            Ok(found)
        }
        None => {
            if !may_fit(target, &next, rest) {
                return Ok(None);
            }
            let found = search(alloc, target, s, &next, rest)?;
            Ok(found)
        }
    }
}

/// The least picks for the literals, the target's literals before the pivot.
#[cycle(search)]
fn search(
    alloc: Global,
    target: &Clause,
    s: &Bindings,
    pivots: &Pivots,
    slots: &[Slot],
) -> Result<Option<Found>, NoMemory>
    requires sound { Sound target.now.vars s.now.terms }
    requires below_target { LiteralsBelow (length s.now.terms) target.now.lits }
    requires below_pivots { PivotsBelow (length s.now.terms) pivots.now.first }
    requires below_slots { SlotsBelow (length s.now.terms) slots.now }
    ensures { IfOk result (λ answer. IsFound target.now.vars
        (λ r qs. Fits r target.now.lits pivots.now slots.now qs) s.now.terms answer) }
{
    if !pivots_may_come(pivots, slots) {
        return Ok(None);
    }
    match slots.split_first() {
        None => {
            let end = at_end(alloc, s, pivots)?;
            Ok(end)
        }
        Some((slot, rest)) => {
            let found = search_literals(alloc, target, s, pivots, slot, rest)?;
            match found {
                Some(f) => Ok(Some(f)),
                None => {
                    let cut = search_pivot(alloc, target, s, pivots, slot, rest)?;
                    match cut {
                        Some(g) => {
                            let all = with_first(alloc, target.lits.len(), g)?;
                            Ok(Some(all))
                        }
                        None => Ok(None),
                    }
                }
            }
        }
    }
}

/// The same, with no search where signs and symbols tell that there are none.
pub fn least_picks(
    alloc: Global,
    target: &Clause,
    s: &Bindings,
    pivots: &Pivots,
    slots: &[Slot],
) -> Result<Option<Found>, NoMemory>
    requires sound { Sound target.now.vars s.now.terms }
    requires below_target { LiteralsBelow (length s.now.terms) target.now.lits }
    requires below_pivots { PivotsBelow (length s.now.terms) pivots.now.first }
    requires below_slots { SlotsBelow (length s.now.terms) slots.now }
    ensures { IfOk result (λ answer. IsFound target.now.vars
        (λ r qs. Fits r target.now.lits pivots.now slots.now qs) s.now.terms answer) }
{
    let allowed = symbols_allow(alloc, target, pivots, slots)?;
    if !allowed {
        return Ok(None);
    }
    let found = search(alloc, target, s, pivots, slots)?;
    Ok(found)
}
