//! Tests of signs and symbols, which end a search before choices are made that can't be completed.
ghost use Rattle.std.specs.Prelude.{◌↔◌, All, IfOk, IsTrue};
ghost use Rattle.step_clause.specs.Symbols.{AllowsPivot, AnyOf, HasRoom, HasPivotSymbol, MayBePicked, MayBePivot, MayBePivotOf, PivotsMayCome, SameSymbol};

use crate::slots::{Pivots, Slot};
use dk_syntax::{Clause, Literal, NoMemory};
use std::alloc::Global;

fn same_symbol(c: &Literal, d: &Literal) -> bool
    ensures { IsTrue result ↔ SameSymbol c.now d.now }
{
    c.positive == d.positive && c.pred.same(&d.pred)
}

/// Whether a literal of the target has the literal's sign and symbol.
fn has_mate(target: &Clause, c: &Literal) -> bool
    ensures { IsTrue result ↔ AnyOf (SameSymbol c.now) target.now.lits }
{
    for literal in target.lits.as_slice() {
        if same_symbol(c, literal) {
            return true;
        }
    }
    false
}

fn has_pivot_symbol(pivots: &Pivots, c: &Literal) -> bool
    ensures { IsTrue result ↔ HasPivotSymbol pivots.now.first c.now }
{
    match &pivots.first {
        Some(first) => c.pred.same(&first.pred),
        None => true,
    }
}

fn may_be_pivot(pivots: &Pivots, slot: &Slot) -> bool
    ensures { IsTrue result ↔ MayBePivot pivots.now.first slot.now }
{
    slot.may_cut && has_pivot_symbol(pivots, &slot.literal)
}

fn may_be_picked(target: &Clause, pivots: &Pivots, slot: &Slot) -> bool
    ensures { IsTrue result ↔ MayBePicked target.now.lits pivots.now.first slot.now }
{
    has_mate(target, &slot.literal) || may_be_pivot(pivots, slot)
}

/// Whether each literal has one in the target of its sign and symbol, or may be a pivot. If one does not,
/// then no substitution makes them fit.
pub fn may_fit(target: &Clause, pivots: &Pivots, slots: &[Slot]) -> bool
    ensures { IsTrue result ↔ All (MayBePicked target.now.lits pivots.now.first) slots.now }
{
    for slot in slots {
        if !may_be_picked(target, pivots, slot) {
            return false;
        }
    }
    true
}

/// Whether a literal of that sign may be a pivot.
fn has_pivot(pivots: &Pivots, slots: &[Slot], positive: bool) -> bool
    ensures { IsTrue result ↔ AnyOf (MayBePivotOf positive pivots.now.first) slots.now }
{
    for slot in slots {
        if slot.literal.positive == positive && may_be_pivot(pivots, slot) {
            return true;
        }
    }
    false
}

/// Whether each pivot that is wanted may still come. If one may not, then no picks fit.
pub fn pivots_may_come(pivots: &Pivots, slots: &[Slot]) -> bool
    ensures { IsTrue result ↔ PivotsMayCome pivots.now slots.now }
{
    if pivots.wants_positive && !has_pivot(pivots, slots, true) {
        return false;
    }
    if pivots.wants_negative && !has_pivot(pivots, slots, false) {
        return false;
    }
    true
}

/// Whether all pivots may be of that literal's symbol.
fn allows_pivot(
    alloc: Global,
    target: &Clause,
    pivots: &Pivots,
    slots: &[Slot],
    c: &Literal,
) -> Result<bool, NoMemory>
    ensures { IfOk result (λ allows. IsTrue allows
        ↔ AllowsPivot target.now.lits pivots.now slots.now c.now) }
{
    let first = c.copy(alloc)?;
    let pivots = Pivots {
        first: Some(first),
        wants_positive: pivots.wants_positive,
        wants_negative: pivots.wants_negative,
    };
    if !may_fit(target, &pivots, slots) {
        return Ok(false);
    }
    let may_come = pivots_may_come(&pivots, slots);
    Ok(may_come)
}

/// Whether signs and symbols leave room for each literal. Where one has none in the target of its sign and symbol,
/// all pivots are of its symbol. If there is no room, then no substitution makes any picks fit.
pub fn symbols_allow(
    alloc: Global,
    target: &Clause,
    pivots: &Pivots,
    slots: &[Slot],
) -> Result<bool, NoMemory>
    ensures { IfOk result (λ allows. IsTrue allows
        ↔ All (HasRoom target.now.lits pivots.now slots.now) slots.now) }
{
    for slot in slots {
        if !has_mate(target, &slot.literal) {
            let allows = allows_pivot(alloc, target, pivots, slots, &slot.literal)?;
            return Ok(allows);
        }
    }
    Ok(true)
}
