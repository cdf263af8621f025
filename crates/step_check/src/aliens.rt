//! Symbols of a step that its parents don't have.
#![tactic(auto, using(dk_syntax::proofs::FirstOccurrences::symbol_steps))]

ghost use Rattle.std.specs.Prelude.{◌≡◌, ◌||◌, not, filter, map, IfOk, OnOk};
ghost use Rattle.dk_syntax.specs.Symbols.{joined};
ghost use Rattle.dk_syntax.specs.declared.SymKey.{SymKey as Symbol};
ghost use Rattle.step_check.specs.Notes.{case_given};
ghost use Rattle.step_check.specs.Steps.{stands_in, step_in, symbols_of_step};
ghost use Rattle.step_check.specs.Steps as spec;

use crate::given::{Given, parents_at, step_at};
use dk_syntax::{NoMemory, Seq, SymKey, add_formula, symbols_of};
use indexmap::IndexSet;
use std::alloc::Global;

/// Adds the symbols of a step's formula.
fn add_symbols(
    alloc: Global,
    given: &Given<'_>,
    known: &mut IndexSet<SymKey>,
    number: u32,
) -> Result<(), NoMemory>
    ensures { OnOk result ((symbol : Symbol) → stands_in known.new.keys symbol
        ≡ stands_in known.old.keys symbol
        || stands_in (symbols_of_step (step_in given.now.steps.now number)) symbol) }
{
    match step_at(given.steps, number) {
        Some(step) => {
            add_formula(alloc, known, &step.formula)?;
            Ok(())
        }
        None => Ok(()),
    }
}

/// The symbols of the formulas of these steps.
fn symbols_in(
    alloc: Global,
    given: &Given<'_>,
    numbers: &[u32],
) -> Result<IndexSet<SymKey>, NoMemory>
    ensures { IfOk result (λ known. (symbol : Symbol) → stands_in known.keys symbol
        ≡ stands_in (joined (map (λ q. symbols_of_step (step_in given.now.steps.now q))
        numbers.now)) symbol) }
{
    let mut known = IndexSet::new(alloc);
    for number in numbers {
        add_symbols(alloc, given, &mut known, *number)?;
    }
    Ok(known)
}

/// Whether the symbol is known.
fn is_known(known: &IndexSet<SymKey>, symbol: &SymKey) -> bool
    ensures { result ≡ stands_in known.now.keys symbol.now }
{
    known.contains(symbol)
}

/// The symbols that aren't known.
fn unknown(
    alloc: Global,
    symbols: Seq<SymKey>,
    known: &IndexSet<SymKey>,
) -> Result<Seq<SymKey>, NoMemory>
    ensures { IfOk result (λ aliens. aliens
        ≡ filter (λ symbol. not (stands_in known.now.keys symbol)) symbols) }
{
    let mut aliens = Seq::new(alloc);
    for symbol in symbols.into_vec() {
        if !is_known(known, &symbol) {
            aliens.push(symbol)?;
        }
    }
    Ok(aliens)
}

/// The symbols of a step's formula that no parent's formula has, by first occurrence.
pub fn aliens_of(alloc: Global, given: &Given<'_>, number: u32) -> Result<Seq<SymKey>, NoMemory>
    ensures { IfOk result (λ aliens. aliens ≡ spec.aliens_of (case_given given.now) number) }
{
    let Some(step) = step_at(given.steps, number) else {
        return Ok(Seq::new(alloc));
    };
    let symbols = symbols_of(alloc, &step.formula)?;
    let known = symbols_in(alloc, given, parents_at(given.rows, number))?;
    let aliens = unknown(alloc, symbols, &known)?;
    Ok(aliens)
}
