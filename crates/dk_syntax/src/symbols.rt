//! The symbols of formulas, looked up by hashes.
#![tactic(auto, using(crate::proofs::FirstOccurrences::symbol_steps))]

ghost use Rattle.std.specs.Prelude.{◌≡◌, map, IfOk, OnOk};
ghost use Rattle.dk_syntax.specs.Symbols.{first_symbols, formula_occurrences, joined, term_occurrences, with_symbol, with_symbols};

use crate::formula::Formula;
use crate::memory::NoMemory;
use crate::seq::Seq;
use crate::symbol::SymKey;
use crate::term::Term;
use indexmap::IndexSet;
use std::alloc::Global;

/// Each symbol of a formula once, by first occurrence from left to right, a symbol before its arguments.
pub fn symbols_of(alloc: Global, f: &Formula) -> Result<Seq<SymKey>, NoMemory>
    ensures { IfOk result (λ all. all ≡ first_symbols f.now) }
{
    let mut seen = IndexSet::new(alloc);
    add_formula(alloc, &mut seen, f)?;
    copy_symbols(alloc, seen.as_slice())
}

/// Adds the symbols of a formula, in order, that are not there yet.
pub fn add_formula(alloc: Global, seen: &mut IndexSet<SymKey>, f: &Formula) -> Result<(), NoMemory>
    ensures { OnOk result (seen.new.keys ≡ with_symbols seen.old.keys (formula_occurrences f.now)) }
{
    match f {
        Formula::True | Formula::False => Ok(()),
        Formula::Atom(symbol, args) => {
            add_symbol(alloc, seen, symbol)?;
            add_terms(alloc, seen, args.as_slice())
        }
        Formula::Not(a) | Formula::All(a) | Formula::Ex(a) => add_formula(alloc, seen, a.get()),
        Formula::And(a, b) => {
            add_formula(alloc, seen, a.get())?;
            add_formula(alloc, seen, b.get())
        }
        Formula::Or(a, b) => {
            add_formula(alloc, seen, a.get())?;
            add_formula(alloc, seen, b.get())
        }
        Formula::Imp(a, b) => {
            add_formula(alloc, seen, a.get())?;
            add_formula(alloc, seen, b.get())
        }
        Formula::Iff(a, b) => {
            add_formula(alloc, seen, a.get())?;
            add_formula(alloc, seen, b.get())
        }
    }
}

#[cycle(add_term)]
fn add_term(alloc: Global, seen: &mut IndexSet<SymKey>, term: &Term) -> Result<(), NoMemory>
    ensures { OnOk result (seen.new.keys ≡ with_symbols seen.old.keys (term_occurrences term.now)) }
{
    match term {
        Term::Var(_) | Term::Any => Ok(()),
        Term::App(symbol, args) => {
            add_symbol(alloc, seen, symbol)?;
            add_terms(alloc, seen, args.as_slice())
        }
    }
}

#[cycle(add_term)]
fn add_terms(alloc: Global, seen: &mut IndexSet<SymKey>, terms: &[Term]) -> Result<(), NoMemory>
    ensures { OnOk result (seen.new.keys ≡ with_symbols seen.old.keys
        (joined (map term_occurrences terms.now))) }
{
    for term in terms {
        add_term(alloc, seen, term)?;
    }
    Ok(())
}

fn add_symbol(alloc: Global, seen: &mut IndexSet<SymKey>, symbol: &SymKey) -> Result<(), NoMemory>
    ensures { OnOk result (seen.new.keys ≡ with_symbol seen.old.keys symbol.now) }
{
    if !seen.contains(symbol) {
        seen.insert(symbol.copy(alloc)?)?;
    }
    Ok(())
}

/// Copies each symbol of a list.
pub fn copy_symbols(alloc: Global, symbols: &[SymKey]) -> Result<Seq<SymKey>, NoMemory>
    ensures { IfOk result (λ all. all ≡ symbols.now) }
{
    let mut all = Seq::from_vec(Vec::with_capacity(alloc, symbols.len())?);
    for symbol in symbols {
        all.push(symbol.copy(alloc)?)?;
    }
    Ok(all)
}
