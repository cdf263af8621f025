//! Variables by first occurrence.
#![tactic(auto, using(crate::proofs::FirstNumbers::number_steps))]

ghost use Rattle.std.specs.Prelude.{◌≡◌, map, IfOk, OnOk};
ghost use Rattle.dk_syntax.specs.Symbols.{joined};
ghost use Rattle.normal_form.specs.ClauseLists.{literal_variables, quants_of, row_of, variables_of, with_number, with_numbers};

use crate::clause_list::ClauseRow;
use crate::raw::Raw;
use crate::rename::{in_range, rename_literals};
use dk_syntax::{Clause, Literal, NoMemory, Seq, Term};
use indexmap::IndexSet;
use std::alloc::Global;

/// A row whose clause has its own variables, numbered by first occurrence.
pub fn number_row(alloc: Global, raw: Raw) -> Result<ClauseRow, NoMemory>
    ensures { IfOk result (λ row. row ≡ row_of raw) }
{
    let Raw { lits, picks } = raw;
    let universals = universals_in(alloc, lits.as_slice())?;
    let lits = rename_literals(alloc, lits.as_slice(), &universals)?;
    let clause = Clause {
        vars: in_range(universals.len())?,
        lits,
    };
    let quants = Seq::from_vec(Vec::from_slice(alloc, universals.as_slice())?);
    Ok(ClauseRow {
        clause,
        quants,
        picks,
    })
}

/// The universals that occur in the literals, by first occurrence.
fn universals_in(alloc: Global, literals: &[Literal]) -> Result<IndexSet<u32>, NoMemory>
    ensures { IfOk result (λ universals. universals.keys ≡ quants_of literals.now) }
{
    let mut seen = IndexSet::new(alloc);
    for literal in literals {
        add_terms(&mut seen, literal.args.as_slice())?;
    }
    Ok(seen)
}

#[cycle(add_term)]
fn add_term(seen: &mut IndexSet<u32>, term: &Term) -> Result<(), NoMemory>
    ensures { OnOk result (seen.new.keys ≡ with_numbers seen.old.keys (variables_of term.now)) }
{
    match term {
        Term::Var(n) => add_number(seen, *n),
        Term::App(_, args) => add_terms(seen, args.as_slice()),
        Term::Any => Ok(()),
    }
}

#[cycle(add_term)]
fn add_terms(seen: &mut IndexSet<u32>, terms: &[Term]) -> Result<(), NoMemory>
    ensures { OnOk result (seen.new.keys ≡ with_numbers seen.old.keys
        (joined (map variables_of terms.now))) }
{
    for term in terms {
        add_term(seen, term)?;
    }
    Ok(())
}

fn add_number(seen: &mut IndexSet<u32>, n: u32) -> Result<(), NoMemory>
    ensures { OnOk result (seen.new.keys ≡ with_number seen.old.keys n) }
{
    seen.insert(n)?;
    Ok(())
}
