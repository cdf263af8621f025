//! Tables that have with each Skolem term those of the existentials around its origin.
#![tactic(auto)]

ghost use Rattle.std.specs.Prelude.{◌≡◌, ◌<◌, length, map, IfOk, OnOk};
ghost use Rattle.dk_syntax.specs.TermTables.{term_of};
ghost use Rattle.expansion.specs.Choices.{skolem_term};
ghost use Rattle.skolem_order.specs.Closing.{HasClosed};
ghost use Rattle.skolem_order.specs.Origins.{spot_of};
ghost use Rattle.skolem_order.specs.Sites.{site_at, terms_outside};
ghost use Rattle.skolem_order.specs.Tables.{HasEntered};
ghost use Rattle.skolem_order.specs.Walks.{universals_of};

use crate::entering::enter_all;
use crate::origins::{Origin, origin_for};
use crate::sites::site_of;
use crate::values::{Source, existential_term};
use dk_syntax::{NoMemory, Seq, Term, TermTable};
use std::alloc::Global;

/// Puts in what the Skolem terms of the table need, and what these need. A table has fewer than 2 ^
/// 32 terms, so that this ends.
pub fn close(alloc: Global, table: &mut TermTable, origins: &[Origin]) -> Result<(), NoMemory>
    ensures { OnOk result (HasClosed origins.now table.old table.new) }
{
    let mut next = 0;
    while next < table.len() {
        enter_outside(alloc, table, origins, next)?;
        next += 1;
    }
    Ok(())
}

/// Puts in the Skolem terms of the existentials around the origin of a term, those that are free in
/// it.
fn enter_outside(
    alloc: Global,
    table: &mut TermTable,
    origins: &[Origin],
    number: u32,
) -> Result<(), NoMemory>
    requires { number < length table.old }
    ensures { OnOk result (HasEntered table.old
        (terms_outside origins.now (term_of table.old number)) table.new) }
{
    let term = table.term(alloc, number)?;
    let outside = outside(alloc, origins, &term)?;
    enter_all(alloc, table, outside.as_slice())?;
    Ok(())
}

/// The Skolem terms of the existentials around the origin of a term, those that are free in it.
fn outside(alloc: Global, origins: &[Origin], t: &Term) -> Result<Seq<Term>, NoMemory>
    ensures { IfOk result (λ terms. terms ≡ terms_outside origins.now t.now) }
{
    let Term::App(symbol, args) = t else {
        return Ok(Seq::new(alloc));
    };
    match origin_for(origins, symbol) {
        Some(origin) => outer_terms(alloc, &Source { origin, args }),
        None => Ok(Seq::new(alloc)),
    }
}

fn outer_terms(alloc: Global, source: &Source<'_>) -> Result<Seq<Term>, NoMemory>
    ensures { IfOk result (λ terms. terms ≡ map
        (skolem_term (universals_of source.now) source.now.origin.now.map.entries)
        (site_at (spot_of source.now.origin.now)).outer) }
{
    let site = site_of(alloc, source.origin)?;
    let mut terms = Seq::new(alloc);
    for number in site.outer.as_slice() {
        terms.push(existential_term(alloc, source, *number)?)?;
    }
    Ok(terms)
}
