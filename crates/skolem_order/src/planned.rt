//! The Skolem terms that a plan needs.
#![tactic(auto)]

ghost use Rattle.std.specs.Prelude.{◌<◌, length, IfOk};
ghost use Rattle.skolem_order.specs.Order.{AreGround, AreNeeded, root_terms};
ghost use Rattle.skolem_order.specs.Ranks.{AreInOrder};

use crate::closing::close;
use crate::origins::{Origin, Origins};
use crate::ranking::{put_in_order, skolem_terms, terms_of};
use crate::roots::enter_roots;
use dk_syntax::{Literal, NoMemory, Seq, Term, TermTable};
use expansion::Thin;
use std::alloc::Global;

/// The Skolem terms that stand in the terms of the thin trees and of the clauses, and with each
/// those that stand in its arguments and in its origin formula: each once, by depth, then by rank,
/// then by the order of terms.
pub fn needed(
    alloc: Global,
    o: &Origins,
    thins: &Seq<Thin>,
    clauses: &Seq<Seq<Literal>>,
) -> Result<Seq<Term>, NoMemory>
    ensures needed { IfOk result (λ order. AreGround (root_terms thins.now clauses.now)
        → AreNeeded o.now.list (root_terms thins.now clauses.now) order) }
    ensures short { IfOk result (λ order. length order < 4294967296) }
{
    let origins = o.list.as_slice();
    let mut table = TermTable::new(alloc)?;
    enter_roots(alloc, &mut table, thins.as_slice(), clauses.as_slice())?;
    close(alloc, &mut table, origins)?;
    in_order(alloc, &table, origins)
}

/// The Skolem terms of the table in their order.
fn in_order(alloc: Global, table: &TermTable, origins: &[Origin]) -> Result<Seq<Term>, NoMemory>
    ensures order { IfOk result (λ order. AreInOrder origins.now table.now order) }
    ensures short { IfOk result (λ order. length order < 4294967296) }
{
    let _length = table.len();
    let mut list = skolem_terms(alloc, table, origins)?;
    put_in_order(&mut list)?;
    terms_of(alloc, list)
}
