//! The terms of thin trees and clauses, put in a table.
#![tactic(auto)]

ghost use Rattle.std.specs.Prelude.{OnOk};
ghost use Rattle.skolem_order.specs.Order.{clause_terms, root_terms, thin_terms};
ghost use Rattle.std.specs.List.{flat_map};
ghost use Rattle.skolem_order.specs.Tables.{HasEntered};

use crate::entering::enter_all;
use dk_syntax::{Literal, NoMemory, Seq, TermTable};
use expansion::Thin;
use std::alloc::Global;

pub fn enter_roots(
    alloc: Global,
    table: &mut TermTable,
    thins: &[Thin],
    clauses: &[Seq<Literal>],
) -> Result<(), NoMemory>
    ensures { OnOk result (HasEntered table.old (root_terms thins.now clauses.now) table.new) }
{
    enter_thins(alloc, table, thins)?;
    enter_clauses(alloc, table, clauses)?;
    Ok(())
}

fn enter_thins(alloc: Global, table: &mut TermTable, thins: &[Thin]) -> Result<(), NoMemory>
    ensures { OnOk result (HasEntered table.old (flat_map thin_terms thins.now) table.new) }
{
    for thin in thins {
        enter_thin(alloc, table, thin)?;
    }
    Ok(())
}

fn enter_thin(alloc: Global, table: &mut TermTable, thin: &Thin) -> Result<(), NoMemory>
    ensures { OnOk result (HasEntered table.old (thin_terms thin.now) table.new) }
{
    enter_all(alloc, table, thin.terms.as_slice())?;
    enter_all(alloc, table, thin.skolems.as_slice())?;
    Ok(())
}

fn enter_clauses(
    alloc: Global,
    table: &mut TermTable,
    clauses: &[Seq<Literal>],
) -> Result<(), NoMemory>
    ensures { OnOk result (HasEntered table.old (flat_map clause_terms clauses.now) table.new) }
{
    for clause in clauses {
        enter_clause(alloc, table, clause.as_slice())?;
    }
    Ok(())
}

fn enter_clause(alloc: Global, table: &mut TermTable, clause: &[Literal]) -> Result<(), NoMemory>
    ensures { OnOk result (HasEntered table.old (clause_terms clause.now) table.new) }
{
    for literal in clause {
        enter_all(alloc, table, literal.args.as_slice())?;
    }
    Ok(())
}
