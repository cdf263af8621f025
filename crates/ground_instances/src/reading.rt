//! Instances written out, and what they weigh.
ghost use Rattle.std.specs.Prelude.{◌≡◌, ◌<◌, ◌+◌, ℕ, length, slice_get, sum_by, Some, IfOk, MatchOption};
ghost use Rattle.std.specs.List.{All};
ghost use Rattle.dk_syntax.specs.Depth.{capped};
ghost use Rattle.ground_instances.specs.Instances.{clauses_in, IsFirstWide, IsWide};
ghost use Rattle.ground_instances.specs.Lists.{HasExactTable, instances_of};
ghost use Rattle.ground_instances.specs.Rows.{AreBelow, AreLiteralsBelow, AreRowsBelow, instances_by, IsRowBelow, literal_by, literals_by, terms_by, written};
ghost use Rattle.ground_instances.specs.Weights.{IsWeight, literal_size, tree_weight, weight_by};

use crate::instance::{Instance, Instances, Row, RowLit};
use dk_syntax::{Literal, NoMemory, Seq, Term, TermTable};
use std::alloc::Global;

/// The terms of the numbers.
fn terms_at(alloc: Global, table: &TermTable, numbers: &[u32]) -> Result<Seq<Term>, NoMemory>
    requires { AreBelow (length table.now) numbers.now }
    ensures { IfOk result (λ terms. terms ≡ terms_by table.now numbers.now) }
{
    let mut terms = Seq::new(alloc);
    for number in numbers {
        terms.push(table.term(alloc, *number)?)?;
    }
    Ok(terms)
}

/// The literals with their terms written out.
fn literals_at(alloc: Global, table: &TermTable, lits: &[RowLit]) -> Result<Seq<Literal>, NoMemory>
    requires { AreLiteralsBelow (length table.now) lits.now }
    ensures { IfOk result (λ literals. literals ≡ literals_by table.now lits.now) }
{
    let mut literals = Seq::new(alloc);
    for one in lits {
        literals.push(Literal {
            positive: one.positive,
            pred: one.pred.copy(alloc)?,
            args: terms_at(alloc, table, one.args.as_slice())?,
        })?;
    }
    Ok(literals)
}

/// The instance of the row, with its terms written out.
fn written_row(alloc: Global, table: &TermTable, row: &Row) -> Result<Instance, NoMemory>
    requires { IsRowBelow (length table.now) row.now }
    ensures { IfOk result (λ it. it ≡ written table.now row.now) }
{
    let terms = terms_at(alloc, table, row.terms.as_slice())?;
    let lits = literals_at(alloc, table, row.lits.as_slice())?;
    Ok(Instance {
        step: row.step,
        stage: row.stage,
        clause: row.clause,
        terms,
        lits,
        needs: Seq::from_vec(Vec::from_slice(alloc, row.needs.as_slice())?),
    })
}

/// The instance of that number, with its terms written out as trees.
pub fn instance_at(alloc: Global, list: &Instances, j: u32) -> Result<Instance, NoMemory>
    requires { j < length list.now.rows }
    ensures { IfOk result (λ it. slice_get (instances_of list.now) j ≡ Some it) }
{
    let rows = list.rows.as_slice();
    let row = &rows[j as usize];
    let it = written_row(alloc, &list.table, row)?;
    Ok(it)
}

/// How many literals the rows have together, or the greatest `u64` where they are more.
fn count_literals(rows: &[Row]) -> u64
    ensures { result ≡ capped (sum_by (λ row. length row.lits) rows.now) }
{
    let mut total = 0;
    for row in rows {
        total = (row.lits.len() as u64).saturating_add(total);
    }
    total
}

/// The number of instances, of the literals of their clauses, and of the terms of the table, or the greatest `u64` where
/// that is less. Where the table has exactly the terms of the clauses, it is the weight of the instances. It takes no memory.
pub fn weight(list: &Instances) -> u64
    ensures counted { result ≡ capped (weight_by (clauses_in (instances_of list.now)) list.now.table) }
    ensures weight { HasExactTable list.now → (weight : ℕ)
        → IsWeight (clauses_in (instances_of list.now)) weight → result ≡ capped weight }
{
    let literals = count_literals(list.rows.as_slice());
    let some = literals.saturating_add(u64::from(list.table.len()));
    (list.rows.len() as u64).saturating_add(some)
}

/// The size of a literal, or the greatest `u64` where that is less.
fn literal_size_of(table: &TermTable, one: &RowLit) -> u64
    requires { AreBelow (length table.now) one.now.args }
    ensures { result ≡ capped (literal_size (literal_by table.now one.now)) }
{
    let mut total: u64 = 1;
    for arg in one.args.as_slice() {
        total = table.size(*arg).saturating_add(total);
    }
    total
}

/// The tree weight of a row, or the greatest `u64` where that is less. Sizes are the table's, so nothing is written out.
fn tree_weight_of(table: &TermTable, lits: &[RowLit]) -> u64
    requires { AreLiteralsBelow (length table.now) lits.now }
    ensures { result ≡ capped (tree_weight (literals_by table.now lits.now)) }
{
    let mut total: u64 = 1;
    for one in lits {
        total = literal_size_of(table, one).saturating_add(total);
    }
    total
}

/// The step of the first instance with a tree weight above 1,000,000.
pub fn first_wide(table: &TermTable, rows: &[Row]) -> Option<u32>
    requires { AreRowsBelow table.now rows.now }
    ensures { MatchOption result (All (λ it. IsWide it → ⊥) (instances_by table.now rows.now))
        (λ step. IsFirstWide (instances_by table.now rows.now) step) }
{
    for row in rows {
        if tree_weight_of(table, row.lits.as_slice()) > 1_000_000 {
            return Some(row.step);
        }
    }
    None
}
