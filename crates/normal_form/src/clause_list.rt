//! Clause lists.
#![tactic(auto, using(crate::proofs::ListTotals::list_steps))]

ghost use Rattle.std.specs.Prelude.{◌≡◌, ◌≤◌, ℕ, map, length, IfErr, IfOk};
ghost use Rattle.normal_form.specs.ClauseLists.{clause_rows, literal_count, row_of};
ghost use Rattle.normal_form.specs.ClauseTruth.{ClausesFollow, ClausesSuffice};
ghost use Rattle.normal_form.specs.Faults.{ListFault};

use crate::form::Nf;
use crate::numbering::number_row;
use crate::raw::{Raw, raw_rows};
use crate::totals::count_rows;
use dk_syntax::{Clause, NoMemory, Seq};
use std::alloc::Global;

/// A clause, the universal that each of its variables belongs to, by its preorder number among the
/// form's universals, and the sides taken at the conjunctions in preorder, true for the right one.
#[derive(Drop)]
pub struct ClauseRow {
    pub clause: Clause,
    pub quants: Seq<u32>,
    pub picks: Seq<bool>,
}

#[derive(Drop)]
pub struct ClauseList {
    pub rows: Seq<ClauseRow>,
}

/// Why there is no clause list. A count is the true one, or the greatest `u64` where that is greater.
#[derive(Clone, Copy, Debug, PartialEq, Eq)]
pub enum ClauseFault {
    /// It has more than 4,096 clauses.
    TooManyClauses { count: u64 },
    /// It has no more than 4,096 clauses, but they have more than 65,536 literals.
    TooManyLiterals { count: u64 },
    Memory,
}

/// The clause list of a closed form without existentials. Its clauses and literals are counted
/// before any is built. Each is true wherever the form is, and the form wherever all of them are.
pub fn clauses(alloc: Global, nf: &Nf) -> Result<ClauseList, ClauseFault>
    ensures rows { IfOk result (λ list. list.rows ≡ clause_rows nf.now) }
    ensures clauses { IfOk result (λ list. length list.rows ≤ 4096) }
    ensures literals { IfOk result (λ list. literal_count list.rows ≤ 65536) }
    ensures truth { IfOk result (λ list. ClausesFollow ℕ nf.now list.rows) }
    ensures suffices { IfOk result (λ list. ClausesSuffice ℕ nf.now list.rows) }
    ensures fault { IfErr result (λ fault. ListFault nf.now fault) }
{
    let totals = count_rows(nf);
    if totals.clauses > 4096 {
        return Err(ClauseFault::TooManyClauses {
            count: totals.clauses,
        });
    }
    if totals.literals > 65_536 {
        return Err(ClauseFault::TooManyLiterals {
            count: totals.literals,
        });
    }
    match build(alloc, nf) {
        Ok(rows) => Ok(ClauseList { rows }),
        Err(NoMemory) => Err(ClauseFault::Memory),
    }
}

/// Over each domain, the clauses of a form's list are true wherever the form is.
pub fn clauses_follow<D>(nf: &Nf, list: &ClauseList)
    requires { list.now.rows ≡ clause_rows nf.now }
    ensures { ClausesFollow D nf.now list.now.rows }
{}

/// Over each domain, a closed form without existentials is true wherever the clauses of its list are.
pub fn clauses_suffice<D>(nf: &Nf, list: &ClauseList)
    requires { list.now.rows ≡ clause_rows nf.now }
    ensures { ClausesSuffice D nf.now list.now.rows }
{}

fn build(alloc: Global, nf: &Nf) -> Result<Seq<ClauseRow>, NoMemory>
    ensures { IfOk result (λ rows. rows ≡ clause_rows nf.now) }
{
    let raw = raw_rows(alloc, nf)?;
    number_rows(alloc, raw)
}

fn number_rows(alloc: Global, raw: Vec<Raw>) -> Result<Seq<ClauseRow>, NoMemory>
    ensures { IfOk result (λ rows. rows ≡ map row_of raw.items) }
{
    let mut rows = Seq::from_vec(Vec::new(alloc));
    for one in raw {
        rows.push(number_row(alloc, one)?)?;
    }
    Ok(rows)
}
