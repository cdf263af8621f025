//! Rows while they are made: a variable is the number of its universal.
#![tactic(auto, using(crate::proofs::MatrixLaws::matrix_steps))]

ghost use Rattle.std.specs.Prelude.{◌≡◌, ◌∷◌, ◌++◌, [], map, IfOk, OnOk};
ghost use Rattle.normal_form.specs.ClauseLists.{beside, pairs_of, raw, rows_of};
ghost use Rattle.normal_form.specs.Matrices.{rows_in};

use crate::form::Nf;
use crate::matrix::{Matrix, is_true, matrix_of};
use dk_syntax::{Literal, NoMemory, Seq, copy_literals};
use std::alloc::Global;

/// Literals, and the sides taken at conjunctions.
#[derive(Drop)]
pub struct Raw {
    pub lits: Seq<Literal>,
    pub picks: Seq<bool>,
}

impl Raw {
    fn empty(alloc: Global) -> Raw
        ensures { result ≡ raw [] [] }
    {
        Raw {
            lits: Seq::from_vec(Vec::new(alloc)),
            picks: Seq::from_vec(Vec::new(alloc)),
        }
    }

    fn copy(&self, alloc: Global) -> Result<Raw, NoMemory>
        ensures { IfOk result (λ row. row ≡ self.now) }
    {
        Ok(Raw {
            lits: copy_literals(alloc, self.lits.as_slice())?,
            picks: Seq::from_vec(Vec::from_slice(alloc, self.picks.as_slice())?),
        })
    }

    fn with_literal(self, literal: Literal) -> Result<Raw, NoMemory>
        ensures { IfOk result (λ row. row ≡ raw (self.lits ++ literal ∷ []) self.picks) }
    {
        let Raw { mut lits, picks } = self;
        lits.push(literal)?;
        Ok(Raw { lits, picks })
    }

    fn with_side(self, side: bool) -> Result<Raw, NoMemory>
        ensures { IfOk result (λ row. row ≡ raw self.lits (self.picks ++ side ∷ [])) }
    {
        let Raw { lits, mut picks } = self;
        picks.push(side)?;
        Ok(Raw { lits, picks })
    }
}

/// The rows of a form.
pub fn raw_rows(alloc: Global, nf: &Nf) -> Result<Vec<Raw>, NoMemory>
    ensures { IfOk result (λ rows. rows.items ≡ (rows_of nf.now).1 0 []) }
{
    let mut next = 0;
    let mut around = Vec::new(alloc);
    let matrix = matrix_of(alloc, nf, &mut next, &mut around)?;
    let mut rows = Vec::new(alloc);
    add_rows(alloc, &matrix, Raw::empty(alloc), &mut rows)?;
    Ok(rows)
}

/// Adds each row of a matrix, after the prefix, which is copied only where both sides have rows.
#[cycle(add_rows)]
fn add_rows(
    alloc: Global,
    matrix: &Matrix,
    prefix: Raw,
    rows: &mut Vec<Raw>,
) -> Result<(), NoMemory>
    ensures { OnOk result (rows.new.items ≡ rows.old.items
        ++ map (beside prefix) (rows_in matrix.now)) }
{
    match matrix {
        Matrix::True => Ok(()),
        Matrix::False => {
            rows.push(prefix)?;
            Ok(())
        }
        Matrix::Lit(literal) => {
            rows.push(prefix.with_literal(literal.copy(alloc)?)?)?;
            Ok(())
        }
        Matrix::And(a, b) if is_true(a.get()) => {
            add_rows(alloc, b.get(), prefix.with_side(true)?, rows)
        }
        Matrix::And(a, b) if is_true(b.get()) => {
            add_rows(alloc, a.get(), prefix.with_side(false)?, rows)
        }
        Matrix::And(a, b) => {
            let copy = prefix.copy(alloc)?;
            add_rows(alloc, a.get(), copy.with_side(false)?, rows)?;
            add_rows(alloc, b.get(), prefix.with_side(true)?, rows)
        }
        Matrix::Or(a, b) => {
            let mut lefts = Vec::new(alloc);
            add_rows(alloc, a.get(), prefix, &mut lefts)?;
            add_to_each(alloc, b.get(), lefts, rows)
        }
    }
}

#[cycle(add_rows)]
fn add_to_each(
    alloc: Global,
    matrix: &Matrix,
    prefixes: Vec<Raw>,
    rows: &mut Vec<Raw>,
) -> Result<(), NoMemory>
    ensures { OnOk result (rows.new.items ≡ rows.old.items
        ++ pairs_of prefixes.items (rows_in matrix.now)) }
{
    for prefix in prefixes {
        add_rows(alloc, matrix, prefix, rows)?;
    }
    Ok(())
}
