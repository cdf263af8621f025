//! Forms without their quantifiers.
#![tactic(auto, using(crate::proofs::MatrixLaws::matrix_steps))]

ghost use Rattle.std.specs.Prelude.{◌≡◌, ◌+◌, ◌∷◌, ◌++◌, [], map, reverse, true, false, IfOk, IsTrue, OnOk};
ghost use Rattle.normal_form.specs.ClauseLists.{pairs_of, raw, rows_of, taking};
ghost use Rattle.normal_form.specs.Matrices.{rows_in};

use crate::form::Nf;
use crate::rename::{Naming, inside, rename_literal};
use dk_syntax::{Boxed, Literal, NoMemory};
use std::alloc::Global;

/// A form whose variables are numbers of universals. `matrix_of` leaves out what lists no row, but for one side
/// of a conjunction, and `False` beside a disjunction's other side, so that whatever is walked adds to a row.
#[derive(Drop)]
pub enum Matrix {
    True,
    False,
    Lit(Literal),
    And(Boxed<Matrix>, Boxed<Matrix>),
    Or(Boxed<Matrix>, Boxed<Matrix>),
}

/// The matrix of a form whose first universal has the number `next`, inside the universals around,
/// the inmost last.
#[cycle(matrix_of)]
pub fn matrix_of(
    alloc: Global,
    nf: &Nf,
    next: &mut u32,
    around: &mut Vec<u32>,
) -> Result<Matrix, NoMemory>
    ensures rows { IfOk result (λ matrix. rows_in matrix
        ≡ (rows_of nf.now).1 next.old (reverse around.old.items)) }
    ensures next { OnOk result (next.new ≡ next.old + (rows_of nf.now).0) }
    ensures around { OnOk result (around.new.items ≡ around.old.items) }
{
    match nf {
        Nf::True => Ok(Matrix::True),
        Nf::False => Ok(Matrix::False),
        Nf::Lit(literal) => {
            let literal = rename_literal(alloc, literal, Naming::Owner(around.as_slice()))?;
            Ok(Matrix::Lit(literal))
        }
        Nf::And(a, b) => {
            let a = matrix_of(alloc, a.get(), next, around)?;
            let b = matrix_of(alloc, b.get(), next, around)?;
            conjunction(alloc, a, b)
        }
        Nf::Or(a, b) => {
            let a = matrix_of(alloc, a.get(), next, around)?;
            let b = matrix_of(alloc, b.get(), next, around)?;
            disjunction(alloc, a, b)
        }
        Nf::All(a) => matrix_of_body(alloc, a.get(), next, around),
        Nf::Ex(a) => {
            *next = after(*next, a.get())?;
            Ok(Matrix::True)
        }
    }
}

#[cycle(matrix_of)]
fn matrix_of_body(
    alloc: Global,
    body: &Nf,
    next: &mut u32,
    around: &mut Vec<u32>,
) -> Result<Matrix, NoMemory>
    ensures rows { IfOk result (λ matrix. rows_in matrix
        ≡ (rows_of body.now).1 (next.old + 1) (next.old ∷ reverse around.old.items)) }
    ensures next { OnOk result (next.new ≡ next.old + 1 + (rows_of body.now).0) }
    ensures around { OnOk result (around.new.items ≡ around.old.items) }
{
    around.push(*next)?;
    *next = inside(*next)?;
    let matrix = matrix_of(alloc, body, next, around)?;
    around.pop();
    Ok(matrix)
}

/// The number of the first universal after a form.
fn after(next: u32, nf: &Nf) -> Result<u32, NoMemory>
    ensures { IfOk result (λ number. number ≡ next + (rows_of nf.now).0) }
{
    match nf {
        Nf::True | Nf::False | Nf::Lit(_) => Ok(next),
        Nf::And(a, b) => after(after(next, a.get())?, b.get()),
        Nf::Or(a, b) => after(after(next, a.get())?, b.get()),
        Nf::All(a) => inside(after(next, a.get())?),
        Nf::Ex(a) => after(next, a.get()),
    }
}

fn conjunction(alloc: Global, a: Matrix, b: Matrix) -> Result<Matrix, NoMemory>
    ensures { IfOk result (λ matrix. rows_in matrix ≡ map (taking false) (rows_in a)
        ++ map (taking true) (rows_in b)) }
{
    if is_true(&a) && is_true(&b) {
        return Ok(Matrix::True);
    }
    Ok(Matrix::And(Boxed::new(alloc, a)?, Boxed::new(alloc, b)?))
}

fn disjunction(alloc: Global, a: Matrix, b: Matrix) -> Result<Matrix, NoMemory>
    ensures { IfOk result (λ matrix. rows_in matrix ≡ pairs_of (rows_in a) (rows_in b)) }
{
    if is_true(&a) || is_true(&b) {
        return Ok(Matrix::True);
    }
    if is_false(&a) {
        return Ok(b);
    }
    if is_false(&b) {
        return Ok(a);
    }
    Ok(Matrix::Or(Boxed::new(alloc, a)?, Boxed::new(alloc, b)?))
}

pub fn is_true(matrix: &Matrix) -> bool
    ensures { IsTrue result → rows_in matrix.now ≡ [] }
{
    matches!(matrix, Matrix::True)
}

fn is_false(matrix: &Matrix) -> bool
    ensures { IsTrue result → rows_in matrix.now ≡ raw [] [] ∷ [] }
{
    matches!(matrix, Matrix::False)
}
