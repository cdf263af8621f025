//! Thin trees from their lists.
#![tactic(auto, using(crate::proofs::ReaderSteps::end_steps))]

ghost use Rattle.std.specs.Prelude.{◌≡◌, true, false, IfOk};
ghost use Rattle.nd_term.specs.Formulas.{equivalence};
ghost use Rattle.nd_term.specs.Reading.{occurs, on_side, read, with_both, with_choice, with_witness};
ghost use Rattle.nd_term.specs.ThinReading.{choices_at, reading_of};
ghost use Rattle.nd_term.specs.Views.{theory_formula};

use crate::cursor::{
    Cursor, Reading, Source, at_side, below_choice, below_eigenvariable, below_negation,
    below_vacuous, joined, next_eigen, next_side, next_term,
};
use crate::occurrence::occurs;
use crate::tree::Tree;
use dk_syntax::{Formula, NoMemory, Term};
use std::alloc::Global;

/// The tree of a signed formula that comes next in the lists.
#[cycle(read_tree)]
pub fn read_tree(
    alloc: Global,
    f: &Formula,
    positive: bool,
    source: &Source<'_>,
    cursor: Cursor,
) -> Result<Reading, NoMemory>
    ensures { IfOk result (λ r. reading_of source.now r
        ≡ read (theory_formula f.now) positive (choices_at source.now cursor)) }
{
    match f {
        Formula::True | Formula::False => Ok(Reading {
            tree: Tree::NoLiteral,
            rest: cursor,
        }),
        Formula::Atom(_, _) => Ok(Reading {
            tree: Tree::Leaf,
            rest: cursor,
        }),
        Formula::Not(a) => {
            let reading = read_tree(alloc, a.get(), !positive, source, cursor)?;
            below_negation(alloc, reading)
        }
        Formula::And(a, b) => {
            if positive {
                read_side(alloc, a.get(), true, b.get(), true, source, cursor)
            } else {
                read_both(alloc, a.get(), false, b.get(), false, source, cursor)
            }
        }
        Formula::Or(a, b) => {
            if positive {
                read_both(alloc, a.get(), true, b.get(), true, source, cursor)
            } else {
                read_side(alloc, a.get(), false, b.get(), false, source, cursor)
            }
        }
        Formula::Imp(a, b) => {
            if positive {
                read_both(alloc, a.get(), false, b.get(), true, source, cursor)
            } else {
                read_side(alloc, a.get(), true, b.get(), false, source, cursor)
            }
        }
        Formula::Iff(a, b) => {
            if positive {
                read_iff(alloc, a.get(), b.get(), source, cursor)
            } else {
                read_denied_iff(alloc, a.get(), b.get(), source, cursor)
            }
        }
        Formula::All(a) => {
            if positive {
                read_choice(alloc, a.get(), true, source, cursor)
            } else {
                read_witness(alloc, a.get(), false, source, cursor)
            }
        }
        Formula::Ex(a) => {
            if positive {
                read_witness(alloc, a.get(), true, source, cursor)
            } else {
                read_choice(alloc, a.get(), false, source, cursor)
            }
        }
    }
}

/// The tree on the side that comes next.
#[cycle(read_tree)]
fn read_side(
    alloc: Global,
    a: &Formula,
    a_sign: bool,
    b: &Formula,
    b_sign: bool,
    source: &Source<'_>,
    cursor: Cursor,
) -> Result<Reading, NoMemory>
    ensures { IfOk result (λ r. reading_of source.now r
        ≡ on_side (read (theory_formula a.now) a_sign) (read (theory_formula b.now) b_sign)
        (choices_at source.now cursor)) }
{
    let (right, rest) = next_side(source, cursor);
    if right {
        let reading = read_tree(alloc, b, b_sign, source, rest)?;
        return at_side(alloc, true, reading);
    }
    let reading = read_tree(alloc, a, a_sign, source, rest)?;
    at_side(alloc, false, reading)
}

/// The trees of both sides.
#[cycle(read_tree)]
fn read_both(
    alloc: Global,
    a: &Formula,
    a_sign: bool,
    b: &Formula,
    b_sign: bool,
    source: &Source<'_>,
    cursor: Cursor,
) -> Result<Reading, NoMemory>
    ensures { IfOk result (λ r. reading_of source.now r
        ≡ with_both (read (theory_formula a.now) a_sign (choices_at source.now cursor))
        (read (theory_formula b.now) b_sign)) }
{
    let first = read_tree(alloc, a, a_sign, source, cursor)?;
    let second = read_tree(alloc, b, b_sign, source, first.rest)?;
    joined(alloc, first.tree, second)
}

/// The tree of an equivalence: a direction.
#[cycle(read_tree)]
fn read_iff(
    alloc: Global,
    a: &Formula,
    b: &Formula,
    source: &Source<'_>,
    cursor: Cursor,
) -> Result<Reading, NoMemory>
    ensures { IfOk result (λ r. reading_of source.now r
        ≡ read (equivalence (theory_formula a.now) (theory_formula b.now)) true
        (choices_at source.now cursor)) }
{
    let (right, rest) = next_side(source, cursor);
    if right {
        let reading = read_both(alloc, b, false, a, true, source, rest)?;
        return at_side(alloc, true, reading);
    }
    let reading = read_both(alloc, a, false, b, true, source, rest)?;
    at_side(alloc, false, reading)
}

/// The tree of a denied equivalence: one of the two holds, or one of them fails.
#[cycle(read_tree)]
fn read_denied_iff(
    alloc: Global,
    a: &Formula,
    b: &Formula,
    source: &Source<'_>,
    cursor: Cursor,
) -> Result<Reading, NoMemory>
    ensures { IfOk result (λ r. reading_of source.now r
        ≡ read (equivalence (theory_formula a.now) (theory_formula b.now)) false
        (choices_at source.now cursor)) }
{
    let (right, rest) = next_side(source, cursor);
    if right {
        let reading = read_both(alloc, a, false, b, false, source, rest)?;
        return at_side(alloc, true, reading);
    }
    let reading = read_both(alloc, a, true, b, true, source, rest)?;
    at_side(alloc, false, reading)
}

/// The tree of a quantifier with a term for its variable, and with `any` where it binds nothing.
#[cycle(read_tree)]
fn read_choice(
    alloc: Global,
    a: &Formula,
    positive: bool,
    source: &Source<'_>,
    cursor: Cursor,
) -> Result<Reading, NoMemory>
    ensures { IfOk result (λ r. reading_of source.now r
        ≡ with_choice (occurs 0 (theory_formula a.now)) (read (theory_formula a.now) positive)
        (choices_at source.now cursor)) }
{
    if !occurs(a, 0)? {
        let reading = read_tree(alloc, a, positive, source, cursor)?;
        return below_choice(alloc, Term::Any, reading);
    }
    let (term, rest) = next_term(alloc, source, cursor)?;
    let reading = read_tree(alloc, a, positive, source, rest)?;
    below_choice(alloc, term, reading)
}

/// The tree of a quantifier with an eigenvariable for its variable, or of one that binds nothing.
#[cycle(read_tree)]
fn read_witness(
    alloc: Global,
    a: &Formula,
    positive: bool,
    source: &Source<'_>,
    cursor: Cursor,
) -> Result<Reading, NoMemory>
    ensures { IfOk result (λ r. reading_of source.now r
        ≡ with_witness (occurs 0 (theory_formula a.now)) (read (theory_formula a.now) positive)
        (choices_at source.now cursor)) }
{
    if !occurs(a, 0)? {
        let reading = read_tree(alloc, a, positive, source, cursor)?;
        return below_vacuous(alloc, reading);
    }
    let (number, rest) = next_eigen(source, cursor)?;
    let reading = read_tree(alloc, a, positive, source, rest)?;
    below_eigenvariable(alloc, number, reading)
}
