//! What is read of the lists of a thin tree, and the nodes of the tree above it.
#![tactic(auto, using(crate::proofs::ReaderSteps::reader_steps))]

ghost use Rattle.std.specs.Prelude.{◌≡◌, false, IfOk};
ghost use Rattle.lp_term.specs.Names.{any_name};
ghost use Rattle.nd_term.specs.Formulas.{ground_symbol};
ghost use Rattle.nd_term.specs.Outputs.{ground_of};
ghost use Rattle.nd_term.specs.Reading.{after_eigen, after_side, after_term, first_or, with_node};
ghost use Rattle.nd_term.specs.ThinReading.{choices_at, reading_of};
ghost use Rattle.nd_term.specs.ThinTrees.{below_not, both, choice, eigenvariable_at, vacuous};
ghost use Rattle.nd_term.specs.TreeKinds.{to_side};
ghost use Rattle.nd_term.specs.Trees.{tree_of};
ghost use Rattle.nd_term.specs.declared.cursor.Source.{Source};

use crate::outputs::{place_number, replaced};
use crate::place::Place;
use crate::tree::Tree;
use dk_syntax::{Boxed, NoMemory, Term};
use expansion::Thin;
use std::alloc::Global;

/// The lists that a tree is read from, and the place that numbers the Skolem terms.
#[derive(Clone, Copy)]
pub struct Source<'a> {
    pub thin: &'a Thin,
    pub place: &'a Place<'a>,
}

/// How much of each list was read.
#[derive(Clone, Copy)]
pub struct Cursor {
    pub sides: usize,
    pub terms: usize,
    pub skolems: usize,
}

/// A tree, and how much was read with it.
#[derive(Drop)]
pub struct Reading {
    pub tree: Tree,
    pub rest: Cursor,
}

/// The next side, and the first one where none is left.
pub fn next_side(source: &Source<'_>, cursor: Cursor) -> (bool, Cursor)
    ensures side { result.0 ≡ first_or false (choices_at source.now cursor).sides }
    ensures rest { choices_at source.now result.1 ≡ after_side (choices_at source.now cursor) }
{
    match source.thin.picks.as_slice().get(cursor.sides) {
        None => (false, cursor),
        Some(side) => {
            let sides = cursor.sides + 1;
            (*side, Cursor { sides, ..cursor })
        }
    }
}

/// The next term as it is in proof terms, and `any` where none is left.
pub fn next_term(
    alloc: Global,
    source: &Source<'_>,
    cursor: Cursor,
) -> Result<(Term, Cursor), NoMemory>
    ensures term { IfOk result (λ next. ground_of next.0
        ≡ first_or (ground_symbol any_name) (choices_at source.now cursor).terms) }
    ensures rest { IfOk result (λ next. choices_at source.now next.1
        ≡ after_term (choices_at source.now cursor)) }
{
    match source.thin.terms.as_slice().get(cursor.terms) {
        None => Ok((Term::Any, cursor)),
        Some(term) => {
            let output = replaced(alloc, source.place, term)?;
            let terms = cursor.terms + 1;
            Ok((output, Cursor { terms, ..cursor }))
        }
    }
}

/// The number of the next Skolem term's eigenvariable, and 0 where none is left.
pub fn next_eigen(source: &Source<'_>, cursor: Cursor) -> Result<(u32, Cursor), NoMemory>
    ensures number { IfOk result (λ next. next.0
        ≡ first_or 0 (choices_at source.now cursor).eigens) }
    ensures rest { IfOk result (λ next. choices_at source.now next.1
        ≡ after_eigen (choices_at source.now cursor)) }
{
    match source.thin.skolems.as_slice().get(cursor.skolems) {
        None => Ok((0, cursor)),
        Some(term) => {
            let number = place_number(source.place, term)?;
            let skolems = cursor.skolems + 1;
            Ok((number, Cursor { skolems, ..cursor }))
        }
    }
}

/// The reading with its tree at a side, true for the second one.
pub fn at_side(alloc: Global, right: bool, reading: Reading) -> Result<Reading, NoMemory>
    ensures { (source : Source) → IfOk result (λ r. reading_of source r
        ≡ with_node (to_side right) (reading_of source reading)) }
{
    let Reading { tree, rest } = reading;
    let below = Boxed::new(alloc, tree)?;
    if right {
        let tree = Tree::Right(below);
        return Ok(Reading { tree, rest });
    }
    let tree = Tree::Left(below);
    Ok(Reading { tree, rest })
}

/// The reading with its tree below a negation.
pub fn below_negation(alloc: Global, reading: Reading) -> Result<Reading, NoMemory>
    ensures { (source : Source) → IfOk result (λ r. reading_of source r
        ≡ with_node below_not (reading_of source reading)) }
{
    let Reading { tree, rest } = reading;
    let tree = Tree::BelowNot(Boxed::new(alloc, tree)?);
    Ok(Reading { tree, rest })
}

/// The reading with its tree below a quantifier whose variable has this term.
pub fn below_choice(alloc: Global, term: Term, reading: Reading) -> Result<Reading, NoMemory>
    ensures { (source : Source) → IfOk result (λ r. reading_of source r
        ≡ with_node (choice (ground_of term)) (reading_of source reading)) }
{
    let Reading { tree, rest } = reading;
    let tree = Tree::Choice(term, Boxed::new(alloc, tree)?);
    Ok(Reading { tree, rest })
}

/// The reading with its tree below a quantifier whose variable has this eigenvariable.
pub fn below_eigenvariable(
    alloc: Global,
    number: u32,
    reading: Reading,
) -> Result<Reading, NoMemory>
    ensures { (source : Source) → IfOk result (λ r. reading_of source r
        ≡ with_node (eigenvariable_at number) (reading_of source reading)) }
{
    let Reading { tree, rest } = reading;
    let tree = Tree::Eigenvariable(number, Boxed::new(alloc, tree)?);
    Ok(Reading { tree, rest })
}

/// The reading with its tree below a quantifier that binds nothing.
pub fn below_vacuous(alloc: Global, reading: Reading) -> Result<Reading, NoMemory>
    ensures { (source : Source) → IfOk result (λ r. reading_of source r
        ≡ with_node vacuous (reading_of source reading)) }
{
    let Reading { tree, rest } = reading;
    let tree = Tree::Vacuous(Boxed::new(alloc, tree)?);
    Ok(Reading { tree, rest })
}

/// Two trees, where the second one was read after the first.
pub fn joined(alloc: Global, first: Tree, second: Reading) -> Result<Reading, NoMemory>
    ensures { (source : Source) → IfOk result (λ r. reading_of source r
        ≡ with_node (both (tree_of first)) (reading_of source second)) }
{
    let Reading { tree, rest } = second;
    let tree = Tree::Both(Boxed::new(alloc, first)?, Boxed::new(alloc, tree)?);
    Ok(Reading { tree, rest })
}
