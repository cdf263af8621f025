//! What a text of clauses may hold.
#![tactic(auto, using(crate::proofs::Shapes::shape_steps))]

ghost use Rattle.std.specs.Prelude.{◌≡◌, map};
ghost use Rattle.tptp_formulas.specs.Written.{all_clausal, clausal, negated, prefixed, shape_of};

use crate::raw::{Link, Prefix, Raw};

/// The shape of a formula, as far as a text of clauses asks.
#[derive(Clone, Copy, Debug, PartialEq, Eq)]
pub enum Shape {
    /// An atom in any number of brackets.
    Atom,
    /// Built from atoms and negated atoms by `|` alone, and no such atom.
    Clause,
    Other,
}

/// Whether a formula of this shape may stand in a text of clauses.
pub fn is_clausal(shape: Shape) -> bool
    ensures { result ≡ clausal shape }
{
    match shape {
        Shape::Atom | Shape::Clause => true,
        Shape::Other => false,
    }
}

fn negate(shape: Shape) -> Shape
    ensures { result ≡ negated shape }
{
    match shape {
        Shape::Atom => Shape::Clause,
        Shape::Clause | Shape::Other => Shape::Other,
    }
}

fn under(prefixes: &[Prefix], shape: Shape) -> Shape
    ensures { result ≡ prefixed prefixes.now shape }
{
    match prefixes {
        [] => shape,
        [Prefix::Not] => negate(shape),
        _ => Shape::Other,
    }
}

/// The shape of a formula.
#[cycle(classify)]
pub fn classify(raw: &Raw) -> Shape
    ensures { result ≡ shape_of raw.now }
{
    match raw {
        Raw::Atom(_, _) | Raw::Dollar(_, _) | Raw::Equation(_, _, _) => Shape::Atom,
        Raw::Unit(prefixes, inner) => under(prefixes.as_slice(), classify(inner.get())),
        Raw::Binary(_, _, _) => Shape::Other,
        Raw::Chain(Link::And, _, _) => Shape::Other,
        Raw::Chain(Link::Or, first, others) => {
            if is_clausal(classify(first.get())) && are_clausal(others.as_slice()) {
                Shape::Clause
            } else {
                Shape::Other
            }
        }
    }
}

#[cycle(classify)]
fn are_clausal(formulas: &[Raw]) -> bool
    ensures { result ≡ all_clausal (map shape_of formulas.now) }
{
    for formula in formulas {
        if !is_clausal(classify(formula)) {
            return false;
        }
    }
    true
}
