//! Formulas as they are written, with names.
use dk_syntax::{Boxed, Name, Seq};

/// A term as it is written. Words and numbers keep their spelling, as their tokens do.
#[derive(Drop)]
pub enum RawTerm {
    Variable(Name),
    Apply(Name, Seq<RawTerm>),
    Number(Name),
    Distinct(Name),
    Dollar(Name, Seq<RawTerm>),
}

/// What may stand before a unit.
#[derive(Drop)]
pub enum Prefix {
    Not,
    ForAll(Seq<Name>),
    Exists(Seq<Name>),
}

/// What may stand more than once between units.
#[derive(Clone, Copy, Debug, PartialEq, Eq)]
pub enum Link {
    And,
    Or,
}

/// What may stand once between two units.
#[derive(Clone, Copy, Debug, PartialEq, Eq)]
pub enum Connective {
    Implies,
    ImpliedBy,
    Iff,
    Differs,
    Nor,
    Nand,
}

/// What may stand between two terms.
#[derive(Clone, Copy, Debug, PartialEq, Eq)]
pub enum Comparison {
    Equal,
    Unequal,
}

/// A formula as it is written: flat where the text is flat, so that its depth is bounded by the
/// brackets around a place of the text, however long the text is.
#[derive(Drop)]
pub enum Raw {
    Atom(Name, Seq<RawTerm>),
    Dollar(Name, Seq<RawTerm>),
    Equation(Comparison, RawTerm, RawTerm),
    /// Negations and quantifiers, and then an atom or a formula in brackets.
    Unit(Seq<Prefix>, Boxed<Raw>),
    Binary(Connective, Boxed<Raw>, Boxed<Raw>),
    /// The first unit, and the others, of which there is one at least.
    Chain(Link, Boxed<Raw>, Seq<Raw>),
}
