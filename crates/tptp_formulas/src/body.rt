//! What an item says.
use dk_syntax::Formula;

/// The language that an item is written in.
#[derive(Clone, Copy, Debug, PartialEq, Eq)]
pub enum Lang {
    Fof,
    Cnf,
    Other,
}

/// What is outside the profile: a file to be included, another language, or a construct of a formula.
#[derive(Clone, Copy, Debug, PartialEq, Eq)]
pub enum OutsideKind {
    Include,
    Language,
    Equality,
    Number,
    Distinct,
    Dollar,
}

/// A formula, or what is outside the profile.
#[derive(Debug, Drop)]
pub enum Body {
    Plain(Formula),
    Outside(OutsideKind),
}
