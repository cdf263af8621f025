//! Problems.
use crate::formula::Formula;
use crate::name::Name;
use crate::seq::Seq;
use crate::symbol::SymKey;

/// A formula and the name of its item.
#[derive(Debug, Drop)]
pub struct Named {
    pub name: Name,
    pub formula: Formula,
}

/// What is to be proved: that the hypotheses imply the conjecture or, where there is none, that they are
/// contradictory. The symbols are those of the hypotheses and then of the conjecture, each once, by
/// first occurrence.
#[derive(Debug, Drop)]
pub struct Problem {
    pub hyps: Seq<Named>,
    pub conjecture: Option<Named>,
    pub symbols: Seq<SymKey>,
}
