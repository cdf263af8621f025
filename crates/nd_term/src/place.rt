//! Places of proof terms.
use dk_syntax::{Seq, SymKey, Term};

/// Where a proof term stands. A level is the number of binders around a place, and a variable's level that of its own
/// binder.
#[derive(Clone, Copy)]
pub struct Place<'a> {
    /// The level of the place.
    pub level: u32,
    /// The level of the first eigenvariable. The k-th one is bound 2k binders further in, and the variable of its
    /// formula right after it.
    pub first_eigen: u32,
    /// The Skolem terms, in the order of their eigenvariables.
    pub order: &'a Seq<Term>,
    /// The Skolem symbols.
    pub symbols: &'a Seq<SymKey>,
}
