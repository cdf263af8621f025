//! Equations and substitutions.
use dk_syntax::{Seq, Term};

/// Equations between terms.
#[derive(Debug, Drop)]
pub struct Equations {
    pub pairs: Seq<(Term, Term)>,
}

/// A substitution: the term of each variable that has one.
#[derive(Debug, Drop)]
pub struct Subst {
    pub terms: Seq<Option<Term>>,
}
