//! Chains of resolutions.
use dk_syntax::{Clause, Seq};
use step_clause::Justification;

/// How a clause follows from three or more parents, one after another.
///
/// `mids` are the middle clauses after the first one. Each is the resolvent of the middle clause before it and a clause
/// of the next parent; the first middle clause, which isn't listed, is a clause of the first parent. `steps` are the
/// justifications of the clauses in `mids`, and then that of the target. The first one is from the lists of the first
/// two parents, each later one from the list of the last middle clause alone and the list of the next parent.
#[derive(Debug, Drop)]
pub struct Chain {
    pub mids: Seq<Clause>,
    pub steps: Seq<Justification>,
}
