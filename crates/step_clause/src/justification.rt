//! Justifications.
use dk_syntax::{Seq, Term};

/// How a clause follows from clauses of its parents. Parents, their clauses and literals are numbered
/// from 0; a pick is the number of a literal of the clause, or the number of its literals for a pivot.
#[derive(Debug, Drop)]
pub enum Justification {
    Subsume {
        parent: u32,
        clause: u32,
        picks: Seq<u32>,
        terms: Seq<Term>,
    },
    Resolve {
        pos_parent: u32,
        pos_clause: u32,
        neg_parent: u32,
        neg_clause: u32,
        pos_picks: Seq<u32>,
        neg_picks: Seq<u32>,
        pos_terms: Seq<Term>,
        neg_terms: Seq<Term>,
    },
}
