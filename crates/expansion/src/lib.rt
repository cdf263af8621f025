//! Thin trees: one path of choices through a leaf's signed formula, for each row of its clause list and ground terms.
//!
//! A thin tree takes one side of each conjunction that it meets and both of each disjunction. It passes a ground term at
//! each universal, and a ground Skolem term at each existential. The relation of thin trees stands in `specs/ThinTrees`:
//! it tells which choices lead through a normal form to which literals. The choices of a row's thin tree are plain
//! functions in `specs/Choices`: the sides of the row, at a universal the term of its variable, or `Any` where the clause
//! doesn't have it, and at an existential the symbol of the map's entry at the terms of the entry's universals.
//!
//! `thin_of` answers these choices for any row, map and terms. Where the leaf's form is closed, the map leads from it to a
//! form whose clause list has the row, and each variable of the row has a ground term, the thin tree's literals are the
//! row's ground clause (`specs/Rows`).
//!
//! It takes one walk down the form, by recursion as deep as the form. The row's universals are looked through once for
//! each universal met and each argument of a Skolem term, and the map's entries once for each existential met.
//!
//! Laws for the crates above stand in `proofs/TreeLaws` (one list of ends for the same choices, ground terms, what holds of
//! each end), `proofs/ThinLaws` (the row of an image as a path through the form), `proofs/EntryLaws` (the entries of a map
//! by their numbers), `proofs/RowEnds` (the terms of universals, and a row's ground clause), `proofs/InstanceLaws` (instances of
//! literals) and `proofs/Everywhere` (lists).
#![tactic(auto)]

mod choosing;
mod laws;
mod numbers;
mod thin;
mod values;

pub use laws::{ends_are_one, rows_are_thin};
pub use thin::{Thin, thin_of};
