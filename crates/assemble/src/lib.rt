//! The body of a development's `goal`, and that it has the type of the problem.
//!
//! Definitions and laws alone, no code: right lists of instances, what a place has bound, the body, the
//! signature of a development, and that the body is typed and closed in it. specs/Problem has the program's
//! problems as those of the theory, whatever their formulas; specs/Fitting the eigenvariables of Skolem terms,
//! and how proof terms read a thin tree.
//!
//! Laws for the crates above stand in `laws` (each one's contract is a law) and in these files of `proofs/`:
//! `SignatureViews`, `SymbolLaws` and `GoalViews` (the signature, the symbols and the type of `goal` of a
//! problem), `ProblemLaws` (the signature has the prelude), `FittingLaws` (thin trees), `ViewLaws` (what occurs in
//! formulas), `BodyTypes` and `LevelLaws` (the body).
//!
//! `proofs/BuiltLaws`, on bodies as they are built, is for the crate above too.
#![tactic(auto)]

pub mod laws;
