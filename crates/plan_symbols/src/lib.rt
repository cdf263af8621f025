//! The symbols of a plan: which stand in the steps of a right trace, in its instances and in its thin trees.
//!
//! Definitions and laws alone, no code. Each symbol of a step is the problem's, or a step introduces it. A most general substitution
//! puts no symbol that stands in neither clause, so the same is true of each instance that the root needs, of its terms and of its
//! thin tree; and all these are well-formed where the steps' formulas are.
//!
//! Laws for the crates above stand in `laws` (each one's contract is a law), and as theorems in these files of `proofs/`: `StepsOver`
//! (steps), `KnownLaws` (instances and thin trees) and `NoOthers` (what most general substitutions put, and the terms from which
//! Skolem terms come).
#![tactic(auto)]

pub mod laws;
