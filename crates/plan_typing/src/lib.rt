//! The typing of plans: the body of `goal` that a plan gives has the type of the problem.
//!
//! Definitions and laws alone, no code. `specs/Reasons` has the instances of a plan as those of the theory: a leaf's instance is
//! consumed from its hypothesis, or from the denied conjecture, by its thin tree; any other one has its justification's term, or is the
//! one instance that it needs. These are a right list of instances, the eigenvariables of the needed Skolem terms are in turn, and so the
//! whole body is typed, closed and over the problem's symbols.
//!
//! Laws for the crates above stand in `laws` (each one's contract is a law), and as theorems in `proofs/BodyLaws` (the
//! instances are right; the body is typed, closed, and over the problem's symbols).
#![tactic(auto)]

pub mod laws;
