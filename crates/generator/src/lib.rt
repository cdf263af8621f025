//! A family of problems with right refutations, for trying and for measuring the program.
//!
//! The member of number n has n nested Skolem terms: from `p0(c)` and n axioms
//! `![X]:(pi(X)=>?[Y]:(r(X,Y)&pj(Y)))`, where j is i + 1, it derives `?[X]:pn(X)`. `specs/Files`
//! has the texts of its problem and of its trace, line by line; `generate` answers both. The trace
//! grows with the square of n, since its terms nest, and so do time and memory.
#![tactic(auto)]

mod bytes;
mod files;
mod lines;
mod rows;

pub use files::{Files, generate};
