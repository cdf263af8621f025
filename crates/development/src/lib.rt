//! The development of a problem and a plan.
//!
//! `development` answers what `specs/Development` defines: the prelude, a constant for each symbol of the problem, and
//! the definition of `goal`, whose body is that of the plan. It asks that the formulas are closed and that what the
//! instances' reasons name is there (`specs/Buildable`); nothing of types. Its only error is want of memory, and a number
//! past `u32` is one.
//!
//! The body is put together from the inside out, and a variable is known by its level: the number of binders outside its own.
//! The hypotheses have the first levels, then comes the denied conjecture, the drinkers and the eigenvariables where there are
//! any, and the instances.
//!
//! The chains of hypotheses, of eigenvariables, of instances and of literals are put together by loops, in a fixed depth of stack.
//! Hypotheses are looked up by their names, in a map that is made once. An instance by a resolution writes its positive
//! parent out once more.
//!
//! Laws for the crates above stand in `laws` and, as a theorem, in `proofs/PlanLaws`: a plan whose instances are right can be built.
#![tactic(auto)]

mod body;
mod clauses;
mod families;
mod given;
mod goal;
mod instances;
pub mod laws;
mod lets;
mod lookups;
mod names;
mod nest;

pub use goal::development;
