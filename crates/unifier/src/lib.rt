//! Most general solutions of equations between terms.
//!
//! `solve` answers a most general solution of equations, by unification: every solution is a further
//! instance of it, no bound variable stands in its terms, and where it answers none, no solution exists.
//! Variables below `frozen` stand for themselves. `Bindings` are the work in progress, for a search that
//! adds equations one by one: `extend` and `extend_terms` add them, and `settled` makes the settled list.
//! `apply`, `compose` and `close_with_any` are what is done with lists, and `closes_alike` says that most
//! general solutions differ by renaming alone.
//!
//! A contract sees a substitution as a function from variables to terms. What bindings mean is which
//! substitutions refine them: that a call adds an equation says that what refines the new bindings is
//! what refines the old ones and makes the terms equal. All variables of the terms handed in are below
//! the number of the bindings' variables; `term_below` and its like test it.
//!
//! A bound variable's term is kept as it was bound, so that no term is copied but those which are bound,
//! and the terms are settled once at the end. Before a binding the terms that it leads to are searched
//! for the variable, each bound variable's once. Terms of equations are compared side by side; where a
//! bound variable meets a term, the comparison of these two begins again after each binding that it makes.
//! The settled list is written out as terms, which may be larger than the equations are.
//!
//! Laws for the crates above stand in `proofs/BoundLaws` (what it does to the substitutions that refine bindings to
//! bind one variable more, and that all refine those in which none is bound) and in `proofs/SettlingLaws` (a settled
//! list refines itself and fixes what is frozen).
#![tactic(auto, using(crate::proofs::Steps::term_steps))]

mod application;
mod bindings;
mod bounds;
mod comparison;
mod equations;
mod extension;
mod occurrence;
mod settling;
mod solution;

pub use application::{apply, close_with_any, closes_alike, compose};
pub use bindings::{Bindings, bound_term};
pub use bounds::{equations_below, term_below, terms_below};
pub use equations::{Equations, Subst};
pub use extension::{extend, extend_terms};
pub use settling::settled;
pub use solution::solve;
