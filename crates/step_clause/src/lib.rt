//! The least justification of a clause from the clauses of its parents.
//!
//! A clause follows from one clause of a parent where some substitution makes each of its literals a literal of the
//! target (subsumption), or from two, or from one taken twice, where their pivots are of one atom and each other
//! literal becomes a literal of the target (resolution). `justify` answers the least candidate that works, with its
//! most general substitution and `Any` for each variable that is left unbound: subsumptions first, then by the numbers
//! of parents, clauses and literals. Resolution, factoring, renaming, weakening and subsumption resolution are all of
//! this form. All variables of each clause have to be below its number of variables, which `is_numbered` tells.
//!
//! The search goes literal by literal with the bindings of the literals before, and goes no further where a literal
//! fails. It tests sign and symbol before it copies the bindings. It is not begun where signs and symbols leave no room:
//! a literal that has none of its sign and symbol in the target has to be a pivot, and all pivots are of one symbol.
//! That is asked again of the literals after the first pivot, and before each choice whether a pivot that is wanted may
//! still come. In the worst case the search takes time exponential in the number of literals, as subsumption does; it
//! goes down by one recursion a literal.
//!
//! A law for the crates above stands in `proofs/Uniqueness` (a clause has one justification, `one_justification`).
#![tactic(auto)]

mod justification;
mod numbering;
mod parents;
mod places;
mod resolution;
mod search;
mod slots;
mod subsumption;
mod symbols;
mod values;

pub use justification::Justification;
pub use numbering::{are_numbered, is_numbered};
pub use parents::justify;
