//! The least chain of resolutions by which a clause follows from three to eight parents.
//!
//! A chain begins at a clause of the first parent. Each middle clause is an exact resolvent of the middle clause before it
//! and a clause of the next parent (`specs/Resolvents`): literals of one sign are taken in the one and literals of the other
//! sign in the other, a most general solution makes their atoms equal, and the rest of both, after the solution and each
//! literal once, is the resolvent, with its variables numbered by first occurrence. The target follows from the last middle
//! clause alone and the last parent by a justification (`specs/Chains`). `chain_of` answers the least chain, or none exactly
//! where there is none; that answer is the only one.
//!
//! The search goes through the choices in their order, so that the first chain that it finds is the least. A literal is taken
//! only where something gives it the atom of those taken before it. A branch ends where a literal of the middle clause has
//! none of its sign and symbol in the target and none of the other sign in a clause to come, if the target doesn't follow from
//! the last parent alone. In the worst case the search takes time exponential in the numbers of literals; it goes down by
//! one recursion a literal.
//!
//! Laws for the crates above stand in `proofs/OneLeastChain` (there is one least chain and one answer), `proofs/OneResolvent`
//! (two clauses have one exact resolvent by the same choice), `proofs/SameLiterals` (literals after renaming) and
//! `proofs/Numbered` (the variables of a clause made of literals are below its number of variables).
#![tactic(auto)]

mod chain;
mod choosing;
mod closing;
mod numbering;
mod once;
mod pair;
mod parents;
mod resolvent;
mod search;
mod symbols;

pub use chain::Chain;
pub use parents::chain_of;
