//! Developments after Dedukti: the second syntax.
//!
//! The syntax is that of Dedukti (Assaf et al., "Dedukti: a Logical Framework based on the λΠ-Calculus Modulo Theory"), in a
//! profile. `print_dk` answers the text that the definition `dk_text_of` gives (specs/Print). It asks nothing of the
//! development: a variable that no binder binds is printed as the outermost one, `v0`, so that its text is that of
//! another term. `pattern_names` answers the pattern variables of a term, by first occurrence (specs/Patterns), which stand in brackets
//! before a rule. What `specs/Pieces` says mirrors the code, and private contracts alone cite it.
//!
//! What is still to be printed stands on the heap, and takes no depth of stack. Time is linear in the text, but that the body of
//! each product is searched for its variable, by a recursion.
#![tactic(auto, using(crate::proofs::Texts::text_steps))]

mod bytes;
mod command;
mod patterns;
mod piece;
mod shape;

pub use command::print_dk;
pub use patterns::pattern_names;
