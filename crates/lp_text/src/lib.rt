//! The canonical text of developments.
//!
//! `print` answers the text that the definition `text_of` gives. It asks nothing of the development:
//! a variable that no binder binds is printed as the outermost one, `v0`, so that its text is that of
//! another term. What is still to be printed stands on the heap, and takes no depth of stack. Time is
//! linear in the text, but that the body of each product is searched for its variable, by a recursion.
//!
//! `print_lets` answers the lines of many lets, rendered beside each other: each is its part of the text.
#![tactic(auto, using(crate::proofs::Texts::text_steps))]

mod bytes;
mod command;
mod lets;
mod piece;
mod shape;

pub use command::{print, print_piece};
pub use lets::{LetPiece, lets_are_lines, print_lets};
