//! The written file read back: developments in the Lambdapi profile.
//!
//! The syntax is that of Lambdapi (Hondet and Blanqui, "The New Rewriting Engine of Dedukti", FSCD 2020), in a profile:
//! `specs/Tokens` says which tokens there are and which one stands in front of bytes, `specs/Matter` what is skipped,
//! `specs/Grammar` which tokens are terms and commands, one case an alternative, `specs/Scopes` that an identifier means
//! the nearest binder of its name, or a symbol, and `specs/SideDepth` how deep a term is nested to the side.
//! `specs/Text` says which bytes are read as a development (`Reads`) and which answer a text has (`IsReadAnswer`):
//! `read_dev` gives it. Bytes are read as one development at most.
//! What `specs/Scan`, `specs/Machine` and `specs/ReadingText` say mirrors the code.
//!
//! Laws for the crates above stand in `laws` (each one's contract is a law), among them that the print of a printable
//! development is read as it and as no other, and what is printable. Law files that are offered to others:
//! `proofs/PrintableLaws` (names and terms that are printable), `proofs/PrintedNames` (what the names of printed variables mean),
//! `proofs/PrintLaws` (prints are read) and `proofs/AnswerLaws` (a text has one answer).
//!
//! A command is read token by token over a stack on the heap: whatever the nesting, calls do not nest, and neither do
//! those of a term's drop. Time is linear in the text, but that an identifier is looked for among the open binders,
//! from the nearest one on, and that one that means a symbol passes them all.
#![tactic(auto)]

mod command;
mod fault;
pub mod laws;
mod matter;
mod read;
mod scan;
mod scope;
mod stack;
mod state;
mod step;
mod text;
mod token;

pub use fault::LpFault;
pub use text::read_dev;
pub use token::Token;
