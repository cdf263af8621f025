//! The second syntax read back: developments after Dedukti.
//!
//! The syntax is that of Dedukti (Assaf et al., "Dedukti: a Logical Framework based on the λΠ-Calculus Modulo Theory"), in a
//! profile: `specs/Tokens` says which tokens there are and which one stands in front of bytes, `specs/Matter` what is skipped,
//! `specs/Grammar` which tokens are terms and commands, one case an alternative, and `specs/Scopes` that an identifier means
//! the nearest binder of its name, else a pattern variable of its rule, else a symbol. How deep a term is nested to the side is as in
//! `lp_read`. `specs/Text` says which bytes are read as a development (`ReadsDk`) and which answer a text has
//! (`IsReadDkAnswer`): `read_dk` gives it. Bytes are read as one development at most.
//! What `specs/Scan`, `specs/Machine` and `specs/ReadingText` say mirrors the code.
//!
//! Laws for the crates above stand in `laws` (each one's contract is a law). Law files that are offered to others:
//! `proofs/PrintableLaws` (what is printable), `proofs/PrintLaws` (prints are read) and `proofs/AnswerLaws` (a text has one answer).
//!
//! A command is read token by token over a stack on the heap: whatever the nesting, calls do not nest, and neither do
//! those of a term's drop. Time is linear in the text, but that an identifier is looked for among the open binders and the
//! pattern variables of its rule, from the nearest one on, and that one that means a symbol passes them all.
#![tactic(auto)]

mod command;
mod fault;
pub mod laws;
mod matter;
mod read;
mod scan;
mod scope;
mod stack;
mod state;
mod step;
mod text;
mod token;

pub use fault::DkFault;
pub use text::read_dk;
pub use token::Token;
