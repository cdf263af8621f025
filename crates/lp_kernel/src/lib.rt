//! The type checker of developments, for the fragment of the lambda-Pi-calculus modulo that proofs
//! of first-order logic are written in.
//!
//! Simple types are `I`, `Prop` and functions of simple types; types are these, `Prf o` and products
//! of types; objects are the terms of simple types, proofs the other terms that have a type. `check`
//! finds the type of each term as it goes, and compares it with the wanted one. It keeps types lazy:
//! objects beta-normal, each `Prf` unopened. `specs/Judgement` has the judgement over normal types,
//! `specs/Checking` the same as a function, with its first fault, and `specs/Developments` the form
//! of a development. `laws` has what holds of them.
//!
//! Right spines of terms and second parts of products are walked by loops, into other parts `check`
//! calls itself. A symbol is looked up by a hash of its name. Of an object the normal form is kept as
//! its value; of a proof none is made.
//!
//! Laws for the crates above stand in `laws` (each one's contract is a law) and in these files of
//! `proofs/`: `AcceptanceLaws` and `GoalLaws` (accepted developments, the goal's type and body),
//! `LazyTypeLaws`, `CompletenessLaws` and `TypingLaws` (the judgement), `AnswerLaws`,
//! `AnsweredLaws` and `DecisionLaws` (what the first fault can be).
#![tactic(auto)]

mod count;
mod development;
mod fault;
mod finding;
pub mod laws;
mod lookup;
mod products;
mod resume;
mod signature;
mod walk;

pub use development::check;
pub use fault::{CheckFault, Typed, Want};
