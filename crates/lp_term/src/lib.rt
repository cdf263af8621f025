//! Terms of the lambda-Pi-calculus modulo, commands and developments, the identifiers of symbols and
//! the prelude.
//!
//! A variable is the number of binders between it and its own binder. Contracts see an `Ident` as its
//! bytes and a term as the tree that it is, so `≡` is equality of trees. `ident_of` answers what
//! `identifier_of` defines, which no two symbols share; `prelude` answers the list of that name,
//! `subst` answers `substituted`. Each asks nothing but memory.
//!
//! A term's drop is a loop: it takes no memory and a fixed depth of stack. Copies, `lift` and `subst`
//! are linear in what they read and answer, and take a depth of stack that grows with the term's.
//!
//! Laws for the crates above stand in `laws` (each one's contract is a law) and in these files of `proofs/`:
//! `ViewLaws` (views and induction on terms), `TranslationLaws` (translations at each kind of formula, their views
//! and their free variables), `ReplaceLaws` and `ProblemLaws` (substitution and raising, the type of `goal`),
//! `SubstitutionLaws`, `ConversionLaws`, `TypingLaws` and `ScopeLaws` (the theory), `ConnectiveRules`,
//! `IntroductionRules`, `QuantifierRules` and `PreludeLaws` (the rules of the prelude), `IdentifierLaws` and
//! `GrammarLaws` (identifiers).
#![tactic(auto)]

mod build;
mod command;
mod ident;
mod identifier;
pub mod laws;
mod lp;
mod problem;
mod replace;
mod rules;
mod start;
mod translation;

pub use build::{apply, apply_both, arrow, lambda, negation, pattern, product, proof_type, symbol};
pub use command::{Command, Dev};
pub use ident::Ident;
pub use identifier::ident_of;
pub use lp::Lp;
pub use problem::{constants, goal_type, symbol_type};
pub use replace::{lift, subst};
pub use start::prelude;
pub use translation::translate;
