//! Formulas of TPTP texts: from the tokens of an item to what the item says.
//!
//! The syntax is that of the TPTP (Sutcliffe, "The TPTP Problem Library and Associated Infrastructure",
//! Journal of Automated Reasoning 59, 2017), in a profile. `read_formula` gives the formula that tokens
//! begin with exactly where the grammar of `specs/Grammar` has one and nothing follows that goes on with it
//! (`specs/Written`); at most one formula is written at a place (`proofs/ReadingLaws`). `make_body` gives
//! what it means by `specs/Meaning`: the formula with numbers for names, closed by universal quantifiers,
//! or else the kind of the first construct that is outside the profile (`specs/Outside`). Such a formula is
//! closed and well-formed, and has no `Any` (`specs/Proper`). `specs/Reading`, `specs/RawDepth` and
//! `specs/FewNames` mirror the code.
//!
//! Laws for the crates above stand in `proofs/RawEquations` (what the definitions say of each kind of formula as
//! it is written), `proofs/ReadingLaws` (what is read), `proofs/ProperTrees` (the fold that joins closed,
//! well-formed and without `Any`) and `proofs/ProperFormulas` (what is read is so).
//!
//! A formula as it is written, `Raw`, is flat where the text is flat. So the recursion of every call, and
//! of a drop, is bounded by the brackets around a place of the text, which the caller counts before, and
//! for what is built by the depth of 1,000, which is tested before anything is built.
//!
//! Reading takes time linear in the tokens. A body takes for each variable the time to look for its name
//! among those that are bound around it, of which there are at most 1,000, and the first 1,001 free ones.
#![tactic(auto)]

mod atoms;
mod body;
mod closing;
mod fault;
mod formulas;
mod meaning;
mod outside;
mod raw;
mod raw_depth;
mod read;
mod scopes;
mod shape;
mod terms;

pub use body::{Body, Lang, OutsideKind};
pub use closing::{free_of, make_body};
pub use fault::{BodyFault, ReadError};
pub use raw::{Comparison, Connective, Link, Prefix, Raw, RawTerm};
pub use read::read_formula;
pub use shape::Shape;
