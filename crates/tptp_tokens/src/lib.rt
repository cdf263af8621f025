//! Tokens of TPTP texts, the matter between them, and the tokens of an item.
//!
//! The syntax is that of the TPTP (Sutcliffe, "The TPTP Problem Library and Associated Infrastructure",
//! Journal of Automated Reasoning 59, 2017), in a profile: `specs/Spelling` says which tokens there are and
//! how each is spelled, and that the longest one in front is taken; `specs/Matter` says what is skipped;
//! `specs/TokenLists` which tokens a text has up to a full stop; `specs/Nesting` when brackets are too deep.
//! What `specs/Scan`, `specs/Skipping`, `specs/Chunks`, `specs/Brackets` and `specs/Quotes` say mirrors the code.
//!
//! Laws for the crates above stand in `proofs/LongestToken` (the token that is read is the longest one),
//! `proofs/NumberLaws` (words and numbers that are read in front), `proofs/SkippedMatter` (what is skipped),
//! `proofs/ChunkLaws` (the tokens up to a full stop) and `proofs/BracketLaws` (brackets that are counted).
//!
//! A text is read once, in time linear in its length, unclosed comments and quotes included: an `Unread` knows
//! where searches for their ends were in vain. The tokens of an item are kept at once: 64 bytes for each byte of
//! its text at most, for tokens of one byte whose vector has just grown, and their names. Nothing recurses.
#![tactic(auto)]

mod chunks;
mod marks;
mod matter;
mod numbers;
mod quoted;
mod scan;
mod token;
mod unread;
mod words;

pub use chunks::is_too_deep;
pub use scan::token_of;
pub use token::Token;
pub use unread::Unread;
