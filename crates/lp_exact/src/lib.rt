//! The exact theory of conversion and typing for beta and the nine rules, and the normal types of
//! the fragment.
//!
//! Conversion has the Church-Rosser property, two types of one term are convertible, and a term
//! keeps its types when it is reduced (`laws`). `normal_type` answers the normal type of a type of
//! the fragment, and `same_type` whether two such types are convertible. Both ask for nothing but
//! memory: of a type outside the fragment they answer what `normal_type_of` defines.
//!
//! `same_type` builds no normal type, since one may be exponential in nested `iff`s as a tree. It
//! keeps each `Prf` unopened and compares layer by layer, equal trees at once. The pieces that go
//! by lazy types (`lazy_type`, `open_layer`, `same_lazy`, `full_type`, `put_last`,
//! `apply_reduced`) are for a type checker above. Right spines of products are walked by loops;
//! else the depth of stack grows with the term's.
//!
//! Laws for the crates above stand in `proofs/ParallelLaws`, `proofs/ConfluenceLaws`,
//! `proofs/StepLaws` and `proofs/NormalFormLaws` (reduction and conversion),
//! `proofs/UniquenessLaws`, `proofs/DegreeLaws` and `proofs/SubjectLaws` (generation, one sort,
//! kept types), `proofs/PreludeSymbols` and `proofs/PreludeOrder` (the prelude's signature),
//! `proofs/SymbolLaws` (signatures of the fragment), `proofs/ConstantLaws` and
//! `proofs/FragmentLaws` (constants, objects and types of it), `proofs/WordLaws` (names of words),
//! `proofs/LazyLaws`, `proofs/FullTypeLaws` and `proofs/TypeLaws` (lazy and full types),
//! `proofs/ObjectLaws`, `proofs/AnnotationLaws` and `proofs/NormalTypeLaws` (normalisation),
//! `proofs/SimpleLaws` (simple types), `proofs/PlaceLaws`, `proofs/ProductLaws`,
//! `proofs/SameLaws` and `proofs/TreeLaws` (the program's terms).
#![tactic(auto)]

pub mod laws;
mod layer;
mod normal;
mod same;
mod types;
mod word;

pub use layer::open_layer;
pub use normal::{apply_reduced, put_last};
pub use same::{same_lazy, same_tree};
pub use types::{full_type, lazy_type, normal_type, same_type};
pub use word::{Word, word_named};
