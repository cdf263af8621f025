//! The proof terms of a refutation, and that they have their types.
//!
//! `drinker`, `contradict`, `resolve_term` and `consume` build terms that are the theory's by their contracts, and have their
//! types where the contracts say so. Formulas and ground terms of the theory, their translations, thin trees,
//! consumers, drinkers, and the terms of subsumption and resolution stand in `specs/`; specs/Views has the program's
//! formulas as those of the theory, whatever the formula.
//!
//! `build` has the words in which terms are put together. `ground_atom` is a ground atom at a place, `replaced` a ground term with
//! variables for its Skolem terms, and a `Spot` gives a formula's translation with values for its variables.
//!
//! A ground term whose head is a Skolem symbol is its eigenvariable, whose number is the term's place in an order. It is
//! looked for in the order by a walk. Whether a quantifier's variable occurs is found by a walk of its body. All else is linear
//! in what is read and built.
//!
//! Laws for the crates above stand in `laws` (each one's contract is a law) and in these files of `proofs/`:
//! `TranslationLaws` (translations and their types), `FormulaViews` (the program's formulas, kind by kind),
//! `OverLaws` (formulas over a signature), `ListLaws` (lists), `ConsumerTypes`, `DrinkerTypes` and
//! `InstanceTypes` (the types of proof terms). `ConsumerSteps` has the consumer of each kind of formula where it stands,
//! `OutputSteps` ground terms as they are in proof terms, and `SpotSteps` translations at a spot.
#![tactic(auto)]

mod arms;
pub mod build;
mod consumer;
mod contradiction;
mod cursor;
mod drinkers;
mod eigenvariables;
mod ends;
mod ground;
mod hypothesis;
mod instance;
pub mod laws;
mod occurrence;
mod outputs;
mod place;
mod proof_terms;
mod reader;
mod spot;
mod substitution;
mod tree;
mod values;

pub use contradiction::contradict;
pub use drinkers::drinker;
pub use eigenvariables::at_level;
pub use ground::ground_atom;
pub use hypothesis::consume;
pub use instance::resolve_term;
pub use outputs::replaced;
pub use place::Place;
pub use spot::Spot;
pub use values::Value;
