//! What is found of the steps of a trace.
//!
//! A step is right where it is an item of the problem (a leaf), where its normal form is that of its one parent up to order and
//! grouping or a Skolem image of it (structural), where its clauses follow from those of its one or two parents by
//! justifications (clausal) or from three to eight by chains (chained), or where they follow from an image of its one parent
//! with all existentials replaced by new symbols (composed). The first of the cases in `specs/Verdicts` that applies is the
//! verdict; limits of forms and of clause lists come first (`specs/Limits`). For its children a structural step is represented by
//! the image of its parent's representative, so that clauses of a regrouped form keep their numbers, and any other step by its own
//! normal form (`specs/Representatives`). The verdict list refuses structural and composed steps whose symbols aren't new
//! (`specs/Freshness`). A step has one representative and one verdict, and a trace one verdict list.
//!
//! The calls want the graph of the trace, and steps with no more than eight parents, as `build_trace` gives them.
//!
//! Sizes are counted before a form or a list is built. A piece of steps is judged with one table of own forms, of their sorted
//! forms and of representatives, each found once, on demand: the way up from a step goes along single parents as far as steps
//! are structural, by a loop. A leaf's name is looked for among the problem's items one by one. What justifications, chains
//! and composed images cost stands with those crates.
//!
//! Laws for the crates above stand in `proofs/OneRepresentative`, `proofs/OneVerdict` and `proofs/SortedLaws`, and on truth in
//! `proofs/TrueClauses` (justified and chained clauses), `proofs/TrueForms` (regrouped forms), `proofs/TrueSteps` (steps that are
//! right by their clauses) and `proofs/EmptyMaps` (structural steps with an empty map).
#![tactic(auto)]

mod aliens;
mod bad_steps;
mod clausal;
mod climbing;
mod freshness;
mod given;
mod images;
mod inference;
mod judging;
mod laws;
mod leaves;
mod limits;
mod links;
mod notes;
mod own;
mod table;
mod verdict;
mod workers;

pub use bad_steps::first_bad;
pub use freshness::fresh;
pub use judging::{form, judge};
pub use laws::{representatives_are_one, verdicts_are_one, verdicts_keep_truth};
pub use verdict::{Limit, Reason, Verdict, Verdicts};
pub use workers::judge_all;
