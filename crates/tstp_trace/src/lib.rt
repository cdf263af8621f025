//! Problems and traces of items.
//!
//! `build_problem` answers the hypotheses, the conjecture and the symbols of a problem's items by their roles
//! (specs/Problems), and `build_trace` a step for each item of a trace, with its source flattened to a leaf or to
//! the names of its parents (specs/Sources, specs/Traces). Where an item is at fault, both answer the first fault
//! of the first such item (specs/Faults).
//!
//! Any items are taken. Of a trace's item the role, the language and the free variable don't matter; of a
//! problem's item the source and the language don't. The names of a problem and of a trace are distinct, and a
//! derived step has from one to eight parents, which differ, and only one where it is a negation or a Skolem
//! step: the names of parents are collected only until there are more than eight. Formulas are those of the items.
//! Laws for the crates above stand in `proofs/AnswerLaws` (items have one problem and one trace) and, on what a
//! problem or a trace keeps of its items, in `proofs/ProperLaws` and `proofs/KeptLaws`.
//!
//! The cost is linear in the items, with names and symbols looked up by hashes. Calls nest as deep as the
//! inferences of a source.
#![tactic(auto)]

mod derivations;
mod fault;
mod laws;
mod names;
mod problems;
mod sources;
mod step;
mod traces;
mod words;

pub use dk_syntax::{Named, Problem};
pub use fault::{ProblemFault, TraceFault, Unsupported};
pub use problems::{build_problem, problem_from};
pub use step::{MAX_PARENTS, Step, StepSource, Trace};
pub use traces::{build_trace, trace_from};
