//! Reports on traces.
//!
//! `step_line` is the line of one step, `step_lines` those of all steps in order: the step's number, its name, and the
//! word for its verdict (specs/StepLines). `reason_text` and `limit_word` tell why a step is wrong and which limit it
//! passes (specs/Words). `problem_of` is a derived step as a problem in TPTP, that its formula follows from its parents'
//! formulas, and `problems_of` are all derived steps so, in order (specs/StepProblems). `expansion_report` is the report
//! on an expansion from the plan for its trace: needed Skolem terms with their origin formulas, instances with their thin
//! trees, and the weight (specs/ExpansionReport). Names are printed by the rules of `tptp_text`, so every byte is ASCII where those of a
//! quoted name are.
//!
//! The parents of a problem are read off the graph of the trace; a law says that they are the steps that the step names
//! (specs/Laws).
//!
//! Time and memory grow with the text. The one formula that is copied is the parent of a step that negates it.
#![tactic(auto)]

mod bytes;
mod laws;
mod lines;
mod problems;
mod report;
mod report_lines;
mod steps;
mod words;

pub use laws::parents_are_named;
pub use lines::{step_line, step_lines};
pub use problems::{problem_of, problems_of};
pub use report::expansion_report;
pub use words::{limit_word, reason_text};
