//! The instances that a refutation needs, pulled back from its root.
//!
//! An instance is a step, a stage, the number of a clause and a ground term for each variable of the clause. What it needs is
//! a relation with one case a verdict (`specs/Needs`), and so is the list of those that the root's empty clause needs.
//! `pull_back` answers that list, or that it weighs more than the limit, or the step of the first instance that is too wide.
//! Its terms stand in one table (`specs/Rows`); with the list the table has exactly the terms of the clauses.
//!
//! It takes the verdict list of a trace without a bad step, and the trace's graph. The form that represents a step and its clause
//! list are made once, on demand, by a loop along structural parents. Rows are looked up by their numbers, by hashes. The visit
//! is a loop with a list of tasks: no call nests along steps. The weight is tested after each task, and tree weights are
//! read off the table's sizes, so nothing is written out that is refused. Terms are put into the table by recursion.
//!
//! Laws for the crates above stand in `proofs/OneVisit` (what is needed is one list), `proofs/ClauseLaws` (an instance has one
//! clause), `proofs/StandsLaws` (the forms that the verdicts tell represent the steps) and `proofs/Consequences` (an instance's
//! ground clause follows from those of the instances that it needs).
#![tactic(auto)]

mod entering;
mod given;
mod instance;
mod laws;
mod lists;
mod naming;
mod needing;
mod notes;
mod pulling;
mod reading;
mod state;
mod variables;
mod visiting;

pub use instance::{Instance, Instances, PullFault, Row, RowLit};
pub use laws::{follows_from_needed, needed_are_one};
pub use pulling::pull_back;
pub use reading::{instance_at, weight};
