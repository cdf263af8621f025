//! Plans: what a proof of a refutation is made from.
//!
//! A step over a leaf has one map, from the leaf's normal form to the form that represents the step
//! (`specs/Maps`). The thin tree of an instance goes through the leaf's form by this map
//! (`specs/Thins`), and the origin of a symbol keeps the map of the step that introduces it
//! (`specs/Origins`). A plan has both beside the instances and the Skolem terms that they need
//! (`specs/Plans`). `make_plan` answers the plan of a trace, or the first refusal.
//!
//! The maps of all steps are made in an order in which each step comes after its parents. An origin
//! has a copy of its leaf's formula and of its step's map.
//!
//! An instance's thin tree is made from the clause list of the form that represents its step, which
//! is built once for each step. The terms of thin trees and the ground clauses are written out as
//! trees before the Skolem terms in them are put in order.
//!
//! Laws for the crates above stand in `proofs/StepMaps` (one map, and where its entries come from),
//! `proofs/Existence` (which steps have maps), `proofs/OriginLaws` (the origins are what the order
//! of Skolem terms rests on), `proofs/FitOrigins` (kinds and arities of their symbols),
//! `proofs/OneAnswer` (one map, one list of origins, one thin tree), `proofs/OnePull` (the answer
//! on the instances of a root), `proofs/OnePlan` (one plan), `proofs/GroundTrees` (terms of thin
//! trees and of ground clauses are ground), `proofs/LeafSymbols` (the symbols of leaves are the
//! problem's), `proofs/FreshLists` (no symbol is introduced twice), `proofs/Visited` (no instance stands
//! twice), and on lists `proofs/Membership` and `proofs/Counts`.
#![tactic(auto)]

mod given;
mod graph;
mod laws;
mod maps;
mod ordering;
mod origins;
mod plan;
mod planning;
mod root;
mod thins;

pub use graph::graph_in;
pub use laws::{
    answers_are_one, maps_are_over_leaves, origins_are_fit, origins_are_right, plans_are_one,
    pull_answers_are_one,
};
pub use maps::{StepMap, map_of_step, maps_of};
pub use origins::origins_of;
pub use plan::{Plan, PlanFault};
pub use planning::{Start, make_plan};
pub use root::root_in;
pub use thins::{Sources, thins_of};
