//! The graph of a derivation, its root and the order of its steps.
//!
//! `graph_of` answers the numbers of the parents of each step, or the first parent that no step has for a
//! name, or the least step from which a walk along parents leads back to it (specs/Graphs). `root` answers the
//! first step that derives `$false` and may be the root (specs/Roots), and so does `root_by_marks`. `order` answers
//! the one list that has, at each turn, the least step whose parents are all listed (specs/Orders); where there is no
//! cycle it has every step.
//!
//! It takes nodes with distinct names from whoever built a trace, and asks nothing of names else: a parent may
//! stand later in the file. In a graph that `graph_of` answers each parent is a step and there is an order, so
//! the place of a step in the order falls along every walk. Laws for the crates above stand in `proofs/AnswerLaws`
//! (nodes have one graph, steps one root), `proofs/OrderExists` (without a cycle there is an order),
//! `proofs/GraphLaws` (in the rows of nodes every parent is a step) and `proofs/OrderLaws` (ranks in an order).
//!
//! Names are looked up by hashes. A step waits at its first parent that isn't listed, and each time that one
//! is listed it looks for the next: so the cost is near linear in steps and parents where a step has few
//! parents. Where there is a cycle, the components of the graph are guessed in linear time, and the guess is
//! tested: ranks that never fall along parents and rise from every step before one that lies on a cycle show
//! that it is the least. Only a guess that failed would have each step tried by a walk. No call nests along parents.
#![tactic(auto)]

mod agenda;
mod cycles;
mod graph;
mod graphs;
mod laws;
mod listing;
mod names;
mod orders;
mod ranks;
mod ready;
mod roots;
mod rows;

pub use graph::{Graph, GraphFault, Node};
pub use graphs::graph_of;
pub use laws::{one_answer, order_exists};
pub use orders::order;
pub use roots::{root, root_by_marks};
