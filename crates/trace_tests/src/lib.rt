//! What the trees, traces and graphs do that no contract says: each public call finds its answer where there is
//! memory, and worked rows. Nothing else stands here: a crate with tests is proved twice, and this one has no functions
//! of its own.
#![tactic(auto)]

#[cfg(test)]
mod graphs;
#[cfg(test)]
mod tables;
#[cfg(test)]
mod traces;
#[cfg(test)]
mod trees;
