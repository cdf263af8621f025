//! What the outside, the terms and their printing do that no contract says: each public call finds its answer where
//! there is memory, and the adapters reach the system. Nothing else stands here: a crate with tests is proved twice,
//! and this one has no functions of its own.
#![tactic(auto)]

#[cfg(test)]
mod checking;
#[cfg(test)]
mod normal_types;
#[cfg(test)]
mod outside;
#[cfg(test)]
mod printing;
#[cfg(test)]
mod reading;
#[cfg(test)]
mod terms;
