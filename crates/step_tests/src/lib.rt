//! What the steps' crates do that no contract says: each public call finds its answer where there is memory, and
//! worked steps. Nothing else stands here: a crate with tests is proved twice, and this one has no functions of its
//! own.
#![tactic(auto)]

#[cfg(test)]
mod chains;
#[cfg(test)]
mod forms;
#[cfg(test)]
mod freshness;
#[cfg(test)]
mod images;
#[cfg(test)]
mod justifications;
#[cfg(test)]
mod skolem_rows;
#[cfg(test)]
mod unifiers;
#[cfg(test)]
mod workers;
