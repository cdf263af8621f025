//! What the reader of texts does that no contract says: each public call of its crates finds its answer where there is
//! memory, and worked texts. Nothing else stands here: a crate with tests is proved twice, and this one has no
//! functions of its own.
#![tactic(auto)]

#[cfg(test)]
mod formulas;
#[cfg(test)]
mod printing;
#[cfg(test)]
mod texts;
#[cfg(test)]
mod tokens;
