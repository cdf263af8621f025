//! What plans and their reports are on worked traces, and that the calls find their answer where there is memory. Nothing
//! else stands here: a crate with tests is proved twice, and this one has no functions of its own.
#![tactic(auto)]

#[cfg(test)]
mod expansions;
#[cfg(test)]
mod instances;
