//! What the type checker finds.
use crate::fault::Want;
use lp_term::{Ident, Lp};

/// Why a term is refused, at a node.
#[derive(Drop)]
pub enum Refusal {
    /// A symbol that is not declared.
    UnknownName(u64, Ident),
    /// A term of which no type is to be found, or that leaves the fragment.
    OutOfFragment(u64),
    /// A term of another type than the wanted one. Both are full; the last is the level.
    IllTyped(u64, Want, Lp, usize),
}

/// A term's lazy type and value, or why it is refused.
#[derive(Drop)]
pub enum Finding {
    Typed(Lp, Lp),
    Refused(Refusal),
}

/// A type's lazy type, or why it is refused.
#[derive(Drop)]
pub enum Opening {
    Opened(Lp),
    Closed(Refusal),
}

/// What is still to be done with what is found at the end of a right spine.
#[derive(Drop)]
pub enum Frame {
    /// The body of an abstraction: its node and its domain.
    Body(u64, Lp),
    /// The body of a let: its node, the domain and the value.
    Within(u64, Lp, Lp),
    /// A last argument: the application's node and its own, the level, the function's value and its
    /// type's two parts.
    Last(u64, u64, usize, Lp, Lp, Lp),
}

/// A step down a right spine: the next part, its node and the node past it; or what was found at
/// the end.
pub enum Step<'a> {
    Down(&'a Lp, u64, u64),
    Stop(Finding),
}

/// A step down the right parts of products: the next part and its node; or what the last part is.
pub enum TypeStep<'a> {
    Below(&'a Lp, u64),
    Reached(Opening),
}

/// Why a development is not accepted. Commands are counted from 1.
#[derive(Drop)]
pub enum Rejection {
    BadPrelude(u32),
    BadSymbol(u32),
    BadGoal(u32),
    InGoal(Refusal),
}
