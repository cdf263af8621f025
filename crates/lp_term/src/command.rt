//! Commands and developments.
use crate::ident::Ident;
use crate::lp::Lp;
use dk_syntax::Seq;

/// A command of a development.
#[derive(Drop)]
pub enum Command {
    /// A constant and its type: `constant symbol`.
    Constant(Ident, Lp),
    /// A symbol that rules may define, and its type: `symbol` without a body.
    Symbol(Ident, Lp),
    /// A definition, its type and its body.
    Define(Ident, Lp, Lp),
    /// A rewriting rule: its left side and its right side.
    Rule(Lp, Lp),
}

/// A development: its commands in order.
#[derive(Drop)]
pub struct Dev {
    pub commands: Seq<Command>,
}
