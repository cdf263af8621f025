//! What the type checker answers.
use lp_term::{Ident, Lp};

/// That a development is accepted: its goal has its type.
#[derive(Debug, Drop)]
pub struct Typed;

/// What a place asks of a type.
#[derive(Drop)]
pub enum Want {
    /// This type, which is normal.
    Exactly(Lp),
    /// A product, of the type of a function.
    Product,
    /// A sort, of the type of an annotation, a domain or a declared type.
    Sorted,
}

/// Why a development is not accepted. Commands are counted from 1. The nodes of the goal's type, and
/// those of its body, are counted from 0 in preorder: a node comes before its parts, a type before a
/// body, a function before its argument.
#[derive(Drop)]
pub enum CheckFault {
    /// The first command that differs from the prelude's, or is missing.
    BadPrelude {
        command: u32,
    },
    /// A constant whose name isn't new, or whose type is neither `I → .. → I` nor `I → .. → Prop`.
    BadSymbol {
        command: u32,
    },
    /// A command where the definition of `goal` was to stand, as the last.
    BadGoal {
        command: u32,
    },
    /// A symbol that no command before declares.
    UnknownName {
        node: u64,
        name: Ident,
    },
    /// A term of which no type is to be found, or an abstraction or an application that makes an
    /// object of what is none.
    OutOfFragment {
        node: u64,
    },
    /// A term whose type is not the wanted one. Both are normal and stand below `level` binders.
    IllTyped {
        node: u64,
        want: Want,
        found: Lp,
        level: u32,
    },
    /// Want of memory.
    Memory,
}
