//! What was read of a command so far.
use crate::read::Read;
use crate::scope::Scope;
use crate::stack::Stack;
use lp_term::Ident;

/// What binds a name between brackets.
#[derive(Clone, Copy)]
pub(crate) enum Binder {
    Abstraction,
    Product,
}

/// What a name is written for.
#[derive(Clone, Copy)]
pub(crate) enum Role {
    Constant,
    Symbol,
    Let,
    Binder(Binder),
}

/// What began before a place and isn't over.
#[derive(Drop)]
pub(crate) enum Frame {
    /// A bracket that begins a term.
    Bracket,
    /// A bracket behind the function whose argument it holds.
    Argument(Read),
    /// The type of a name.
    Type(Role, Ident),
    /// The value of a `let`, behind its name and its type.
    Value(Ident, Read),
    /// The body of a `let`, behind its type and its value.
    LetBody(Read, Read),
    /// The body of an abstraction, behind its type.
    Abstraction(Read),
    /// The body of a product, behind its type.
    Product(Read),
    /// The body of a definition, behind its name and its type.
    Definition(Ident, Read),
    /// The left side of a rule.
    Left,
    /// The right side of a rule, behind the left one.
    Right(Read),
}

/// What may come next.
#[derive(Drop)]
pub(crate) enum Mode {
    /// A command.
    Command,
    /// The word `symbol`, behind `constant`.
    Keyword,
    /// A bracket, behind a `λ` or a `Π`.
    Open(Binder),
    /// A name.
    Named(Role),
    /// The colon behind a name.
    Colon(Role, Ident),
    /// The comma behind the name and the type of a binder.
    Comma(Binder, Ident, Read),
    /// A term.
    Term,
    /// More of an application, or what stands behind it.
    Goes(Read),
}

/// A command whose terms were read.
#[derive(Drop)]
pub(crate) enum Said {
    Constant(Ident, Read),
    Symbol(Ident, Read),
    Define(Ident, Read, Read),
    Rule(Read, Read),
}

/// What a token leads to.
#[derive(Drop)]
pub(crate) enum Turn {
    On(Mode),
    End(Said),
}

/// What is around the place where the next token stands.
#[derive(Drop)]
pub(crate) struct Place {
    pub(crate) frames: Stack<Frame>,
    pub(crate) scope: Scope,
    /// Whether pattern variables may stand there.
    pub(crate) patterns: bool,
}

/// A term in a frame: a wider one, where the frame is that of its body.
#[derive(Drop)]
pub(crate) enum Wrapped {
    Wider(Read),
    Stays(Frame, Read),
}
