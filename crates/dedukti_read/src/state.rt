//! What was read of a command so far.
use crate::read::Read;
use crate::scope::Scope;
use crate::stack::Stack;
use dk_syntax::Seq;
use lp_term::Ident;

/// What the name of a command is written for.
#[derive(Clone, Copy)]
pub(crate) enum Role {
    Constant,
    Symbol,
}

/// What began before a place and isn't over.
#[derive(Drop)]
pub(crate) enum Frame {
    /// A bracket that begins a term.
    Bracket,
    /// A bracket behind the function whose argument it holds.
    Argument(Read),
    /// A bracket that begins the annotation of a name.
    Annotation(Ident),
    /// A bracket in the annotation of a name, behind the function whose argument it holds.
    AnnotationArgument(Ident, Read),
    /// The type of a command's name.
    Type(Role, Ident),
    /// The body of an abstraction, behind its annotation.
    Abstraction(Read),
    /// The body of a product, behind its annotation.
    Product(Read),
    /// The body of a definition, behind its name and its type.
    Definition(Ident, Read),
    /// The left side of a rule.
    Left,
    /// The right side of a rule, behind the left one.
    Right(Read),
}

/// What may come next.
#[derive(Drop)]
pub(crate) enum Mode {
    /// A command.
    Command,
    /// A name, behind `def`.
    Named,
    /// The colon behind the name of a command.
    Colon(Role, Ident),
    /// The first pattern variable of a rule, or the bracket behind none.
    First,
    /// What stands behind a pattern variable.
    Listed,
    /// A further pattern variable.
    Further,
    /// A term.
    Term,
    /// What stands behind a name that begins a term: a colon, where it is bound.
    Begun(Ident),
    /// More of an application, or what stands behind it.
    Goes(Read),
    /// The annotation of a name.
    Annotated(Ident),
    /// More of the annotation of a name, or the mark behind it.
    Annotates(Ident, Read),
}

/// A command whose terms were read.
#[derive(Drop)]
pub(crate) enum Said {
    Constant(Ident, Read),
    Symbol(Ident, Read),
    Define(Ident, Read, Read),
    Rule(Read, Read),
}

/// What a token leads to.
#[derive(Drop)]
pub(crate) enum Turn {
    On(Mode),
    End(Said),
}

/// What is around the place where the next token stands.
#[derive(Drop)]
pub(crate) struct Place {
    pub(crate) frames: Stack<Frame>,
    pub(crate) scope: Scope,
    /// The pattern variables of the rule, if it is one.
    pub(crate) patterns: Seq<Ident>,
}

/// A term in a frame: a wider one, where the frame is that of its body.
#[derive(Drop)]
pub(crate) enum Wrapped {
    Wider(Read),
    Stays(Frame, Read),
}
