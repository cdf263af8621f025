//! Tokens.
use lp_term::Ident;

/// A token.
#[derive(Debug, Drop)]
pub enum Token {
    /// `constant`
    Constant,
    /// `symbol`
    Symbol,
    /// `rule`
    Rule,
    /// `let`
    Let,
    /// `in`
    In,
    /// `TYPE`
    Sort,
    /// An identifier.
    Name(Ident),
    /// `$` and an identifier, without the `$`.
    Pattern(Ident),
    OpenBracket,
    CloseBracket,
    Colon,
    Comma,
    Semicolon,
    /// `λ`
    Lambda,
    /// `Π`
    Product,
    /// `→`
    Arrow,
    /// `≔`
    Defined,
    /// `↪`
    Rewrites,
}
