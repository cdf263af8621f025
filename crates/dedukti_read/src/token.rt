//! Tokens.
use lp_term::Ident;

/// A token.
#[derive(Debug, Drop)]
pub enum Token {
    /// `def`
    Def,
    /// `Type`
    Sort,
    /// An identifier.
    Name(Ident),
    /// `(`
    OpenBracket,
    /// `)`
    CloseBracket,
    /// `[`
    OpenSquare,
    /// `]`
    CloseSquare,
    /// `:`
    Colon,
    /// `,`
    Comma,
    /// `.`
    Stop,
    /// `:=`
    Defined,
    /// `->`
    Arrow,
    /// `-->`
    Rewrites,
    /// `=>`
    Maps,
}
