//! Tokens.
use dk_syntax::Name;

/// A token. Words and numbers keep their spelling, quoted names and distinct objects the bytes between
/// the quotes with each escape read as the byte that it stands for.
#[derive(Debug, Drop)]
pub enum Token {
    /// A small letter, then letters, digits and `_`.
    Lower(Name),
    /// A capital letter, then letters, digits and `_`.
    Upper(Name),
    /// `$` or `$$` and a lower word, with the `$`.
    Dollar(Name),
    /// What stands between `'` and `'`.
    Quoted(Name),
    /// What stands between `"` and `"`.
    Distinct(Name),
    /// An integer, a rational or a decimal number, with its sign.
    Number(Name),
    OpenRound,
    CloseRound,
    OpenSquare,
    CloseSquare,
    Comma,
    Dot,
    Colon,
    /// `~`
    Not,
    /// `&`
    And,
    /// `|`
    Or,
    /// `=>`
    Implies,
    /// `<=`
    ImpliedBy,
    /// `<=>`
    Iff,
    /// `<~>`
    Differs,
    /// `~|`
    Nor,
    /// `~&`
    Nand,
    /// `!`
    ForAll,
    /// `?`
    Exists,
    /// `=`
    Equal,
    /// `!=`
    Unequal,
    /// A byte that begins no other token.
    Other(u8),
}
