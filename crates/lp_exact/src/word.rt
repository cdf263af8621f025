//! The words of the rules.
ghost use Rattle.std.specs.Prelude.{◌≡◌};
ghost use Rattle.lp_exact.specs.Words.{word_of};

use lp_term::Ident;

/// What a symbol is to the rules and to the types: one of the prelude's, or none of these.
#[derive(Drop)]
pub enum Word {
    Individuals,
    Propositions,
    Prf,
    Imp,
    And,
    Or,
    Iff,
    Not,
    Top,
    Bot,
    All,
    Ex,
    Other,
}

/// What the symbol of that name is.
pub fn word_named(name: &Ident) -> Word
    ensures { result ≡ word_of name.now }
{
    let bytes = name.as_bytes();
    if bytes == b"I".as_slice() {
        Word::Individuals
    } else if bytes == b"Prop".as_slice() {
        Word::Propositions
    } else if bytes == b"Prf".as_slice() {
        Word::Prf
    } else if bytes == b"imp".as_slice() {
        Word::Imp
    } else if bytes == b"and".as_slice() {
        Word::And
    } else if bytes == b"or".as_slice() {
        Word::Or
    } else if bytes == b"iff".as_slice() {
        Word::Iff
    } else if bytes == b"not".as_slice() {
        Word::Not
    } else if bytes == b"top".as_slice() {
        Word::Top
    } else if bytes == b"bot".as_slice() {
        Word::Bot
    } else if bytes == b"all".as_slice() {
        Word::All
    } else if bytes == b"ex".as_slice() {
        Word::Ex
    } else {
        Word::Other
    }
}
