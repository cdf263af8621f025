//! The token in front of bytes.
ghost use Rattle.std.specs.Prelude.{◌≡◌, IfOk};
ghost use Rattle.lp_term.specs.Identifiers.{word_byte};
ghost use Rattle.dedukti_read.specs.Scan as scan;

use crate::token::Token;
use dk_syntax::NoMemory;
use lp_term::Ident;
use std::alloc::Global;

/// Whether the byte is a letter, a digit or `_`.
fn is_word_byte(b: u8) -> bool
    ensures { result ≡ word_byte b }
{
    b.is_ascii_alphanumeric() || b == b'_'
}

/// The letters, digits and `_` in front, and what stands behind them.
fn word(alloc: Global, bytes: &[u8]) -> Result<(Vec<u8>, &[u8]), NoMemory>
    ensures word { IfOk result (λ x. x.0.items ≡ scan.word_in bytes.now) }
    ensures behind { IfOk result (λ x. x.1.now ≡ scan.behind_word bytes.now) }
{
    let mut word = Vec::new(alloc);
    let mut rest = bytes;
    while let [b, next @ ..] = rest {
        let b = *b;
        if !is_word_byte(b) {
            break;
        }
        word.push(b)?;
        rest = next;
    }
    Ok((word, rest))
}

/// The word of the grammar that a word is.
fn reserved(word: &[u8]) -> Option<Token>
    ensures { result ≡ scan.reserved_at word.now }
{
    if word == b"def".as_slice() {
        Some(Token::Def)
    } else if word == b"Type".as_slice() {
        Some(Token::Sort)
    } else {
        None
    }
}

/// Whether a word begins with no digit, and is neither empty nor `_`.
fn is_name(word: &[u8]) -> bool
    ensures { result ≡ scan.is_name word.now }
{
    match word {
        [] => false,
        [first, ..] => {
            if first.is_ascii_digit() {
                false
            } else if word == b"_".as_slice() {
                false
            } else {
                true
            }
        }
    }
}

/// The token that a word is.
fn word_token(word: Vec<u8>) -> Option<Token>
    ensures { result ≡ scan.word_at word.items }
{
    match reserved(word.as_slice()) {
        Some(token) => Some(token),
        None => {
            if is_name(word.as_slice()) {
                Some(Token::Name(Ident::new(word)))
            } else {
                None
            }
        }
    }
}

/// The mark that one byte is, and that no longer one begins with.
fn mark(b: u8) -> Option<Token>
    ensures { result ≡ scan.mark_of b }
{
    match b {
        b'(' => Some(Token::OpenBracket),
        b')' => Some(Token::CloseBracket),
        b'[' => Some(Token::OpenSquare),
        b']' => Some(Token::CloseSquare),
        b',' => Some(Token::Comma),
        b'.' => Some(Token::Stop),
        _ => None,
    }
}

/// `:` or `:=`, behind the first byte.
fn colon(bytes: &[u8]) -> Option<(Token, &[u8])>
    ensures { scan.seen (λ x. (x.0, x.1.now)) result ≡ scan.colon_at bytes.now }
{
    match bytes {
        [b'=', rest @ ..] => Some((Token::Defined, rest)),
        _ => Some((Token::Colon, bytes)),
    }
}

/// `->` or `-->`, behind the first byte.
fn dash(bytes: &[u8]) -> Option<(Token, &[u8])>
    ensures { scan.seen (λ x. (x.0, x.1.now)) result ≡ scan.dash_at bytes.now }
{
    match bytes {
        [b'>', rest @ ..] => Some((Token::Arrow, rest)),
        [b'-', b'>', rest @ ..] => Some((Token::Rewrites, rest)),
        _ => None,
    }
}

/// `=>`, behind the first byte.
fn equals(bytes: &[u8]) -> Option<(Token, &[u8])>
    ensures { scan.seen (λ x. (x.0, x.1.now)) result ≡ scan.equals_at bytes.now }
{
    match bytes {
        [b'>', rest @ ..] => Some((Token::Maps, rest)),
        _ => None,
    }
}

/// A mark whose first byte stands before the bytes.
fn mark_behind(b: u8, bytes: &[u8]) -> Option<(Token, &[u8])>
    ensures { scan.seen (λ x. (x.0, x.1.now)) result ≡ scan.mark_at b bytes.now }
{
    match b {
        b':' => colon(bytes),
        b'-' => dash(bytes),
        b'=' => equals(bytes),
        _ => match mark(b) {
            Some(token) => Some((token, bytes)),
            None => None,
        },
    }
}

/// The token that a word in front is, and the bytes behind it.
fn word_behind(alloc: Global, bytes: &[u8]) -> Result<Option<(Token, &[u8])>, NoMemory>
    ensures { IfOk result (λ o. scan.seen (λ x. (x.0, x.1.now)) o
        ≡ scan.before_rest (scan.behind_word bytes.now) (scan.word_at (scan.word_in bytes.now))) }
{
    let (word, rest) = word(alloc, bytes)?;
    match word_token(word) {
        Some(token) => Ok(Some((token, rest))),
        None => Ok(None),
    }
}

/// The token in front of the bytes, and the bytes behind it.
#[tactic(auto, unfolding(crate::specs::Scan::token_at))]
pub(crate) fn token_of(alloc: Global, bytes: &[u8]) -> Result<Option<(Token, &[u8])>, NoMemory>
    ensures { IfOk result (λ o. scan.seen (λ x. (x.0, x.1.now)) o ≡ scan.token_at bytes.now) }
{
    match bytes {
        [] => Ok(None),
        [b, behind @ ..] => {
            let b = *b;
            if is_word_byte(b) {
                word_behind(alloc, bytes)
            } else {
                Ok(mark_behind(b, behind))
            }
        }
    }
}
