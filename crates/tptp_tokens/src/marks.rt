//! Marks.
ghost use Rattle.std.specs.Prelude.{◌≡◌};
ghost use Rattle.tptp_tokens.specs.Spelling.{mark_of};
ghost use Rattle.tptp_tokens.specs.Scan as scan;

use crate::token::Token;

/// The mark that one byte is.
fn mark(b: u8) -> Option<Token>
    ensures { result ≡ mark_of b }
{
    match b {
        b'(' => Some(Token::OpenRound),
        b')' => Some(Token::CloseRound),
        b'[' => Some(Token::OpenSquare),
        b']' => Some(Token::CloseSquare),
        b',' => Some(Token::Comma),
        b'.' => Some(Token::Dot),
        b':' => Some(Token::Colon),
        b'~' => Some(Token::Not),
        b'&' => Some(Token::And),
        b'|' => Some(Token::Or),
        b'!' => Some(Token::ForAll),
        b'?' => Some(Token::Exists),
        b'=' => Some(Token::Equal),
        _ => None,
    }
}

/// A byte that is a mark, or another visible one, which stands before the bytes.
fn single(b: u8, bytes: &[u8]) -> Option<(Token, &[u8])>
    ensures { scan.seen (λ x. (x.0, x.1.now)) result ≡ scan.single_at b bytes.now }
{
    match mark(b) {
        Some(mark) => Some((mark, bytes)),
        None => {
            if b'!' <= b && b <= b'~' {
                Some((Token::Other(b), bytes))
            } else {
                None
            }
        }
    }
}

/// What begins with `<`.
fn less(bytes: &[u8]) -> (Token, &[u8])
    ensures { (result.0, result.1.now) ≡ scan.less_at bytes.now }
{
    match bytes {
        [b'=', b'>', rest @ ..] => (Token::Iff, rest),
        [b'~', b'>', rest @ ..] => (Token::Differs, rest),
        [b'=', rest @ ..] => (Token::ImpliedBy, rest),
        _ => (Token::Other(b'<'), bytes),
    }
}

/// What begins with `=`.
fn equal(bytes: &[u8]) -> (Token, &[u8])
    ensures { (result.0, result.1.now) ≡ scan.equal_at bytes.now }
{
    match bytes {
        [b'>', rest @ ..] => (Token::Implies, rest),
        _ => (Token::Equal, bytes),
    }
}

/// What begins with `!`.
fn bang(bytes: &[u8]) -> (Token, &[u8])
    ensures { (result.0, result.1.now) ≡ scan.bang_at bytes.now }
{
    match bytes {
        [b'=', rest @ ..] => (Token::Unequal, rest),
        _ => (Token::ForAll, bytes),
    }
}

/// What begins with `~`.
fn tilde(bytes: &[u8]) -> (Token, &[u8])
    ensures { (result.0, result.1.now) ≡ scan.tilde_at bytes.now }
{
    match bytes {
        [b'|', rest @ ..] => (Token::Nor, rest),
        [b'&', rest @ ..] => (Token::Nand, rest),
        _ => (Token::Not, bytes),
    }
}

/// A mark of one or more bytes, or another visible byte, the first of which stands before the bytes.
pub(crate) fn mark_behind(b: u8, bytes: &[u8]) -> Option<(Token, &[u8])>
    ensures { scan.seen (λ x. (x.0, x.1.now)) result ≡ scan.mark_at b bytes.now }
{
    match b {
        b'<' => Some(less(bytes)),
        b'=' => Some(equal(bytes)),
        b'!' => Some(bang(bytes)),
        b'~' => Some(tilde(bytes)),
        _ => single(b, bytes),
    }
}
