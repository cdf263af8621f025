//! The longest token in front of bytes.
ghost use Rattle.std.specs.Prelude.{◌≡◌, ◌∷◌, IfOk, MatchOption};
ghost use Rattle.tptp_tokens.specs.Scan as scan;
ghost use Rattle.tptp_tokens.specs.Spelling.{IsTokenless, Longest};
ghost use Rattle.tptp_tokens.specs.Quotes.{KnowsUnclosed};

use crate::marks::mark_behind;
use crate::numbers::after_number;
use crate::quoted::{Unclosed, distinct, quoted};
use crate::token::Token;
use crate::words::{
    after_dollar, after_word, before, is_digit_byte, is_lower_byte, is_sign_byte, is_upper_byte,
};
use dk_syntax::NoMemory;
use std::alloc::Global;

/// A number, or a lone sign.
fn number<'a>(
    alloc: Global,
    sign: u8,
    bytes: &'a [u8],
    behind: &'a [u8],
) -> Result<(Token, &'a [u8]), NoMemory>
    requires { bytes.now ≡ sign ∷ behind.now }
    ensures { IfOk result (λ x. (x.0, x.1.now)
        ≡ scan.number_or sign behind.now (scan.after_number bytes.now)) }
{
    match after_number(bytes) {
        Some(rest) => Ok((Token::Number(before(alloc, bytes, rest)?), rest)),
        None => Ok((Token::Other(sign), behind)),
    }
}

/// A dollar word, or a lone `$`.
fn dollar<'a>(
    alloc: Global,
    bytes: &'a [u8],
    behind: &'a [u8],
) -> Result<(Token, &'a [u8]), NoMemory>
    requires { bytes.now ≡ 36 ∷ behind.now }
    ensures { IfOk result (λ x. (x.0, x.1.now)
        ≡ scan.dollar_or behind.now (scan.after_dollar behind.now)) }
{
    match after_dollar(behind) {
        Some(rest) => Ok((Token::Dollar(before(alloc, bytes, rest)?), rest)),
        None => Ok((Token::Other(b'$'), behind)),
    }
}

/// The longest token that stands in front of the bytes, and the bytes behind it. What is known of quotes that
/// nothing closes grows.
#[tactic(auto, unfolding(crate::specs::Scan::token_at))]
pub(crate) fn next_token<'a>(
    alloc: Global,
    unclosed: &mut Unclosed,
    bytes: &'a [u8],
) -> Result<Option<(Token, &'a [u8])>, NoMemory>
    requires { KnowsUnclosed unclosed.old bytes.now }
    ensures read { IfOk result (λ o. scan.seen (λ x. (x.0, x.1.now)) o ≡ scan.token_at bytes.now) }
    ensures knows { IfOk result (λ o. KnowsUnclosed unclosed.new bytes.now) }
{
    match bytes {
        [] => Ok(None),
        [b, behind @ ..] => {
            let b = *b;
            if is_lower_byte(b) {
                let rest = after_word(behind);
                Ok(Some((Token::Lower(before(alloc, bytes, rest)?), rest)))
            } else if is_upper_byte(b) {
                let rest = after_word(behind);
                Ok(Some((Token::Upper(before(alloc, bytes, rest)?), rest)))
            } else if is_digit_byte(b) || is_sign_byte(b) {
                Ok(Some(number(alloc, b, bytes, behind)?))
            } else if b == b'\'' {
                Ok(Some(quoted(alloc, &mut unclosed.single, behind)?))
            } else if b == b'"' {
                Ok(Some(distinct(alloc, &mut unclosed.double, behind)?))
            } else if b == b'$' {
                Ok(Some(dollar(alloc, bytes, behind)?))
            } else {
                Ok(mark_behind(b, behind))
            }
        }
    }
}

/// The longest token that stands in front of the bytes, and the bytes behind it, or none where no token
/// stands there: none begins with white space, with a control byte or with a byte past ASCII, and one begins
/// with any other byte.
pub fn token_of(alloc: Global, bytes: &[u8]) -> Result<Option<(Token, &[u8])>, NoMemory>
    ensures { IfOk result (λ o. MatchOption o (IsTokenless bytes.now)
        (λ x. Longest bytes.now x.0 x.1.now)) }
{
    let mut unclosed = Unclosed::new(bytes);
    next_token(alloc, &mut unclosed, bytes)
}
