//! Words, dollar words and numbers.
ghost use Rattle.std.specs.Prelude.{◌≡◌, ◌≤◌, length, IfOk, IfSome};
ghost use Rattle.tptp_tokens.specs.Bytes.{is_lower, is_upper, is_digit, is_word, is_sign};
ghost use Rattle.tptp_tokens.specs.Scan as scan;

use dk_syntax::{Name, NoMemory};
use std::alloc::Global;

pub(crate) fn is_lower_byte(b: u8) -> bool
    ensures { result ≡ is_lower b }
{
    b.is_ascii_lowercase()
}

pub(crate) fn is_upper_byte(b: u8) -> bool
    ensures { result ≡ is_upper b }
{
    b.is_ascii_uppercase()
}

pub(crate) fn is_digit_byte(b: u8) -> bool
    ensures { result ≡ is_digit b }
{
    b.is_ascii_digit()
}

fn is_word_byte(b: u8) -> bool
    ensures { result ≡ is_word b }
{
    is_lower_byte(b) || is_upper_byte(b) || is_digit_byte(b) || b == b'_'
}

pub(crate) fn is_sign_byte(b: u8) -> bool
    ensures { result ≡ is_sign b }
{
    b == b'+' || b == b'-'
}

/// The bytes before the rest.
pub(crate) fn before(alloc: Global, bytes: &[u8], rest: &[u8]) -> Result<Name, NoMemory>
    requires { length rest.now ≤ length bytes.now }
    ensures { IfOk result (λ name. name ≡ scan.before bytes.now rest.now) }
{
    let count = bytes.len() - rest.len();
    let name = Vec::from_slice(alloc, &bytes[..count])?;
    Ok(Name::new(name))
}

/// What stands behind the letters, digits and `_` in front.
pub(crate) fn after_word(bytes: &[u8]) -> &[u8]
    ensures rest { result.now ≡ scan.after is_word bytes.now }
    ensures less { length result.now ≤ length bytes.now }
{
    let mut rest = bytes;
    while let [b, next @ ..] = rest {
        if !is_word_byte(*b) {
            break;
        }
        rest = next;
    }
    rest
}

/// What stands behind a lower word.
fn after_lower(bytes: &[u8]) -> Option<&[u8]>
    ensures rest { scan.seen (λ r. r.now) result ≡ scan.after_lower bytes.now }
    ensures less { IfSome result (λ r. length r.now ≤ length bytes.now) }
{
    match bytes {
        [b, rest @ ..] if is_lower_byte(*b) => Some(after_word(rest)),
        _ => None,
    }
}

/// What stands behind a dollar word, whose first `$` stands before the bytes.
pub(crate) fn after_dollar(bytes: &[u8]) -> Option<&[u8]>
    ensures rest { scan.seen (λ r. r.now) result ≡ scan.after_dollar bytes.now }
    ensures less { IfSome result (λ r. length r.now ≤ length bytes.now) }
{
    match bytes {
        [b'$', rest @ ..] => after_lower(rest),
        _ => after_lower(bytes),
    }
}
