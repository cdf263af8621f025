//! Numbers.
ghost use Rattle.std.specs.Prelude.{◌≡◌, ◌≤◌, length, IfSome};
ghost use Rattle.tptp_tokens.specs.Bytes.{is_digit};
ghost use Rattle.tptp_tokens.specs.Scan as scan;

use crate::words::{is_digit_byte, is_sign_byte};

/// What stands behind the digits in front.
fn after_digit_run(bytes: &[u8]) -> &[u8]
    ensures rest { result.now ≡ scan.after is_digit bytes.now }
    ensures less { length result.now ≤ length bytes.now }
{
    let mut rest = bytes;
    while let [b, next @ ..] = rest {
        if !is_digit_byte(*b) {
            break;
        }
        rest = next;
    }
    rest
}

/// What stands behind one digit or more.
fn after_digits(bytes: &[u8]) -> Option<&[u8]>
    ensures rest { scan.seen (λ r. r.now) result ≡ scan.after_digits bytes.now }
    ensures less { IfSome result (λ r. length r.now ≤ length bytes.now) }
{
    match bytes {
        [b, rest @ ..] if is_digit_byte(*b) => Some(after_digit_run(rest)),
        _ => None,
    }
}

/// What stands behind a sign, where one is in front.
fn after_sign(bytes: &[u8]) -> &[u8]
    ensures rest { result.now ≡ scan.after_sign bytes.now }
    ensures less { length result.now ≤ length bytes.now }
{
    match bytes {
        [b, rest @ ..] if is_sign_byte(*b) => rest,
        _ => bytes,
    }
}

/// What stands behind an exponent, where one is in front.
fn after_exponent(bytes: &[u8]) -> &[u8]
    ensures rest { result.now ≡ scan.after_exponent bytes.now }
    ensures less { length result.now ≤ length bytes.now }
{
    match bytes {
        [b'e' | b'E', digits @ ..] => match after_digits(after_sign(digits)) {
            Some(rest) => rest,
            None => bytes,
        },
        _ => bytes,
    }
}

/// What stands behind a denominator, a fraction or an exponent, where one is in front.
fn after_tail(bytes: &[u8]) -> &[u8]
    ensures rest { result.now ≡ scan.after_tail bytes.now }
    ensures less { length result.now ≤ length bytes.now }
{
    match bytes {
        [b'/', digits @ ..] => match after_digits(digits) {
            Some(rest) => rest,
            None => bytes,
        },
        [b'.', digits @ ..] => match after_digits(digits) {
            Some(rest) => after_exponent(rest),
            None => bytes,
        },
        _ => after_exponent(bytes),
    }
}

/// What stands behind a number.
pub(crate) fn after_number(bytes: &[u8]) -> Option<&[u8]>
    ensures rest { scan.seen (λ r. r.now) result ≡ scan.after_number bytes.now }
    ensures less { IfSome result (λ r. length r.now ≤ length bytes.now) }
{
    match after_digits(after_sign(bytes)) {
        Some(rest) => Some(after_tail(rest)),
        None => None,
    }
}
