//! Names in quotes and distinct objects.
ghost use Rattle.std.specs.Prelude.{◌≡◌, ◌∷◌, false, IfOk};
ghost use Rattle.tptp_tokens.specs.Scan as scan;
ghost use Rattle.tptp_tokens.specs.Quotes.{NoneCloses, KnowsUnclosed};

use crate::token::Token;
use dk_syntax::{Name, NoMemory};
use std::alloc::Global;

/// Where the last search for a closing quote of each kind ended in vain: nothing closes a quote that has so
/// many bytes or more behind it. A later quote there was escaped when that search met it, so that a search from
/// it would go on like that one.
#[derive(Clone, Copy)]
pub(crate) struct Unclosed {
    /// Of `'`.
    pub(crate) single: usize,
    /// Of `"`.
    pub(crate) double: usize,
}

impl Unclosed {
    /// Before any search: no quote of the bytes has as many behind it.
    pub(crate) fn new(bytes: &[u8]) -> Unclosed
        ensures { KnowsUnclosed result bytes.now }
    {
        Unclosed {
            single: bytes.len(),
            double: bytes.len(),
        }
    }
}

/// What stands between these quotes, the first of which stands before the bytes, and the bytes behind the
/// second one. Where it is known that nothing closes the first one, none is searched for.
fn between_quotes<'a>(
    alloc: Global,
    quote: u8,
    left: &mut usize,
    bytes: &'a [u8],
) -> Result<Option<(Vec<u8>, &'a [u8])>, NoMemory>
    requires { NoneCloses quote left.old (quote ∷ bytes.now) }
    ensures found { IfOk result (λ o. scan.seen
        (λ x. (x.0.items, x.1.now)) o ≡ scan.quoted_at quote false bytes.now) }
    ensures unclosed { IfOk result (λ o. NoneCloses quote left.new (quote ∷ bytes.now)) }
{
    if *left <= bytes.len() {
        return Ok(None);
    }
    let mut text = Vec::new(alloc);
    let mut escaped = false;
    let mut rest = bytes;
    while let [b, next @ ..] = rest {
        let b = *b;
        if escaped {
            if b != quote && b != b'\\' {
                break;
            }
            text.push(b)?;
            escaped = false;
        } else if b == quote {
            return Ok(Some((text, next)));
        } else if b == b'\\' {
            escaped = true;
        } else if b' ' <= b && b <= b'~' {
            text.push(b)?;
        } else {
            break;
        }
        rest = next;
    }
    *left = rest.len();
    Ok(None)
}

/// A name in quotes, or a lone quote, which stands before the bytes.
pub(crate) fn quoted<'a>(
    alloc: Global,
    left: &mut usize,
    bytes: &'a [u8],
) -> Result<(Token, &'a [u8]), NoMemory>
    requires { NoneCloses 39 left.old (39 ∷ bytes.now) }
    ensures read { IfOk result (λ x. (x.0, x.1.now)
        ≡ scan.quoted_or bytes.now (scan.quoted_at 39 false bytes.now)) }
    ensures unclosed { IfOk result (λ x. NoneCloses 39 left.new (39 ∷ bytes.now)) }
{
    match between_quotes(alloc, b'\'', left, bytes)? {
        Some((text, rest)) => {
            if text.is_empty() {
                Ok((Token::Other(b'\''), bytes))
            } else {
                Ok((Token::Quoted(Name::new(text)), rest))
            }
        }
        None => Ok((Token::Other(b'\''), bytes)),
    }
}

/// A distinct object, or a lone quote, which stands before the bytes.
pub(crate) fn distinct<'a>(
    alloc: Global,
    left: &mut usize,
    bytes: &'a [u8],
) -> Result<(Token, &'a [u8]), NoMemory>
    requires { NoneCloses 34 left.old (34 ∷ bytes.now) }
    ensures read { IfOk result (λ x. (x.0, x.1.now)
        ≡ scan.distinct_or bytes.now (scan.quoted_at 34 false bytes.now)) }
    ensures unclosed { IfOk result (λ x. NoneCloses 34 left.new (34 ∷ bytes.now)) }
{
    match between_quotes(alloc, b'"', left, bytes)? {
        Some((text, rest)) => Ok((Token::Distinct(Name::new(text)), rest)),
        None => Ok((Token::Other(b'"'), bytes)),
    }
}
