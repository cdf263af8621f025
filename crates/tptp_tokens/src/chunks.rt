//! The tokens up to a full stop, and how deep their brackets are nested.
#![tactic(auto, using(crate::proofs::Places::places), unfolding(crate::specs::Chunks::chunk_from, crate::specs::Brackets::too_deep))]

ghost use Rattle.std.specs.Prelude.{◌≡◌, ◌↔◌, length, IsTrue, IfOk};
ghost use Rattle.tptp_tokens.specs.Chunks.{chunk};
ghost use Rattle.tptp_tokens.specs.Nesting.{IsTooDeep};
ghost use Rattle.tptp_tokens.specs.Quotes.{KnowsUnclosed};
ghost use Rattle.tptp_tokens.specs.Skipping.{KnowsClosing, IsTail};

use crate::matter::skip_matter;
use crate::quoted::Unclosed;
use crate::scan::next_token;
use crate::token::Token;
use dk_syntax::NoMemory;
use std::alloc::Global;

/// The tokens up to the first full stop, and what is left from there on.
pub(crate) fn tokens_of<'a>(
    alloc: Global,
    closing: usize,
    unclosed: &mut Unclosed,
    bytes: &'a [u8],
) -> Result<(Vec<Token>, &'a [u8]), NoMemory>
    requires closes { KnowsClosing closing bytes.now }
    requires knows { KnowsUnclosed unclosed.old bytes.now }
    ensures tokens { IfOk result (λ x. (x.0.items, x.1.now) ≡ chunk (length bytes.now) bytes.now) }
    ensures tail { IfOk result (λ x. IsTail x.1.now bytes.now) }
    ensures knows { IfOk result (λ x. KnowsUnclosed unclosed.new x.1.now) }
{
    let mut tokens = Vec::new(alloc);
    let mut rest = bytes;
    for _ in 0..bytes.len() {
        let here = skip_matter(closing, false, rest);
        match next_token(alloc, unclosed, here)? {
            None => return Ok((tokens, here)),
            Some((Token::Dot, _)) => return Ok((tokens, here)),
            Some((token, after)) => {
                tokens.push(token)?;
                rest = after;
            }
        }
    }
    Ok((tokens, rest))
}

/// Whether more than 1,000 brackets, round or square, are unclosed at once. A closing bracket closes the
/// last unclosed one of either kind, and nothing where there is none.
pub fn is_too_deep(tokens: &[Token]) -> bool
    ensures { IsTrue result ↔ IsTooDeep tokens.now }
{
    let mut unclosed: u32 = 0;
    for token in tokens {
        match token {
            Token::OpenRound | Token::OpenSquare => {
                if unclosed == 1000 {
                    return true;
                }
                unclosed += 1;
            }
            Token::CloseRound | Token::CloseSquare => {
                unclosed = unclosed.saturating_sub(1);
            }
            _ => {}
        }
    }
    false
}
