//! Reading opaque terms.
#![tactic(auto, using(crate::proofs::Layers::layers), unfolding(crate::specs::Reading::opaque_at))]

ghost use Rattle.std.specs.Prelude.{◌≡◌, [], false};
ghost use Rattle.tptp_formulas.specs.Reading.{Gives};
ghost use Rattle.tptp_text.specs.Reading.{opaque_at, stops};

use std::alloc::Global;
use tptp_formulas::ReadError;
use tptp_tokens::Token;

/// The tokens behind an opaque term. It ends before a comma, a closing bracket or, in a parent's source,
/// a colon that stands outside its own brackets.
pub(crate) fn opaque(
    alloc: Global,
    in_parent: bool,
    tokens: &[Token],
) -> Result<&[Token], ReadError>
    ensures { Gives (λ x. x.now) result (opaque_at in_parent [] false tokens.now) }
{
    let mut around: Vec<bool> = Vec::new(alloc);
    let mut some = false;
    let mut rest = tokens;
    while let [token, next @ ..] = rest {
        match token {
            Token::OpenRound => around.push(true)?,
            Token::OpenSquare => around.push(false)?,
            Token::CloseRound => match around.pop() {
                None => return if some {
                    Ok(rest)
                } else {
                    Err(ReadError::Syntax)
                },
                Some(round) => {
                    if !round {
                        return Err(ReadError::Syntax);
                    }
                }
            },
            Token::CloseSquare => match around.pop() {
                None => return if some {
                    Ok(rest)
                } else {
                    Err(ReadError::Syntax)
                },
                Some(round) => {
                    if round {
                        return Err(ReadError::Syntax);
                    }
                }
            },
            Token::Comma => {
                if around.is_empty() {
                    return if some {
                        Ok(rest)
                    } else {
                        Err(ReadError::Syntax)
                    };
                }
            }
            Token::Colon => {
                if in_parent && around.is_empty() {
                    return if some {
                        Ok(rest)
                    } else {
                        Err(ReadError::Syntax)
                    };
                }
            }
            Token::Dot => return Err(ReadError::Syntax),
            _ => {}
        }
        some = true;
        rest = next;
    }
    Err(ReadError::Syntax)
}

/// Whether an opaque term ends before these tokens.
pub(crate) fn is_stop(in_parent: bool, tokens: &[Token]) -> bool
    ensures { result ≡ stops in_parent tokens.now }
{
    match tokens {
        [Token::Comma, ..] | [Token::CloseRound, ..] | [Token::CloseSquare, ..] => true,
        [Token::Colon, ..] => in_parent,
        _ => false,
    }
}
