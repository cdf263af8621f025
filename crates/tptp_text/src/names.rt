//! Names in items.
#![tactic(auto, using(crate::proofs::Layers::layers))]

ghost use Rattle.std.specs.Prelude.{◌≡◌, nat_eq, codes};
ghost use Rattle.std.specs.Cmp.Lexicographic.{pointwise};
ghost use Rattle.std.specs.List.{list_all};
ghost use Rattle.std.specs.Option.{option_copied};
ghost use Rattle.tptp_formulas.specs.Reading.{Gives};
ghost use Rattle.tptp_text.specs.Sources.{is_digit, name_of, known, known_name, first_of, entry_status, word_status};

use dk_syntax::Name;
use std::alloc::Global;
use tptp_formulas::ReadError;
use tptp_tokens::Token;

pub(crate) fn is_integer(digits: &Name) -> bool
    ensures { result ≡ list_all is_digit digits.now }
{
    digits.as_bytes().iter().all(|b| *b >= 48 && *b <= 57)
}

/// The name that the token is.
pub(crate) fn name_of(token: &Token) -> Option<&Name>
    ensures { option_copied result ≡ name_of token.now }
{
    match token {
        Token::Lower(name) => Some(name),
        Token::Quoted(name) => Some(name),
        Token::Number(digits) => {
            if is_integer(digits) {
                Some(digits)
            } else {
                None
            }
        }
        _ => None,
    }
}

/// The name that stands alone before a closing bracket, unless it is `unknown`.
pub(crate) fn known_name(alloc: Global, tokens: &[Token]) -> Result<Option<Name>, ReadError>
    ensures { Gives (λ x. x) result (Some (known_name tokens.now)) }
{
    match tokens {
        [token, Token::CloseRound, ..] => match name_of(token) {
            None => Ok(None),
            Some(name) => {
                if name.as_bytes() == b"unknown".as_slice() {
                    Ok(None)
                } else {
                    Ok(Some(name.copy(alloc)?))
                }
            }
        },
        _ => Ok(None),
    }
}

fn word_status(alloc: Global, word: &Name, status: &Name) -> Result<Option<Name>, ReadError>
    ensures { Gives (λ x. x) result (Some (word_status word.now status.now)) }
{
    if word.as_bytes() == b"status".as_slice() {
        Ok(Some(status.copy(alloc)?))
    } else {
        Ok(None)
    }
}

/// The status that an entry of a list says.
pub(crate) fn entry_status(alloc: Global, tokens: &[Token]) -> Result<Option<Name>, ReadError>
    ensures { Gives (λ x. x) result (Some (entry_status tokens.now)) }
{
    match tokens {
        [
            Token::Lower(word),
            Token::OpenRound,
            Token::Lower(status),
            Token::CloseRound,
            Token::Comma,
            ..
        ] => { word_status(alloc, word, status) }
        [
            Token::Lower(word),
            Token::OpenRound,
            Token::Lower(status),
            Token::CloseRound,
            Token::CloseSquare,
            ..
        ] => { word_status(alloc, word, status) }
        _ => Ok(None),
    }
}

/// The first of two, where there is one.
pub(crate) fn first_of(status: Option<Name>, later: Option<Name>) -> Option<Name>
    ensures { result ≡ first_of status later }
{
    match status {
        Some(status) => Some(status),
        None => later,
    }
}
