//! Reading a term.
#![tactic(auto, using(crate::proofs::Rooms::term_steps), unfolding(crate::specs::Reading::term_with, crate::specs::Reading::args_at, crate::specs::Reading::more_terms))]

ghost use Rattle.std.specs.Prelude.{length};
ghost use Rattle.tptp_formulas.specs.Reading.{Gives, applied, args_at, dollar_applied, term_at, terms_at};

use crate::fault::ReadError;
use crate::raw::RawTerm;
use dk_syntax::{Name, Seq};
use std::alloc::Global;
use tptp_tokens::Token;

/// The term that the tokens begin with, and the tokens behind it.
#[cycle(term)]
pub fn read_term(
    alloc: Global,
    room: usize,
    tokens: &[Token],
) -> Result<(RawTerm, &[Token]), ReadError>
    ensures { Gives (λ x. (x.0, x.1.now)) result (term_at room tokens.now) }
{
    if room == 0 {
        return Err(ReadError::Syntax);
    }
    match tokens {
        [Token::Upper(name), rest @ ..] => Ok((RawTerm::Variable(name.copy(alloc)?), rest)),
        [Token::Number(name), rest @ ..] => Ok((RawTerm::Number(name.copy(alloc)?), rest)),
        [Token::Distinct(name), rest @ ..] => Ok((RawTerm::Distinct(name.copy(alloc)?), rest)),
        [Token::Lower(name), rest @ ..] => read_application(alloc, room - 1, name, rest),
        [Token::Quoted(name), rest @ ..] => read_application(alloc, room - 1, name, rest),
        [Token::Dollar(name), rest @ ..] => read_dollar(alloc, room - 1, name, rest),
        _ => Err(ReadError::Syntax),
    }
}

/// The arguments of a word, and the term that it is with them.
#[cycle(term)]
#[inline(never)]
fn read_application<'a>(
    alloc: Global,
    room: usize,
    name: &Name,
    tokens: &'a [Token],
) -> Result<(RawTerm, &'a [Token]), ReadError>
    ensures { Gives (λ x. (x.0, x.1.now)) result
        (applied name.now (args_at (term_at room) tokens.now)) }
{
    let (args, rest) = read_args(alloc, room, tokens)?;
    Ok((RawTerm::Apply(name.copy(alloc)?, args), rest))
}

/// The arguments of a dollar word, and the term that it is with them.
#[cycle(term)]
#[inline(never)]
fn read_dollar<'a>(
    alloc: Global,
    room: usize,
    name: &Name,
    tokens: &'a [Token],
) -> Result<(RawTerm, &'a [Token]), ReadError>
    ensures { Gives (λ x. (x.0, x.1.now)) result
        (dollar_applied name.now (args_at (term_at room) tokens.now)) }
{
    let (args, rest) = read_args(alloc, room, tokens)?;
    Ok((RawTerm::Dollar(name.copy(alloc)?, args), rest))
}

/// The arguments, where there are any.
#[cycle(term)]
fn read_args(
    alloc: Global,
    room: usize,
    tokens: &[Token],
) -> Result<(Seq<RawTerm>, &[Token]), ReadError>
    ensures { Gives (λ x. (x.0, x.1.now)) result (args_at (term_at room) tokens.now) }
{
    match tokens {
        [Token::OpenRound, rest @ ..] => read_terms(alloc, room, rest),
        _ => Ok((Seq::from_vec(Vec::new(alloc)), tokens)),
    }
}

/// Terms with commas between them, up to a closing bracket.
#[cycle(term)]
fn read_terms(
    alloc: Global,
    room: usize,
    tokens: &[Token],
) -> Result<(Seq<RawTerm>, &[Token]), ReadError>
    ensures { Gives (λ x. (x.0, x.1.now)) result
        (terms_at (length tokens.now) (term_at room) tokens.now) }
{
    let mut terms = Seq::from_vec(Vec::new(alloc));
    let mut rest = tokens;
    for _ in 0..tokens.len() {
        let (term, after) = read_term(alloc, room, rest)?;
        terms.push(term)?;
        match after {
            [Token::Comma, next @ ..] => rest = next,
            [Token::CloseRound, next @ ..] => return Ok((terms, next)),
            _ => return Err(ReadError::Syntax),
        }
    }
    Err(ReadError::Syntax)
}
