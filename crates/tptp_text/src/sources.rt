//! Reading sources.
#![tactic(auto, using(crate::proofs::Layers::sources), unfolding(crate::specs::Reading::file_name, crate::specs::Reading::file_at, crate::specs::Reading::more_entries, crate::specs::Reading::list_at, crate::specs::Reading::term_at, crate::specs::Reading::info_at, crate::specs::Reading::more_parents, crate::specs::Reading::parent_with, crate::specs::Reading::parent_list_at, crate::specs::Reading::derived_at, crate::specs::Reading::inference_at, crate::specs::Reading::call_at, crate::specs::Reading::form_at, crate::specs::Reading::other_at))]

ghost use Rattle.std.specs.Prelude.{◌≡◌, length, true};
ghost use Rattle.tptp_formulas.specs.Reading.{Gives};
ghost use Rattle.tptp_text.specs.Reading.{file_name, file_at, entries_at, list_at, term_at, info_at, remark_at, parent_with, parents_at, parent_list_at, derived_at, inference_at, call_at, form_at, other_at, source_at};

use crate::item::Source;
use crate::names::{entry_status, first_of, is_integer, known_name};
use crate::opaque::{is_stop, opaque};
use dk_syntax::{Name, Seq};
use std::alloc::Global;
use tptp_formulas::ReadError;
use tptp_tokens::Token;

/// Behind the comma of `file(..,`.
fn file_name(alloc: Global, tokens: &[Token]) -> Result<(Option<Name>, &[Token]), ReadError>
    ensures { Gives (λ x. (x.0, x.1.now)) result (file_name tokens.now) }
{
    match opaque(alloc, false, tokens)? {
        [Token::CloseRound, rest @ ..] => Ok((known_name(alloc, tokens)?, rest)),
        _ => Err(ReadError::Syntax),
    }
}

/// Behind `file(`.
fn file_of(alloc: Global, tokens: &[Token]) -> Result<(Option<Name>, &[Token]), ReadError>
    ensures { Gives (λ x. (x.0, x.1.now)) result (file_at tokens.now) }
{
    match opaque(alloc, false, tokens)? {
        [Token::CloseRound, rest @ ..] => Ok((None, rest)),
        [Token::Comma, rest @ ..] => file_name(alloc, rest),
        _ => Err(ReadError::Syntax),
    }
}

/// The entries of a list up to its closing bracket, and the first status among them.
fn entries_of(alloc: Global, tokens: &[Token]) -> Result<(Option<Name>, &[Token]), ReadError>
    ensures { Gives (λ x. (x.0, x.1.now)) result (entries_at (length tokens.now) tokens.now) }
{
    let mut status = None;
    let mut rest = tokens;
    for _ in 0..tokens.len() {
        let after = opaque(alloc, false, rest)?;
        let here = entry_status(alloc, rest)?;
        status = first_of(status, here);
        match after {
            [Token::Comma, next @ ..] => rest = next,
            [Token::CloseSquare, next @ ..] => return Ok((status, next)),
            _ => return Err(ReadError::Syntax),
        }
    }
    Err(ReadError::Syntax)
}

fn list_of(alloc: Global, tokens: &[Token]) -> Result<(Option<Name>, &[Token]), ReadError>
    ensures { Gives (λ x. (x.0, x.1.now)) result (list_at tokens.now) }
{
    match tokens {
        [Token::OpenSquare, Token::CloseSquare, rest @ ..] => Ok((None, rest)),
        [Token::OpenSquare, rest @ ..] => entries_of(alloc, rest),
        _ => Err(ReadError::Syntax),
    }
}

/// A term that says no status, and the comma behind it.
fn other_info(alloc: Global, tokens: &[Token]) -> Result<(Option<Name>, &[Token]), ReadError>
    ensures { Gives (λ x. (x.0, x.1.now)) result (term_at tokens.now) }
{
    match opaque(alloc, false, tokens)? {
        [Token::Comma, rest @ ..] => Ok((None, rest)),
        _ => Err(ReadError::Syntax),
    }
}

/// The status that the information of an inference says, and the tokens behind the comma after it.
fn info_of(alloc: Global, tokens: &[Token]) -> Result<(Option<Name>, &[Token]), ReadError>
    ensures { Gives (λ x. (x.0, x.1.now)) result (info_at tokens.now) }
{
    match list_of(alloc, tokens) {
        Ok((status, [Token::Comma, rest @ ..])) => Ok((status, rest)),
        Ok(_) => other_info(alloc, tokens),
        Err(ReadError::Syntax) => other_info(alloc, tokens),
        Err(ReadError::Memory) => Err(ReadError::Memory),
    }
}

fn remark(alloc: Global, tokens: &[Token]) -> Result<&[Token], ReadError>
    ensures { Gives (λ x. x.now) result (remark_at tokens.now) }
{
    match tokens {
        [Token::Colon, rest @ ..] => opaque(alloc, false, rest),
        _ => Ok(tokens),
    }
}

#[cycle(source)]
fn parent_of(alloc: Global, room: usize, tokens: &[Token]) -> Result<(Source, &[Token]), ReadError>
    ensures { Gives (λ x. (x.0, x.1.now)) result (parent_with (source_at room true) tokens.now) }
{
    let (parent, rest) = source_of(alloc, room, true, tokens)?;
    let rest = remark(alloc, rest)?;
    Ok((parent, rest))
}

/// Parents with commas between them, up to a closing bracket.
#[cycle(source)]
fn parents_of(
    alloc: Global,
    room: usize,
    tokens: &[Token],
) -> Result<(Seq<Source>, &[Token]), ReadError>
    ensures { Gives (λ x. (x.0, x.1.now)) result
        (parents_at (length tokens.now) (source_at room true) tokens.now) }
{
    let mut parents = Seq::from_vec(Vec::new(alloc));
    let mut rest = tokens;
    for _ in 0..tokens.len() {
        let (parent, after) = parent_of(alloc, room, rest)?;
        parents.push(parent)?;
        match after {
            [Token::Comma, next @ ..] => rest = next,
            [Token::CloseSquare, next @ ..] => return Ok((parents, next)),
            _ => return Err(ReadError::Syntax),
        }
    }
    Err(ReadError::Syntax)
}

#[cycle(source)]
fn parent_list(
    alloc: Global,
    room: usize,
    tokens: &[Token],
) -> Result<(Seq<Source>, &[Token]), ReadError>
    ensures { Gives (λ x. (x.0, x.1.now)) result (parent_list_at (source_at room true) tokens.now) }
{
    match tokens {
        [Token::CloseSquare, rest @ ..] => Ok((Seq::from_vec(Vec::new(alloc)), rest)),
        _ => parents_of(alloc, room, tokens),
    }
}

/// Behind the information of an inference: its parents, and a closing bracket.
#[cycle(source)]
fn derived_of(
    alloc: Global,
    room: usize,
    status: Option<Name>,
    tokens: &[Token],
) -> Result<(Source, &[Token]), ReadError>
    ensures { Gives (λ x. (x.0, x.1.now)) result
        (derived_at (source_at room true) status tokens.now) }
{
    match tokens {
        [Token::OpenSquare, rest @ ..] => {
            let (parents, rest) = parent_list(alloc, room, rest)?;
            match rest {
                [Token::CloseRound, rest @ ..] => Ok((Source::Inference { status, parents }, rest)),
                _ => Err(ReadError::Syntax),
            }
        }
        _ => Err(ReadError::Syntax),
    }
}

/// Behind `inference(`.
#[cycle(source)]
fn inference_of(
    alloc: Global,
    room: usize,
    tokens: &[Token],
) -> Result<(Source, &[Token]), ReadError>
    ensures { Gives (λ x. (x.0, x.1.now)) result (inference_at (source_at room true) tokens.now) }
{
    match opaque(alloc, false, tokens)? {
        [Token::Comma, rest @ ..] => {
            let (status, rest) = info_of(alloc, rest)?;
            derived_of(alloc, room, status, rest)
        }
        _ => Err(ReadError::Syntax),
    }
}

/// Behind a word and an opening bracket.
#[cycle(source)]
fn call_of<'a>(
    alloc: Global,
    room: usize,
    word: &Name,
    tokens: &'a [Token],
) -> Result<(Source, &'a [Token]), ReadError>
    ensures { Gives (λ x. (x.0, x.1.now)) result
        (call_at (source_at room true) word.now tokens.now) }
{
    if word.as_bytes() == b"file".as_slice() {
        let (kept, rest) = file_of(alloc, tokens)?;
        Ok((Source::File(kept), rest))
    } else if word.as_bytes() == b"inference".as_slice() {
        inference_of(alloc, room, tokens)
    } else {
        Err(ReadError::Syntax)
    }
}

/// A name, a file or an inference.
#[cycle(source)]
fn form_of(alloc: Global, room: usize, tokens: &[Token]) -> Result<(Source, &[Token]), ReadError>
    ensures { Gives (λ x. (x.0, x.1.now)) result (form_at (source_at room true) tokens.now) }
{
    match tokens {
        [Token::Lower(word), Token::OpenRound, rest @ ..] => call_of(alloc, room, word, rest),
        [Token::Lower(name), rest @ ..] => Ok((Source::Plain(name.copy(alloc)?), rest)),
        [Token::Quoted(name), rest @ ..] => Ok((Source::Plain(name.copy(alloc)?), rest)),
        [Token::Number(digits), rest @ ..] => {
            if is_integer(digits) {
                Ok((Source::Plain(digits.copy(alloc)?), rest))
            } else {
                Err(ReadError::Syntax)
            }
        }
        _ => Err(ReadError::Syntax),
    }
}

fn other_source(
    alloc: Global,
    in_parent: bool,
    tokens: &[Token],
) -> Result<(Source, &[Token]), ReadError>
    ensures { Gives (λ x. (x.0, x.1.now)) result (other_at in_parent tokens.now) }
{
    let rest = opaque(alloc, in_parent, tokens)?;
    Ok((Source::Other, rest))
}

/// The source that the tokens begin with, and the tokens behind it. What has no other form up to its end
/// is an opaque term.
#[cycle(source)]
pub(crate) fn source_of(
    alloc: Global,
    room: usize,
    in_parent: bool,
    tokens: &[Token],
) -> Result<(Source, &[Token]), ReadError>
    ensures { Gives (λ x. (x.0, x.1.now)) result (source_at room in_parent tokens.now) }
{
    if room == 0 {
        return Err(ReadError::Syntax);
    }
    match form_of(alloc, room - 1, tokens) {
        Ok((source, rest)) => {
            if is_stop(in_parent, rest) {
                Ok((source, rest))
            } else {
                other_source(alloc, in_parent, tokens)
            }
        }
        Err(ReadError::Syntax) => other_source(alloc, in_parent, tokens),
        Err(ReadError::Memory) => Err(ReadError::Memory),
    }
}
