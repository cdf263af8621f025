//! Reading one item from its tokens.
#![tactic(auto, using(crate::proofs::Layers::items), unfolding(crate::specs::ReadingItems::source_part, crate::specs::ReadingItems::included_at, crate::specs::ReadingItems::terms_at, crate::specs::ReadingItems::written_at, crate::specs::ReadingItems::annotated_at, crate::specs::ReadingItems::unread_at, crate::specs::ReadingItems::item_at))]

ghost use Rattle.std.specs.Prelude.{◌≡◌, length, Some, IfOk};
ghost use Rattle.tptp_formulas.specs.Meaning.{body_of};
ghost use Rattle.tptp_formulas.specs.Reading.{Gives};
ghost use Rattle.tptp_formulas.specs.Scopes.{first_free};
ghost use Rattle.tptp_text.specs.Items.{language_of, is_other_language, outside_item, annotated, kept_free};
ghost use Rattle.tptp_text.specs.ReadingItems.{Answers, source_end, source_part, included_at, terms_at, written_at, named_at, unread_at, spoken_at, annotated_at, item_at, weighed, weighed_item, weighed_body};

use crate::fault::TptpFault;
use crate::item::{Item, Source};
use crate::names::name_of;
use crate::opaque::opaque;
use crate::sources::source_of;
use dk_syntax::{Name, NoMemory};
use std::alloc::Global;
use tptp_formulas::{
    Body, BodyFault, Lang, OutsideKind, Raw, ReadError, free_of, make_body, read_formula,
};
use tptp_tokens::Token;

/// What stands behind a source.
fn source_end(alloc: Global, source: Source, tokens: &[Token]) -> Result<Source, ReadError>
    ensures { Gives (λ x. x) result (source_end source tokens.now) }
{
    match tokens {
        [Token::CloseRound] => Ok(source),
        [Token::Comma, rest @ ..] => match opaque(alloc, false, rest)? {
            [Token::CloseRound] => Ok(source),
            _ => Err(ReadError::Syntax),
        },
        _ => Err(ReadError::Syntax),
    }
}

/// What stands behind the formula.
fn source_part(alloc: Global, tokens: &[Token]) -> Result<Source, ReadError>
    ensures { Gives (λ x. x) result (source_part tokens.now) }
{
    match tokens {
        [Token::CloseRound] => Ok(Source::Missing),
        [Token::Comma, rest @ ..] => {
            let (source, rest) = source_of(alloc, rest.len(), false, rest)?;
            source_end(alloc, source, rest)
        }
        _ => Err(ReadError::Syntax),
    }
}

/// Behind `include(`.
fn included(alloc: Global, tokens: &[Token]) -> Result<OutsideKind, ReadError>
    ensures { Gives (λ x. x) result (included_at tokens.now) }
{
    match opaque(alloc, false, tokens)? {
        [Token::CloseRound] => Ok(OutsideKind::Include),
        [Token::Comma, rest @ ..] => match opaque(alloc, false, rest)? {
            [Token::CloseRound] => Ok(OutsideKind::Include),
            _ => Err(ReadError::Syntax),
        },
        _ => Err(ReadError::Syntax),
    }
}

/// The opaque terms of an item of another language.
fn terms(alloc: Global, tokens: &[Token]) -> Result<OutsideKind, ReadError>
    ensures { Gives (λ x. x) result (terms_at (length tokens.now) tokens.now) }
{
    let mut rest = tokens;
    for _ in 0..tokens.len() {
        match opaque(alloc, false, rest)? {
            [Token::CloseRound] => return Ok(OutsideKind::Language),
            [Token::Comma, next @ ..] => rest = next,
            _ => return Err(ReadError::Syntax),
        }
    }
    Err(ReadError::Syntax)
}

fn language_of(word: &Name) -> Option<Lang>
    ensures { result ≡ language_of word.now }
{
    if word.as_bytes() == b"fof".as_slice() {
        Some(Lang::Fof)
    } else if word.as_bytes() == b"cnf".as_slice() {
        Some(Lang::Cnf)
    } else {
        None
    }
}

fn is_other_language(word: &Name) -> bool
    ensures { result ≡ is_other_language word.now }
{
    let word = word.as_bytes();
    word == b"thf".as_slice()
        || word == b"tff".as_slice()
        || word == b"tcf".as_slice()
        || word == b"tpi".as_slice()
}

/// What is outside the profile, behind its word and the opening bracket.
fn unread(alloc: Global, word: &Name, tokens: &[Token]) -> Result<OutsideKind, ReadError>
    ensures { Gives (λ x. x) result (unread_at word.now tokens.now) }
{
    if word.as_bytes() == b"include".as_slice() {
        included(alloc, tokens)
    } else if is_other_language(word) {
        terms(alloc, tokens)
    } else {
        Err(ReadError::Syntax)
    }
}

fn outside_item(alloc: Global, kind: OutsideKind) -> Item
    ensures { result ≡ outside_item kind }
{
    Item {
        lang: Lang::Other,
        name: Name::new(Vec::new(alloc)),
        role: Name::new(Vec::new(alloc)),
        body: Body::Outside(kind),
        free: None,
        source: Source::Missing,
    }
}

/// An item that is kept by its kind alone.
fn outside_at(alloc: Global, at: u64, word: &Name, tokens: &[Token]) -> Result<Item, TptpFault>
    ensures { Answers (λ x. x) result (weighed at (spoken_at word.now None tokens.now)) }
{
    match unread(alloc, word, tokens) {
        Ok(kind) => Ok(outside_item(alloc, kind)),
        Err(ReadError::Syntax) => Err(TptpFault::NotTptp { at }),
        Err(ReadError::Memory) => Err(TptpFault::Memory),
    }
}

/// The formula and what stands behind it.
fn written(alloc: Global, lang: Lang, tokens: &[Token]) -> Result<(Raw, Source), ReadError>
    ensures { Gives (λ x. x) result (written_at lang tokens.now) }
{
    let (raw, rest) = read_formula(alloc, lang, tokens)?;
    let source = source_part(alloc, rest)?;
    Ok((raw, source))
}

fn weighed_body(alloc: Global, at: u64, raw: &Raw) -> Result<Body, TptpFault>
    ensures { Answers (λ x. x) result (weighed_body at (body_of raw.now)) }
{
    match make_body(alloc, raw) {
        Ok(body) => Ok(body),
        Err(BodyFault::TooDeep) => Err(TptpFault::TooDeep { at }),
        Err(BodyFault::Memory) => Err(TptpFault::Memory),
    }
}

/// The free variable that the item keeps.
fn kept_free(alloc: Global, lang: Lang, body: &Body, raw: &Raw) -> Result<Option<Name>, NoMemory>
    ensures { IfOk result (λ free. free ≡ kept_free lang body.now (first_free raw.now)) }
{
    match (lang, body) {
        (Lang::Fof, Body::Plain(_)) => free_of(alloc, raw),
        _ => Ok(None),
    }
}

fn build_item(
    alloc: Global,
    at: u64,
    lang: Lang,
    name: &Name,
    role: &Name,
    raw: &Raw,
    source: Source,
) -> Result<Item, TptpFault>
    ensures { Answers (λ x. x) result (weighed_item at
        (annotated lang name.now role.now raw.now source)) }
{
    let body = weighed_body(alloc, at, raw)?;
    let free = kept_free(alloc, lang, &body, raw)?;
    let name = name.copy(alloc)?;
    let role = role.copy(alloc)?;
    Ok(Item {
        lang,
        name,
        role,
        body,
        free,
        source,
    })
}

/// An annotated formula behind its name and role.
fn named(
    alloc: Global,
    at: u64,
    lang: Lang,
    name: &Name,
    role: &Name,
    tokens: &[Token],
) -> Result<Item, TptpFault>
    ensures { Answers (λ x. x) result (weighed at
        (named_at lang (Some name.now) role.now tokens.now)) }
{
    match written(alloc, lang, tokens) {
        Ok((raw, source)) => build_item(alloc, at, lang, name, role, &raw, source),
        Err(ReadError::Syntax) => Err(TptpFault::NotTptp { at }),
        Err(ReadError::Memory) => Err(TptpFault::Memory),
    }
}

/// An annotated formula behind its language and the opening bracket.
fn annotated(alloc: Global, at: u64, lang: Lang, tokens: &[Token]) -> Result<Item, TptpFault>
    ensures { Answers (λ x. x) result (weighed at (annotated_at lang tokens.now)) }
{
    match tokens {
        [
            token,
            Token::Comma,
            Token::Lower(role),
            Token::Comma,
            rest @ ..,
        ] => match name_of(token) {
            Some(name) => named(alloc, at, lang, name, role, rest),
            None => Err(TptpFault::NotTptp { at }),
        },
        _ => Err(TptpFault::NotTptp { at }),
    }
}

/// The item that the tokens before a full stop are, where it begins at that byte.
pub(crate) fn item_of(alloc: Global, at: u64, tokens: &[Token]) -> Result<Item, TptpFault>
    ensures { Answers (λ x. x) result (weighed at (item_at tokens.now)) }
{
    match tokens {
        [Token::Lower(word), Token::OpenRound, rest @ ..] => match language_of(word) {
            Some(lang) => annotated(alloc, at, lang, rest),
            None => outside_at(alloc, at, word, rest),
        },
        _ => Err(TptpFault::NotTptp { at }),
    }
}
