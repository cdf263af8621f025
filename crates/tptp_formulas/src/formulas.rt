//! Reading a formula.
#![tactic(auto, using(crate::proofs::Rooms::formula_steps), unfolding(crate::specs::Reading::vars_at, crate::specs::Reading::prefix_at, crate::specs::Reading::prefix_more, crate::specs::Reading::prefixes_with, crate::specs::Reading::core_at, crate::specs::Reading::closed_at, crate::specs::Reading::unit_at, crate::specs::Reading::more_units, crate::specs::Reading::chained_at, crate::specs::Reading::binary_at, crate::specs::Reading::tail_with, crate::specs::Reading::tail_at, crate::specs::Reading::formula_with))]

ghost use Rattle.std.specs.Prelude.{◌≡◌, [], ◌∷◌, ◌++◌, length, IfOk, OnOk};
ghost use Rattle.tptp_formulas.specs.Reading.{Gives, atom_at, behind, closed_at, connective_at, core_at, formula_at, link_at, prefix_at, prefixes_at, seen, unit_at, units_at, vars_at};

use crate::atoms::read_atom;
use crate::fault::ReadError;
use crate::raw::{Connective, Link, Prefix, Raw};
use dk_syntax::{Boxed, Name, NoMemory, Seq};
use std::alloc::{AllocError, Global};
use tptp_tokens::Token;

/// The variables of a quantifier, behind its bracket and up to the colon.
fn read_vars(alloc: Global, tokens: &[Token]) -> Result<(Seq<Name>, &[Token]), ReadError>
    ensures { Gives (λ x. (x.0, x.1.now)) result (vars_at tokens.now) }
{
    let mut vars = Seq::from_vec(Vec::new(alloc));
    let mut rest = tokens;
    loop {
        match rest {
            [Token::Upper(name), Token::Comma, next @ ..] => {
                vars.push(name.copy(alloc)?)?;
                rest = next;
            }
            [
                Token::Upper(name),
                Token::CloseSquare,
                Token::Colon,
                next @ ..,
            ] => {
                vars.push(name.copy(alloc)?)?;
                return Ok((vars, next));
            }
            _ => return Err(ReadError::Syntax),
        }
    }
}

/// A negation or a quantifier, where one stands there.
fn read_prefix(alloc: Global, tokens: &[Token]) -> Result<(Option<Prefix>, &[Token]), ReadError>
    ensures { Gives (λ x. (x.0, x.1.now)) result (prefix_at tokens.now) }
{
    match tokens {
        [Token::Not, rest @ ..] => Ok((Some(Prefix::Not), rest)),
        [Token::ForAll, Token::OpenSquare, rest @ ..] => {
            let (vars, rest) = read_vars(alloc, rest)?;
            Ok((Some(Prefix::ForAll(vars)), rest))
        }
        [Token::Exists, Token::OpenSquare, rest @ ..] => {
            let (vars, rest) = read_vars(alloc, rest)?;
            Ok((Some(Prefix::Exists(vars)), rest))
        }
        _ => Ok((None, tokens)),
    }
}

/// Negations and quantifiers.
fn read_prefixes(alloc: Global, tokens: &[Token]) -> Result<(Seq<Prefix>, &[Token]), ReadError>
    ensures { Gives (λ x. (x.0, x.1.now)) result (prefixes_at (length tokens.now) tokens.now) }
{
    let mut prefixes = Seq::from_vec(Vec::new(alloc));
    let mut rest = tokens;
    for _ in 0..tokens.len() {
        let (prefix, next) = read_prefix(alloc, rest)?;
        match prefix {
            None => return Ok((prefixes, next)),
            Some(prefix) => {
                prefixes.push(prefix)?;
                rest = next;
            }
        }
    }
    Err(ReadError::Syntax)
}

/// The atom in a place of its own.
#[inline(never)]
fn boxed_atom(alloc: Global, tokens: &[Token]) -> Result<(Boxed<Raw>, &[Token]), ReadError>
    ensures { Gives (λ x. (x.0, x.1.now)) result (atom_at tokens.now) }
{
    let (atom, rest) = read_atom(alloc, tokens)?;
    Ok((Boxed::new(alloc, atom)?, rest))
}

/// What stood in brackets, where the closing one is in front.
fn closed(inner: Boxed<Raw>, tokens: &[Token]) -> Result<(Boxed<Raw>, &[Token]), ReadError>
    ensures { Gives (λ x. (x.0, x.1.now)) result (closed_at inner tokens.now) }
{
    match tokens {
        [Token::CloseRound, rest @ ..] => Ok((inner, rest)),
        _ => Err(ReadError::Syntax),
    }
}

/// An atom, or a formula in brackets.
#[cycle(formula)]
fn read_core(
    alloc: Global,
    room: usize,
    tokens: &[Token],
) -> Result<(Boxed<Raw>, &[Token]), ReadError>
    ensures { Gives (λ x. (x.0, x.1.now)) result (core_at (formula_at room) tokens.now) }
{
    match tokens {
        [Token::OpenRound, rest @ ..] => {
            let (inner, rest) = formula(alloc, room, rest)?;
            closed(inner, rest)
        }
        _ => boxed_atom(alloc, tokens),
    }
}

#[inline(never)]
fn unit(alloc: Global, prefixes: Seq<Prefix>, core: Boxed<Raw>) -> Result<Boxed<Raw>, AllocError>
    ensures { IfOk result (λ f. f ≡ Raw.Unit prefixes core) }
{
    Boxed::new(alloc, Raw::Unit(prefixes, core))
}

/// A unit: negations and quantifiers, and then an atom or a formula in brackets.
#[cycle(formula)]
#[inline(never)]
fn read_unit(
    alloc: Global,
    room: usize,
    tokens: &[Token],
) -> Result<(Boxed<Raw>, &[Token]), ReadError>
    ensures { Gives (λ x. (x.0, x.1.now)) result (unit_at (formula_at room) tokens.now) }
{
    let (prefixes, rest) = read_prefixes(alloc, tokens)?;
    let (core, rest) = read_core(alloc, room, rest)?;
    Ok((unit(alloc, prefixes, core)?, rest))
}

/// The tokens behind the link, where it stands at the front.
fn skip_link(link: Link, tokens: &[Token]) -> Option<&[Token]>
    ensures { seen (λ x. x.now) result ≡ behind link tokens.now }
{
    match (link, tokens) {
        (Link::And, [Token::And, rest @ ..]) => Some(rest),
        (Link::Or, [Token::Or, rest @ ..]) => Some(rest),
        _ => None,
    }
}

/// The link at the front, and the tokens behind it.
fn take_link(tokens: &[Token]) -> Option<(Link, &[Token])>
    ensures { seen (λ x. (x.0, x.1.now)) result ≡ link_at tokens.now }
{
    match tokens {
        [Token::And, rest @ ..] => Some((Link::And, rest)),
        [Token::Or, rest @ ..] => Some((Link::Or, rest)),
        _ => None,
    }
}

/// The connective at the front, and the tokens behind it.
fn take_connective(tokens: &[Token]) -> Option<(Connective, &[Token])>
    ensures { seen (λ x. (x.0, x.1.now)) result ≡ connective_at tokens.now }
{
    match tokens {
        [Token::Implies, rest @ ..] => Some((Connective::Implies, rest)),
        [Token::ImpliedBy, rest @ ..] => Some((Connective::ImpliedBy, rest)),
        [Token::Iff, rest @ ..] => Some((Connective::Iff, rest)),
        [Token::Differs, rest @ ..] => Some((Connective::Differs, rest)),
        [Token::Nor, rest @ ..] => Some((Connective::Nor, rest)),
        [Token::Nand, rest @ ..] => Some((Connective::Nand, rest)),
        _ => None,
    }
}

#[inline(never)]
fn push_unit(units: &mut Seq<Raw>, unit: Boxed<Raw>) -> Result<(), NoMemory>
    ensures { OnOk result (units.new ≡ units.old ++ unit ∷ []) }
{
    units.push(unit.into_inner())?;
    Ok(())
}

/// Units with the link between them.
#[cycle(formula)]
#[inline(never)]
fn read_units(
    alloc: Global,
    room: usize,
    link: Link,
    tokens: &[Token],
) -> Result<(Seq<Raw>, &[Token]), ReadError>
    ensures { Gives (λ x. (x.0, x.1.now)) result
        (units_at (length tokens.now) (unit_at (formula_at room)) link tokens.now) }
{
    let mut units = Seq::from_vec(Vec::new(alloc));
    let mut rest = tokens;
    for _ in 0..tokens.len() {
        let (unit, after) = read_unit(alloc, room, rest)?;
        push_unit(&mut units, unit)?;
        match skip_link(link, after) {
            Some(next) => rest = next,
            None => return Ok((units, after)),
        }
    }
    Err(ReadError::Syntax)
}

#[inline(never)]
fn chain(
    alloc: Global,
    link: Link,
    first: Boxed<Raw>,
    others: Seq<Raw>,
) -> Result<Boxed<Raw>, AllocError>
    ensures { IfOk result (λ f. f ≡ Raw.Chain link first others) }
{
    Boxed::new(alloc, Raw::Chain(link, first, others))
}

#[inline(never)]
fn binary(
    alloc: Global,
    connective: Connective,
    first: Boxed<Raw>,
    second: Boxed<Raw>,
) -> Result<Boxed<Raw>, AllocError>
    ensures { IfOk result (λ f. f ≡ Raw.Binary connective first second) }
{
    Boxed::new(alloc, Raw::Binary(connective, first, second))
}

/// The formula that the tokens begin with, and the tokens behind it. There is room for fewer than so
/// many brackets around a place. What is large is made in functions of their own, so that a thousand
/// brackets take little stack.
#[cycle(formula)]
pub fn formula(
    alloc: Global,
    room: usize,
    tokens: &[Token],
) -> Result<(Boxed<Raw>, &[Token]), ReadError>
    ensures { Gives (λ x. (x.0, x.1.now)) result (formula_at room tokens.now) }
{
    if room == 0 {
        return Err(ReadError::Syntax);
    }
    let room = room - 1;
    let (first, rest) = read_unit(alloc, room, tokens)?;
    if let Some((link, next)) = take_link(rest) {
        let (others, rest) = read_units(alloc, room, link, next)?;
        return Ok((chain(alloc, link, first, others)?, rest));
    }
    match take_connective(rest) {
        None => Ok((first, rest)),
        Some((connective, next)) => {
            let (second, rest) = read_unit(alloc, room, next)?;
            Ok((binary(alloc, connective, first, second)?, rest))
        }
    }
}
