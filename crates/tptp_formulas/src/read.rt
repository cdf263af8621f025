//! Reading the formula of an item.
#![tactic(auto, unfolding(crate::specs::Reading::accepted, crate::specs::Reading::reading))]

ghost use Rattle.std.specs.Prelude.{◌≡◌, List, Some, IfOk};
ghost use Rattle.tptp_tokens.specs.declared.Token.{Token};
ghost use Rattle.tptp_formulas.specs.declared.raw.Raw.{Raw as RawFormula};
ghost use Rattle.tptp_formulas.specs.Reading.{Gives, reading};
ghost use Rattle.tptp_formulas.specs.Written.{Written, ends, fits};

use crate::body::Lang;
use crate::fault::ReadError;
use crate::formulas::formula;
use crate::raw::Raw;
use crate::shape::{classify, is_clausal};
use std::alloc::Global;
use tptp_tokens::Token;

/// Whether the tokens do not go on with the formula before them.
fn is_end(tokens: &[Token]) -> bool
    ensures { result ≡ ends tokens.now }
{
    match tokens {
        [
            Token::OpenRound
            | Token::Equal
            | Token::Unequal
            | Token::And
            | Token::Or
            | Token::Implies
            | Token::ImpliedBy
            | Token::Iff
            | Token::Differs
            | Token::Nor
            | Token::Nand,
            ..
        ] => false,
        _ => true,
    }
}

/// Whether a text of the language may hold the formula.
fn may_hold(lang: Lang, raw: &Raw) -> bool
    ensures { result ≡ fits lang raw.now }
{
    match lang {
        Lang::Fof => true,
        Lang::Cnf => is_clausal(classify(raw)),
        Lang::Other => false,
    }
}

/// The formula of the language that the tokens begin with, and the tokens behind it.
fn attempt(alloc: Global, lang: Lang, tokens: &[Token]) -> Result<(Raw, &[Token]), ReadError>
    ensures { Gives (λ x. (x.0, x.1.now)) result (reading lang tokens.now) }
{
    let (raw, rest) = formula(alloc, tokens.len(), tokens)?;
    if is_end(rest) && may_hold(lang, raw.get()) {
        Ok((raw.into_inner(), rest))
    } else {
        Err(ReadError::Syntax)
    }
}

/// The formula that the tokens begin with, and the tokens behind it, which do not go on with it. It
/// takes time linear in the tokens; the caller has tested how many brackets stand around a place.
pub fn read_formula(
    alloc: Global,
    lang: Lang,
    tokens: &[Token],
) -> Result<(Raw, &[Token]), ReadError>
    ensures reads { Gives (λ x. (x.0, x.1.now)) result (reading lang tokens.now) }
    ensures written { IfOk result (λ x. Written lang tokens.now x.0 x.1.now) }
    ensures only { (f : RawFormula) (after : List Token) → Written lang tokens.now f after
        → let read : RawFormula × List Token = (f, after) in Gives
        (λ x. (x.0, x.1.now)) result (Some read) }
{
    attempt(alloc, lang, tokens)
}
