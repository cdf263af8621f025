//! Reading an atom.
#![tactic(auto, using(crate::proofs::Rooms::atom_steps), unfolding(crate::specs::Reading::alone_at, crate::specs::Reading::compared_at, crate::specs::Reading::atom_at))]

ghost use Rattle.std.specs.Prelude.{◌≡◌, length};
ghost use Rattle.tptp_formulas.specs.declared.raw.RawTerm.{out-RawTerm};
ghost use Rattle.tptp_formulas.specs.Reading.{Gives, alone_at, atom_at, comparison_at, seen};

use crate::fault::ReadError;
use crate::raw::{Comparison, Raw, RawTerm};
use crate::terms::read_term;
use std::alloc::Global;
use tptp_tokens::Token;

/// The comparison at the front, and the tokens behind it.
fn take_comparison(tokens: &[Token]) -> Option<(Comparison, &[Token])>
    ensures { seen (λ x. (x.0, x.1.now)) result ≡ comparison_at tokens.now }
{
    match tokens {
        [Token::Equal, rest @ ..] => Some((Comparison::Equal, rest)),
        [Token::Unequal, rest @ ..] => Some((Comparison::Unequal, rest)),
        _ => None,
    }
}

/// The atom that a term is by itself.
fn stand_alone(term: RawTerm, rest: &[Token]) -> Result<(Raw, &[Token]), ReadError>
    ensures { Gives (λ x. (x.0, x.1.now)) result (alone_at (out-RawTerm term) rest.now) }
{
    match term {
        RawTerm::Apply(name, args) => Ok((Raw::Atom(name, args), rest)),
        RawTerm::Dollar(name, args) => Ok((Raw::Dollar(name, args), rest)),
        _ => Err(ReadError::Syntax),
    }
}

/// The atom that the tokens begin with, and the tokens behind it.
pub fn read_atom(alloc: Global, tokens: &[Token]) -> Result<(Raw, &[Token]), ReadError>
    ensures { Gives (λ x. (x.0, x.1.now)) result (atom_at tokens.now) }
{
    let (left, rest) = read_term(alloc, tokens.len(), tokens)?;
    match take_comparison(rest) {
        None => stand_alone(left, rest),
        Some((comparison, next)) => {
            let (right, rest) = read_term(alloc, tokens.len(), next)?;
            Ok((Raw::Equation(comparison, left, right), rest))
        }
    }
}
