//! What is outside the profile.
#![tactic(auto, using(crate::proofs::RawSteps::raw_steps))]

ghost use Rattle.std.specs.Prelude.{◌≡◌, codes, map, nat_eq};
ghost use Rattle.std.specs.Cmp.Lexicographic.{pointwise};
ghost use Rattle.tptp_formulas.specs.Outside.{first_some, is_false, is_true, outside_dollar, outside_of, outside_term};

use crate::body::OutsideKind;
use crate::raw::{Raw, RawTerm};
use dk_syntax::Name;

/// Whether the word is `$true`.
pub fn names_true(name: &Name) -> bool
    ensures { result ≡ is_true name.now }
{
    name.as_bytes() == b"$true".as_slice()
}

fn names_false(name: &Name) -> bool
    ensures { result ≡ is_false name.now }
{
    name.as_bytes() == b"$false".as_slice()
}

#[cycle(find_in_term)]
fn find_in_term(term: &RawTerm) -> Option<OutsideKind>
    ensures { result ≡ outside_term term.now }
{
    match term {
        RawTerm::Variable(_) => None,
        RawTerm::Apply(_, args) => find_in_terms(args.as_slice()),
        RawTerm::Number(_) => Some(OutsideKind::Number),
        RawTerm::Distinct(_) => Some(OutsideKind::Distinct),
        RawTerm::Dollar(_, _) => Some(OutsideKind::Dollar),
    }
}

#[cycle(find_in_term)]
fn find_in_terms(terms: &[RawTerm]) -> Option<OutsideKind>
    ensures { result ≡ first_some (map outside_term terms.now) }
{
    for term in terms {
        if let Some(kind) = find_in_term(term) {
            return Some(kind);
        }
    }
    None
}

fn find_in_dollar(name: &Name, args: &[RawTerm]) -> Option<OutsideKind>
    ensures { result ≡ outside_dollar name.now args.now }
{
    match args {
        [] => {
            if names_true(name) || names_false(name) {
                None
            } else {
                Some(OutsideKind::Dollar)
            }
        }
        _ => Some(OutsideKind::Dollar),
    }
}

/// The kind of the formula's first construct outside the profile, in the order of the text.
#[cycle(find_outside)]
pub fn find_outside(raw: &Raw) -> Option<OutsideKind>
    ensures { result ≡ outside_of raw.now }
{
    match raw {
        Raw::Atom(_, args) => find_in_terms(args.as_slice()),
        Raw::Dollar(name, args) => find_in_dollar(name, args.as_slice()),
        Raw::Equation(_, left, _) => match find_in_term(left) {
            Some(kind) => Some(kind),
            None => Some(OutsideKind::Equality),
        },
        Raw::Unit(_, inner) => find_outside(inner.get()),
        Raw::Binary(_, left, right) => match find_outside(left.get()) {
            Some(kind) => Some(kind),
            None => find_outside(right.get()),
        },
        Raw::Chain(_, first, others) => match find_outside(first.get()) {
            Some(kind) => Some(kind),
            None => find_in_formulas(others.as_slice()),
        },
    }
}

#[cycle(find_outside)]
fn find_in_formulas(formulas: &[Raw]) -> Option<OutsideKind>
    ensures { result ≡ first_some (map outside_of formulas.now) }
{
    for formula in formulas {
        if let Some(kind) = find_outside(formula) {
            return Some(kind);
        }
    }
    None
}
