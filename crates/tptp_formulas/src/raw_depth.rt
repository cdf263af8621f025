//! Depths, counted before anything is built.
#![tactic(auto, using(crate::proofs::DepthSteps::depth_steps))]

ghost use Rattle.std.specs.Prelude.{◌≡◌, [], ◌∷◌, map, max};
ghost use Rattle.dk_syntax.specs.Depth.{capped, greatest};
ghost use Rattle.tptp_formulas.specs.RawDepth.{chain_depth, connective_depth, prefix_depth, raw_depth, raw_term_depth};

use crate::raw::{Connective, Prefix, Raw, RawTerm};

fn deeper(a: u64, b: u64) -> u64
    ensures { result ≡ max a b }
{
    if a < b { b } else { a }
}

#[cycle(count_term)]
fn count_term(term: &RawTerm) -> u64
    ensures { result ≡ capped (raw_term_depth term.now) }
{
    match term {
        RawTerm::Apply(_, args) => count_terms(args.as_slice()).saturating_add(1),
        RawTerm::Variable(_) => 1,
        RawTerm::Number(_) => 1,
        RawTerm::Distinct(_) => 1,
        RawTerm::Dollar(_, _) => 1,
    }
}

#[cycle(count_term)]
fn count_terms(terms: &[RawTerm]) -> u64
    ensures { result ≡ capped (greatest (map raw_term_depth terms.now)) }
{
    let mut deepest = 0;
    for term in terms {
        deepest = deeper(deepest, count_term(term));
    }
    deepest
}

fn one_prefix(prefix: &Prefix) -> u64
    ensures { result ≡ prefix_depth (prefix.now ∷ []) }
{
    match prefix {
        Prefix::Not => 1,
        Prefix::ForAll(names) => names.len() as u64,
        Prefix::Exists(names) => names.len() as u64,
    }
}

fn count_prefixes(prefixes: &[Prefix]) -> u64
    ensures { result ≡ capped (prefix_depth prefixes.now) }
{
    let mut count: u64 = 0;
    for prefix in prefixes {
        count = count.saturating_add(one_prefix(prefix));
    }
    count
}

fn count_connective(connective: Connective, a: u64, b: u64) -> u64
    ensures { result ≡ capped (connective_depth connective a b) }
{
    match connective {
        Connective::Implies | Connective::ImpliedBy | Connective::Iff => {
            deeper(a, b).saturating_add(1)
        }
        Connective::Differs | Connective::Nor | Connective::Nand => deeper(a, b).saturating_add(2),
    }
}

/// The depth of what the formula means, without quantifiers for its free variables, or the greatest
/// `u64` where it is greater.
#[cycle(count_depth)]
pub fn count_depth(raw: &Raw) -> u64
    ensures { result ≡ capped (raw_depth raw.now) }
{
    match raw {
        Raw::Atom(_, args) => count_terms(args.as_slice()).saturating_add(1),
        Raw::Dollar(_, _) => 1,
        Raw::Equation(_, _, _) => 1,
        Raw::Unit(prefixes, inner) => {
            count_prefixes(prefixes.as_slice()).saturating_add(count_depth(inner.get()))
        }
        Raw::Binary(connective, left, right) => {
            count_connective(
                *connective,
                count_depth(left.get()),
                count_depth(right.get()),
            )
        }
        Raw::Chain(_, first, others) => count_chain(others.as_slice(), count_depth(first.get())),
    }
}

#[cycle(count_depth)]
fn count_chain(others: &[Raw], first: u64) -> u64
    ensures { result ≡ capped (chain_depth first (map raw_depth others.now)) }
{
    let mut depth = first;
    for other in others {
        depth = deeper(depth, count_depth(other)).saturating_add(1);
    }
    depth
}
