//! Depths of terms and formulas.
ghost use Rattle.std.specs.Prelude.{◌≡◌, map, max};
ghost use Rattle.dk_syntax.specs.Depth.{capped, formula_depth, greatest, term_depth_of};

use crate::formula::Formula;
use crate::term::Term;

/// The depth of a formula, or the greatest `u64` where it is greater.
pub fn depth(f: &Formula) -> u64
    ensures { result ≡ capped (formula_depth f.now) }
{
    match f {
        Formula::True => 1,
        Formula::False => 1,
        Formula::Atom(_, args) => terms_depth(args.as_slice()).saturating_add(1),
        Formula::Not(a) => depth(a.get()).saturating_add(1),
        Formula::And(a, b) => greater(depth(a.get()), depth(b.get())).saturating_add(1),
        Formula::Or(a, b) => greater(depth(a.get()), depth(b.get())).saturating_add(1),
        Formula::Imp(a, b) => greater(depth(a.get()), depth(b.get())).saturating_add(1),
        Formula::Iff(a, b) => greater(depth(a.get()), depth(b.get())).saturating_add(1),
        Formula::All(a) => depth(a.get()).saturating_add(1),
        Formula::Ex(a) => depth(a.get()).saturating_add(1),
    }
}

/// The depth of a term, or the greatest `u64` where it is greater.
#[cycle(term_depth)]
pub fn term_depth(t: &Term) -> u64
    ensures { result ≡ capped (term_depth_of t.now) }
{
    match t {
        Term::Var(_) => 1,
        Term::App(_, args) => terms_depth(args.as_slice()).saturating_add(1),
        Term::Any => 1,
    }
}

#[cycle(term_depth)]
fn terms_depth(terms: &[Term]) -> u64
    ensures { result ≡ capped (greatest (map term_depth_of terms.now)) }
{
    let mut deepest = 0;
    for term in terms {
        deepest = greater(deepest, term_depth(term));
    }
    deepest
}

fn greater(a: u64, b: u64) -> u64
    ensures { result ≡ max a b }
{
    if a < b { b } else { a }
}
