//! The order of ground terms.
ghost use Rattle.std.specs.Prelude.{◌≡◌, map};
ghost use Rattle.std.specs.Cmp.Lexicographic.{slice_cmp};
ghost use Rattle.dk_syntax.specs.Order.{compared, head_order, order_of};

use crate::symbol::SymKey;
use crate::term::Term;
use std::cmp::Ordering;

/// `Any` first, then by the head's name, its number of arguments and the arguments from left to right.
/// Variables, which ground terms lack, stand between.
#[cycle(term_order)]
pub fn term_order(a: &Term, b: &Term) -> Ordering
    ensures { result ≡ order_of a.now b.now }
{
    match (a, b) {
        (Term::Any, Term::Any) => Ordering::Equal,
        (Term::Any, Term::Var(_)) => Ordering::Less,
        (Term::Any, Term::App(_, _)) => Ordering::Less,
        (Term::Var(_), Term::Any) => Ordering::Greater,
        (Term::Var(i), Term::Var(j)) => i.cmp(j),
        (Term::Var(_), Term::App(_, _)) => Ordering::Less,
        (Term::App(_, _), Term::Any) => Ordering::Greater,
        (Term::App(_, _), Term::Var(_)) => Ordering::Greater,
        (Term::App(f, xs), Term::App(g, ys)) => match symbol_order(f, g) {
            Ordering::Equal => terms_order(xs.as_slice(), ys.as_slice()),
            other => other,
        },
    }
}

#[cycle(term_order)]
fn terms_order(xs: &[Term], ys: &[Term]) -> Ordering
    ensures { result ≡ slice_cmp compared (map order_of xs.now) ys.now }
{
    for (i, x) in xs.iter().enumerate() {
        if i >= ys.len() {
            return Ordering::Greater;
        }
        match term_order(x, &ys[i]) {
            Ordering::Equal => {}
            other => return other,
        }
    }
    if xs.len() < ys.len() {
        Ordering::Less
    } else {
        Ordering::Equal
    }
}

fn symbol_order(f: &SymKey, g: &SymKey) -> Ordering
    ensures { result ≡ head_order f.now g.now }
{
    match f.name.as_bytes().cmp(g.name.as_bytes()) {
        Ordering::Equal => f.arity.cmp(&g.arity),
        other => other,
    }
}
