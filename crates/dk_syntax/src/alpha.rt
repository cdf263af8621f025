//! Equality of trees, side by side, without taking memory.
ghost use Rattle.std.specs.Prelude.{◌≡◌, ◌↔◌, IsTrue};

use crate::clause::Literal;
use crate::formula::Formula;
use crate::term::Term;

/// Whether two terms are one.
#[cycle(same_term)]
pub fn same_term(a: &Term, b: &Term) -> bool
    ensures { IsTrue result ↔ (a.now ≡ b.now) }
{
    match (a, b) {
        (Term::Var(i), Term::Var(j)) => i == j,
        (Term::App(f, xs), Term::App(g, ys)) => {
            f.same(g) && same_terms(xs.as_slice(), ys.as_slice())
        }
        (Term::Any, Term::Any) => true,
        _ => false,
    }
}

/// Whether two lists of terms are one.
#[cycle(same_term)]
pub fn same_terms(xs: &[Term], ys: &[Term]) -> bool
    ensures { IsTrue result ↔ (xs.now ≡ ys.now) }
{
    if xs.len() != ys.len() {
        return false;
    }
    for i in 0..xs.len() {
        if !same_term(&xs[i], &ys[i]) {
            return false;
        }
    }
    true
}

/// Whether two literals are one.
pub fn same_literal(a: &Literal, b: &Literal) -> bool
    ensures { IsTrue result ↔ (a.now ≡ b.now) }
{
    a.positive == b.positive
        && a.pred.same(&b.pred)
        && same_terms(a.args.as_slice(), b.args.as_slice())
}

/// Whether two formulas are equal up to the names of bound variables, which is equality of the trees.
pub fn alpha_eq(a: &Formula, b: &Formula) -> bool
    ensures { IsTrue result ↔ (a.now ≡ b.now) }
{
    match (a, b) {
        (Formula::True, Formula::True) => true,
        (Formula::False, Formula::False) => true,
        (Formula::Atom(p, xs), Formula::Atom(q, ys)) => {
            p.same(q) && same_terms(xs.as_slice(), ys.as_slice())
        }
        (Formula::Not(a), Formula::Not(b)) => alpha_eq(a.get(), b.get()),
        (Formula::And(a, c), Formula::And(b, d)) => {
            alpha_eq(a.get(), b.get()) && alpha_eq(c.get(), d.get())
        }
        (Formula::Or(a, c), Formula::Or(b, d)) => {
            alpha_eq(a.get(), b.get()) && alpha_eq(c.get(), d.get())
        }
        (Formula::Imp(a, c), Formula::Imp(b, d)) => {
            alpha_eq(a.get(), b.get()) && alpha_eq(c.get(), d.get())
        }
        (Formula::Iff(a, c), Formula::Iff(b, d)) => {
            alpha_eq(a.get(), b.get()) && alpha_eq(c.get(), d.get())
        }
        (Formula::All(a), Formula::All(b)) => alpha_eq(a.get(), b.get()),
        (Formula::Ex(a), Formula::Ex(b)) => alpha_eq(a.get(), b.get()),
        _ => false,
    }
}
