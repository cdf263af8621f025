//! The order of literals.
ghost use Rattle.std.specs.Prelude.{◌≡◌, map};
ghost use Rattle.std.specs.Cmp.Lexicographic.{slice_cmp};
ghost use Rattle.dk_syntax.specs.Order.{compared};
ghost use Rattle.normal_form.specs.LiteralOrder.{argument_order, kind_order, literal_order, sign_order, symbol_order};

use dk_syntax::{Kind, Literal, SymKey, Term};
use std::cmp::Ordering;

/// By the signs, the negative one first, then by the predicates, then by the arguments from left to right.
pub fn literal_order(l: &Literal, m: &Literal) -> Ordering
    ensures { result ≡ literal_order l.now m.now }
{
    match sign_order(l.positive, m.positive) {
        Ordering::Equal => {}
        other => return other,
    }
    match symbol_order(&l.pred, &m.pred) {
        Ordering::Equal => arguments_order(l.args.as_slice(), m.args.as_slice()),
        other => other,
    }
}

fn sign_order(a: bool, b: bool) -> Ordering
    ensures { result ≡ sign_order a b }
{
    match (a, b) {
        (false, true) => Ordering::Less,
        (true, false) => Ordering::Greater,
        (false, false) | (true, true) => Ordering::Equal,
    }
}

fn kind_order(a: Kind, b: Kind) -> Ordering
    ensures { result ≡ kind_order a b }
{
    match (a, b) {
        (Kind::Function, Kind::Predicate) => Ordering::Less,
        (Kind::Predicate, Kind::Function) => Ordering::Greater,
        (Kind::Function, Kind::Function) => Ordering::Equal,
        (Kind::Predicate, Kind::Predicate) => Ordering::Equal,
    }
}

fn symbol_order(f: &SymKey, g: &SymKey) -> Ordering
    ensures { result ≡ symbol_order f.now g.now }
{
    match f.name.as_bytes().cmp(g.name.as_bytes()) {
        Ordering::Equal => {}
        other => return other,
    }
    match f.arity.cmp(&g.arity) {
        Ordering::Equal => kind_order(f.kind, g.kind),
        other => other,
    }
}

#[cycle(argument_order)]
fn argument_order(a: &Term, b: &Term) -> Ordering
    ensures { result ≡ argument_order a.now b.now }
{
    match (a, b) {
        (Term::Var(i), Term::Var(j)) => i.cmp(j),
        (Term::Var(_), Term::Any) => Ordering::Less,
        (Term::Var(_), Term::App(_, _)) => Ordering::Less,
        (Term::Any, Term::Var(_)) => Ordering::Greater,
        (Term::Any, Term::Any) => Ordering::Equal,
        (Term::Any, Term::App(_, _)) => Ordering::Less,
        (Term::App(_, _), Term::Var(_)) => Ordering::Greater,
        (Term::App(_, _), Term::Any) => Ordering::Greater,
        (Term::App(f, xs), Term::App(g, ys)) => match symbol_order(f, g) {
            Ordering::Equal => arguments_order(xs.as_slice(), ys.as_slice()),
            other => other,
        },
    }
}

#[cycle(argument_order)]
fn arguments_order(xs: &[Term], ys: &[Term]) -> Ordering
    ensures { result ≡ slice_cmp compared (map argument_order xs.now) ys.now }
{
    for (i, x) in xs.iter().enumerate() {
        if i >= ys.len() {
            return Ordering::Greater;
        }
        match argument_order(x, &ys[i]) {
            Ordering::Equal => {}
            other => return other,
        }
    }
    if xs.len() < ys.len() {
        Ordering::Less
    } else {
        Ordering::Equal
    }
}
