//! Comparison of lazy types, layer by layer.
ghost use Rattle.std.specs.Prelude.{◌≡◌, ◌↔◌, IfOk, IsTrue};
ghost use Rattle.lp_term.specs.LambdaPi.{Term, pi};
ghost use Rattle.lp_term.specs.View.{term_of};
ghost use Rattle.lp_exact.specs.LazyTypes.{full, in_parts};
ghost use Rattle.lp_exact.specs.Opened.{HasOpened};

use crate::layer::open_layer;
use dk_syntax::NoMemory;
use lp_term::Lp;
use std::alloc::Global;

/// Whether two terms are one tree.
pub fn same_tree(a: &Lp, b: &Lp) -> bool
    ensures { IsTrue result ↔ (a.now ≡ b.now) }
{
    match (a, b) {
        (Lp::Sort, Lp::Sort) => true,
        (Lp::Sym(x), Lp::Sym(y)) => x.as_bytes() == y.as_bytes(),
        (Lp::Var(m), Lp::Var(n)) => m == n,
        (Lp::Pat(x), Lp::Pat(y)) => x.as_bytes() == y.as_bytes(),
        (Lp::App(f, t), Lp::App(g, u)) => {
            same_tree(f.get(), g.get()) && same_tree(t.get(), u.get())
        }
        (Lp::Lam(f, t), Lp::Lam(g, u)) => {
            same_tree(f.get(), g.get()) && same_tree(t.get(), u.get())
        }
        (Lp::Pi(f, t), Lp::Pi(g, u)) => same_tree(f.get(), g.get()) && same_tree(t.get(), u.get()),
        _ => false,
    }
}

/// A type as its first layer shows it.
pub(crate) fn shown<'a>(t: &'a Lp, layer: &'a Option<Lp>) -> &'a Lp
    ensures { (opened : Term)
        → HasOpened layer.now (term_of t.now) opened → term_of result.now ≡ opened }
{
    match layer {
        Some(layer) => layer,
        None => t,
    }
}

/// Whether two lazy types have one full type. The right spines of products are walked by a loop.
#[cycle(same_lazy)]
pub fn same_lazy(alloc: Global, a: &Lp, b: &Lp) -> Result<bool, NoMemory>
    ensures { IfOk result (λ same. IsTrue same ↔ (full (term_of a.now) ≡ full (term_of b.now))) }
{
    let mut left = a;
    let mut right = b;
    while let (Lp::Pi(first, rest), Lp::Pi(other, remaining)) = (left, right) {
        if !same_lazy(alloc, first.get(), other.get())? {
            return Ok(false);
        }
        left = rest.get();
        right = remaining.get();
    }
    same_layers(alloc, left, right)
}

/// The same, by equal trees or layer by layer.
#[cycle(same_lazy)]
fn same_layers(alloc: Global, a: &Lp, b: &Lp) -> Result<bool, NoMemory>
    ensures { IfOk result (λ same. IsTrue same ↔ (full (term_of a.now) ≡ full (term_of b.now))) }
{
    if same_tree(a, b) {
        return Ok(true);
    }
    let left = open_layer(alloc, a)?;
    let right = open_layer(alloc, b)?;
    same_open(alloc, shown(a, &left), shown(b, &right))
}

/// The same of types whose first layers lie open.
#[cycle(same_lazy)]
fn same_open(alloc: Global, a: &Lp, b: &Lp) -> Result<bool, NoMemory>
    ensures { IfOk result (λ same.
        IsTrue same ↔ (in_parts full (term_of a.now) ≡ in_parts full (term_of b.now))) }
{
    match a {
        Lp::Pi(first, rest) => same_product(alloc, first.get(), rest.get(), b),
        _ => Ok(same_tree(a, b)),
    }
}

/// The same of the product of two types and a type whose first layer lies open.
#[cycle(same_lazy)]
fn same_product(alloc: Global, first: &Lp, rest: &Lp, b: &Lp) -> Result<bool, NoMemory>
    ensures { IfOk result (λ same. IsTrue same
        ↔ (pi (full (term_of first.now)) (full (term_of rest.now))
        ≡ in_parts full (term_of b.now))) }
{
    match b {
        Lp::Pi(other, remaining) => {
            if !same_lazy(alloc, first, other.get())? {
                return Ok(false);
            }
            same_lazy(alloc, rest, remaining.get())
        }
        _ => Ok(false),
    }
}
