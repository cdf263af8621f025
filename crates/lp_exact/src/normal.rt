//! Normalisation of objects by hereditary substitution, and lazy types.
ghost use Rattle.std.specs.Prelude.{◌≡◌, IfOk};
ghost use Rattle.lp_term.specs.View.{term_of};
ghost use Rattle.lp_exact.specs.Normalisation.{apply_at, normal_at, put_at};
ghost use Rattle.lp_exact.specs.Placing.{placed_variable, placed_with};
ghost use Rattle.lp_exact.specs.Products.{products};

use dk_syntax::{NoMemory, Seq};
use lp_term::{Lp, apply, lambda, lift, product};
use std::alloc::Global;

/// What becomes of the variable `number` where `by` is put for the variable `place`.
fn put_for_one(alloc: Global, number: u32, by: &Lp, place: u32) -> Result<Lp, NoMemory>
    ensures { IfOk result (λ r. term_of r ≡ placed_variable (term_of by.now) number place) }
{
    if number < place {
        return Ok(Lp::Var(number));
    }
    if number == place {
        return lift(alloc, by, place, 0);
    }
    Ok(Lp::Var(number - 1))
}

/// `by` for the variable `place` of `t`, reduced, where `by` has a simple type of at most the size
/// `rank` + 1. Both are normal.
#[cycle(put_reduced)]
fn put_reduced(alloc: Global, rank: u64, t: &Lp, by: &Lp, place: u32) -> Result<Lp, NoMemory>
    ensures { IfOk result (λ r.
        term_of r ≡ placed_with (apply_at rank) (term_of by.now) (term_of t.now) place) }
{
    match t {
        Lp::Sort => Ok(Lp::Sort),
        Lp::Sym(name) => Ok(Lp::Sym(name.copy(alloc)?)),
        Lp::Var(number) => put_for_one(alloc, *number, by, place),
        Lp::Pat(name) => Ok(Lp::Pat(name.copy(alloc)?)),
        Lp::App(function, argument) => {
            let function = put_reduced(alloc, rank, function.get(), by, place)?;
            let argument = put_reduced(alloc, rank, argument.get(), by, place)?;
            apply_reduced(alloc, rank, function, argument)
        }
        Lp::Lam(domain, body) => {
            let domain = put_reduced(alloc, rank, domain.get(), by, place)?;
            let inner = place.checked_add(1).ok_or(NoMemory)?;
            let body = put_reduced(alloc, rank, body.get(), by, inner)?;
            lambda(alloc, domain, body)
        }
        Lp::Pi(domain, body) => {
            let domain = put_reduced(alloc, rank, domain.get(), by, place)?;
            let inner = place.checked_add(1).ok_or(NoMemory)?;
            let body = put_reduced(alloc, rank, body.get(), by, inner)?;
            product(alloc, domain, body)
        }
    }
}

/// A normal function at a normal argument, whose simple type has at most the size `rank`, reduced.
#[cycle(put_reduced)]
pub fn apply_reduced(alloc: Global, rank: u64, function: Lp, argument: Lp) -> Result<Lp, NoMemory>
    ensures { IfOk result (λ r. term_of r ≡ apply_at rank (term_of function) (term_of argument)) }
{
    if rank == 0 {
        return apply(alloc, function, argument);
    }
    match &function {
        Lp::Lam(_, body) => put_reduced(alloc, rank - 1, body.get(), &argument, 0),
        _ => apply(alloc, function, argument),
    }
}

/// `by` for variable 0 of `t`, and the other variables lowered, reduced, where `by` has a simple
/// type of at most the size `rank` + 1. Both are normal.
#[tactic(auto, using(crate::proofs::PlaceLaws::placed_last))]
pub fn put_last(alloc: Global, rank: u64, t: &Lp, by: &Lp) -> Result<Lp, NoMemory>
    ensures { IfOk result (λ r. term_of r ≡ put_at rank (term_of by.now) (term_of t.now)) }
{
    put_reduced(alloc, rank, t, by, 0)
}

/// The term with its redexes reduced, where their arguments have types of at most the size `rank`.
fn normal(alloc: Global, rank: u64, t: &Lp) -> Result<Lp, NoMemory>
    ensures { IfOk result (λ r. term_of r ≡ normal_at rank (term_of t.now)) }
{
    match t {
        Lp::Sort => Ok(Lp::Sort),
        Lp::Sym(name) => Ok(Lp::Sym(name.copy(alloc)?)),
        Lp::Var(number) => Ok(Lp::Var(*number)),
        Lp::Pat(name) => Ok(Lp::Pat(name.copy(alloc)?)),
        Lp::App(function, argument) => {
            let function = normal(alloc, rank, function.get())?;
            let argument = normal(alloc, rank, argument.get())?;
            apply_reduced(alloc, rank, function, argument)
        }
        Lp::Lam(domain, body) => {
            let domain = normal(alloc, rank, domain.get())?;
            let body = normal(alloc, rank, body.get())?;
            lambda(alloc, domain, body)
        }
        Lp::Pi(domain, body) => {
            let domain = normal(alloc, rank, domain.get())?;
            let body = normal(alloc, rank, body.get())?;
            product(alloc, domain, body)
        }
    }
}

/// The product over the domains, put together from the last to the first.
#[tactic(auto, using(crate::proofs::ProductLaws::products_last))]
pub(crate) fn all_products(alloc: Global, domains: Seq<Lp>, last: Lp) -> Result<Lp, NoMemory>
    ensures { IfOk result (λ r. term_of r ≡ products domains (term_of last)) }
{
    let mut left = domains;
    let mut all = last;
    while let Some(domain) = left.pop() {
        all = product(alloc, domain, all)?;
    }
    Ok(all)
}

/// The same of a type. The right spine of products is walked by a loop.
#[tactic(auto, using(crate::proofs::ProductLaws::products_last))]
pub(crate) fn lazy_at(alloc: Global, rank: u64, t: &Lp) -> Result<Lp, NoMemory>
    ensures { IfOk result (λ r. term_of r ≡ normal_at rank (term_of t.now)) }
{
    let mut domains = Seq::from_vec(Vec::new(alloc));
    let mut rest = t;
    while let Lp::Pi(domain, body) = rest {
        let domain = lazy_at(alloc, rank, domain.get())?;
        domains.push(domain)?;
        rest = body.get();
    }
    let last = normal(alloc, rank, rest)?;
    all_products(alloc, domains, last)
}
