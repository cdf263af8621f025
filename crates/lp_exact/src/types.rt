//! Normal types, and whether two types have one.
ghost use Rattle.std.specs.Prelude.{◌≡◌, ◌+◌, ◌↔◌, IfOk, IsTrue};
ghost use Rattle.lp_term.specs.View.{term_of};
ghost use Rattle.lp_exact.specs.LazyTypes.{full, in_parts};
ghost use Rattle.lp_exact.specs.NormalTypes.{annotation_rank, annotation_size, lazy_of, normal_type_of};
ghost use Rattle.lp_exact.specs.FragmentLaws.{IsConversionOf, IsNormalTypeOf};

use crate::layer::open_layer;
use crate::normal::{all_products, lazy_at};
use crate::same::{same_lazy, shown};
use dk_syntax::{NoMemory, Seq};
use lp_term::{Lp, product};
use std::alloc::Global;

/// The sum, where it fits; a count past `u64` is want of memory.
fn added(a: u64, b: u64) -> Result<u64, NoMemory>
    ensures { IfOk result (λ n. n ≡ a + b) }
{
    a.checked_add(b).ok_or(NoMemory)
}

/// The nodes of an annotation.
#[cycle(size_of_annotation)]
fn size_of_annotation(t: &Lp) -> Result<u64, NoMemory>
    ensures { IfOk result (λ n. n ≡ annotation_size (term_of t.now)) }
{
    let mut count = 1;
    let mut rest = t;
    while let Lp::Pi(domain, body) = rest {
        let size = size_of_annotation(domain.get())?;
        let both = added(count, size)?;
        count = added(both, 1)?;
        rest = body.get();
    }
    Ok(count)
}

/// The greatest size of an annotation in the term. Right spines are walked by a loop.
#[cycle(rank_of)]
fn rank_of(t: &Lp) -> Result<u64, NoMemory>
    ensures { IfOk result (λ n. n ≡ annotation_rank (term_of t.now)) }
{
    let mut rank: u64 = 0;
    let mut rest = t;
    loop {
        match rest {
            Lp::Sort | Lp::Sym(_) | Lp::Var(_) | Lp::Pat(_) => return Ok(rank),
            Lp::App(function, argument) => {
                rank = rank.max(rank_of(function.get())?);
                rest = argument.get();
            }
            Lp::Lam(annotation, body) => {
                rank = rank.max(size_of_annotation(annotation.get())?);
                rest = body.get();
            }
            Lp::Pi(domain, body) => {
                rank = rank.max(rank_of(domain.get())?);
                rest = body.get();
            }
        }
    }
}

/// The type with its objects beta-normal, and each `Prf` unopened.
pub fn lazy_type(alloc: Global, t: &Lp) -> Result<Lp, NoMemory>
    ensures { IfOk result (λ r. term_of r ≡ lazy_of (term_of t.now)) }
{
    let rank = rank_of(t)?;
    lazy_at(alloc, rank, t)
}

/// A lazy type with each `Prf` rewritten by the rules as far as they go. The right spine of
/// products is walked by a loop.
#[cycle(full_type)]
pub fn full_type(alloc: Global, t: &Lp) -> Result<Lp, NoMemory>
    ensures { IfOk result (λ r. term_of r ≡ full (term_of t.now)) }
{
    let mut domains = Seq::from_vec(Vec::new(alloc));
    let mut rest = t;
    while let Lp::Pi(domain, body) = rest {
        let domain = full_type(alloc, domain.get())?;
        domains.push(domain)?;
        rest = body.get();
    }
    let last = full_layers(alloc, rest)?;
    all_products(alloc, domains, last)
}

/// The same, layer by layer.
#[cycle(full_type)]
fn full_layers(alloc: Global, t: &Lp) -> Result<Lp, NoMemory>
    ensures { IfOk result (λ r. term_of r ≡ full (term_of t.now)) }
{
    let layer = open_layer(alloc, t)?;
    full_open(alloc, shown(t, &layer))
}

/// The same of a type whose first layer lies open.
#[cycle(full_type)]
fn full_open(alloc: Global, t: &Lp) -> Result<Lp, NoMemory>
    ensures { IfOk result (λ r. term_of r ≡ in_parts full (term_of t.now)) }
{
    match t {
        Lp::Pi(first, rest) => {
            let first = full_type(alloc, first.get())?;
            let rest = full_type(alloc, rest.get())?;
            product(alloc, first, rest)
        }
        _ => t.copy(alloc),
    }
}

/// The normal type of a type of the fragment. As a tree it may be exponential in nested `iff`s.
pub fn normal_type(alloc: Global, t: &Lp) -> Result<Lp, NoMemory>
    ensures answer { IfOk result (λ r. term_of r ≡ normal_type_of (term_of t.now)) }
    ensures normal { IfOk result (λ r. IsNormalTypeOf (term_of t.now) (term_of r)) }
{
    let lazy = lazy_type(alloc, t)?;
    full_type(alloc, &lazy)
}

/// Whether two types of the fragment have one normal type, which is whether they are convertible.
/// No normal type is built.
pub fn same_type(alloc: Global, a: &Lp, b: &Lp) -> Result<bool, NoMemory>
    ensures answer { IfOk result (λ same.
        IsTrue same ↔ (normal_type_of (term_of a.now) ≡ normal_type_of (term_of b.now))) }
    ensures conversion { IfOk result (IsConversionOf (term_of a.now) (term_of b.now)) }
{
    let left = lazy_type(alloc, a)?;
    let right = lazy_type(alloc, b)?;
    same_lazy(alloc, &left, &right)
}
