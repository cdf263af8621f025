//! Products, put together from their domains.
ghost use Rattle.std.specs.Prelude.{◌≡◌, ◌++◌, ◌∷◌, [], IfOk, OnOk, Ok};
ghost use Rattle.lp_term.specs.LambdaPi.{pi};
ghost use Rattle.lp_term.specs.View.{term_of};
ghost use Rattle.lp_kernel.specs.Checking.{and_then};
ghost use Rattle.lp_kernel.specs.Walking.{checked_of, over_domains};

use crate::finding::Opening;
use dk_syntax::{NoMemory, Seq};
use lp_term::{Lp, product};
use std::alloc::Global;

/// Into the second part of a product.
pub(crate) fn enter_codomain(
    alloc: Global,
    types: &mut Seq<Lp>,
    domains: &mut Seq<Lp>,
    x: Lp,
) -> Result<(), NoMemory>
    ensures context { OnOk result (types.new ≡ types.old ++ x ∷ []) }
    ensures domains { OnOk result (domains.new ≡ domains.old ++ x ∷ []) }
{
    let domain = x.copy(alloc)?;
    types.push(x)?;
    domains.push(domain)?;
    Ok(())
}

/// A product type from the opening of its second part.
fn product_opening(alloc: Global, x: Lp, opening: Opening) -> Result<Opening, NoMemory>
    ensures { IfOk result (λ r. checked_of r ≡ and_then (checked_of opening)
        (λ y. Ok (pi (term_of x) y))) }
{
    match opening {
        Opening::Closed(refusal) => Ok(Opening::Closed(refusal)),
        Opening::Opened(y) => Ok(Opening::Opened(product(alloc, x, y)?)),
    }
}

/// The products over the domains, from the opening of the last part.
#[tactic(auto, using(crate::proofs::DescentLaws::domains_last))]
pub(crate) fn products_of(
    alloc: Global,
    domains: Seq<Lp>,
    last: Opening,
) -> Result<Opening, NoMemory>
    ensures { IfOk result (λ r. checked_of r ≡ over_domains domains (checked_of last)) }
{
    let mut left = domains;
    let mut all = last;
    while let Some(domain) = left.pop() {
        all = product_opening(alloc, domain, all)?;
    }
    Ok(all)
}
