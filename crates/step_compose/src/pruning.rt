//! Where the search goes no further: what doesn't follow from a relaxed image follows from no image under more symbols.
#![tactic(auto, using(crate::proofs::FreeLaws::free_steps))]

ghost use Rattle.std.specs.Prelude.{◌≡◌, true, IfOk, IsTrue};
ghost use Rattle.step_clause.specs.Justifications.{IsNumberedList};
ghost use Rattle.step_compose.specs.Composing.{IsListed};
ghost use Rattle.step_compose.specs.Searching.{FreeBelow, NoneAfter};

use crate::choices::symbols_of;
use crate::targets::{image_list, justify_from};
use dk_syntax::{NoMemory, SymKey};
use normal_form::{ClauseList, Nf};
use std::alloc::Global;
use unifier::terms_below;

/// Whether the free variables of the form are below a number.
pub fn are_below(nf: &Nf, bound: u32) -> bool
    ensures { IsTrue result → FreeBelow bound nf.now }
{
    match nf {
        Nf::True | Nf::False => true,
        Nf::Lit(literal) => terms_below(literal.args.as_slice(), bound),
        Nf::And(a, b) => are_below(a.get(), bound) && are_below(b.get(), bound),
        Nf::Or(a, b) => are_below(a.get(), bound) && are_below(b.get(), bound),
        Nf::All(a) => bound < u32::MAX && are_below(a.get(), bound + 1),
        Nf::Ex(a) => bound < u32::MAX && are_below(a.get(), bound + 1),
    }
}

/// Whether a target is known to follow from no image of a closed form with these places for the first existentials.
pub fn is_hopeless(
    alloc: Global,
    from: &Nf,
    aliens: &[SymKey],
    targets: &ClauseList,
    places: &[u32],
    closed: bool,
) -> Result<bool, NoMemory>
    requires from { IsListed from.now }
    requires targets { IsNumberedList targets.now }
    requires closed { closed ≡ true → FreeBelow 0 from.now }
    ensures { IfOk result (λ hopeless. hopeless ≡ true
        → NoneAfter from.now aliens.now targets.now.rows places.now) }
{
    if !closed {
        return Ok(false);
    }
    let symbols = symbols_of(alloc, aliens, places)?;
    let image = image_list(alloc, from, symbols.as_slice())?;
    let found = justify_from(alloc, targets, image)?;
    match found {
        Some(_) => Ok(false),
        None => Ok(true),
    }
}
