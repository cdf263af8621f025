//! Ground terms as the proof terms have them.
#![tactic(auto, using(crate::proofs::OutputSteps::output_steps))]

ghost use Rattle.std.specs.Prelude.{◌≡◌, map, IfOk};
ghost use Rattle.std.specs.List.{list_any, position};
ghost use Rattle.dk_syntax.specs.Order.{order_of};
ghost use Rattle.dk_syntax.specs.Symbols.{same_symbol};
ghost use Rattle.nd_term.specs.Outputs.{ground_of, is_equal, output, place_of};

use crate::place::Place;
use dk_syntax::{NoMemory, Seq, SymKey, Term, term_order};
use std::alloc::Global;
use std::cmp::Ordering;

/// Whether two terms are one.
fn is_same(one: &Term, other: &Term) -> bool
    ensures { result ≡ is_equal (order_of one.now other.now) }
{
    match term_order(one, other) {
        Ordering::Equal => true,
        Ordering::Less | Ordering::Greater => false,
    }
}

/// Where a term stands in an order.
fn found(order: &[Term], t: &Term) -> Option<usize>
    ensures { result ≡ position (λ u. is_equal (order_of u t.now)) order.now }
{
    order.iter().position(|one| is_same(one, t))
}

/// The place of a term in an order, and the order's length where it isn't there.
fn place_of(order: &[Term], t: &Term) -> usize
    ensures { result ≡ place_of order.now t.now }
{
    match found(order, t) {
        Some(place) => place,
        None => order.len(),
    }
}

/// Whether a symbol is one of these.
fn is_among(symbols: &[SymKey], head: &SymKey) -> bool
    ensures { result ≡ list_any (same_symbol head.now) symbols.now }
{
    symbols.iter().any(|one| head.same(one))
}

/// A ground term, in which the k-th Skolem term of the place's order becomes the variable k.
#[cycle(replaced)]
pub fn replaced(alloc: Global, place: &Place<'_>, t: &Term) -> Result<Term, NoMemory>
    ensures { IfOk result (λ r. ground_of r
        ≡ output place.now.symbols.now place.now.order.now t.now) }
{
    match t {
        Term::Var(_) | Term::Any => Ok(Term::Any),
        Term::App(head, args) => {
            if is_among(place.symbols.as_slice(), head) {
                let number = place_number(place, t)?;
                return Ok(Term::Var(number));
            }
            let args = replaced_each(alloc, place, args.as_slice())?;
            Ok(Term::App(head.copy(alloc)?, args))
        }
    }
}

#[cycle(replaced)]
fn replaced_each(alloc: Global, place: &Place<'_>, terms: &[Term]) -> Result<Seq<Term>, NoMemory>
    ensures { IfOk result (λ all. map ground_of all
        ≡ map (output place.now.symbols.now place.now.order.now) terms.now) }
{
    let mut all = Seq::from_vec(Vec::with_capacity(alloc, terms.len())?);
    for term in terms {
        all.push(replaced(alloc, place, term)?)?;
    }
    Ok(all)
}

/// The number of a Skolem term's eigenvariable. A number past `u32` is want of memory.
pub fn place_number(place: &Place<'_>, t: &Term) -> Result<u32, NoMemory>
    ensures { IfOk result (λ n. n ≡ place_of place.now.order.now t.now) }
{
    u32::try_from(place_of(place.order.as_slice(), t)).map_err(|_| NoMemory)
}
