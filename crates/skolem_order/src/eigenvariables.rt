//! The places of eigenvariables.
#![tactic(auto)]

ghost use Rattle.std.specs.Prelude.{◌<◌, length, IsTrue, MatchOption};
ghost use Rattle.std.specs.List.{Contains};
ghost use Rattle.skolem_order.specs.Order.{IsPlaceOf};
ghost use Rattle.skolem_order.specs.Origins.{is_skolem};

use crate::origins::{Origins, origin_of_term};
use dk_syntax::{Seq, Term, same_term};

/// The place of a term in the order, counted from 0, where its head is a Skolem symbol.
pub fn eigen(o: &Origins, order: &Seq<Term>, t: &Term) -> Option<u32>
    requires { length order.now < 4294967296 }
    ensures { MatchOption result (IsTrue (is_skolem o.now.list t.now) → ¬ Contains order.now t.now)
        (λ place. IsTrue (is_skolem o.now.list t.now) × IsPlaceOf order.now t.now place) }
{
    match origin_of_term(o.list.as_slice(), t) {
        Some(_) => place_of(order.as_slice(), t),
        None => None,
    }
}

fn place_of(order: &[Term], t: &Term) -> Option<u32>
    requires { length order.now < 4294967296 }
    ensures { MatchOption result (¬ Contains order.now t.now)
        (λ place. IsPlaceOf order.now t.now place) }
{
    for (place, term) in order.iter().enumerate() {
        if same_term(term, t) {
            return Some(place as u32);
        }
    }
    None
}
