//! The order of forms.
#![tactic(auto, using(crate::proofs::TiedOrders::order_steps))]

ghost use Rattle.std.specs.Prelude.{◌≡◌};
ghost use Rattle.normal_form.specs.Sorting.{form_order, rank_of};
ghost use Rattle.normal_form.specs.Works.{bare_of};

use crate::literal_order::literal_order;
use crate::work::Work;
use std::cmp::Ordering;

/// The order of two forms, whatever their numbers. It is found by a loop along their left parts, which decide first:
/// `after` is the order of the right parts that were met, the inmost first.
pub fn form_order(a: &Work, b: &Work) -> Ordering
    ensures { result ≡ form_order (bare_of a.now) (bare_of b.now) }
{
    let mut left = a;
    let mut right = b;
    let mut after = Ordering::Equal;
    loop {
        match (left, right) {
            (Work::And(a, c), Work::And(b, d)) | (Work::Or(a, c), Work::Or(b, d)) => {
                after = form_order(c.get(), d.get()).then(after);
                left = a.get();
                right = b.get();
            }
            (Work::All(_, a), Work::All(_, b)) | (Work::Ex(_, a), Work::Ex(_, b)) => {
                left = a.get();
                right = b.get();
            }
            (Work::Lit(l), Work::Lit(m)) => return literal_order(l, m).then(after),
            _ => return rank(left).cmp(&rank(right)).then(after),
        }
    }
}

fn rank(a: &Work) -> u32
    ensures { result ≡ rank_of (bare_of a.now) }
{
    match a {
        Work::True => 0,
        Work::False => 1,
        Work::Lit(_) => 2,
        Work::And(_, _) => 3,
        Work::Or(_, _) => 4,
        Work::All(_, _) => 5,
        Work::Ex(_, _) => 6,
    }
}
