//! Consumers: falsity from a proof of a signed formula and the variables of a clause's literals.
#![tactic(auto)]

ghost use Rattle.std.specs.Prelude.{◌≡◌, ◌-◌, false, true, IfOk};
ghost use Rattle.lp_term.specs.Connectives.{proof_of};
ghost use Rattle.lp_term.specs.LambdaPi.{lam};
ghost use Rattle.lp_term.specs.View.{term_of};
ghost use Rattle.nd_term.specs.Formulas.{conjunction, disjunction, equivalence, existential, implication, negation, universal};
ghost use Rattle.nd_term.specs.Frames.{consumed, deeper, said, with_value};
ghost use Rattle.nd_term.specs.Spots.{frame_of, value_of};
ghost use Rattle.nd_term.specs.TreeKinds.{leaves};
ghost use Rattle.nd_term.specs.Trees.{tree_of};
ghost use Rattle.nd_term.specs.Views.{theory_formula};

use crate::arms::{
    assuming, assuming_both, assuming_someone, assuming_ways, by_cases, conclusion_denied,
    contradicted, equivalence_denied, everywhere_denied, from_ways, instance_denied, left_denied,
    pair_denied, right_denied, used_for_falsity,
};
use crate::build::{apply, deeper, variable};
use crate::ends::{consume_atom, consume_truth};
use crate::spot::Spot;
use crate::tree::Tree;
use crate::values::{Value, with_first};
use dk_syntax::{Formula, NoMemory};
use lp_term::Lp;
use std::alloc::Global;

/// Falsity from a proof `t` of a formula, or of its negation.
#[cycle(consume)]
pub fn consume(
    alloc: Global,
    tree: &Tree,
    f: &Formula,
    positive: bool,
    spot: &Spot<'_>,
    t: Lp,
) -> Result<Lp, NoMemory>
    ensures { IfOk result (λ r. term_of r ≡ consumed (frame_of spot.now) (theory_formula f.now)
        positive (tree_of tree.now) spot.now.left (term_of t)) }
{
    match f {
        Formula::True => consume_truth(alloc, tree, positive, spot, t),
        Formula::False => Ok(t),
        Formula::Atom(predicate, args) => {
            consume_atom(alloc, tree, predicate, args, positive, spot, t)
        }
        Formula::Not(a) => consume_not(alloc, tree, a.get(), positive, spot, t),
        Formula::And(a, b) => consume_and(alloc, tree, a.get(), b.get(), positive, spot, t),
        Formula::Or(a, b) => consume_or(alloc, tree, a.get(), b.get(), positive, spot, t),
        Formula::Imp(a, b) => consume_imp(alloc, tree, a.get(), b.get(), positive, spot, t),
        Formula::Iff(a, b) => {
            if positive {
                return consume_iff(alloc, tree, a.get(), b.get(), spot, t);
            }
            consume_denied_iff(alloc, tree, a.get(), b.get(), spot, t)
        }
        Formula::All(a) => consume_all(alloc, tree, a.get(), positive, spot, t),
        Formula::Ex(a) => consume_ex(alloc, tree, a.get(), positive, spot, t),
    }
}

#[cycle(consume)]
fn consume_not(
    alloc: Global,
    tree: &Tree,
    a: &Formula,
    positive: bool,
    spot: &Spot<'_>,
    t: Lp,
) -> Result<Lp, NoMemory>
    ensures { IfOk result (λ r. term_of r ≡ consumed (frame_of spot.now)
        (negation (theory_formula a.now)) positive (tree_of tree.now) spot.now.left (term_of t)) }
{
    let Tree::BelowNot(below) = tree else {
        return Ok(t);
    };
    if positive {
        return consume(alloc, below.get(), a, false, spot, t);
    }
    let inside = spot.deeper()?;
    let inner = consume(alloc, below.get(), a, true, &inside, variable(0))?;
    apply(alloc, t, assuming(alloc, spot, a, inner)?)
}

#[cycle(consume)]
fn consume_and(
    alloc: Global,
    tree: &Tree,
    a: &Formula,
    b: &Formula,
    positive: bool,
    spot: &Spot<'_>,
    t: Lp,
) -> Result<Lp, NoMemory>
    ensures { IfOk result (λ r. term_of r ≡ consumed (frame_of spot.now)
        (conjunction (theory_formula a.now) (theory_formula b.now)) positive (tree_of tree.now)
        spot.now.left (term_of t)) }
{
    if !positive {
        let Tree::Both(first, second) = tree else {
            return Ok(t);
        };
        let denied = pair_denied(alloc, spot, a, b, &t)?;
        return consume_nested(alloc, first.get(), second.get(), a, b, false, spot, denied);
    }
    let inside = spot.twice_deeper()?;
    match tree {
        Tree::Left(side) => {
            let inner = consume(alloc, side.get(), a, true, &inside, variable(1))?;
            let both = assuming_both(alloc, spot, a, b, inner)?;
            used_for_falsity(alloc, t, both)
        }
        Tree::Right(side) => {
            let inner = consume(alloc, side.get(), b, true, &inside, variable(0))?;
            let both = assuming_both(alloc, spot, a, b, inner)?;
            used_for_falsity(alloc, t, both)
        }
        _ => Ok(t),
    }
}

#[cycle(consume)]
fn consume_or(
    alloc: Global,
    tree: &Tree,
    a: &Formula,
    b: &Formula,
    positive: bool,
    spot: &Spot<'_>,
    t: Lp,
) -> Result<Lp, NoMemory>
    ensures { IfOk result (λ r. term_of r ≡ consumed (frame_of spot.now)
        (disjunction (theory_formula a.now) (theory_formula b.now)) positive (tree_of tree.now)
        spot.now.left (term_of t)) }
{
    if positive {
        let Tree::Both(first, second) = tree else {
            return Ok(t);
        };
        let inside = spot.deeper()?;
        let left = consume(alloc, first.get(), a, true, &inside, variable(0))?;
        let after = inside.after(first.get().leaves()?);
        let right = consume(alloc, second.get(), b, true, &after, variable(0))?;
        return by_cases(alloc, spot, a, b, t, left, right);
    }
    match tree {
        Tree::Left(side) => {
            let denied = left_denied(alloc, spot, a, b, &t)?;
            consume(alloc, side.get(), a, false, spot, denied)
        }
        Tree::Right(side) => {
            let denied = right_denied(alloc, spot, a, b, &t)?;
            consume(alloc, side.get(), b, false, spot, denied)
        }
        _ => Ok(t),
    }
}

#[cycle(consume)]
fn consume_imp(
    alloc: Global,
    tree: &Tree,
    a: &Formula,
    b: &Formula,
    positive: bool,
    spot: &Spot<'_>,
    t: Lp,
) -> Result<Lp, NoMemory>
    ensures { IfOk result (λ r. term_of r ≡ consumed (frame_of spot.now)
        (implication (theory_formula a.now) (theory_formula b.now)) positive (tree_of tree.now)
        spot.now.left (term_of t)) }
{
    if positive {
        let Tree::Both(first, second) = tree else {
            return Ok(t);
        };
        let used = apply(alloc, deeper(alloc, &t)?, variable(0))?;
        return consume_nested(alloc, first.get(), second.get(), a, b, true, spot, used);
    }
    match tree {
        Tree::Left(side) => {
            let inside = spot.deeper()?;
            let inner = consume(alloc, side.get(), a, true, &inside, variable(0))?;
            apply(alloc, t, contradicted(alloc, spot, a, b, inner)?)
        }
        Tree::Right(side) => {
            let denied = conclusion_denied(alloc, spot, a, b, &t)?;
            consume(alloc, side.get(), b, false, spot, denied)
        }
        _ => Ok(t),
    }
}

/// An equivalence, used in the direction that the tree chooses.
#[cycle(consume)]
fn consume_iff(
    alloc: Global,
    tree: &Tree,
    a: &Formula,
    b: &Formula,
    spot: &Spot<'_>,
    t: Lp,
) -> Result<Lp, NoMemory>
    ensures { IfOk result (λ r. term_of r ≡ consumed (frame_of spot.now)
        (equivalence (theory_formula a.now) (theory_formula b.now)) true (tree_of tree.now)
        spot.now.left (term_of t)) }
{
    let inside = spot.twice_deeper()?;
    match tree {
        Tree::Left(side) => {
            let Tree::Both(first, second) = side.get() else {
                return Ok(t);
            };
            let used = apply(alloc, variable(2), variable(0))?;
            let inner = consume_nested(
                alloc,
                first.get(),
                second.get(),
                a,
                b,
                true,
                &inside,
                used,
            )?;
            let ways = assuming_ways(alloc, spot, a, b, inner)?;
            used_for_falsity(alloc, t, ways)
        }
        Tree::Right(side) => {
            let Tree::Both(first, second) = side.get() else {
                return Ok(t);
            };
            let used = apply(alloc, variable(1), variable(0))?;
            let inner = consume_nested(
                alloc,
                first.get(),
                second.get(),
                b,
                a,
                true,
                &inside,
                used,
            )?;
            let ways = assuming_ways(alloc, spot, a, b, inner)?;
            used_for_falsity(alloc, t, ways)
        }
        _ => Ok(t),
    }
}

/// A denied equivalence: either of the two is absurd, or both hold.
#[cycle(consume)]
fn consume_denied_iff(
    alloc: Global,
    tree: &Tree,
    a: &Formula,
    b: &Formula,
    spot: &Spot<'_>,
    t: Lp,
) -> Result<Lp, NoMemory>
    ensures { IfOk result (λ r. term_of r ≡ consumed (frame_of spot.now)
        (equivalence (theory_formula a.now) (theory_formula b.now)) false (tree_of tree.now)
        spot.now.left (term_of t)) }
{
    match tree {
        Tree::Left(side) => {
            let Tree::Both(first, second) = side.get() else {
                return Ok(t);
            };
            let inside = spot.twice_deeper()?;
            let below = inside.deeper()?;
            let there = consume(alloc, first.get(), a, true, &below, variable(0))?;
            let there = contradicted(alloc, &inside, a, b, there)?;
            let after = below.after(first.get().leaves()?);
            let back = consume(alloc, second.get(), b, true, &after, variable(0))?;
            let back = contradicted(alloc, &inside, b, a, back)?;
            apply(alloc, t, from_ways(alloc, spot, a, b, there, back)?)
        }
        Tree::Right(side) => {
            let Tree::Both(first, second) = side.get() else {
                return Ok(t);
            };
            let denied = equivalence_denied(alloc, spot, a, b, &t)?;
            consume_nested(alloc, first.get(), second.get(), a, b, false, spot, denied)
        }
        _ => Ok(t),
    }
}

/// The consumer of `a`, denied by the consumer of `b` below it from the proof `u`.
#[cycle(consume)]
fn consume_nested(
    alloc: Global,
    first: &Tree,
    second: &Tree,
    a: &Formula,
    b: &Formula,
    positive: bool,
    spot: &Spot<'_>,
    u: Lp,
) -> Result<Lp, NoMemory>
    ensures { let z = frame_of spot.now in let f = theory_formula a.now in
        let l = spot.now.left in let th = tree_of first.now in IfOk result (λ r. term_of r
        ≡ consumed z f false th l (lam (proof_of (said z f)) (consumed (deeper z)
        (theory_formula b.now) positive (tree_of second.now) (l - leaves th) (term_of u)))) }
{
    let after = spot.deeper()?.after(first.leaves()?);
    let inner = consume(alloc, second, b, positive, &after, u)?;
    let denied = assuming(alloc, spot, a, inner)?;
    consume(alloc, first, a, false, spot, denied)
}

#[cycle(consume)]
fn consume_all(
    alloc: Global,
    tree: &Tree,
    a: &Formula,
    positive: bool,
    spot: &Spot<'_>,
    t: Lp,
) -> Result<Lp, NoMemory>
    ensures { IfOk result (λ r. term_of r ≡ consumed (frame_of spot.now)
        (universal (theory_formula a.now)) positive (tree_of tree.now) spot.now.left (term_of t)) }
{
    if positive {
        let Tree::Choice(term, below) = tree else {
            return Ok(t);
        };
        let value = Value::Ground(term);
        let used = apply(alloc, t, spot.value(alloc, value)?)?;
        return consume_under(alloc, value, below.get(), a, true, spot, used);
    }
    match tree {
        Tree::Eigenvariable(number, below) => {
            let used = apply(alloc, spot.witness(alloc, *number)?, t)?;
            let value = Value::Eigenvariable(*number);
            consume_under(alloc, value, below.get(), a, false, spot, used)
        }
        Tree::Vacuous(below) => {
            let denied = everywhere_denied(alloc, spot, a, &t)?;
            consume_under(alloc, Value::Any, below.get(), a, false, spot, denied)
        }
        _ => Ok(t),
    }
}

#[cycle(consume)]
fn consume_ex(
    alloc: Global,
    tree: &Tree,
    a: &Formula,
    positive: bool,
    spot: &Spot<'_>,
    t: Lp,
) -> Result<Lp, NoMemory>
    ensures { IfOk result (λ r. term_of r ≡ consumed (frame_of spot.now)
        (existential (theory_formula a.now)) positive (tree_of tree.now) spot.now.left (term_of t)) }
{
    if !positive {
        let Tree::Choice(term, below) = tree else {
            return Ok(t);
        };
        let value = Value::Ground(term);
        let denied = instance_denied(alloc, spot, a, value, &t)?;
        return consume_under(alloc, value, below.get(), a, false, spot, denied);
    }
    match tree {
        Tree::Eigenvariable(number, below) => {
            let used = apply(alloc, spot.witness(alloc, *number)?, t)?;
            let value = Value::Eigenvariable(*number);
            consume_under(alloc, value, below.get(), a, true, spot, used)
        }
        Tree::Vacuous(below) => {
            let inside = spot.twice_deeper()?;
            let inner = consume_under(
                alloc,
                Value::Any,
                below.get(),
                a,
                true,
                &inside,
                variable(0),
            )?;
            let someone = assuming_someone(alloc, spot, a, inner)?;
            used_for_falsity(alloc, t, someone)
        }
        _ => Ok(t),
    }
}

/// The consumer of a quantifier's body, where the quantifier's variable has this value.
#[cycle(consume)]
fn consume_under(
    alloc: Global,
    value: Value<'_>,
    tree: &Tree,
    body: &Formula,
    positive: bool,
    spot: &Spot<'_>,
    t: Lp,
) -> Result<Lp, NoMemory>
    ensures { let z = with_value (value_of value.entry) (frame_of spot.now) in
        IfOk result (λ r. term_of r ≡ consumed z (theory_formula body.now) positive
        (tree_of tree.now) spot.now.left (term_of t)) }
{
    let values = with_first(alloc, value, spot.values)?;
    let inside = spot.under(values.as_slice());
    consume(alloc, tree, body, positive, &inside, t)
}
