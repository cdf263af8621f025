//! The walk through a signed formula to an existential.
#![tactic(auto, using(crate::proofs::WalkSteps::walk_steps))]

ghost use Rattle.std.specs.Prelude.{◌≡◌, ◌+◌, ◌∷◌, reverse, IfNone, IfOk, true};
ghost use Rattle.normal_form.specs.Occurrence.{in_formula};
ghost use Rattle.skolem_order.specs.SignedForms.{alls, exs, joined, quantified, signed_form};
ghost use Rattle.skolem_order.specs.Spots.{found};
ghost use Rattle.skolem_order.specs.Walks.{found_from, Passes, spot_at};

use crate::occurrence::occurs;
use dk_syntax::{Formula, NoMemory};

/// A quantifier around a place: a universal or an existential of the signed formula with its
/// number, or a vacuous one.
#[derive(Clone, Copy, Drop)]
pub enum Around {
    Universal(u32),
    Existential(u32),
    Vacant,
}

/// The place of a walk: the quantifiers around it, the inmost last, and the numbers of the next
/// universal and of the next existential.
#[derive(Drop)]
pub struct Walk {
    pub around: Vec<Around>,
    pub all: u32,
    pub ex: u32,
}

/// An existential that a walk was to find. The walk stands there.
#[derive(Clone, Copy)]
pub struct Hit<'a> {
    pub positive: bool,
    pub formula: &'a Formula,
}

/// Goes through a formula with the sign, in preorder, to the existential with the number.
#[cycle(find)]
pub fn find<'a>(
    walk: &mut Walk,
    f: &'a Formula,
    sign: bool,
    number: u32,
) -> Result<Option<Hit<'a>>, NoMemory>
    ensures found { IfOk result (λ hit. spot_at hit (reverse walk.new.around.items)
        ≡ found_from walk.old (signed_form f.now sign) number) }
    ensures passed { IfOk result (λ hit. IfNone hit (Passes walk.old walk.new
        (alls (signed_form f.now sign)) (exs (signed_form f.now sign)))) }
{
    match f {
        Formula::True | Formula::False | Formula::Atom(_, _) => Ok(None),
        Formula::Not(a) => find(walk, a.get(), !sign, number),
        Formula::And(a, b) => find_either(walk, a.get(), sign, b.get(), sign, number),
        Formula::Or(a, b) => find_either(walk, a.get(), sign, b.get(), sign, number),
        Formula::Imp(a, b) => find_either(walk, a.get(), !sign, b.get(), sign, number),
        Formula::Iff(a, b) => {
            if let Some(hit) = find_either(walk, a.get(), !sign, b.get(), true, number)? {
                return Ok(Some(hit));
            }
            if sign {
                return find_either(walk, b.get(), false, a.get(), true, number);
            }
            find_either(walk, a.get(), false, b.get(), false, number)
        }
        Formula::All(a) => find_below(walk, f, a.get(), sign, sign, number),
        Formula::Ex(a) => find_below(walk, f, a.get(), !sign, sign, number),
    }
}

/// Goes through one formula and then through another, each with its sign.
#[cycle(find)]
fn find_either<'a>(
    walk: &mut Walk,
    a: &'a Formula,
    a_sign: bool,
    b: &'a Formula,
    b_sign: bool,
    number: u32,
) -> Result<Option<Hit<'a>>, NoMemory>
    ensures found { IfOk result (λ hit. spot_at hit (reverse walk.new.around.items)
        ≡ found_from walk.old
        (joined true (signed_form a.now a_sign) (signed_form b.now b_sign)) number) }
    ensures passed { IfOk result (λ hit. IfNone hit (Passes walk.old walk.new
        (alls (signed_form a.now a_sign) + alls (signed_form b.now b_sign))
        (exs (signed_form a.now a_sign) + exs (signed_form b.now b_sign)))) }
{
    if let Some(hit) = find(walk, a, a_sign, number)? {
        return Ok(Some(hit));
    }
    find(walk, b, b_sign, number)
}

/// Goes through a quantified formula, whose quantifier is a universal of the signed formula or else
/// an existential.
#[cycle(find)]
fn find_below<'a>(
    walk: &mut Walk,
    f: &'a Formula,
    body: &'a Formula,
    each: bool,
    sign: bool,
    number: u32,
) -> Result<Option<Hit<'a>>, NoMemory>
    ensures found { IfOk result (λ hit. spot_at hit (reverse walk.new.around.items)
        ≡ found_from walk.old
        (quantified (in_formula body.now 0) each sign f.now (signed_form body.now sign)) number) }
    ensures passed { IfOk result (λ hit. IfNone hit (Passes walk.old walk.new
        (alls (quantified (in_formula body.now 0) each sign f.now (signed_form body.now sign)))
        (exs (quantified (in_formula body.now 0) each sign f.now (signed_form body.now sign))))) }
{
    if !occurs(body, 0)? {
        return find_under(walk, Around::Vacant, body, sign, number);
    }
    if each {
        let around = Around::Universal(walk.all);
        walk.all = next(walk.all)?;
        return find_under(walk, around, body, sign, number);
    }
    if walk.ex == number {
        return Ok(Some(Hit {
            positive: sign,
            formula: f,
        }));
    }
    let around = Around::Existential(walk.ex);
    walk.ex = next(walk.ex)?;
    find_under(walk, around, body, sign, number)
}

/// Goes through a formula under one quantifier more.
#[cycle(find)]
fn find_under<'a>(
    walk: &mut Walk,
    around: Around,
    body: &'a Formula,
    sign: bool,
    number: u32,
) -> Result<Option<Hit<'a>>, NoMemory>
    ensures found { IfOk result (λ hit. spot_at hit (reverse walk.new.around.items)
        ≡ found (signed_form body.now sign) (around ∷ reverse walk.old.around.items)
        walk.old.all walk.old.ex number) }
    ensures passed { IfOk result (λ hit. IfNone hit (Passes walk.old walk.new
        (alls (signed_form body.now sign)) (exs (signed_form body.now sign)))) }
{
    walk.around.push(around)?;
    match find(walk, body, sign, number)? {
        Some(hit) => Ok(Some(hit)),
        None => {
            walk.around.pop();
            Ok(None)
        }
    }
}

/// No memory holds a formula with more quantifiers than there are numbers.
pub fn next(number: u32) -> Result<u32, NoMemory>
    ensures { IfOk result (λ next. next ≡ number + 1) }
{
    number.checked_add(1).ok_or(NoMemory)
}
