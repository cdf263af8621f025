//! The literals for which picks are chosen, with variables of their own.
#![tactic(auto, using(crate::proofs::Steps::term_steps))]

ghost use Rattle.std.specs.Prelude.{◌≡◌, ◌+◌, ◌++◌, map, IfOk, OnOk};
ghost use Rattle.dk_syntax.specs.Terms.{substituted};
ghost use Rattle.step_clause.specs.Search.{after_pivot};
ghost use Rattle.step_clause.specs.Slots.{may_cut, raising, slot_of};

use dk_syntax::{Literal, NoMemory, Seq, Term};
use std::alloc::Global;

/// A literal of a parent's clause, and whether it may be a pivot.
#[derive(Drop)]
pub struct Slot {
    pub literal: Literal,
    pub may_cut: bool,
}

/// What is known of the pivots chosen so far: the first one, and the signs of which one is wanted.
#[derive(Drop)]
pub struct Pivots {
    pub first: Option<Literal>,
    pub wants_positive: bool,
    pub wants_negative: bool,
}

impl Pivots {
    /// The same after one more pivot.
    pub fn after(&self, alloc: Global, literal: &Literal) -> Result<Pivots, NoMemory>
        ensures { IfOk result (λ pivots. pivots ≡ after_pivot self.now literal.now) }
    {
        let first = match &self.first {
            Some(first) => first.copy(alloc)?,
            None => literal.copy(alloc)?,
        };
        if literal.positive {
            return Ok(Pivots {
                first: Some(first),
                wants_positive: false,
                wants_negative: self.wants_negative,
            });
        }
        Ok(Pivots {
            first: Some(first),
            wants_positive: self.wants_positive,
            wants_negative: false,
        })
    }
}

/// What a clause is for: to subsume, or to have positive or negative pivots.
#[derive(Clone, Copy)]
pub enum Side {
    Kept,
    Positive,
    Negative,
}

fn may_be_pivot(side: Side, positive: bool) -> bool
    ensures { result ≡ may_cut side positive }
{
    match side {
        Side::Kept => false,
        Side::Positive => positive,
        Side::Negative => !positive,
    }
}

#[cycle(raise)]
fn raise(term: &Term, alloc: Global, n: u32) -> Result<Term, NoMemory>
    ensures { IfOk result (λ raised. raised ≡ substituted (raising n) term.now) }
{
    match term {
        Term::Var(k) => {
            let k = n.checked_add(*k).ok_or(NoMemory)?;
            Ok(Term::Var(k))
        }
        Term::App(symbol, args) => {
            let symbol = symbol.copy(alloc)?;
            let args = raise_each(args.as_slice(), alloc, n)?;
            Ok(Term::App(symbol, args))
        }
        Term::Any => Ok(Term::Any),
    }
}

#[cycle(raise)]
fn raise_each(terms: &[Term], alloc: Global, n: u32) -> Result<Seq<Term>, NoMemory>
    ensures { IfOk result (λ all. all ≡ map (substituted (raising n)) terms.now) }
{
    let mut all = Seq::from_vec(Vec::new(alloc));
    for term in terms {
        all.push(raise(term, alloc, n)?)?;
    }
    Ok(all)
}

fn raised_slot(alloc: Global, literal: &Literal, n: u32, side: Side) -> Result<Slot, NoMemory>
    ensures { IfOk result (λ slot. slot ≡ slot_of n side literal.now) }
{
    let pred = literal.pred.copy(alloc)?;
    let args = raise_each(literal.args.as_slice(), alloc, n)?;
    let literal = Literal {
        positive: literal.positive,
        pred,
        args,
    };
    let may_cut = may_be_pivot(side, literal.positive);
    Ok(Slot { literal, may_cut })
}

/// Puts the literals of a clause at the end, with variables from `n` on.
pub fn add_slots(
    alloc: Global,
    slots: &mut Seq<Slot>,
    literals: &[Literal],
    n: u32,
    side: Side,
) -> Result<(), NoMemory>
    ensures { OnOk result (slots.new ≡ slots.old ++ map (slot_of n side) literals.now) }
{
    for literal in literals {
        let slot = raised_slot(alloc, literal, n, side)?;
        slots.push(slot)?;
    }
    Ok(())
}
