//! The literals of two clauses, from which some are taken.
#![tactic(auto, using(crate::proofs::Steps::term_steps))]

ghost use Rattle.std.specs.Prelude.{◌≡◌, ◌++◌, map, not, IfOk, OnOk};
ghost use Rattle.dk_syntax.specs.Terms.{substituted};
ghost use Rattle.step_chain.specs.Pairs.{may_be_taken, pair_of, raising, slot_of, slots_of};

use dk_syntax::{Clause, Literal, NoMemory, Seq, Term};
use std::alloc::Global;

/// A literal of one of two clauses, and whether it may be taken.
#[derive(Drop)]
pub struct Slot {
    pub literal: Literal,
    pub may_be_taken: bool,
}

/// Two clauses, by their numbers, the sign of the literals that are taken in the first, and the literals of both. Those
/// of the second have variables of their own, which come after those of the first.
#[derive(Drop)]
pub struct Pair {
    pub number: u32,
    pub other: u32,
    pub sign: bool,
    pub slots: Seq<Slot>,
}

fn has_sign(sign: bool, positive: bool) -> bool
    ensures { result ≡ may_be_taken sign positive }
{
    if sign { positive } else { !positive }
}

#[cycle(raise)]
fn raise(term: &Term, alloc: Global, n: u32) -> Result<Term, NoMemory>
    ensures { IfOk result (λ raised. raised ≡ substituted (raising n) term.now) }
{
    match term {
        Term::Var(k) => {
            let k = n.checked_add(*k).ok_or(NoMemory)?;
            Ok(Term::Var(k))
        }
        Term::App(symbol, args) => {
            let symbol = symbol.copy(alloc)?;
            let args = raise_each(args.as_slice(), alloc, n)?;
            Ok(Term::App(symbol, args))
        }
        Term::Any => Ok(Term::Any),
    }
}

#[cycle(raise)]
fn raise_each(terms: &[Term], alloc: Global, n: u32) -> Result<Seq<Term>, NoMemory>
    ensures { IfOk result (λ all. all ≡ map (substituted (raising n)) terms.now) }
{
    let mut all = Seq::from_vec(Vec::new(alloc));
    for term in terms {
        all.push(raise(term, alloc, n)?)?;
    }
    Ok(all)
}

fn raised_slot(alloc: Global, literal: &Literal, n: u32, sign: bool) -> Result<Slot, NoMemory>
    ensures { IfOk result (λ slot. slot ≡ slot_of n sign literal.now) }
{
    let pred = literal.pred.copy(alloc)?;
    let args = raise_each(literal.args.as_slice(), alloc, n)?;
    let literal = Literal {
        positive: literal.positive,
        pred,
        args,
    };
    let may_be_taken = has_sign(sign, literal.positive);
    Ok(Slot {
        literal,
        may_be_taken,
    })
}

/// Puts the literals at the end, with variables from `n` on. Those of the sign may be taken.
fn add_slots(
    alloc: Global,
    slots: &mut Seq<Slot>,
    literals: &[Literal],
    n: u32,
    sign: bool,
) -> Result<(), NoMemory>
    ensures { OnOk result (slots.new ≡ slots.old ++ slots_of n sign literals.now) }
{
    for literal in literals {
        let slot = raised_slot(alloc, literal, n, sign)?;
        slots.push(slot)?;
    }
    Ok(())
}

impl Pair {
    /// Nothing is taken yet from the first clause and the second.
    pub fn new(
        alloc: Global,
        number: u32,
        first: &Clause,
        other: u32,
        second: &Clause,
        sign: bool,
    ) -> Result<Pair, NoMemory>
        ensures { IfOk result (λ pair. pair ≡ pair_of number first.now other second.now sign) }
    {
        let mut slots = Seq::from_vec(Vec::new(alloc));
        add_slots(alloc, &mut slots, first.lits.as_slice(), 0, sign)?;
        add_slots(alloc, &mut slots, second.lits.as_slice(), first.vars, !sign)?;
        Ok(Pair {
            number,
            other,
            sign,
            slots,
        })
    }
}
