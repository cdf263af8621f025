//! Literals that are taken one by one, with the bindings under which they have one atom.
ghost use Rattle.std.specs.Prelude.{◌≡◌, ◌++◌, ◌∷◌, ◌<◌, [], false, length, List, IfOk};
ghost use Rattle.dk_syntax.specs.Terms.{EachBelow};
ghost use Rattle.step_clause.specs.Search.{PivotsBelow};
ghost use Rattle.unifier.specs.Outcomes.{Sound};
ghost use Rattle.step_chain.specs.declared.pair.Slot.{Slot as Place};
ghost use Rattle.step_chain.specs.Pairs.{HasChosen, IsBound, IsTaken, SlotsBelow};

use crate::pair::Slot;
use dk_syntax::{Literal, NoMemory, Seq};
use std::alloc::Global;
use unifier::{Bindings, extend_terms};

/// Which of the first literals are taken, the first one of them, and the bindings under which they have one atom.
#[derive(Drop)]
pub struct Chosen {
    pub taken: Seq<bool>,
    pub first: Option<Literal>,
    pub bindings: Bindings,
}

/// The bindings under which also the literal has the atom of the first one.
fn with_atom(
    alloc: Global,
    bindings: &Bindings,
    first: &Option<Literal>,
    literal: &Literal,
) -> Result<Option<Bindings>, NoMemory>
    requires sound { Sound 0 bindings.now.terms }
    requires below_first { PivotsBelow (length bindings.now.terms) first.now }
    requires below { EachBelow (length bindings.now.terms) literal.now.args }
    ensures { IfOk result (λ answer. IsBound first.now literal.now bindings.now.terms answer) }
{
    let mut more = bindings.copy(alloc)?;
    match first {
        None => Ok(Some(more)),
        Some(e) => {
            if !literal.pred.same(&e.pred) {
                return Ok(None);
            }
            let same = extend_terms(
                alloc,
                &mut more,
                literal.args.as_slice(),
                e.args.as_slice(),
                0,
            )?;
            if !same {
                return Ok(None);
            }
            Ok(Some(more))
        }
    }
}

fn copy_first(alloc: Global, first: &Option<Literal>) -> Result<Option<Literal>, NoMemory>
    ensures { IfOk result (λ copy. copy ≡ first.now) }
{
    match first {
        Some(literal) => {
            let literal = literal.copy(alloc)?;
            Ok(Some(literal))
        }
        None => Ok(None),
    }
}

/// The values with one more at the end.
fn with_one(alloc: Global, taken: &[bool], one: bool) -> Result<Seq<bool>, NoMemory>
    ensures { IfOk result (λ all. all ≡ taken.now ++ one ∷ []) }
{
    let mut all = Vec::new(alloc);
    all.extend_from_slice(taken)?;
    all.push(one)?;
    Ok(Seq::from_vec(all))
}

impl Chosen {
    /// Nothing is said of any literal yet, and none of that many variables is bound.
    pub fn nothing(alloc: Global, vars: u32) -> Result<Chosen, NoMemory>
        ensures taken { IfOk result (λ chosen. chosen.taken ≡ []) }
        ensures chosen { IfOk result (λ chosen. (slots : List Place) → SlotsBelow vars slots
            → HasChosen slots chosen) }
    {
        let bindings = Bindings::unbound(alloc, vars)?;
        Ok(Chosen {
            taken: Seq::from_vec(Vec::new(alloc)),
            first: None,
            bindings,
        })
    }

    /// The next literal is not taken.
    pub fn leave(&self, alloc: Global, slots: &[Slot]) -> Result<Chosen, NoMemory>
        requires { HasChosen slots.now self.now }
        ensures taken { IfOk result (λ next. next.taken ≡ self.now.taken ++ false ∷ []) }
        ensures chosen { IfOk result (λ next. HasChosen slots.now next) }
    {
        let taken = with_one(alloc, self.taken.as_slice(), false)?;
        let first = copy_first(alloc, &self.first)?;
        let bindings = self.bindings.copy(alloc)?;
        Ok(Chosen {
            taken,
            first,
            bindings,
        })
    }

    /// The next literal is taken, where it may be and something gives it the atom of those before.
    pub fn take(&self, alloc: Global, slots: &[Slot]) -> Result<Option<Chosen>, NoMemory>
        requires chosen { HasChosen slots.now self.now }
        requires next { length self.now.taken < length slots.now }
        ensures { IfOk result (λ answer. IsTaken slots.now self.now.taken answer) }
    {
        let slot = &slots[self.taken.len()];
        if !slot.may_be_taken {
            return Ok(None);
        }
        let bound = with_atom(alloc, &self.bindings, &self.first, &slot.literal)?;
        match bound {
            None => Ok(None),
            Some(bindings) => {
                let taken = with_one(alloc, self.taken.as_slice(), true)?;
                let literal = slot.literal.copy(alloc)?;
                let first = copy_first(alloc, &self.first)?.unwrap_or(literal);
                Ok(Some(Chosen {
                    taken,
                    first: Some(first),
                    bindings,
                }))
            }
        }
    }
}
