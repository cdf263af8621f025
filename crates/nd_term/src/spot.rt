//! Where a consumer stands.
#![tactic(auto, using(crate::proofs::SpotSteps::spot_steps))]

ghost use Rattle.std.specs.Prelude.{◌≡◌, ◌∷◌, ◌-◌, IfOk};
ghost use Rattle.lp_term.specs.View.{term_of};
ghost use Rattle.nd_term.specs.Places.{shift_times};
ghost use Rattle.nd_term.specs.Frames.{deeper, named, said, said_under, with_value};
ghost use Rattle.nd_term.specs.Spots.{frame_of, value_of};
ghost use Rattle.nd_term.specs.Views.{theory_formula};

use crate::eigenvariables::{further_in, witness};
use crate::place::Place;
use crate::substitution::{substituted, value_term};
use crate::values::Value;
use dk_syntax::{Formula, NoMemory};
use lp_term::{Lp, translate};
use std::alloc::Global;

/// Where a consumer stands: some binders further in than the place.
#[derive(Clone, Copy)]
pub struct Spot<'a> {
    pub place: &'a Place<'a>,
    /// The values of the formula's variables, the first for variable 0.
    pub values: &'a [Value<'a>],
    /// The binders since the place.
    pub extra: u32,
    /// How many of the literals' variables are left: the last ones.
    pub left: u32,
}

impl<'a> Spot<'a> {
    /// One binder further in.
    #[tactic(auto, unfolding(crate::specs::Spots::frame_of))]
    pub fn deeper(&self) -> Result<Spot<'a>, NoMemory>
        ensures frame { IfOk result (λ spot. frame_of spot ≡ deeper (frame_of self.now)) }
        ensures left { IfOk result (λ spot. spot.left ≡ self.now.left) }
    {
        let extra = self.extra.checked_add(1).ok_or(NoMemory)?;
        Ok(Spot { extra, ..*self })
    }

    /// Two binders further in.
    pub fn twice_deeper(&self) -> Result<Spot<'a>, NoMemory>
        ensures frame { IfOk result (λ spot. frame_of spot ≡ deeper (deeper (frame_of self.now))) }
        ensures left { IfOk result (λ spot. spot.left ≡ self.now.left) }
    {
        let below = self.deeper()?;
        below.deeper()
    }

    /// After so many literals.
    #[tactic(auto, unfolding(crate::specs::Spots::frame_of))]
    pub fn after(&self, literals: u32) -> Spot<'a>
        ensures frame { frame_of result ≡ frame_of self.now }
        ensures left { result.left ≡ self.now.left - literals }
    {
        let left = self.left.saturating_sub(literals);
        Spot { left, ..*self }
    }

    /// Under a quantifier. The first of the values is its variable's, and the others are those of the spot.
    #[tactic(auto, unfolding(crate::specs::Spots::frame_of))]
    pub fn under<'b>(&self, values: &'b [Value<'b>]) -> Spot<'b>
    where
        'a: 'b,
        ensures frame { (one : Value) → values.now ≡ one ∷ self.now.values.now
            → frame_of result ≡ with_value (value_of one) (frame_of self.now) }
        ensures left { result.left ≡ self.now.left }
    {
        Spot { values, ..*self }
    }

    /// A formula's translation.
    pub fn proposition(&self, alloc: Global, f: &Formula) -> Result<Lp, NoMemory>
        ensures { IfOk result (λ t. term_of t ≡ said (frame_of self.now) (theory_formula f.now)) }
    {
        let open = translate(alloc, f)?;
        substituted(alloc, &open, self, 0)
    }

    /// The translation of a quantifier's body, below the quantifier's variable.
    pub fn body(&self, alloc: Global, f: &Formula) -> Result<Lp, NoMemory>
        ensures { IfOk result (λ t. term_of t
            ≡ said_under (frame_of self.now) (theory_formula f.now)) }
    {
        let open = translate(alloc, f)?;
        substituted(alloc, &open, self, 1)
    }

    /// A value's translation.
    #[tactic(auto, using(crate::proofs::SpotSteps::spot_steps), unfolding(crate::specs::Spots::frame_of))]
    pub fn value(&self, alloc: Global, value: Value<'_>) -> Result<Lp, NoMemory>
        ensures { IfOk result (λ t. term_of t ≡ named (frame_of self.now) (value_of value.entry)) }
    {
        let there = value_term(alloc, self.place, value)?;
        further_in(alloc, &there, self.extra)
    }

    /// The variable after the k-th eigenvariable.
    #[tactic(auto, using(crate::proofs::SpotSteps::spot_steps), unfolding(crate::specs::Spots::frame_of))]
    pub fn witness(&self, alloc: Global, k: u32) -> Result<Lp, NoMemory>
        ensures { let z = frame_of self.now in IfOk result (λ t. term_of t
            ≡ shift_times z.extra (z.witnesses k)) }
    {
        let there = witness(alloc, self.place, k)?;
        further_in(alloc, &there, self.extra)
    }
}
