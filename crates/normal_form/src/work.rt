//! Forms while they are sorted.
#![tactic(auto, using(crate::proofs::Steps::unnumbering_steps))]

ghost use Rattle.std.specs.Prelude.{◌≡◌, ◌++◌, if◌then◌else◌, reverse, IfOk, OnOk};
ghost use Rattle.normal_form.specs.Forms.{nf_of};
ghost use Rattle.normal_form.specs.Sorting.{bare, existentials, universals};
ghost use Rattle.normal_form.specs.Works.{numbered_of};

use crate::form::Nf;
use crate::layer::{Layer, within_all};
use dk_syntax::{Boxed, Literal, NoMemory, Seq};
use std::alloc::Global;

/// A form with a number at each quantifier.
pub enum Work {
    True,
    False,
    Lit(Literal),
    And(Boxed<Work>, Boxed<Work>),
    Or(Boxed<Work>, Boxed<Work>),
    All(u32, Boxed<Work>),
    Ex(u32, Boxed<Work>),
}

/// Numbers of universals, and of existentials.
#[derive(Drop)]
pub struct Numbers {
    pub alls: Seq<u32>,
    pub exs: Seq<u32>,
}

pub fn boxed_work(alloc: Global, work: Work) -> Result<Boxed<Work>, NoMemory>
    ensures { IfOk result (λ boxed. boxed ≡ work) }
{
    Ok(Boxed::new(alloc, work)?)
}

/// The conjunction of two forms, or their disjunction.
pub fn joined(
    alloc: Global,
    a: Boxed<Work>,
    b: Boxed<Work>,
    both: bool,
) -> Result<Boxed<Work>, NoMemory>
    ensures { IfOk result (λ work. work ≡ (if both then Work.And a b else Work.Or a b)) }
{
    if both {
        return boxed_work(alloc, Work::And(a, b));
    }
    boxed_work(alloc, Work::Or(a, b))
}

// A loop along left parts: a sorted chain is nested to the left, deeper than the stack may be.
impl Drop for Work {
    fn drop(mut self) {
        loop {
            match self {
                Work::True | Work::False | Work::Lit(_) => return,
                Work::And(left, right) | Work::Or(left, right) => {
                    let _right = right.into_inner();
                    self = left.into_inner();
                }
                Work::All(_number, body) | Work::Ex(_number, body) => self = body.into_inner(),
            }
        }
    }
}

impl Work {
    /// The form alone, by a loop along the left parts, the right ones first. So its quantifiers' numbers come
    /// to the end of the lists from the last to the first.
    pub fn without_numbers(
        mut self,
        alloc: Global,
        numbers: &mut Numbers,
    ) -> Result<Boxed<Nf>, NoMemory>
        ensures form { IfOk result (λ form. form ≡ nf_of (bare (numbered_of self))) }
        ensures alls { OnOk result (numbers.new.alls ≡ numbers.old.alls
            ++ reverse (universals (numbered_of self))) }
        ensures exs { OnOk result (numbers.new.exs ≡ numbers.old.exs
            ++ reverse (existentials (numbered_of self))) }
    {
        let mut layers = Vec::new(alloc);
        loop {
            match self {
                Work::True => return within_all(alloc, Nf::True, layers),
                Work::False => return within_all(alloc, Nf::False, layers),
                Work::Lit(literal) => return within_all(alloc, Nf::Lit(literal), layers),
                Work::And(left, right) => {
                    let right = right.into_inner().without_numbers(alloc, numbers)?;
                    layers.push(Layer::And(right))?;
                    self = left.into_inner();
                }
                Work::Or(left, right) => {
                    let right = right.into_inner().without_numbers(alloc, numbers)?;
                    layers.push(Layer::Or(right))?;
                    self = left.into_inner();
                }
                Work::All(number, body) => {
                    let body = body.into_inner().without_numbers(alloc, numbers)?;
                    numbers.alls.push(number)?;
                    return within_all(alloc, Nf::All(body), layers);
                }
                Work::Ex(number, body) => {
                    let body = body.into_inner().without_numbers(alloc, numbers)?;
                    numbers.exs.push(number)?;
                    return within_all(alloc, Nf::Ex(body), layers);
                }
            }
        }
    }
}
