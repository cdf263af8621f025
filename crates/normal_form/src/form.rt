//! Normal forms.
#![tactic(auto, using(crate::proofs::Steps::layer_steps))]

ghost use Rattle.std.specs.Prelude.{◌≡◌, ◌↔◌, IfOk, IsTrue};
ghost use Rattle.normal_form.specs.Existentials.{existential_in};

use crate::layer::{Layer, within_all};
use dk_syntax::{Boxed, Literal, NoMemory, same_literal};
use std::alloc::Global;

/// A formula whose negations stand at its atoms. The forms of this crate's calls have no quantifier
/// whose variable doesn't occur, but a value of the type may.
pub enum Nf {
    True,
    False,
    Lit(Literal),
    And(Boxed<Nf>, Boxed<Nf>),
    Or(Boxed<Nf>, Boxed<Nf>),
    All(Boxed<Nf>),
    Ex(Boxed<Nf>),
}

impl Nf {
    pub fn copy(&self, alloc: Global) -> Result<Nf, NoMemory>
        ensures { IfOk result (λ form. form ≡ self.now) }
    {
        let form = copied(alloc, self)?;
        Ok(form.into_inner())
    }
}

/// A copy, made by a loop along the left parts: a sorted chain is nested to the left.
fn copied(alloc: Global, nf: &Nf) -> Result<Boxed<Nf>, NoMemory>
    ensures { IfOk result (λ form. form ≡ nf.now) }
{
    let mut layers = Vec::new(alloc);
    let mut rest = nf;
    loop {
        match rest {
            Nf::True => return within_all(alloc, Nf::True, layers),
            Nf::False => return within_all(alloc, Nf::False, layers),
            Nf::Lit(literal) => {
                let literal = literal.copy(alloc)?;
                return within_all(alloc, Nf::Lit(literal), layers);
            }
            Nf::And(left, right) => {
                layers.push(Layer::And(copied(alloc, right.get())?))?;
                rest = left.get();
            }
            Nf::Or(left, right) => {
                layers.push(Layer::Or(copied(alloc, right.get())?))?;
                rest = left.get();
            }
            Nf::All(body) => {
                layers.push(Layer::All)?;
                rest = body.get();
            }
            Nf::Ex(body) => {
                layers.push(Layer::Ex)?;
                rest = body.get();
            }
        }
    }
}

// A loop along left parts: a sorted chain is nested to the left, deeper than the stack may be.
impl Drop for Nf {
    fn drop(mut self) {
        loop {
            match self {
                Nf::True | Nf::False | Nf::Lit(_) => return,
                Nf::And(left, right) | Nf::Or(left, right) => {
                    let _right = right.into_inner();
                    self = left.into_inner();
                }
                Nf::All(body) | Nf::Ex(body) => self = body.into_inner(),
            }
        }
    }
}

/// The form in a box, in which it is handed on: so the recursions that build it take little room on the stack.
pub fn boxed(alloc: Global, form: Nf) -> Result<Boxed<Nf>, NoMemory>
    ensures { IfOk result (λ boxed. boxed ≡ form) }
{
    Ok(Boxed::new(alloc, form)?)
}

/// Whether two forms are one, by a loop along their left parts. It takes no memory.
pub fn nf_eq(a: &Nf, b: &Nf) -> bool
    ensures { IsTrue result ↔ (a.now ≡ b.now) }
{
    let mut left = a;
    let mut right = b;
    loop {
        match (left, right) {
            (Nf::And(a, c), Nf::And(b, d)) | (Nf::Or(a, c), Nf::Or(b, d)) => {
                if !nf_eq(c.get(), d.get()) {
                    return false;
                }
                left = a.get();
                right = b.get();
            }
            (Nf::All(a), Nf::All(b)) | (Nf::Ex(a), Nf::Ex(b)) => {
                left = a.get();
                right = b.get();
            }
            (Nf::True, Nf::True) | (Nf::False, Nf::False) => return true,
            (Nf::Lit(a), Nf::Lit(b)) => return same_literal(a, b),
            _ => return false,
        }
    }
}

/// Whether an existential stands in a form, by a loop along its left parts. It takes no memory.
pub fn has_exists(nf: &Nf) -> bool
    ensures { result ≡ existential_in nf.now }
{
    let mut rest = nf;
    loop {
        match rest {
            Nf::True | Nf::False | Nf::Lit(_) => return false,
            Nf::And(a, b) | Nf::Or(a, b) => {
                if has_exists(b.get()) {
                    return true;
                }
                rest = a.get();
            }
            Nf::All(a) => rest = a.get(),
            Nf::Ex(_) => return true,
        }
    }
}
