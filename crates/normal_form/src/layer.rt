//! Layers of forms, from which a form is built by a loop.
#![tactic(auto, using(crate::proofs::Steps::layer_steps))]

ghost use Rattle.std.specs.Prelude.{◌≡◌, IfOk};
ghost use Rattle.normal_form.specs.Layers.{within, within_all};

use crate::form::{Nf, boxed};
use dk_syntax::{Boxed, NoMemory};
use std::alloc::Global;

/// A form without its left part, or without its body.
#[derive(Drop)]
pub enum Layer {
    And(Boxed<Nf>),
    Or(Boxed<Nf>),
    All,
    Ex,
}

/// The form within the layers, the inmost of which is the last.
pub fn within_all(alloc: Global, form: Nf, mut layers: Vec<Layer>) -> Result<Boxed<Nf>, NoMemory>
    ensures { IfOk result (λ whole. whole ≡ within_all form layers.items) }
{
    let mut whole = boxed(alloc, form)?;
    while let Some(layer) = layers.pop() {
        whole = within(alloc, whole, layer)?;
    }
    Ok(whole)
}

fn within(alloc: Global, form: Boxed<Nf>, layer: Layer) -> Result<Boxed<Nf>, NoMemory>
    ensures { IfOk result (λ whole. whole ≡ within form layer) }
{
    match layer {
        Layer::And(right) => boxed(alloc, Nf::And(form, right)),
        Layer::Or(right) => boxed(alloc, Nf::Or(form, right)),
        Layer::All => boxed(alloc, Nf::All(form)),
        Layer::Ex => boxed(alloc, Nf::Ex(form)),
    }
}
