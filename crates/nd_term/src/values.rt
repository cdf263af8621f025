//! Values of a formula's variables.
ghost use Rattle.std.specs.Prelude.{◌≡◌, ◌∷◌, IfOk};

use dk_syntax::{NoMemory, Term};
use std::alloc::Global;

/// What a variable stands for.
#[derive(Clone, Copy)]
pub enum Value<'a> {
    /// The eigenvariable of that number.
    Eigenvariable(u32),
    /// A ground term, in which the variable k is the k-th eigenvariable.
    Ground(&'a Term),
    /// `any`.
    Any,
}

/// The values under a quantifier whose variable has this value.
pub fn with_first<'a>(
    alloc: Global,
    first: Value<'a>,
    rest: &[Value<'a>],
) -> Result<Vec<Value<'a>>, NoMemory>
    ensures { IfOk result (λ all. all.items ≡ first.entry ∷ rest.now) }
{
    let mut all = Vec::new(alloc);
    all.push(first)?;
    all.extend_from_slice(rest)?;
    Ok(all)
}
