//! Bindings under which more terms are equal.
ghost use Rattle.std.specs.Prelude.{◌≡◌, length, map, IfOk};
ghost use Rattle.unifier.specs.Outcomes.{Outcome, Sound};
ghost use Rattle.dk_syntax.specs.Terms.{Below, EachBelow, substituted};

use crate::bindings::Bindings;
use crate::comparison::{Step, next_step};
use dk_syntax::{NoMemory, Term};
use std::alloc::Global;

/// Binds one variable after another, until the terms are equal or cannot be made so.
fn bind_until_equal(
    alloc: Global,
    bindings: &mut Bindings,
    a: &Term,
    b: &Term,
    frozen: u32,
) -> Result<bool, NoMemory>
    requires sound { Sound frozen bindings.old.terms }
    requires below_a { Below (length bindings.old.terms) a.now }
    requires below_b { Below (length bindings.old.terms) b.now }
    ensures { IfOk result (λ equal. Outcome frozen
        (λ r. substituted r a.now ≡ substituted r b.now) bindings.old.terms bindings.new.terms
        equal) }
{
    for _round in 0..u64::MAX {
        let step = next_step(alloc, bindings.terms.as_slice(), a, b, frozen, u64::MAX)?;
        match step {
            Step::Equal => return Ok(true),
            Step::Different => return Ok(false),
            Step::Bind(k, term) => {
                let _unbound = bindings.terms.replace(k as usize, Some(term));
            }
        }
    }
    Err(NoMemory)
}

/// Adds the equation of two terms to the bindings. `false` says that nothing which refines the bindings
/// makes the terms equal; the bindings then hold a part of the work.
#[cycle(extend)]
pub fn extend(
    alloc: Global,
    bindings: &mut Bindings,
    a: &Term,
    b: &Term,
    frozen: u32,
) -> Result<bool, NoMemory>
    requires sound { Sound frozen bindings.old.terms }
    requires below_a { Below (length bindings.old.terms) a.now }
    requires below_b { Below (length bindings.old.terms) b.now }
    ensures { IfOk result (λ equal. Outcome frozen
        (λ r. substituted r a.now ≡ substituted r b.now) bindings.old.terms bindings.new.terms
        equal) }
{
    match (a, b) {
        (Term::App(f, xs), Term::App(g, ys)) => {
            if !f.same(g) {
                return Ok(false);
            }
            let all = extend_terms(alloc, bindings, xs.as_slice(), ys.as_slice(), frozen)?;
            Ok(all)
        }
        _ => {
            let equal = bind_until_equal(alloc, bindings, a, b, frozen)?;
            Ok(equal)
        }
    }
}

/// Adds the equations of the terms of two lists, one by one.
#[cycle(extend)]
pub fn extend_terms(
    alloc: Global,
    bindings: &mut Bindings,
    xs: &[Term],
    ys: &[Term],
    frozen: u32,
) -> Result<bool, NoMemory>
    requires sound { Sound frozen bindings.old.terms }
    requires below_xs { EachBelow (length bindings.old.terms) xs.now }
    requires below_ys { EachBelow (length bindings.old.terms) ys.now }
    ensures { IfOk result (λ equal. Outcome frozen
        (λ r. map (substituted r) xs.now ≡ map (substituted r) ys.now) bindings.old.terms
        bindings.new.terms equal) }
{
    if xs.len() != ys.len() {
        return Ok(false);
    }
    for i in 0..xs.len() {
        let equal = extend(alloc, bindings, &xs[i], &ys[i], frozen)?;
        if !equal {
            return Ok(false);
        }
    }
    Ok(true)
}
