//! Most general solutions.
ghost use Rattle.std.specs.Prelude.{◌≡◌, ℕ, length, IfOk, IfSome, IfNone};
ghost use Rattle.dk_syntax.specs.declared.Term.{Term as Tree};
ghost use Rattle.unifier.specs.Solutions.{EquationsBelow, Solves};
ghost use Rattle.unifier.specs.Substitution.{Refines, Settled, value};

use crate::bindings::Bindings;
use crate::equations::{Equations, Subst};
use crate::extension::extend;
use crate::settling::settled;
use dk_syntax::NoMemory;
use std::alloc::Global;

/// A solution of which every solution is a further instance, where there is a solution. The variables
/// below `frozen` stand for themselves.
pub fn solve(
    alloc: Global,
    equations: &Equations,
    vars: u32,
    frozen: u32,
) -> Result<Option<Subst>, NoMemory>
    requires { EquationsBelow vars equations.now.pairs }
    ensures length { IfOk result (λ answer. IfSome answer (λ s. length s.terms ≡ vars)) }
    ensures settled { IfOk result (λ answer. IfSome answer (λ s. Settled frozen s.terms)) }
    ensures solution { IfOk result (λ answer. IfSome answer
        (λ s. Solves frozen equations.now.pairs (value s.terms))) }
    ensures general { IfOk result (λ answer. IfSome answer
        (λ s. (r : ℕ → Tree) → Solves frozen equations.now.pairs r → Refines s.terms r)) }
    ensures none { IfOk result (λ answer. IfNone answer ((r : ℕ → Tree)
        → ¬ Solves frozen equations.now.pairs r)) }
{
    let mut bindings = Bindings::unbound(alloc, vars)?;
    for equation in equations.pairs.as_slice() {
        let equal = extend(alloc, &mut bindings, &equation.0, &equation.1, frozen)?;
        if !equal {
            return Ok(None);
        }
    }
    let s = settled(alloc, &bindings)?;
    Ok(Some(s))
}
