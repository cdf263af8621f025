//! Substitution.
ghost use Rattle.std.specs.Prelude.{◌≡◌, IfOk};
ghost use Rattle.lp_term.specs.Substitution.{lifted, put_for, put_for_variable, substituted};

use crate::build::{apply, lambda, product};
use crate::lp::Lp;
use dk_syntax::NoMemory;
use std::alloc::Global;

/// The term with each variable from `bound` on raised by `up`. A variable past `u32` is want of
/// memory.
pub fn lift(alloc: Global, t: &Lp, up: u32, bound: u32) -> Result<Lp, NoMemory>
    ensures { IfOk result (λ r. r ≡ lifted up t.now bound) }
{
    match t {
        Lp::Sort => Ok(Lp::Sort),
        Lp::Sym(name) => Ok(Lp::Sym(name.copy(alloc)?)),
        Lp::Var(number) => {
            if *number < bound {
                return Ok(Lp::Var(*number));
            }
            let raised = number.checked_add(up).ok_or(NoMemory)?;
            Ok(Lp::Var(raised))
        }
        Lp::Pat(name) => Ok(Lp::Pat(name.copy(alloc)?)),
        Lp::App(function, argument) => {
            let function = lift(alloc, function.get(), up, bound)?;
            let argument = lift(alloc, argument.get(), up, bound)?;
            apply(alloc, function, argument)
        }
        Lp::Lam(domain, body) => {
            let domain = lift(alloc, domain.get(), up, bound)?;
            let inner = bound.checked_add(1).ok_or(NoMemory)?;
            let body = lift(alloc, body.get(), up, inner)?;
            lambda(alloc, domain, body)
        }
        Lp::Pi(domain, body) => {
            let domain = lift(alloc, domain.get(), up, bound)?;
            let inner = bound.checked_add(1).ok_or(NoMemory)?;
            let body = lift(alloc, body.get(), up, inner)?;
            product(alloc, domain, body)
        }
    }
}

/// What becomes of a variable where `by` is put for the variable of the number `place`.
fn put_for_one(alloc: Global, number: u32, by: &Lp, place: u32) -> Result<Lp, NoMemory>
    ensures { IfOk result (λ r. r ≡ put_for_variable by.now number place) }
{
    if number < place {
        return Ok(Lp::Var(number));
    }
    if number == place {
        return lift(alloc, by, place, 0);
    }
    Ok(Lp::Var(number - 1))
}

/// The term with `by`, raised by the binders passed, for the variable of the number `place`.
fn put(alloc: Global, t: &Lp, by: &Lp, place: u32) -> Result<Lp, NoMemory>
    ensures { IfOk result (λ r. r ≡ put_for by.now t.now place) }
{
    match t {
        Lp::Sort => Ok(Lp::Sort),
        Lp::Sym(name) => Ok(Lp::Sym(name.copy(alloc)?)),
        Lp::Var(number) => put_for_one(alloc, *number, by, place),
        Lp::Pat(name) => Ok(Lp::Pat(name.copy(alloc)?)),
        Lp::App(function, argument) => {
            let function = put(alloc, function.get(), by, place)?;
            let argument = put(alloc, argument.get(), by, place)?;
            apply(alloc, function, argument)
        }
        Lp::Lam(domain, body) => {
            let domain = put(alloc, domain.get(), by, place)?;
            let inner = place.checked_add(1).ok_or(NoMemory)?;
            let body = put(alloc, body.get(), by, inner)?;
            lambda(alloc, domain, body)
        }
        Lp::Pi(domain, body) => {
            let domain = put(alloc, domain.get(), by, place)?;
            let inner = place.checked_add(1).ok_or(NoMemory)?;
            let body = put(alloc, body.get(), by, inner)?;
            product(alloc, domain, body)
        }
    }
}

/// The term with `by` for its variable 0, and its other variables lowered.
pub fn subst(alloc: Global, t: &Lp, by: &Lp) -> Result<Lp, NoMemory>
    ensures { IfOk result (λ r. r ≡ substituted t.now by.now) }
{
    put(alloc, t, by, 0)
}
