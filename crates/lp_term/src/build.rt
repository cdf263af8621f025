//! Terms from their parts.
ghost use Rattle.std.specs.Prelude.{◌≡◌, IfOk};
ghost use Rattle.lp_term.specs.Terms.{apply_two, arrow_of, negation_of, proof_of};

use crate::ident::Ident;
use crate::lp::Lp;
use crate::replace::lift;
use dk_syntax::{Boxed, NoMemory};
use std::alloc::Global;

/// The symbol of that name.
pub fn symbol(alloc: Global, name: &[u8]) -> Result<Lp, NoMemory>
    ensures { IfOk result (λ t. t ≡ Lp.Sym name.now) }
{
    let bytes = Vec::from_slice(alloc, name)?;
    Ok(Lp::Sym(Ident::new(bytes)))
}

/// The pattern variable of that name.
pub fn pattern(alloc: Global, name: &[u8]) -> Result<Lp, NoMemory>
    ensures { IfOk result (λ t. t ≡ Lp.Pat name.now) }
{
    let bytes = Vec::from_slice(alloc, name)?;
    Ok(Lp::Pat(Ident::new(bytes)))
}

/// A function at its argument.
pub fn apply(alloc: Global, function: Lp, argument: Lp) -> Result<Lp, NoMemory>
    ensures { IfOk result (λ t. t ≡ Lp.App function argument) }
{
    Ok(Lp::App(Boxed::new(alloc, function)?, Boxed::new(alloc, argument)?))
}

/// A function at two arguments.
pub fn apply_both(alloc: Global, function: Lp, first: Lp, second: Lp) -> Result<Lp, NoMemory>
    ensures { IfOk result (λ t. t ≡ apply_two function first second) }
{
    let once = apply(alloc, function, first)?;
    apply(alloc, once, second)
}

/// The abstraction of a body over a variable of the type `domain`.
pub fn lambda(alloc: Global, domain: Lp, body: Lp) -> Result<Lp, NoMemory>
    ensures { IfOk result (λ t. t ≡ Lp.Lam domain body) }
{
    Ok(Lp::Lam(Boxed::new(alloc, domain)?, Boxed::new(alloc, body)?))
}

/// The product over a variable of the type `domain`.
pub fn product(alloc: Global, domain: Lp, body: Lp) -> Result<Lp, NoMemory>
    ensures { IfOk result (λ t. t ≡ Lp.Pi domain body) }
{
    Ok(Lp::Pi(Boxed::new(alloc, domain)?, Boxed::new(alloc, body)?))
}

/// `domain → body`, the product whose variable doesn't occur.
pub fn arrow(alloc: Global, domain: Lp, body: &Lp) -> Result<Lp, NoMemory>
    ensures { IfOk result (λ t. t ≡ arrow_of domain body.now) }
{
    let body = lift(alloc, body, 1, 0)?;
    product(alloc, domain, body)
}

/// `Prf p`, the type of the proofs of `p`.
pub fn proof_type(alloc: Global, p: Lp) -> Result<Lp, NoMemory>
    ensures { IfOk result (λ t. t ≡ proof_of p) }
{
    let head = symbol(alloc, b"Prf")?;
    apply(alloc, head, p)
}

/// `not p`.
pub fn negation(alloc: Global, p: Lp) -> Result<Lp, NoMemory>
    ensures { IfOk result (λ t. t ≡ negation_of p) }
{
    let head = symbol(alloc, b"not")?;
    apply(alloc, head, p)
}
