//! Terms.
ghost use Rattle.std.specs.Prelude.{◌≡◌, IfOk};

use crate::build::{apply, lambda, product};
use crate::ident::Ident;
use dk_syntax::{Boxed, NoMemory};
use std::alloc::Global;

/// A term of the lambda-Pi-calculus modulo.
pub enum Lp {
    /// `TYPE`.
    Sort,
    /// A declared symbol.
    Sym(Ident),
    /// A bound variable: the number of binders between it and its own.
    Var(u32),
    /// A pattern variable of a rule.
    Pat(Ident),
    /// A function and its argument.
    App(Boxed<Lp>, Boxed<Lp>),
    /// An abstraction: the type of its variable and its body.
    Lam(Boxed<Lp>, Boxed<Lp>),
    /// A product: the type of its variable and its body.
    Pi(Boxed<Lp>, Boxed<Lp>),
}

impl Lp {
    pub fn copy(&self, alloc: Global) -> Result<Lp, NoMemory>
        ensures { IfOk result (λ t. t ≡ self.now) }
    {
        match self {
            Lp::Sort => Ok(Lp::Sort),
            Lp::Sym(name) => Ok(Lp::Sym(name.copy(alloc)?)),
            Lp::Var(number) => Ok(Lp::Var(*number)),
            Lp::Pat(name) => Ok(Lp::Pat(name.copy(alloc)?)),
            Lp::App(function, argument) => {
                let function = function.get().copy(alloc)?;
                let argument = argument.get().copy(alloc)?;
                apply(alloc, function, argument)
            }
            Lp::Lam(domain, body) => {
                let domain = domain.get().copy(alloc)?;
                let body = body.get().copy(alloc)?;
                lambda(alloc, domain, body)
            }
            Lp::Pi(domain, body) => {
                let domain = domain.get().copy(alloc)?;
                let body = body.get().copy(alloc)?;
                product(alloc, domain, body)
            }
        }
    }
}

impl Drop for Lp {
    fn drop(self) {
        Lp::drop_both(self, Lp::Sort);
    }
}

impl Lp {
    /// Drops `one` and `rest`. What is still to be dropped hangs in `rest` by its first parts, in
    /// boxes that were emptied, so this takes no memory and no depth of stack.
    fn drop_both(mut one: Self, mut rest: Self) {
        loop {
            match one {
                Lp::Sort | Lp::Sym(_) | Lp::Var(_) | Lp::Pat(_) => match rest {
                    Lp::Sort | Lp::Sym(_) | Lp::Var(_) | Lp::Pat(_) => return,
                    Lp::App(below, next) | Lp::Lam(below, next) | Lp::Pi(below, next) => {
                        one = next.into_inner();
                        rest = below.into_inner();
                    }
                },
                Lp::App(mut first, last) | Lp::Lam(mut first, last) | Lp::Pi(mut first, last) => {
                    one = first.replace(rest);
                    rest = Lp::App(first, last);
                }
            }
        }
    }
}
