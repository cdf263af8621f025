//! Terms that were read.
#![tactic(auto, using(crate::proofs::ReadSteps::read_steps))]

ghost use Rattle.std.specs.Prelude.{◌≡◌, ◌<◌, IsTrue, ◌↔◌, max, IfOk};
ghost use Rattle.dk_syntax.specs.Depth.{capped};
ghost use Rattle.lp_read.specs.SideDepth.{side_depth, sides_of};

use dk_syntax::NoMemory;
use lp_term::{Ident, Lp, apply, lambda, product};
use std::alloc::Global;
use std::marker::Model;

/// A term that was read, which contracts see as the term. It knows how deep it is nested to the side.
#[derive(Drop)]
pub(crate) struct Read {
    term: Lp,
    // The side depth, and what the term counts as the function of an application.
    side: u64,
    head: u64,
}

impl Model for Read {
    ghost use Rattle.std.specs.Prelude.{◌≡◌};
    ghost use Rattle.lp_term.specs.contracts.Lp as of_lp;
    ghost use Rattle.lp_term.specs.declared.Lp.{Lp};

    ghost Value = { Lp };

    ghost coded = { of_lp.the_row.coded };

    ghost use Rattle.dk_syntax.specs.Depth.{capped};
    ghost use Rattle.lp_read.specs.SideDepth.{sides_of};

    ghost view = { λ read. read.term };

    ghost invariant = { λ read. (read.side ≡ capped (sides_of read.term).side)
        × (read.head ≡ capped (sides_of read.term).head) };
}

fn greater(a: u64, b: u64) -> u64
    ensures { result ≡ max a b }
{
    if a < b { b } else { a }
}

fn is_abstraction(term: &Lp) -> bool
    ensures { result ≡ (sides_of term.now).is_abstraction }
{
    match term {
        Lp::Lam(_, _) => true,
        Lp::Sort | Lp::Sym(_) | Lp::Var(_) | Lp::Pat(_) | Lp::App(_, _) | Lp::Pi(_, _) => false,
    }
}

impl Read {
    pub(crate) fn sort() -> Read
        ensures { result ≡ Lp.Sort }
    {
        Read {
            term: Lp::Sort,
            side: 1,
            head: 2,
        }
    }

    pub(crate) fn symbol(name: Ident) -> Read
        ensures { result ≡ Lp.Sym name }
    {
        Read {
            term: Lp::Sym(name),
            side: 1,
            head: 2,
        }
    }

    pub(crate) fn pattern(name: Ident) -> Read
        ensures { result ≡ Lp.Pat name }
    {
        Read {
            term: Lp::Pat(name),
            side: 1,
            head: 2,
        }
    }

    pub(crate) fn variable(number: u32) -> Read
        ensures { result ≡ Lp.Var number }
    {
        Read {
            term: Lp::Var(number),
            side: 1,
            head: 2,
        }
    }

    /// The term, where it is.
    pub(crate) fn as_term(&self) -> &Lp
        ensures { result.now ≡ self.now }
    {
        &self.term
    }

    /// The term.
    pub(crate) fn term(self) -> Lp
        ensures { result ≡ self }
    {
        self.term
    }

    /// Whether the side depth is above 10,000.
    pub(crate) fn is_deep(&self) -> bool
        ensures { IsTrue result ↔ (10000 < side_depth self.now) }
    {
        self.side > 10_000
    }

    pub(crate) fn apply(alloc: Global, function: Read, argument: Read) -> Result<Read, NoMemory>
        ensures { IfOk result (λ read. read ≡ Lp.App function argument) }
    {
        let deeper = argument.side.saturating_add(1);
        if is_abstraction(&function.term) {
            let side = greater(function.side, deeper);
            let term = apply(alloc, function.term, argument.term)?;
            let head = side.saturating_add(1);
            return Ok(Read { term, side, head });
        }
        let side = greater(function.head, argument.side);
        let head = greater(function.head, deeper);
        let term = apply(alloc, function.term, argument.term)?;
        Ok(Read { term, side, head })
    }

    pub(crate) fn lambda(alloc: Global, domain: Read, body: Read) -> Result<Read, NoMemory>
        ensures { IfOk result (λ read. read ≡ Lp.Lam domain body) }
    {
        let side = greater(domain.side.saturating_add(1), body.side);
        let head = side.saturating_add(1);
        let term = lambda(alloc, domain.term, body.term)?;
        Ok(Read { term, side, head })
    }

    pub(crate) fn product(alloc: Global, domain: Read, body: Read) -> Result<Read, NoMemory>
        ensures { IfOk result (λ read. read ≡ Lp.Pi domain body) }
    {
        let side = greater(domain.side.saturating_add(1), body.side);
        let head = side.saturating_add(1);
        let term = product(alloc, domain.term, body.term)?;
        Ok(Read { term, side, head })
    }
}
