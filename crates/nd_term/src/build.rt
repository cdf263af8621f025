//! Terms from their parts, in the theory's words.
#![tactic(auto, using(crate::proofs::BuildSteps::build_steps))]

ghost use Rattle.std.specs.Prelude.{◌≡◌, IfOk};
ghost use Rattle.lp_term.specs.Connectives.{arrow, bot, ex, imp, individuals, neg, proof_of, propositions};
ghost use Rattle.lp_term.specs.LambdaPi.{app, con, lam, pi, shift, var};
ghost use Rattle.lp_term.specs.View.{term_of};

use dk_syntax::NoMemory;
use lp_term::{Lp, lift};
use std::alloc::Global;

/// The symbol of that name.
pub fn symbol(alloc: Global, name: &[u8]) -> Result<Lp, NoMemory>
    ensures { IfOk result (λ t. term_of t ≡ con name.now) }
{
    lp_term::symbol(alloc, name)
}

/// The variable of that number.
pub fn variable(number: u32) -> Lp
    ensures { term_of result ≡ var number }
{
    Lp::Var(number)
}

/// A function at its argument.
pub fn apply(alloc: Global, function: Lp, argument: Lp) -> Result<Lp, NoMemory>
    ensures { IfOk result (λ t. term_of t ≡ app (term_of function) (term_of argument)) }
{
    lp_term::apply(alloc, function, argument)
}

/// A function at two arguments.
pub fn apply_both(alloc: Global, function: Lp, first: Lp, second: Lp) -> Result<Lp, NoMemory>
    ensures { IfOk result (λ t. term_of t
        ≡ app (app (term_of function) (term_of first)) (term_of second)) }
{
    apply(alloc, apply(alloc, function, first)?, second)
}

/// `λ (v : A), t`.
pub fn lambda(alloc: Global, domain: Lp, body: Lp) -> Result<Lp, NoMemory>
    ensures { IfOk result (λ t. term_of t ≡ lam (term_of domain) (term_of body)) }
{
    lp_term::lambda(alloc, domain, body)
}

/// `Π (v : A), B`.
pub fn product(alloc: Global, domain: Lp, body: Lp) -> Result<Lp, NoMemory>
    ensures { IfOk result (λ t. term_of t ≡ pi (term_of domain) (term_of body)) }
{
    lp_term::product(alloc, domain, body)
}

/// `A → B`.
pub fn arrow(alloc: Global, domain: Lp, body: &Lp) -> Result<Lp, NoMemory>
    ensures { IfOk result (λ t. term_of t ≡ arrow (term_of domain) (term_of body.now)) }
{
    lp_term::arrow(alloc, domain, body)
}

/// `Prf p`.
pub fn proof_type(alloc: Global, p: Lp) -> Result<Lp, NoMemory>
    ensures { IfOk result (λ t. term_of t ≡ proof_of (term_of p)) }
{
    lp_term::proof_type(alloc, p)
}

/// `not p`.
pub fn negation(alloc: Global, p: Lp) -> Result<Lp, NoMemory>
    ensures { IfOk result (λ t. term_of t ≡ neg (term_of p)) }
{
    lp_term::negation(alloc, p)
}

/// `imp p q`.
pub fn implication(alloc: Global, p: Lp, q: Lp) -> Result<Lp, NoMemory>
    ensures { IfOk result (λ t. term_of t ≡ imp (term_of p) (term_of q)) }
{
    apply_both(alloc, symbol(alloc, b"imp")?, p, q)
}

/// `ex f`.
pub fn existential(alloc: Global, family: Lp) -> Result<Lp, NoMemory>
    ensures { IfOk result (λ t. term_of t ≡ ex (term_of family)) }
{
    apply(alloc, symbol(alloc, b"ex")?, family)
}

/// `bot`.
pub fn falsity(alloc: Global) -> Result<Lp, NoMemory>
    ensures { IfOk result (λ t. term_of t ≡ bot) }
{
    symbol(alloc, b"bot")
}

/// `I`.
pub fn individuals(alloc: Global) -> Result<Lp, NoMemory>
    ensures { IfOk result (λ t. term_of t ≡ individuals) }
{
    symbol(alloc, b"I")
}

/// `Prop`.
pub fn propositions(alloc: Global) -> Result<Lp, NoMemory>
    ensures { IfOk result (λ t. term_of t ≡ propositions) }
{
    symbol(alloc, b"Prop")
}

/// `λ (v : Prf p), t`.
pub fn assume(alloc: Global, p: Lp, body: Lp) -> Result<Lp, NoMemory>
    ensures { IfOk result (λ t. term_of t ≡ lam (proof_of (term_of p)) (term_of body)) }
{
    lambda(alloc, proof_type(alloc, p)?, body)
}

/// The term one binder further in.
pub fn deeper(alloc: Global, t: &Lp) -> Result<Lp, NoMemory>
    ensures { IfOk result (λ r. term_of r ≡ shift (term_of t.now)) }
{
    lift(alloc, t, 1, 0)
}
