use dk_syntax::NoMemory;
use lp_kernel::{CheckFault, Typed, check};
use lp_term::{Command, Dev, Ident, Lp, apply, arrow, lambda, prelude, proof_type, symbol};
use std::alloc::Global;
use std::test::Fail;

/// `Prf NAME`.
fn proof(alloc: Global, name: &[u8]) -> Result<Lp, NoMemory> {
    let proposition = symbol(alloc, name)?;
    proof_type(alloc, proposition)
}

/// `Prf p0_p → Prf p0_p`.
fn implication(alloc: Global) -> Result<Lp, NoMemory> {
    let hypothesis = proof(alloc, b"p0_p")?;
    let conclusion = proof(alloc, b"p0_p")?;
    arrow(alloc, hypothesis, &conclusion)
}

/// `λ (v0 : DOMAIN), v0`.
fn identity(alloc: Global, domain: Lp) -> Result<Lp, NoMemory> {
    lambda(alloc, domain, Lp::Var(0))
}

/// `constant symbol NAME : Prop`.
fn proposition(alloc: Global, name: &[u8]) -> Result<Command, NoMemory> {
    let name = Ident::new(Vec::from_slice(alloc, name)?);
    let sort = symbol(alloc, b"Prop")?;
    Ok(Command::Constant(name, sort))
}

/// `symbol goal : Prf p0_p → Prf p0_p ≔ BODY`.
fn goal(alloc: Global, body: Lp) -> Result<Command, NoMemory> {
    let name = Ident::new(Vec::from_slice(alloc, b"goal")?);
    let wanted = implication(alloc)?;
    Ok(Command::Define(name, wanted, body))
}

/// The prelude, the propositions `p0_p` and `p0_q`, and the goal with that body.
fn development(alloc: Global, body: Lp) -> Result<Dev, NoMemory> {
    let mut commands = prelude(alloc)?;
    let first = proposition(alloc, b"p0_p")?;
    let second = proposition(alloc, b"p0_q")?;
    let last = goal(alloc, body)?;
    commands.push(first)?;
    commands.push(second)?;
    commands.push(last)?;
    Ok(Dev { commands })
}

#[test]
fn an_implication_is_proved(rt: HostRuntime) -> Result<(), Fail> {
    let alloc = rt.alloc();
    let hypothesis = proof(alloc, b"p0_p")?;
    let body = identity(alloc, hypothesis)?;
    let whole = development(alloc, body)?;
    match check(alloc, &whole) {
        Ok(Typed) => Ok(()),
        Err(_) => Err(Fail::new("the body has the goal's type")),
    }
}

// `(λ (v0 : Prf p0_p → Prf p0_p), v0) (λ (v0 : Prf p0_q), v0)`: the argument comes after the application, the function
// and the eight nodes of that one's parts
#[test]
fn a_wrong_argument_is_named(rt: HostRuntime) -> Result<(), Fail> {
    let alloc = rt.alloc();
    let function = identity(alloc, implication(alloc)?)?;
    let argument = identity(alloc, proof(alloc, b"p0_q")?)?;
    let whole = development(alloc, apply(alloc, function, argument)?)?;
    match check(alloc, &whole) {
        Err(CheckFault::IllTyped { node: 10, .. }) => Ok(()),
        _ => Err(Fail::new("the argument has another type")),
    }
}

#[test]
fn a_goal_is_wanted(rt: HostRuntime) -> Result<(), Fail> {
    let alloc = rt.alloc();
    let commands = prelude(alloc)?;
    match check(alloc, &Dev { commands }) {
        Err(CheckFault::BadGoal { command: 24 }) => Ok(()),
        _ => Err(Fail::new("no goal is defined")),
    }
}
