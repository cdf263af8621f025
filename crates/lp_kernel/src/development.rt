//! The check of a development.
ghost use Rattle.std.specs.Prelude.{◌≡◌, ◌++◌, ◌∷◌, [], true, IfOk, OnOk, Some};
ghost use Rattle.lp_term.specs.Connectives.{individuals};
ghost use Rattle.lp_term.specs.Signature.{declarations, prelude_declarations};
ghost use Rattle.lp_term.specs.View.{term_of};
ghost use Rattle.lp_kernel.specs.Acceptance.{HasTypedGoal};
ghost use Rattle.lp_kernel.specs.Checking.{same_term};
ghost use Rattle.lp_kernel.specs.Signatures.{are_distinct, sig_of};
ghost use Rattle.lp_kernel.specs.Developments as spec;
ghost use Rattle.lp_kernel.specs.Answering.{IsFaultOf, IsVerdict};
ghost use Rattle.lp_kernel.specs.Walking.{failure_of, failures_of, fault_of};

use crate::fault::{CheckFault, Typed};
use crate::finding::{Opening, Refusal, Rejection};
use crate::lookup::next_number;
use crate::signature::Signature;
use crate::walk::{bound_value, check_type};
use dk_syntax::{NoMemory, Seq};
use lp_exact::same_tree;
use lp_term::{Command, Dev, Ident, Lp, prelude};
use std::alloc::Global;

/// Whether two terms are one.
fn same_lp(a: &Lp, b: &Lp) -> bool
    ensures { result ≡ same_term (term_of a.now) (term_of b.now) }
{
    same_tree(a, b)
}

/// Whether two commands are one.
fn same_command(one: &Command, other: &Command) -> bool
    ensures { result ≡ spec.same_command one.now other.now }
{
    match (one, other) {
        (Command::Constant(x, a), Command::Constant(y, b)) => {
            x.as_bytes() == y.as_bytes() && same_lp(a, b)
        }
        (Command::Symbol(x, a), Command::Symbol(y, b)) => {
            x.as_bytes() == y.as_bytes() && same_lp(a, b)
        }
        (Command::Define(x, a, t), Command::Define(y, b, u)) => {
            x.as_bytes() == y.as_bytes() && same_lp(a, b) && same_lp(t, u)
        }
        (Command::Rule(a, t), Command::Rule(b, u)) => same_lp(a, b) && same_lp(t, u),
        _ => false,
    }
}

/// Whether the type is `I`.
fn is_individuals(t: &Lp) -> bool
    ensures { result ≡ same_term (term_of t.now) individuals }
{
    match t {
        Lp::Sym(name) => name.as_bytes() == b"I".as_slice(),
        Lp::Sort => false,
        Lp::Var(_) => false,
        Lp::Pat(_) => false,
        Lp::App(_, _) => false,
        Lp::Lam(_, _) => false,
        Lp::Pi(_, _) => false,
    }
}

/// Whether the type is that of a constant: `I → .. → I` or `I → .. → Prop`.
fn is_constant_type(t: &Lp) -> bool
    ensures { result ≡ spec.is_constant_type (term_of t.now) }
{
    let mut rest = t;
    'domains: loop {
        match rest {
            Lp::Sym(name) => {
                let bytes = name.as_bytes();
                return bytes == b"I".as_slice() || bytes == b"Prop".as_slice();
            }
            Lp::Pi(domain, body) => {
                if !is_individuals(domain.get()) {
                    return false;
                }
                rest = body.get();
            }
            Lp::Sort => return false,
            Lp::Var(_) => return false,
            Lp::Pat(_) => return false,
            Lp::App(_, _) => return false,
            Lp::Lam(_, _) => return false,
        }
    }
}

/// Whether the name is new, and not that of the goal.
fn is_new(sig: &Signature, name: &Ident) -> bool
    ensures { result ≡ spec.is_new (sig_of sig.now) name.now }
{
    !sig.declares(name) && name.as_bytes() != b"goal".as_slice()
}

/// Declares what the command does; a rule declares nothing.
fn declare_command(alloc: Global, sig: &mut Signature, command: &Command) -> Result<(), NoMemory>
    requires { are_distinct (sig_of sig.old ++ declarations (command.now ∷ [])) ≡ true }
    ensures { OnOk result (sig_of sig.new ≡ sig_of sig.old ++ declarations (command.now ∷ [])) }
{
    match command {
        Command::Constant(name, of) => sig.declare(alloc, name, of),
        Command::Symbol(name, of) => sig.declare(alloc, name, of),
        Command::Define(name, of, _) => sig.declare(alloc, name, of),
        Command::Rule(_, _) => Ok(()),
    }
}

/// What the commands declare, none of it twice.
#[tactic(auto, using(crate::proofs::SignatureLaws::distinct_first))]
fn signature_of(alloc: Global, commands: &[Command]) -> Result<Signature, NoMemory>
    requires { are_distinct (declarations commands.now) ≡ true }
    ensures { IfOk result (λ r. sig_of r ≡ declarations commands.now) }
{
    let mut sig = Signature::new(alloc);
    let mut rest = commands;
    'commands: while let [command, others @ ..] = rest {
        declare_command(alloc, &mut sig, command)?;
        rest = others;
    }
    Ok(sig)
}

/// The first failure of a goal's type and body after these symbols.
fn goal_failure(
    alloc: Global,
    sig: &Signature,
    of: &Lp,
    body: &Lp,
) -> Result<Option<Rejection>, NoMemory>
    ensures { IfOk result (λ r. failures_of r ≡ spec.fault_in_goal
        (spec.goal_checked (sig_of sig.now) (term_of of.now) (term_of body.now))) }
{
    let mut types = Seq::from_vec(Vec::new(alloc));
    match check_type(alloc, sig, &mut types, of, 0)? {
        Opening::Closed(refusal) => Ok(Some(Rejection::InGoal(refusal))),
        Opening::Opened(x) => match bound_value(alloc, sig, &mut types, &x, body, 0)? {
            Opening::Closed(refusal) => Ok(Some(Rejection::InGoal(refusal))),
            Opening::Opened(_) => Ok(None),
        },
    }
}

/// The first failure of a definition before the other commands.
fn definition_failure(
    alloc: Global,
    sig: &Signature,
    number: u32,
    name: &Ident,
    of: &Lp,
    body: &Lp,
    others: &[Command],
) -> Result<Option<Rejection>, NoMemory>
    ensures { IfOk result (λ r. failures_of r ≡ spec.failure_of_goal
        (sig_of sig.now) number name.now (term_of of.now) (term_of body.now) others.now) }
{
    if !others.is_empty() {
        return Ok(Some(Rejection::BadGoal(number)));
    }
    if name.as_bytes() != b"goal".as_slice() {
        return Ok(Some(Rejection::BadGoal(number)));
    }
    goal_failure(alloc, sig, of, body)
}

/// The first failure of the commands after the prelude.
fn failure_after(
    alloc: Global,
    sig: Signature,
    first: u32,
    commands: &[Command],
) -> Result<Option<Rejection>, NoMemory>
    ensures { IfOk result (λ r.
        failures_of r ≡ spec.failure_after (sig_of sig) first commands.now) }
{
    let mut entries = sig;
    let mut number = first;
    let mut rest = commands;
    'constants: while let [command, others @ ..] = rest {
        match command {
            Command::Constant(name, of) => {
                if !(is_new(&entries, name) && is_constant_type(of)) {
                    return Ok(Some(Rejection::BadSymbol(number)));
                }
                entries.declare(alloc, name, of)?;
                number = next_number(number)?;
                rest = others;
            }
            Command::Define(name, of, body) => {
                return definition_failure(alloc, &entries, number, name, of, body, others);
            }
            Command::Symbol(_, _) => return Ok(Some(Rejection::BadGoal(number))),
            Command::Rule(_, _) => return Ok(Some(Rejection::BadGoal(number))),
        }
    }
    Ok(Some(Rejection::BadGoal(number)))
}

/// The first failure of commands that are to begin with the expected ones.
fn failure_from(
    alloc: Global,
    sig: Signature,
    expected: &[Command],
    commands: &[Command],
) -> Result<Option<Rejection>, NoMemory>
    requires declared { sig_of sig ≡ prelude_declarations }
    ensures { IfOk result (λ r. failures_of r ≡ spec.failure_from expected.now 1 commands.now) }
{
    let mut number: u32 = 1;
    let mut left = expected;
    let mut rest = commands;
    'prelude: while let [next, later @ ..] = left {
        let [command, others @ ..] = rest else {
            return Ok(Some(Rejection::BadPrelude(number)));
        };
        if !same_command(next, command) {
            return Ok(Some(Rejection::BadPrelude(number)));
        }
        number = next_number(number)?;
        left = later;
        rest = others;
    }
    failure_after(alloc, sig, number, rest)
}

/// The first failure of a development.
fn first_failure(alloc: Global, commands: &[Command]) -> Result<Option<Rejection>, NoMemory>
    ensures { IfOk result (λ r. failures_of r ≡ spec.first_failure commands.now) }
{
    let expected = prelude(alloc)?;
    let sig = signature_of(alloc, expected.as_slice())?;
    failure_from(alloc, sig, expected.as_slice(), commands)
}

/// The fault of a refusal in the goal's type or body.
fn refusal_fault(refusal: Refusal) -> CheckFault
    ensures { IsFaultOf result (Some (spec.in_goal (fault_of refusal))) }
{
    match refusal {
        Refusal::UnknownName(node, name) => CheckFault::UnknownName { node, name },
        Refusal::OutOfFragment(node) => CheckFault::OutOfFragment { node },
        Refusal::IllTyped(node, want, found, level) => match u32::try_from(level) {
            Ok(level) => CheckFault::IllTyped {
                node,
                want,
                found,
                level,
            },
            Err(_) => CheckFault::Memory,
        },
    }
}

/// The fault of a failure.
fn fault(rejection: Rejection) -> CheckFault
    ensures { IsFaultOf result (Some (failure_of rejection)) }
{
    match rejection {
        Rejection::BadPrelude(command) => CheckFault::BadPrelude { command },
        Rejection::BadSymbol(command) => CheckFault::BadSymbol { command },
        Rejection::BadGoal(command) => CheckFault::BadGoal { command },
        Rejection::InGoal(refusal) => refusal_fault(refusal),
    }
}

/// Whether the type checker accepts the development: it begins with the prelude, then come constants
/// of the types `I → .. → I` and `I → .. → Prop`, and last the definition of `goal`, whose body has
/// the declared type. Then it has that type in the theory, in the signature of the commands before
/// it; a goal of the fragment that has its type is accepted.
///
/// # Errors
///
/// The first failure in the order of the rules: the prelude, the constants, the goal's type, its
/// body, and last the two compared; or want of memory.
pub fn check(alloc: Global, d: &Dev) -> Result<Typed, CheckFault>
    ensures verdict { IsVerdict result (spec.first_failure d.now.commands) }
    ensures typed { OnOk result (HasTypedGoal d.now.commands) }
{
    match first_failure(alloc, d.commands.as_slice()) {
        Err(NoMemory) => Err(CheckFault::Memory),
        Ok(Some(rejection)) => Err(fault(rejection)),
        Ok(None) => Ok(Typed),
    }
}
