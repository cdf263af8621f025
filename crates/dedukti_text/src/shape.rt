//! What the text of a term depends on.
ghost use Rattle.std.specs.Prelude.{◌≡◌, is_some, IfOk};
ghost use Rattle.dedukti_text.specs.Print.{dk_printed as printed};

use dk_syntax::NoMemory;
use lp_term::Lp;

/// Whether the variable of that number occurs. A number past `u32` is want of memory.
pub(crate) fn occurs(t: &Lp, number: u32) -> Result<bool, NoMemory>
    ensures { IfOk result (λ found. found ≡ (printed t.now).occurs number) }
{
    match t {
        Lp::Sort | Lp::Sym(_) | Lp::Pat(_) => Ok(false),
        Lp::Var(variable) => Ok(*variable == number),
        Lp::App(function, argument) => {
            if occurs(function.get(), number)? {
                return Ok(true);
            }
            occurs(argument.get(), number)
        }
        Lp::Lam(domain, body) => {
            if occurs(domain.get(), number)? {
                return Ok(true);
            }
            let inner = number.checked_add(1).ok_or(NoMemory)?;
            occurs(body.get(), inner)
        }
        Lp::Pi(domain, body) => {
            if occurs(domain.get(), number)? {
                return Ok(true);
            }
            let inner = number.checked_add(1).ok_or(NoMemory)?;
            occurs(body.get(), inner)
        }
    }
}

pub(crate) fn is_atom(t: &Lp) -> bool
    ensures { result ≡ (printed t.now).is_atom }
{
    match t {
        Lp::Sort | Lp::Sym(_) | Lp::Var(_) | Lp::Pat(_) => true,
        Lp::App(_, _) | Lp::Lam(_, _) | Lp::Pi(_, _) => false,
    }
}

fn is_abstraction(t: &Lp) -> bool
    ensures { result ≡ is_some (printed t.now).parts }
{
    match t {
        Lp::Lam(_, _) => true,
        Lp::Sort | Lp::Sym(_) | Lp::Var(_) | Lp::Pat(_) | Lp::App(_, _) | Lp::Pi(_, _) => false,
    }
}

/// Whether it is an atom or an application that is no `let`.
pub(crate) fn is_operand(t: &Lp) -> bool
    ensures { result ≡ (printed t.now).is_operand }
{
    match t {
        Lp::Sort | Lp::Sym(_) | Lp::Var(_) | Lp::Pat(_) => true,
        Lp::App(function, _) => !is_abstraction(function.get()),
        Lp::Lam(_, _) | Lp::Pi(_, _) => false,
    }
}
