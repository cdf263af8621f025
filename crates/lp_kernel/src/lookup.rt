//! The types of variables and of declared symbols.
ghost use Rattle.std.specs.Prelude.{◌≡◌, ◌+◌, IfOk, List, Ok};
ghost use Rattle.lp_term.specs.LambdaPi.{Term, con, var};
ghost use Rattle.lp_exact.specs.Words.{word_of};
ghost use Rattle.lp_kernel.specs.Checking.{and_then, declared, or_fault, out_of_fragment, read_symbol, type_at, typing, unknown_name};
ghost use Rattle.lp_kernel.specs.Signatures.{sig_of};
ghost use Rattle.lp_kernel.specs.Walking.{context_of, found_of};

use crate::finding::{Finding, Refusal};
use crate::signature::Signature;
use dk_syntax::NoMemory;
use lp_exact::{Word, word_named};
use lp_term::{Ident, Lp, lift};
use std::alloc::Global;

/// The next number; past `u32` it is want of memory.
pub(crate) fn next_number(number: u32) -> Result<u32, NoMemory>
    ensures { IfOk result (λ n. n ≡ number + 1) }
{
    number.checked_add(1).ok_or(NoMemory)
}

/// A variable's type, or that there is none.
pub(crate) fn find_variable(
    alloc: Global,
    types: &[Lp],
    number: u32,
    node: u64,
) -> Result<Finding, NoMemory>
    ensures { IfOk result (λ r. found_of r ≡ and_then
        (or_fault (type_at (context_of types.now) number) (out_of_fragment node))
        (λ a. Ok (typing a (var number)))) }
{
    let back = number as usize;
    if types.len() <= back {
        return Ok(Finding::Refused(Refusal::OutOfFragment(node)));
    }
    let at = types.len() - 1 - back;
    let up = next_number(number)?;
    let of = lift(alloc, &types[at], up, 0)?;
    Ok(Finding::Typed(of, Lp::Var(number)))
}

/// A declared symbol's type, or that it is not declared.
fn find_declared(
    alloc: Global,
    sig: &Signature,
    name: &Ident,
    node: u64,
) -> Result<Finding, NoMemory>
    ensures { IfOk result (λ r. found_of r ≡ and_then
        (or_fault (declared (sig_of sig.now) name.now) (unknown_name node name.now))
        (λ a. Ok (typing a (con name.now)))) }
{
    match sig.type_of(name) {
        Some(of) => {
            let of = of.copy(alloc)?;
            Ok(Finding::Typed(of, Lp::Sym(name.copy(alloc)?)))
        }
        None => Ok(Finding::Refused(Refusal::UnknownName(node, name.copy(alloc)?))),
    }
}

/// A symbol's type, or why it has none.
pub(crate) fn find_symbol(
    alloc: Global,
    sig: &Signature,
    name: &Ident,
    node: u64,
) -> Result<Finding, NoMemory>
    ensures { (d : List Term) → IfOk result (λ r. found_of r ≡
        (read_symbol (sig_of sig.now) (word_of name.now) name.now).find d node) }
{
    match word_named(name) {
        Word::Individuals => Ok(Finding::Refused(Refusal::OutOfFragment(node))),
        Word::Propositions => Ok(Finding::Refused(Refusal::OutOfFragment(node))),
        Word::Prf => Ok(Finding::Refused(Refusal::OutOfFragment(node))),
        _ => find_declared(alloc, sig, name, node),
    }
}
