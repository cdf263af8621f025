//! The translation of ground terms.
#![tactic(auto, using(crate::proofs::OutputSteps::output_steps))]

ghost use Rattle.std.specs.Prelude.{◌≡◌, map, IfOk};
ghost use Rattle.lp_term.specs.Identifiers.{identifier_of};
ghost use Rattle.lp_term.specs.LambdaPi.{con};
ghost use Rattle.lp_term.specs.View.{term_of};
ghost use Rattle.nd_term.specs.Instances.{applied_to};
ghost use Rattle.nd_term.specs.Outputs.{ground_of, output, output_atom};
ghost use Rattle.nd_term.specs.Places.{eigenvariables};
ghost use Rattle.nd_term.specs.Translation.{translated_ground};

use crate::build::{apply, symbol};
use crate::eigenvariables::eigenvariable;
use crate::outputs::replaced;
use crate::place::Place;
use dk_syntax::{NoMemory, SymKey, Term};
use lp_term::{Lp, ident_of};
use std::alloc::Global;

fn named(alloc: Global, head: &SymKey) -> Result<Lp, NoMemory>
    ensures { IfOk result (λ t. term_of t ≡ con (identifier_of head.now)) }
{
    Ok(Lp::Sym(ident_of(alloc, head)?))
}

/// A ground term at the place. Its variable k is the k-th eigenvariable.
#[cycle(ground_term)]
pub fn ground_term(alloc: Global, place: &Place<'_>, t: &Term) -> Result<Lp, NoMemory>
    ensures { IfOk result (λ r. term_of r
        ≡ translated_ground (eigenvariables place.now) (ground_of t.now)) }
{
    match t {
        Term::Var(number) => eigenvariable(alloc, place, *number),
        Term::App(head, args) => apply_ground(alloc, place, args.as_slice(), named(alloc, head)?),
        Term::Any => symbol(alloc, b"any"),
    }
}

#[cycle(ground_term)]
fn apply_ground(alloc: Global, place: &Place<'_>, args: &[Term], head: Lp) -> Result<Lp, NoMemory>
    ensures { IfOk result (λ r. term_of r ≡ applied_to (term_of head)
        (map (λ u. translated_ground (eigenvariables place.now) (ground_of u)) args.now)) }
{
    let mut all = head;
    for arg in args {
        let argument = ground_term(alloc, place, arg)?;
        all = apply(alloc, all, argument)?;
    }
    Ok(all)
}

/// A head at the arguments as they are at the place.
fn apply_outputs(alloc: Global, place: &Place<'_>, head: Lp, args: &[Term]) -> Result<Lp, NoMemory>
    ensures { IfOk result (λ r. term_of r ≡ applied_to (term_of head)
        (map (λ u. translated_ground (eigenvariables place.now)
        (output place.now.symbols.now place.now.order.now u)) args.now)) }
{
    let mut all = head;
    for arg in args {
        let output = replaced(alloc, place, arg)?;
        let argument = ground_term(alloc, place, &output)?;
        all = apply(alloc, all, argument)?;
    }
    Ok(all)
}

/// A ground atom at the place.
pub fn ground_atom(
    alloc: Global,
    place: &Place<'_>,
    predicate: &SymKey,
    args: &[Term],
) -> Result<Lp, NoMemory>
    ensures { IfOk result (λ r. term_of r ≡ translated_ground (eigenvariables place.now)
        (output_atom place.now.symbols.now place.now.order.now predicate.now args.now)) }
{
    let head = named(alloc, predicate)?;
    apply_outputs(alloc, place, head, args)
}
