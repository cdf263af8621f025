//! Consumers of atoms and of truth.
#![tactic(auto, using(crate::proofs::EndSteps::end_steps))]

ghost use Rattle.std.specs.Prelude.{◌≡◌, ◌<◌, ◌-◌, IfOk};
ghost use Rattle.lp_term.specs.LambdaPi.{var};
ghost use Rattle.lp_term.specs.View.{term_of};
ghost use Rattle.nd_term.specs.Formulas.{truth};
ghost use Rattle.nd_term.specs.Places.{shift_times};
ghost use Rattle.nd_term.specs.Frames.{consumed};
ghost use Rattle.nd_term.specs.Spots.{frame_of};
ghost use Rattle.nd_term.specs.Trees.{tree_of};
ghost use Rattle.nd_term.specs.Views.{theory_formula};

use crate::build::{apply, variable};
use crate::eigenvariables::further_in;
use crate::proof_terms::top_term;
use crate::spot::Spot;
use crate::tree::Tree;
use dk_syntax::{Formula, NoMemory, Seq, SymKey, Term};
use lp_term::Lp;
use std::alloc::Global;

/// The variable of the next literal.
#[tactic(auto, using(crate::proofs::EndSteps::end_steps), unfolding(crate::specs::Spots::frame_of))]
fn next_literal(alloc: Global, spot: &Spot<'_>) -> Result<Lp, NoMemory>
    requires { 0 < spot.now.left }
    ensures { let z = frame_of spot.now in IfOk result (λ t. term_of t
        ≡ shift_times z.extra (var (spot.now.left - 1))) }
{
    further_in(alloc, &variable(spot.left - 1), spot.extra)
}

/// Falsity from a proof of an atom, or of its negation, and the variable of its literal.
#[tactic(auto, using(crate::proofs::EndSteps::atom_steps))]
pub fn consume_atom(
    alloc: Global,
    tree: &Tree,
    predicate: &SymKey,
    args: &Seq<Term>,
    positive: bool,
    spot: &Spot<'_>,
    t: Lp,
) -> Result<Lp, NoMemory>
    ensures { IfOk result (λ r. term_of r ≡ consumed (frame_of spot.now)
        (theory_formula (Formula.Atom predicate.now args.now)) positive (tree_of tree.now)
        spot.now.left (term_of t)) }
{
    if !tree.is_leaf() {
        return Ok(t);
    }
    if spot.left == 0 {
        return Ok(t);
    }
    let literal = next_literal(alloc, spot)?;
    if positive {
        apply(alloc, literal, t)
    } else {
        apply(alloc, t, literal)
    }
}

/// Falsity from a proof of the negation of `$true`.
#[tactic(auto, using(crate::proofs::EndSteps::truth_steps))]
pub fn consume_truth(
    alloc: Global,
    tree: &Tree,
    positive: bool,
    spot: &Spot<'_>,
    t: Lp,
) -> Result<Lp, NoMemory>
    ensures { IfOk result (λ r. term_of r ≡ consumed (frame_of spot.now) truth positive
        (tree_of tree.now) spot.now.left (term_of t)) }
{
    if positive {
        return Ok(t);
    }
    if !tree.is_empty() {
        return Ok(t);
    }
    apply(alloc, t, top_term(alloc)?)
}
