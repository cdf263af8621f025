//! The terms of justifications.
#![tactic(auto, using(crate::proofs::PickSteps::pick_steps))]

ghost use Rattle.std.specs.Prelude.{◌≡◌, ◌++◌, ◌∷◌, [], ℕ, List, length, get_or, map, IfOk};
ghost use Rattle.lp_term.specs.Connectives.{bot, individuals, proof_of};
ghost use Rattle.lp_term.specs.LambdaPi.{Term, lam, shift, var};
ghost use Rattle.lp_term.specs.Signature.{Extends};
ghost use Rattle.lp_term.specs.Typing.{Declaration, HasType};
ghost use Rattle.lp_term.specs.View.{term_of};
ghost use Rattle.nd_term.specs.Bindings.{LiteralProofs};
ghost use Rattle.nd_term.specs.Formulas.{GroundTerm};
ghost use Rattle.nd_term.specs.Instances.{at_place, resolution_proof, subsumption_proof};
ghost use Rattle.nd_term.specs.Justified.{IsJustified, clause_at, justified_proof, needed_variable, pivot_atom};
ghost use Rattle.nd_term.specs.Places.{eigenvariables, last_variables};
ghost use Rattle.nd_term.specs.Translation.{translated_ground};

use crate::build::{apply, assume, deeper, symbol, variable};
use crate::eigenvariables::at_level;
use crate::ground::ground_atom;
use crate::place::Place;
use dk_syntax::{Literal, NoMemory, Seq};
use lp_term::Lp;
use std::alloc::Global;
use step_clause::Justification;

/// The variable of the literal at a place of a clause whose literals' variables are those bound last, and `any` where
/// there is none.
fn literal_variable(alloc: Global, count: u32, place: u32) -> Result<Lp, NoMemory>
    ensures { IfOk result (λ t. term_of t ≡ at_place (last_variables count) place) }
{
    if place < count {
        return Ok(variable(count - 1 - place));
    }
    symbol(alloc, b"any")
}

/// The same, where the number of literals stands for the pivot.
fn literal_or_pivot(alloc: Global, count: u32, place: u32, pivot: &Lp) -> Result<Lp, NoMemory>
    ensures { IfOk result (λ t. term_of t
        ≡ at_place (last_variables count ++ term_of pivot.now ∷ []) place) }
{
    if place == count {
        return pivot.copy(alloc);
    }
    literal_variable(alloc, count, place)
}

/// A proof at the variables of the picked literals.
fn apply_picked(alloc: Global, proof: Lp, count: u32, picks: &[u32]) -> Result<Lp, NoMemory>
    ensures { IfOk result (λ t. term_of t
        ≡ subsumption_proof (term_of proof) (last_variables count) picks.now) }
{
    let mut all = proof;
    for pick in picks {
        let argument = literal_variable(alloc, count, *pick)?;
        all = apply(alloc, all, argument)?;
    }
    Ok(all)
}

/// A proof at the variables of the picked literals and the pivot.
fn apply_with_pivot(
    alloc: Global,
    proof: Lp,
    count: u32,
    picks: &[u32],
    pivot: &Lp,
) -> Result<Lp, NoMemory>
    ensures { IfOk result (λ t. term_of t ≡ subsumption_proof (term_of proof)
        (last_variables count ++ term_of pivot.now ∷ []) picks.now) }
{
    let mut all = proof;
    for pick in picks {
        let argument = literal_or_pivot(alloc, count, *pick, pivot)?;
        all = apply(alloc, all, argument)?;
    }
    Ok(all)
}

/// `λ (p : Prf A), ..`: the negative parent's proof at its picks, where the pivot is p.
fn pivot_term(
    alloc: Global,
    proof: &Lp,
    count: u32,
    picks: &[u32],
    atom: Lp,
) -> Result<Lp, NoMemory>
    ensures { IfOk result (λ t. term_of t ≡ lam (proof_of (term_of atom))
        (subsumption_proof (shift (term_of proof.now)) (map shift (last_variables count) ++ var 0 ∷ []) picks.now)) }
{
    let with_pivot = count.checked_add(1).ok_or(NoMemory)?;
    let inner = apply_picked(alloc, deeper(alloc, proof)?, with_pivot, picks)?;
    assume(alloc, atom, inner)
}

/// The atom of the first literal whose pick is the pivot's, and `any` where there is none.
fn pivot_atom(
    alloc: Global,
    place: &Place<'_>,
    count: u32,
    parent: &[Literal],
    picks: &[u32],
) -> Result<Lp, NoMemory>
    ensures { IfOk result (λ t. term_of t ≡ translated_ground (eigenvariables place.now)
        (pivot_atom place.now.symbols.now place.now.order.now count parent.now picks.now)) }
{
    for (number, literal) in parent.iter().enumerate() {
        let Some(pick) = picks.get(number) else {
            return symbol(alloc, b"any");
        };
        if *pick == count {
            return ground_atom(alloc, place, &literal.pred, literal.args.as_slice());
        }
    }
    symbol(alloc, b"any")
}

/// The variable of the instance that is needed at this number.
fn needed_variable(place: &Place<'_>, levels: &[u32], number: usize) -> Lp
    ensures { term_of result ≡ needed_variable place.now levels.now number }
{
    at_level(place.level, levels.get(number).copied().unwrap_or(0))
}

/// The literals of the first parent.
fn first_parent(parents: &[Seq<Literal>]) -> &[Literal]
    ensures { result.now ≡ get_or parents.now 0 [] }
{
    match parents.first() {
        Some(parent) => parent.as_slice(),
        None => &[],
    }
}

/// A positive parent's proof, with the negative one's at the pivot.
fn resolution(
    alloc: Global,
    place: &Place<'_>,
    count: u32,
    pos_picks: &[u32],
    neg_picks: &[u32],
    atom: Lp,
    levels: &[u32],
) -> Result<Lp, NoMemory>
    ensures { IfOk result (λ t. (a : GroundTerm)
        → term_of atom ≡ translated_ground (eigenvariables place.now) a → term_of t
        ≡ resolution_proof (eigenvariables place.now) (needed_variable place.now levels.now 0)
        (needed_variable place.now levels.now 1) (last_variables count) pos_picks.now neg_picks.now
        a) }
{
    let negative = needed_variable(place, levels, 1);
    let pivot = pivot_term(alloc, &negative, count, neg_picks, atom)?;
    let positive = needed_variable(place, levels, 0);
    apply_with_pivot(alloc, positive, count, pos_picks, &pivot)
}

/// The term of a justification.
fn justified(
    alloc: Global,
    j: &Justification,
    lits: &Seq<Literal>,
    parents: &Seq<Seq<Literal>>,
    vars: &Seq<u32>,
    place: &Place<'_>,
) -> Result<Lp, NoMemory>
    ensures { IfOk result (λ t. term_of t
        ≡ justified_proof place.now j.now lits.now parents.now vars.now) }
{
    let count = u32::try_from(lits.len()).map_err(|_| NoMemory)?;
    let levels = vars.as_slice();
    match j {
        Justification::Subsume { picks, .. } => {
            let proof = needed_variable(place, levels, 0);
            apply_picked(alloc, proof, count, picks.as_slice())
        }
        Justification::Resolve {
            pos_picks,
            neg_picks,
            ..
        } => {
            let positive = pos_picks.as_slice();
            let parent = first_parent(parents.as_slice());
            let atom = pivot_atom(alloc, place, count, parent, positive)?;
            resolution(
                alloc,
                place,
                count,
                positive,
                neg_picks.as_slice(),
                atom,
                levels,
            )
        }
    }
}

/// The term of a justification: a proof of falsity at a place where the variables of the clause's literals are those bound
/// last. `vars` has the levels of the parents' proofs and `parents` their literals, the positive parent first.
pub fn resolve_term(
    alloc: Global,
    j: &Justification,
    lits: &Seq<Literal>,
    parents: &Seq<Seq<Literal>>,
    vars: &Seq<u32>,
    place: &Place<'_>,
) -> Result<Lp, NoMemory>
    ensures term { IfOk result (λ t. term_of t
        ≡ justified_proof place.now j.now lits.now parents.now vars.now) }
    ensures typed { (sig : List Declaration) (g : List Term) → Extends sig
        → ((k : ℕ) → HasType sig g (eigenvariables place.now k) individuals)
        → LiteralProofs sig g (eigenvariables place.now) (clause_at place.now lits.now)
        (last_variables (length lits.now))
        → IsJustified sig g place.now j.now lits.now parents.now vars.now
        → IfOk result (λ t. HasType sig g (term_of t) (proof_of bot)) }
{
    justified(alloc, j, lits, parents, vars, place)
}
