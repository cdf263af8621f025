//! Literals each once, and their places.
ghost use Rattle.std.specs.Prelude.{◌≡◌, ◌∷◌, [], false, true, length, slice_get, Contains, IfOk, MatchBool, MatchOption, OnOk, Some};
ghost use Rattle.step_chain.specs.Resolvents.{kept};
ghost use Rattle.step_chain.specs.Resolving.{AreAddedOnce, AreContained, AreInstancePicks};

use crate::numbering::number_of;
use dk_syntax::{Literal, NoMemory, Seq, same_literal};
use std::alloc::Global;

/// Whether any is taken.
pub fn any_taken(taken: &[bool]) -> bool
    ensures { MatchBool result (Contains taken.now true) (¬ Contains taken.now true) }
{
    for k in 0..taken.len() {
        if taken[k] {
            return true;
        }
    }
    false
}

/// The first place of a literal in the list, where it stands there.
fn place_of(literals: &[Literal], literal: &Literal) -> Option<usize>
    ensures { MatchOption result (¬ Contains literals.now literal.now)
        (λ k. slice_get literals.now k ≡ Some literal.now) }
{
    for k in 0..literals.len() {
        if same_literal(&literals[k], literal) {
            return Some(k);
        }
    }
    None
}

/// Adds the literal if it isn't taken, unless it is there.
fn add_kept(
    alloc: Global,
    once: &mut Seq<Literal>,
    literal: &Literal,
    taken: bool,
) -> Result<(), NoMemory>
    ensures { OnOk result (AreAddedOnce once.old (kept (literal.now ∷ []) (taken ∷ [])) once.new) }
{
    if taken {
        return Ok(());
    }
    match place_of(once.as_slice(), literal) {
        Some(_) => Ok(()),
        None => {
            let literal = literal.copy(alloc)?;
            once.push(literal)?;
            Ok(())
        }
    }
}

/// Adds each literal that isn't taken, unless it is there.
pub fn add_once(
    alloc: Global,
    once: &mut Seq<Literal>,
    literals: &[Literal],
    taken: &[bool],
) -> Result<(), NoMemory>
    requires { length taken.now ≡ length literals.now }
    ensures { OnOk result (AreAddedOnce once.old (kept literals.now taken.now) once.new) }
{
    for k in 0..literals.len() {
        add_kept(alloc, once, &literals[k], taken[k])?;
    }
    Ok(())
}

fn pick_of(lits: &[Literal], literal: &Literal, taken: bool) -> Result<u32, NoMemory>
    ensures taken { IfOk result (λ pick. taken ≡ true → pick ≡ length lits.now) }
    ensures kept { IfOk result (λ pick. taken ≡ false → Contains lits.now literal.now
        → slice_get lits.now pick ≡ Some literal.now) }
{
    if taken {
        return number_of(lits.len());
    }
    match place_of(lits, literal) {
        Some(k) => number_of(k),
        None => number_of(lits.len()),
    }
}

/// For each literal its place in the list, and the list's length for those that are taken.
pub fn picks_of(
    alloc: Global,
    lits: &[Literal],
    literals: &[Literal],
    taken: &[bool],
) -> Result<Seq<u32>, NoMemory>
    requires long { length taken.now ≡ length literals.now }
    requires there { AreContained lits.now (kept literals.now taken.now) }
    ensures { IfOk result (λ picks. AreInstancePicks lits.now literals.now taken.now picks) }
{
    let mut picks = Seq::from_vec(Vec::new(alloc));
    for k in 0..literals.len() {
        let pick = pick_of(lits, &literals[k], taken[k])?;
        picks.push(pick)?;
    }
    Ok(picks)
}
