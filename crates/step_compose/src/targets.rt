//! Justifications of all targets, and clause lists of images.
ghost use Rattle.std.specs.Prelude.{◌≡◌, ◌∷◌, [], IfOk, MatchOption};
ghost use Rattle.normal_form.specs.ClauseLists.{clause_rows};
ghost use Rattle.step_clause.specs.Justifications.{AreNumbered, IsNumberedList};
ghost use Rattle.step_compose.specs.Composing.{AreJustified, HasShortList, IsListed};
ghost use Rattle.step_compose.specs.Relaxing.{relaxed};
ghost use Rattle.step_compose.specs.Searching.{HasUnjustified};

use crate::relaxed::relaxed_image;
use dk_syntax::{NoMemory, Seq, SymKey};
use normal_form::{ClauseFault, ClauseList, Nf, clauses};
use std::alloc::Global;
use step_clause::{Justification, justify};

/// The justification of each target from the lists, or `None` where a target has none.
pub fn justify_all(
    alloc: Global,
    targets: &ClauseList,
    lists: &Seq<ClauseList>,
) -> Result<Option<Seq<Justification>>, NoMemory>
    requires targets { IsNumberedList targets.now }
    requires lists { AreNumbered lists.now }
    ensures { IfOk result (λ answer. MatchOption answer (HasUnjustified targets.now.rows lists.now)
        (AreJustified targets.now.rows lists.now)) }
{
    let mut steps = Seq::new(alloc);
    let rows = targets.rows.as_slice();
    for k in 0..rows.len() {
        let found = justify(alloc, &rows[k].clause, lists)?;
        match found {
            None => return Ok(None),
            Some(step) => steps.push(step)?,
        }
    }
    Ok(Some(steps))
}

/// The image and the justification of each target from its clause list.
#[derive(Drop)]
pub struct Justified {
    pub image: ClauseList,
    pub steps: Seq<Justification>,
}

/// The same from a clause list, or `None` where a target has none.
pub fn justify_from(
    alloc: Global,
    targets: &ClauseList,
    image: ClauseList,
) -> Result<Option<Justified>, NoMemory>
    requires targets { IsNumberedList targets.now }
    requires image { IsNumberedList image }
    ensures { IfOk result (λ answer. MatchOption answer
        (HasUnjustified targets.now.rows (image ∷ []))
        (λ it. (it.image ≡ image) × AreJustified targets.now.rows (image ∷ []) it.steps)) }
{
    let mut lists = Seq::new(alloc);
    lists.push(image)?;
    let found = justify_all(alloc, targets, &lists)?;
    match (found, lists.pop()) {
        (Some(steps), Some(image)) => Ok(Some(Justified { image, steps })),
        _ => Ok(None),
    }
}

/// The clause list of a form of which it is known to be short.
fn listed(alloc: Global, image: &Nf) -> Result<ClauseList, NoMemory>
    requires { HasShortList image.now }
    ensures { IfOk result (λ list. list.rows ≡ clause_rows image.now) }
{
    match clauses(alloc, image) {
        Ok(list) => Ok(list),
        Err(ClauseFault::TooManyClauses { count: _ }) => unreachable!(),
        Err(ClauseFault::TooManyLiterals { count: _ }) => unreachable!(),
        Err(ClauseFault::Memory) => Err(NoMemory),
    }
}

/// The clause list of the image under the symbols.
pub fn image_list(alloc: Global, from: &Nf, symbols: &[SymKey]) -> Result<ClauseList, NoMemory>
    requires { IsListed from.now }
    ensures rows { IfOk result (λ list. list.rows ≡ clause_rows (relaxed symbols.now from.now)) }
    ensures numbered { IfOk result (λ list. IsNumberedList list) }
{
    let image = relaxed_image(alloc, from, symbols)?;
    let list = listed(alloc, &image)?;
    Ok(list)
}
