//! The search for the least map: each existential in order has each new symbol in order, so that what is found first is
//! the least.
ghost use Rattle.std.specs.Prelude.{◌≡◌, ◌<◌, ◌∷◌, [], ◌++◌, Option, length, true, IfOk};
ghost use Rattle.std.specs.List.{All};
ghost use Rattle.dk_syntax.specs.declared.Kind.TheVariants.{Function};
ghost use Rattle.step_clause.specs.Justifications.{IsNumberedList};
ghost use Rattle.step_compose.specs.Arguments.{arguments_of};
ghost use Rattle.step_compose.specs.Composing.{IsComposedAnswer, IsListed};
ghost use Rattle.step_compose.specs.Searching.{Fits, FreeBelow, IsAnswerAfter};

use crate::arguments::{arguments, map_of};
use crate::choices::{are_functions, can_follow, symbols_of};
use crate::composed::Composed;
use crate::pruning::{are_below, is_hopeless};
use crate::targets::{image_list, justify_from};
use dk_syntax::{NoMemory, Seq, SymKey};
use normal_form::{ClauseList, Nf};
use std::alloc::Global;

/// The composed image with a place for each existential.
fn finish(
    alloc: Global,
    from: &Nf,
    arguments: &[Seq<u32>],
    aliens: &[SymKey],
    targets: &ClauseList,
    places: &[u32],
) -> Result<Option<Composed>, NoMemory>
    requires from { IsListed from.now }
    requires arguments { arguments.now ≡ arguments_of from.now }
    requires functions { All (λ symbol. symbol.kind ≡ Function) aliens.now }
    requires exactly { length aliens.now ≡ length arguments.now }
    requires targets { IsNumberedList targets.now }
    requires fits { Fits aliens.now arguments.now places.now }
    requires all { length places.now ≡ length arguments.now }
    ensures { IfOk result (λ answer. IsAnswerAfter from.now aliens.now targets.now.rows places.now
        answer) }
{
    let symbols = symbols_of(alloc, aliens, places)?;
    let image = image_list(alloc, from, symbols.as_slice())?;
    let found = justify_from(alloc, targets, image)?;
    match found {
        None => Ok(None),
        Some(it) => {
            let map = map_of(alloc, arguments, symbols.as_slice())?;
            Ok(Some(Composed {
                map,
                image: it.image,
                steps: it.steps,
            }))
        }
    }
}

/// The list with one place more.
fn with_last(alloc: Global, places: &[u32], place: u32) -> Result<Vec<u32>, NoMemory>
    ensures { IfOk result (λ all. all.items ≡ places.now ++ place ∷ []) }
{
    let mut all = Vec::from_slice(alloc, places)?;
    all.push(place)?;
    Ok(all)
}

/// The same number, where it fits.
fn number_of(n: usize) -> Result<u32, NoMemory>
    ensures { IfOk result (λ same. same ≡ n) }
{
    match u32::try_from(n) {
        Ok(same) => Ok(same),
        Err(_) => Err(NoMemory),
    }
}

/// The least with that place for the next existential.
#[cycle(search)]
fn search_place(
    alloc: Global,
    from: &Nf,
    arguments: &[Seq<u32>],
    aliens: &[SymKey],
    targets: &ClauseList,
    places: &[u32],
    place: u32,
    closed: bool,
) -> Result<Option<Composed>, NoMemory>
    requires from { IsListed from.now }
    requires arguments { arguments.now ≡ arguments_of from.now }
    requires functions { All (λ symbol. symbol.kind ≡ Function) aliens.now }
    requires exactly { length aliens.now ≡ length arguments.now }
    requires targets { IsNumberedList targets.now }
    requires fits { Fits aliens.now arguments.now places.now }
    requires next { length places.now < length arguments.now }
    requires place { place < length aliens.now }
    requires closed { closed ≡ true → FreeBelow 0 from.now }
    ensures { IfOk result (λ answer. IsAnswerAfter from.now aliens.now targets.now.rows
        (places.now ++ place ∷ []) answer) }
{
    if !can_follow(aliens, arguments, places, place) {
        return Ok(None);
    }
    let all = with_last(alloc, places, place)?;
    let found = search(
        alloc,
        from,
        arguments,
        aliens,
        targets,
        all.as_slice(),
        closed,
    )?;
    Ok(found)
}

/// The least with these places for the first existentials.
#[cycle(search)]
fn search(
    alloc: Global,
    from: &Nf,
    arguments: &[Seq<u32>],
    aliens: &[SymKey],
    targets: &ClauseList,
    places: &[u32],
    closed: bool,
) -> Result<Option<Composed>, NoMemory>
    requires from { IsListed from.now }
    requires arguments { arguments.now ≡ arguments_of from.now }
    requires functions { All (λ symbol. symbol.kind ≡ Function) aliens.now }
    requires exactly { length aliens.now ≡ length arguments.now }
    requires targets { IsNumberedList targets.now }
    requires fits { Fits aliens.now arguments.now places.now }
    requires closed { closed ≡ true → FreeBelow 0 from.now }
    ensures { IfOk result (λ answer. IsAnswerAfter from.now aliens.now targets.now.rows places.now
        answer) }
{
    if places.len() == arguments.len() {
        let found = finish(alloc, from, arguments, aliens, targets, places)?;
        return Ok(found);
    }
    if is_hopeless(alloc, from, aliens, targets, places, closed)? {
        return Ok(None);
    }
    for k in 0..aliens.len() {
        let place = number_of(k)?;
        let found = search_place(
            alloc, from, arguments, aliens, targets, places, place, closed,
        )?;
        if let Some(composed) = found {
            return Ok(Some(composed));
        }
    }
    Ok(None)
}

/// The composed image of a form for the new symbols and the target clauses, or `None` where there is none.
///
/// A map replaces each existential by another of the new symbols, all of them functions and just as many as existentials,
/// applied to the universals around, the outermost first. The composed image is the least map, by the list of its symbols'
/// places, such that each target has a justification from the clause list of the image.
pub fn compose_image(
    alloc: Global,
    from: &Nf,
    aliens: &Seq<SymKey>,
    targets: &ClauseList,
) -> Result<Option<Composed>, NoMemory>
    requires from { IsListed from.now }
    requires targets { IsNumberedList targets.now }
    ensures answer { IfOk result (λ answer. IsComposedAnswer from.now aliens.now targets.now.rows
        answer) }
    ensures alone { IfOk result (λ answer. (other : Option Composed)
        → IsComposedAnswer from.now aliens.now targets.now.rows other → other ≡ answer) }
{
    let arguments = arguments(alloc, from)?;
    let aliens = aliens.as_slice();
    if aliens.len() != arguments.len() {
        return Ok(None);
    }
    if !are_functions(aliens) {
        return Ok(None);
    }
    let none = Vec::new(alloc);
    let closed = are_below(from, 0);
    let found = search(
        alloc,
        from,
        arguments.as_slice(),
        aliens,
        targets,
        none.as_slice(),
        closed,
    )?;
    Ok(found)
}
