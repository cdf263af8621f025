//! Maps carried to a form that differs by order and grouping of `And` and `Or` alone.
ghost use Rattle.std.specs.Prelude.{◌≡◌, get_or, IfOk, OnOk};
ghost use Rattle.normal_form.specs.Sorting.{IsSorted, SameSorted};
ghost use Rattle.normal_form.specs.declared.form.Nf.{Nf};
ghost use Rattle.step_skolem.specs.Carrying.{across, by_number, carried_by, renumbered};
ghost use Rattle.step_skolem.specs.Images.{IsImage};
ghost use Rattle.step_skolem.specs.Laws.{LeadsAlike};

use crate::map::{SkEntry, SkMap};
use dk_syntax::{NoMemory, Seq};
use normal_form::Sorted;
use std::alloc::Global;

/// The map with the numbers of another form, which has the same sorted form, and with its entries in preorder of the
/// new numbers. Where it is a map of the first form, it is one of the other then, and the two images differ by order
/// and grouping of `And` and `Or` alone. Each number is looked for in the lists of numbers.
pub fn carry(alloc: Global, map: &SkMap, from: &Sorted, to: &Sorted) -> Result<SkMap, NoMemory>
    ensures entries { IfOk result (λ other. other.entries
        ≡ carried_by from.now to.now map.now.entries) }
    ensures image { (n r image : Nf) → IsSorted n from.now → IsSorted r to.now → SameSorted n r
        → IsImage n map.now.entries image
        → IfOk result (λ other. LeadsAlike r other.entries image) }
{
    let entries = carried(alloc, map.entries.as_slice(), from, to)?;
    Ok(SkMap { entries })
}

fn carried(
    alloc: Global,
    map: &[SkEntry],
    from: &Sorted,
    to: &Sorted,
) -> Result<Seq<SkEntry>, NoMemory>
    ensures { IfOk result (λ entries. entries ≡ carried_by from.now to.now map.now) }
{
    let mut entries = Vec::new(alloc);
    for one in map {
        entries.push(renumber(alloc, one, from, to)?)?;
    }
    put_in_order(&mut entries)?;
    Ok(Seq::from_vec(entries))
}

fn renumber(alloc: Global, one: &SkEntry, from: &Sorted, to: &Sorted) -> Result<SkEntry, NoMemory>
    ensures { IfOk result (λ other.
        other ≡ renumbered (across from.now.alls to.now.alls) (across from.now.exs to.now.exs)
        one.now) }
{
    let mut args = Seq::from_vec(Vec::with_capacity(alloc, one.args.len())?);
    for number in one.args.as_slice() {
        args.push(moved(from.alls.as_slice(), to.alls.as_slice(), *number))?;
    }
    Ok(SkEntry {
        ex: moved(from.exs.as_slice(), to.exs.as_slice(), one.ex),
        symbol: one.symbol.copy(alloc)?,
        args,
    })
}

/// The number that stands in the second list where this one stands in the first.
fn moved(from: &[u32], to: &[u32], number: u32) -> u32
    ensures { result ≡ across from.now to.now number }
{
    for (place, other) in from.iter().enumerate() {
        if *other == number {
            return at_place(to, place);
        }
    }
    at_place(to, from.len())
}

fn at_place(numbers: &[u32], place: usize) -> u32
    ensures { result ≡ get_or numbers.now place 0 }
{
    if place < numbers.len() {
        numbers[place]
    } else {
        0
    }
}

fn put_in_order(entries: &mut Vec<SkEntry>) -> Result<(), NoMemory>
    ensures { OnOk result (entries.new.items ≡ by_number entries.old.items) }
{
    entries.sort_by(|a, b| a.ex.cmp(&b.ex))?;
    Ok(())
}
