//! Two maps one after the other.
ghost use Rattle.std.specs.Prelude.{◌≡◌, ◌+◌, ◌≤◌, ◌++◌, List, drop, length, map, IfOk, OnOk};
ghost use Rattle.normal_form.specs.FormFacts.{HasNoVacuous};
ghost use Rattle.normal_form.specs.Forms.{form_of};
ghost use Rattle.normal_form.specs.declared.form.Nf.{Nf};
ghost use Rattle.step_skolem.specs.Chaining.{JoinsBefore, chained, raised};
ghost use Rattle.step_skolem.specs.Images.{IsImage};
ghost use Rattle.step_skolem.specs.declared.map.SkEntry.{SkEntry};

use crate::map::{SkEntry, SkMap, copy_as, sum_of};
use dk_syntax::{NoMemory, Seq};
use normal_form::Nf;
use std::alloc::Global;

/// The map that leads from a form to its image under the first map and then under the next; it is the only one
/// where the form has no vacuous quantifier. It takes time linear in the two maps.
pub fn chain(alloc: Global, from: &Nf, first: &SkMap, next: &SkMap) -> Result<SkMap, NoMemory>
    ensures image { (middle last : Nf) → IsImage from.now first.now.entries middle
        → IsImage middle next.now.entries last
        → IfOk result (λ both. IsImage from.now both.entries last) }
    ensures one { (middle last : Nf) → IsImage from.now first.now.entries middle
        → IsImage middle next.now.entries last
        → HasNoVacuous (form_of from.now) → (other : List SkEntry)
        → IsImage from.now other last
        → IfOk result (λ both. both.entries ≡ other) }
{
    let entries = joined(alloc, first.entries.as_slice(), next.entries.as_slice())?;
    Ok(SkMap { entries })
}

fn joined(alloc: Global, first: &[SkEntry], next: &[SkEntry]) -> Result<Seq<SkEntry>, NoMemory>
    ensures { IfOk result (λ entries. entries ≡ chained first.now next.now) }
{
    let mut entries = Seq::new(alloc);
    let mut taken = 0;
    let mut replaced = 0;
    for one in first {
        taken = put_before(alloc, &mut entries, one, next, taken, replaced)?;
        entries.push(copy_as(alloc, one.ex, one)?)?;
        replaced = sum_of(replaced, 1)?;
    }
    put_rest(alloc, &mut entries, next, taken, replaced)?;
    Ok(entries)
}

/// Puts the entries that come before that one, from the taken one on, and answers how many are taken then.
fn put_before(
    alloc: Global,
    entries: &mut Seq<SkEntry>,
    one: &SkEntry,
    next: &[SkEntry],
    taken: usize,
    replaced: u32,
) -> Result<usize, NoMemory>
    requires { taken ≤ length next.now }
    ensures within { IfOk result (λ at. at ≤ length next.now) }
    ensures joins { IfOk result (λ at. JoinsBefore replaced one.now entries.old
        (drop taken next.now) entries.new (drop at next.now)) }
{
    for at in taken..next.len() {
        let ex = sum_of(next[at].ex, replaced)?;
        if ex >= one.ex {
            return Ok(at);
        }
        entries.push(copy_as(alloc, ex, &next[at])?)?;
    }
    Ok(next.len())
}

/// Puts the entries from the taken one on.
fn put_rest(
    alloc: Global,
    entries: &mut Seq<SkEntry>,
    next: &[SkEntry],
    taken: usize,
    replaced: u32,
) -> Result<(), NoMemory>
    requires { taken ≤ length next.now }
    ensures { OnOk result (entries.new ≡ entries.old ++ map (raised replaced) (drop taken next.now)) }
{
    for one in &next[taken..] {
        let ex = sum_of(one.ex, replaced)?;
        entries.push(copy_as(alloc, ex, one)?)?;
    }
    Ok(())
}
