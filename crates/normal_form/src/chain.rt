//! Chains of conjunctions and of disjunctions.
#![tactic(auto, using(crate::proofs::Steps::work_steps))]

ghost use Rattle.std.specs.Prelude.{◌≡◌, map, IfOk, OnOk};
ghost use Rattle.normal_form.specs.Sorting.{in_order, nested_all};
ghost use Rattle.normal_form.specs.Works.{extended, join_of, numbered_of};

use crate::form_order::form_order;
use crate::work::{Work, boxed_work, joined};
use dk_syntax::{Boxed, NoMemory};
use std::alloc::Global;

/// The members in order, nested to the left.
pub fn chained(
    alloc: Global,
    mut members: Vec<Boxed<Work>>,
    both: bool,
) -> Result<Boxed<Work>, NoMemory>
    ensures { IfOk result (λ work. numbered_of work
        ≡ nested_all (join_of both) (in_order (map numbered_of members.items))) }
{
    put_in_order(&mut members)?;
    nested(alloc, members, both)
}

/// Sorts the members. Equal ones stay in the order in which they stood.
fn put_in_order(members: &mut Vec<Boxed<Work>>) -> Result<(), NoMemory>
    ensures { OnOk result (map numbered_of members.new.items
        ≡ in_order (map numbered_of members.old.items)) }
{
    members.sort_by(|a, b| form_order(a.get(), b.get()))?;
    Ok(())
}

fn nested(alloc: Global, members: Vec<Boxed<Work>>, both: bool) -> Result<Boxed<Work>, NoMemory>
    ensures { IfOk result (λ work. numbered_of work
        ≡ nested_all (join_of both) (map numbered_of members.items)) }
{
    let mut form = None;
    for member in members {
        form = Some(extended(alloc, form, member, both)?);
    }
    match form {
        Some(form) => Ok(form),
        None => boxed_work(alloc, Work::True),
    }
}

/// The form so far, joined with one more member.
fn extended(
    alloc: Global,
    form: Option<Boxed<Work>>,
    member: Boxed<Work>,
    both: bool,
) -> Result<Boxed<Work>, NoMemory>
    ensures { IfOk result (λ work. numbered_of work ≡ extended both form member) }
{
    match form {
        Some(form) => joined(alloc, form, member, both),
        None => Ok(member),
    }
}
