//! Sorted forms.
#![tactic(auto, using(crate::proofs::ChainLaws::sorting_steps))]

ghost use Rattle.std.specs.Prelude.{◌≡◌, ◌+◌, ◌++◌, map, reverse, true, false, IfOk, OnOk};
ghost use Rattle.normal_form.specs.Forms.{alls, exs, form_of};
ghost use Rattle.normal_form.specs.Sorting.{IsSorted, numbered_from, sorted};
ghost use Rattle.normal_form.specs.Works.{numbered_of, sorted_members};

use crate::chain::chained;
use crate::form::Nf;
use crate::rename::inside;
use crate::work::{Numbers, Work, boxed_work};
use dk_syntax::{Boxed, NoMemory, Seq};
use std::alloc::Global;

/// A sorted form. `alls[k]` is the preorder number among universals, in the form that it comes of, of its
/// k-th universal, and `exs[k]` that of its k-th existential among existentials.
#[derive(Drop)]
pub struct Sorted {
    pub form: Nf,
    pub alls: Seq<u32>,
    pub exs: Seq<u32>,
}

/// The numbers of the next universal and of the next existential.
#[derive(Drop)]
struct Next {
    all: u32,
    ex: u32,
}

/// The sorted form: first each part is sorted, then the members of each largest chain of `And` or of `Or` are,
/// equal ones staying in the order in which they stood, and are nested to the left.
pub fn sorted_of(alloc: Global, nf: &Nf) -> Result<Sorted, NoMemory>
    ensures { IfOk result (λ sorted. IsSorted nf.now sorted) }
{
    let mut next = Next { all: 0, ex: 0 };
    let work = sort(alloc, nf, &mut next)?;
    let mut numbers = Numbers {
        alls: Seq::new(alloc),
        exs: Seq::new(alloc),
    };
    let form = work.into_inner().without_numbers(alloc, &mut numbers)?;
    let Numbers { alls, exs } = numbers;
    Ok(Sorted {
        form: form.into_inner(),
        alls: reversed(alls),
        exs: reversed(exs),
    })
}

fn reversed(numbers: Seq<u32>) -> Seq<u32>
    ensures { result ≡ reverse numbers }
{
    let mut numbers = numbers.into_vec();
    numbers.reverse();
    Seq::from_vec(numbers)
}

/// The form with its numbers, sorted.
#[cycle(sort)]
fn sort(alloc: Global, nf: &Nf, next: &mut Next) -> Result<Boxed<Work>, NoMemory>
    ensures form { IfOk result (λ work. numbered_of work
        ≡ sorted (numbered_from next.old.all next.old.ex (form_of nf.now))) }
    ensures all { OnOk result (next.new.all ≡ alls (form_of nf.now) + next.old.all) }
    ensures ex { OnOk result (next.new.ex ≡ exs (form_of nf.now) + next.old.ex) }
{
    match nf {
        Nf::True => boxed_work(alloc, Work::True),
        Nf::False => boxed_work(alloc, Work::False),
        Nf::Lit(literal) => boxed_work(alloc, Work::Lit(literal.copy(alloc)?)),
        Nf::And(a, b) => {
            let mut members = Vec::new(alloc);
            add_conjuncts(alloc, a.get(), next, &mut members)?;
            add_conjuncts(alloc, b.get(), next, &mut members)?;
            chained(alloc, members, true)
        }
        Nf::Or(a, b) => {
            let mut members = Vec::new(alloc);
            add_disjuncts(alloc, a.get(), next, &mut members)?;
            add_disjuncts(alloc, b.get(), next, &mut members)?;
            chained(alloc, members, false)
        }
        Nf::All(a) => {
            let number = next.all;
            next.all = inside(number)?;
            let a = sort(alloc, a.get(), next)?;
            boxed_work(alloc, Work::All(number, a))
        }
        Nf::Ex(a) => {
            let number = next.ex;
            next.ex = inside(number)?;
            let a = sort(alloc, a.get(), next)?;
            boxed_work(alloc, Work::Ex(number, a))
        }
    }
}

/// Adds the sorted members of the largest chain of `And` at the top of a form.
#[cycle(sort)]
fn add_conjuncts(
    alloc: Global,
    nf: &Nf,
    next: &mut Next,
    members: &mut Vec<Boxed<Work>>,
) -> Result<(), NoMemory>
    ensures members { OnOk result (map numbered_of members.new.items
        ≡ map numbered_of members.old.items
        ++ sorted_members true (numbered_from next.old.all next.old.ex (form_of nf.now))) }
    ensures all { OnOk result (next.new.all ≡ alls (form_of nf.now) + next.old.all) }
    ensures ex { OnOk result (next.new.ex ≡ exs (form_of nf.now) + next.old.ex) }
{
    if let Nf::And(a, b) = nf {
        add_conjuncts(alloc, a.get(), next, members)?;
        return add_conjuncts(alloc, b.get(), next, members);
    }
    members.push(sort(alloc, nf, next)?)?;
    Ok(())
}

/// Adds the sorted members of the largest chain of `Or` at the top of a form.
#[cycle(sort)]
fn add_disjuncts(
    alloc: Global,
    nf: &Nf,
    next: &mut Next,
    members: &mut Vec<Boxed<Work>>,
) -> Result<(), NoMemory>
    ensures members { OnOk result (map numbered_of members.new.items
        ≡ map numbered_of members.old.items
        ++ sorted_members false (numbered_from next.old.all next.old.ex (form_of nf.now))) }
    ensures all { OnOk result (next.new.all ≡ alls (form_of nf.now) + next.old.all) }
    ensures ex { OnOk result (next.new.ex ≡ exs (form_of nf.now) + next.old.ex) }
{
    if let Nf::Or(a, b) = nf {
        add_disjuncts(alloc, a.get(), next, members)?;
        return add_disjuncts(alloc, b.get(), next, members);
    }
    members.push(sort(alloc, nf, next)?)?;
    Ok(())
}
