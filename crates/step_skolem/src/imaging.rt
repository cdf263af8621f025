//! The image of a form under a map.
#![tactic(auto, using(crate::proofs::ValueSteps::walk_steps))]

ghost use Rattle.std.specs.Prelude.{◌≡◌, ◌<◌, drop, length, reverse, IfOk, OnOk};
ghost use Rattle.normal_form.specs.Forms.{form_of};
ghost use Rattle.normal_form.specs.declared.form.Nf.{Nf as Form};
ghost use Rattle.step_skolem.specs.Images.{IsImage};
ghost use Rattle.step_skolem.specs.Levels.{Passes, level_in as level_of_number, ran_from, ran_replaced, ran_under, replacement_in};

use crate::map::{SkEntry, SkMap, sum_of};
use crate::walk::{Quantifier, Replacement, Value, Walk, instance_at};
use dk_syntax::{Boxed, NoMemory, Seq};
use normal_form::Nf;
use std::alloc::Global;

/// The form to which a map leads. Where the map is none of the form, nothing is said of the answer.
pub fn image_under(alloc: Global, from: &Nf, map: &SkMap) -> Result<Nf, NoMemory>
    ensures { (image : Form) → IsImage from.now map.now.entries image
        → IfOk result (λ answer. answer ≡ image) }
{
    let mut walk = Walk {
        kept: Vec::new(alloc),
        values: Vec::new(alloc),
        next_all: 0,
        next_ex: 0,
        taken: 0,
    };
    run(alloc, &mut walk, map.entries.as_slice(), from)
}

#[cycle(run)]
fn run(alloc: Global, walk: &mut Walk, entries: &[SkEntry], nf: &Nf) -> Result<Nf, NoMemory>
    ensures form { IfOk result (λ form. form_of form
        ≡ (ran_from walk.old (form_of nf.now) entries.now).0) }
    ensures left { OnOk result (drop walk.new.taken entries.now
        ≡ (ran_from walk.old (form_of nf.now) entries.now).1) }
    ensures passes { OnOk result (Passes walk.old walk.new (form_of nf.now)) }
{
    match nf {
        Nf::True => Ok(Nf::True),
        Nf::False => Ok(Nf::False),
        Nf::Lit(literal) => Ok(Nf::Lit(instance_at(alloc, walk, literal)?)),
        Nf::And(a, b) => {
            let a = run(alloc, walk, entries, a.get())?;
            let b = run(alloc, walk, entries, b.get())?;
            Ok(Nf::And(Boxed::new(alloc, a)?, Boxed::new(alloc, b)?))
        }
        Nf::Or(a, b) => {
            let a = run(alloc, walk, entries, a.get())?;
            let b = run(alloc, walk, entries, b.get())?;
            Ok(Nf::Or(Boxed::new(alloc, a)?, Boxed::new(alloc, b)?))
        }
        Nf::All(a) => {
            let number = walk.next_all;
            walk.next_all = sum_of(number, 1)?;
            let a = run_kept(alloc, walk, entries, Quantifier::Universal(number), a.get())?;
            Ok(Nf::All(Boxed::new(alloc, a)?))
        }
        Nf::Ex(a) => {
            let number = walk.next_ex;
            walk.next_ex = sum_of(number, 1)?;
            if walk.taken < entries.len() && entries[walk.taken].ex == number {
                return run_replaced(alloc, walk, entries, a.get());
            }
            let a = run_kept(alloc, walk, entries, Quantifier::Existential, a.get())?;
            Ok(Nf::Ex(Boxed::new(alloc, a)?))
        }
    }
}

/// The image of a quantifier's body, where the quantifier is kept.
#[cycle(run)]
fn run_kept(
    alloc: Global,
    walk: &mut Walk,
    entries: &[SkEntry],
    quantifier: Quantifier,
    a: &Nf,
) -> Result<Nf, NoMemory>
    ensures form { IfOk result (λ form. form_of form
        ≡ (ran_under walk.old quantifier (form_of a.now) entries.now).0) }
    ensures left { OnOk result (drop walk.new.taken entries.now
        ≡ (ran_under walk.old quantifier (form_of a.now) entries.now).1) }
    ensures passes { OnOk result (Passes walk.old walk.new (form_of a.now)) }
{
    let depth = walk.kept.len();
    let bound = walk.values.len();
    let level = level_of(depth)?;
    walk.kept.push(quantifier)?;
    walk.values.push(Value::Kept(level))?;
    let form = run(alloc, walk, entries, a)?;
    walk.kept.truncate(depth);
    walk.values.truncate(bound);
    Ok(form)
}

/// The image of an existential's body, where the existential is replaced by the next entry.
#[cycle(run)]
fn run_replaced(alloc: Global, walk: &mut Walk, entries: &[SkEntry], a: &Nf) -> Result<Nf, NoMemory>
    requires { walk.old.taken < length entries.now }
    ensures form { IfOk result (λ form. form_of form
        ≡ (ran_replaced walk.old (form_of a.now) entries.now).0) }
    ensures left { OnOk result (drop walk.new.taken entries.now
        ≡ (ran_replaced walk.old (form_of a.now) entries.now).1) }
    ensures passes { OnOk result (Passes walk.old walk.new (form_of a.now)) }
{
    let bound = walk.values.len();
    let replacement = replacement(alloc, walk.kept.as_slice(), &entries[walk.taken])?;
    walk.values.push(Value::Replaced(replacement))?;
    walk.taken += 1;
    let form = run(alloc, walk, entries, a)?;
    walk.values.truncate(bound);
    Ok(form)
}

/// The depth as a level. No memory holds a form with more quantifiers than there are numbers.
pub fn level_of(depth: usize) -> Result<u32, NoMemory>
    ensures { IfOk result (λ level. level ≡ depth) }
{
    match u32::try_from(depth) {
        Ok(level) => Ok(level),
        Err(_) => Err(NoMemory),
    }
}

/// The entry's symbol, with the levels of its universals among the kept quantifiers.
fn replacement(alloc: Global, kept: &[Quantifier], one: &SkEntry) -> Result<Replacement, NoMemory>
    ensures { IfOk result (λ there. there ≡ replacement_in (reverse kept.now) one.now) }
{
    let mut levels = Seq::new(alloc);
    for number in one.args.as_slice() {
        levels.push(level_of(level_in(kept, *number))?)?;
    }
    Ok(Replacement {
        symbol: one.symbol.copy(alloc)?,
        levels,
    })
}

/// The level of the inmost kept universal with that number.
fn level_in(kept: &[Quantifier], number: u32) -> usize
    ensures { result ≡ level_of_number (reverse kept.now) number }
{
    let mut level = 0;
    for (place, quantifier) in kept.iter().enumerate() {
        if let Quantifier::Universal(other) = quantifier {
            if *other == number {
                level = place;
            }
        }
    }
    level
}
