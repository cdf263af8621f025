//! The map that leads from one form to another.
#![tactic(auto, using(crate::proofs::ValueSteps::walk_steps))]

ghost use Rattle.std.specs.Prelude.{◌≡◌, [], None, Some, IfOk, IsTrue, MatchOption};
ghost use Rattle.normal_form.specs.FormFacts.{HasNoVacuous};
ghost use Rattle.normal_form.specs.Forms.{ex, form_of};
ghost use Rattle.step_skolem.specs.Images.{HasNoImage, IsImage, entry};
ghost use Rattle.step_skolem.specs.Levels.{Passes};
ghost use Rattle.step_skolem.specs.Searching.{found, found_from, found_replaced, found_under, replacement_of, some_if};

use crate::fitting::{Fit, fit_for};
use crate::imaging::{image_under, level_of};
use crate::map::{SkEntry, SkMap, sum_of};
use crate::seeing::{Applied, is_row_within};
use crate::walk::{Quantifier, Replacement, Value, Walk, from_level};
use dk_syntax::{NoMemory, Seq};
use normal_form::{Nf, nf_eq};
use std::alloc::Global;

/// The one map that leads from a form without a vacuous quantifier to another form, which is empty where the two are
/// equal, or `None` where no map does. A map that is answered leads there whatever the first form is.
pub fn skolem_image(alloc: Global, from: &Nf, to: &Nf) -> Result<Option<SkMap>, NoMemory>
    ensures { IfOk result (λ answer. MatchOption answer
        (HasNoVacuous (form_of from.now) → HasNoImage from.now to.now)
        (λ map. IsImage from.now map.entries to.now)) }
{
    match candidate(alloc, from, to)? {
        Some(map) => {
            let image = image_under(alloc, from, &map)?;
            if nf_eq(&image, to) {
                Ok(Some(map))
            } else {
                Ok(None)
            }
        }
        None => Ok(None),
    }
}

/// The only map that may lead from the form to the other, if there is one; its image is not compared.
fn candidate(alloc: Global, from: &Nf, to: &Nf) -> Result<Option<SkMap>, NoMemory>
    ensures { IfOk result (λ answer. MatchOption answer
        (found [] [] 0 0 (form_of from.now) (form_of to.now) [] ≡ None)
        (λ map. found [] [] 0 0 (form_of from.now) (form_of to.now) [] ≡ Some map.entries)) }
{
    let mut walk = Walk {
        kept: Vec::new(alloc),
        values: Vec::new(alloc),
        next_all: 0,
        next_ex: 0,
        taken: 0,
    };
    let mut entries = Seq::new(alloc);
    if search(alloc, &mut walk, &mut entries, from, to)? {
        Ok(Some(SkMap { entries }))
    } else {
        Ok(None)
    }
}

/// Walks over both forms and adds the entries of the map. Whether the shapes allow one.
#[cycle(search)]
fn search(
    alloc: Global,
    walk: &mut Walk,
    entries: &mut Seq<SkEntry>,
    from: &Nf,
    to: &Nf,
) -> Result<bool, NoMemory>
    ensures entries { IfOk result (λ yes. some_if yes entries.new
        ≡ found_from walk.old (form_of from.now) (form_of to.now) entries.old) }
    ensures passes { IfOk result (λ yes. IsTrue yes → Passes walk.old walk.new (form_of from.now)) }
{
    match from {
        Nf::True | Nf::False | Nf::Lit(_) => Ok(true),
        Nf::And(a, b) => match to {
            Nf::And(c, d) => {
                if !search(alloc, walk, entries, a.get(), c.get())? {
                    return Ok(false);
                }
                search(alloc, walk, entries, b.get(), d.get())
            }
            _ => Ok(false),
        },
        Nf::Or(a, b) => match to {
            Nf::Or(c, d) => {
                if !search(alloc, walk, entries, a.get(), c.get())? {
                    return Ok(false);
                }
                search(alloc, walk, entries, b.get(), d.get())
            }
            _ => Ok(false),
        },
        Nf::All(a) => match to {
            Nf::All(c) => {
                let number = walk.next_all;
                walk.next_all = sum_of(number, 1)?;
                let quantifier = Quantifier::Universal(number);
                search_kept(alloc, walk, entries, quantifier, a.get(), c.get())
            }
            _ => Ok(false),
        },
        Nf::Ex(a) => search_existential(alloc, walk, entries, a.get(), to),
    }
}

/// The same of an existential's body, where the row in the other form tells whether it is replaced.
#[cycle(search)]
fn search_existential(
    alloc: Global,
    walk: &mut Walk,
    entries: &mut Seq<SkEntry>,
    a: &Nf,
    to: &Nf,
) -> Result<bool, NoMemory>
    ensures entries { IfOk result (λ yes. some_if yes entries.new
        ≡ found_from walk.old (ex (form_of a.now)) (form_of to.now) entries.old) }
    ensures passes { IfOk result (λ yes. IsTrue yes → Passes walk.old walk.new (ex (form_of a.now))) }
{
    let number = walk.next_ex;
    if is_row_within(to, a) {
        return match fit_for(alloc, walk, a, to)? {
            Some(fit) => {
                walk.next_ex = sum_of(number, 1)?;
                search_replaced(alloc, walk, entries, number, fit, a, to)
            }
            None => Ok(false),
        };
    }
    match to {
        Nf::Ex(c) => {
            walk.next_ex = sum_of(number, 1)?;
            search_kept(alloc, walk, entries, Quantifier::Existential, a, c.get())
        }
        _ => Ok(false),
    }
}

/// The same of a quantifier's body, where the quantifier is kept.
#[cycle(search)]
fn search_kept(
    alloc: Global,
    walk: &mut Walk,
    entries: &mut Seq<SkEntry>,
    quantifier: Quantifier,
    a: &Nf,
    to: &Nf,
) -> Result<bool, NoMemory>
    ensures entries { IfOk result (λ yes. some_if yes entries.new
        ≡ found_under walk.old quantifier (form_of a.now) (form_of to.now) entries.old) }
    ensures passes { IfOk result (λ yes. IsTrue yes → Passes walk.old walk.new (form_of a.now)) }
{
    let depth = walk.kept.len();
    let bound = walk.values.len();
    let level = level_of(depth)?;
    walk.kept.push(quantifier)?;
    walk.values.push(Value::Kept(level))?;
    let yes = search(alloc, walk, entries, a, to)?;
    walk.kept.truncate(depth);
    walk.values.truncate(bound);
    Ok(yes)
}

/// The same of an existential's body, where the existential is replaced.
#[cycle(search)]
fn search_replaced(
    alloc: Global,
    walk: &mut Walk,
    entries: &mut Seq<SkEntry>,
    number: u32,
    fit: Fit,
    a: &Nf,
    to: &Nf,
) -> Result<bool, NoMemory>
    ensures entries { IfOk result (λ yes. some_if yes entries.new
        ≡ found_replaced walk.old number fit (form_of a.now) (form_of to.now) entries.old) }
    ensures passes { IfOk result (λ yes. IsTrue yes → Passes walk.old walk.new (form_of a.now)) }
{
    let bound = walk.values.len();
    let replacement = replacement_from(alloc, walk.kept.len(), &fit.applied)?;
    walk.values.push(Value::Replaced(replacement))?;
    entries.push(entry_from(number, fit))?;
    let yes = search(alloc, walk, entries, a, to)?;
    walk.values.truncate(bound);
    Ok(yes)
}

fn entry_from(number: u32, fit: Fit) -> SkEntry
    ensures { result ≡ entry number fit.applied.symbol fit.args }
{
    let Fit { applied, args } = fit;
    let Applied {
        symbol,
        variables: _,
    } = applied;
    SkEntry {
        ex: number,
        symbol,
        args,
    }
}

/// The symbol with the levels of its variables.
fn replacement_from(alloc: Global, depth: usize, applied: &Applied) -> Result<Replacement, NoMemory>
    ensures { IfOk result (λ there. there ≡ replacement_of depth applied.now) }
{
    let mut levels = Seq::from_vec(Vec::with_capacity(alloc, applied.variables.len())?);
    for variable in applied.variables.as_slice() {
        levels.push(level_of(from_level(depth, *variable))?)?;
    }
    Ok(Replacement {
        symbol: applied.symbol.copy(alloc)?,
        levels,
    })
}
