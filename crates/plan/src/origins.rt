//! The origins of the symbols that the steps introduce.
ghost use Rattle.std.specs.Prelude.{◌≡◌, Ok, IfOk, map};
ghost use Rattle.std.specs.Option.{option_copied};
ghost use Rattle.ground_instances.specs.Keys.{Has, judged_by};
ghost use Rattle.ground_instances.specs.Verdicts.{AreRightVerdicts};
ghost use Rattle.derivation_graph.specs.Graphs.{IsGraphAnswer};
ghost use Rattle.plan.specs.Known.{AreIntroduced, AreNamed, AreOriginsBy, HasFirst, IsOriginBy, IsRightGiven, first_named, judged_given};
ghost use Rattle.plan.specs.Maps.{AreStepMaps, IsStepMap};
ghost use Rattle.plan.specs.Origins.{AreOrigins, AreOriginsOf};
ghost use Rattle.step_check.specs.Freshness.{introduced};
ghost use Rattle.step_check.specs.Steps.{nodes_of};

use crate::given::{Given, step_at, verdict_at};
use crate::maps::{StepMap, map_of_step};
use derivation_graph::Graph;
use dk_syntax::{Formula, NoMemory, Seq, SymKey};
use skolem_order::{Origin, Origins};
use std::alloc::Global;
use step_check::{Verdict, Verdicts};
use step_skolem::SkEntry;
use tstp_trace::Trace;

/// The entries of a step's own map.
fn own_entries(verdict: &Verdict) -> &[SkEntry]
    ensures { map (λ one. one.symbol) result.now ≡ introduced verdict.entry.now }
{
    match verdict {
        Verdict::Structural(own) => own.entries.as_slice(),
        Verdict::Composes(composed) => composed.map.entries.as_slice(),
        Verdict::Leaf => &[],
        Verdict::Conjecture => &[],
        Verdict::Clausal(_) => &[],
        Verdict::Chained(_) => &[],
        Verdict::Wrong(_) => &[],
        Verdict::Over(_) => &[],
    }
}

/// The first entry with that symbol.
fn first_entry<'e>(entries: &'e [SkEntry], symbol: &SymKey) -> Option<&'e SkEntry>
    ensures { option_copied result ≡ first_named entries.entry.now symbol.now }
{
    for one in entries {
        if one.symbol.same(symbol) {
            return Some(one);
        }
    }
    None
}

/// The origin of a symbol in the step's map.
fn origin_by(
    alloc: Global,
    leaf: &Formula,
    it: &StepMap,
    symbol: &SymKey,
) -> Result<Origin, NoMemory>
    requires { HasFirst it.now.map.entries symbol.now }
    ensures { IfOk result (λ origin. IsOriginBy leaf.now it.now symbol.now origin) }
{
    match first_entry(it.map.entries.as_slice(), symbol) {
        None => unreachable!(),
        Some(one) => {
            let name = symbol.copy(alloc)?;
            let formula = leaf.copy(alloc)?;
            let map = it.map.copy(alloc)?;
            Ok(Origin {
                symbol: name,
                leaf: formula,
                sign: it.sign,
                ex: one.ex,
                map,
            })
        }
    }
}

/// The origins of the symbols of these entries, which stand in the step's map.
fn origins_by(
    alloc: Global,
    leaf: &Formula,
    it: &StepMap,
    own: &[SkEntry],
) -> Result<Vec<Origin>, NoMemory>
    requires { AreNamed it.now.map.entries own.now }
    ensures { IfOk result (λ here. AreOriginsBy leaf.now it.now (map (λ one. one.symbol) own.now)
        here.items) }
{
    let mut here = Vec::new(alloc);
    for one in own {
        let origin = origin_by(alloc, leaf, it, &one.symbol)?;
        here.push(origin)?;
    }
    Ok(here)
}

/// The origins of the symbols that a step with that map introduces.
fn origins_with(
    alloc: Global,
    given: &Given<'_>,
    number: u32,
    it: &StepMap,
    verdict: &Verdict,
) -> Result<Vec<Origin>, NoMemory>
    requires right { IsRightGiven given.now }
    requires map { IsStepMap (judged_given given.now) number it.now }
    requires here { Has (judged_given given.now) number verdict.now }
    ensures { IfOk result (λ here. AreOriginsOf (judged_given given.now) number
        (introduced verdict.now) here.items) }
{
    let own = own_entries(verdict);
    match step_at(given.steps, it.leaf) {
        None => unreachable!(),
        Some(leaf) => origins_by(alloc, &leaf.formula, it, own),
    }
}

/// The origins of the symbols that a step introduces.
fn origins_here(
    alloc: Global,
    given: &Given<'_>,
    maps: &[Option<StepMap>],
    number: u32,
    verdict: &Verdict,
) -> Result<Vec<Origin>, NoMemory>
    requires right { IsRightGiven given.now }
    requires maps { AreStepMaps (judged_given given.now) maps.now }
    requires here { Has (judged_given given.now) number verdict.now }
    ensures { IfOk result (λ here. AreOriginsOf (judged_given given.now) number
        (introduced verdict.now) here.items) }
{
    match map_of_step(maps, number) {
        None => Ok(Vec::new(alloc)),
        Some(it) => origins_with(alloc, given, number, it, verdict),
    }
}

/// The same of the step of that number.
fn origins_at(
    alloc: Global,
    given: &Given<'_>,
    maps: &[Option<StepMap>],
    number: u32,
) -> Result<Vec<Origin>, NoMemory>
    requires right { IsRightGiven given.now }
    requires maps { AreStepMaps (judged_given given.now) maps.now }
    ensures { IfOk result (λ here. AreIntroduced (judged_given given.now) number here.items) }
{
    match verdict_at(given.verdicts, number) {
        None => Ok(Vec::new(alloc)),
        Some(verdict) => origins_here(alloc, given, maps, number, verdict),
    }
}

/// The origins of all steps.
fn all_origins(
    alloc: Global,
    given: &Given<'_>,
    maps: &[Option<StepMap>],
) -> Result<Vec<Origin>, NoMemory>
    requires right { IsRightGiven given.now }
    requires maps { AreStepMaps (judged_given given.now) maps.now }
    ensures { IfOk result (λ list. AreOrigins (judged_given given.now) list.items) }
{
    let Ok(count) = u32::try_from(given.verdicts.len()) else {
        return Err(NoMemory);
    };
    let mut list = Vec::new(alloc);
    for place in 0..count {
        let mut here = origins_at(alloc, given, maps, place + 1)?;
        list.append(&mut here)?;
    }
    Ok(list)
}

/// The origins of the symbols that the steps introduce, in the order of the steps and of their
/// symbols, by the maps of the steps.
pub fn origins_of(
    alloc: Global,
    trace: &Trace,
    graph: &Graph,
    verdicts: &Verdicts,
    maps: &[Option<StepMap>],
) -> Result<Origins, NoMemory>
    requires graph { IsGraphAnswer (nodes_of trace.now) (Ok graph.now) }
    requires right { AreRightVerdicts trace.now graph.now verdicts.now }
    requires maps { AreStepMaps (judged_by trace.now graph.now verdicts.now) maps.now }
    ensures { IfOk result (λ origins. AreOrigins (judged_by trace.now graph.now verdicts.now)
        origins.list) }
{
    let steps = trace.steps.as_slice();
    let rows = graph.parents.as_slice();
    let verdicts = verdicts.list.as_slice();
    let given = Given {
        steps,
        rows,
        verdicts,
    };
    let list = all_origins(alloc, &given, maps)?;
    Ok(Origins {
        list: Seq::from_vec(list),
    })
}
