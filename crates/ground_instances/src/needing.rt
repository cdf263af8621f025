//! The instances that an instance needs.
ghost use Rattle.std.specs.Prelude.{◌≡◌, ◌<◌, [], ◌∷◌, List, length, slice_get, Some, ⊤, IfOk, MatchOption, OnOk};
ghost use Rattle.dk_syntax.specs.declared.Term.{Term as Tree};
ghost use Rattle.ground_instances.specs.Growing.{grounds};
ghost use Rattle.ground_instances.specs.Keys.{Has, Key};
ghost use Rattle.step_clause.specs.declared.justification.Justification.{Justification as Step};
ghost use Rattle.step_compose.specs.declared.composed.Composed.{Composed};
ghost use Rattle.ground_instances.specs.Naming.{AreBaseNeeds, AreNamed, AreNamesFit, AreNeedsOf, IsFit, key_at, key_by, keys_from};
ghost use Rattle.ground_instances.specs.Needs.{named_by};
ghost use Rattle.ground_instances.specs.Notes.{AreFound, AreRight, HasImages, IsNote, judged_given};
ghost use Rattle.ground_instances.specs.Rows.{AreBelow, terms_by};

use crate::entering::enter_terms;
use crate::given::{Given, only_parent, parent_at, verdict_at};
use crate::lists::{ask_fit, note_list};
use crate::naming::{Lists, Named, Place};
use crate::notes::{Note, note_step};
use dk_syntax::{NoMemory, Seq, Term, TermTable};
use normal_form::ClauseList;
use std::alloc::Global;
use std::collections::HashMap;
use step_chain::Chain;
use step_check::Verdict;
use step_clause::Justification;

/// What is known of steps: their notes and their clause lists.
#[derive(Drop)]
pub struct Found {
    pub notes: HashMap<u32, Note>,
    pub lists: HashMap<u32, ClauseList>,
}

/// The place of a clause for a chain that goes on after so many middle clauses.
fn stage_place(given: &Given<'_>, at: Place, mids: u32, list: u32, clause: u32) -> Place
    ensures { (terms : List Tree) → key_at result terms
        ≡ keys_from (judged_given given.now) at (Lists.Stage mids) list clause terms }
{
    if list != 0 {
        return Place {
            step: parent_at(given.rows, at.step, u64::from(mids) + 1),
            stage: 0,
            clause,
        };
    }
    if mids != 0 {
        return Place {
            step: at.step,
            stage: mids,
            clause: at.clause,
        };
    }
    Place {
        step: parent_at(given.rows, at.step, 0),
        stage: 0,
        clause,
    }
}

/// The place of the clause of that number in one of the lists.
fn place_in(given: &Given<'_>, at: Place, lists: Lists, list: u32, clause: u32) -> Place
    ensures { (terms : List Tree) → key_at result terms
        ≡ keys_from (judged_given given.now) at lists list clause terms }
{
    match lists {
        Lists::Parents => Place {
            step: parent_at(given.rows, at.step, u64::from(list)),
            stage: 0,
            clause,
        },
        Lists::Stage(mids) => stage_place(given, at, mids, list, clause),
        Lists::Image => Place {
            step: at.step,
            stage: 1,
            clause,
        },
    }
}

/// The instance of the clause at a place, with these terms.
fn one_need(
    alloc: Global,
    table: &mut TermTable,
    values: &[u32],
    place: Place,
    terms: &[Term],
) -> Result<Seq<Named>, NoMemory>
    requires { AreBelow (length table.old) values.now }
    ensures { IfOk result (λ names. AreNamed table.old
        (key_at place (grounds table.old values.now terms.now) ∷ []) table.new names) }
{
    let terms = enter_terms(alloc, table, values, terms)?;
    let mut names = Seq::new(alloc);
    names.push(Named { place, terms })?;
    Ok(names)
}

/// Two instances, one after the other.
fn two_needs(
    alloc: Global,
    table: &mut TermTable,
    values: &[u32],
    place: Place,
    terms: &[Term],
    other: Place,
    other_terms: &[Term],
) -> Result<Seq<Named>, NoMemory>
    requires { AreBelow (length table.old) values.now }
    ensures { IfOk result (λ names. AreNamed table.old
        (key_at place (grounds table.old values.now terms.now)
        ∷ key_at other (grounds table.old values.now other_terms.now) ∷ []) table.new names) }
{
    let mut names = one_need(alloc, table, values, place, terms)?;
    let terms = enter_terms(alloc, table, values, other_terms)?;
    names.push(Named {
        place: other,
        terms,
    })?;
    Ok(names)
}

/// The instances that a justification is from, the positive one first.
fn needs_by(
    alloc: Global,
    given: &Given<'_>,
    table: &mut TermTable,
    named: &Named,
    lists: Lists,
    step: &Justification,
) -> Result<Seq<Named>, NoMemory>
    requires { AreBelow (length table.old) named.now.terms }
    ensures { IfOk result (λ names. AreNamed table.old
        (named_by (keys_from (judged_given given.now) named.now.place lists)
        (terms_by table.old named.now.terms) step.now) table.new names) }
{
    let values = named.terms.as_slice();
    match step {
        Justification::Subsume {
            parent,
            clause,
            terms,
            ..
        } => {
            let place = place_in(given, named.place, lists, *parent, *clause);
            one_need(alloc, table, values, place, terms.as_slice())
        }
        Justification::Resolve {
            pos_parent,
            pos_clause,
            neg_parent,
            neg_clause,
            pos_terms,
            neg_terms,
            ..
        } => {
            let place = place_in(given, named.place, lists, *pos_parent, *pos_clause);
            let other = place_in(given, named.place, lists, *neg_parent, *neg_clause);
            two_needs(
                alloc,
                table,
                values,
                place,
                pos_terms.as_slice(),
                other,
                neg_terms.as_slice(),
            )
        }
    }
}

/// What the same clause needs at the base of a step that is noted.
fn base_needs(
    alloc: Global,
    given: &Given<'_>,
    notes: &HashMap<u32, Note>,
    table: &TermTable,
    named: &Named,
    step: u32,
) -> Result<Seq<Named>, NoMemory>
    requires right { AreRight (IsNote (judged_given given.now)) notes.now }
    requires below { AreBelow (length table.now) named.now.terms }
    ensures { IfOk result (λ names. (keys : List Key)
        × AreBaseNeeds (judged_given given.now) step named.now.place.clause
        (terms_by table.now named.now.terms) keys × AreNamed table.now keys table.now names) }
{
    let mut names = Seq::new(alloc);
    let Some(note) = notes.get(&step) else {
        return Err(NoMemory);
    };
    if note.is_leaf {
        return Ok(names);
    }
    let base = Place {
        step: note.base,
        stage: 0,
        clause: named.place.clause,
    };
    let terms = Seq::from_vec(Vec::from_slice(alloc, named.terms.as_slice())?);
    names.push(Named { place: base, terms })?;
    Ok(names)
}

/// What a clause of a clausal step needs, or one of a composed step of its image.
fn clausal_needs(
    alloc: Global,
    given: &Given<'_>,
    table: &mut TermTable,
    named: &Named,
    lists: Lists,
    steps: &[Justification],
) -> Result<Seq<Named>, NoMemory>
    requires { AreBelow (length table.old) named.now.terms }
    ensures { IfOk result (λ names. (step : Step)
        × (slice_get steps.now named.now.place.clause ≡ Some step) × AreNamed table.old
        (named_by (keys_from (judged_given given.now) named.now.place lists)
        (terms_by table.old named.now.terms) step) table.new names) }
{
    match steps.get(named.place.clause as usize) {
        None => Err(NoMemory),
        Some(step) => needs_by(alloc, given, table, named, lists, step),
    }
}

/// What the clause after so many middle clauses of a chain needs.
fn chain_needs(
    alloc: Global,
    given: &Given<'_>,
    table: &mut TermTable,
    named: &Named,
    chain: &Chain,
    mids: u32,
) -> Result<Seq<Named>, NoMemory>
    requires { AreBelow (length table.old) named.now.terms }
    ensures { IfOk result (λ names. (step : Step)
        × (slice_get chain.now.steps mids ≡ Some step) × AreNamed table.old
        (named_by (keys_from (judged_given given.now) named.now.place (Lists.Stage mids))
        (terms_by table.old named.now.terms) step) table.new names) }
{
    match chain.steps.as_slice().get(mids as usize) {
        None => Err(NoMemory),
        Some(step) => needs_by(alloc, given, table, named, Lists::Stage(mids), step),
    }
}

/// The chain of that number.
fn chain_at(chains: &[Chain], number: u32) -> Option<&Chain>
    ensures { MatchOption result ⊤ (λ chain. slice_get chains.entry.now number ≡ Some chain.now) }
{
    chains.get(number as usize)
}

/// What the target of a chain needs, which comes after all middle clauses.
fn target_needs(
    alloc: Global,
    given: &Given<'_>,
    table: &mut TermTable,
    named: &Named,
    chains: &[Chain],
) -> Result<Seq<Named>, NoMemory>
    requires below { AreBelow (length table.old) named.now.terms }
    requires here { Has (judged_given given.now) named.now.place.step (Verdict.Chained chains.now) }
    requires stage { named.now.place.stage ≡ 0 }
    ensures { IfOk result (λ names. AreNeedsOf (judged_given given.now) table.old
        (key_by table.old named.now) table.new names) }
{
    let Some(chain) = chain_at(chains, named.place.clause) else {
        return Err(NoMemory);
    };
    let Ok(mids) = u32::try_from(chain.mids.len()) else {
        return Err(NoMemory);
    };
    let names = chain_needs(alloc, given, table, named, chain, mids)?;
    Ok(names)
}

/// What a middle clause of a chain needs.
fn middle_needs(
    alloc: Global,
    given: &Given<'_>,
    table: &mut TermTable,
    named: &Named,
    chains: &[Chain],
) -> Result<Seq<Named>, NoMemory>
    requires below { AreBelow (length table.old) named.now.terms }
    requires here { Has (judged_given given.now) named.now.place.step (Verdict.Chained chains.now) }
    requires stage { 0 < named.now.place.stage }
    ensures { IfOk result (λ names. AreNeedsOf (judged_given given.now) table.old
        (key_by table.old named.now) table.new names) }
{
    let Some(chain) = chain_at(chains, named.place.clause) else {
        return Err(NoMemory);
    };
    let names = chain_needs(alloc, given, table, named, chain, named.place.stage - 1)?;
    Ok(names)
}

/// What an instance of a step's own clause needs.
fn own_needs(
    alloc: Global,
    given: &Given<'_>,
    notes: &HashMap<u32, Note>,
    table: &mut TermTable,
    named: &Named,
) -> Result<Seq<Named>, NoMemory>
    requires right { AreRight (IsNote (judged_given given.now)) notes.now }
    requires below { AreBelow (length table.old) named.now.terms }
    requires stage { named.now.place.stage ≡ 0 }
    ensures { IfOk result (λ names. AreNeedsOf (judged_given given.now) table.old
        (key_by table.old named.now) table.new names) }
{
    match verdict_at(given.verdicts, named.place.step) {
        Some(Verdict::Leaf) => Ok(Seq::new(alloc)),
        Some(Verdict::Conjecture) => Ok(Seq::new(alloc)),
        Some(Verdict::Structural(_)) => {
            let names = base_needs(alloc, given, notes, table, named, named.place.step)?;
            Ok(names)
        }
        Some(Verdict::Clausal(steps)) => {
            let steps = steps.as_slice();
            let names = clausal_needs(alloc, given, table, named, Lists::Parents, steps)?;
            Ok(names)
        }
        Some(Verdict::Chained(chains)) => {
            target_needs(alloc, given, table, named, chains.as_slice())
        }
        Some(Verdict::Composes(composed)) => {
            let steps = composed.steps.as_slice();
            let names = clausal_needs(alloc, given, table, named, Lists::Image, steps)?;
            Ok(names)
        }
        _ => Err(NoMemory),
    }
}

/// What an instance of a clause of a composed image needs, whose parent is noted.
fn image_needs(
    alloc: Global,
    given: &Given<'_>,
    notes: &HashMap<u32, Note>,
    table: &TermTable,
    named: &Named,
) -> Result<Seq<Named>, NoMemory>
    requires right { AreRight (IsNote (judged_given given.now)) notes.now }
    requires below { AreBelow (length table.now) named.now.terms }
    requires here { (composed : Composed) × Has (judged_given given.now) named.now.place.step
        (Verdict.Composes composed) }
    requires stage { named.now.place.stage ≡ 1 }
    ensures { IfOk result (λ names. AreNeedsOf (judged_given given.now) table.now
        (key_by table.now named.now) table.now names) }
{
    match only_parent(given.rows, named.place.step) {
        None => Err(NoMemory),
        Some(parent) => {
            let names = base_needs(alloc, given, notes, table, named, parent)?;
            Ok(names)
        }
    }
}

/// What an instance at a later stage needs.
fn staged_needs(
    alloc: Global,
    given: &Given<'_>,
    notes: &HashMap<u32, Note>,
    table: &mut TermTable,
    named: &Named,
) -> Result<Seq<Named>, NoMemory>
    requires right { AreRight (IsNote (judged_given given.now)) notes.now }
    requires below { AreBelow (length table.old) named.now.terms }
    requires stage { 0 < named.now.place.stage }
    ensures { IfOk result (λ names. AreNeedsOf (judged_given given.now) table.old
        (key_by table.old named.now) table.new names) }
{
    match verdict_at(given.verdicts, named.place.step) {
        Some(Verdict::Chained(chains)) => {
            middle_needs(alloc, given, table, named, chains.as_slice())
        }
        Some(Verdict::Composes(_)) if named.place.stage == 1 => {
            image_needs(alloc, given, notes, table, named)
        }
        _ => Err(NoMemory),
    }
}

/// The instances that an instance needs, in order. Where they hang on the base of a step, that step is noted.
pub fn needs_of(
    alloc: Global,
    given: &Given<'_>,
    notes: &HashMap<u32, Note>,
    table: &mut TermTable,
    named: &Named,
) -> Result<Seq<Named>, NoMemory>
    requires right { AreRight (IsNote (judged_given given.now)) notes.now }
    requires below { AreBelow (length table.old) named.now.terms }
    ensures { IfOk result (λ names. AreNeedsOf (judged_given given.now) table.old
        (key_by table.old named.now) table.new names) }
{
    if named.place.stage == 0 {
        return own_needs(alloc, given, notes, table, named);
    }
    staged_needs(alloc, given, notes, table, named)
}

/// Notes the steps that the clause of an instance and what it needs hang on.
fn note_for(
    alloc: Global,
    given: &Given<'_>,
    found: &mut Found,
    named: &Named,
) -> Result<(), NoMemory>
    requires images { HasImages (judged_given given.now) }
    requires right { AreFound (judged_given given.now) found.old }
    ensures { OnOk result (AreFound (judged_given given.now) found.new) }
{
    if named.place.stage == 0 {
        let step = named.place.step;
        note_step(alloc, given, &mut found.notes, step)?;
        note_list(alloc, given, &found.notes, &mut found.lists, step)?;
        return Ok(());
    }
    match only_parent(given.rows, named.place.step) {
        None => Ok(()),
        Some(parent) => {
            note_step(alloc, given, &mut found.notes, parent)?;
            Ok(())
        }
    }
}

/// Notes what an instance hangs on, and asks that it has its clause.
fn prepare_one(
    alloc: Global,
    given: &Given<'_>,
    found: &mut Found,
    named: &Named,
) -> Result<(), NoMemory>
    requires images { HasImages (judged_given given.now) }
    requires right { AreFound (judged_given given.now) found.old }
    ensures right { OnOk result (AreFound (judged_given given.now) found.new) }
    ensures fit { OnOk result ((terms : List Tree) → length terms ≡ length named.now.terms
        → IsFit (judged_given given.now) (key_at named.now.place terms)) }
{
    note_for(alloc, given, found, named)?;
    ask_fit(alloc, given, &found.lists, named)?;
    Ok(())
}

/// The same of each of the instances.
pub fn prepare(
    alloc: Global,
    given: &Given<'_>,
    found: &mut Found,
    names: &[Named],
) -> Result<(), NoMemory>
    requires images { HasImages (judged_given given.now) }
    requires right { AreFound (judged_given given.now) found.old }
    ensures right { OnOk result (AreFound (judged_given given.now) found.new) }
    ensures fit { OnOk result (AreNamesFit (judged_given given.now) names.now) }
{
    for named in names {
        prepare_one(alloc, given, found, named)?;
    }
    Ok(())
}
