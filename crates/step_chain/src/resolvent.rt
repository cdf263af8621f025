//! Exact resolvents of two clauses.
ghost use Rattle.std.specs.Prelude.{◌≡◌, ◌+◌, ◌++◌, [], length, map, IfOk};
ghost use Rattle.dk_syntax.specs.Terms.{substituted};
ghost use Rattle.normal_form.specs.ClauseLists.{clause_over, quants_of};
ghost use Rattle.step_clause.specs.Justifications.{IsNumbered};
ghost use Rattle.unifier.specs.Substitution.{value};
ghost use Rattle.step_chain.specs.Pairs.{HasChosen};
ghost use Rattle.step_chain.specs.Resolvents.{closed_terms_over, IsOnce, kept, resolution_by};
ghost use Rattle.step_chain.specs.Resolving.{AreContained, AreInstancePicks, IsMade, IsPair, IsResolventOf, slot_instance};

use crate::choosing::Chosen;
use crate::closing::{close_literals, closed_values};
use crate::numbering::{number_of, variables_in};
use crate::once::{add_once, any_taken, picks_of};
use crate::pair::{Pair, Slot};
use dk_syntax::{Clause, Literal, NoMemory, Seq, Term};
use std::alloc::Global;
use step_clause::Justification;
use unifier::{Subst, apply, settled};

/// A clause and its justification.
#[derive(Drop)]
pub struct Resolvent {
    pub clause: Clause,
    pub step: Justification,
}

/// What the justification says of one of the two clauses: its literals' picks, and its variables' terms.
#[derive(Drop)]
struct Part {
    picks: Seq<u32>,
    terms: Seq<Term>,
}

fn apply_each(alloc: Global, solution: &Subst, terms: &[Term]) -> Result<Seq<Term>, NoMemory>
    ensures { IfOk result (λ all. all ≡ map (substituted (value solution.now.terms)) terms.now) }
{
    let mut all = Seq::from_vec(Vec::new(alloc));
    for term in terms {
        all.push(apply(alloc, solution, term)?)?;
    }
    Ok(all)
}

/// The literals with each bound variable replaced.
fn instances(alloc: Global, solution: &Subst, slots: &[Slot]) -> Result<Seq<Literal>, NoMemory>
    ensures { IfOk result (λ all. all ≡ map (slot_instance (value solution.now.terms)) slots.now) }
{
    let mut all = Seq::from_vec(Vec::new(alloc));
    for slot in slots {
        let pred = slot.literal.pred.copy(alloc)?;
        let args = apply_each(alloc, solution, slot.literal.args.as_slice())?;
        all.push(Literal {
            positive: slot.literal.positive,
            pred,
            args,
        })?;
    }
    Ok(all)
}

/// The clause of these literals, with variables numbered by first occurrence.
fn clause_of(alloc: Global, lits: &[Literal], variables: &[u32]) -> Result<Clause, NoMemory>
    requires { variables.now ≡ quants_of lits.now }
    ensures { IfOk result (λ clause. clause ≡ clause_over (quants_of lits.now) lits.now) }
{
    let vars = number_of(variables.len())?;
    let lits = close_literals(alloc, lits, variables)?;
    Ok(Clause { vars, lits })
}

/// The literals that aren't taken, each once.
fn left_once(
    alloc: Global,
    ones: &[Literal],
    taken: &[bool],
    twos: &[Literal],
    others: &[bool],
) -> Result<Seq<Literal>, NoMemory>
    requires ones { length taken.now ≡ length ones.now }
    requires twos { length others.now ≡ length twos.now }
    ensures once { IfOk result (λ lits. IsOnce [] (kept ones.now taken.now
        ++ kept twos.now others.now) lits) }
    ensures ones { IfOk result (λ lits. AreContained lits (kept ones.now taken.now)) }
    ensures twos { IfOk result (λ lits. AreContained lits (kept twos.now others.now)) }
{
    let mut lits = Seq::from_vec(Vec::new(alloc));
    add_once(alloc, &mut lits, ones, taken)?;
    add_once(alloc, &mut lits, twos, others)?;
    Ok(lits)
}

/// The resolution of the two clauses, the positive one first.
fn resolution(pair: &Pair, part: Part, other: Part) -> Justification
    ensures { result ≡ resolution_by pair.now.sign pair.now.number pair.now.other part.picks
        other.picks part.terms other.terms }
{
    let Part { picks, terms } = part;
    let Part {
        picks: other_picks,
        terms: other_terms,
    } = other;
    if pair.sign {
        return Justification::Resolve {
            pos_parent: 0,
            pos_clause: pair.number,
            neg_parent: 1,
            neg_clause: pair.other,
            pos_picks: picks,
            neg_picks: other_picks,
            pos_terms: terms,
            neg_terms: other_terms,
        };
    }
    Justification::Resolve {
        pos_parent: 1,
        pos_clause: pair.other,
        neg_parent: 0,
        neg_clause: pair.number,
        pos_picks: other_picks,
        neg_picks: picks,
        pos_terms: other_terms,
        neg_terms: terms,
    }
}

/// What the justification says of one of the clauses, whose variables are that many from `from` on.
fn part_of(
    alloc: Global,
    solution: &Subst,
    lits: &[Literal],
    variables: &[u32],
    literals: &[Literal],
    taken: &[bool],
    from: u32,
    count: u32,
) -> Result<Part, NoMemory>
    requires long { length taken.now ≡ length literals.now }
    requires there { AreContained lits.now (kept literals.now taken.now) }
    ensures picks { IfOk result (λ part. AreInstancePicks lits.now literals.now taken.now
        part.picks) }
    ensures terms { IfOk result (λ part. part.terms ≡ closed_terms_over variables.now count
        (λ j. value solution.now.terms (from + j))) }
{
    let picks = picks_of(alloc, lits, literals, taken)?;
    let terms = closed_values(alloc, solution, variables, from, count)?;
    Ok(Part { picks, terms })
}

/// The resolvent from the instances of the literals under the solution.
fn resolve_instances(
    alloc: Global,
    first: &Clause,
    second: &Clause,
    pair: &Pair,
    solution: &Subst,
    ones: &[Literal],
    taken: &[bool],
    twos: &[Literal],
    others: &[bool],
) -> Result<Resolvent, NoMemory>
    requires ones { length taken.now ≡ length ones.now }
    requires twos { length others.now ≡ length twos.now }
    ensures { IfOk result (λ it. IsMade first.now second.now pair.now (value solution.now.terms)
        ones.now taken.now twos.now others.now it) }
{
    let lits = left_once(alloc, ones, taken, twos, others)?;
    let variables = variables_in(alloc, lits.as_slice())?;
    let part = part_of(
        alloc,
        solution,
        lits.as_slice(),
        variables.as_slice(),
        ones,
        taken,
        0,
        first.vars,
    )?;
    let other = part_of(
        alloc,
        solution,
        lits.as_slice(),
        variables.as_slice(),
        twos,
        others,
        first.vars,
        second.vars,
    )?;
    let clause = clause_of(alloc, lits.as_slice(), variables.as_slice())?;
    let step = resolution(pair, part, other);
    Ok(Resolvent { clause, step })
}

/// The exact resolvent of the two clauses where all is chosen, or `None` where nothing is taken in one of them.
pub fn resolve_pair(
    alloc: Global,
    first: &Clause,
    second: &Clause,
    pair: &Pair,
    chosen: &Chosen,
) -> Result<Option<Resolvent>, NoMemory>
    requires first { IsNumbered first.now }
    requires second { IsNumbered second.now }
    requires pair { IsPair first.now second.now pair.now }
    requires chosen { HasChosen pair.now.slots chosen.now }
    requires all { length chosen.now.taken ≡ length pair.now.slots }
    ensures { IfOk result (λ answer. IsResolventOf first.now second.now pair.now chosen.now.taken
        answer) }
{
    let size = first.lits.len();
    let (taken, others) = chosen.taken.as_slice().split_at(size);
    if !any_taken(taken) {
        return Ok(None);
    }
    if !any_taken(others) {
        return Ok(None);
    }
    let solution = settled(alloc, &chosen.bindings)?;
    let (slots, other_slots) = pair.slots.as_slice().split_at(size);
    let ones = instances(alloc, &solution, slots)?;
    let twos = instances(alloc, &solution, other_slots)?;
    let it = resolve_instances(
        alloc,
        first,
        second,
        pair,
        &solution,
        ones.as_slice(),
        taken,
        twos.as_slice(),
        others,
    )?;
    Ok(Some(it))
}
