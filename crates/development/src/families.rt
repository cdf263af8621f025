//! The origin formulas of eigenvariables.
#![tactic(auto)]

ghost use Rattle.std.specs.Prelude.{◌≡◌, map, true, IfOk};
ghost use Rattle.assemble.specs.Fitting.{body_of, eigenvariable_at, eigenvariable_of, quantified_by};
ghost use Rattle.development.specs.Families.{IsFamily};
ghost use Rattle.development.specs.Places.{IsGiven};
ghost use Rattle.lp_term.specs.Connectives.{bot};
ghost use Rattle.lp_term.specs.LambdaPi.{under_binder};
ghost use Rattle.lp_term.specs.View.{term_of};
ghost use Rattle.nd_term.specs.Eigenvariables.{origin_body};
ghost use Rattle.nd_term.specs.Outputs.{ground_of, output};
ghost use Rattle.nd_term.specs.Places.{eigenvariables};
ghost use Rattle.nd_term.specs.Spots.{value_of, values_of};
ghost use Rattle.nd_term.specs.Translation.{translated, translated_ground};
ghost use Rattle.nd_term.specs.Views.{theory_formula};
ghost use Rattle.skolem_order.specs.Origins.{spot_of};

use crate::given::Given;
use crate::lets::place_of;
use dk_syntax::{Formula, NoMemory, Seq, Term};
use lp_term::Lp;
use nd_term::build::falsity;
use nd_term::{Place, Spot, Value, replaced};
use skolem_order::{Source, Walk, find, origin_for, terms_around};
use std::alloc::Global;

/// The sign of an eigenvariable's origin formula, and its body below the variable of its quantifier.
#[derive(Drop)]
pub struct Family {
    pub positive: bool,
    pub body: Lp,
}

/// The terms, with variables for their Skolem terms.
fn replaced_each(alloc: Global, place: &Place<'_>, terms: &[Term]) -> Result<Seq<Term>, NoMemory>
    ensures { IfOk result (λ all. map ground_of all
        ≡ map (output place.now.symbols.now place.now.order.now) terms.now) }
{
    let mut all = Seq::from_vec(Vec::new(alloc));
    for term in terms {
        all.push(replaced(alloc, place, term)?)?;
    }
    Ok(all)
}

/// The terms as values.
fn values_from(alloc: Global, terms: &[Term]) -> Result<Vec<Value<'_>>, NoMemory>
    ensures { IfOk result (λ all. map value_of all.items ≡ map ground_of terms.now) }
{
    let mut all = Vec::new(alloc);
    for term in terms {
        all.push(Value::Ground(term))?;
    }
    Ok(all)
}

/// The body of a quantified formula with these values for its variables.
fn body_at(
    alloc: Global,
    f: &Formula,
    place: &Place<'_>,
    values: &[Value<'_>],
) -> Result<Lp, NoMemory>
    ensures { IfOk result (λ t. term_of t ≡ translated
        (under_binder (λ n. translated_ground (eigenvariables place.now) (values_of values.now n)))
        (theory_formula (body_of f.now))) }
{
    let spot = Spot {
        place,
        values,
        extra: 0,
        left: 0,
    };
    match f {
        Formula::All(a) => spot.body(alloc, a.get()),
        Formula::Ex(a) => spot.body(alloc, a.get()),
        Formula::True | Formula::False | Formula::Atom(_, _) | Formula::Not(_) => falsity(alloc),
        Formula::And(_, _) | Formula::Or(_, _) | Formula::Imp(_, _) | Formula::Iff(_, _) => {
            falsity(alloc)
        }
    }
}

/// Where there is no origin.
fn no_family(alloc: Global) -> Result<Family, NoMemory>
    ensures { IfOk result (λ one. (one.positive ≡ true) × (term_of one.body ≡ bot)) }
{
    let body = falsity(alloc)?;
    Ok(Family {
        positive: true,
        body,
    })
}

/// The body of a quantified formula, where these terms are put for the quantifiers around it.
fn body_with(
    alloc: Global,
    given: &Given<'_, '_>,
    f: &Formula,
    terms: &[Term],
    there: &Place<'_>,
) -> Result<Lp, NoMemory>
    requires { IsGiven given.now }
    ensures { IfOk result (λ t. term_of t ≡ origin_body (eigenvariables there.now)
        (quantified_by given.now.plan.now.origins.list given.now.plan.now.order true f.now
        terms.now)) }
{
    let place = place_of(given, there.level);
    let outputs = replaced_each(alloc, &place, terms)?;
    let values = values_from(alloc, outputs.as_slice())?;
    body_at(alloc, f, there, values.as_slice())
}

/// The family of a Skolem term whose origin is known.
fn family_from(
    alloc: Global,
    given: &Given<'_, '_>,
    source: &Source<'_>,
    there: &Place<'_>,
) -> Result<Family, NoMemory>
    requires { IsGiven given.now }
    ensures { IfOk result (IsFamily (eigenvariables there.now)
        (eigenvariable_at given.now.plan.now.origins.list given.now.plan.now.order
        source.now.args.now source.now.origin.now (spot_of source.now.origin.now))) }
{
    let mut walk = Walk {
        around: Vec::new(alloc),
        all: 0,
        ex: 0,
    };
    let origin = source.origin;
    let Some(hit) = find(&mut walk, &origin.leaf, origin.sign, origin.ex)? else {
        return no_family(alloc);
    };
    let Walk {
        around,
        all: _,
        ex: _,
    } = walk;
    let terms = terms_around(alloc, source, around)?;
    let body = body_with(alloc, given, hit.formula, terms.as_slice(), there)?;
    Ok(Family {
        positive: hit.positive,
        body,
    })
}

/// The family of a needed Skolem term.
pub fn family_of(
    alloc: Global,
    given: &Given<'_, '_>,
    t: &Term,
    there: &Place<'_>,
) -> Result<Family, NoMemory>
    requires { IsGiven given.now }
    ensures { IfOk result (IsFamily (eigenvariables there.now)
        (eigenvariable_of given.now.plan.now.origins.list given.now.plan.now.order t.now)) }
{
    let Term::App(symbol, args) = t else {
        return no_family(alloc);
    };
    match origin_for(given.plan.origins.list.as_slice(), symbol) {
        Some(origin) => family_from(alloc, given, &Source { origin, args }, there),
        None => no_family(alloc),
    }
}
