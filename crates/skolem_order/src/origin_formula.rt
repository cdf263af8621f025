//! The origin formula of a ground Skolem term.
#![tactic(auto, using(crate::proofs::WalkSteps::formula_steps))]

ghost use Rattle.std.specs.Prelude.{◌≡◌, true, IfOk};
ghost use Rattle.skolem_order.specs.Origins.{formula_at, origin_formula, signed, spot_of};

use crate::origins::{Origins, Signed, origin_for};
use crate::putting::put;
use crate::values::{Source, terms_around};
use crate::walk::{Walk, find};
use dk_syntax::{Formula, NoMemory, Term};
use std::alloc::Global;

/// The origin formula of a ground Skolem term: the signed subformula of its symbol's leaf at the
/// existential that the symbol replaces, with the arguments for their universals, and for each
/// existential around it its own Skolem term. Where the term's head has no origin, or the origin no
/// place, it is `False`.
pub fn origin_of(alloc: Global, o: &Origins, s: &Term) -> Result<Signed, NoMemory>
    ensures { IfOk result (λ formula. formula ≡ origin_formula o.now.list s.now) }
{
    let Term::App(symbol, args) = s else {
        return Ok(no_formula());
    };
    match origin_for(o.list.as_slice(), symbol) {
        Some(origin) => formula_of(alloc, &Source { origin, args }),
        None => Ok(no_formula()),
    }
}

fn formula_of(alloc: Global, source: &Source<'_>) -> Result<Signed, NoMemory>
    ensures { IfOk result (λ formula. formula
        ≡ formula_at source.now.origin.now source.now.args.now (spot_of source.now.origin.now)) }
{
    let mut walk = Walk {
        around: Vec::new(alloc),
        all: 0,
        ex: 0,
    };
    let origin = source.origin;
    let Some(hit) = find(&mut walk, &origin.leaf, origin.sign, origin.ex)? else {
        return Ok(no_formula());
    };
    let Walk {
        around,
        all: _,
        ex: _,
    } = walk;
    let terms = terms_around(alloc, source, around)?;
    Ok(Signed {
        positive: hit.positive,
        formula: put(alloc, hit.formula, terms.as_slice(), 0)?,
    })
}

fn no_formula() -> Signed
    ensures { result ≡ signed true Formula.False }
{
    Signed {
        positive: true,
        formula: Formula::False,
    }
}
