//! Consumers of hypotheses and of the denied conjecture.
#![tactic(auto)]

ghost use Rattle.std.specs.Prelude.{◌≡◌, List, IfOk};
ghost use Rattle.lp_term.specs.Connectives.{bot, proof_of};
ghost use Rattle.lp_term.specs.LambdaPi.{Term};
ghost use Rattle.lp_term.specs.Signature.{Extends};
ghost use Rattle.lp_term.specs.Typing.{Declaration, HasType};
ghost use Rattle.lp_term.specs.View.{term_of};
ghost use Rattle.nd_term.specs.Bindings.{Bindings, Covers};
ghost use Rattle.nd_term.specs.Eigenvariables.{Eigenvariable};
ghost use Rattle.nd_term.specs.Formulas.{Literal, unassigned};
ghost use Rattle.nd_term.specs.Places.{at_level, eigenvariables, last_variables, witnesses};
ghost use Rattle.nd_term.specs.Symbols.{FormulaOver};
ghost use Rattle.nd_term.specs.ThinReading.{consumer_at, tree_at};
ghost use Rattle.nd_term.specs.ThinTrees.{Fits};
ghost use Rattle.nd_term.specs.Translation.{sentence, signed};
ghost use Rattle.nd_term.specs.TreeKinds.{leaves};
ghost use Rattle.nd_term.specs.Views.{theory_formula};

use crate::consumer;
use crate::cursor::{Cursor, Source};
use crate::eigenvariables::at_level;
use crate::place::Place;
use crate::reader::read_tree;
use crate::spot::Spot;
use dk_syntax::{Formula, NoMemory};
use expansion::Thin;
use lp_term::Lp;
use std::alloc::Global;

/// The consumer of a formula that the variable of the level `base` asserts, or denies.
fn consumed_at(
    alloc: Global,
    f: &Formula,
    thin: &Thin,
    base: u32,
    place: &Place<'_>,
) -> Result<Lp, NoMemory>
    ensures { IfOk result (λ t. term_of t
        ≡ consumer_at (theory_formula f.now) thin.now base place.now) }
{
    let source = Source { thin, place };
    let start = Cursor {
        sides: 0,
        terms: 0,
        skolems: 0,
    };
    let reading = read_tree(alloc, f, thin.sign, &source, start)?;
    let left = reading.tree.leaves()?;
    let spot = Spot {
        place,
        values: &[],
        extra: 0,
        left,
    };
    let proof = at_level(place.level, base);
    consumer::consume(alloc, &reading.tree, f, thin.sign, &spot, proof)
}

/// Falsity from a closed formula that the variable of the level `base` asserts, or denies where the thin tree's sign is
/// negative. The variables of the literals at the thin tree's ends are those bound last at the place, in their order.
pub fn consume(
    alloc: Global,
    f: &Formula,
    thin: &Thin,
    base: u32,
    place: &Place<'_>,
) -> Result<Lp, NoMemory>
    ensures term { IfOk result (λ t. term_of t
        ≡ consumer_at (theory_formula f.now) thin.now base place.now) }
    ensures typed { let f = theory_formula f.now in let tree = tree_at f thin.now place.now in
        let x = eigenvariables place.now in (sig : List Declaration) (es : List Eigenvariable) (g : List Term)
        (c : List Literal) → Extends sig → Fits sig es thin.now.sign f unassigned tree c → FormulaOver sig f
        → Bindings sig es g x (witnesses place.now) → Covers sig g x c (last_variables (leaves tree))
        → HasType sig g (at_level place.now.level base) (proof_of (signed thin.now.sign (sentence f)))
        → IfOk result (λ t. HasType sig g (term_of t) (proof_of bot)) }
{
    consumed_at(alloc, f, thin, base, place)
}
