//! The thin tree of a row.
ghost use Rattle.std.specs.Prelude.{◌≡◌, IfOk};
ghost use Rattle.expansion.specs.Choices.{thin_tree};
ghost use Rattle.expansion.specs.Rows.{EndsInRow};

use crate::choosing::{Walk, choose};
use crate::numbers::Numbers;
use crate::values::Source;
use dk_syntax::{NoMemory, Seq, Term};
use normal_form::{ClauseRow, Nf};
use std::alloc::Global;
use step_skolem::SkMap;

/// One path of choices through a signed formula: the sides taken at conjunctions, true for the right one, the terms at
/// universals and the Skolem terms at existentials, each in preorder.
#[derive(Debug, Drop)]
pub struct Thin {
    pub sign: bool,
    pub picks: Seq<bool>,
    pub terms: Seq<Term>,
    pub skolems: Seq<Term>,
}

/// The thin tree of a row with a term for each of its variables, through a leaf's form and its Skolem map. Where the row
/// is one of the form that the map leads to and the terms are ground, the ends are the row's ground clause.
pub fn thin_of(
    alloc: Global,
    sign: bool,
    leaf: &Nf,
    map: &SkMap,
    row: &ClauseRow,
    terms: &Seq<Term>,
) -> Result<Thin, NoMemory>
    ensures choices { IfOk result (λ thin. thin
        ≡ thin_tree sign leaf.now map.now.entries row.now terms.now) }
    ensures ends { IfOk result (λ thin.
        EndsInRow leaf.now map.now.entries row.now terms.now thin) }
{
    tree_of(alloc, sign, leaf, map, row, terms)
}

#[tactic(auto, unfolding(crate::specs::Walks::universals_of))]
fn tree_of(
    alloc: Global,
    sign: bool,
    leaf: &Nf,
    map: &SkMap,
    row: &ClauseRow,
    terms: &Seq<Term>,
) -> Result<Thin, NoMemory>
    ensures { IfOk result (λ thin. thin
        ≡ thin_tree sign leaf.now map.now.entries row.now terms.now) }
{
    let source = Source { map, row, terms };
    let mut walk = Walk {
        numbers: Numbers { all: 0, ex: 0 },
        picked: 0,
        terms: Seq::new(alloc),
        skolems: Seq::new(alloc),
    };
    choose(alloc, &source, &mut walk, leaf)?;
    Ok(Thin {
        sign,
        picks: Seq::from_vec(Vec::from_slice(alloc, row.picks.as_slice())?),
        terms: walk.terms,
        skolems: walk.skolems,
    })
}
