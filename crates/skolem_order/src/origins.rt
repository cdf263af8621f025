//! Origins of Skolem symbols.
#![tactic(auto, using(crate::proofs::WalkSteps::place_steps))]

ghost use Rattle.std.specs.Prelude.{◌≡◌};
ghost use Rattle.std.specs.Option.{option_copied};
ghost use Rattle.skolem_order.specs.Origins.{origin_for, origin_of_term};

use dk_syntax::{Formula, Seq, SymKey, Term};
use step_skolem::SkMap;

/// Where a Skolem symbol comes from: the leaf with its sign, the number of the existential that the
/// symbol replaces among the existentials of the leaf's normal form in preorder, and the map that
/// leads from this form to that of the step which introduces the symbol, the step's own entries
/// included.
#[derive(Debug, Drop)]
pub struct Origin {
    pub symbol: SymKey,
    pub leaf: Formula,
    pub sign: bool,
    pub ex: u32,
    pub map: SkMap,
}

/// One origin for each Skolem symbol.
#[derive(Debug, Drop)]
pub struct Origins {
    pub list: Seq<Origin>,
}

/// A formula with its sign.
#[derive(Debug, Drop)]
pub struct Signed {
    pub positive: bool,
    pub formula: Formula,
}

/// The origin of the symbol: the first that is listed for it.
pub fn origin_for<'a>(origins: &'a [Origin], symbol: &SymKey) -> Option<&'a Origin>
    ensures { option_copied result ≡ origin_for origins.now symbol.now }
{
    for origin in origins {
        if origin.symbol.same(symbol) {
            return Some(origin);
        }
    }
    None
}

/// The origin of a term's head.
pub fn origin_of_term<'a>(origins: &'a [Origin], t: &Term) -> Option<&'a Origin>
    ensures { option_copied result ≡ origin_of_term origins.now t.now }
{
    match t {
        Term::App(symbol, _) => origin_for(origins, symbol),
        Term::Var(_) | Term::Any => None,
    }
}
