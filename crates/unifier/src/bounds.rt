//! Whether all variables are below a number.
ghost use Rattle.std.specs.Prelude.{◌↔◌, IsTrue};
ghost use Rattle.unifier.specs.Solutions.{EquationsBelow};
ghost use Rattle.dk_syntax.specs.Terms.{Below, EachBelow};

use crate::equations::Equations;
use dk_syntax::Term;

/// Whether all variables of the term are below `n`.
#[cycle(term_below)]
pub fn term_below(t: &Term, n: u32) -> bool
    ensures { IsTrue result ↔ Below n t.now }
{
    match t {
        Term::Var(k) => *k < n,
        Term::App(_, args) => terms_below(args.as_slice(), n),
        Term::Any => true,
    }
}

/// Whether all variables of the terms are below `n`.
#[cycle(term_below)]
pub fn terms_below(terms: &[Term], n: u32) -> bool
    ensures { IsTrue result ↔ EachBelow n terms.now }
{
    for term in terms {
        if !term_below(term, n) {
            return false;
        }
    }
    true
}

/// Whether all variables of the equations are below `n`.
pub fn equations_below(equations: &Equations, n: u32) -> bool
    ensures { IsTrue result ↔ EquationsBelow n equations.now.pairs }
{
    for equation in equations.pairs.as_slice() {
        if !term_below(&equation.0, n) {
            return false;
        }
        if !term_below(&equation.1, n) {
            return false;
        }
    }
    true
}
