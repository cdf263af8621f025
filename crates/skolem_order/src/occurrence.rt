//! Whether a variable occurs.
#![tactic(auto, using(crate::proofs::WalkSteps::occurrence_steps))]

ghost use Rattle.std.specs.Prelude.{◌≡◌, map, IfOk};
ghost use Rattle.normal_form.specs.Occurrence.{any_true, has_variable, in_formula};

use crate::walk::next;
use dk_syntax::{Formula, NoMemory, Term};

/// Whether the variable of a quantifier around occurs in the formula, of which so many are between.
pub fn occurs(f: &Formula, k: u32) -> Result<bool, NoMemory>
    ensures { IfOk result (λ occurs. occurs ≡ in_formula f.now k) }
{
    match f {
        Formula::True | Formula::False => Ok(false),
        Formula::Atom(_, args) => Ok(stands_in_one(args.as_slice(), k)),
        Formula::Not(a) => occurs(a.get(), k),
        Formula::And(a, b) => Ok(occurs(a.get(), k)? || occurs(b.get(), k)?),
        Formula::Or(a, b) => Ok(occurs(a.get(), k)? || occurs(b.get(), k)?),
        Formula::Imp(a, b) => Ok(occurs(a.get(), k)? || occurs(b.get(), k)?),
        Formula::Iff(a, b) => Ok(occurs(a.get(), k)? || occurs(b.get(), k)?),
        Formula::All(a) => occurs(a.get(), next(k)?),
        Formula::Ex(a) => occurs(a.get(), next(k)?),
    }
}

#[cycle(stands_in)]
fn stands_in(t: &Term, k: u32) -> bool
    ensures { result ≡ has_variable k t.now }
{
    match t {
        Term::Var(number) => *number == k,
        Term::App(_, args) => stands_in_one(args.as_slice(), k),
        Term::Any => false,
    }
}

#[cycle(stands_in)]
fn stands_in_one(terms: &[Term], k: u32) -> bool
    ensures { result ≡ any_true (map (has_variable k) terms.now) }
{
    for term in terms {
        if stands_in(term, k) {
            return true;
        }
    }
    false
}
