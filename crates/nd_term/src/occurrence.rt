//! Whether a variable occurs.
#![tactic(auto, using(crate::proofs::OccurrenceSteps::occurrence_steps))]

ghost use Rattle.std.specs.Prelude.{◌≡◌, map, IfOk};
ghost use Rattle.dk_syntax.specs.Lists.{any_true};
ghost use Rattle.nd_term.specs.Reading.{occurs, occurs_term};
ghost use Rattle.nd_term.specs.Views.{theory_formula, theory_term};

use dk_syntax::{Formula, NoMemory, Term};

#[cycle(in_term)]
fn in_term(t: &Term, k: u32) -> bool
    ensures { result ≡ occurs_term k (theory_term t.now) }
{
    match t {
        Term::Var(number) => *number == k,
        Term::App(_, args) => in_terms(args.as_slice(), k),
        Term::Any => false,
    }
}

#[cycle(in_term)]
fn in_terms(terms: &[Term], k: u32) -> bool
    ensures { result ≡ any_true (map (λ t. occurs_term k (theory_term t)) terms.now) }
{
    for term in terms {
        if in_term(term, k) {
            return true;
        }
    }
    false
}

/// Whether variable k occurs in a formula. A number past `u32` is want of memory.
pub fn occurs(f: &Formula, k: u32) -> Result<bool, NoMemory>
    ensures { IfOk result (λ b. b ≡ occurs k (theory_formula f.now)) }
{
    match f {
        Formula::True | Formula::False => Ok(false),
        Formula::Atom(_, args) => Ok(in_terms(args.as_slice(), k)),
        Formula::Not(a) => occurs(a.get(), k),
        Formula::And(a, b) | Formula::Or(a, b) | Formula::Imp(a, b) | Formula::Iff(a, b) => {
            if occurs(a.get(), k)? {
                return Ok(true);
            }
            occurs(b.get(), k)
        }
        Formula::All(a) | Formula::Ex(a) => occurs(a.get(), k.checked_add(1).ok_or(NoMemory)?),
    }
}
