//! The walk down a leaf's form that makes the choices of a thin tree.
#![tactic(auto, using(crate::proofs::WalkSteps::walk_steps))]

ghost use Rattle.std.specs.Prelude.{◌≡◌, ◌<◌, ◌+◌, ◌∷◌, ◌++◌, [], drop, length, MatchOption, OnOk, ⊤};
ghost use Rattle.expansion.specs.Walks.{chosen_from, Passes};
ghost use Rattle.normal_form.specs.Forms.{form_of};

use crate::numbers::Numbers;
use crate::values::{Source, existential_term, universal_term};
use dk_syntax::{NoMemory, Seq, Term};
use normal_form::Nf;
use std::alloc::Global;

/// The place of a walk: the numbers of the next quantifiers, how many sides are taken, and the terms chosen before.
#[derive(Drop)]
pub struct Walk {
    pub numbers: Numbers,
    pub picked: usize,
    pub terms: Seq<Term>,
    pub skolems: Seq<Term>,
}

/// Makes the choices in a form. Both parts of a conjunction are passed.
pub fn choose(alloc: Global, source: &Source<'_>, walk: &mut Walk, nf: &Nf) -> Result<(), NoMemory>
    ensures terms { OnOk result (walk.new.terms ≡ walk.old.terms
        ++ (chosen_from source.now walk.old (form_of nf.now)).terms) }
    ensures skolems { OnOk result (walk.new.skolems ≡ walk.old.skolems
        ++ (chosen_from source.now walk.old (form_of nf.now)).skolems) }
    ensures left { OnOk result (drop walk.new.picked source.now.row.now.picks
        ≡ (chosen_from source.now walk.old (form_of nf.now)).left) }
    ensures passes { OnOk result (Passes walk.old.numbers walk.new.numbers (form_of nf.now)) }
{
    match nf {
        Nf::True | Nf::False | Nf::Lit(_) => Ok(()),
        Nf::And(a, b) => match side_at(source.row.picks.as_slice(), walk.picked) {
            None => {
                walk.numbers = walk.numbers.after(a.get())?.after(b.get())?;
                Ok(())
            }
            Some(false) => {
                walk.picked += 1;
                choose(alloc, source, walk, a.get())?;
                walk.numbers = walk.numbers.after(b.get())?;
                Ok(())
            }
            Some(true) => {
                walk.picked += 1;
                walk.numbers = walk.numbers.after(a.get())?;
                choose(alloc, source, walk, b.get())
            }
        },
        Nf::Or(a, b) => {
            choose(alloc, source, walk, a.get())?;
            choose(alloc, source, walk, b.get())
        }
        Nf::All(a) => {
            let term = universal_term(alloc, source, walk.numbers.all)?;
            walk.numbers = walk.numbers.after_universal()?;
            walk.terms.push(term)?;
            choose(alloc, source, walk, a.get())
        }
        Nf::Ex(a) => {
            let term = existential_term(alloc, source, walk.numbers.ex)?;
            walk.numbers = walk.numbers.after_existential()?;
            walk.skolems.push(term)?;
            choose(alloc, source, walk, a.get())
        }
    }
}

/// The side at a place, where there is one.
fn side_at(picks: &[bool], at: usize) -> Option<bool>
    ensures none { MatchOption result (drop at picks.now ≡ [])
        (λ side. drop at picks.now ≡ side ∷ drop (at + 1) picks.now) }
    ensures some { MatchOption result ⊤ (λ side. at < length picks.now) }
{
    picks.get(at).copied()
}
