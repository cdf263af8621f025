//! Verdicts on leaves.
ghost use Rattle.std.specs.Prelude.{◌≡◌, None, Some, find, option_to_list, MatchOption};
ghost use Rattle.step_check.specs.Notes.{case_given};
ghost use Rattle.step_check.specs.Steps.{has_name, item_named};
ghost use Rattle.step_check.specs.Verdicts.{IsLeafVerdict};

use crate::given::{Given, names_conjecture};
use crate::verdict::{Reason, Verdict};
use dk_syntax::{Name, Named, Problem, alpha_eq};
use tstp_trace::Step;

/// The first hypothesis of that name.
fn hypothesis_named<'a>(hyps: &'a [Named], name: &Name) -> Option<&'a Named>
    ensures { MatchOption result (find (has_name name.now) hyps.entry.now ≡ None)
        (λ item. find (has_name name.now) hyps.entry.now ≡ Some item.now) }
{
    for named in hyps {
        if name.same(&named.name) {
            return Some(named);
        }
    }
    None
}

/// The conjecture, where it has that name.
fn conjecture_named<'a>(problem: &'a Problem, name: &Name) -> Option<&'a Named>
    ensures { MatchOption result
        (find (has_name name.now) (option_to_list problem.entry.now.conjecture) ≡ None)
        (λ item. find (has_name name.now) (option_to_list problem.entry.now.conjecture)
        ≡ Some item.now) }
{
    let conjecture = problem.conjecture.as_ref()?;
    if name.same(&conjecture.name) {
        return Some(conjecture);
    }
    None
}

/// The problem's item of that name.
fn item_of<'a>(problem: &'a Problem, name: &Name) -> Option<&'a Named>
    ensures { MatchOption result (item_named problem.entry.now name.now ≡ None)
        (λ item. item_named problem.entry.now name.now ≡ Some item.now) }
{
    match hypothesis_named(problem.hyps.as_slice(), name) {
        Some(hypothesis) => Some(hypothesis),
        None => conjecture_named(problem, name),
    }
}

/// The verdict on a leaf of that name.
pub fn leaf_verdict(given: &Given<'_>, step: &Step, name: &Name) -> Verdict
    ensures { IsLeafVerdict (case_given given.now) step.now name.now result }
{
    match item_of(given.problem, name) {
        None => Verdict::Wrong(Reason::UnknownLeaf),
        Some(item) => {
            if !alpha_eq(&item.formula, &step.formula) {
                return Verdict::Wrong(Reason::AlteredLeaf);
            }
            if names_conjecture(given.problem, name) {
                Verdict::Conjecture
            } else {
                Verdict::Leaf
            }
        }
    }
}
