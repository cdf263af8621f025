//! Limits that steps pass.
ghost use Rattle.std.specs.Prelude.{◌≡◌, ◌↔◌, ℕ, None, Some, map, IsTrue, MatchOption, Contains};
ghost use Rattle.std.specs.Bool.{OnFalse, OnTrue};
ghost use Rattle.normal_form.specs.Existentials.{existential_in};
ghost use Rattle.step_check.specs.Limits.{first_limit, form_limit, full_limit, limit_at, nodes_limit};
ghost use Rattle.step_check.specs.Notes.{AreOwnsKnown, case_given, IsOwn, MayComposeOne, SaysSkolem};
ghost use Rattle.step_check.specs.Representatives.{IsFullWithin};
ghost use Rattle.step_check.specs.Steps.{own_form};
ghost use Rattle.step_check.specs.Tables.{AreRight, IsKnown};

use crate::given::{Given, parents_at, step_at};
use crate::notes::Own;
use crate::own::full_limit_of;
use crate::table::Table;
use crate::verdict::Limit;
use normal_form::Nf;
use tstp_trace::StepSource;

/// The limit that the own form of a step passes, which is known.
fn noted_limit(given: &Given<'_>, owns: &Table<Own>, number: u32) -> Option<Limit>
    requires right { AreRight (IsOwn (case_given given.now)) owns.now }
    requires known { IsKnown owns.now number }
    ensures { result ≡ form_limit (own_form (case_given given.now) number) }
{
    owns.known(number).limit
}

/// The first limit that the own form of one of the steps passes.
fn first_limit_of(given: &Given<'_>, owns: &Table<Own>, numbers: &[u32]) -> Option<Limit>
    requires right { AreRight (IsOwn (case_given given.now)) owns.now }
    requires known { (q : ℕ) → Contains numbers.now q → IsKnown owns.now q }
    ensures { result ≡ first_limit (map (own_form (case_given given.now)) numbers.now) }
{
    for number in numbers {
        let limit = noted_limit(given, owns, *number);
        if limit.is_some() {
            return limit;
        }
    }
    None
}

/// The first limit that the step's own form passes, or a parent's.
pub fn limit_of(given: &Given<'_>, owns: &Table<Own>, number: u32) -> Option<Limit>
    requires right { AreRight (IsOwn (case_given given.now)) owns.now }
    requires known { AreOwnsKnown (case_given given.now) owns.now number }
    ensures { result ≡ limit_at (case_given given.now) number }
{
    match noted_limit(given, owns, number) {
        Some(limit) => Some(limit),
        None => first_limit_of(given, owns, parents_at(given.rows, number)),
    }
}

/// Whether the own form of a step, where it is known, has more nodes than the limit.
pub fn is_too_large(given: &Given<'_>, owns: &Table<Own>, number: u32) -> bool
    requires right { AreRight (IsOwn (case_given given.now)) owns.now }
    requires known { IsKnown owns.now number }
    ensures large { OnTrue result
        (nodes_limit (own_form (case_given given.now) number) ≡ Some Limit.NormalForm) }
    ensures within { OnFalse result
        (nodes_limit (own_form (case_given given.now) number) ≡ None) }
{
    owns.known(number).form.is_none()
}

/// Whether an existential stands in the own form of a step, which is known.
pub fn exists_in(given: &Given<'_>, owns: &Table<Own>, number: u32) -> bool
    requires right { AreRight (IsOwn (case_given given.now)) owns.now }
    requires known { IsKnown owns.now number }
    requires within { nodes_limit (own_form (case_given given.now) number) ≡ None }
    ensures { result ≡ existential_in (own_form (case_given given.now) number) }
{
    owns.known(number).exists
}

/// Whether the step says that it is a Skolem step.
fn is_skolem_step(given: &Given<'_>, number: u32) -> bool
    ensures { IsTrue result ↔ SaysSkolem (case_given given.now) number }
{
    match step_at(given.steps, number) {
        Some(step) => match &step.source {
            StepSource::Leaf(_) => false,
            StepSource::Derived { esa, .. } => *esa,
        },
        None => false,
    }
}

/// Whether a composed image is in question.
pub fn may_compose(given: &Given<'_>, owns: &Table<Own>, number: u32) -> bool
    requires right { AreRight (IsOwn (case_given given.now)) owns.now }
    requires known { IsKnown owns.now number }
    requires within { nodes_limit (own_form (case_given given.now) number) ≡ None }
    ensures { IsTrue result ↔ MayComposeOne (case_given given.now) number }
{
    is_skolem_step(given, number)
        && parents_at(given.rows, number).len() == 1
        && !exists_in(given, owns, number)
}

/// The limit that the full image of the parent's representative passes, where it is in question.
pub fn full_limit_at(
    given: &Given<'_>,
    owns: &Table<Own>,
    number: u32,
    representative: &Nf,
) -> Option<Limit>
    requires right { AreRight (IsOwn (case_given given.now)) owns.now }
    requires known { IsKnown owns.now number }
    requires within { nodes_limit (own_form (case_given given.now) number) ≡ None }
    ensures { MatchOption result
        ((q : ℕ) → IsFullWithin (case_given given.now) number q representative.now)
        (λ limit. MayComposeOne (case_given given.now) number
        × (full_limit representative.now ≡ Some limit)) }
{
    if may_compose(given, owns, number) {
        return full_limit_of(representative);
    }
    None
}
