//! Which variables of the quantifiers around occur, found in one walk.
#![tactic(auto, using(crate::proofs::Steps::form_steps))]

ghost use Rattle.std.specs.Prelude.{◌≡◌, ◌∷◌, ◌++◌, ◌<◌, [], length, map, nat_eq};
ghost use Rattle.normal_form.specs.Marks.{Marked};
ghost use Rattle.normal_form.specs.Occurrence.{any_true, has_variable};

use dk_syntax::Term;

fn mark(marks: &mut Vec<bool>, n: u32)
    ensures { Marked (λ k. nat_eq n k) marks.old.items marks.new.items }
{
    let len = marks.len();
    let from_last = n as usize;
    if from_last < len {
        marks[len - 1 - from_last] = true;
    }
}

#[cycle(mark_term)]
fn mark_term(marks: &mut Vec<bool>, term: &Term)
    ensures { Marked (λ k. has_variable k term.now) marks.old.items marks.new.items }
{
    match term {
        Term::Var(n) => mark(marks, *n),
        Term::App(_, args) => mark_terms(marks, args.as_slice()),
        Term::Any => {}
    }
}

/// Marks the variables that occur in the terms.
#[cycle(mark_term)]
pub fn mark_terms(marks: &mut Vec<bool>, terms: &[Term])
    ensures { Marked (λ k. any_true (map (has_variable k) terms.now)) marks.old.items
        marks.new.items }
{
    for term in terms {
        mark_term(marks, term);
    }
}

/// Takes the mark of the inmost quantifier.
pub fn take_last(marks: &mut Vec<bool>) -> bool
    requires { 0 < length marks.old.items }
    ensures { marks.old.items ≡ marks.new.items ++ result ∷ [] }
{
    match marks.pop() {
        Some(last) => last,
        None => false,
    }
}
