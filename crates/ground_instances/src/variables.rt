//! Whether each variable of a clause stands in it.
ghost use Rattle.std.specs.Prelude.{◌≡◌, ◌<◌, ℕ, [], ◌∷◌, true, false, get_or, length, IfOk};
ghost use Rattle.ground_instances.specs.Marks.{Marks};
ghost use Rattle.ground_instances.specs.Naming.{HasEachVariable};

use dk_syntax::{Clause, NoMemory, Term};
use std::alloc::Global;

/// Marks a variable.
#[tactic(auto, using(crate::proofs::MarkLaws::mark_steps))]
fn mark(marks: &mut [bool], number: u32)
    ensures { Marks marks.old (Term.Var number ∷ []) marks.new }
{
    let place = number as usize;
    if place >= marks.len() {
        return;
    }
    marks[place] = true;
}

/// Marks the variables of a term.
#[cycle(mark_term)]
fn mark_term(marks: &mut [bool], term: &Term)
    ensures { Marks marks.old (term.now ∷ []) marks.new }
{
    match term {
        Term::Var(number) => mark(marks, *number),
        Term::App(_, args) => mark_terms(marks, args.as_slice()),
        Term::Any => {}
    }
}

/// Marks the variables of terms.
#[cycle(mark_term)]
fn mark_terms(marks: &mut [bool], terms: &[Term])
    ensures { Marks marks.old terms.now marks.new }
{
    for term in terms {
        mark_term(marks, term);
    }
}

/// Whether each variable of the clause stands in it, as in clauses that are numbered by what stands in them.
pub fn has_each_variable(alloc: Global, clause: &Clause) -> Result<bool, NoMemory>
    ensures { IfOk result (λ each. each ≡ true → HasEachVariable clause.now) }
{
    let mut marks = vec![in alloc; false; clause.vars as usize]?;
    for literal in clause.lits.as_slice() {
        mark_terms(&mut marks, literal.args.as_slice());
    }
    let each = are_marked(marks.as_slice());
    Ok(each)
}

fn are_marked(marks: &[bool]) -> bool
    ensures { result ≡ true → (k : ℕ) → k < length marks.now → get_or marks.now k false ≡ true }
{
    for mark in marks {
        if !*mark {
            return false;
        }
    }
    true
}
