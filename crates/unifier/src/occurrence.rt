//! Whether a variable stands in a term through bindings.
ghost use Rattle.std.specs.Prelude.{◌≡◌, ◌⊎◌, ℕ, true, false, get_or, map, None, IfOk};
ghost use Rattle.dk_syntax.specs.declared.Term.{Term as Tree};
ghost use Rattle.unifier.specs.Comparing.{Marked};
ghost use Rattle.unifier.specs.Outcomes.{IsSettledBy};
ghost use Rattle.dk_syntax.specs.Terms.{any_true, has_variable, substituted};

use crate::bindings::bound_term;
use dk_syntax::{NoMemory, Term};
use std::alloc::Global;

fn no_marks(alloc: Global, count: usize) -> Result<Vec<bool>, NoMemory>
    ensures { IfOk result (λ marks. (j : ℕ) → get_or marks.items j false ≡ false) }
{
    let mut marks = Vec::new(alloc);
    for _k in 0..count {
        marks.push(false)?;
    }
    Ok(marks)
}

fn is_marked(marks: &[bool], j: u32) -> bool
    ensures { result ≡ get_or marks.now j false }
{
    match marks.get(j as usize) {
        Some(mark) => *mark,
        None => false,
    }
}

fn mark(marks: &mut [bool], j: u32)
    ensures { (k : ℕ) → get_or marks.new k false ≡ true → (get_or marks.old k false ≡ true)
        ⊎ (k ≡ j) }
{
    let place = j as usize;
    if place < marks.len() {
        marks[place] = true;
    }
}

/// Whether the variable stands in the term through the bindings. A variable that was found not to lead
/// to it is marked, so that each is followed once.
#[cycle(leads_to)]
fn leads_to(
    k: u32,
    s: &[Option<Term>],
    marks: &mut [bool],
    t: &Term,
    fuel: u64,
) -> Result<bool, NoMemory>
    requires free { get_or s.now k None ≡ None }
    requires marked { Marked s.now k marks.old }
    ensures found { IfOk result (λ found. (m : ℕ → Tree) → IsSettledBy s.now m
        → found ≡ has_variable k (substituted m t.now)) }
    ensures marked { Marked s.now k marks.new }
{
    if fuel == 0 {
        return Err(NoMemory);
    }
    match t {
        Term::Var(j) => {
            let found = variable_leads_to(k, s, marks, *j, fuel - 1)?;
            Ok(found)
        }
        Term::App(_, args) => {
            let found = one_leads_to(k, s, marks, args.as_slice(), fuel - 1)?;
            Ok(found)
        }
        Term::Any => Ok(false),
    }
}

#[cycle(leads_to)]
fn variable_leads_to(
    k: u32,
    s: &[Option<Term>],
    marks: &mut [bool],
    j: u32,
    fuel: u64,
) -> Result<bool, NoMemory>
    requires free { get_or s.now k None ≡ None }
    requires marked { Marked s.now k marks.old }
    ensures found { IfOk result (λ found. (m : ℕ → Tree) → IsSettledBy s.now m
        → found ≡ has_variable k (m j)) }
    ensures marked { Marked s.now k marks.new }
{
    if j == k {
        return Ok(true);
    }
    if is_marked(marks, j) {
        return Ok(false);
    }
    match bound_term(s, j) {
        Some(t) => {
            let found = leads_to(k, s, marks, t, fuel)?;
            if !found {
                mark(marks, j);
            }
            Ok(found)
        }
        None => Ok(false),
    }
}

#[cycle(leads_to)]
fn one_leads_to(
    k: u32,
    s: &[Option<Term>],
    marks: &mut [bool],
    terms: &[Term],
    fuel: u64,
) -> Result<bool, NoMemory>
    requires free { get_or s.now k None ≡ None }
    requires marked { Marked s.now k marks.old }
    ensures found { IfOk result (λ found. (m : ℕ → Tree) → IsSettledBy s.now m
        → found ≡ any_true (map (λ t. has_variable k (substituted m t)) terms.now)) }
    ensures marked { Marked s.now k marks.new }
{
    for term in terms {
        let found = leads_to(k, s, marks, term, fuel)?;
        if found {
            return Ok(true);
        }
    }
    Ok(false)
}

/// Whether the variable, which is unbound, stands in the term through the bindings.
pub fn occurs(alloc: Global, k: u32, s: &[Option<Term>], t: &Term) -> Result<bool, NoMemory>
    requires { get_or s.now k None ≡ None }
    ensures { IfOk result (λ found. (m : ℕ → Tree) → IsSettledBy s.now m
        → found ≡ has_variable k (substituted m t.now)) }
{
    let mut marks = no_marks(alloc, s.len())?;
    let found = leads_to(k, s, &mut marks, t, u64::MAX)?;
    Ok(found)
}
