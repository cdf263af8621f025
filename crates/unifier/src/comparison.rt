//! The next variable to be bound, so that two terms become equal.
ghost use Rattle.std.specs.Prelude.{◌≡◌, ◌<◌, ℕ, length, get_or, map, None, Some, IfOk};
ghost use Rattle.dk_syntax.specs.declared.Term.{Term as Tree};
ghost use Rattle.unifier.specs.Comparing.{NextStep};
ghost use Rattle.unifier.specs.Outcomes.{Sound};
ghost use Rattle.unifier.specs.Substitution.{Refines};
ghost use Rattle.dk_syntax.specs.Terms.{Below, EachBelow, substituted};

use crate::bindings::bound_term;
use crate::occurrence::occurs;
use dk_syntax::{NoMemory, Term};
use std::alloc::Global;

/// What is to be done so that two terms become equal.
#[derive(Drop)]
pub enum Step {
    /// They are equal.
    Equal,
    /// They cannot be made equal.
    Different,
    /// This variable has to be bound to this term.
    Bind(u32, Term),
}

/// The term that stands for a term: a bound variable's term takes the variable's place.
fn follow<'a>(s: &'a [Option<Term>], t: &'a Term, fuel: u64) -> Result<&'a Term, NoMemory>
    ensures same { IfOk result (λ end. (r : ℕ → Tree) → Refines s.now r
        → substituted r t.now ≡ substituted r end.now) }
    ensures free { IfOk result (λ end. (j : ℕ) → end.now ≡ Term.Var j
        → get_or s.now j None ≡ None) }
    ensures below { IfOk result (λ end. ((k : ℕ) (u : Tree) → get_or s.now k None ≡ Some u
        → Below (length s.now) u) → Below (length s.now) t.now → Below (length s.now) end.now) }
{
    if fuel == 0 {
        return Err(NoMemory);
    }
    match t {
        Term::Var(k) => match bound_term(s, *k) {
            Some(bound) => {
                let end = follow(s, bound, fuel - 1)?;
                Ok(end)
            }
            None => Ok(t),
        },
        _ => Ok(t),
    }
}

/// How an unbound variable becomes equal to a term that is no variable.
fn term_step(
    alloc: Global,
    s: &[Option<Term>],
    i: u32,
    b: &Term,
    frozen: u32,
) -> Result<Step, NoMemory>
    requires sound { Sound frozen s.now }
    requires within { i < length s.now }
    requires free { get_or s.now i None ≡ None }
    requires below { Below (length s.now) b.now }
    requires no_variable { (j : ℕ) → ¬ b.now ≡ Term.Var j }
    ensures { IfOk result (λ step. NextStep frozen (λ r. r i ≡ substituted r b.now) s.now step) }
{
    if i < frozen {
        return Ok(Step::Different);
    }
    if occurs(alloc, i, s, b)? {
        return Ok(Step::Different);
    }
    let term = b.copy(alloc)?;
    Ok(Step::Bind(i, term))
}

/// How an unbound variable becomes equal to a term that is no bound variable.
fn variable_step(
    alloc: Global,
    s: &[Option<Term>],
    i: u32,
    b: &Term,
    frozen: u32,
) -> Result<Step, NoMemory>
    requires sound { Sound frozen s.now }
    requires within { i < length s.now }
    requires free { get_or s.now i None ≡ None }
    requires below { Below (length s.now) b.now }
    requires end { (j : ℕ) → b.now ≡ Term.Var j → get_or s.now j None ≡ None }
    ensures { IfOk result (λ step. NextStep frozen (λ r. r i ≡ substituted r b.now) s.now step) }
{
    match b {
        Term::Var(j) => {
            if i == *j {
                return Ok(Step::Equal);
            }
            if i >= frozen {
                return Ok(Step::Bind(i, Term::Var(*j)));
            }
            if *j >= frozen {
                return Ok(Step::Bind(*j, Term::Var(i)));
            }
            Ok(Step::Different)
        }
        _ => {
            let step = term_step(alloc, s, i, b, frozen)?;
            Ok(step)
        }
    }
}

/// The next step to make two terms equal.
#[cycle(next_step)]
pub fn next_step(
    alloc: Global,
    s: &[Option<Term>],
    a: &Term,
    b: &Term,
    frozen: u32,
    fuel: u64,
) -> Result<Step, NoMemory>
    requires sound { Sound frozen s.now }
    requires below_a { Below (length s.now) a.now }
    requires below_b { Below (length s.now) b.now }
    ensures { IfOk result (λ step. NextStep frozen
        (λ r. substituted r a.now ≡ substituted r b.now) s.now step) }
{
    if fuel == 0 {
        return Err(NoMemory);
    }
    let first = follow(s, a, u64::MAX)?;
    let second = follow(s, b, u64::MAX)?;
    let step = ends_step(alloc, s, first, second, frozen, fuel - 1)?;
    Ok(step)
}

/// The next step to make two terms equal, neither of which is a bound variable.
#[cycle(next_step)]
fn ends_step(
    alloc: Global,
    s: &[Option<Term>],
    a: &Term,
    b: &Term,
    frozen: u32,
    fuel: u64,
) -> Result<Step, NoMemory>
    requires sound { Sound frozen s.now }
    requires below_a { Below (length s.now) a.now }
    requires below_b { Below (length s.now) b.now }
    requires end_a { (j : ℕ) → a.now ≡ Term.Var j → get_or s.now j None ≡ None }
    requires end_b { (j : ℕ) → b.now ≡ Term.Var j → get_or s.now j None ≡ None }
    ensures { IfOk result (λ step. NextStep frozen
        (λ r. substituted r a.now ≡ substituted r b.now) s.now step) }
{
    match a {
        Term::Var(i) => {
            let first = variable_step(alloc, s, *i, b, frozen)?;
            Ok(first)
        }
        Term::App(f, xs) => match b {
            Term::Var(j) => {
                let second = variable_step(alloc, s, *j, a, frozen)?;
                Ok(second)
            }
            Term::App(g, ys) => {
                if !f.same(g) {
                    return Ok(Step::Different);
                }
                let all = terms_step(alloc, s, xs.as_slice(), ys.as_slice(), frozen, fuel)?;
                Ok(all)
            }
            Term::Any => Ok(Step::Different),
        },
        Term::Any => match b {
            Term::Var(j) => {
                let third = variable_step(alloc, s, *j, a, frozen)?;
                Ok(third)
            }
            Term::App(_, _) => Ok(Step::Different),
            Term::Any => Ok(Step::Equal),
        },
    }
}

/// The next step to make the terms of two lists equal, one by one.
#[cycle(next_step)]
fn terms_step(
    alloc: Global,
    s: &[Option<Term>],
    xs: &[Term],
    ys: &[Term],
    frozen: u32,
    fuel: u64,
) -> Result<Step, NoMemory>
    requires sound { Sound frozen s.now }
    requires below_xs { EachBelow (length s.now) xs.now }
    requires below_ys { EachBelow (length s.now) ys.now }
    ensures { IfOk result (λ step. NextStep frozen
        (λ r. map (substituted r) xs.now ≡ map (substituted r) ys.now) s.now step) }
{
    if xs.len() != ys.len() {
        return Ok(Step::Different);
    }
    for i in 0..xs.len() {
        let step = next_step(alloc, s, &xs[i], &ys[i], frozen, fuel)?;
        match step {
            Step::Equal => {}
            Step::Different => return Ok(Step::Different),
            Step::Bind(k, term) => return Ok(Step::Bind(k, term)),
        }
    }
    Ok(Step::Equal)
}
