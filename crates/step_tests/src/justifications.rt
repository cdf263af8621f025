//! Worked steps.
use dk_syntax::{Clause, Kind, Literal, Name, NoMemory, Seq, SymKey, Term, same_terms};
use normal_form::{ClauseList, ClauseRow};
use std::alloc::Global;
use std::test::Fail;
use step_clause::*;

fn symbol(alloc: Global, name: &str, kind: Kind) -> Result<SymKey, NoMemory> {
    let name = Name::new(Vec::from_slice(alloc, name.as_bytes())?);
    Ok(SymKey {
        name,
        arity: 0,
        kind,
    })
}

fn apply(alloc: Global, name: &str, args: Vec<Term>) -> Result<Term, NoMemory> {
    let symbol = symbol(alloc, name, Kind::Function)?;
    Ok(Term::App(symbol, Seq::from_vec(args)))
}

fn constant(alloc: Global, name: &str) -> Result<Term, NoMemory> {
    apply(alloc, name, Vec::new(alloc))
}

fn one(alloc: Global, positive: bool, name: &str, arg: Term) -> Result<Literal, NoMemory> {
    let pred = symbol(alloc, name, Kind::Predicate)?;
    let args = Seq::from_vec(vec![in alloc; arg]?);
    Ok(Literal {
        positive,
        pred,
        args,
    })
}

fn two(
    alloc: Global,
    positive: bool,
    name: &str,
    first: Term,
    second: Term,
) -> Result<Literal, NoMemory> {
    let pred = symbol(alloc, name, Kind::Predicate)?;
    let args = Seq::from_vec(vec![in alloc; first, second]?);
    Ok(Literal {
        positive,
        pred,
        args,
    })
}

fn clause(vars: u32, lits: Vec<Literal>) -> Clause {
    Clause {
        vars,
        lits: Seq::from_vec(lits),
    }
}

// a list with that one clause
fn list(alloc: Global, clause: Clause) -> Result<ClauseList, NoMemory> {
    let row = ClauseRow {
        clause,
        quants: Seq::from_vec(Vec::new(alloc)),
        picks: Seq::from_vec(Vec::new(alloc)),
    };
    let rows = Seq::from_vec(vec![in alloc; row]?);
    Ok(ClauseList { rows })
}

fn parents(alloc: Global, first: Clause, second: Clause) -> Result<Seq<ClauseList>, NoMemory> {
    let first = list(alloc, first)?;
    let second = list(alloc, second)?;
    let lists = vec![in alloc; first, second]?;
    Ok(Seq::from_vec(lists))
}

// the answer, where all variables are below their bounds
fn answer(
    alloc: Global,
    target: &Clause,
    parents: &Seq<ClauseList>,
) -> Result<Option<Justification>, Fail> {
    if is_numbered(target) {
        if are_numbered(parents) {
            let found = justify(alloc, target, parents)?;
            return Ok(found);
        }
    }
    Err(Fail::new("a variable is not below the bound"))
}

fn are_any(terms: &[Term]) -> bool {
    for term in terms {
        match term {
            Term::Any => {}
            _ => return false,
        }
    }
    terms.len() == 2
}

// p(X)|p(Y), or ~p(X)|~p(Y)
fn both(alloc: Global, positive: bool) -> Result<Clause, NoMemory> {
    let first = one(alloc, positive, "p", Term::Var(0))?;
    let second = one(alloc, positive, "p", Term::Var(1))?;
    let lits = vec![in alloc; first, second]?;
    Ok(clause(2, lits))
}

fn is_refutation(answer: &Option<Justification>) -> bool {
    match answer {
        Some(
            Justification::Resolve {
                pos_parent,
                pos_clause,
                neg_parent,
                neg_clause,
                pos_picks,
                neg_picks,
                pos_terms,
                neg_terms,
            },
        ) => {
            [*pos_parent, *pos_clause, *neg_parent, *neg_clause] == [0, 0, 1, 0]
                && pos_picks.as_slice() == [0, 0].as_slice()
                && neg_picks.as_slice() == [0, 0].as_slice()
                && are_any(pos_terms.as_slice())
                && are_any(neg_terms.as_slice())
        }
        _ => false,
    }
}

// from p(X)|p(Y) and ~p(U)|~p(V) follows $false
#[test]
fn two_pivots_in_each_parent(rt: HostRuntime) -> Result<(), Fail> {
    let alloc = rt.alloc();
    let positive = both(alloc, true)?;
    let negative = both(alloc, false)?;
    let lists = parents(alloc, positive, negative)?;
    let found = answer(alloc, &clause(0, Vec::new(alloc)), &lists)?;
    assert!(rt; is_refutation(&found));
    Ok(())
}

// ~r(a,X)|~r(X,Y)|~r(Y,Z)
fn chain(alloc: Global) -> Result<Clause, NoMemory> {
    let a = constant(alloc, "a")?;
    let first = two(alloc, false, "r", a, Term::Var(0))?;
    let second = two(alloc, false, "r", Term::Var(0), Term::Var(1))?;
    let third = two(alloc, false, "r", Term::Var(1), Term::Var(2))?;
    let lits = vec![in alloc; first, second, third]?;
    Ok(clause(3, lits))
}

fn image(alloc: Global, arg: Term) -> Result<Term, NoMemory> {
    let args = vec![in alloc; arg]?;
    let term = apply(alloc, "f", args)?;
    Ok(term)
}

// r(Y,f(Y))
fn serial(alloc: Global) -> Result<Clause, NoMemory> {
    let next = image(alloc, Term::Var(0))?;
    let only = two(alloc, true, "r", Term::Var(0), next)?;
    let lits = vec![in alloc; only]?;
    Ok(clause(1, lits))
}

// ~r(f(a),Y)|~r(Y,Z)
fn shorter(alloc: Global) -> Result<Clause, NoMemory> {
    let a = constant(alloc, "a")?;
    let next = image(alloc, a)?;
    let first = two(alloc, false, "r", next, Term::Var(0))?;
    let second = two(alloc, false, "r", Term::Var(0), Term::Var(1))?;
    let lits = vec![in alloc; first, second]?;
    Ok(clause(2, lits))
}

fn is_shortening(answer: &Option<Justification>, first: &[Term], second: &[Term]) -> bool {
    match answer {
        Some(
            Justification::Resolve {
                pos_parent,
                pos_clause,
                neg_parent,
                neg_clause,
                pos_picks,
                neg_picks,
                pos_terms,
                neg_terms,
            },
        ) => {
            [*pos_parent, *pos_clause, *neg_parent, *neg_clause] == [1, 0, 0, 0]
                && pos_picks.as_slice() == [2].as_slice()
                && neg_picks.as_slice() == [2, 0, 1].as_slice()
                && same_terms(pos_terms.as_slice(), first)
                && same_terms(neg_terms.as_slice(), second)
        }
        _ => false,
    }
}

fn shortening(alloc: Global) -> Result<Option<Justification>, Fail> {
    let first = chain(alloc)?;
    let second = serial(alloc)?;
    let lists = parents(alloc, first, second)?;
    let target = shorter(alloc)?;
    let found = answer(alloc, &target, &lists)?;
    Ok(found)
}

// from ~r(a,X)|~r(X,Y)|~r(Y,Z) and r(Y,f(Y)) follows ~r(f(a),Y)|~r(Y,Z)
#[test]
fn positive_parent_is_the_second(rt: HostRuntime) -> Result<(), Fail> {
    let alloc = rt.alloc();
    let found = shortening(alloc)?;
    let a = constant(alloc, "a")?;
    let first = vec![in alloc; constant(alloc, "a")?]?;
    let second = vec![in alloc; image(alloc, a)?, Term::Var(0), Term::Var(1)]?;
    assert!(rt; is_shortening(&found, &first, &second));
    Ok(())
}

fn is_renaming(answer: &Option<Justification>, values: &[Term]) -> bool {
    match answer {
        Some(
            Justification::Subsume {
                parent,
                clause,
                picks,
                terms,
            },
        ) => {
            [*parent, *clause] == [1, 0]
                && picks.as_slice() == [1, 0].as_slice()
                && same_terms(terms.as_slice(), values)
        }
        _ => false,
    }
}

// a literal alone
fn unit(
    alloc: Global,
    positive: bool,
    name: &str,
    vars: u32,
    arg: Term,
) -> Result<Clause, NoMemory> {
    let literal = one(alloc, positive, name, arg)?;
    let lits = vec![in alloc; literal]?;
    Ok(clause(vars, lits))
}

// q(Y)|p(X,Y)
fn renamed(alloc: Global) -> Result<Clause, NoMemory> {
    let first = one(alloc, true, "q", Term::Var(0))?;
    let second = two(alloc, true, "p", Term::Var(1), Term::Var(0))?;
    let lits = vec![in alloc; first, second]?;
    Ok(clause(2, lits))
}

// p(X,Y)|q(Y)
fn turned(alloc: Global) -> Result<Clause, NoMemory> {
    let first = two(alloc, true, "p", Term::Var(0), Term::Var(1))?;
    let second = one(alloc, true, "q", Term::Var(1))?;
    let lits = vec![in alloc; first, second]?;
    Ok(clause(2, lits))
}

fn renaming(alloc: Global) -> Result<Option<Justification>, Fail> {
    let a = constant(alloc, "a")?;
    let first = unit(alloc, true, "q", 0, a)?;
    let second = renamed(alloc)?;
    let lists = parents(alloc, first, second)?;
    let target = turned(alloc)?;
    let found = answer(alloc, &target, &lists)?;
    Ok(found)
}

// from q(Y)|p(X,Y), the second parent, follows p(X,Y)|q(Y)
#[test]
fn subsumption_with_renaming(rt: HostRuntime) -> Result<(), Fail> {
    let alloc = rt.alloc();
    let found = renaming(alloc)?;
    let values = vec![in alloc; Term::Var(1), Term::Var(0)]?;
    assert!(rt; is_renaming(&found, &values));
    Ok(())
}

fn unrelated(alloc: Global) -> Result<Seq<ClauseList>, NoMemory> {
    let first = unit(alloc, true, "p", 1, Term::Var(0))?;
    let second = unit(alloc, false, "q", 1, Term::Var(0))?;
    let lists = parents(alloc, first, second)?;
    Ok(lists)
}

// q(a) follows from neither p(X) nor ~q(X)
#[test]
fn nothing_follows(rt: HostRuntime) -> Result<(), Fail> {
    let alloc = rt.alloc();
    let lists = unrelated(alloc)?;
    let a = constant(alloc, "a")?;
    let target = unit(alloc, true, "q", 0, a)?;
    let found = answer(alloc, &target, &lists)?;
    assert!(rt; found.is_none());
    Ok(())
}

// the literals, and then q(X1)|..|q(Xn)
fn with_many(alloc: Global, count: u32, mut lits: Vec<Literal>) -> Result<Clause, NoMemory> {
    for k in 0..count {
        lits.push(one(alloc, true, "q", Term::Var(k))?)?;
    }
    Ok(clause(count, lits))
}

// p(X1)|q(X1)|..|q(Xn)
fn headed(alloc: Global, count: u32) -> Result<Clause, NoMemory> {
    let head = one(alloc, true, "p", Term::Var(0))?;
    let all = with_many(alloc, count, vec![in alloc; head]?)?;
    Ok(all)
}

// without p, q(X1)|..|q(X12) follows from no clause p(X1)|q(X1)|..|q(X12): no literal cuts p. There are 12^12 ways to
// pick the literals before the second clause's p
#[test]
fn nothing_to_pick(rt: HostRuntime) -> Result<(), Fail> {
    let alloc = rt.alloc();
    let first = headed(alloc, 12)?;
    let second = headed(alloc, 12)?;
    let lists = parents(alloc, first, second)?;
    let target = with_many(alloc, 12, Vec::new(alloc))?;
    let found = answer(alloc, &target, &lists)?;
    assert!(rt; found.is_none());
    Ok(())
}

// q(X1)|..|q(Xn)|p(X1)
fn tailed(alloc: Global, count: u32) -> Result<Clause, NoMemory> {
    let mut lits = Vec::new(alloc);
    for k in 0..count {
        lits.push(one(alloc, true, "q", Term::Var(k))?)?;
    }
    lits.push(one(alloc, true, "p", Term::Var(0))?)?;
    Ok(clause(count, lits))
}

// ~r(X)|~p(X)
fn two_denied(alloc: Global) -> Result<Clause, NoMemory> {
    let first = one(alloc, false, "r", Term::Var(0))?;
    let second = one(alloc, false, "p", Term::Var(0))?;
    let lits = vec![in alloc; first, second]?;
    Ok(clause(1, lits))
}

// without p and r, q(X1)|..|q(X12) follows from no q(X1)|..|q(X12)|p(X1) and ~r(X)|~p(X): both p and r would have to be
// pivots. There are 12^12 ways to pick the literals before p
#[test]
fn pivots_of_two_symbols(rt: HostRuntime) -> Result<(), Fail> {
    let alloc = rt.alloc();
    let first = tailed(alloc, 12)?;
    let second = two_denied(alloc)?;
    let lists = parents(alloc, first, second)?;
    let target = with_many(alloc, 12, Vec::new(alloc))?;
    let found = answer(alloc, &target, &lists)?;
    assert!(rt; found.is_none());
    Ok(())
}
