//! Worked chains.
use dk_syntax::{Clause, Kind, Literal, Name, NoMemory, Seq, SymKey, Term, same_literal};
use normal_form::{ClauseList, ClauseRow};
use std::alloc::Global;
use std::test::Fail;
use step_chain::*;
use step_clause::{Justification, are_numbered, is_numbered};

fn symbol(alloc: Global, name: &str, arity: u32, kind: Kind) -> Result<SymKey, NoMemory> {
    let name = Name::new(Vec::from_slice(alloc, name.as_bytes())?);
    Ok(SymKey { name, arity, kind })
}

fn atom(alloc: Global, positive: bool, name: &str) -> Result<Literal, NoMemory> {
    let pred = symbol(alloc, name, 0, Kind::Predicate)?;
    let args = Seq::from_vec(Vec::new(alloc));
    Ok(Literal {
        positive,
        pred,
        args,
    })
}

fn at(alloc: Global, positive: bool, name: &str, arg: Term) -> Result<Literal, NoMemory> {
    let pred = symbol(alloc, name, 1, Kind::Predicate)?;
    let args = Seq::from_vec(vec![in alloc; arg]?);
    Ok(Literal {
        positive,
        pred,
        args,
    })
}

fn clause(vars: u32, lits: Vec<Literal>) -> Clause {
    Clause {
        vars,
        lits: Seq::from_vec(lits),
    }
}

// a list with that one clause
fn list(alloc: Global, clause: Clause) -> Result<ClauseList, NoMemory> {
    let row = ClauseRow {
        clause,
        quants: Seq::from_vec(Vec::new(alloc)),
        picks: Seq::from_vec(Vec::new(alloc)),
    };
    let rows = Seq::from_vec(vec![in alloc; row]?);
    Ok(ClauseList { rows })
}

fn lists(
    alloc: Global,
    first: Clause,
    second: Clause,
    third: Clause,
) -> Result<Seq<ClauseList>, NoMemory> {
    let first = list(alloc, first)?;
    let second = list(alloc, second)?;
    let third = list(alloc, third)?;
    let all = vec![in alloc; first, second, third]?;
    Ok(Seq::from_vec(all))
}

// the answer, where all variables are below their bounds
fn answer(
    alloc: Global,
    target: &Clause,
    parents: &Seq<ClauseList>,
) -> Result<Option<Chain>, Fail> {
    if is_numbered(target) {
        if are_numbered(parents) {
            if parents.len() >= 3 && parents.len() <= 8 {
                let found = chain_of(alloc, target, parents)?;
                return Ok(found);
            }
        }
    }
    Err(Fail::new("a variable or a number of lists out of bounds"))
}

fn picks_are(step: &Justification, positive: &[u32], negative: &[u32]) -> bool {
    match step {
        Justification::Resolve {
            pos_picks,
            neg_picks,
            ..
        } => pos_picks.as_slice() == positive && neg_picks.as_slice() == negative,
        _ => false,
    }
}

// one middle clause, which is this literal, and these picks for its justification
fn goes_over(chain: &Option<Chain>, literal: &Literal, positive: &[u32], negative: &[u32]) -> bool {
    match chain {
        Some(chain) => {
            let mids = chain.mids.as_slice();
            let steps = chain.steps.as_slice();
            mids.len() == 1
                && steps.len() == 2
                && mids[0].lits.len() == 1
                && same_literal(&mids[0].lits.as_slice()[0], literal)
                && picks_are(&steps[0], positive, negative)
                && picks_are(&steps[1], [0].as_slice(), [0].as_slice())
        }
        None => false,
    }
}

fn unit(alloc: Global, positive: bool, name: &str) -> Result<Clause, NoMemory> {
    let literal = atom(alloc, positive, name)?;
    let lits = vec![in alloc; literal]?;
    Ok(clause(0, lits))
}

// ~p|q
fn implication(alloc: Global) -> Result<Clause, NoMemory> {
    let first = atom(alloc, false, "p")?;
    let second = atom(alloc, true, "q")?;
    let lits = vec![in alloc; first, second]?;
    Ok(clause(0, lits))
}

// $false follows from p, ~p|q and ~q by way of q
#[test]
fn over_one_middle_clause(rt: HostRuntime) -> Result<(), Fail> {
    let alloc = rt.alloc();
    let first = unit(alloc, true, "p")?;
    let second = implication(alloc)?;
    let third = unit(alloc, false, "q")?;
    let parents = lists(alloc, first, second, third)?;
    let found = answer(alloc, &clause(0, Vec::new(alloc)), &parents)?;
    let middle = atom(alloc, true, "q")?;
    assert!(rt; goes_over(&found, &middle, [1].as_slice(), [1, 0].as_slice()));
    Ok(())
}

// not from p, ~q and ~p|q in this order: p and ~q have no resolvent
#[test]
fn in_another_order(rt: HostRuntime) -> Result<(), Fail> {
    let alloc = rt.alloc();
    let first = unit(alloc, true, "p")?;
    let second = unit(alloc, false, "q")?;
    let third = implication(alloc)?;
    let parents = lists(alloc, first, second, third)?;
    let found = answer(alloc, &clause(0, Vec::new(alloc)), &parents)?;
    assert!(rt; found.is_none());
    Ok(())
}

// p(X)|q(X), or ~p(X)|q(X)
fn either(alloc: Global, positive: bool) -> Result<Clause, NoMemory> {
    let first = at(alloc, positive, "p", Term::Var(0))?;
    let second = at(alloc, true, "q", Term::Var(0))?;
    let lits = vec![in alloc; first, second]?;
    Ok(clause(1, lits))
}

// ~q(X)
fn denial(alloc: Global) -> Result<Clause, NoMemory> {
    let literal = at(alloc, false, "q", Term::Var(0))?;
    let lits = vec![in alloc; literal]?;
    Ok(clause(1, lits))
}

// the middle clause of p(X)|q(X) and ~p(X)|q(X) is q(X), once
#[test]
fn equal_literals_once(rt: HostRuntime) -> Result<(), Fail> {
    let alloc = rt.alloc();
    let first = either(alloc, true)?;
    let second = either(alloc, false)?;
    let third = denial(alloc)?;
    let parents = lists(alloc, first, second, third)?;
    let found = answer(alloc, &clause(0, Vec::new(alloc)), &parents)?;
    let middle = at(alloc, true, "q", Term::Var(0))?;
    assert!(rt; goes_over(&found, &middle, [1, 0].as_slice(), [1, 0].as_slice()));
    Ok(())
}
