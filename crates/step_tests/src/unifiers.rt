//! Worked rows.
use dk_syntax::{Kind, Name, NoMemory, Seq, SymKey, Term, same_term};
use std::alloc::Global;
use std::test::Fail;
use unifier::*;

fn function(alloc: Global, name: &str, args: Vec<Term>) -> Result<Term, NoMemory> {
    let name = Name::new(Vec::from_slice(alloc, name.as_bytes())?);
    let symbol = SymKey {
        name,
        arity: 0,
        kind: Kind::Function,
    };
    Ok(Term::App(symbol, Seq::from_vec(args)))
}

fn constant(alloc: Global, name: &str) -> Result<Term, NoMemory> {
    function(alloc, name, Vec::new(alloc))
}

fn one(alloc: Global, name: &str, arg: Term) -> Result<Term, NoMemory> {
    function(alloc, name, vec![in alloc; arg]?)
}

fn two(alloc: Global, name: &str, first: Term, second: Term) -> Result<Term, NoMemory> {
    function(alloc, name, vec![in alloc; first, second]?)
}

fn equation(alloc: Global, a: Term, b: Term) -> Result<Equations, NoMemory> {
    let pairs = vec![in alloc; (a, b)]?;
    Ok(Equations {
        pairs: Seq::from_vec(pairs),
    })
}

fn list(terms: Vec<Option<Term>>) -> Subst {
    Subst {
        terms: Seq::from_vec(terms),
    }
}

fn same_entry(a: &Option<Term>, b: &Option<Term>) -> bool {
    match (a, b) {
        (Some(a), Some(b)) => same_term(a, b),
        (None, None) => true,
        _ => false,
    }
}

fn is(s: &Subst, expected: Vec<Option<Term>>) -> bool {
    let terms = s.terms.as_slice();
    if terms.len() != expected.len() {
        return false;
    }
    for k in 0..terms.len() {
        if !same_entry(&terms[k], &expected[k]) {
            return false;
        }
    }
    true
}

// the answer, where all variables are below `vars`
fn answer(
    alloc: Global,
    equations: &Equations,
    vars: u32,
    frozen: u32,
) -> Result<Option<Subst>, Fail> {
    if equations_below(equations, vars) {
        return Ok(solve(alloc, equations, vars, frozen)?);
    }
    Err(Fail::new("a variable is not below the bound"))
}

// f(X0,b) = f(a,X1)
fn crossed(alloc: Global) -> Result<Equations, NoMemory> {
    let first = two(alloc, "f", Term::Var(0), constant(alloc, "b")?)?;
    let second = two(alloc, "f", constant(alloc, "a")?, Term::Var(1))?;
    equation(alloc, first, second)
}

#[test]
fn solutions(rt: HostRuntime) -> Result<(), Fail> {
    let alloc = rt.alloc();
    let both = answer(alloc, &crossed(alloc)?, 2, 0)?.ok_or("none")?;
    let expected = vec![in alloc; Some(constant(alloc, "a")?), Some(constant(alloc, "b")?)]?;
    assert!(rt; is(&both, expected));
    let equal = equation(alloc, Term::Var(0), Term::Var(1))?;
    let renamed = answer(alloc, &equal, 2, 1)?.ok_or("none")?;
    assert!(rt; is(&renamed, vec![in alloc; None, Some(Term::Var(0))]?));
    Ok(())
}

#[test]
fn no_solutions(rt: HostRuntime) -> Result<(), Fail> {
    let alloc = rt.alloc();
    let itself = equation(alloc, Term::Var(0), one(alloc, "f", Term::Var(0))?)?;
    assert!(rt; answer(alloc, &itself, 1, 0)?.is_none());
    let first = two(alloc, "f", Term::Var(0), Term::Var(1))?;
    let through = two(
        alloc,
        "f",
        one(alloc, "g", Term::Var(1))?,
        one(alloc, "g", Term::Var(0))?,
    )?;
    assert!(rt; answer(alloc, &equation(alloc, first, through)?, 2, 0)?.is_none());
    let frozen = equation(alloc, Term::Var(0), constant(alloc, "a")?)?;
    assert!(rt; answer(alloc, &frozen, 1, 1)?.is_none());
    let heads = equation(alloc, constant(alloc, "a")?, constant(alloc, "b")?)?;
    assert!(rt; answer(alloc, &heads, 0, 0)?.is_none());
    Ok(())
}

#[test]
fn lists(rt: HostRuntime) -> Result<(), Fail> {
    let alloc = rt.alloc();
    let first = list(vec![in alloc; Some(one(alloc, "f", Term::Var(1))?), None]?);
    let next = list(vec![in alloc;
        Some(Term::Any),
        Some(constant(alloc, "a")?),
        Some(Term::Var(3)),
    ]?);
    let applied = apply(alloc, &first, &two(alloc, "g", Term::Var(0), Term::Var(2))?)?;
    let expected = two(alloc, "g", one(alloc, "f", Term::Var(1))?, Term::Var(2))?;
    assert!(rt; same_term(&applied, &expected));
    let both = compose(alloc, &first, &next)?;
    let of_first = one(alloc, "f", constant(alloc, "a")?)?;
    let expected = vec![in alloc;
        Some(of_first),
        Some(constant(alloc, "a")?),
        Some(Term::Var(3)),
    ]?;
    assert!(rt; is(&both, expected));
    let open = list(vec![in alloc;
        None,
        Some(two(alloc, "f", Term::Var(0), Term::Var(2))?),
        None,
    ]?);
    let closed = close_with_any(alloc, &open, 1)?;
    let inside = two(alloc, "f", Term::Var(0), Term::Any)?;
    assert!(rt;
        is(
            &closed,
            vec![in alloc; None, Some(inside), Some(Term::Any)]?
        )
    );
    Ok(())
}

// X0 = f(X1), X1 = f(X2), ..
fn chain(alloc: Global, length: u32) -> Result<Equations, NoMemory> {
    let mut pairs = Vec::new(alloc);
    for k in 0..length {
        let next = one(alloc, "f", Term::Var(k + 1))?;
        pairs.push((Term::Var(k), next))?;
    }
    Ok(Equations {
        pairs: Seq::from_vec(pairs),
    })
}

// the settled list of new bindings under which the terms are equal
fn one_equation(alloc: Global, a: &Term, b: &Term, count: u32) -> Result<Option<Subst>, Fail> {
    let mut bindings = Bindings::unbound(alloc, count)?;
    let first = term_below(a, count);
    let second = term_below(b, count);
    if !first {
        return Err(Fail::new("a variable is not below the bound"));
    }
    if !second {
        return Err(Fail::new("a variable is not below the bound"));
    }
    if extend(alloc, &mut bindings, a, b, 0)? {
        let copy = bindings.copy(alloc)?;
        return Ok(Some(settled(alloc, &copy)?));
    }
    Ok(None)
}

// the same of two lists
fn equations(alloc: Global, xs: &[Term], ys: &[Term], count: u32) -> Result<Option<Subst>, Fail> {
    let mut bindings = Bindings::unbound(alloc, count)?;
    let first = terms_below(xs, count);
    let second = terms_below(ys, count);
    if !first {
        return Err(Fail::new("a variable is not below the bound"));
    }
    if !second {
        return Err(Fail::new("a variable is not below the bound"));
    }
    if extend_terms(alloc, &mut bindings, xs, ys, 0)? {
        return Ok(Some(settled(alloc, &bindings)?));
    }
    Ok(None)
}

#[test]
fn bindings(rt: HostRuntime) -> Result<(), Fail> {
    let alloc = rt.alloc();
    let a = constant(alloc, "a")?;
    let bound = one_equation(alloc, &Term::Var(1), &one(alloc, "f", a.copy(alloc)?)?, 2)?.ok_or(
        "none",
    )?;
    assert!(rt;
        is(
            &bound,
            vec![in alloc; None, Some(one(alloc, "f", a.copy(alloc)?)?)]?
        )
    );
    // X0 = f(X1), X1 = X2 and X2 = a
    let xs = vec![in alloc; Term::Var(0), Term::Var(1), Term::Var(2)]?;
    let ys = vec![in alloc;
        one(alloc, "f", Term::Var(1))?,
        Term::Var(2),
        a.copy(alloc)?,
    ]?;
    let all = equations(alloc, &xs, &ys, 3)?.ok_or("none")?;
    let first = one(alloc, "f", a.copy(alloc)?)?;
    assert!(rt;
        is(
            &all,
            vec![in alloc; Some(first), Some(a.copy(alloc)?), Some(a)]?
        )
    );
    Ok(())
}

#[test]
fn long_chain(rt: HostRuntime) -> Result<(), Fail> {
    let alloc = rt.alloc();
    let chain = chain(alloc, 300)?;
    assert!(rt; answer(alloc, &chain, 301, 0)?.is_some());
    Ok(())
}
