//! Each public call once, on values worked by hand.
use dk_syntax::{
    Boxed, Clause, Formula, Kind, Literal, Name, NoMemory, Seq, SymKey, Term, alpha_eq, depth,
    same_literal, same_term, symbols_of, term_order,
};
use std::alloc::Global;
use std::cmp::Ordering;
use std::test::Fail;

fn symbol(alloc: Global, name: &str, arity: u32, kind: Kind) -> Result<SymKey, NoMemory> {
    let name = Name::new(Vec::from_slice(alloc, name.as_bytes())?);
    Ok(SymKey { name, arity, kind })
}

fn constant(alloc: Global, name: &str) -> Result<Term, NoMemory> {
    let symbol = symbol(alloc, name, 0, Kind::Function)?;
    Ok(Term::App(symbol, Seq::new(alloc)))
}

fn apply(alloc: Global, name: &str, arg: Term) -> Result<Term, NoMemory> {
    let symbol = symbol(alloc, name, 1, Kind::Function)?;
    Ok(Term::App(symbol, Seq::from_vec(vec![in alloc; arg]?)))
}

fn atom(alloc: Global, name: &str, arg: Term) -> Result<Formula, NoMemory> {
    let symbol = symbol(alloc, name, 1, Kind::Predicate)?;
    Ok(Formula::Atom(symbol, Seq::from_vec(vec![in alloc; arg]?)))
}

// ![X]: (p(f(X)) & ~q(a))
fn worked(alloc: Global, inner: &str) -> Result<Formula, NoMemory> {
    let left = atom(alloc, "p", apply(alloc, inner, Term::Var(0))?)?;
    let right = atom(alloc, "q", constant(alloc, "a")?)?;
    let right = Formula::Not(Boxed::new(alloc, right)?);
    let both = Formula::And(Boxed::new(alloc, left)?, Boxed::new(alloc, right)?);
    Ok(Formula::All(Boxed::new(alloc, both)?))
}

#[test]
fn formulas(rt: HostRuntime) -> Result<(), Fail> {
    let formula = worked(rt.alloc(), "f")?;
    assert_eq!(rt; depth(&formula), 5);
    assert!(rt; alpha_eq(&formula, &formula.copy(rt.alloc())?));
    assert!(rt; !alpha_eq(&formula, &worked(rt.alloc(), "g")?));
    let symbols = symbols_of(rt.alloc(), &formula)?;
    assert_eq!(rt; symbols.len(), 4);
    for (symbol, name) in symbols.as_slice().iter().zip(["p", "f", "q", "a"].iter()) {
        assert_eq!(rt; symbol.name.as_bytes(), name.as_bytes());
    }
    let mut boxed = Boxed::new(rt.alloc(), formula)?;
    assert!(rt; alpha_eq(&boxed.replace(Formula::True), &worked(rt.alloc(), "f")?));
    assert!(rt; alpha_eq(&boxed.into_inner(), &Formula::True));
    Ok(())
}

#[test]
fn terms(rt: HostRuntime) -> Result<(), Fail> {
    let alloc = rt.alloc();
    let mut ordered = Seq::new(alloc);
    ordered.push(Term::Any)?;
    ordered.push(constant(alloc, "a")?)?;
    ordered.push(constant(alloc, "f")?)?;
    ordered.push(apply(alloc, "f", Term::Any)?)?;
    ordered.push(apply(alloc, "f", constant(alloc, "a")?)?)?;
    ordered.push(apply(alloc, "f", apply(alloc, "f", Term::Any)?)?)?;
    ordered.push(constant(alloc, "fa")?)?;
    for (i, left) in ordered.as_slice().iter().enumerate() {
        for (j, right) in ordered.as_slice().iter().enumerate() {
            assert_eq!(rt; term_order(left, right), i.cmp(&j), "{i} and {j}");
            assert_eq!(rt; same_term(left, right), i == j, "{i} and {j}");
        }
    }
    let literal = Literal {
        positive: false,
        pred: symbol(alloc, "p", 7, Kind::Predicate)?,
        args: ordered,
    };
    let clause = Clause {
        vars: 0,
        lits: Seq::from_vec(vec![in alloc; literal]?),
    };
    let copied = clause.copy(alloc)?;
    for (left, right) in clause.lits.as_slice().iter().zip(copied.lits.as_slice()) {
        assert!(rt; same_literal(left, right));
    }
    Ok(())
}

// The drop takes a loop: a recursive one would find the end of the stack.
#[test]
fn deep_terms(rt: HostRuntime) -> Result<(), Fail> {
    let mut term = Term::Any;
    for _ in 0..1_000_000 {
        term = apply(rt.alloc(), "f", term)?;
    }
    let taken = term.into_app();
    assert!(rt; taken.is_ok());
    Ok(())
}
