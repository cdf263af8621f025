//! Printed names and items.
use dk_syntax::{Boxed, Formula, Kind, Literal, Name, NoMemory, Seq, SymKey, Term};
use std::alloc::Global;
use std::test::Fail;
use tptp_text::{formula_text, item_name_text, literal_text, name_text, print_item, term_text};

fn name(alloc: Global, text: &str) -> Result<Name, NoMemory> {
    Ok(Name::new(Vec::from_slice(alloc, text.as_bytes())?))
}

fn atom(alloc: Global, text: &str, args: Vec<Term>) -> Result<Formula, NoMemory> {
    let symbol = SymKey {
        name: name(alloc, text)?,
        arity: 0,
        kind: Kind::Predicate,
    };
    Ok(Formula::Atom(symbol, Seq::from_vec(args)))
}

// for all x, p(x) and some y is not q(y, x)
fn sentence(alloc: Global) -> Result<Formula, NoMemory> {
    let p = atom(alloc, "p", vec![in alloc; Term::Var(0)]?)?;
    let q = atom(alloc, "q", vec![in alloc; Term::Var(0), Term::Var(1)]?)?;
    let not = Formula::Not(Boxed::new(alloc, q)?);
    let some = Formula::Ex(Boxed::new(alloc, not)?);
    let both = Formula::And(Boxed::new(alloc, p)?, Boxed::new(alloc, some)?);
    Ok(Formula::All(Boxed::new(alloc, both)?))
}

#[test]
fn an_item_is_printed(rt: HostRuntime) -> Result<(), Fail> {
    let alloc = rt.alloc();
    let role = name(alloc, "axiom")?;
    let text = print_item(alloc, &name(alloc, "A b")?, &role, &sentence(alloc)?)?;
    let expected = "fof('A b',axiom,![X0]:(p(X0) & ?[X1]:~q(X1,X0))).\n";
    assert_eq!(rt; text.as_slice(), expected.as_bytes());
    Ok(())
}

#[test]
fn names_are_printed(rt: HostRuntime) -> Result<(), Fail> {
    let alloc = rt.alloc();
    for (text, plain, of_item) in [
        ("a_1B", "a_1B", "a_1B"),
        ("0017", "'0017'", "0017"),
        ("1a", "'1a'", "'1a'"),
        ("", "''", "''"),
        ("it's\\", "'it\\'s\\\\'", "'it\\'s\\\\'"),
    ] {
        let name = name(alloc, text)?;
        let found = name_text(alloc, &name)?;
        assert_eq!(rt; found.as_slice(), plain.as_bytes(), "at {text}");
        let found = item_name_text(alloc, &name)?;
        assert_eq!(rt; found.as_slice(), of_item.as_bytes(), "at {text}");
    }
    Ok(())
}

// not p of Any and the one variable
fn literal(alloc: Global) -> Result<Literal, NoMemory> {
    let args = vec![in alloc; Term::Any, Term::Var(0)]?;
    Ok(Literal {
        positive: false,
        pred: SymKey {
            name: name(alloc, "p")?,
            arity: 2,
            kind: Kind::Predicate,
        },
        args: Seq::from_vec(args),
    })
}

#[test]
fn parts_of_formulas_are_printed(rt: HostRuntime) -> Result<(), Fail> {
    let alloc = rt.alloc();
    let text = literal_text(alloc, &literal(alloc)?, 1)?;
    assert_eq!(rt; text.as_slice(), b"~p($any,X0)".as_slice());
    let text = term_text(alloc, &Term::Any, 0)?;
    assert_eq!(rt; text.as_slice(), b"$any".as_slice());
    let text = formula_text(alloc, &Formula::False, 0)?;
    assert_eq!(rt; text.as_slice(), b"$false".as_slice());
    Ok(())
}
