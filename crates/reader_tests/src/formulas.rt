//! Formulas as they are written, and what they mean, worked by hand.
use dk_syntax::{Boxed, Formula, Kind, Name, NoMemory, Seq, SymKey, alpha_eq};
use std::alloc::Global;
use std::test::Fail;
use tptp_formulas::{Body, BodyFault, Lang, OutsideKind, ReadError, make_body, read_formula};
use tptp_tokens::Unread;

// what the whole text says, or `None` where it is no formula of the language
fn say(alloc: Global, lang: Lang, text: &[u8]) -> Result<Option<Body>, BodyFault> {
    let (tokens, _) = Unread::new(text).chunk(alloc)?;
    match read_formula(alloc, lang, tokens.as_slice()) {
        Ok((raw, [])) => Ok(Some(make_body(alloc, &raw)?)),
        Ok(_) | Err(ReadError::Syntax) => Ok(None),
        Err(ReadError::Memory) => Err(BodyFault::Memory),
    }
}

fn plain(alloc: Global, name: &str) -> Result<Boxed<Formula>, NoMemory> {
    let name = Name::new(Vec::from_slice(alloc, name.as_bytes())?);
    let symbol = SymKey {
        name,
        arity: 0,
        kind: Kind::Predicate,
    };
    let atom = Formula::Atom(symbol, Seq::from_vec(Vec::new(alloc)));
    Ok(Boxed::new(alloc, atom)?)
}

fn is_formula(body: &Option<Body>, formula: &Formula) -> bool {
    match body {
        Some(Body::Plain(found)) => alpha_eq(found, formula),
        _ => false,
    }
}

fn kind_of(body: &Option<Body>) -> Option<OutsideKind> {
    match body {
        Some(Body::Outside(kind)) => Some(*kind),
        _ => None,
    }
}

// the two texts mean one formula
fn agree(alloc: Global, lang: Lang, text: &str, other: &str) -> Result<bool, BodyFault> {
    match say(alloc, Lang::Fof, other.as_bytes())? {
        Some(Body::Plain(formula)) => {
            let body = say(alloc, lang, text.as_bytes())?;
            Ok(is_formula(&body, &formula))
        }
        _ => Ok(false),
    }
}

// the text `count` times, and then the last one
fn repeated(alloc: Global, text: &str, count: usize, last: &str) -> Result<Vec<u8>, NoMemory> {
    let mut all = Vec::new(alloc);
    for _ in 0..count {
        all.extend_from_slice(text.as_bytes())?;
    }
    all.extend_from_slice(last.as_bytes())?;
    Ok(all)
}

// p<=q is q=>p, and p&q&r is (p&q)&r
#[test]
fn shapes(rt: HostRuntime) -> Result<(), Fail> {
    let turned = Formula::Imp(plain(rt.alloc(), "q")?, plain(rt.alloc(), "p")?);
    assert!(rt; is_formula(&say(rt.alloc(), Lang::Fof, b"p<=q")?, &turned));
    let inner = Formula::And(plain(rt.alloc(), "p")?, plain(rt.alloc(), "q")?);
    let nested = Formula::And(Boxed::new(rt.alloc(), inner)?, plain(rt.alloc(), "r")?);
    assert!(rt; is_formula(&say(rt.alloc(), Lang::Fof, b"p&q&r")?, &nested));
    Ok(())
}

#[test]
fn meanings(rt: HostRuntime) -> Result<(), Fail> {
    for (text, other) in [
        ("p<~>q", "~(p<=>q)"),
        ("p~|q", "~(p|q)"),
        ("![X]:?[X]:p(X)", "![Y]:?[Z]:p(Z)"),
        ("p(X)<=q(Y)", "![A]:![B]:(q(B)=>p(A))"),
        ("(![X]:p(X))&q(X)&r(X)", "![Y]:((![Z]:p(Z))&q(Y)&r(Y))"),
    ] {
        assert!(rt; agree(rt.alloc(), Lang::Fof, text, other)?, "{text}");
    }
    assert!(rt; agree(rt.alloc(), Lang::Cnf, "((~p))|(q|~(r))", "(~p)|(q|(~r))")?);
    Ok(())
}

#[test]
fn refusals(rt: HostRuntime) -> Result<(), Fail> {
    for text in ["p=>q=>r", "p&q|r", "X", "(p"] {
        assert!(rt;
            say(rt.alloc(), Lang::Fof, text.as_bytes())?.is_none(),
            "{text}"
        );
    }
    for text in ["~(~p)", "p&q", "![X]:p(X)"] {
        assert!(rt;
            say(rt.alloc(), Lang::Cnf, text.as_bytes())?.is_none(),
            "{text}"
        );
    }
    Ok(())
}

#[test]
fn constructs_outside(rt: HostRuntime) -> Result<(), Fail> {
    for (text, kind) in [
        ("a=b&p(1)", OutsideKind::Equality),
        ("1=a", OutsideKind::Number),
        ("f(\"x\")=1", OutsideKind::Distinct),
        ("p($true)", OutsideKind::Dollar),
    ] {
        let body = say(rt.alloc(), Lang::Fof, text.as_bytes())?;
        assert!(rt; kind_of(&body) == Some(kind), "{text}");
    }
    Ok(())
}

#[test]
fn depths(rt: HostRuntime) -> Result<(), Fail> {
    for (text, count, last, deep) in [
        ("~", 999, "p", false),
        ("~", 998, "p(X)", true),
        ("p&", 999, "p", false),
        ("p|", 1_000_000, "p", true),
    ] {
        let text = repeated(rt.alloc(), text, count, last)?;
        let fault = say(rt.alloc(), Lang::Fof, text.as_slice()).err();
        assert!(rt; (fault == Some(BodyFault::TooDeep)) == deep, "{count}");
    }
    Ok(())
}

// as many brackets around an atom as a text may have
#[test]
fn brackets(rt: HostRuntime) -> Result<(), Fail> {
    let mut text = repeated(rt.alloc(), "(", 1000, "p")?;
    let closing = repeated(rt.alloc(), ")", 1000, "")?;
    text.extend_from_slice(closing.as_slice())?;
    let body = say(rt.alloc(), Lang::Cnf, text.as_slice())?;
    let atom = plain(rt.alloc(), "p")?;
    assert!(rt; is_formula(&body, atom.get()));
    Ok(())
}
