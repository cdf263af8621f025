use dk_syntax::{Formula, Kind, Name, Named, Problem, Seq, SymKey, Term};
use lp_term::{
    Ident, Lp, apply, constants, goal_type, ident_of, lambda, prelude, subst, symbol, translate,
};
use std::test::Fail;

/// The symbol that is the argument in the body of an abstraction.
fn argument_of(t: &Lp) -> Option<&Ident> {
    if let Lp::Lam(_, body) = t {
        if let Lp::App(_, argument) = body.get() {
            if let Lp::Sym(name) = argument.get() {
                return Some(name);
            }
        }
    }
    None
}

#[test]
fn answers(rt: HostRuntime) -> Result<(), Fail> {
    let alloc = rt.alloc();
    for (name, arity, kind, want) in [
        ("A b", 0, Kind::Function, "f0_Q412062"),
        ("f", 1, Kind::Function, "f1_f"),
        ("f", 2, Kind::Function, "f2_f"),
        ("f", 1, Kind::Predicate, "p1_f"),
        ("is_A9", 10, Kind::Predicate, "p10_is_A9"),
        ("é", 0, Kind::Function, "f0_Qc3a9"),
        ("1", 0, Kind::Function, "f0_Q31"),
    ] {
        let name = Name::new(Vec::from_slice(alloc, name.as_bytes())?);
        let id = ident_of(alloc, &SymKey { name, arity, kind })?;
        assert_eq!(rt; id.as_bytes(), want.as_bytes());
    }
    assert_eq!(rt; prelude(alloc)?.len(), 23);
    let body = apply(alloc, Lp::Var(0), Lp::Var(1))?;
    let t = lambda(alloc, symbol(alloc, b"I")?, body)?;
    let t = subst(alloc, &t, &symbol(alloc, b"any")?)?.copy(alloc)?;
    assert_eq!(rt;
        argument_of(&t).map(|name| name.as_bytes()),
        Some(b"any".as_slice())
    );
    Ok(())
}

/// The identifiers of the heads and arguments of a term's spine, from the last argument to the head.
fn is_symbol(t: &Lp, want: &[u8]) -> bool {
    matches!(t, Lp::Sym(name) if name.as_bytes() == want)
}

#[test]
fn declares(rt: HostRuntime) -> Result<(), Fail> {
    let alloc = rt.alloc();
    let name = Name::new(Vec::from_slice(alloc, b"p")?);
    let p = SymKey {
        name,
        arity: 1,
        kind: Kind::Predicate,
    };
    let atom = Formula::Atom(p.copy(alloc)?, Seq::from_vec(vec![in alloc; Term::Any]?));
    let proposition = translate(alloc, &atom)?;
    let Lp::App(head, argument) = &proposition else {
        return Err(Fail::new("an atom is an application"));
    };
    assert!(rt; is_symbol(head.get(), b"p1_p") && is_symbol(argument.get(), b"any"));
    let hypothesis = Named {
        name: Name::new(Vec::from_slice(alloc, b"a")?),
        formula: atom,
    };
    let problem = Problem {
        hyps: Seq::from_vec(vec![in alloc; hypothesis]?),
        conjecture: None,
        symbols: Seq::from_vec(vec![in alloc; p]?),
    };
    let of = goal_type(alloc, &problem)?;
    let Lp::Pi(_, body) = &of else {
        return Err(Fail::new("a hypothesis is a domain"));
    };
    let Lp::App(_, conclusion) = body.get() else {
        return Err(Fail::new("a conclusion is a proof type"));
    };
    assert!(rt; is_symbol(conclusion.get(), b"bot"));
    assert_eq!(rt; constants(alloc, problem.symbols.as_slice())?.len(), 1);
    Ok(())
}
