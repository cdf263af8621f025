//! Worked rows of the map between two forms.
use dk_syntax::{Boxed, Kind, Literal, Name, NoMemory, Seq, SymKey, Term};
use normal_form::Nf;
use std::alloc::Global;
use std::test::Fail;
use step_skolem::*;

fn symbol(alloc: Global, name: &str, arity: u32, kind: Kind) -> Result<SymKey, NoMemory> {
    Ok(SymKey {
        name: Name::new(Vec::from_slice(alloc, name.as_bytes())?),
        arity,
        kind,
    })
}

fn constant(alloc: Global, name: &str) -> Result<Term, NoMemory> {
    Ok(Term::App(symbol(alloc, name, 0, Kind::Function)?, Seq::new(alloc)))
}

// name(k)
fn of_variable(alloc: Global, name: &str, k: u32) -> Result<Term, NoMemory> {
    let mut args = Seq::new(alloc);
    args.push(Term::Var(k))?;
    Ok(Term::App(symbol(alloc, name, 1, Kind::Function)?, args))
}

fn all(alloc: Global, a: Nf) -> Result<Nf, NoMemory> {
    Ok(Nf::All(Boxed::new(alloc, a)?))
}

fn some(alloc: Global, a: Nf) -> Result<Nf, NoMemory> {
    Ok(Nf::Ex(Boxed::new(alloc, a)?))
}

fn pair(alloc: Global, first: Term, second: Term) -> Result<Nf, NoMemory> {
    let pred = symbol(alloc, "p", 2, Kind::Predicate)?;
    let mut args = Seq::new(alloc);
    args.push(first)?;
    args.push(second)?;
    Ok(Nf::Lit(Literal {
        positive: true,
        pred,
        args,
    }))
}

fn triple(alloc: Global, first: Term, second: Term, third: Term) -> Result<Nf, NoMemory> {
    let pred = symbol(alloc, "t", 3, Kind::Predicate)?;
    let mut args = Seq::new(alloc);
    args.push(first)?;
    args.push(second)?;
    args.push(third)?;
    Ok(Nf::Lit(Literal {
        positive: true,
        pred,
        args,
    }))
}

// ![Y]:?[X]:p(X,Y)
fn pairs(alloc: Global) -> Result<Nf, NoMemory> {
    let inner = some(alloc, pair(alloc, Term::Var(0), Term::Var(1))?)?;
    all(alloc, inner)
}

// ![Y]:?[Z]:t(first,Y,Z)
fn triples(alloc: Global, first: Term) -> Result<Nf, NoMemory> {
    let inner = some(alloc, triple(alloc, first, Term::Var(1), Term::Var(0))?)?;
    all(alloc, inner)
}

fn is_one_entry(answer: &Option<SkMap>, name: &str, args: usize) -> bool {
    match answer {
        Some(map) => match map.entries.as_slice() {
            [one] => {
                one.ex == 0
                    && one.symbol.name.as_bytes() == name.as_bytes()
                    && one.args.len() == args
            }
            _ => false,
        },
        None => false,
    }
}

// A constant for an existential under a universal that its body names.
#[test]
fn each_free_universal_is_an_argument(rt: HostRuntime) -> Result<(), Fail> {
    let alloc = rt.alloc();
    let to = all(alloc, pair(alloc, constant(alloc, "f")?, Term::Var(0))?)?;
    assert!(rt; skolem_image(alloc, &pairs(alloc)?, &to)?.is_none());
    Ok(())
}

#[test]
fn a_function_of_the_universal_is_found(rt: HostRuntime) -> Result<(), Fail> {
    let alloc = rt.alloc();
    let to = all(
        alloc,
        pair(alloc, of_variable(alloc, "f", 0)?, Term::Var(0))?,
    )?;
    assert!(rt; is_one_entry(&skolem_image(alloc, &pairs(alloc)?, &to)?, "f", 1));
    Ok(())
}

#[test]
fn equal_forms_have_the_empty_map(rt: HostRuntime) -> Result<(), Fail> {
    let alloc = rt.alloc();
    let answer = skolem_image(alloc, &pairs(alloc)?, &pairs(alloc)?)?;
    assert!(rt; answer.is_some_and(|map| map.entries.is_empty()));
    Ok(())
}

#[test]
fn the_outer_existential_alone_is_replaced(rt: HostRuntime) -> Result<(), Fail> {
    let alloc = rt.alloc();
    let from = some(alloc, triples(alloc, Term::Var(2))?)?;
    let to = triples(alloc, constant(alloc, "k")?)?;
    assert!(rt; is_one_entry(&skolem_image(alloc, &from, &to)?, "k", 0));
    Ok(())
}

#[test]
fn the_inner_existential_is_replaced_later(rt: HostRuntime) -> Result<(), Fail> {
    let alloc = rt.alloc();
    let from = triples(alloc, constant(alloc, "k")?)?;
    let last = of_variable(alloc, "h", 0)?;
    let body = triple(alloc, constant(alloc, "k")?, Term::Var(0), last)?;
    assert!(rt; is_one_entry(&skolem_image(alloc, &from, &all(alloc, body)?)?, "h", 1));
    Ok(())
}
