//! Worked rows.
use dk_syntax::{Boxed, Kind, Literal, Name, NoMemory, Seq, SymKey, Term};
use normal_form::{Nf, Sorted, has_exists, sorted_of};
use std::alloc::Global;
use std::test::Fail;
use step_skolem::*;

fn symbol(alloc: Global, name: &str, kind: Kind) -> Result<SymKey, NoMemory> {
    Ok(SymKey {
        name: Name::new(Vec::from_slice(alloc, name.as_bytes())?),
        arity: 0,
        kind,
    })
}

fn entry(alloc: Global, ex: u32, name: &str) -> Result<SkEntry, NoMemory> {
    Ok(SkEntry {
        ex,
        symbol: symbol(alloc, name, Kind::Function)?,
        args: Seq::new(alloc),
    })
}

fn one_entry(alloc: Global, name: &str) -> Result<SkMap, NoMemory> {
    let mut entries = Seq::new(alloc);
    entries.push(entry(alloc, 0, name)?)?;
    Ok(SkMap { entries })
}

// ?[X]:name(X)
fn some(alloc: Global, name: &str) -> Result<Nf, NoMemory> {
    let mut args = Seq::new(alloc);
    args.push(Term::Var(0))?;
    let literal = Literal {
        positive: true,
        pred: symbol(alloc, name, Kind::Predicate)?,
        args,
    };
    Ok(Nf::Ex(Boxed::new(alloc, Nf::Lit(literal))?))
}

// ?[X]:left(X) & ?[Y]:right(Y)
fn both(alloc: Global, left: &str, right: &str) -> Result<Nf, NoMemory> {
    let left = Boxed::new(alloc, some(alloc, left)?)?;
    Ok(Nf::And(left, Boxed::new(alloc, some(alloc, right)?)?))
}

fn is_entry(alloc: Global, map: &SkMap, at: usize, name: &str) -> Result<bool, NoMemory> {
    let wanted = symbol(alloc, name, Kind::Function)?;
    match map.entries.as_slice().get(at) {
        Some(one) => Ok(one.ex as usize == at && one.symbol.same(&wanted)),
        None => Ok(false),
    }
}

// The first map replaces the first existential, and the next one the existential that is left.
fn chained(alloc: Global) -> Result<SkMap, NoMemory> {
    let from = both(alloc, "p", "q")?;
    let first = one_entry(alloc, "a")?;
    let next = one_entry(alloc, "b")?;
    chain(alloc, &from, &first, &next)
}

fn sorted(alloc: Global, left: &str, right: &str) -> Result<Sorted, NoMemory> {
    let form = both(alloc, left, right)?;
    sorted_of(alloc, &form)
}

// The two existentials change places.
fn carried(alloc: Global) -> Result<SkMap, NoMemory> {
    let from = sorted(alloc, "q", "p")?;
    let to = sorted(alloc, "p", "q")?;
    let map = chained(alloc)?;
    carry(alloc, &map, &from, &to)
}

#[test]
fn the_second_map_gets_the_numbers_of_the_first_form(rt: HostRuntime) -> Result<(), Fail> {
    let map = chained(rt.alloc())?.copy(rt.alloc())?;
    assert!(rt; is_entry(rt.alloc(), &map, 0, "a")?);
    assert!(rt; is_entry(rt.alloc(), &map, 1, "b")?);
    Ok(())
}

#[test]
fn a_map_is_carried(rt: HostRuntime) -> Result<(), Fail> {
    let map = carried(rt.alloc())?;
    assert!(rt; is_entry(rt.alloc(), &map, 0, "b")?);
    assert!(rt; is_entry(rt.alloc(), &map, 1, "a")?);
    Ok(())
}

// Each existential is replaced.
fn image(alloc: Global) -> Result<Nf, NoMemory> {
    let from = both(alloc, "p", "q")?;
    let map = chained(alloc)?;
    image_under(alloc, &from, &map)
}

#[test]
fn no_replaced_existential_is_left(rt: HostRuntime) -> Result<(), Fail> {
    let image = image(rt.alloc())?;
    assert!(rt; !has_exists(&image));
    Ok(())
}
