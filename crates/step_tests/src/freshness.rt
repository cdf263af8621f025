//! Worked verdict lists.
use dk_syntax::{Kind, Name, NoMemory, Problem, Seq, SymKey};
use std::alloc::Global;
use std::test::Fail;
use step_check::*;
use step_skolem::{SkEntry, SkMap};

fn symbol(alloc: Global, name: &str) -> Result<SymKey, NoMemory> {
    Ok(SymKey {
        name: Name::new(Vec::from_slice(alloc, name.as_bytes())?),
        arity: 0,
        kind: Kind::Function,
    })
}

// a problem that has the symbol f alone
fn problem(alloc: Global) -> Result<Problem, NoMemory> {
    let mut symbols = Seq::new(alloc);
    symbols.push(symbol(alloc, "f")?)?;
    Ok(Problem {
        hyps: Seq::new(alloc),
        conjecture: None,
        symbols,
    })
}

// a step whose map has these symbols
fn structural(alloc: Global, names: &[&str]) -> Result<Verdict, NoMemory> {
    let mut entries = Seq::new(alloc);
    for name in names {
        entries.push(SkEntry {
            ex: 0,
            symbol: symbol(alloc, name)?,
            args: Seq::new(alloc),
        })?;
    }
    Ok(Verdict::Structural(SkMap { entries }))
}

// whether the step at that place isn't fresh, and that symbol is named
fn is_refused(verdicts: &Verdicts, place: usize, name: &str) -> bool {
    match verdicts.list.as_slice().get(place) {
        Some(Verdict::Wrong(Reason::NotFresh(symbol))) => {
            symbol.name.as_bytes() == name.as_bytes()
        }
        _ => false,
    }
}

fn freshened(alloc: Global, first: &[&str], second: &[&str]) -> Result<Verdicts, NoMemory> {
    let mut list = Seq::new(alloc);
    list.push(structural(alloc, first)?)?;
    list.push(structural(alloc, second)?)?;
    let mut verdicts = Verdicts { list };
    fresh(&problem(alloc)?, &mut verdicts);
    Ok(verdicts)
}

#[test]
fn a_step_that_is_not_fresh_introduces_its_symbols(rt: HostRuntime) -> Result<(), Fail> {
    let verdicts = freshened(rt.alloc(), ["f", "g"].as_slice(), ["g"].as_slice())?;
    assert!(rt; is_refused(&verdicts, 0, "f"));
    assert!(rt; is_refused(&verdicts, 1, "g"));
    Ok(())
}

#[test]
fn the_first_of_two_equal_entries_is_named(rt: HostRuntime) -> Result<(), Fail> {
    let verdicts = freshened(rt.alloc(), ["h"].as_slice(), ["g", "f", "g"].as_slice())?;
    assert!(rt; is_refused(&verdicts, 1, "g"));
    Ok(())
}

#[test]
fn a_fresh_step_stays(rt: HostRuntime) -> Result<(), Fail> {
    let verdicts = freshened(rt.alloc(), ["h"].as_slice(), ["g"].as_slice())?;
    for verdict in verdicts.list.as_slice() {
        assert!(rt; matches!(verdict, Verdict::Structural(_)));
    }
    Ok(())
}
