//! Worked rows.
use dk_syntax::{Boxed, Formula, Kind, Name, NoMemory, Seq, SymKey, Term};
use normal_form::*;
use std::alloc::Global;
use std::test::Fail;

fn atom(alloc: Global, name: &str, arity: u32, args: Vec<Term>) -> Result<Formula, NoMemory> {
    let name = Name::new(Vec::from_slice(alloc, name.as_bytes())?);
    let symbol = SymKey {
        name,
        arity,
        kind: Kind::Predicate,
    };
    Ok(Formula::Atom(symbol, Seq::from_vec(args)))
}

fn plain(alloc: Global, name: &str) -> Result<Formula, NoMemory> {
    atom(alloc, name, 0, Vec::new(alloc))
}

fn iff(alloc: Global, a: Formula, b: Formula) -> Result<Formula, NoMemory> {
    Ok(Formula::Iff(Boxed::new(alloc, a)?, Boxed::new(alloc, b)?))
}

fn or(alloc: Global, a: Formula, b: Formula) -> Result<Formula, NoMemory> {
    Ok(Formula::Or(Boxed::new(alloc, a)?, Boxed::new(alloc, b)?))
}

fn all(alloc: Global, a: Formula) -> Result<Formula, NoMemory> {
    Ok(Formula::All(Boxed::new(alloc, a)?))
}

// p, p<=>p, p<=>(p<=>p), ..
fn tower(alloc: Global, height: u32) -> Result<Formula, NoMemory> {
    let mut formula = plain(alloc, "p")?;
    for _ in 0..height {
        formula = iff(alloc, plain(alloc, "p")?, formula)?;
    }
    Ok(formula)
}

// the predicate of this variable under a universal
fn of_each(alloc: Global, name: &str, variable: u32) -> Result<Formula, NoMemory> {
    all(
        alloc,
        atom(alloc, name, 1, vec![in alloc; Term::Var(variable)]?)?,
    )
}

// ![X]:first(X) | ![X]:second(X)
fn two_universals(alloc: Global, first: &str, second: &str) -> Result<Sorted, Fail> {
    let formula = or(alloc, of_each(alloc, first, 0)?, of_each(alloc, second, 0)?)?;
    Ok(sorted_of(alloc, &normal(alloc, true, &formula)?)?)
}

// for each row a sign and a name for each literal, then a letter for each side taken
fn shown(alloc: Global, list: &ClauseList) -> Result<Vec<u8>, NoMemory> {
    let mut text = Vec::new(alloc);
    for row in list.rows.as_slice() {
        show_row(&mut text, row)?;
    }
    Ok(text)
}

fn show_row(text: &mut Vec<u8>, row: &ClauseRow) -> Result<(), NoMemory> {
    for literal in row.clause.lits.as_slice() {
        text.push(if literal.positive { b'+' } else { b'-' })?;
        text.extend_from_slice(literal.pred.name.as_bytes())?;
    }
    for right in row.picks.as_slice() {
        text.push(if *right { b'R' } else { b'L' })?;
    }
    Ok(())
}

#[test]
fn sizes(rt: HostRuntime) -> Result<(), Fail> {
    for (height, nodes) in [(15, 196_603), (70, 18_446_744_073_709_551_615)] {
        let fault = normal(rt.alloc(), true, &tower(rt.alloc(), height)?).err();
        assert!(rt; fault == Some(NfFault::TooLarge { nodes }), "{height}");
    }
    Ok(())
}

// p<=>q with both signs
#[test]
fn both_signs(rt: HostRuntime) -> Result<(), Fail> {
    let formula = iff(rt.alloc(), plain(rt.alloc(), "p")?, plain(rt.alloc(), "q")?)?;
    for (sign, text) in [(true, "-p+qL-q+pR"), (false, "+p+qL-p-qR")] {
        let list = clauses(rt.alloc(), &normal(rt.alloc(), sign, &formula)?)?;
        assert_eq!(rt; shown(rt.alloc(), &list)?.as_slice(), text.as_bytes());
    }
    Ok(())
}

// ![X,Y]:p(X) has the form ![X]:p(X)
#[test]
fn vacuous_quantifiers(rt: HostRuntime) -> Result<(), Fail> {
    let formula = all(rt.alloc(), of_each(rt.alloc(), "p", 1)?)?;
    let form = normal(rt.alloc(), true, &formula)?;
    let simple = normal(rt.alloc(), true, &of_each(rt.alloc(), "p", 0)?)?;
    assert!(rt; nf_eq(&form.copy(rt.alloc())?, &simple));
    assert!(rt; !has_exists(&form));
    Ok(())
}

// the sides of a disjunction change places, and take their universals' numbers along
#[test]
fn sorted_sides(rt: HostRuntime) -> Result<(), Fail> {
    let swapped = two_universals(rt.alloc(), "q", "p")?;
    let still = two_universals(rt.alloc(), "p", "q")?;
    assert!(rt; nf_eq(&swapped.form, &still.form));
    assert_eq!(rt; swapped.alls.as_slice(), [1, 0].as_slice());
    assert_eq!(rt; still.alls.as_slice(), [0, 1].as_slice());
    Ok(())
}
