//! Tables of ground terms: numbers and sizes worked by hand.
ghost use Rattle.std.specs.Prelude.{◌<◌, length, IsTrue};
ghost use Rattle.std.specs.List.{All};

use dk_syntax::{Kind, Name, NoMemory, Seq, SymKey, Term, TermTable, same_term};
use std::alloc::Global;
use std::test::Fail;

fn function(alloc: Global, name: &str, arity: u32) -> Result<SymKey, NoMemory> {
    let name = Name::new(Vec::from_slice(alloc, name.as_bytes())?);
    let kind = Kind::Function;
    Ok(SymKey { name, arity, kind })
}

fn has_room(table: &TermTable) -> bool
    ensures { IsTrue result → length table.now < 4294967295 }
{
    table.len() < u32::MAX
}

fn are_numbers(table: &TermTable, args: &Seq<u32>) -> bool
    ensures { IsTrue result → All (λ n. n < length table.now) args.now }
{
    let many = table.len();
    args.as_slice().iter().all(|n| *n < many)
}

/// The number of `Any`, where the table takes one term more.
fn any(alloc: Global, table: &mut TermTable) -> Result<Option<u32>, NoMemory> {
    if !has_room(table) {
        return Ok(None);
    }
    Ok(Some(table.any(alloc)?))
}

/// The number of the symbol at these arguments, where the table takes one term more and has them.
fn add(
    alloc: Global,
    table: &mut TermTable,
    head: &SymKey,
    args: &[u32],
) -> Result<Option<u32>, NoMemory> {
    let args = Seq::from_vec(Vec::from_slice(alloc, args)?);
    if !has_room(table) {
        return Ok(None);
    }
    if !are_numbers(table, &args) {
        return Ok(None);
    }
    Ok(Some(table.add(alloc, head, &args)?))
}

fn size(table: &TermTable, n: u32) -> Option<u64> {
    if n < table.len() {
        Some(table.size(n))
    } else {
        None
    }
}

fn term(alloc: Global, table: &TermTable, n: u32) -> Result<Option<Term>, NoMemory> {
    if n < table.len() {
        return Ok(Some(table.term(alloc, n)?));
    }
    Ok(None)
}

#[test]
fn a_term_has_one_number(rt: HostRuntime) -> Result<(), Fail> {
    let alloc = rt.alloc();
    let mut table = TermTable::new(alloc)?;
    let constant = function(alloc, "a", 0)?;
    let pair = function(alloc, "f", 2)?;
    assert_eq!(rt; any(alloc, &mut table)?, Some(0));
    assert_eq!(rt; add(alloc, &mut table, &constant, &[])?, Some(1));
    assert_eq!(rt; add(alloc, &mut table, &pair, &[1, 0])?, Some(2));
    assert_eq!(rt; add(alloc, &mut table, &pair, &[0, 1])?, Some(3));
    assert_eq!(rt; add(alloc, &mut table, &pair, &[1, 0])?, Some(2));
    assert_eq!(rt; any(alloc, &mut table)?, Some(0));
    assert_eq!(rt; table.len(), 4);
    let args = Seq::from_vec(vec![in alloc; Term::App(constant, Seq::new(alloc)), Term::Any]?);
    let wanted = Term::App(pair, args);
    let found = term(alloc, &table, 2)?;
    assert!(rt; found.is_some_and(|term| same_term(&term, &wanted)));
    Ok(())
}

// Each term has the one before twice: the tree of the k-th has 2^k - 1 symbols, from 1.
#[test]
fn sizes_are_those_of_trees(rt: HostRuntime) -> Result<(), Fail> {
    let alloc = rt.alloc();
    let mut table = TermTable::new(alloc)?;
    let constant = function(alloc, "a", 0)?;
    let pair = function(alloc, "f", 2)?;
    let mut last = add(alloc, &mut table, &constant, &[])?.unwrap_or(0);
    for _ in 1..100 {
        last = add(alloc, &mut table, &pair, &[last, last])?.unwrap_or(0);
    }
    assert_eq!(rt; table.len(), 100);
    assert_eq!(rt; size(&table, 1), Some(3));
    assert_eq!(rt; size(&table, 62), Some(9_223_372_036_854_775_807));
    assert_eq!(rt; size(&table, 63), Some(18_446_744_073_709_551_615));
    assert_eq!(rt; size(&table, last), Some(18_446_744_073_709_551_615));
    Ok(())
}
