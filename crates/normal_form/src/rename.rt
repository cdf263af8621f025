//! New numbers for variables.
#![tactic(auto, using(crate::proofs::FirstNumbers::place_steps))]

ghost use Rattle.std.specs.Prelude.{◌≡◌, ◌+◌, map, reverse, IfOk};
ghost use Rattle.normal_form.specs.Renaming.{kept_number, new_number, owner, place_of, renamed, renamed_literal};

use dk_syntax::{Literal, NoMemory, Seq, Term};
use indexmap::IndexSet;
use std::alloc::Global;

/// How a variable gets its new number.
#[derive(Clone, Copy)]
pub enum Naming<'a> {
    /// The universal that it belongs to, where those around are listed, the inmost last.
    Owner(&'a [u32]),
    /// The place of its universal in the set.
    Place(&'a IndexSet<u32>),
    /// Less the quantifiers between it and its own that are dropped: for each quantifier around, the inmost last,
    /// how many were dropped before its body, and how many are by now.
    Kept(&'a [u32], u32),
}

fn owner_in(around: &[u32], n: u32) -> u32
    ensures { result ≡ owner (reverse around.now) n }
{
    let from_last = n as usize;
    if from_last < around.len() {
        around[around.len() - 1 - from_last]
    } else {
        0
    }
}

fn index_in(universals: &IndexSet<u32>, n: u32) -> usize
    ensures { result ≡ place_of universals.now.keys n }
{
    match universals.get_index_of(&n) {
        Some(index) => index,
        None => universals.len(),
    }
}

/// The number, where it is in the range of variables.
pub fn in_range(number: usize) -> Result<u32, NoMemory>
    ensures { IfOk result (λ same. same ≡ number) }
{
    match u32::try_from(number) {
        Ok(same) => Ok(same),
        Err(_) => Err(NoMemory),
    }
}

fn kept_in(around: &[u32], dropped: u32, n: u32) -> u32
    ensures { result ≡ kept_number (reverse around.now) dropped n }
{
    let between = dropped.saturating_sub(owner_in(around, n));
    n.saturating_sub(between)
}

/// The number of a variable under one more quantifier.
pub fn inside(k: u32) -> Result<u32, NoMemory>
    ensures { IfOk result (λ inner. inner ≡ k + 1) }
{
    k.checked_add(1).ok_or(NoMemory)
}

fn rename(n: u32, naming: Naming<'_>) -> Result<u32, NoMemory>
    ensures { IfOk result (λ new. new ≡ new_number naming.entry n) }
{
    match naming {
        Naming::Owner(around) => Ok(owner_in(around, n)),
        Naming::Place(universals) => in_range(index_in(universals, n)),
        Naming::Kept(around, dropped) => Ok(kept_in(around, dropped, n)),
    }
}

#[cycle(rename_term)]
fn rename_term(alloc: Global, term: &Term, naming: Naming<'_>) -> Result<Term, NoMemory>
    ensures { IfOk result (λ new. new ≡ renamed (new_number naming.entry) term.now) }
{
    match term {
        Term::Var(n) => Ok(Term::Var(rename(*n, naming)?)),
        Term::App(symbol, args) => {
            let symbol = symbol.copy(alloc)?;
            let args = rename_terms(alloc, args.as_slice(), naming)?;
            Ok(Term::App(symbol, args))
        }
        Term::Any => Ok(Term::Any),
    }
}

/// The terms with a new number for each variable.
#[cycle(rename_term)]
pub fn rename_terms(
    alloc: Global,
    terms: &[Term],
    naming: Naming<'_>,
) -> Result<Seq<Term>, NoMemory>
    ensures { IfOk result (λ all. all ≡ map (renamed (new_number naming.entry)) terms.now) }
{
    let mut all = Seq::from_vec(Vec::new(alloc));
    for term in terms {
        all.push(rename_term(alloc, term, naming)?)?;
    }
    Ok(all)
}

pub fn rename_literal(
    alloc: Global,
    literal: &Literal,
    naming: Naming<'_>,
) -> Result<Literal, NoMemory>
    ensures { IfOk result (λ new. new ≡ renamed_literal (new_number naming.entry) literal.now) }
{
    Ok(Literal {
        positive: literal.positive,
        pred: literal.pred.copy(alloc)?,
        args: rename_terms(alloc, literal.args.as_slice(), naming)?,
    })
}

/// The literals with the place in the set as each variable's number.
pub fn rename_literals(
    alloc: Global,
    literals: &[Literal],
    universals: &IndexSet<u32>,
) -> Result<Seq<Literal>, NoMemory>
    ensures { IfOk result (λ all. all ≡ map (renamed_literal (place_of universals.now.keys))
        literals.now) }
{
    let mut all = Seq::from_vec(Vec::new(alloc));
    for literal in literals {
        all.push(rename_literal(alloc, literal, Naming::Place(universals))?)?;
    }
    Ok(all)
}
