//! The pattern variables of a term.
ghost use Rattle.std.specs.Prelude.{◌≡◌, ◌++◌, ◌+◌, ◌<◌, IfOk, OnOk};
ghost use Rattle.dedukti_text.specs.Patterns.{pattern_names, patterns_in, with_name, with_names};
ghost use Rattle.dedukti_text.specs.Pieces.{term_weight};
ghost use Rattle.dedukti_text.specs.Walks.{names_of, rest_patterns, rest_weight};

use dk_syntax::{NoMemory, Seq};
use indexmap::IndexSet;
use lp_term::{Ident, Lp};
use std::alloc::Global;

/// The name at the end, unless it is there.
fn add_name(alloc: Global, seen: &mut IndexSet<Vec<u8>>, name: &Ident) -> Result<(), NoMemory>
    ensures { OnOk result (names_of seen.new.keys ≡ with_name (names_of seen.old.keys) name.now) }
{
    let name = Vec::from_slice(alloc, name.as_bytes())?;
    seen.insert(name)?;
    Ok(())
}

/// The first and then the second part are to come.
fn add_both<'a>(rest: &mut Vec<&'a Lp>, first: &'a Lp, second: &'a Lp) -> Result<(), NoMemory>
    ensures names { OnOk result (rest_patterns rest.new.items
        ≡ patterns_in first.now ++ (patterns_in second.now ++ rest_patterns rest.old.items)) }
    ensures weight { OnOk result (rest_weight rest.new.items
        ≡ term_weight first.now + term_weight second.now + rest_weight rest.old.items) }
{
    rest.push(second)?;
    rest.push(first)?;
    Ok(())
}

fn visit<'a>(
    alloc: Global,
    seen: &mut IndexSet<Vec<u8>>,
    rest: &mut Vec<&'a Lp>,
    t: &'a Lp,
) -> Result<(), NoMemory>
    ensures names { OnOk result (with_names (names_of seen.new.keys) (rest_patterns rest.new.items)
        ≡ with_names (names_of seen.old.keys) (patterns_in t.now
        ++ rest_patterns rest.old.items)) }
    ensures weight { OnOk result (rest_weight rest.new.items < term_weight t.now
        + rest_weight rest.old.items) }
{
    match t {
        Lp::Sort | Lp::Sym(_) | Lp::Var(_) => Ok(()),
        Lp::Pat(name) => add_name(alloc, seen, name),
        Lp::App(function, argument) => add_both(rest, function.get(), argument.get()),
        Lp::Lam(domain, body) => add_both(rest, domain.get(), body.get()),
        Lp::Pi(domain, body) => add_both(rest, domain.get(), body.get()),
    }
}

fn names_in(alloc: Global, t: &Lp) -> Result<IndexSet<Vec<u8>>, NoMemory>
    ensures { IfOk result (λ seen. names_of seen.keys ≡ pattern_names t.now) }
{
    let mut seen = IndexSet::new(alloc);
    let mut rest = Vec::new(alloc);
    rest.push(t)?;
    while let Some(next) = rest.pop() {
        visit(alloc, &mut seen, &mut rest, next)?;
    }
    Ok(seen)
}

fn copied(alloc: Global, names: &[Vec<u8>]) -> Result<Seq<Ident>, NoMemory>
    ensures { IfOk result (λ all. all ≡ names_of names.now) }
{
    let mut all = Seq::new(alloc);
    for name in names {
        all.push(Ident::new(Vec::from_slice(alloc, name)?))?;
    }
    Ok(all)
}

/// Each pattern variable once, by first occurrence. They are looked up by a hash, and calls do not nest.
pub fn pattern_names(alloc: Global, t: &Lp) -> Result<Seq<Ident>, NoMemory>
    ensures { IfOk result (λ names. names ≡ pattern_names t.now) }
{
    let seen = names_in(alloc, t)?;
    copied(alloc, seen.as_slice())
}
