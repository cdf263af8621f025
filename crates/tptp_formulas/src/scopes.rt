//! Names that are bound, and free variables.
#![tactic(auto, using(crate::proofs::ScopeSteps::scope_steps))]

ghost use Rattle.std.specs.Prelude.{◌≡◌, [], ◌++◌, map, take, IfOk, OnOk};
ghost use Rattle.dk_syntax.specs.Symbols.{joined};
ghost use Rattle.tptp_formulas.specs.FewNames.{few_names, with_few};
ghost use Rattle.tptp_formulas.specs.Scopes.{each, free_in, has_name, names_of, term_variables, unbound};

use crate::raw::{Prefix, Raw, RawTerm};
use dk_syntax::{Name, NoMemory, Seq};
use std::alloc::Global;

/// Whether the name is one of them.
fn has(names: &[Name], name: &Name) -> bool
    ensures { result ≡ has_name names.now name.now }
{
    for one in names {
        if name.same(one) {
            return true;
        }
    }
    false
}

fn add_names(alloc: Global, all: &mut Seq<Name>, names: &[Name]) -> Result<(), NoMemory>
    ensures { OnOk result (all.new ≡ all.old ++ names.now) }
{
    for name in names {
        all.push(name.copy(alloc)?)?;
    }
    Ok(())
}

/// Binds the names of the prefixes, behind those that are bound around them.
pub fn bind(alloc: Global, bound: &mut Seq<Name>, prefixes: &[Prefix]) -> Result<(), NoMemory>
    ensures { OnOk result (bound.new ≡ bound.old ++ names_of prefixes.now) }
{
    for prefix in prefixes {
        match prefix {
            Prefix::Not => {}
            Prefix::ForAll(names) => add_names(alloc, bound, names.as_slice())?,
            Prefix::Exists(names) => add_names(alloc, bound, names.as_slice())?,
        }
    }
    Ok(())
}

/// Leaves so many names bound, the outermost ones.
pub fn unbind(bound: &mut Seq<Name>, left: usize)
    ensures { bound.new ≡ take left bound.old }
{
    while bound.len() > left {
        let _ = bound.pop();
    }
}

fn add_name(alloc: Global, seen: &mut Seq<Name>, name: &Name) -> Result<(), NoMemory>
    ensures { OnOk result (seen.new ≡ with_few seen.old name.now) }
{
    if seen.len() > 1000 || has(seen.as_slice(), name) {
        return Ok(());
    }
    seen.push(name.copy(alloc)?)?;
    Ok(())
}

/// Adds the term's variables that are not bound.
#[cycle(add_term)]
fn add_term(
    alloc: Global,
    seen: &mut Seq<Name>,
    term: &RawTerm,
    bound: &[Name],
) -> Result<(), NoMemory>
    ensures { OnOk result (seen.new ≡ few_names seen.old
        (unbound bound.now (term_variables term.now))) }
{
    match term {
        RawTerm::Variable(name) => {
            if has(bound, name) {
                return Ok(());
            }
            add_name(alloc, seen, name)
        }
        RawTerm::Apply(_, args) => add_terms(alloc, seen, args.as_slice(), bound),
        RawTerm::Dollar(_, args) => add_terms(alloc, seen, args.as_slice(), bound),
        RawTerm::Number(_) | RawTerm::Distinct(_) => Ok(()),
    }
}

#[cycle(add_term)]
fn add_terms(
    alloc: Global,
    seen: &mut Seq<Name>,
    terms: &[RawTerm],
    bound: &[Name],
) -> Result<(), NoMemory>
    ensures { OnOk result (seen.new ≡ few_names seen.old
        (unbound bound.now (joined (map term_variables terms.now)))) }
{
    for term in terms {
        add_term(alloc, seen, term, bound)?;
    }
    Ok(())
}

/// Adds the formula's free variables, and leaves the names bound that were.
#[cycle(add_free)]
fn add_free(
    alloc: Global,
    seen: &mut Seq<Name>,
    raw: &Raw,
    bound: &mut Seq<Name>,
) -> Result<(), NoMemory>
    ensures added { OnOk result (seen.new ≡ few_names seen.old (free_in raw.now bound.old)) }
    ensures bound { OnOk result (bound.new ≡ bound.old) }
{
    match raw {
        Raw::Atom(_, args) => add_terms(alloc, seen, args.as_slice(), bound.as_slice()),
        Raw::Dollar(_, args) => add_terms(alloc, seen, args.as_slice(), bound.as_slice()),
        Raw::Equation(_, left, right) => {
            add_term(alloc, seen, left, bound.as_slice())?;
            add_term(alloc, seen, right, bound.as_slice())
        }
        Raw::Unit(prefixes, inner) => {
            let around = bound.len();
            bind(alloc, bound, prefixes.as_slice())?;
            add_free(alloc, seen, inner.get(), bound)?;
            unbind(bound, around);
            Ok(())
        }
        Raw::Binary(_, left, right) => {
            add_free(alloc, seen, left.get(), bound)?;
            add_free(alloc, seen, right.get(), bound)
        }
        Raw::Chain(_, first, others) => {
            add_free(alloc, seen, first.get(), bound)?;
            add_all_free(alloc, seen, others.as_slice(), bound)
        }
    }
}

#[cycle(add_free)]
fn add_all_free(
    alloc: Global,
    seen: &mut Seq<Name>,
    formulas: &[Raw],
    bound: &mut Seq<Name>,
) -> Result<(), NoMemory>
    ensures added { OnOk result (seen.new
        ≡ few_names seen.old (joined (each bound.old (map free_in formulas.now)))) }
    ensures bound { OnOk result (bound.new ≡ bound.old) }
{
    for formula in formulas {
        add_free(alloc, seen, formula, bound)?;
    }
    Ok(())
}

/// The free variables, each once, in order of first occurrence in the text; of more than 1,001 the
/// first 1,001.
pub fn few_free(alloc: Global, raw: &Raw) -> Result<Seq<Name>, NoMemory>
    ensures { IfOk result (λ names. names ≡ few_names [] (free_in raw.now [])) }
{
    let mut seen = Seq::from_vec(Vec::new(alloc));
    let mut bound = Seq::from_vec(Vec::new(alloc));
    add_free(alloc, &mut seen, raw, &mut bound)?;
    Ok(seen)
}
