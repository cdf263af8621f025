//! From names to numbers.
#![tactic(auto, using(crate::proofs::MeaningSteps::meaning_steps))]

ghost use Rattle.std.specs.Prelude.{◌≡◌, [], ◌∷◌, map, IfOk};
ghost use Rattle.tptp_formulas.specs.Meaning.{chained, connected, constant, exists, for_all, formula_of, linked, number, symbol, term_of, wrapped};
ghost use Rattle.tptp_formulas.specs.Scopes.{each};

use crate::outside::names_true;
use crate::raw::{Connective, Link, Prefix, Raw, RawTerm};
use crate::scopes::{bind, unbind};
use dk_syntax::{Boxed, Formula, Kind, Name, NoMemory, Seq, SymKey, Term};
use std::alloc::Global;

/// How many quantifiers stand between a variable and the nearest one of its name.
fn find_number(name: &Name, bound: &[Name]) -> Option<usize>
    ensures { result ≡ number name.now bound.now }
{
    match bound {
        [] => None,
        [first, others @ ..] => match find_number(name, others) {
            Some(k) => Some(k),
            None => {
                if name.same(first) {
                    Some(others.len())
                } else {
                    None
                }
            }
        },
    }
}

fn make_symbol(alloc: Global, name: &Name, arity: usize, kind: Kind) -> Result<SymKey, NoMemory>
    ensures { IfOk result (λ s. s ≡ symbol name.now arity kind) }
{
    let name = name.copy(alloc)?;
    match u32::try_from(arity) {
        Ok(arity) => Ok(SymKey { name, arity, kind }),
        Err(_) => Err(NoMemory),
    }
}

/// The term where these names are bound.
#[cycle(build_term)]
fn build_term(alloc: Global, raw: &RawTerm, bound: &[Name]) -> Result<Term, NoMemory>
    ensures { IfOk result (λ term. term ≡ term_of raw.now bound.now) }
{
    match raw {
        RawTerm::Variable(name) => match find_number(name, bound) {
            None => Ok(Term::Any),
            Some(k) => match u32::try_from(k) {
                Ok(k) => Ok(Term::Var(k)),
                Err(_) => Err(NoMemory),
            },
        },
        RawTerm::Apply(name, args) => {
            let symbol = make_symbol(alloc, name, args.len(), Kind::Function)?;
            let args = build_terms(alloc, args.as_slice(), bound)?;
            Ok(Term::App(symbol, args))
        }
        RawTerm::Number(_) => Ok(Term::Any),
        RawTerm::Distinct(_) => Ok(Term::Any),
        RawTerm::Dollar(_, _) => Ok(Term::Any),
    }
}

#[cycle(build_term)]
fn build_terms(alloc: Global, raws: &[RawTerm], bound: &[Name]) -> Result<Seq<Term>, NoMemory>
    ensures { IfOk result (λ all. all ≡ each bound.now (map term_of raws.now)) }
{
    let mut all = Seq::from_vec(Vec::with_capacity(alloc, raws.len())?);
    for raw in raws {
        all.push(build_term(alloc, raw, bound)?)?;
    }
    Ok(all)
}

fn link(alloc: Global, by: Link, a: Formula, b: Formula) -> Result<Formula, NoMemory>
    ensures { IfOk result (λ f. f ≡ linked by a b) }
{
    let a = Boxed::new(alloc, a)?;
    let b = Boxed::new(alloc, b)?;
    match by {
        Link::And => Ok(Formula::And(a, b)),
        Link::Or => Ok(Formula::Or(a, b)),
    }
}

fn negate(alloc: Global, f: Formula) -> Result<Formula, NoMemory>
    ensures { IfOk result (λ g. g ≡ Formula.Not f) }
{
    Ok(Formula::Not(Boxed::new(alloc, f)?))
}

fn connect(alloc: Global, by: Connective, a: Formula, b: Formula) -> Result<Formula, NoMemory>
    ensures { IfOk result (λ f. f ≡ connected by a b) }
{
    let a = Boxed::new(alloc, a)?;
    let b = Boxed::new(alloc, b)?;
    match by {
        Connective::Implies => Ok(Formula::Imp(a, b)),
        Connective::ImpliedBy => Ok(Formula::Imp(b, a)),
        Connective::Iff => Ok(Formula::Iff(a, b)),
        Connective::Differs => negate(alloc, Formula::Iff(a, b)),
        Connective::Nor => negate(alloc, Formula::Or(a, b)),
        Connective::Nand => negate(alloc, Formula::And(a, b)),
    }
}

/// Puts a universal quantifier around the formula for each name.
pub fn close_over(alloc: Global, names: &[Name], f: Formula) -> Result<Formula, NoMemory>
    ensures { IfOk result (λ g. g ≡ for_all names.now f) }
{
    let mut whole = f;
    for _name in names {
        whole = Formula::All(Boxed::new(alloc, whole)?);
    }
    Ok(whole)
}

fn exist_over(alloc: Global, names: &[Name], f: Formula) -> Result<Formula, NoMemory>
    ensures { IfOk result (λ g. g ≡ exists names.now f) }
{
    let mut whole = f;
    for _name in names {
        whole = Formula::Ex(Boxed::new(alloc, whole)?);
    }
    Ok(whole)
}

/// Puts one prefix around the formula.
#[inline(never)]
fn wrap_once(alloc: Global, prefix: &Prefix, f: Formula) -> Result<Formula, NoMemory>
    ensures { IfOk result (λ g. g ≡ wrapped (prefix.now ∷ []) f) }
{
    match prefix {
        Prefix::Not => negate(alloc, f),
        Prefix::ForAll(names) => close_over(alloc, names.as_slice(), f),
        Prefix::Exists(names) => exist_over(alloc, names.as_slice(), f),
    }
}

/// Puts prefixes around the formula. It goes down the list by recursion, so its length has to be tested.
fn wrap(alloc: Global, prefixes: &[Prefix], f: Formula) -> Result<Formula, NoMemory>
    ensures { IfOk result (λ g. g ≡ wrapped prefixes.now f) }
{
    match prefixes {
        [] => Ok(f),
        [first, rest @ ..] => {
            let f = wrap(alloc, rest, f)?;
            wrap_once(alloc, first, f)
        }
    }
}

fn build_constant(name: &Name) -> Formula
    ensures { result ≡ constant name.now }
{
    if names_true(name) {
        Formula::True
    } else {
        Formula::False
    }
}

/// The formula where these names are bound, the nearest last. They are left bound.
#[cycle(build_formula)]
pub fn build_formula(alloc: Global, raw: &Raw, bound: &mut Seq<Name>) -> Result<Formula, NoMemory>
    ensures built { IfOk result (λ f. f ≡ formula_of raw.now bound.old) }
    ensures bound { IfOk result (λ f. bound.new ≡ bound.old) }
{
    match raw {
        Raw::Atom(name, args) => {
            let symbol = make_symbol(alloc, name, args.len(), Kind::Predicate)?;
            let args = build_terms(alloc, args.as_slice(), bound.as_slice())?;
            Ok(Formula::Atom(symbol, args))
        }
        Raw::Dollar(name, _) => Ok(build_constant(name)),
        Raw::Equation(_, _, _) => Ok(Formula::False),
        Raw::Unit(prefixes, inner) => {
            let around = bound.len();
            bind(alloc, bound, prefixes.as_slice())?;
            let f = build_formula(alloc, inner.get(), bound)?;
            unbind(bound, around);
            wrap(alloc, prefixes.as_slice(), f)
        }
        Raw::Binary(connective, left, right) => {
            let left = build_formula(alloc, left.get(), bound)?;
            let right = build_formula(alloc, right.get(), bound)?;
            connect(alloc, *connective, left, right)
        }
        Raw::Chain(by, first, others) => {
            let first = build_formula(alloc, first.get(), bound)?;
            chain(alloc, others.as_slice(), *by, first, bound)
        }
    }
}

#[cycle(build_formula)]
fn chain(
    alloc: Global,
    others: &[Raw],
    by: Link,
    first: Formula,
    bound: &mut Seq<Name>,
) -> Result<Formula, NoMemory>
    ensures built { IfOk result (λ f. f ≡ chained by first
        (each bound.old (map formula_of others.now))) }
    ensures bound { IfOk result (λ f. bound.new ≡ bound.old) }
{
    let mut whole = first;
    for other in others {
        let f = build_formula(alloc, other, bound)?;
        whole = link(alloc, by, whole, f)?;
    }
    Ok(whole)
}
