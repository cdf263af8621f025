//! What stands in one form at the first place of a variable of another.
#![tactic(auto, using(crate::proofs::SeenTerms::seen_steps))]

ghost use Rattle.std.specs.Prelude.{◌≡◌, None, Some, IfOk, MatchOption};
ghost use Rattle.normal_form.specs.Forms.{ex, form_of};
ghost use Rattle.step_skolem.specs.Searching.{applied_in, row_le, seen, seen_literal, seen_term, seen_terms, variable_of, variables_of};

use crate::map::sum_of;
use dk_syntax::{Literal, NoMemory, Seq, SymKey, Term};
use normal_form::Nf;
use std::alloc::Global;

/// A symbol applied to variables.
#[derive(Drop)]
pub struct Applied {
    pub symbol: SymKey,
    pub variables: Seq<u32>,
}

/// Whether the row of existentials at the front is no longer than the other's.
pub fn is_row_within(nf: &Nf, other: &Nf) -> bool
    ensures { result ≡ row_le (form_of nf.now) (form_of other.now) }
{
    match nf {
        Nf::Ex(a) => match other {
            Nf::Ex(b) => is_row_within(a.get(), b.get()),
            _ => false,
        },
        _ => true,
    }
}

/// What stands in the second form at the first place of variable `k` of the first, if a symbol applied to variables
/// does; its variables are counted without the `between` quantifiers that the second form has around.
#[cycle(seen_in)]
pub fn seen_in(
    alloc: Global,
    between: u32,
    k: u32,
    from: &Nf,
    to: &Nf,
) -> Result<Option<Applied>, NoMemory>
    ensures { IfOk result (λ answer. answer ≡ seen between k (form_of from.now) (form_of to.now)) }
{
    match from {
        Nf::True | Nf::False => Ok(None),
        Nf::Lit(literal) => match to {
            Nf::Lit(there) => seen_in_literal(alloc, between, k, literal, there),
            _ => Ok(None),
        },
        Nf::And(a, b) => match to {
            Nf::And(c, d) => match seen_in(alloc, between, k, a.get(), c.get())? {
                Some(applied) => Ok(Some(applied)),
                None => seen_in(alloc, between, k, b.get(), d.get()),
            },
            _ => Ok(None),
        },
        Nf::Or(a, b) => match to {
            Nf::Or(c, d) => match seen_in(alloc, between, k, a.get(), c.get())? {
                Some(applied) => Ok(Some(applied)),
                None => seen_in(alloc, between, k, b.get(), d.get()),
            },
            _ => Ok(None),
        },
        Nf::All(a) => match to {
            Nf::All(c) => seen_in(alloc, sum_of(between, 1)?, sum_of(k, 1)?, a.get(), c.get()),
            _ => Ok(None),
        },
        Nf::Ex(a) => seen_in_existential(alloc, between, k, a.get(), to),
    }
}

/// The same in an existential's body, which the second form keeps or replaces.
#[cycle(seen_in)]
fn seen_in_existential(
    alloc: Global,
    between: u32,
    k: u32,
    a: &Nf,
    to: &Nf,
) -> Result<Option<Applied>, NoMemory>
    ensures { IfOk result (λ answer. answer ≡ seen between k (ex (form_of a.now)) (form_of to.now)) }
{
    let inner = sum_of(k, 1)?;
    if is_row_within(to, a) {
        return seen_in(alloc, between, inner, a, to);
    }
    match to {
        Nf::Ex(c) => seen_in(alloc, sum_of(between, 1)?, inner, a, c.get()),
        _ => Ok(None),
    }
}

fn seen_in_literal(
    alloc: Global,
    between: u32,
    k: u32,
    literal: &Literal,
    there: &Literal,
) -> Result<Option<Applied>, NoMemory>
    ensures { IfOk result (λ answer. answer ≡ seen_literal between k literal.now there.now) }
{
    match seen_in_terms(k, literal.args.as_slice(), there.args.as_slice()) {
        Some(term) => applied_from(alloc, between, term),
        None => Ok(None),
    }
}

#[cycle(seen_in_term)]
fn seen_in_term<'a>(k: u32, term: &Term, there: &'a Term) -> Option<&'a Term>
    ensures { MatchOption result (seen_term k term.now there.now ≡ None)
        (λ seen. seen_term k term.now there.now ≡ Some seen.now) }
{
    match term {
        Term::Var(j) => { if *j == k { Some(there) } else { None } }
        Term::App(_, args) => match there {
            Term::App(_, others) => seen_in_terms(k, args.as_slice(), others.as_slice()),
            Term::Var(_) => None,
            Term::Any => None,
        },
        Term::Any => None,
    }
}

#[cycle(seen_in_term)]
fn seen_in_terms<'a>(k: u32, terms: &[Term], there: &'a [Term]) -> Option<&'a Term>
    ensures { MatchOption result (seen_terms k terms.now there.now ≡ None)
        (λ seen. seen_terms k terms.now there.now ≡ Some seen.now) }
{
    for place in 0..terms.len() {
        if place >= there.len() {
            return None;
        }
        if let Some(seen) = seen_in_term(k, &terms[place], &there[place]) {
            return Some(seen);
        }
    }
    None
}

fn applied_from(alloc: Global, between: u32, term: &Term) -> Result<Option<Applied>, NoMemory>
    ensures { IfOk result (λ answer. answer ≡ applied_in between term.now) }
{
    match term {
        Term::App(symbol, args) => match variables_from(alloc, between, args.as_slice())? {
            Some(variables) => Ok(Some(Applied {
                symbol: symbol.copy(alloc)?,
                variables,
            })),
            None => Ok(None),
        },
        _ => Ok(None),
    }
}

fn variables_from(alloc: Global, between: u32, terms: &[Term]) -> Result<Option<Seq<u32>>, NoMemory>
    ensures { IfOk result (λ answer. answer ≡ variables_of between terms.now) }
{
    let mut variables = Seq::from_vec(Vec::with_capacity(alloc, terms.len())?);
    for term in terms {
        match variable_from(between, term) {
            Some(variable) => variables.push(variable)?,
            None => return Ok(None),
        }
    }
    Ok(Some(variables))
}

fn variable_from(between: u32, term: &Term) -> Option<u32>
    ensures { result ≡ variable_of between term.now }
{
    match term {
        Term::Var(y) if *y >= between => Some(*y - between),
        _ => None,
    }
}
