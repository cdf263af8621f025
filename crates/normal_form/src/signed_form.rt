//! The signed normal form of a formula.
#![tactic(auto, using(crate::proofs::Steps::draft_steps))]

ghost use Rattle.std.specs.Prelude.{◌≡◌, ◌∷◌, ◌≤◌, if◌then◌else◌, reverse, IfErr, IfOk, OnOk};
ghost use Rattle.normal_form.specs.Drafts.{quantified_form, settled, two_joined};
ghost use Rattle.normal_form.specs.Faults.{FormFault};
ghost use Rattle.normal_form.specs.Normal.{literal_of, nodes_of, normal_of};
ghost use Rattle.normal_form.specs.Renaming.{new_number, renamed_literal};
ghost use Rattle.normal_form.specs.Truth.{SameTruth, SameTruthOver};

use crate::count::count_nodes;
use crate::draft::{Draft, draft_of};
use crate::form::{Nf, boxed};
use crate::rename::{Naming, inside, rename_terms};
use dk_syntax::{Boxed, Formula, Literal, NoMemory, Seq, SymKey, Term};
use std::alloc::Global;

/// Why there is no normal form.
#[derive(Clone, Copy, Debug, PartialEq, Eq)]
pub enum NfFault {
    /// It has more than 100,000 nodes: so many, or the greatest `u64` where they are more.
    TooLarge { nodes: u64 },
    Memory,
}

/// The normal form of a formula with the sign, true for the positive one. Its nodes are counted
/// before any is built, and the form is true exactly where the signed formula is.
pub fn normal(alloc: Global, sign: bool, f: &Formula) -> Result<Nf, NfFault>
    ensures form { IfOk result (λ nf. nf ≡ normal_of f.now sign) }
    ensures truth { IfOk result (λ nf. SameTruth f.now sign nf) }
    ensures limit { IfOk result (λ nf. nodes_of nf ≤ 100000) }
    ensures fault { IfErr result (λ fault. FormFault f.now sign fault) }
{
    let nodes = match count_nodes(alloc, f) {
        Ok(sizes) if sign => sizes.positive,
        Ok(sizes) => sizes.negative,
        Err(NoMemory) => return Err(NfFault::Memory),
    };
    if nodes > 100_000 {
        return Err(NfFault::TooLarge { nodes });
    }
    match form_of(alloc, f, sign) {
        Ok(nf) => Ok(nf.into_inner()),
        Err(NoMemory) => Err(NfFault::Memory),
    }
}

/// Over each domain a normal form is true exactly where the signed formula is.
pub fn keeps_truth<D>(f: &Formula, sign: bool, nf: &Nf)
    requires { nf.now ≡ normal_of f.now sign }
    ensures { SameTruthOver D f.now sign nf.now }
{}

fn form_of(alloc: Global, f: &Formula, sign: bool) -> Result<Boxed<Nf>, NoMemory>
    ensures { IfOk result (λ nf. nf ≡ normal_of f.now sign) }
{
    let mut marks = Vec::new(alloc);
    let draft = draft_of(alloc, f, &mut marks)?;
    let mut around = Vec::new(alloc);
    build(alloc, draft.get(), sign, &mut around, 0)
}

/// The form of a draft, of whose quantifiers around so many are dropped by now. The list has for each of them, the
/// inmost last, how many were dropped before its body.
#[cycle(build)]
fn build(
    alloc: Global,
    draft: &Draft,
    sign: bool,
    around: &mut Vec<u32>,
    dropped: u32,
) -> Result<Boxed<Nf>, NoMemory>
    ensures form { IfOk result (λ nf. nf ≡ settled draft.now sign (reverse around.old.items)
        dropped) }
    ensures around { OnOk result (around.new.items ≡ around.old.items) }
{
    match draft {
        Draft::True => constant(alloc, sign),
        Draft::False => constant(alloc, !sign),
        Draft::Atom(symbol, args) => {
            let naming = Naming::Kept(around.as_slice(), dropped);
            literal(alloc, sign, symbol, args, naming)
        }
        Draft::Not(a) => build(alloc, a.get(), !sign, around, dropped),
        Draft::And(a, b) => {
            let a = build(alloc, a.get(), sign, around, dropped)?;
            let b = build(alloc, b.get(), sign, around, dropped)?;
            joined(alloc, a, b, sign)
        }
        Draft::Or(a, b) => {
            let a = build(alloc, a.get(), sign, around, dropped)?;
            let b = build(alloc, b.get(), sign, around, dropped)?;
            joined(alloc, a, b, !sign)
        }
        Draft::Iff(a, b) => {
            let a_true = build(alloc, a.get(), true, around, dropped)?;
            let a_false = build(alloc, a.get(), false, around, dropped)?;
            let b_true = build(alloc, b.get(), true, around, dropped)?;
            let b_false = build(alloc, b.get(), false, around, dropped)?;
            if sign {
                return pairs(alloc, a_false, b_true, b_false, a_true);
            }
            pairs(alloc, a_true, b_true, a_false, b_false)
        }
        Draft::All(a) => {
            let a = build_body(alloc, a.get(), sign, around, dropped)?;
            quantified(alloc, a, sign)
        }
        Draft::Ex(a) => {
            let a = build_body(alloc, a.get(), sign, around, dropped)?;
            quantified(alloc, a, !sign)
        }
        Draft::Vacuous(a) => build_body(alloc, a.get(), sign, around, inside(dropped)?),
    }
}

#[cycle(build)]
fn build_body(
    alloc: Global,
    body: &Draft,
    sign: bool,
    around: &mut Vec<u32>,
    dropped: u32,
) -> Result<Boxed<Nf>, NoMemory>
    ensures form { IfOk result (λ nf. nf ≡ settled body.now sign
        (dropped ∷ reverse around.old.items) dropped) }
    ensures around { OnOk result (around.new.items ≡ around.old.items) }
{
    around.push(dropped)?;
    let form = build(alloc, body, sign, around, dropped)?;
    around.pop();
    Ok(form)
}

fn constant(alloc: Global, truth: bool) -> Result<Boxed<Nf>, NoMemory>
    ensures { IfOk result (λ form. form ≡ (if truth then Nf.True else Nf.False)) }
{
    if truth {
        return boxed(alloc, Nf::True);
    }
    boxed(alloc, Nf::False)
}

fn literal(
    alloc: Global,
    sign: bool,
    symbol: &SymKey,
    args: &Seq<Term>,
    naming: Naming<'_>,
) -> Result<Boxed<Nf>, NoMemory>
    ensures { IfOk result (λ form. form ≡ Nf.Lit
        (renamed_literal (new_number naming.entry) (literal_of sign symbol.now args.now))) }
{
    let literal = Literal {
        positive: sign,
        pred: symbol.copy(alloc)?,
        args: rename_terms(alloc, args.as_slice(), naming)?,
    };
    boxed(alloc, Nf::Lit(literal))
}

/// The conjunction of two forms, or their disjunction.
fn joined(alloc: Global, a: Boxed<Nf>, b: Boxed<Nf>, both: bool) -> Result<Boxed<Nf>, NoMemory>
    ensures { IfOk result (λ form. form ≡ two_joined both a b) }
{
    if both {
        return boxed(alloc, Nf::And(a, b));
    }
    boxed(alloc, Nf::Or(a, b))
}

/// The universal of a form, or its existential.
fn quantified(alloc: Global, a: Boxed<Nf>, each: bool) -> Result<Boxed<Nf>, NoMemory>
    ensures { IfOk result (λ form. form ≡ quantified_form each a) }
{
    if each {
        return boxed(alloc, Nf::All(a));
    }
    boxed(alloc, Nf::Ex(a))
}

/// `(a or b) and (c or d)`.
fn pairs(
    alloc: Global,
    a: Boxed<Nf>,
    b: Boxed<Nf>,
    c: Boxed<Nf>,
    d: Boxed<Nf>,
) -> Result<Boxed<Nf>, NoMemory>
    ensures { IfOk result (λ form. form ≡ Nf.And (Nf.Or a b) (Nf.Or c d)) }
{
    let left = boxed(alloc, Nf::Or(a, b))?;
    let right = boxed(alloc, Nf::Or(c, d))?;
    boxed(alloc, Nf::And(left, right))
}
