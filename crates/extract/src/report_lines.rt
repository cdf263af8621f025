//! The lines of the report on an expansion.
ghost use Rattle.std.specs.Prelude.{◌≡◌, ◌++◌, codes, map, OnOk};
ghost use Rattle.std.specs.List.{flat_map};
ghost use Rattle.extract.specs.ExpansionReport as spec;
ghost use Rattle.tptp_text.specs.Printed.{printed_formula, printed_literal, printed_term, sign_text};

use crate::bytes::{put, put_item_name, put_number};
use dk_syntax::{Formula, Literal, Name, NoMemory, Term};
use expansion::Thin;
use ground_instances::Instance;
use skolem_order::Signed;
use std::alloc::Global;
use tptp_text::{formula_text, literal_text, term_text};

fn put_term(alloc: Global, out: &mut Vec<u8>, term: &Term) -> Result<(), NoMemory>
    ensures { OnOk result (out.new.items ≡ out.old.items ++ printed_term term.now 0) }
{
    let text = term_text(alloc, term, 0)?;
    out.extend_from_slice(&text)?;
    Ok(())
}

fn put_literal(alloc: Global, out: &mut Vec<u8>, literal: &Literal) -> Result<(), NoMemory>
    ensures { OnOk result (out.new.items ≡ out.old.items ++ printed_literal literal.now 0) }
{
    let text = literal_text(alloc, literal, 0)?;
    out.extend_from_slice(&text)?;
    Ok(())
}

fn put_formula(alloc: Global, out: &mut Vec<u8>, formula: &Formula) -> Result<(), NoMemory>
    ensures { OnOk result (out.new.items ≡ out.old.items ++ printed_formula formula.now 0) }
{
    let text = formula_text(alloc, formula, 0)?;
    out.extend_from_slice(&text)?;
    Ok(())
}

/// Terms that are not the first.
fn put_more_terms(alloc: Global, out: &mut Vec<u8>, terms: &[Term]) -> Result<(), NoMemory>
    ensures { OnOk result (out.new.items ≡ out.old.items ++ flat_map (λ term. codes ", " ++ printed_term term 0) terms.now) }
{
    for term in terms {
        put(out, ", ")?;
        put_term(alloc, out, term)?;
    }
    Ok(())
}

fn put_terms(alloc: Global, out: &mut Vec<u8>, terms: &[Term]) -> Result<(), NoMemory>
    ensures { OnOk result (out.new.items ≡ out.old.items ++ spec.terms_text terms.now) }
{
    match terms.split_first() {
        None => put(out, "none"),
        Some((first, more)) => {
            put_term(alloc, out, first)?;
            put_more_terms(alloc, out, more)
        }
    }
}

/// Literals that are not the first.
fn put_more_literals(alloc: Global, out: &mut Vec<u8>, literals: &[Literal]) -> Result<(), NoMemory>
    ensures { OnOk result (out.new.items ≡ out.old.items
        ++ flat_map (λ literal. codes " | " ++ printed_literal literal 0) literals.now) }
{
    for literal in literals {
        put(out, " | ")?;
        put_literal(alloc, out, literal)?;
    }
    Ok(())
}

fn put_clause(alloc: Global, out: &mut Vec<u8>, literals: &[Literal]) -> Result<(), NoMemory>
    ensures { OnOk result (out.new.items ≡ out.old.items ++ spec.clause_text literals.now) }
{
    match literals.split_first() {
        None => put(out, "$false"),
        Some((first, more)) => {
            put_literal(alloc, out, first)?;
            put_more_literals(alloc, out, more)
        }
    }
}

fn put_letters(out: &mut Vec<u8>, sides: &[bool]) -> Result<(), NoMemory>
    ensures { OnOk result (out.new.items ≡ out.old.items ++ map spec.side_letter sides.now) }
{
    for right in sides {
        out.push(if *right { b'R' } else { b'L' })?;
    }
    Ok(())
}

fn put_sides(out: &mut Vec<u8>, sides: &[bool]) -> Result<(), NoMemory>
    ensures { OnOk result (out.new.items ≡ out.old.items ++ spec.sides_text sides.now) }
{
    if sides.is_empty() {
        put(out, "none")
    } else {
        put_letters(out, sides)
    }
}

fn put_stage(out: &mut Vec<u8>, stage: u32) -> Result<(), NoMemory>
    ensures { OnOk result (out.new.items ≡ out.old.items ++ spec.stage_text stage) }
{
    if stage == 0 {
        return Ok(());
    }
    put(out, ".")?;
    put_number(out, u64::from(stage))
}

fn put_sign(out: &mut Vec<u8>, positive: bool) -> Result<(), NoMemory>
    ensures { OnOk result (out.new.items ≡ out.old.items ++ sign_text positive) }
{
    if positive { Ok(()) } else { put(out, "~") }
}

/// The line of the needed term at a place.
pub fn put_eigen(
    alloc: Global,
    out: &mut Vec<u8>,
    place: u64,
    term: &Term,
    origin: &Signed,
) -> Result<(), NoMemory>
    ensures { OnOk result (out.new.items ≡ out.old.items
        ++ spec.eigen_text place term.now origin.now) }
{
    put(out, "eigen ")?;
    put_number(out, place)?;
    put(out, " ")?;
    put_term(alloc, out, term)?;
    put(out, ": ")?;
    put_sign(out, origin.positive)?;
    put_formula(alloc, out, &origin.formula)?;
    put(out, "\n")
}

/// The line of a thin tree.
pub fn put_thin(
    alloc: Global,
    out: &mut Vec<u8>,
    place: u64,
    name: &Name,
    thin: &Thin,
) -> Result<(), NoMemory>
    ensures { OnOk result (out.new.items ≡ out.old.items
        ++ spec.thin_text place name.now thin.now) }
{
    put(out, "thin ")?;
    put_number(out, place)?;
    put(out, " ")?;
    put_item_name(alloc, out, name)?;
    put(out, " ")?;
    put(out, if thin.sign { "+" } else { "-" })?;
    put(out, " picks ")?;
    put_sides(out, thin.picks.as_slice())?;
    put(out, " terms ")?;
    put_terms(alloc, out, thin.terms.as_slice())?;
    put(out, " skolems ")?;
    put_terms(alloc, out, thin.skolems.as_slice())?;
    put(out, "\n")
}

/// The line of the instance at a place.
pub fn put_instance(
    alloc: Global,
    out: &mut Vec<u8>,
    place: u64,
    it: &Instance,
) -> Result<(), NoMemory>
    ensures { OnOk result (out.new.items ≡ out.old.items ++ spec.instance_text place it.now) }
{
    put(out, "instance ")?;
    put_number(out, place)?;
    put(out, " step ")?;
    put_number(out, u64::from(it.step))?;
    put_stage(out, it.stage)?;
    put(out, " clause ")?;
    put_number(out, u64::from(it.clause))?;
    put(out, ": ")?;
    put_clause(alloc, out, it.lits.as_slice())?;
    put(out, "\n")
}

/// The line of the weight.
pub fn put_weight(out: &mut Vec<u8>, weight: u64) -> Result<(), NoMemory>
    ensures { OnOk result (out.new.items ≡ out.old.items ++ spec.weight_text weight) }
{
    put(out, "weight ")?;
    put_number(out, weight)?;
    put(out, "\n")
}
