//! The problem of items.
#![tactic(auto, using(dk_syntax::proofs::FirstOccurrences::symbol_steps))]

ghost use Rattle.std.specs.Prelude.{◌≡◌, ◌++◌, ◌∷◌, [], codes, map, Some, if◌then◌else◌, IfOk, OnOk};
ghost use Rattle.dk_syntax.specs.Problems.{formula_of, symbols_of_formulas};
ghost use Rattle.dk_syntax.specs.Symbols.{formula_occurrences, joined, with_symbols};
ghost use Rattle.tptp_text.specs.ProperItems.{HaveProperFormulas};
ghost use Rattle.tstp_trace.specs.Names.{AreDistinct, bytes_of, is_among, with_name};
ghost use Rattle.tstp_trace.specs.Problems as spec;

use crate::fault::ProblemFault;
use crate::names::{add_name, next_number};
use crate::words::is_word;
use dk_syntax::{Name, Named, NoMemory, Problem, Seq, SymKey, add_formula, copy_symbols};
use indexmap::IndexSet;
use std::alloc::Global;
use tptp_text::{Body, Item, copy_items};

/// Whether the role is that of a hypothesis.
fn is_hypothesis(role: &Name) -> bool
    ensures { result ≡ is_among spec.hypothesis_roles role.now }
{
    is_word(role, b"axiom")
        || is_word(role, b"hypothesis")
        || is_word(role, b"definition")
        || is_word(role, b"lemma")
        || is_word(role, b"theorem")
        || is_word(role, b"corollary")
        || is_word(role, b"negated_conjecture")
}

fn is_conjecture(role: &Name) -> bool
    ensures { result ≡ is_among (codes "conjecture" ∷ []) role.now }
{
    is_word(role, b"conjecture")
}

/// An item's formula with its name.
fn named_of(
    alloc: Global,
    number: u32,
    names: &mut IndexSet<Vec<u8>>,
    conjectured: bool,
    item: Item,
) -> Result<Named, ProblemFault>
    ensures answer { spec.IsNamedAnswer (bytes_of names.old.keys) conjectured number item result }
    ensures names { IfOk result (λ named. bytes_of names.new.keys
        ≡ with_name (bytes_of names.old.keys) item.name) }
{
    let Item {
        lang: _,
        name,
        role,
        body,
        free,
        source: _,
    } = item;
    let formula = match body {
        Body::Outside(kind) => {
            return Err(ProblemFault::Outside { item: number, kind });
        }
        Body::Plain(formula) => formula,
    };
    if !is_hypothesis(&role) && !is_conjecture(&role) {
        return Err(ProblemFault::BadRole { item: number });
    }
    if let Some(variable) = free {
        return Err(ProblemFault::FreeVariable {
            item: number,
            name: variable,
        });
    }
    if !add_name(alloc, names, &name)? {
        return Err(ProblemFault::DuplicateName { item: number });
    }
    if is_conjecture(&role) && conjectured {
        return Err(ProblemFault::TwoConjectures { item: number });
    }
    Ok(Named { name, formula })
}

/// Adds the symbols of the formula that may be there.
fn add_symbols(
    alloc: Global,
    seen: &mut IndexSet<SymKey>,
    named: &Option<Named>,
) -> Result<(), NoMemory>
    ensures { OnOk result (seen.new.keys ≡ with_symbols seen.old.keys
        (joined (map formula_occurrences (formula_of named.now)))) }
{
    match named {
        None => Ok(()),
        Some(named) => add_formula(alloc, seen, &named.formula),
    }
}

/// The symbols of the hypotheses and then of the conjecture, each once, by first occurrence.
fn symbols_of_all(
    alloc: Global,
    hyps: &[Named],
    conjecture: &Option<Named>,
) -> Result<Seq<SymKey>, NoMemory>
    ensures { IfOk result (λ all. all ≡ symbols_of_formulas (map
        (λ named. named.formula) hyps.now ++ formula_of conjecture.now)) }
{
    let mut seen = IndexSet::new(alloc);
    for named in hyps {
        add_formula(alloc, &mut seen, &named.formula)?;
    }
    add_symbols(alloc, &mut seen, conjecture)?;
    let symbols = copy_symbols(alloc, seen.as_slice())?;
    Ok(symbols)
}

/// Puts the formula among the hypotheses or in the conjecture's place.
fn keep(
    hyps: &mut Vec<Named>,
    conjecture: &mut Option<Named>,
    conjectured: bool,
    named: Named,
) -> Result<(), NoMemory>
    ensures hyps { OnOk result (hyps.new.items
        ≡ (if conjectured then hyps.old.items else hyps.old.items ++ named ∷ [])) }
    ensures conjecture { OnOk result (conjecture.new
        ≡ (if conjectured then Some named else conjecture.old)) }
{
    if conjectured {
        *conjecture = Some(named);
    } else {
        hyps.push(named)?;
    }
    Ok(())
}

/// The hypotheses, the conjecture and the symbols.
fn all_named(alloc: Global, items: Vec<Item>) -> Result<Problem, ProblemFault>
    ensures { spec.IsProblemAnswer items.items result }
{
    let mut names = IndexSet::new(alloc);
    let mut hyps = Vec::new(alloc);
    let mut conjecture = None;
    let mut last = 0;
    for item in items {
        let number = next_number(last)?;
        let conjectured = conjecture.is_some();
        let goal = is_conjecture(&item.role);
        match named_of(alloc, number, &mut names, conjectured, item) {
            Ok(named) => keep(&mut hyps, &mut conjecture, goal, named)?,
            Err(fault) => return Err(fault),
        }
        last = number;
    }
    let symbols = symbols_of_all(alloc, hyps.as_slice(), &conjecture)?;
    Ok(Problem {
        hyps: Seq::from_vec(hyps),
        conjecture,
        symbols,
    })
}

/// The hypotheses, the conjecture and the symbols of a problem's items, whose names and formulas move into it.
pub fn problem_from(alloc: Global, items: Seq<Item>) -> Result<Problem, ProblemFault>
    ensures answer { spec.IsProblemAnswer items result }
    ensures names { IfOk result (λ problem. AreDistinct (spec.names_of problem)) }
    // Formulas that are read are closed and well-formed, and have no Any.
    ensures proper { IfOk result (λ problem. HaveProperFormulas items
        → spec.HasProperFormulas problem) }
{
    match all_named(alloc, items.into_vec()) {
        Ok(problem) => Ok(problem),
        Err(fault) => Err(fault),
    }
}

/// The same of a copy of the items.
pub fn build_problem(alloc: Global, items: &Seq<Item>) -> Result<Problem, ProblemFault>
    ensures answer { spec.IsProblemAnswer items.now result }
    ensures names { IfOk result (λ problem. AreDistinct (spec.names_of problem)) }
    ensures proper { IfOk result (λ problem. HaveProperFormulas items.now
        → spec.HasProperFormulas problem) }
{
    let items = copy_items(alloc, items.as_slice())?;
    problem_from(alloc, items)
}
