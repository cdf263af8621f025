//! Formulas whose vacuous quantifiers are marked.
#![tactic(auto, using(crate::proofs::Steps::form_steps))]

ghost use Rattle.std.specs.Prelude.{◌≡◌, ◌+◌, if◌then◌else◌, IfOk, OnOk};
ghost use Rattle.normal_form.specs.Drafts.{Drafts};
ghost use Rattle.normal_form.specs.Marks.{Marked};
ghost use Rattle.normal_form.specs.Occurrence.{in_formula};

use crate::marks::{mark_terms, take_last};
use dk_syntax::{Boxed, Formula, NoMemory, Seq, SymKey, Term, copy_terms};
use std::alloc::Global;

/// A formula in which a quantifier whose variable doesn't occur is marked as vacuous, so that it can be left
/// out, and the variables numbered, from the top down.
#[derive(Drop)]
pub enum Draft {
    True,
    False,
    Atom(SymKey, Seq<Term>),
    Not(Boxed<Draft>),
    And(Boxed<Draft>, Boxed<Draft>),
    Or(Boxed<Draft>, Boxed<Draft>),
    Iff(Boxed<Draft>, Boxed<Draft>),
    All(Boxed<Draft>),
    Ex(Boxed<Draft>),
    Vacuous(Boxed<Draft>),
}

/// A quantifier's body, and whether the quantifier's variable occurs there.
struct Body {
    draft: Boxed<Draft>,
    occurs: bool,
}

/// The draft of a formula, the variables of which are marked.
#[cycle(draft_of)]
pub fn draft_of(alloc: Global, f: &Formula, marks: &mut Vec<bool>) -> Result<Boxed<Draft>, NoMemory>
    ensures draft { IfOk result (λ draft. Drafts f.now draft) }
    ensures marked { OnOk result (Marked (in_formula f.now) marks.old.items marks.new.items) }
{
    match f {
        Formula::True => boxed(alloc, Draft::True),
        Formula::False => boxed(alloc, Draft::False),
        Formula::Atom(symbol, args) => {
            mark_terms(marks, args.as_slice());
            atom(alloc, symbol, args)
        }
        Formula::Not(a) => {
            let a = draft_of(alloc, a.get(), marks)?;
            boxed(alloc, Draft::Not(a))
        }
        Formula::And(a, b) => {
            let a = draft_of(alloc, a.get(), marks)?;
            let b = draft_of(alloc, b.get(), marks)?;
            boxed(alloc, Draft::And(a, b))
        }
        Formula::Or(a, b) => {
            let a = draft_of(alloc, a.get(), marks)?;
            let b = draft_of(alloc, b.get(), marks)?;
            boxed(alloc, Draft::Or(a, b))
        }
        Formula::Imp(a, b) => {
            let a = draft_of(alloc, a.get(), marks)?;
            let b = draft_of(alloc, b.get(), marks)?;
            implication(alloc, a, b)
        }
        Formula::Iff(a, b) => {
            let a = draft_of(alloc, a.get(), marks)?;
            let b = draft_of(alloc, b.get(), marks)?;
            boxed(alloc, Draft::Iff(a, b))
        }
        Formula::All(a) => {
            let body = draft_body(alloc, a.get(), marks)?;
            universal(alloc, body)
        }
        Formula::Ex(a) => {
            let body = draft_body(alloc, a.get(), marks)?;
            existential(alloc, body)
        }
    }
}

#[cycle(draft_of)]
fn draft_body(alloc: Global, a: &Formula, marks: &mut Vec<bool>) -> Result<Body, NoMemory>
    ensures draft { IfOk result (λ body. Drafts a.now body.draft) }
    ensures occurs { IfOk result (λ body. body.occurs ≡ in_formula a.now 0) }
    ensures marked { OnOk result (Marked (λ k. in_formula a.now (k + 1)) marks.old.items
        marks.new.items) }
{
    marks.push(false)?;
    let draft = draft_of(alloc, a, marks)?;
    let occurs = take_last(marks);
    Ok(Body { draft, occurs })
}

// A draft is handed on in its box: so the recursions that build it take little room on the stack.

fn boxed(alloc: Global, draft: Draft) -> Result<Boxed<Draft>, NoMemory>
    ensures { IfOk result (λ boxed. boxed ≡ draft) }
{
    Ok(Boxed::new(alloc, draft)?)
}

fn atom(alloc: Global, symbol: &SymKey, args: &Seq<Term>) -> Result<Boxed<Draft>, NoMemory>
    ensures { IfOk result (λ draft. draft ≡ Draft.Atom symbol.now args.now) }
{
    let symbol = symbol.copy(alloc)?;
    let args = copy_terms(alloc, args.as_slice())?;
    boxed(alloc, Draft::Atom(symbol, args))
}

fn implication(alloc: Global, a: Boxed<Draft>, b: Boxed<Draft>) -> Result<Boxed<Draft>, NoMemory>
    ensures { IfOk result (λ draft. draft ≡ Draft.Or (Draft.Not a) b) }
{
    let negation = boxed(alloc, Draft::Not(a))?;
    boxed(alloc, Draft::Or(negation, b))
}

fn universal(alloc: Global, body: Body) -> Result<Boxed<Draft>, NoMemory>
    ensures { IfOk result (λ draft. draft
        ≡ (if body.occurs then Draft.All body.draft else Draft.Vacuous body.draft)) }
{
    let Body { draft, occurs } = body;
    if occurs {
        return boxed(alloc, Draft::All(draft));
    }
    boxed(alloc, Draft::Vacuous(draft))
}

fn existential(alloc: Global, body: Body) -> Result<Boxed<Draft>, NoMemory>
    ensures { IfOk result (λ draft. draft
        ≡ (if body.occurs then Draft.Ex body.draft else Draft.Vacuous body.draft)) }
{
    let Body { draft, occurs } = body;
    if !occurs {
        return boxed(alloc, Draft::Vacuous(draft));
    }
    boxed(alloc, Draft::Ex(draft))
}
