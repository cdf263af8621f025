//! The translation of formulas.
ghost use Rattle.std.specs.Prelude.{◌≡◌, map, IfOk};
ghost use Rattle.lp_term.specs.Identifiers.{identifier_of};
ghost use Rattle.lp_term.specs.Translation.{apply_each, connected, quantified, translated, translated_term};

use crate::build::{apply, apply_both, lambda, negation, symbol};
use crate::identifier::ident_of;
use crate::lp::Lp;
use dk_syntax::{Formula, NoMemory, SymKey, Term};
use std::alloc::Global;

#[cycle(translate_term)]
fn translate_term(alloc: Global, t: &Term) -> Result<Lp, NoMemory>
    ensures { IfOk result (λ lp. lp ≡ translated_term t.now) }
{
    match t {
        Term::Var(number) => Ok(Lp::Var(*number)),
        Term::App(head, args) => {
            let head = Lp::Sym(ident_of(alloc, head)?);
            apply_to(alloc, args.as_slice(), head)
        }
        Term::Any => symbol(alloc, b"any"),
    }
}

#[cycle(translate_term)]
fn apply_to(alloc: Global, args: &[Term], head: Lp) -> Result<Lp, NoMemory>
    ensures { IfOk result (λ lp. lp ≡ apply_each head (map translated_term args.now)) }
{
    let mut all = head;
    for arg in args {
        let argument = translate_term(alloc, arg)?;
        all = apply(alloc, all, argument)?;
    }
    Ok(all)
}

fn atom(alloc: Global, predicate: &SymKey, args: &[Term]) -> Result<Lp, NoMemory>
    ensures { IfOk result (λ lp. lp ≡ apply_each (Lp.Sym (identifier_of predicate.now))
        (map translated_term args.now)) }
{
    let head = Lp::Sym(ident_of(alloc, predicate)?);
    apply_to(alloc, args, head)
}

fn connect(alloc: Global, name: &[u8], a: Lp, b: Lp) -> Result<Lp, NoMemory>
    ensures { IfOk result (λ lp. lp ≡ connected name.now a b) }
{
    let head = symbol(alloc, name)?;
    apply_both(alloc, head, a, b)
}

fn quantify(alloc: Global, name: &[u8], a: Lp) -> Result<Lp, NoMemory>
    ensures { IfOk result (λ lp. lp ≡ quantified name.now a) }
{
    let head = symbol(alloc, name)?;
    let domain = symbol(alloc, b"I")?;
    let family = lambda(alloc, domain, a)?;
    apply(alloc, head, family)
}

/// The proposition that a formula says.
pub fn translate(alloc: Global, f: &Formula) -> Result<Lp, NoMemory>
    ensures { IfOk result (λ lp. lp ≡ translated f.now) }
{
    match f {
        Formula::True => symbol(alloc, b"top"),
        Formula::False => symbol(alloc, b"bot"),
        Formula::Atom(predicate, args) => atom(alloc, predicate, args.as_slice()),
        Formula::Not(a) => {
            let a = translate(alloc, a.get())?;
            negation(alloc, a)
        }
        Formula::And(a, b) => {
            let a = translate(alloc, a.get())?;
            connect(alloc, b"and", a, translate(alloc, b.get())?)
        }
        Formula::Or(a, b) => {
            let a = translate(alloc, a.get())?;
            connect(alloc, b"or", a, translate(alloc, b.get())?)
        }
        Formula::Imp(a, b) => {
            let a = translate(alloc, a.get())?;
            connect(alloc, b"imp", a, translate(alloc, b.get())?)
        }
        Formula::Iff(a, b) => {
            let a = translate(alloc, a.get())?;
            connect(alloc, b"iff", a, translate(alloc, b.get())?)
        }
        Formula::All(a) => {
            let a = translate(alloc, a.get())?;
            quantify(alloc, b"all", a)
        }
        Formula::Ex(a) => {
            let a = translate(alloc, a.get())?;
            quantify(alloc, b"ex", a)
        }
    }
}
