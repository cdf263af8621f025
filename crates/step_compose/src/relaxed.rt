//! Images in which some existentials are replaced, and the others are universals.
#![tactic(auto, using(crate::proofs::RelaxedTerms::relaxed_steps))]

ghost use Rattle.std.specs.Prelude.{◌≡◌, ◌+◌, ◌∷◌, map, reverse, IfOk, OnOk};
ghost use Rattle.dk_syntax.specs.Terms.{substituted, instance};
ghost use Rattle.normal_form.specs.Forms.{all, exs, form_of, nf_of};
ghost use Rattle.step_compose.specs.Composing.{symbol_in};
ghost use Rattle.step_compose.specs.Relaxing.{downward_from, found, kept_in, relaxed, relaxed_from, terms_in};
ghost use Rattle.step_compose.specs.declared.relaxed.Bound.TheVariants.{Kept};
ghost use Rattle.step_skolem.specs.Substitutions.{applied};

use dk_syntax::{Boxed, Kind, Literal, Name, NoMemory, Seq, SymKey, Term};
use normal_form::Nf;
use std::alloc::Global;

/// A quantifier around, by what stands for its variable.
#[derive(Clone, Copy)]
pub enum Bound {
    /// A universal of the image.
    Kept,
    /// The existential of that number, for which its symbol's term stands.
    Replaced(u32),
}

/// The number of one more.
fn next_of(number: u32) -> Result<u32, NoMemory>
    ensures { IfOk result (λ next. next ≡ number + 1) }
{
    number.checked_add(1).ok_or(NoMemory)
}

/// How many universals stand around.
fn count_kept(around: &[Bound]) -> Result<u32, NoMemory>
    ensures { IfOk result (λ kept. kept ≡ kept_in around.now) }
{
    let mut kept = 0;
    for bound in around {
        if let Bound::Kept = bound {
            kept = next_of(kept)?;
        }
    }
    Ok(kept)
}

/// The symbol applied to so many variables, of which the last has the number `from`.
fn apply(alloc: Global, symbol: SymKey, from: u32, count: u32) -> Result<Term, NoMemory>
    ensures { IfOk result (λ term. term ≡ applied symbol (downward_from from count)) }
{
    let mut args = Seq::new(alloc);
    for back in 0..count {
        let number = from.checked_add(count - 1 - back).ok_or(NoMemory)?;
        args.push(Term::Var(number))?;
    }
    Ok(Term::App(symbol, args))
}

/// The term for a variable inside the quantifiers around, of which the inmost stands last; `between` universals stand
/// between.
fn term_of(
    alloc: Global,
    symbols: &[SymKey],
    around: &[Bound],
    variable: u32,
    between: u32,
) -> Result<Term, NoMemory>
    ensures { IfOk result (λ term. term ≡ found symbols.now between (reverse around.now) variable) }
{
    match around.split_last() {
        None => Ok(Term::Var(variable.checked_add(between).ok_or(NoMemory)?)),
        Some((Bound::Kept, outer)) => match variable.checked_sub(1) {
            None => Ok(Term::Var(between)),
            Some(rest) => term_of(alloc, symbols, outer, rest, next_of(between)?),
        },
        Some((Bound::Replaced(ex), outer)) => match variable.checked_sub(1) {
            None => replacement(alloc, symbols, *ex, between, count_kept(outer)?),
            Some(rest) => term_of(alloc, symbols, outer, rest, between),
        },
    }
}

/// The symbol of an existential, applied to so many universals, with `between` of them between.
fn replacement(
    alloc: Global,
    symbols: &[SymKey],
    ex: u32,
    between: u32,
    kept: u32,
) -> Result<Term, NoMemory>
    ensures { IfOk result (λ term. term ≡ applied (symbol_in symbols.now ex)
        (downward_from between kept)) }
{
    let symbol = symbol_at(alloc, symbols, ex)?;
    apply(alloc, symbol, between, kept)
}

/// The symbol at a place; one without a name, which no text has, stands for none.
pub fn symbol_at(alloc: Global, symbols: &[SymKey], place: u32) -> Result<SymKey, NoMemory>
    ensures { IfOk result (λ symbol. symbol ≡ symbol_in symbols.now place) }
{
    match symbols.get(place as usize) {
        Some(symbol) => symbol.copy(alloc),
        None => Ok(SymKey {
            name: Name::new(Vec::new(alloc)),
            arity: 0,
            kind: Kind::Function,
        }),
    }
}

/// The term with each variable replaced.
#[cycle(replaced_term)]
fn replaced_term(
    alloc: Global,
    term: &Term,
    symbols: &[SymKey],
    around: &[Bound],
) -> Result<Term, NoMemory>
    ensures { IfOk result (λ new. new ≡ substituted (terms_in symbols.now (reverse around.now))
        term.now) }
{
    match term {
        Term::Var(variable) => term_of(alloc, symbols, around, *variable, 0),
        Term::App(symbol, args) => {
            let symbol = symbol.copy(alloc)?;
            let args = replaced_terms(alloc, args.as_slice(), symbols, around)?;
            Ok(Term::App(symbol, args))
        }
        Term::Any => Ok(Term::Any),
    }
}

#[cycle(replaced_term)]
fn replaced_terms(
    alloc: Global,
    terms: &[Term],
    symbols: &[SymKey],
    around: &[Bound],
) -> Result<Seq<Term>, NoMemory>
    ensures { IfOk result (λ all. all ≡ map
        (substituted (terms_in symbols.now (reverse around.now))) terms.now) }
{
    let mut all = Seq::new(alloc);
    for term in terms {
        all.push(replaced_term(alloc, term, symbols, around)?)?;
    }
    Ok(all)
}

fn replaced_literal(
    alloc: Global,
    literal: &Literal,
    symbols: &[SymKey],
    around: &[Bound],
) -> Result<Literal, NoMemory>
    ensures { IfOk result (λ new. new ≡ instance (terms_in symbols.now (reverse around.now))
        literal.now) }
{
    Ok(Literal {
        positive: literal.positive,
        pred: literal.pred.copy(alloc)?,
        args: replaced_terms(alloc, literal.args.as_slice(), symbols, around)?,
    })
}

/// The image of a form whose first existential has the number `next`, inside the quantifiers around.
#[cycle(image_inside)]
fn image_inside(
    alloc: Global,
    nf: &Nf,
    symbols: &[SymKey],
    next: &mut u32,
    around: &mut Vec<Bound>,
) -> Result<Nf, NoMemory>
    ensures image { IfOk result (λ image. image
        ≡ nf_of (relaxed_from symbols.now (reverse around.old.items) next.old (form_of nf.now))) }
    ensures next { OnOk result (next.new ≡ exs (form_of nf.now) + next.old) }
    ensures around { OnOk result (around.new.items ≡ around.old.items) }
{
    match nf {
        Nf::True => Ok(Nf::True),
        Nf::False => Ok(Nf::False),
        Nf::Lit(literal) => {
            let literal = replaced_literal(alloc, literal, symbols, around.as_slice())?;
            Ok(Nf::Lit(literal))
        }
        Nf::And(a, b) => {
            let a = image_inside(alloc, a.get(), symbols, next, around)?;
            let b = image_inside(alloc, b.get(), symbols, next, around)?;
            Ok(Nf::And(Boxed::new(alloc, a)?, Boxed::new(alloc, b)?))
        }
        Nf::Or(a, b) => {
            let a = image_inside(alloc, a.get(), symbols, next, around)?;
            let b = image_inside(alloc, b.get(), symbols, next, around)?;
            Ok(Nf::Or(Boxed::new(alloc, a)?, Boxed::new(alloc, b)?))
        }
        Nf::All(a) => universal_of(alloc, a.get(), symbols, next, around),
        Nf::Ex(a) => {
            let ex = *next;
            *next = next_of(ex)?;
            if (ex as usize) < symbols.len() {
                body_of(alloc, a.get(), Bound::Replaced(ex), symbols, next, around)
            } else {
                universal_of(alloc, a.get(), symbols, next, around)
            }
        }
    }
}

/// The image of a quantifier's body.
#[cycle(image_inside)]
fn body_of(
    alloc: Global,
    body: &Nf,
    bound: Bound,
    symbols: &[SymKey],
    next: &mut u32,
    around: &mut Vec<Bound>,
) -> Result<Nf, NoMemory>
    ensures image { IfOk result (λ image. image
        ≡ nf_of (relaxed_from symbols.now (bound ∷ reverse around.old.items) next.old
        (form_of body.now))) }
    ensures next { OnOk result (next.new ≡ exs (form_of body.now) + next.old) }
    ensures around { OnOk result (around.new.items ≡ around.old.items) }
{
    around.push(bound)?;
    let image = image_inside(alloc, body, symbols, next, around)?;
    around.pop();
    Ok(image)
}

/// A universal over the image of a quantifier's body.
#[cycle(image_inside)]
fn universal_of(
    alloc: Global,
    body: &Nf,
    symbols: &[SymKey],
    next: &mut u32,
    around: &mut Vec<Bound>,
) -> Result<Nf, NoMemory>
    ensures image { IfOk result (λ image. image
        ≡ nf_of (all (relaxed_from symbols.now (Kept ∷ reverse around.old.items) next.old
        (form_of body.now)))) }
    ensures next { OnOk result (next.new ≡ exs (form_of body.now) + next.old) }
    ensures around { OnOk result (around.new.items ≡ around.old.items) }
{
    let body = body_of(alloc, body, Bound::Kept, symbols, next, around)?;
    Ok(Nf::All(Boxed::new(alloc, body)?))
}

/// The image under the symbols: the first existentials are replaced by them, and the others are universals.
pub fn relaxed_image(alloc: Global, nf: &Nf, symbols: &[SymKey]) -> Result<Nf, NoMemory>
    ensures { IfOk result (λ image. image ≡ relaxed symbols.now nf.now) }
{
    let mut next = 0;
    let mut around = Vec::new(alloc);
    image_inside(alloc, nf, symbols, &mut next, &mut around)
}
