//! One layer of a type.
ghost use Rattle.std.specs.Prelude.{◌≡◌, IfOk};
ghost use Rattle.lp_term.specs.Connectives.{arrow, individuals, proof_of, propositions};
ghost use Rattle.lp_term.specs.LambdaPi.{app, pi, shift, var};
ghost use Rattle.lp_term.specs.View.{term_of};
ghost use Rattle.lp_exact.specs.Layers.{body_of, imp_raised, layer_of, layer_of_all, layer_of_and, layer_of_binary, layer_of_constant, layer_of_ex, layer_of_iff, layer_of_imp, layer_of_not, layer_of_or, layer_of_unary, opened, opened_word};
ghost use Rattle.lp_exact.specs.Opened.{HasOpened, IsLayer};

use crate::word::{Word, word_named};
use dk_syntax::NoMemory;
use lp_term::{Lp, apply, arrow, lift, product, proof_type, symbol};
use std::alloc::Global;

/// `Π (v : Prop), body`.
fn each_proposition(alloc: Global, body: Lp) -> Result<Lp, NoMemory>
    ensures { IfOk result (λ r. term_of r ≡ pi propositions (term_of body)) }
{
    let domain = symbol(alloc, b"Prop")?;
    product(alloc, domain, body)
}

/// `Π (v : I), body`.
fn each_individual(alloc: Global, body: Lp) -> Result<Lp, NoMemory>
    ensures { IfOk result (λ r. term_of r ≡ pi individuals (term_of body)) }
{
    let domain = symbol(alloc, b"I")?;
    product(alloc, domain, body)
}

/// `a → b`.
fn arrow_to(alloc: Global, a: Lp, b: &Lp) -> Result<Lp, NoMemory>
    ensures { IfOk result (λ r. term_of r ≡ arrow (term_of a) (term_of b.now)) }
{
    arrow(alloc, a, b)
}

/// The term one binder further in.
fn raised(alloc: Global, t: &Lp) -> Result<Lp, NoMemory>
    ensures { IfOk result (λ r. term_of r ≡ shift (term_of t.now)) }
{
    lift(alloc, t, 1, 0)
}

/// `Prf p`.
fn proof(alloc: Global, p: Lp) -> Result<Lp, NoMemory>
    ensures { IfOk result (λ r. term_of r ≡ proof_of (term_of p)) }
{
    proof_type(alloc, p)
}

/// `Prf` of the variable of that number.
fn proof_variable(alloc: Global, number: u32) -> Result<Lp, NoMemory>
    ensures { IfOk result (λ r. term_of r ≡ proof_of (var number)) }
{
    proof_type(alloc, Lp::Var(number))
}

/// `Prf p`, one binder further in.
fn raised_proof(alloc: Global, p: &Lp) -> Result<Lp, NoMemory>
    ensures { IfOk result (λ r. term_of r ≡ proof_of (shift (term_of p.now))) }
{
    let p = raised(alloc, p)?;
    proof(alloc, p)
}

/// `a → Prf v0`.
fn to_goal(alloc: Global, a: Lp) -> Result<Lp, NoMemory>
    ensures { IfOk result (λ r. term_of r ≡ arrow (term_of a) (proof_of (var 0))) }
{
    let goal = proof_variable(alloc, 0)?;
    arrow_to(alloc, a, &goal)
}

/// The body of a function of individuals, below their binder.
fn body(alloc: Global, f: &Lp) -> Result<Lp, NoMemory>
    ensures { IfOk result (λ r. term_of r ≡ body_of (term_of f.now)) }
{
    match f {
        Lp::Lam(_, body) => Ok(body.get().copy(alloc)?),
        _ => {
            let f = raised(alloc, f)?;
            apply(alloc, f, Lp::Var(0))
        }
    }
}

/// `Prf` of a truth value, opened.
fn constant_layer(alloc: Global, word: &Word) -> Result<Option<Lp>, NoMemory>
    ensures { IfOk result (λ r. IsLayer r (layer_of_constant word.now)) }
{
    match word {
        Word::Bot => {
            let goal = proof_variable(alloc, 0)?;
            Ok(Some(each_proposition(alloc, goal)?))
        }
        Word::Top => {
            let goal = proof_variable(alloc, 0)?;
            let body = to_goal(alloc, goal)?;
            Ok(Some(each_proposition(alloc, body)?))
        }
        _ => Ok(None),
    }
}

/// `Prf (not p)`, opened.
fn negation_layer(alloc: Global, p: &Lp) -> Result<Lp, NoMemory>
    ensures { IfOk result (λ r. term_of r ≡ layer_of_not (term_of p.now)) }
{
    let p = p.copy(alloc)?;
    let premise = proof(alloc, p)?;
    let falsity = symbol(alloc, b"bot")?;
    let conclusion = proof(alloc, falsity)?;
    arrow_to(alloc, premise, &conclusion)
}

/// `Prf (all f)`, opened.
fn universal_layer(alloc: Global, f: &Lp) -> Result<Lp, NoMemory>
    ensures { IfOk result (λ r. term_of r ≡ layer_of_all (body_of (term_of f.now))) }
{
    let body = body(alloc, f)?;
    let body = proof(alloc, body)?;
    each_individual(alloc, body)
}

/// `Prf (ex f)`, opened.
fn existential_layer(alloc: Global, f: &Lp) -> Result<Lp, NoMemory>
    ensures { IfOk result (λ r. term_of r ≡ layer_of_ex (body_of (shift (term_of f.now)))) }
{
    let f = raised(alloc, f)?;
    let body = body(alloc, &f)?;
    let premise = proof(alloc, body)?;
    let goal = proof_variable(alloc, 1)?;
    let witness = arrow_to(alloc, premise, &goal)?;
    let witness = each_individual(alloc, witness)?;
    let body = to_goal(alloc, witness)?;
    each_proposition(alloc, body)
}

/// `Prf` of a word at one argument, opened.
fn unary_layer(alloc: Global, word: &Word, p: &Lp) -> Result<Option<Lp>, NoMemory>
    ensures { IfOk result (λ r. IsLayer r (layer_of_unary body_of word.now (term_of p.now))) }
{
    match word {
        Word::Not => Ok(Some(negation_layer(alloc, p)?)),
        Word::All => Ok(Some(universal_layer(alloc, p)?)),
        Word::Ex => Ok(Some(existential_layer(alloc, p)?)),
        _ => Ok(None),
    }
}

/// `Prf (imp p q)`, opened.
fn implication_layer(alloc: Global, p: &Lp, q: &Lp) -> Result<Lp, NoMemory>
    ensures { IfOk result (λ r. term_of r ≡ layer_of_imp (term_of p.now) (term_of q.now)) }
{
    let p = p.copy(alloc)?;
    let q = q.copy(alloc)?;
    let premise = proof(alloc, p)?;
    let conclusion = proof(alloc, q)?;
    arrow_to(alloc, premise, &conclusion)
}

/// `Prf (and p q)`, opened.
fn conjunction_layer(alloc: Global, p: &Lp, q: &Lp) -> Result<Lp, NoMemory>
    ensures { IfOk result (λ r. term_of r ≡ layer_of_and (term_of p.now) (term_of q.now)) }
{
    let first = raised_proof(alloc, p)?;
    let second = raised_proof(alloc, q)?;
    let second = to_goal(alloc, second)?;
    let both = arrow_to(alloc, first, &second)?;
    let body = to_goal(alloc, both)?;
    each_proposition(alloc, body)
}

/// `Prf (or p q)`, opened.
fn disjunction_layer(alloc: Global, p: &Lp, q: &Lp) -> Result<Lp, NoMemory>
    ensures { IfOk result (λ r. term_of r ≡ layer_of_or (term_of p.now) (term_of q.now)) }
{
    let first = raised_proof(alloc, p)?;
    let first = to_goal(alloc, first)?;
    let second = raised_proof(alloc, q)?;
    let second = to_goal(alloc, second)?;
    let rest = to_goal(alloc, second)?;
    let body = arrow_to(alloc, first, &rest)?;
    each_proposition(alloc, body)
}

/// `Prf p → Prf q`, one binder further in.
fn one_way(alloc: Global, p: &Lp, q: &Lp) -> Result<Lp, NoMemory>
    ensures { IfOk result (λ r. term_of r ≡ imp_raised (term_of p.now) (term_of q.now)) }
{
    let premise = raised_proof(alloc, p)?;
    let conclusion = raised_proof(alloc, q)?;
    arrow_to(alloc, premise, &conclusion)
}

/// `Prf (iff p q)`, opened.
fn equivalence_layer(alloc: Global, p: &Lp, q: &Lp) -> Result<Lp, NoMemory>
    ensures { IfOk result (λ r. term_of r ≡ layer_of_iff (term_of p.now) (term_of q.now)) }
{
    let there = one_way(alloc, p, q)?;
    let back = one_way(alloc, q, p)?;
    let back = to_goal(alloc, back)?;
    let both = arrow_to(alloc, there, &back)?;
    let body = to_goal(alloc, both)?;
    each_proposition(alloc, body)
}

/// `Prf` of a word at two arguments, opened.
fn binary_layer(alloc: Global, word: &Word, p: &Lp, q: &Lp) -> Result<Option<Lp>, NoMemory>
    ensures { IfOk result (λ r.
        IsLayer r (layer_of_binary word.now (term_of p.now) (term_of q.now))) }
{
    match word {
        Word::Imp => Ok(Some(implication_layer(alloc, p, q)?)),
        Word::And => Ok(Some(conjunction_layer(alloc, p, q)?)),
        Word::Or => Ok(Some(disjunction_layer(alloc, p, q)?)),
        Word::Iff => Ok(Some(equivalence_layer(alloc, p, q)?)),
        _ => Ok(None),
    }
}

/// `Prf` of a symbol's application to `last`, opened.
fn application_layer(alloc: Global, function: &Lp, last: &Lp) -> Result<Option<Lp>, NoMemory>
    ensures { IfOk result (λ r.
        IsLayer r (layer_of body_of (app (term_of function.now) (term_of last.now)))) }
{
    match function {
        Lp::Sym(name) => unary_layer(alloc, &word_named(name), last),
        Lp::App(head, first) => match head.get() {
            Lp::Sym(name) => binary_layer(alloc, &word_named(name), first.get(), last),
            _ => Ok(None),
        },
        _ => Ok(None),
    }
}

/// `Prf` of an object, opened.
fn object_layer(alloc: Global, object: &Lp) -> Result<Option<Lp>, NoMemory>
    ensures { IfOk result (λ r. IsLayer r (layer_of body_of (term_of object.now))) }
{
    match object {
        Lp::Sym(name) => constant_layer(alloc, &word_named(name)),
        Lp::App(function, last) => application_layer(alloc, function.get(), last.get()),
        _ => Ok(None),
    }
}

/// The type of that symbol's application, opened.
fn open_applied(alloc: Global, word: &Word, object: &Lp) -> Result<Option<Lp>, NoMemory>
    ensures { IfOk result (λ r. IsLayer r (opened_word word.now (term_of object.now))) }
{
    match word {
        Word::Prf => object_layer(alloc, object),
        _ => Ok(None),
    }
}

/// The type with its first layer laid open; nothing where it stands as it is.
pub fn open_layer(alloc: Global, t: &Lp) -> Result<Option<Lp>, NoMemory>
    ensures { IfOk result (λ r. HasOpened r (term_of t.now) (opened (term_of t.now))) }
{
    match t {
        Lp::App(function, object) => match function.get() {
            Lp::Sym(name) => open_applied(alloc, &word_named(name), object.get()),
            _ => Ok(None),
        },
        _ => Ok(None),
    }
}
