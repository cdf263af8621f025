//! The type checker: along a right spine by a loop with frames, into the other parts by calls.
ghost use Rattle.std.specs.Prelude.{◌≡◌, ◌+◌, ◌++◌, ◌∷◌, [], suc, max, length, IfOk, OnOk, List, Ok, Err};
ghost use Rattle.lp_term.specs.LambdaPi.{Term, app, con, lam, pi, var};
ghost use Rattle.lp_term.specs.View.{term_of};
ghost use Rattle.lp_term.specs.declared.lp.Lp.{Lp, size-Lp};
ghost use Rattle.lp_kernel.specs.declared.finding.Frame.TheVariants.{Body, Within, Last};
ghost use Rattle.lp_exact.specs.LazyTypes.{full};
ghost use Rattle.lp_exact.specs.Layers.{opened};
ghost use Rattle.lp_exact.specs.Opened.{HasOpened};
ghost use Rattle.lp_exact.specs.Words.{word_of};
ghost use Rattle.lp_kernel.specs.Checking.{a_product, a_sort, and_then, node_count, declared, find_app, find_argument, ill_typed, or_fault, out_of_fragment, product_or, read, read_symbol, type_at, typing, check_prf, unknown_name};
ghost use Rattle.lp_kernel.specs.Signatures.{sig_of};
ghost use Rattle.lp_kernel.specs.Walking.{HasDescended, HasEnd, IsExtended, IsLower, IsNoProduct, IsSmaller, HasStepped, argument_in, check_at, checked_of, context_of, find_at, found_of, let_found, word_at_term};

use crate::count::{added, nodes_of};
use crate::fault::Want;
use crate::finding::{Finding, Frame, Opening, Refusal, Step, TypeStep};
use crate::lookup::{find_symbol, find_variable};
use crate::products::{enter_codomain, products_of};
use crate::resume::{argument_value, resume_all};
use crate::signature::Signature;
use dk_syntax::{NoMemory, Seq};
use lp_exact::{Word, full_type, open_layer, word_named};
use lp_term::{Lp, proof_type, symbol};
use std::alloc::Global;

/// The context, cut to a length that it had.
fn cut(types: &mut Seq<Lp>, level: usize)
    ensures { (base : List Lp) → length base ≡ level → IsExtended base types.old → types.new ≡
        base }
{
    'longer: while types.len() > level {
        let _last = types.pop();
    }
}

/// Into the body of an abstraction.
fn enter_body(
    alloc: Global,
    types: &mut Seq<Lp>,
    frames: &mut Seq<Frame>,
    node: u64,
    x: Lp,
) -> Result<(), NoMemory>
    ensures context { OnOk result (types.new ≡ types.old ++ x ∷ []) }
    ensures frames { OnOk result (frames.new ≡ frames.old ++ Body node x ∷ []) }
{
    let kept = x.copy(alloc)?;
    types.push(x)?;
    frames.push(Frame::Body(node, kept))?;
    Ok(())
}

/// Into the body of a let.
fn enter_let(
    alloc: Global,
    types: &mut Seq<Lp>,
    frames: &mut Seq<Frame>,
    node: u64,
    x: Lp,
    by: Lp,
) -> Result<(), NoMemory>
    ensures context { OnOk result (types.new ≡ types.old ++ x ∷ []) }
    ensures frames { OnOk result (frames.new ≡ frames.old ++ Within node x by ∷ []) }
{
    let kept = x.copy(alloc)?;
    types.push(x)?;
    frames.push(Frame::Within(node, kept, by))?;
    Ok(())
}

/// A type as its first layer shows it.
fn shown<'a>(t: &'a Lp, layer: &'a Option<Lp>) -> &'a Lp
    ensures { (opening : Term)
        → HasOpened layer.now (term_of t.now) opening → term_of result.now ≡ opening }
{
    match layer {
        Some(layer) => layer,
        None => t,
    }
}

/// Into the last argument of an application whose function has that type and value.
fn enter_argument<'a>(
    alloc: Global,
    sig: &Signature,
    types: &Seq<Lp>,
    frames: &mut Seq<Frame>,
    nodes: u64,
    argument: &'a Lp,
    node: u64,
    of: Lp,
    value: Lp,
    end: u64,
) -> Result<Step<'a>, NoMemory>
    requires ends { end ≡ node + 1 + nodes + node_count (term_of argument.now) }
    ensures same { IfOk result (λ s. HasStepped (sig_of sig.now) frames.old types.now
        (product_or (opened (term_of of)) (find_argument
        (read (sig_of sig.now) (term_of argument.now)) nodes (context_of types.now) node
        (term_of value)) (ill_typed (node + 1) a_product (full (term_of of))
        (length (context_of types.now)))) frames.new types.now s) }
    ensures small { IfOk result (λ s. IsSmaller s (suc (size-Lp argument.now))) }
    ensures ends { IfOk result (λ s. HasEnd s) }
{
    let layer = open_layer(alloc, &of)?;
    let first = added(node, 1)?;
    match shown(&of, &layer) {
        Lp::Pi(a, b) => {
            let at = added(first, nodes)?;
            let a = a.get().copy(alloc)?;
            let b = b.get().copy(alloc)?;
            frames.push(Frame::Last(node, at, types.len(), value, a, b))?;
            Ok(Step::Down(argument, at, end))
        }
        _ => {
            let found = full_type(alloc, &of)?;
            Ok(Step::Stop(Finding::Refused(Refusal::IllTyped(
                first,
                Want::Product,
                found,
                types.len(),
            ))))
        }
    }
}

/// A step at an abstraction.
#[cycle(find)]
fn step_lambda<'a>(
    alloc: Global,
    sig: &Signature,
    types: &mut Seq<Lp>,
    frames: &mut Seq<Frame>,
    domain: &Lp,
    body: &'a Lp,
    node: u64,
    end: u64,
) -> Result<Step<'a>, NoMemory>
    requires ends { end ≡ node + (1 + node_count (term_of domain.now) + node_count
        (term_of body.now)) }
    ensures same { IfOk result (λ s. HasStepped (sig_of sig.now) frames.old types.old
        (find_at (sig_of sig.now) types.old (lam (term_of domain.now) (term_of body.now)) node)
        frames.new types.new s) }
    ensures small { IfOk result (λ s. IsSmaller s (suc (size-Lp body.now))) }
    ensures ends { IfOk result (λ s. HasEnd s) }
{
    let first = added(node, 1)?;
    match check_type(alloc, sig, types, domain, first)? {
        Opening::Closed(refusal) => Ok(Step::Stop(Finding::Refused(refusal))),
        Opening::Opened(x) => {
            let nodes = nodes_of(alloc, domain)?;
            let next = added(first, nodes)?;
            enter_body(alloc, types, frames, node, x)?;
            Ok(Step::Down(body, next, end))
        }
    }
}

/// The argument of a let: its value, where it has the type.
#[cycle(find)]
pub(crate) fn bound_value(
    alloc: Global,
    sig: &Signature,
    types: &mut Seq<Lp>,
    x: &Lp,
    argument: &Lp,
    node: u64,
) -> Result<Opening, NoMemory>
    ensures value { IfOk result (λ r. checked_of r ≡ and_then
        (find_at (sig_of sig.now) types.old (term_of argument.now) node)
        (argument_in (length (context_of types.old)) node (term_of x.now))) }
    ensures kept { OnOk result (types.new ≡ types.old) }
{
    match find(alloc, sig, types, argument, node)? {
        Finding::Refused(refusal) => Ok(Opening::Closed(refusal)),
        Finding::Typed(of, value) => argument_value(alloc, types.len(), node, x, of, value),
    }
}

/// A step at a let.
#[cycle(find)]
fn step_let<'a>(
    alloc: Global,
    sig: &Signature,
    types: &mut Seq<Lp>,
    frames: &mut Seq<Frame>,
    domain: &Lp,
    body: &'a Lp,
    argument: &Lp,
    node: u64,
    end: u64,
) -> Result<Step<'a>, NoMemory>
    requires ends { end ≡ node + (1 + (1 + node_count (term_of domain.now) + node_count
        (term_of body.now)) + node_count (term_of argument.now)) }
    ensures same { IfOk result (λ s. HasStepped (sig_of sig.now) frames.old types.old
        (find_at (sig_of sig.now) types.old (app (lam (term_of domain.now) (term_of body.now))
        (term_of argument.now)) node) frames.new types.new s) }
    ensures small { IfOk result (λ s. IsSmaller s (suc (size-Lp body.now))) }
    ensures ends { IfOk result (λ s. HasEnd s) }
{
    let second = added(node, 2)?;
    match check_type(alloc, sig, types, domain, second)? {
        Opening::Closed(refusal) => Ok(Step::Stop(Finding::Refused(refusal))),
        Opening::Opened(x) => {
            let first = nodes_of(alloc, domain)?;
            let own = nodes_of(alloc, argument)?;
            let at = end - own;
            match bound_value(alloc, sig, types, &x, argument, at)? {
                Opening::Closed(refusal) => Ok(Step::Stop(Finding::Refused(refusal))),
                Opening::Opened(by) => {
                    let next = added(second, first)?;
                    enter_let(alloc, types, frames, node, x, by)?;
                    Ok(Step::Down(body, next, at))
                }
            }
        }
    }
}

/// A step at the application of a function that is no abstraction.
#[cycle(find)]
fn step_argument<'a>(
    alloc: Global,
    sig: &Signature,
    types: &mut Seq<Lp>,
    frames: &mut Seq<Frame>,
    function: &Lp,
    argument: &'a Lp,
    node: u64,
    end: u64,
) -> Result<Step<'a>, NoMemory>
    requires ends { end ≡ node + (1 + node_count (term_of function.now) + node_count
        (term_of argument.now)) }
    ensures same { IfOk result (λ s. HasStepped (sig_of sig.now) frames.old types.old
        (find_app (read (sig_of sig.now) (term_of function.now))
        (read (sig_of sig.now) (term_of argument.now)) (node_count (term_of function.now))
        (context_of types.old) node) frames.new types.new s) }
    ensures small { IfOk result (λ s. IsSmaller s (suc (size-Lp argument.now))) }
    ensures ends { IfOk result (λ s. HasEnd s) }
{
    let first = added(node, 1)?;
    match find(alloc, sig, types, function, first)? {
        Finding::Refused(refusal) => Ok(Step::Stop(Finding::Refused(refusal))),
        Finding::Typed(of, value) => {
            let nodes = nodes_of(alloc, function)?;
            enter_argument(
                alloc, sig, types, frames, nodes, argument, node, of, value, end,
            )
        }
    }
}

/// A step at an application.
#[cycle(find)]
fn step_applied<'a>(
    alloc: Global,
    sig: &Signature,
    types: &mut Seq<Lp>,
    frames: &mut Seq<Frame>,
    function: &'a Lp,
    argument: &'a Lp,
    node: u64,
    end: u64,
) -> Result<Step<'a>, NoMemory>
    requires ends { end ≡ node + (1 + node_count (term_of function.now) + node_count
        (term_of argument.now)) }
    ensures same { IfOk result (λ s. HasStepped (sig_of sig.now) frames.old types.old
        (find_at (sig_of sig.now) types.old
        (app (term_of function.now) (term_of argument.now)) node) frames.new types.new s) }
    ensures small { IfOk result (λ s. IsSmaller s
        (suc (max (size-Lp function.now) (size-Lp argument.now)))) }
    ensures ends { IfOk result (λ s. HasEnd s) }
{
    match function {
        Lp::Lam(domain, body) => step_let(
            alloc,
            sig,
            types,
            frames,
            domain.get(),
            body.get(),
            argument,
            node,
            end,
        ),
        _ => step_argument(alloc, sig, types, frames, function, argument, node, end),
    }
}

/// One step down a right spine.
#[cycle(find)]
fn step<'a>(
    alloc: Global,
    sig: &Signature,
    types: &mut Seq<Lp>,
    frames: &mut Seq<Frame>,
    rest: &'a Lp,
    node: u64,
    end: u64,
) -> Result<Step<'a>, NoMemory>
    requires ends { end ≡ node + node_count (term_of rest.now) }
    ensures same { IfOk result (λ s. HasStepped (sig_of sig.now) frames.old types.old
        (find_at (sig_of sig.now) types.old (term_of rest.now) node) frames.new types.new s) }
    ensures small { IfOk result (λ s. IsSmaller s (size-Lp rest.now)) }
    ensures ends { IfOk result (λ s. HasEnd s) }
{
    match rest {
        Lp::Lam(domain, body) => step_lambda(
            alloc,
            sig,
            types,
            frames,
            domain.get(),
            body.get(),
            node,
            end,
        ),
        Lp::App(function, argument) => step_applied(
            alloc,
            sig,
            types,
            frames,
            function.get(),
            argument.get(),
            node,
            end,
        ),
        Lp::Var(number) => Ok(Step::Stop(find_variable(alloc, types.as_slice(), *number, node)?)),
        Lp::Sym(name) => Ok(Step::Stop(find_symbol(alloc, sig, name, node)?)),
        Lp::Sort => Ok(Step::Stop(Finding::Refused(Refusal::OutOfFragment(node)))),
        Lp::Pat(_) => Ok(Step::Stop(Finding::Refused(Refusal::OutOfFragment(node)))),
        Lp::Pi(_, _) => Ok(Step::Stop(Finding::Refused(Refusal::OutOfFragment(node)))),
    }
}

/// The lazy type and the value of a term, or its first fault.
#[cycle(find)]
pub(crate) fn find(
    alloc: Global,
    sig: &Signature,
    types: &mut Seq<Lp>,
    t: &Lp,
    node: u64,
) -> Result<Finding, NoMemory>
    ensures found { IfOk result (λ r. found_of r
        ≡ find_at (sig_of sig.now) types.old (term_of t.now) node) }
    ensures kept { OnOk result (types.new ≡ types.old) }
{
    let level = types.len();
    let mut frames = Seq::from_vec(Vec::new(alloc));
    let mut rest = t;
    let mut number = node;
    let nodes = nodes_of(alloc, t)?;
    let mut end = added(node, nodes)?;
    'down: loop {
        match step(alloc, sig, types, &mut frames, rest, number, end)? {
            Step::Down(next, at, past) => {
                rest = next;
                number = at;
                end = past;
            }
            Step::Stop(found) => {
                cut(types, level);
                return resume_all(alloc, frames, found);
            }
        }
    }
}

/// The fault of a term that is no type, or the term's own.
#[cycle(find)]
fn check_none(
    alloc: Global,
    sig: &Signature,
    types: &mut Seq<Lp>,
    t: &Lp,
    node: u64,
) -> Result<Opening, NoMemory>
    ensures found { IfOk result (λ r. checked_of r ≡ and_then
        (find_at (sig_of sig.now) types.old (term_of t.now) node)
        (λ s. Err (ill_typed node a_sort (full s.of) (length (context_of types.old))))) }
    ensures kept { OnOk result (types.new ≡ types.old) }
{
    match find(alloc, sig, types, t, node)? {
        Finding::Refused(refusal) => Ok(Opening::Closed(refusal)),
        Finding::Typed(of, _) => {
            let found = full_type(alloc, &of)?;
            Ok(Opening::Closed(Refusal::IllTyped(node, Want::Sorted, found, types.len())))
        }
    }
}

/// The type of the proofs of an object.
#[cycle(find)]
fn check_proof(
    alloc: Global,
    sig: &Signature,
    types: &mut Seq<Lp>,
    object: &Lp,
    node: u64,
) -> Result<Opening, NoMemory>
    ensures found { IfOk result (λ r. checked_of r ≡ check_prf
        (read (sig_of sig.now) (term_of object.now)) (context_of types.old) node) }
    ensures kept { OnOk result (types.new ≡ types.old) }
{
    let second = added(node, 2)?;
    let wanted = symbol(alloc, b"Prop")?;
    match bound_value(alloc, sig, types, &wanted, object, second)? {
        Opening::Closed(refusal) => Ok(Opening::Closed(refusal)),
        Opening::Opened(value) => Ok(Opening::Opened(proof_type(alloc, value)?)),
    }
}

/// A step at a product: its first part, and into the second one.
#[cycle(find)]
fn step_product<'a>(
    alloc: Global,
    sig: &Signature,
    types: &mut Seq<Lp>,
    domains: &mut Seq<Lp>,
    a: &Lp,
    b: &'a Lp,
    node: u64,
) -> Result<TypeStep<'a>, NoMemory>
    ensures same { IfOk result (λ s. HasDescended (sig_of sig.now) domains.old types.old
        (check_at (sig_of sig.now) types.old (pi (term_of a.now) (term_of b.now)) node) domains.new
        types.new s) }
    ensures small { IfOk result (λ s. IsLower s (suc (size-Lp b.now))) }
{
    let first = added(node, 1)?;
    match check_type(alloc, sig, types, a, first)? {
        Opening::Closed(refusal) => Ok(TypeStep::Reached(Opening::Closed(refusal))),
        Opening::Opened(x) => {
            let nodes = nodes_of(alloc, a)?;
            let next = added(first, nodes)?;
            enter_codomain(alloc, types, domains, x)?;
            Ok(TypeStep::Below(b, next))
        }
    }
}

/// The lazy type of a type that is no product.
#[cycle(find)]
fn check_last(
    alloc: Global,
    sig: &Signature,
    types: &mut Seq<Lp>,
    t: &Lp,
    node: u64,
) -> Result<Opening, NoMemory>
    requires last { IsNoProduct (term_of t.now) }
    ensures found { IfOk result (λ r. checked_of r
        ≡ check_at (sig_of sig.now) types.old (term_of t.now) node) }
    ensures kept { OnOk result (types.new ≡ types.old) }
{
    match t {
        Lp::Sym(name) => match word_named(name) {
            Word::Individuals => Ok(Opening::Opened(symbol(alloc, b"I")?)),
            Word::Propositions => Ok(Opening::Opened(symbol(alloc, b"Prop")?)),
            _ => check_none(alloc, sig, types, t, node),
        },
        Lp::App(function, object) => match word_at(function.get()) {
            Word::Prf => check_proof(alloc, sig, types, object.get(), node),
            _ => check_none(alloc, sig, types, t, node),
        },
        Lp::Pi(_, _) => check_none(alloc, sig, types, t, node),
        Lp::Lam(_, _) => check_none(alloc, sig, types, t, node),
        Lp::Var(_) => check_none(alloc, sig, types, t, node),
        Lp::Sort => check_none(alloc, sig, types, t, node),
        Lp::Pat(_) => check_none(alloc, sig, types, t, node),
    }
}

/// One step down the right parts of products.
#[cycle(find)]
fn step_type<'a>(
    alloc: Global,
    sig: &Signature,
    types: &mut Seq<Lp>,
    domains: &mut Seq<Lp>,
    rest: &'a Lp,
    node: u64,
) -> Result<TypeStep<'a>, NoMemory>
    ensures same { IfOk result (λ s. HasDescended (sig_of sig.now) domains.old types.old
        (check_at (sig_of sig.now) types.old (term_of rest.now) node) domains.new types.new s) }
    ensures small { IfOk result (λ s. IsLower s (size-Lp rest.now)) }
{
    match rest {
        Lp::Pi(a, b) => step_product(alloc, sig, types, domains, a.get(), b.get(), node),
        _ => {
            let opening = check_last(alloc, sig, types, rest, node)?;
            Ok(TypeStep::Reached(opening))
        }
    }
}

/// The lazy type of a type, or the first fault. The right parts of products are walked by a loop.
#[cycle(find)]
pub(crate) fn check_type(
    alloc: Global,
    sig: &Signature,
    types: &mut Seq<Lp>,
    t: &Lp,
    node: u64,
) -> Result<Opening, NoMemory>
    ensures found { IfOk result (λ r. checked_of r
        ≡ check_at (sig_of sig.now) types.old (term_of t.now) node) }
    ensures kept { OnOk result (types.new ≡ types.old) }
{
    let level = types.len();
    let mut domains = Seq::from_vec(Vec::new(alloc));
    let mut rest = t;
    let mut number = node;
    'codomains: loop {
        match step_type(alloc, sig, types, &mut domains, rest, number)? {
            TypeStep::Below(next, at) => {
                rest = next;
                number = at;
            }
            TypeStep::Reached(opening) => {
                cut(types, level);
                return products_of(alloc, domains, opening);
            }
        }
    }
}

/// What the term is as a symbol.
fn word_at(t: &Lp) -> Word
    ensures { result ≡ word_at_term (term_of t.now) }
{
    match t {
        Lp::Sym(name) => word_named(name),
        _ => Word::Other,
    }
}
