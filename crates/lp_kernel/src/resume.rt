//! What a frame does with what is found at its hole.
ghost use Rattle.std.specs.Prelude.{◌≡◌, ◌+◌, suc, Option, ◌∷◌, [], IfOk};
ghost use Rattle.lp_term.specs.View.{term_of};
ghost use Rattle.lp_exact.specs.Objects.{simple_of, simple_of_word};
ghost use Rattle.lp_exact.specs.Normalisation.{apply_at, put_at};
ghost use Rattle.lp_kernel.specs.LazyJudgement.{kept, rank_of};
ghost use Rattle.lp_kernel.specs.Checking.{applied_to, is_allowed, typing};
ghost use Rattle.lp_kernel.specs.Walking.{argument_in, checked_of, continued, found_of, lambda_found, last_found, let_found, resumed, size_after, size_of};

use crate::count::added;
use crate::fault::Want;
use crate::finding::{Finding, Frame, Opening, Refusal};
use dk_syntax::{NoMemory, Seq};
use lp_exact::{Word, apply_reduced, full_type, put_last, same_lazy, word_named};
use lp_term::{Lp, lambda, product};
use std::alloc::Global;

/// The size of a simple type. The right spine of products is walked by a loop.
fn size_of_simple(t: &Lp) -> Result<Option<u64>, NoMemory>
    ensures { IfOk result (λ r. r ≡ size_of (simple_of (term_of t.now))) }
{
    let mut domains: u64 = 0;
    let mut rest = t;
    'codomains: loop {
        match rest {
            Lp::Sym(name) => return size_with(domains, word_named(name)),
            Lp::Pi(a, b) => match size_of_simple(a.get())? {
                None => return Ok(None),
                Some(size) => {
                    let both = added(domains, size)?;
                    domains = added(both, 1)?;
                    rest = b.get();
                }
            },
            _ => return Ok(None),
        }
    }
}

/// The size of a simple type that ends in a word, after domains of that size.
fn size_with(domains: u64, word: Word) -> Result<Option<u64>, NoMemory>
    ensures { IfOk result (λ r. r ≡ size_after domains (size_of (simple_of_word word))) }
{
    match word {
        Word::Individuals => Ok(Some(added(domains, 1)?)),
        Word::Propositions => Ok(Some(added(domains, 1)?)),
        _ => Ok(None),
    }
}

/// The rank of a type.
fn rank(t: &Lp) -> Result<u64, NoMemory>
    ensures { IfOk result (λ r. r ≡ rank_of (simple_of (term_of t.now))) }
{
    match size_of_simple(t)? {
        Some(size) => Ok(size),
        None => Ok(0),
    }
}

/// Whether an abstraction of these two types stays in the fragment.
fn stays_in_fragment(a: &Lp, b: &Lp) -> Result<bool, NoMemory>
    ensures { IfOk result (λ r. r ≡ is_allowed (simple_of (term_of a.now))
        (simple_of (term_of b.now))) }
{
    match (size_of_simple(a)?, size_of_simple(b)?) {
        (None, Some(_)) => Ok(false),
        _ => Ok(true),
    }
}

/// What an abstraction has, from what its body has.
fn lambda_of(alloc: Global, node: u64, x: Lp, of: Lp, value: Lp) -> Result<Finding, NoMemory>
    ensures { IfOk result (λ r. found_of r ≡ lambda_found node (term_of x)
        (typing (term_of of) (term_of value))) }
{
    if !stays_in_fragment(&x, &of)? {
        return Ok(Finding::Refused(Refusal::OutOfFragment(node)));
    }
    let domain = x.copy(alloc)?;
    let of = product(alloc, domain, of)?;
    let value = lambda(alloc, x, value)?;
    Ok(Finding::Typed(of, value))
}

/// The value of a let whose body has that type and value. None is kept of a proof.
fn let_value(alloc: Global, rank: u64, of: &Lp, value: &Lp, by: &Lp) -> Result<Lp, NoMemory>
    ensures { IfOk result (λ r. term_of r ≡ kept (simple_of (term_of of.now))
        (put_at rank (term_of by.now) (term_of value.now))) }
{
    match size_of_simple(of)? {
        Some(_) => put_last(alloc, rank, value, by),
        None => Ok(Lp::Sort),
    }
}

/// What a let has, from what its body has.
fn let_of(
    alloc: Global,
    node: u64,
    x: &Lp,
    by: &Lp,
    of: &Lp,
    value: &Lp,
) -> Result<Finding, NoMemory>
    ensures { IfOk result (λ r. found_of r ≡ let_found node (term_of x.now) (term_of by.now)
        (typing (term_of of.now) (term_of value.now))) }
{
    if !stays_in_fragment(x, of)? {
        return Ok(Finding::Refused(Refusal::OutOfFragment(node)));
    }
    let rank = rank(x)?;
    let value = let_value(alloc, rank, of, value, by)?;
    let of = put_last(alloc, rank, of, by)?;
    Ok(Finding::Typed(of, value))
}

/// The argument's value, where its type is the domain.
pub fn argument_value(
    alloc: Global,
    level: usize,
    node: u64,
    x: &Lp,
    of: Lp,
    value: Lp,
) -> Result<Opening, NoMemory>
    ensures { IfOk result (λ r. checked_of r ≡ argument_in level node (term_of x.now)
        (typing (term_of of) (term_of value))) }
{
    if same_lazy(alloc, &of, x)? {
        return Ok(Opening::Opened(value));
    }
    let wanted = full_type(alloc, x)?;
    let found = full_type(alloc, &of)?;
    Ok(Opening::Closed(Refusal::IllTyped(node, Want::Exactly(wanted), found, level)))
}

/// The value of an application whose type, the argument not put in, is that. None is kept of a
/// proof.
fn applied_value(alloc: Global, rank: u64, of: &Lp, function: Lp, by: Lp) -> Result<Lp, NoMemory>
    ensures { IfOk result (λ r. term_of r ≡ kept (simple_of (term_of of.now))
        (apply_at rank (term_of function) (term_of by))) }
{
    match size_of_simple(of)? {
        Some(_) => apply_reduced(alloc, rank, function, by),
        None => Ok(Lp::Sort),
    }
}

/// What an application has, from its function's and its argument's value.
fn applied_of(
    alloc: Global,
    node: u64,
    function: Lp,
    a: &Lp,
    b: &Lp,
    by: Lp,
) -> Result<Finding, NoMemory>
    ensures { IfOk result (λ r. found_of r ≡ applied_to node (term_of function) (term_of a.now)
        (term_of b.now) (term_of by)) }
{
    if !stays_in_fragment(a, b)? {
        return Ok(Finding::Refused(Refusal::OutOfFragment(node)));
    }
    let rank = rank(a)?;
    let of = put_last(alloc, rank, b, &by)?;
    let next = added(rank, 1)?;
    let value = applied_value(alloc, next, b, function, by)?;
    Ok(Finding::Typed(of, value))
}

/// What an application has, from what its argument has.
fn last_of(
    alloc: Global,
    node: u64,
    at: u64,
    level: usize,
    function: Lp,
    a: &Lp,
    b: &Lp,
    of: Lp,
    value: Lp,
) -> Result<Finding, NoMemory>
    ensures { IfOk result (λ r. found_of r ≡ last_found node at level (term_of function)
        (term_of a.now) (term_of b.now) (typing (term_of of) (term_of value))) }
{
    match argument_value(alloc, level, at, a, of, value)? {
        Opening::Closed(refusal) => Ok(Finding::Refused(refusal)),
        Opening::Opened(by) => applied_of(alloc, node, function, a, b, by),
    }
}

/// What the frame makes of a type and a value at its hole.
fn resume(alloc: Global, frame: Frame, of: Lp, value: Lp) -> Result<Finding, NoMemory>
    ensures { IfOk result (λ r. found_of r ≡ continued frame
        (typing (term_of of) (term_of value))) }
{
    match frame {
        Frame::Body(node, x) => lambda_of(alloc, node, x, of, value),
        Frame::Within(node, x, by) => let_of(alloc, node, &x, &by, &of, &value),
        Frame::Last(node, at, level, function, a, b) => last_of(
            alloc, node, at, level, function, &a, &b, of, value,
        ),
    }
}

/// The same of a finding.
fn resume_one(alloc: Global, frame: Frame, found: Finding) -> Result<Finding, NoMemory>
    ensures { IfOk result (λ r. found_of r ≡ resumed (frame ∷ []) (found_of found)) }
{
    match found {
        Finding::Refused(refusal) => Ok(Finding::Refused(refusal)),
        Finding::Typed(of, value) => resume(alloc, frame, of, value),
    }
}

/// What the frames make of what is found, from the last to the first.
#[tactic(auto, using(crate::proofs::FrameLaws::resumed_last))]
pub fn resume_all(alloc: Global, frames: Seq<Frame>, found: Finding) -> Result<Finding, NoMemory>
    ensures { IfOk result (λ r. found_of r ≡ resumed frames (found_of found)) }
{
    let mut left = frames;
    let mut all = found;
    while let Some(frame) = left.pop() {
        all = resume_one(alloc, frame, all)?;
    }
    Ok(all)
}
