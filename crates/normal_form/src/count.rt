//! Nodes of normal forms, counted without building them.
#![tactic(auto, using(crate::proofs::Counting::count_steps))]

ghost use Rattle.std.specs.Prelude.{◌≡◌, ◌+◌, true, false, if◌then◌else◌, IfOk, OnOk};
ghost use Rattle.dk_syntax.specs.Depth.{capped};
ghost use Rattle.normal_form.specs.Marks.{Marked};
ghost use Rattle.normal_form.specs.Normal.{nodes_of, normal_of};
ghost use Rattle.normal_form.specs.Occurrence.{in_formula};

use crate::marks::{mark_terms, take_last};
use dk_syntax::{Formula, NoMemory};
use std::alloc::Global;

/// The nodes of a formula's two normal forms, each up to the greatest `u64`.
#[derive(Clone, Copy, Debug)]
pub struct Sizes {
    pub positive: u64,
    pub negative: u64,
}

const ONE_NODE: Sizes = Sizes {
    positive: 1,
    negative: 1,
};

/// One node over two forms.
fn joined(a: u64, b: u64) -> u64
    ensures { result ≡ capped (1 + a + b) }
{
    a.saturating_add(b).saturating_add(1)
}

/// The nodes of the formula's normal forms.
pub fn count_nodes(alloc: Global, f: &Formula) -> Result<Sizes, NoMemory>
    ensures positive { IfOk result (λ sizes. sizes.positive
        ≡ capped (nodes_of (normal_of f.now true))) }
    ensures negative { IfOk result (λ sizes. sizes.negative
        ≡ capped (nodes_of (normal_of f.now false))) }
{
    let mut marks = Vec::new(alloc);
    count(f, &mut marks)
}

/// The same, and the variables of the quantifiers around that occur are marked.
#[cycle(count)]
fn count(f: &Formula, marks: &mut Vec<bool>) -> Result<Sizes, NoMemory>
    ensures positive { IfOk result (λ sizes. sizes.positive
        ≡ capped (nodes_of (normal_of f.now true))) }
    ensures negative { IfOk result (λ sizes. sizes.negative
        ≡ capped (nodes_of (normal_of f.now false))) }
    ensures marked { OnOk result (Marked (in_formula f.now) marks.old.items marks.new.items) }
{
    match f {
        Formula::True | Formula::False => Ok(ONE_NODE),
        Formula::Atom(_, args) => {
            mark_terms(marks, args.as_slice());
            Ok(ONE_NODE)
        }
        Formula::Not(a) => {
            let a = count(a.get(), marks)?;
            Ok(Sizes {
                positive: a.negative,
                negative: a.positive,
            })
        }
        Formula::And(a, b) => {
            let a = count(a.get(), marks)?;
            let b = count(b.get(), marks)?;
            Ok(Sizes {
                positive: joined(a.positive, b.positive),
                negative: joined(a.negative, b.negative),
            })
        }
        Formula::Or(a, b) => {
            let a = count(a.get(), marks)?;
            let b = count(b.get(), marks)?;
            Ok(Sizes {
                positive: joined(a.positive, b.positive),
                negative: joined(a.negative, b.negative),
            })
        }
        Formula::Imp(a, b) => {
            let a = count(a.get(), marks)?;
            let b = count(b.get(), marks)?;
            Ok(Sizes {
                positive: joined(a.negative, b.positive),
                negative: joined(a.positive, b.negative),
            })
        }
        Formula::Iff(a, b) => {
            let a = count(a.get(), marks)?;
            let b = count(b.get(), marks)?;
            Ok(Sizes {
                positive: joined(
                    joined(a.negative, b.positive),
                    joined(b.negative, a.positive),
                ),
                negative: joined(
                    joined(a.positive, b.positive),
                    joined(a.negative, b.negative),
                ),
            })
        }
        Formula::All(a) | Formula::Ex(a) => {
            let body = count_body(a.get(), marks)?;
            Ok(body)
        }
    }
}

/// The nodes of a quantifier's normal forms, which are those of the body where the variable does not occur.
#[cycle(count)]
fn count_body(a: &Formula, marks: &mut Vec<bool>) -> Result<Sizes, NoMemory>
    ensures positive { IfOk result (λ sizes. sizes.positive
        ≡ capped (if in_formula a.now 0 then 1 + nodes_of (normal_of a.now true) else nodes_of
        (normal_of a.now true))) }
    ensures negative { IfOk result (λ sizes. sizes.negative
        ≡ capped (if in_formula a.now 0 then 1 + nodes_of (normal_of a.now false) else nodes_of
        (normal_of a.now false))) }
    ensures marked { OnOk result (Marked (λ k. in_formula a.now (k + 1)) marks.old.items
        marks.new.items) }
{
    marks.push(false)?;
    let body = count(a, marks)?;
    let occurs = take_last(marks);
    if occurs {
        return Ok(Sizes {
            positive: body.positive.saturating_add(1),
            negative: body.negative.saturating_add(1),
        });
    }
    Ok(body)
}
