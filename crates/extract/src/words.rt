//! The words for verdicts.
ghost use Rattle.std.specs.Prelude.{◌≡◌, ◌++◌, IfOk, OnOk, codes, decimal};
ghost use Rattle.extract.specs.Words as words;
ghost use Rattle.tptp_text.specs.Printed.{printed_name};

use crate::bytes::{put, put_name, put_number};
use dk_syntax::{NoMemory, SymKey};
use std::alloc::Global;
use step_check::{Limit, Reason, Verdict};

/// The limit that is passed.
pub fn limit_word(limit: Limit) -> &'static str
    ensures { result.now ≡ words.limit_word limit }
{
    match limit {
        Limit::NormalForm => "normal form",
        Limit::Clauses => "clauses",
        Limit::Literals => "literals",
    }
}

fn put_symbol(
    alloc: Global,
    out: &mut Vec<u8>,
    front: &str,
    symbol: &SymKey,
) -> Result<(), NoMemory>
    ensures { OnOk result (out.new.items ≡ out.old.items ++ front.now
        ++ printed_name symbol.now.name) }
{
    put(out, front)?;
    put_name(alloc, out, &symbol.name)
}

fn put_clause(out: &mut Vec<u8>, clause: u32) -> Result<(), NoMemory>
    ensures { OnOk result (out.new.items ≡ out.old.items ++ codes "unjustified clause "
        ++ decimal clause) }
{
    put(out, "unjustified clause ")?;
    put_number(out, u64::from(clause))
}

fn put_reason(alloc: Global, out: &mut Vec<u8>, reason: &Reason) -> Result<(), NoMemory>
    ensures { OnOk result (out.new.items ≡ out.old.items ++ words.reason_text reason.now) }
{
    match reason {
        Reason::UnknownLeaf => put(out, "unknown leaf"),
        Reason::AlteredLeaf => put(out, "altered leaf"),
        Reason::ConjectureParent => put(out, "conjecture as parent"),
        Reason::NotConjecture => put(out, "not the conjecture"),
        Reason::NotFresh(symbol) => put_symbol(alloc, out, "not fresh: ", symbol),
        Reason::NotImage => put(out, "not a Skolem image"),
        Reason::HasExists => put(out, "existential left"),
        Reason::AlienSymbol(symbol) => put_symbol(alloc, out, "alien symbol: ", symbol),
        Reason::Unjustified(clause) => put_clause(out, *clause),
    }
}

/// Why a step is wrong.
pub fn reason_text(alloc: Global, reason: &Reason) -> Result<Vec<u8>, NoMemory>
    ensures { IfOk result (λ text. text.items ≡ words.reason_text reason.now) }
{
    let mut out = Vec::new(alloc);
    put_reason(alloc, &mut out, reason)?;
    Ok(out)
}

fn put_wrong(alloc: Global, out: &mut Vec<u8>, reason: &Reason) -> Result<(), NoMemory>
    ensures { OnOk result (out.new.items ≡ out.old.items ++ words.wrong_text reason.now) }
{
    put(out, "wrong: ")?;
    put_reason(alloc, out, reason)
}

fn put_over(out: &mut Vec<u8>, limit: Limit) -> Result<(), NoMemory>
    ensures { OnOk result (out.new.items ≡ out.old.items ++ words.over_text limit) }
{
    put(out, "over: ")?;
    put(out, limit_word(limit))
}

/// What is found of a step.
pub fn put_verdict(alloc: Global, out: &mut Vec<u8>, verdict: &Verdict) -> Result<(), NoMemory>
    ensures { OnOk result (out.new.items ≡ out.old.items ++ words.verdict_text verdict.now) }
{
    match verdict {
        Verdict::Leaf => put(out, "leaf"),
        Verdict::Conjecture => put(out, "conjecture"),
        Verdict::Structural(_) => put(out, "structural"),
        Verdict::Clausal(_) => put(out, "clausal"),
        Verdict::Chained(_) => put(out, "chained"),
        Verdict::Composes(_) => put(out, "composed"),
        Verdict::Wrong(reason) => put_wrong(alloc, out, reason),
        Verdict::Over(limit) => put_over(out, *limit),
    }
}
