//! The second syntax: what is written, read back, and refused.
use super::*;
use crate::tests::{END, LEAVES, PROBLEM, Ran, SOUND, joined, run_on};
use std::test::Fail;
use std::thread::Threads;

/// What is written behind the prelude of the trace of `p` and `~p`.
const WRITTEN: &str = "p0_p : Prop.
def goal : Prf p0_p -> Prf (not p0_p) -> Prf bot := v0 : Prf p0_p => v1 : Prf (not p0_p) => em bot bot (v2 : Prf bot => v2) (v2 : Prf (not bot) => (v3 : (Prf (not p0_p) -> Prf bot) =>
(v4 : (Prf p0_p -> Prf bot) =>
(v5 : Prf bot =>
v5 bot) (v3 (v5 : Prf p0_p => v4 v5))) (v4 : Prf p0_p => v1 v4)) (v3 : Prf (not p0_p) => v3 v0)).
";

/// One of the rules before it.
const RULE: &str =
    "\n[p, q] Prf (and p q) --> v0 : Prop -> (Prf p -> Prf q -> Prf v0) -> Prf v0.\n";

/// What `dkcheck` does with a text.
fn checked<R: Threads + Sync + AllocGlobal>(rt: &R, parts: &[&str]) -> Result<Ran, Fail> {
    let text = joined(rt.alloc(), parts)?;
    run_on(rt, &["dkcheck", "p"], text.as_str(), b"", SOUND)
}

#[test]
fn a_proof_in_the_second_syntax_is_read_back(rt: HostRuntime) -> Result<(), Fail> {
    let alloc = rt.alloc();
    let trace = joined(alloc, &[LEAVES, END])?;
    let bytes = trace.as_str().as_bytes();
    let written = run_on(&rt, &["dedukti", "p", "t"], PROBLEM, bytes, SOUND)?;
    assert!(rt; written.status == Status::Done && written.notes.is_empty());
    let text = std::str::from_utf8(written.out.as_slice()).map_err(|_| "no text")?;
    assert!(rt; text.ends_with(WRITTEN) && text.split_once(RULE).is_some());

    let found = checked(&rt, &[text])?;
    assert!(rt; found.status == Status::Done && found.notes.is_empty());
    assert!(rt; found.out.as_slice() == "typed\n".as_bytes());

    // Comments and white space add nothing, and the names of binders may be others.
    let (front, rest) = text
        .split_once("em : v0 : Prop -> Prf (or v0 (not v0))")
        .ok_or("no em")?;
    let renamed = "em(; (; , (;) :\n\tp:Prop->Prf(or p (not p))";
    let found = checked(&rt, &[front, renamed, rest])?;
    assert!(rt; found.status == Status::Done);

    // Without its last full stop no command begins where the goal does.
    let (front, goal) = text.split_once("def goal").ok_or("no goal")?;
    let cut = goal.strip_suffix(".\n").ok_or("no end")?;
    let found = checked(&rt, &[front, "def goal", cut])?;
    let at = front.len();
    let line = format!(in alloc; "not Dedukti: file at byte {at}\n")?;
    assert!(rt; found.is_refusal(Status::Text, line.as_str()));
    Ok(())
}

#[test]
fn a_rule_lists_each_pattern_variable_once(rt: HostRuntime) -> Result<(), Fail> {
    // These are read; that they are no prelude is found later.
    let rows = [
        "[p, q] I p q p --> q.",
        "[q, p] I (x : q => p) q --> p.",
        "[] I --> I.",
    ];
    for text in rows {
        let found = checked(&rt, &[text])?;
        assert!(rt; found.is_refusal(Status::IllTyped, "bad prelude: command 1\n"));
    }
    Ok(())
}

#[test]
fn texts_in_the_second_syntax_are_refused_where_they_break(rt: HostRuntime) -> Result<(), Fail> {
    let rows = [
        // A comment has to end, and its own front is no end.
        ("(;) I : Type.", 0),
        ("I : Type. (; ", 10),
        // `def` is no name, and neither is `v0` of a rule a pattern variable that isn't listed.
        ("I : Type.\ndef : Type.", 10),
        ("def Type : Type.", 0),
        ("I : Type. [p] I --> I.", 10),
        ("[q, p] I p q --> I.", 0),
        ("[p, p] I p p --> I.", 0),
        // `=>` stands behind a name that is bound, and `->` behind a term.
        ("x : A => x : A.", 0),
        ("x : -> A.", 0),
        ("x : A = > A.", 0),
        ("x : (y : A) => A.", 0),
        ("symbol x : TYPE;", 0),
    ];
    for (text, at) in rows {
        let found = checked(&rt, &[text])?;
        let line = format!(in rt.alloc(); "not Dedukti: file at byte {at}\n")?;
        assert!(rt; found.is_refusal(Status::Text, line.as_str()));
    }
    Ok(())
}
