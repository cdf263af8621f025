use super::*;
use crate::step_rows::is_weighed;
use dk_io::{Gate, MemInputs, MemNotes, MemSink};
use std::alloc::Global;
use std::test::Fail;
use std::thread::Threads;

pub const PROBLEM: &str = "cnf(a1,axiom,p).\ncnf(a2,axiom,~p).\n";

pub const LEAVES: &str = "cnf(a1,axiom,p,file(x,a1)).\ncnf(a2,axiom,~p,file(x,a2)).\n";

pub const END: &str = "cnf(c,plain,$false,inference(r,[status(thm)],[a1,a2])).\n";

/// What is written behind the prelude for this problem and its trace.
const WRITTEN: &str = "constant symbol p0_p : Prop;
symbol goal : Prf p0_p → Prf (not p0_p) → Prf bot ≔ λ (v0 : Prf p0_p), λ (v1 : Prf (not p0_p)), em bot bot (λ (v2 : Prf bot), v2) (λ (v2 : Prf (not bot)), let v3 : Prf (not p0_p) → Prf bot ≔ λ (v3 : Prf (not p0_p)), v3 v0 in
let v4 : Prf p0_p → Prf bot ≔ λ (v4 : Prf p0_p), v1 v4 in
let v5 : Prf bot ≔ v3 (λ (v5 : Prf p0_p), v4 v5) in
v5 bot);
";

const USAGE: &str = "ekskon convert PROBLEM TRACE [--limit N] [--workers N]
ekskon steps PROBLEM TRACE [--workers N]
ekskon extract PROBLEM TRACE [--workers N]
ekskon expansion PROBLEM TRACE [--limit N] [--workers N]
ekskon check FILE
ekskon generate N [--workers N]
ekskon dedukti PROBLEM TRACE [--limit N] [--workers N]
ekskon dkcheck FILE
ekskon --help
";

/// The front of the prelude.
const FRONT: &str = "constant symbol I : TYPE;\nco";

/// The numbers of the calls that fail or take nothing, 0 for none; how many bytes the sink has room for; and how many one
/// call moves at most.
#[derive(Clone, Copy)]
pub struct Outside {
    pub read: u64,
    pub write: u64,
    pub zero: u64,
    pub note: u64,
    pub room: usize,
    pub most: usize,
}

pub const SOUND: Outside = Outside {
    read: 0,
    write: 0,
    zero: 0,
    note: 0,
    room: 100_000,
    most: 1_000_000,
};

/// How a run ended: its status, what it wrote, and its lines.
#[derive(Drop)]
pub struct Ran {
    pub status: Status,
    pub out: Vec<u8>,
    pub notes: Vec<u8>,
}

impl Ran {
    pub fn is_refusal(&self, status: Status, line: &str) -> bool {
        self.status == status && self.out.is_empty() && self.notes.as_slice() == line.as_bytes()
    }
}

fn inputs(alloc: Global, problem: &str, trace: &[u8], fail: u64) -> Result<MemInputs, Fail> {
    let problem = (
        String::from_str(alloc, "p")?,
        Vec::from_slice(alloc, problem.as_bytes())?,
    );
    let trace = (
        String::from_str(alloc, "t")?,
        Vec::from_slice(alloc, trace)?,
    );
    let files = vec![in alloc; problem, trace]?;
    Ok(MemInputs::new(files, vec![in alloc; fail]?))
}

pub fn joined(alloc: Global, parts: &[&str]) -> Result<String, Fail> {
    let mut text = String::new(alloc);
    for part in parts {
        text.push_str(part)?;
    }
    Ok(text)
}

fn line_of(alloc: Global, words: &[&str]) -> Result<Vec<String>, Fail> {
    let mut line = Vec::new(alloc);
    for word in words {
        line.push(String::from_str(alloc, word)?)
            .map_err(|_| "memory")?;
    }
    Ok(line)
}

pub fn run_on<R: Threads + Sync + AllocGlobal>(
    rt: &R,
    words: &[&str],
    problem: &str,
    trace: &[u8],
    outside: Outside,
) -> Result<Ran, Fail> {
    run_past(rt, words, problem, trace, outside, &NoGate)
}

/// The same, with a gate.
pub fn run_past<R: Threads + Sync + AllocGlobal, G: Gate>(
    rt: &R,
    words: &[&str],
    problem: &str,
    trace: &[u8],
    outside: Outside,
    gate: &G,
) -> Result<Ran, Fail> {
    let alloc = rt.alloc();
    let mut inputs = inputs(alloc, problem, trace, outside.read)?;
    inputs.most = outside.most;
    let mut out = MemSink::new(alloc, outside.room, vec![in alloc; outside.write]?)?;
    out.most = outside.most;
    out.zero = vec![in alloc; outside.zero]?;
    let mut notes = MemNotes::new(alloc, 100, vec![in alloc; outside.note]?)?;
    let line = line_of(alloc, words)?;
    let status = run(rt, alloc, &line, &mut inputs, &mut out, &mut notes, gate);
    Ok(Ran {
        status,
        out: Vec::from_slice(alloc, out.bytes())?,
        notes: Vec::from_slice(alloc, notes.bytes())?,
    })
}

fn is_refused<R: Threads + Sync + AllocGlobal>(
    rt: &R,
    problem: &str,
    trace: &str,
    status: Status,
    line: &str,
) -> Result<bool, Fail> {
    let found = run_on(rt, &["convert", "p", "t"], problem, trace.as_bytes(), SOUND)?;
    Ok(found.is_refusal(status, line))
}

/// The trace of `p` and `~p`, run with calls that fail.
fn run_outside<R: Threads + Sync + AllocGlobal>(rt: &R, outside: Outside) -> Result<Ran, Fail> {
    let trace = joined(rt.alloc(), &[LEAVES, END])?;
    run_on(
        rt,
        &["convert", "p", "t"],
        PROBLEM,
        trace.as_str().as_bytes(),
        outside,
    )
}

#[test]
fn wrong_steps_are_named(rt: HostRuntime) -> Result<(), Fail> {
    let alien = "cnf(c,plain,q,inference(r,[status(thm)],[a1,a2])).\n";
    let last = "cnf(d,plain,$false,inference(r,[status(thm)],[a1,a2])).\n";
    let wide = "cnf(a1,axiom,p|q,file(x,a1)).\ncnf(a2,axiom,~p,file(x,a2)).\n";
    let unused = "cnf(c,plain,p,inference(r,[status(thm)],[a1,a2])).\n";
    let unknown = "cnf(e,plain,$false,file(x,e)).\n";
    let rows = [
        (
            PROBLEM,
            [LEAVES, alien, last],
            Status::Input,
            "step 3: wrong: alien symbol: q\n",
        ),
        (
            "cnf(a1,axiom,p|q).\ncnf(a2,axiom,~p).\n",
            [wide, END, ""],
            Status::Input,
            "step 3: wrong: unjustified clause 0\n",
        ),
        (
            "cnf(a1,axiom,p|(q|r)).\n",
            ["cnf(a1,axiom,(p|q)|r,file(x,a1)).\n", unknown, ""],
            Status::Input,
            "step 1: wrong: altered leaf\n",
        ),
        (
            PROBLEM,
            [LEAVES, unused, ""],
            Status::Input,
            "no refutation\n",
        ),
        (
            "",
            [unknown, "", ""],
            Status::Input,
            "step 1: wrong: unknown leaf\n",
        ),
    ];
    for (problem, parts, status, line) in rows {
        let trace = joined(rt.alloc(), &parts)?;
        assert!(rt; is_refused(&rt, problem, trace.as_str(), status, line)?);
    }
    Ok(())
}

#[test]
fn items_and_steps_at_fault_are_named(rt: HostRuntime) -> Result<(), Fail> {
    for (problem, line) in [
        ("fof(a,axiom,a=b).", "problem item 1: outside: equality\n"),
        ("fof(a,axiom,p(X)).", "problem item 1: free variable: X\n"),
        ("fof(a,plain,p).", "problem item 1: bad role\n"),
        (
            "fof(a,conjecture,p). fof(b,conjecture,p).",
            "problem item 2: second conjecture\n",
        ),
        (
            "fof(a,axiom,p). fof(a,axiom,p).",
            "problem item 2: duplicate name\n",
        ),
        ("include(x).", "problem item 1: outside: include\n"),
    ] {
        assert!(rt; is_refused(&rt, problem, "", Status::Input, line)?);
    }
    let missing = "cnf(c,plain,$false,inference(r,[status(thm)],[a1,'z z'])).\n";
    let circle = "cnf(x,plain,p,y).\ncnf(y,plain,p,x).\n";
    for (parts, line) in [
        (
            ["cnf(a,axiom,p,introduced(x)).", "", ""],
            "step 1: unsupported: word\n",
        ),
        (
            ["cnf(a,axiom,p,inference(r,[status(sat)],[a])).", "", ""],
            "step 1: unsupported: status\n",
        ),
        (
            ["cnf(a,axiom,p,inference(r,[],[])).", "", ""],
            "step 1: unsupported: no parent\n",
        ),
        (
            [
                "cnf(d,axiom,p,inference(r,[],[a,b,c,e,f,g,h,i,j])).",
                "",
                "",
            ],
            "step 1: unsupported: many parents\n",
        ),
        (
            [LEAVES, "cnf(a1,axiom,p,a2).", ""],
            "step 3: duplicate name\n",
        ),
        ([LEAVES, missing, ""], "step 3: missing parent: 'z z'\n"),
        ([LEAVES, END, circle], "step 4: cycle\n"),
    ] {
        let trace = joined(rt.alloc(), &parts)?;
        assert!(rt; is_refused(&rt, PROBLEM, trace.as_str(), Status::Input, line)?);
    }
    Ok(())
}

#[test]
fn a_trace_may_be_cut_anywhere(rt: HostRuntime) -> Result<(), Fail> {
    // Behind an item or in the space after it the trace is one without an end, elsewhere it is none.
    let whole = joined(rt.alloc(), &[LEAVES, END])?;
    for length in 0..112 {
        let (status, line) = match length {
            0 | 27 | 28 | 56 | 57 => (Status::Input, "no refutation\n"),
            1..=26 => (Status::Text, "not TPTP: trace at byte 0\n"),
            29..=55 => (Status::Text, "not TPTP: trace at byte 28\n"),
            _ => (Status::Text, "not TPTP: trace at byte 57\n"),
        };
        let part = whole.as_str().get(..length).ok_or("shorter")?;
        assert!(rt; is_refused(&rt, PROBLEM, part, status, line)?);
    }
    Ok(())
}

/// `p` in so many pairs of parentheses, as a problem.
fn bracketed(alloc: Global, pairs: usize) -> Result<String, Fail> {
    let mut text = String::from_str(alloc, "fof(a,axiom,")?;
    for _pair in 0..pairs {
        text.push_str("(")?;
    }
    text.push_str("p")?;
    for _pair in 0..pairs {
        text.push_str(")")?;
    }
    text.push_str(").")?;
    Ok(text)
}

#[test]
fn limits_are_met(rt: HostRuntime) -> Result<(), Fail> {
    let alloc = rt.alloc();
    let deep = bracketed(alloc, 1000)?;
    let line = "too deep: problem at byte 0\n";
    assert!(rt; is_refused(&rt, deep.as_str(), "", Status::Limit, line)?);
    let within = bracketed(alloc, 999)?;
    assert!(rt; is_refused(&rt, within.as_str(), "", Status::Input, "no refutation\n")?);

    let blank = Vec::from_elem(alloc, b' ', 16_777_216)?;
    let found = run_on(&rt, &["convert", "p", "t"], PROBLEM, &blank, SOUND)?;
    assert!(rt; found.is_refusal(Status::Input, "no refutation\n"));
    let long = Vec::from_elem(alloc, b' ', 16_777_217)?;
    let found = run_on(&rt, &["convert", "p", "t"], PROBLEM, &long, SOUND)?;
    assert!(rt; found.is_refusal(Status::Limit, "too long: trace\n"));

    let mut many = String::new(alloc);
    for _item in 0..65_537 {
        many.push_str("cnf(a,plain,p).")?;
    }
    let line = "too many items: trace\n";
    assert!(rt; is_refused(&rt, PROBLEM, many.as_str(), Status::Limit, line)?);
    Ok(())
}

/// Equivalences nested to the right.
fn tower(alloc: Global, levels: usize) -> Result<String, Fail> {
    let mut text = String::new(alloc);
    for _level in 0..levels {
        text.push_str("p<=>(")?;
    }
    text.push_str("p")?;
    for _level in 0..levels {
        text.push_str(")")?;
    }
    Ok(text)
}

/// Whether a leaf of that formula is listed by this line, behind the sound trace.
fn is_listed_last<R: Threads + Sync + AllocGlobal>(
    rt: &R,
    formula: &str,
    line: &str,
) -> Result<bool, Fail> {
    let problem = joined(rt.alloc(), &[PROBLEM, "fof(e,axiom,", formula, ")."])?;
    let trace = joined(
        rt.alloc(),
        &[LEAVES, END, "fof(e,axiom,", formula, ",file(x,e))."],
    )?;
    let bytes = trace.as_str().as_bytes();
    let found = run_on(rt, &["steps", "p", "t"], problem.as_str(), bytes, SOUND)?;
    Ok(found.status == Status::Done && found.out.as_slice().ends_with(line.as_bytes()))
}

#[test]
fn limits_of_forms_and_weights_are_told(rt: HostRuntime) -> Result<(), Fail> {
    let within = tower(rt.alloc(), 12)?;
    assert!(rt; is_listed_last(&rt, within.as_str(), "4 e leaf\n")?);
    let clauses = tower(rt.alloc(), 13)?;
    assert!(rt; is_listed_last(&rt, clauses.as_str(), "4 e over: clauses\n")?);
    let nodes = tower(rt.alloc(), 15)?;
    assert!(rt; is_listed_last(&rt, nodes.as_str(), "4 e over: normal form\n")?);
    let literals = joined(rt.alloc(), &["(", within.as_str(), ")|(q|(q|(q|q)))"])?;
    assert!(rt; is_listed_last(&rt, literals.as_str(), "4 e over: literals\n")?);
    assert!(rt; is_weighed(&rt)?);
    Ok(())
}

#[test]
fn a_development_is_written_as_far_as_there_is_room(rt: HostRuntime) -> Result<(), Fail> {
    let whole = run_outside(&rt, SOUND)?;
    assert!(rt; whole.status == Status::Done && whole.notes.is_empty());
    assert!(rt; whole.out.as_slice().ends_with(WRITTEN.as_bytes()));

    // The steps may stand in any order.
    let reversed = joined(
        rt.alloc(),
        &[
            END,
            "cnf(a2,axiom,~p,file(x,a2)).\n",
            "cnf(a1,axiom,p,file(x,a1)).\n",
        ],
    )?;
    let bytes = reversed.as_str().as_bytes();
    let found = run_on(&rt, &["convert", "p", "t"], PROBLEM, bytes, SOUND)?;
    assert!(rt; found.out.as_slice() == whole.out.as_slice());

    // The last newline of the trace may lack.
    let trace = joined(rt.alloc(), &[LEAVES, END])?;
    let cut = trace.as_str().get(..112).ok_or("shorter")?;
    let found = run_on(&rt, &["convert", "p", "t"], PROBLEM, cut.as_bytes(), SOUND)?;
    assert!(rt; found.out.as_slice().ends_with(WRITTEN.as_bytes()));

    let found = run_outside(
        &rt,
        Outside {
            room: FRONT.len(),
            ..SOUND
        },
    )?;
    assert!(rt; found.status == Status::WriteFault && found.out.as_slice() == FRONT.as_bytes());
    Ok(())
}

/// What `check` does with a text.
fn checked<R: Threads + Sync + AllocGlobal>(rt: &R, parts: &[&str]) -> Result<Ran, Fail> {
    let text = joined(rt.alloc(), parts)?;
    run_on(rt, &["check", "p"], text.as_str(), b"", SOUND)
}

#[test]
fn developments_are_typed_or_their_first_fault_is_named(rt: HostRuntime) -> Result<(), Fail> {
    let written = run_outside(&rt, SOUND)?;
    let text = std::str::from_utf8(written.out.as_slice()).map_err(|_| "no text")?;
    let found = checked(&rt, &[text])?;
    assert!(rt; found.status == Status::Done && found.notes.is_empty());
    assert!(rt; found.out.as_slice() == "typed\n".as_bytes());

    let (front, rest) = text.split_once("(or v0 (not v0))").ok_or("no em")?;
    let found = checked(&rt, &[front, "v0", rest])?;
    assert!(rt; found.is_refusal(Status::IllTyped, "bad prelude: command 23\n"));

    let (front, rest) = text.split_once("v3 v0").ok_or("no v3")?;
    let found = checked(&rt, &[front, "v3 v1", rest])?;
    let line = "ill typed at node 80: expected Prf p0_p, found Prf p0_p → Π (v5 : Prop), Prf v5\n";
    assert!(rt; found.is_refusal(Status::IllTyped, line));

    let (front, rest) = text.split_once("symbol goal").ok_or("no goal")?;
    let again = "constant symbol p0_p : Prop;\nsymbol goal";
    let found = checked(&rt, &[front, again, rest])?;
    assert!(rt; found.is_refusal(Status::IllTyped, "bad symbol: command 25\n"));

    let cut = text.get(..1521).ok_or("shorter")?;
    let found = checked(&rt, &[cut])?;
    assert!(rt; found.is_refusal(Status::Text, "not Lambdapi: file at byte 1156\n"));

    let found = run_on(&rt, &["check", "q"], "", b"", SOUND)?;
    assert!(rt; found.is_refusal(Status::ReadFault, "read fault: file\n"));
    Ok(())
}

#[test]
fn words_and_files_are_looked_for(rt: HostRuntime) -> Result<(), Fail> {
    let rows: [&[&str]; 12] = [
        &[],
        &["frob"],
        &["convert", "p"],
        &["convert", "p", "t", "t"],
        &["convert", "-p", "t"],
        &["convert", "p", "t", "--limit", "0"],
        &["convert", "p", "t", "--workers=65"],
        &["convert", "p", "t", "--limit", "5", "--limit", "6"],
        &["steps", "p", "t", "--limit", "5"],
        &["--help", "p"],
        &["expansion", "p", "--workers=2"],
        &["generate", "501"],
    ];
    for words in rows {
        let found = run_on(&rt, words, "", b"", SOUND)?;
        assert!(rt; found.is_refusal(Status::Words, "words: see --help\n"));
    }
    let found = run_on(&rt, &[], "", b"", Outside { note: 1, ..SOUND })?;
    assert!(rt; found.is_refusal(Status::Words, ""));

    let found = run_on(&rt, &["--help"], "", b"", SOUND)?;
    assert!(rt; found.status == Status::Done && found.notes.is_empty());
    assert!(rt; found.out.as_slice() == USAGE.as_bytes());

    let rows: [(&[&str], &str); 7] = [
        (&["expansion", "q", "t", "--limit", "65"], "problem"),
        (&["convert", "--limit=65", "--", "p", "q"], "trace"),
        (&["convert", "p", "q"], "trace"),
        (&["extract", "p", "q", "--workers", "64"], "trace"),
        (&["steps", "q", "t"], "problem"),
        (&["dedukti", "--limit=65", "p", "q"], "trace"),
        (&["dkcheck", "q"], "file"),
    ];
    for (words, file) in rows {
        let found = run_on(&rt, words, PROBLEM, b"", SOUND)?;
        let line = joined(rt.alloc(), &["read fault: ", file, "\n"])?;
        assert!(rt; found.is_refusal(Status::ReadFault, line.as_str()));
    }
    Ok(())
}
