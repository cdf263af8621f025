//! Calls of the outside that fail, take nothing or move few bytes; traces that are cut or go in circles; developments that
//! nest deep.
use super::*;
use crate::step_rows::OF_E;
use crate::tests::{END, LEAVES, Outside, PROBLEM, Ran, SOUND, joined, run_on};
use std::alloc::Global;
use std::test::Fail;
use std::thread::Threads;

/// The commands on a problem and a trace.
const ON_TRACES: [&str; 5] = ["convert", "steps", "extract", "expansion", "dedukti"];

/// A command on the trace of `p` and `~p`.
fn run_first<R: Threads + Sync + AllocGlobal>(
    rt: &R,
    command: &str,
    outside: Outside,
) -> Result<Ran, Fail> {
    let trace = joined(rt.alloc(), &[LEAVES, END])?;
    run_on(
        rt,
        &[command, "p", "t"],
        PROBLEM,
        trace.as_str().as_bytes(),
        outside,
    )
}

#[test]
fn each_start_and_each_read_may_fail(rt: HostRuntime) -> Result<(), Fail> {
    // A start and two reads for each file: the first read gives it whole, the second finds its end.
    for command in ON_TRACES {
        for read in 1..8 {
            let found = run_first(&rt, command, Outside { read, ..SOUND })?;
            let is_told = match read {
                1..=3 => found.is_refusal(Status::ReadFault, "read fault: problem\n"),
                4..=6 => found.is_refusal(Status::ReadFault, "read fault: trace\n"),
                _ => found.status == Status::Done,
            };
            assert!(rt; is_told);
        }
    }
    for command in ["check", "dkcheck"] {
        for read in 1..4 {
            let found = run_on(
                &rt,
                &[command, "p"],
                PROBLEM,
                b"",
                Outside { read, ..SOUND },
            )?;
            assert!(rt; found.is_refusal(Status::ReadFault, "read fault: file\n"));
        }
    }
    Ok(())
}

#[test]
fn a_write_may_fail_or_take_nothing(rt: HostRuntime) -> Result<(), Fail> {
    for command in ON_TRACES {
        let found = run_first(&rt, command, Outside { write: 1, ..SOUND })?;
        assert!(rt; found.is_refusal(Status::WriteFault, "write fault\n"));
        let found = run_first(&rt, command, Outside { zero: 1, ..SOUND })?;
        assert!(rt; found.is_refusal(Status::WriteFault, "write fault\n"));
    }
    Ok(())
}

/// Whether a run with few bytes at a time ends as the run without.
fn is_alike<R: Threads + Sync + AllocGlobal>(
    rt: &R,
    command: &str,
    problem: &str,
    trace: &[u8],
    most: usize,
) -> Result<bool, Fail> {
    let words = [command, "p", "t"];
    let whole = run_on(rt, &words, problem, trace, SOUND)?;
    let found = run_on(rt, &words, problem, trace, Outside { most, ..SOUND })?;
    let is_done = whole.status == Status::Done && found.status == Status::Done;
    Ok(is_done && found.out.as_slice() == whole.out.as_slice())
}

#[test]
fn few_bytes_at_a_time_change_nothing(rt: HostRuntime) -> Result<(), Fail> {
    let first = joined(rt.alloc(), &[LEAVES, END])?;
    let first = first.as_str().as_bytes();
    let of_e = OF_E.trace.as_bytes();
    for command in ON_TRACES {
        for most in [1, 7] {
            assert!(rt; is_alike(&rt, command, PROBLEM, first, most)?);
            assert!(rt; is_alike(&rt, command, OF_E.problem, of_e, most)?);
        }
    }
    Ok(())
}

/// The first byte of the item that a cut behind so many bytes leaves open.
fn open_item(text: &str, length: usize) -> Option<usize> {
    let mut first: usize = 0;
    for line in text.split('\n') {
        let behind = first.saturating_add(line.len());
        let is_item = line.starts_with("fof(") || line.starts_with("cnf(");
        if is_item && first < length && length < behind {
            return Some(first);
        }
        first = behind.saturating_add(1);
    }
    None
}

#[test]
fn a_trace_of_e_may_be_cut_anywhere(rt: HostRuntime) -> Result<(), Fail> {
    let text = OF_E.trace;
    let whole = run_on(
        &rt,
        &["convert", "p", "t"],
        OF_E.problem,
        text.as_bytes(),
        SOUND,
    )?;
    let last = text.rfind("% SZS").ok_or("no end")?;
    for length in 0..text.len() {
        let part = text.get(..length).ok_or("shorter")?;
        let found = run_on(
            &rt,
            &["convert", "p", "t"],
            OF_E.problem,
            part.as_bytes(),
            SOUND,
        )?;
        let is_told = match open_item(text, length) {
            Some(at) => {
                let line = format!(in rt.alloc(); "not TPTP: trace at byte {at}\n")?;
                found.is_refusal(Status::Text, line.as_str())
            }
            None if length + 1 < last => found.is_refusal(Status::Input, "no refutation\n"),
            None => found.out.as_slice() == whole.out.as_slice(),
        };
        assert!(rt; is_told);
    }
    Ok(())
}

#[test]
fn a_circle_of_all_items_is_told(rt: HostRuntime) -> Result<(), Fail> {
    let alloc = rt.alloc();
    let mut text = String::new(alloc);
    for step in 1..65_536 {
        let next = step + 1;
        text.push_str(format!(in alloc; "cnf(a{step},plain,p,a{next}).\n")?.as_str())?;
    }
    text.push_str("cnf(a65536,plain,p,a1).\n")?;
    let bytes = text.as_str().as_bytes();
    for command in ON_TRACES {
        let found = run_on(&rt, &[command, "p", "t"], PROBLEM, bytes, SOUND)?;
        assert!(rt; found.is_refusal(Status::Input, "step 1: cycle\n"));
    }
    Ok(())
}

/// A front, so many openings, a middle, so many closings, and an end.
fn nested(alloc: Global, parts: [&str; 5], times: usize) -> Result<String, Fail> {
    let [front, opening, middle, closing, end] = parts;
    let mut text = String::from_str(alloc, front)?;
    for _ in 0..times {
        text.push_str(opening)?;
    }
    text.push_str(middle)?;
    for _ in 0..times {
        text.push_str(closing)?;
    }
    text.push_str(end)?;
    Ok(text)
}

#[test]
fn types_nest_to_the_left_up_to_the_limit(rt: HostRuntime) -> Result<(), Fail> {
    let lambdapi = ["symbol x : ", "(", "A → A", ") → A", ";"];
    let dedukti = ["x : ", "(", "A -> A", ") -> A", "."];
    for (command, parts) in [("check", lambdapi), ("dkcheck", dedukti)] {
        let within = nested(rt.alloc(), parts, 9_998)?;
        let found = run_on(&rt, &[command, "p"], within.as_str(), b"", SOUND)?;
        assert!(rt; found.is_refusal(Status::IllTyped, "bad prelude: command 1\n"));
        let over = nested(rt.alloc(), parts, 9_999)?;
        let found = run_on(&rt, &[command, "p"], over.as_str(), b"", SOUND)?;
        assert!(rt; found.is_refusal(Status::Limit, "too deep: file at byte 0\n"));
        // Brackets add nothing.
        let [front, opening, _, _, end] = parts;
        let brackets = nested(rt.alloc(), [front, opening, "A", ")", end], 1_000_000)?;
        let found = run_on(&rt, &[command, "p"], brackets.as_str(), b"", SOUND)?;
        assert!(rt; found.is_refusal(Status::IllTyped, "bad prelude: command 1\n"));
    }
    Ok(())
}
