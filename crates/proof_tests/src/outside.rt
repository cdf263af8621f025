use dk_io::*;
use std::alloc::Global;
use std::test::Fail;

// Bytes that differ from place to place.
fn some_bytes(alloc: Global, count: usize) -> Result<Vec<u8>, Fail> {
    let mut bytes = Vec::new(alloc);
    for at in 0..count {
        bytes.push((at % 251) as u8)?;
    }
    Ok(bytes)
}

// Inputs with one file, `p`, whose listed call fails.
fn inputs_with(alloc: Global, count: usize, fail: u64) -> Result<MemInputs, Fail> {
    let name = String::from_str(alloc, "p")?;
    let bytes = some_bytes(alloc, count)?;
    let files = vec![in alloc; (name, bytes)]?;
    Ok(MemInputs::new(files, vec![in alloc; fail]?))
}

// Why a file of so many bytes is not read, if it is not.
fn refusal(alloc: Global, count: usize, name: &str, fail: u64) -> Result<Option<ReadAll>, Fail> {
    let mut inputs = inputs_with(alloc, count, fail)?;
    let bytes = some_bytes(alloc, count)?;
    Ok(match read_all(alloc, &mut inputs, name) {
        Ok(read) if read == bytes => None,
        Ok(_) => Some(ReadAll::Memory),
        Err(refusal) => Some(refusal),
    })
}

// Whether just these of three writes fail, and these bytes are kept, where there is room for five.
fn writes(alloc: Global, fail: u64, failed: [bool; 3], kept: &str) -> Result<bool, Fail> {
    let mut sink = MemSink::new(alloc, 5, vec![in alloc; fail]?)?;
    let first = write_all(&mut sink, b"ab").is_err();
    let second = write_all(&mut sink, b"cd").is_err();
    let third = write_all(&mut sink, b"ef").is_err();
    Ok([first, second, third] == failed && sink.bytes() == kept.as_bytes())
}

// Whether a file of so many bytes is read whole where a call gives `most` of them.
fn reads_by(alloc: Global, count: usize, most: usize) -> Result<bool, Fail> {
    let mut inputs = inputs_with(alloc, count, 0)?;
    inputs.most = most;
    let bytes = some_bytes(alloc, count)?;
    Ok(matches!(read_all(alloc, &mut inputs, "p"), Ok(read) if read == bytes))
}

// What a sink keeps of three bytes that are written whole, where a call takes `most` of them and this
// one takes none: the bytes kept, where the write fails.
fn takes_by(alloc: Global, most: usize, zero: u64) -> Result<(bool, usize), Fail> {
    let mut sink = MemSink::new(alloc, 5, Vec::new(alloc))?;
    sink.most = most;
    sink.zero.push(zero)?;
    let done = write_all(&mut sink, b"abc").is_ok();
    Ok((done, sink.bytes().len()))
}

// Whether just these of three lines fail, and these bytes are kept, where there is room for two.
fn notes(alloc: Global, fail: u64, failed: [bool; 3], kept: &str) -> Result<bool, Fail> {
    let mut notes = MemNotes::new(alloc, 6, vec![in alloc; fail]?)?;
    let first = notes.line("ab").is_err();
    let second = notes.line("cd").is_err();
    let third = notes.line("ef").is_err();
    Ok([first, second, third] == failed && notes.bytes() == kept.as_bytes())
}

#[test]
fn objects_in_memory_fail_at_their_listed_calls(rt: HostRuntime) -> Result<(), Fail> {
    let alloc = rt.alloc();
    // A start, two reads that give bytes, and one that gives none.
    for call in 1..5 {
        assert!(rt; refusal(alloc, 100_000, "p", call)? == Some(ReadAll::Fault));
    }
    assert!(rt; refusal(alloc, 100_000, "p", 5)?.is_none());
    assert!(rt; refusal(alloc, 100_000, "q", 5)? == Some(ReadAll::Fault));
    assert!(rt; refusal(alloc, MAX_BYTES + 1, "p", 0)? == Some(ReadAll::TooLong));

    assert!(rt; writes(alloc, 1, [true, false, false], "cdef")?);
    assert!(rt; writes(alloc, 2, [false, true, false], "abef")?);
    assert!(rt; writes(alloc, 3, [false, false, true], "abcd")?);
    assert!(rt; writes(alloc, 4, [false, false, true], "abcde")?);

    assert!(rt; notes(alloc, 1, [true, false, false], "cd\nef\n")?);
    assert!(rt; notes(alloc, 2, [false, true, false], "ab\nef\n")?);
    assert!(rt; notes(alloc, 3, [false, false, true], "ab\ncd\n")?);
    assert!(rt; notes(alloc, 4, [false, false, true], "ab\ncd\n")?);
    Ok(())
}

#[test]
fn calls_move_no_more_than_they_may(rt: HostRuntime) -> Result<(), Fail> {
    let alloc = rt.alloc();
    assert!(rt; reads_by(alloc, 10, 1)? && reads_by(alloc, 10, 7)?);
    assert!(rt; takes_by(alloc, 1, 0)? == (true, 3));
    assert!(rt; takes_by(alloc, 1, 2)? == (false, 1));
    assert!(rt; takes_by(alloc, 2, 3)? == (true, 3));
    Ok(())
}

#[test]
fn adapters_reach_the_system(rt: HostRuntime) -> Result<(), Fail> {
    std::fs::write(&rt, "found.txt", "text")?;
    let mut inputs = FileInputs::new(&rt);
    let found = read_all(rt.alloc(), &mut inputs, "found.txt")?;
    assert!(rt; found.as_slice() == b"text".as_slice());
    std::fs::remove_file(&rt, "found.txt")?;
    let missing = read_all(rt.alloc(), &mut inputs, "found.txt");
    assert!(rt; matches!(missing, Err(ReadAll::Fault)));

    assert!(rt; write_all(&mut OutSink::new(&rt), b"a line to standard output\n").is_ok());
    assert!(rt; ErrNotes::new(&rt).line("a line to standard error").is_ok());
    NoGate.pass(0);
    Ok(())
}
