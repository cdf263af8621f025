//! Texts that are read, and texts with a fault.
use dk_syntax::{Name, NoMemory};
use std::alloc::Global;
use std::test::Fail;
use tptp_text::{Source, TptpFault, closed, outside, read_items};

const TRACE: &[u8] = b"cnf(a1,axiom,p,file(x,a1)).
cnf(a2,axiom,~p,file(x,a2)).
cnf(c,plain,$false,inference(r,[status(thm)],[a1,a2])).
";

// The output of the prover E for a small problem.
const DERIVATION: &[u8] = b"# SZS status Theorem
% SZS output start CNFRefutation
fof(goal, conjecture, (?[X1]:(mortal(X1))), file('soc.p', goal)).
fof(man, axiom, (![X1]:((man(X1)=>mortal(X1)))), file('soc.p', man)).
fof(soc, axiom, (man(socrates)), file('soc.p', soc)).
fof(c_0_3, negated_conjecture, (~((?[X1]:(mortal(X1))))), inference(assume_negation,[status(cth)],[goal])).
fof(c_0_4, negated_conjecture, (![X2]:(~mortal(X2))), inference(variable_rename,[status(thm)],[inference(fof_nnf,[status(thm)],[c_0_3])])).
fof(c_0_5, plain, (![X2]:((~man(X2)|mortal(X2)))), inference(variable_rename,[status(thm)],[inference(fof_nnf,[status(thm)],[man])])).
cnf(c_0_6, negated_conjecture, (~mortal(X1)), inference(split_conjunct,[status(thm)],[c_0_4])).
cnf(c_0_7, plain, (mortal(X1)|~man(X1)), inference(split_conjunct,[status(thm)],[c_0_5])).
cnf(c_0_8, plain, (man(socrates)), inference(split_conjunct,[status(thm)],[soc])).
cnf(c_0_9, negated_conjecture, (~man(X1)), inference(spm,[status(thm)],[c_0_6, c_0_7])).
cnf(c_0_10, negated_conjecture, ($false), inference(sr,[status(thm)],[c_0_8, c_0_9]), ['proof']).
% SZS output end CNFRefutation
";

fn put_name(out: &mut Vec<u8>, name: &Option<Name>) -> Result<(), NoMemory> {
    match name {
        None => out.push(b'-')?,
        Some(name) => out.extend_from_slice(name.as_bytes())?,
    }
    Ok(())
}

/// `missing`, a name, `file(..)`, `status[..]` or `other`.
fn put_source(out: &mut Vec<u8>, source: &Source) -> Result<(), NoMemory> {
    match source {
        Source::Missing => out.extend_from_slice(b"missing")?,
        Source::Plain(name) => out.extend_from_slice(name.as_bytes())?,
        Source::File(name) => {
            out.extend_from_slice(b"file ")?;
            put_name(out, name)?;
        }
        Source::Inference { status, parents } => {
            put_name(out, status)?;
            out.push(b'[')?;
            for parent in parents.as_slice() {
                put_source(out, parent)?;
                out.push(b' ')?;
            }
            out.push(b']')?;
        }
        Source::Other => out.extend_from_slice(b"other")?,
    }
    Ok(())
}

/// The sources of the items, each with a `;`, or the fault.
fn sources(alloc: Global, text: &[u8]) -> Result<Vec<u8>, NoMemory> {
    let mut out = Vec::new(alloc);
    match read_items(alloc, text) {
        Ok(items) => {
            for item in items.as_slice() {
                put_source(&mut out, &item.source)?;
                out.push(b';')?;
            }
        }
        Err(TptpFault::NotTptp { at }) => out.extend_from_slice(format!(in alloc;
            "not TPTP at {at}"
        )?.as_bytes())?,
        Err(TptpFault::TooDeep { at }) => out.extend_from_slice(format!(in alloc;
            "too deep at {at}"
        )?.as_bytes())?,
        Err(TptpFault::TooMany { at }) => out.extend_from_slice(format!(in alloc;
            "too many at {at}"
        )?.as_bytes())?,
        Err(TptpFault::Memory) => return Err(NoMemory),
    }
    Ok(out)
}

/// What a trace of three items is, cut at that length.
fn cut_answer(length: usize) -> &'static str {
    match length {
        0 => "",
        1..=26 => "not TPTP at 0",
        27 | 28 => "file a1;",
        29..=55 => "not TPTP at 28",
        56 | 57 => "file a1;file a2;",
        58..=111 => "not TPTP at 57",
        _ => "file a1;file a2;thm[a1 a2 ];",
    }
}

#[test]
fn a_trace_cut_at_each_length(rt: HostRuntime) -> Result<(), Fail> {
    let alloc = rt.alloc();
    for length in 0..113 {
        let Some(text) = TRACE.get(..length) else {
            assert_eq!(rt; length, 114, "the trace has 113 bytes");
            return Ok(());
        };
        let found = sources(alloc, text)?;
        assert_eq!(rt;
            found.as_slice(),
            cut_answer(length).as_bytes(),
            "at {length}"
        );
    }
    Ok(())
}

#[test]
fn a_derivation(rt: HostRuntime) -> Result<(), Fail> {
    let alloc = rt.alloc();
    let found = sources(alloc, DERIVATION)?;
    let expected =
        "file goal;file man;file soc;cth[goal ];thm[thm[c_0_3 ] ];thm[thm[man ] ];thm[c_0_4 ];thm[c_0_5 ];thm[soc ];thm[c_0_6 c_0_7 ];thm[c_0_8 c_0_9 ];";
    assert_eq!(rt; found.as_slice(), expected.as_bytes());
    Ok(())
}

#[test]
fn sources_of_each_kind(rt: HostRuntime) -> Result<(), Fail> {
    let alloc = rt.alloc();
    for (source, said) in [
        ("a", "a;"),
        ("'A b'", "A b;"),
        ("12", "12;"),
        ("+12", "other;"),
        ("1.5", "other;"),
        ("a,[x,y]", "a;"),
        ("file(x)", "file -;"),
        ("file('x.p',unknown)", "file -;"),
        ("file('x.p','unknown')", "file -;"),
        ("file(x,f(a))", "file -;"),
        ("file(x,7)", "file 7;"),
        ("file(a,b,c)", "other;"),
        ("file", "file;"),
        ("inference(r,[],[])", "-[];"),
        (
            "inference(r,[a,status(thm),status(esa)],[b:[c,d],e])",
            "thm[b e ];",
        ),
        ("inference(r,[status('thm')],[a])", "-[a ];"),
        ("inference(r,status(thm),[a])", "-[a ];"),
        ("inference(r,[status(thm)]+[b],[a])", "-[a ];"),
        (
            "inference(r,[status(cth)],[inference(q,[status(thm)],[a]),file(x,b)])",
            "cth[thm[a ] file b ];",
        ),
        ("inference(r,[],[a+b,inference(r,[])])", "-[other other ];"),
        ("inference(r,[],[a,,b])", "other;"),
        ("inference(r,[],[a,])", "other;"),
        ("inference(r,[],[a:])", "other;"),
        ("inference(r,[])", "other;"),
        ("introduced(definition)", "other;"),
        ("x'", "other;"),
        ("a b", "other;"),
        ("", "not TPTP at 0"),
        ("a]", "not TPTP at 0"),
        ("a,b,c", "not TPTP at 0"),
    ] {
        let text = format!(in alloc; "fof(n,axiom,p,{source}).")?;
        let found = sources(alloc, text.as_bytes())?;
        assert_eq!(rt; found.as_slice(), said.as_bytes(), "at {source}");
    }
    Ok(())
}

#[test]
fn other_items(rt: HostRuntime) -> Result<(), Fail> {
    let alloc = rt.alloc();
    for (text, said) in [
        ("include('x').", "missing;"),
        ("include('x',[a,b]).", "missing;"),
        ("include('x',a,b).", "not TPTP at 0"),
        ("thf(a,type,b: $i).", "missing;"),
        ("tpi(a).", "missing;"),
        ("tff().", "not TPTP at 0"),
        ("foo(a).", "not TPTP at 0"),
        ("fof(a,axiom,p=>q=>r).", "not TPTP at 0"),
        ("fof(A,axiom,p).", "not TPTP at 0"),
        ("fof(a,axiom,p) fof(b,axiom,p).", "not TPTP at 0"),
        (
            "%\n fof(1,axiom,p). /* */ cnf(b,axiom,p&q).",
            "not TPTP at 25",
        ),
        ("cnf(a,axiom,p). .", "not TPTP at 16"),
    ] {
        let found = sources(alloc, text.as_bytes())?;
        assert_eq!(rt; found.as_slice(), said.as_bytes(), "at {text}");
    }
    Ok(())
}

/// An atom in so many pairs of brackets.
fn nested(alloc: Global, pairs: usize) -> Result<Vec<u8>, NoMemory> {
    let mut text = Vec::from_slice(alloc, b"fof(a,axiom,")?;
    for _ in 0..pairs {
        text.push(b'(')?;
    }
    text.push(b'p')?;
    for _ in 0..pairs {
        text.push(b')')?;
    }
    text.extend_from_slice(b").")?;
    Ok(text)
}

#[test]
fn brackets_up_to_the_limit(rt: HostRuntime) -> Result<(), Fail> {
    let alloc = rt.alloc();
    for (pairs, said) in [(999, "missing;"), (1000, "too deep at 0")] {
        let text = nested(alloc, pairs)?;
        let found = sources(alloc, text.as_slice())?;
        assert_eq!(rt; found.as_slice(), said.as_bytes(), "at {pairs}");
    }
    Ok(())
}

/// What is kept besides the source: the free variable and the kind of what is outside.
fn kept(alloc: Global, text: &[u8]) -> Result<Vec<u8>, NoMemory> {
    let mut out = Vec::new(alloc);
    if let Ok(items) = read_items(alloc, text) {
        for item in items.as_slice() {
            if let Some(name) = closed(item) {
                out.extend_from_slice(name.as_bytes())?;
            }
            if let Some(kind) = outside(item) {
                out.extend_from_slice(format!(in alloc; " {kind:?}")?.as_bytes())?;
            }
            out.push(b';')?;
        }
    }
    Ok(out)
}

#[test]
fn free_variables_and_kinds(rt: HostRuntime) -> Result<(), Fail> {
    let alloc = rt.alloc();
    for (text, said) in [
        ("fof(a,axiom,p(X)).", "X;"),
        ("fof(a,axiom,p(X)<=q(Y)).", "X;"),
        ("cnf(a,axiom,p(X)).", ";"),
        ("fof(a,axiom,X=Y).", " Equality;"),
        (
            "fof(a,axiom,p(1)).tcf(a).include(b).",
            " Number; Language; Include;",
        ),
    ] {
        let found = kept(alloc, text.as_bytes())?;
        assert_eq!(rt; found.as_slice(), said.as_bytes(), "at {text}");
    }
    Ok(())
}
