use dk_syntax::{Formula, Kind, Name, NoMemory, Seq, SymKey};
use std::alloc::Global;
use std::test::Fail;
use tptp_text::{Body, Item, Lang, OutsideKind, Source};
use tstp_trace::{
    ProblemFault, StepSource, TraceFault, Unsupported, build_problem, build_trace, problem_from,
    trace_from,
};

fn name(alloc: Global, bytes: &[u8]) -> Result<Name, NoMemory> {
    Ok(Name::new(Vec::from_slice(alloc, bytes)?))
}

fn atom(alloc: Global, symbol: &[u8]) -> Result<Body, NoMemory> {
    let symbol = SymKey {
        name: name(alloc, symbol)?,
        arity: 0,
        kind: Kind::Predicate,
    };
    let args = Seq::from_vec(Vec::new(alloc));
    Ok(Body::Plain(Formula::Atom(symbol, args)))
}

fn item(
    alloc: Global,
    own: &[u8],
    role: &[u8],
    body: Body,
    source: Source,
) -> Result<Item, NoMemory> {
    Ok(Item {
        lang: Lang::Fof,
        name: name(alloc, own)?,
        role: name(alloc, role)?,
        body,
        free: None,
        source,
    })
}

fn plain(alloc: Global, parent: &[u8]) -> Result<Source, NoMemory> {
    Ok(Source::Plain(name(alloc, parent)?))
}

fn inference(alloc: Global, status: &[u8], parents: Vec<Source>) -> Result<Source, NoMemory> {
    Ok(Source::Inference {
        status: Some(name(alloc, status)?),
        parents: Seq::from_vec(parents),
    })
}

/// The answer on a trace of one step with that source.
fn step_with(alloc: Global, source: Source) -> Result<StepSource, TraceFault> {
    let body = atom(alloc, b"p")?;
    let items = vec![in alloc; item(alloc, b"s", b"plain", body, source)?]?;
    let trace = trace_from(alloc, Seq::from_vec(items))?;
    match trace.steps.into_vec().pop() {
        Some(step) => Ok(step.source),
        None => Err(TraceFault::Memory),
    }
}

#[test]
fn nested_inferences_are_flattened(rt: HostRuntime) -> Result<(), Fail> {
    let alloc = rt.alloc();
    let inner = inference(alloc, b"thm", vec![in alloc; plain(alloc, b"c_0_3")?]?)?;
    let again = plain(alloc, b"c_0_3")?;
    let source = inference(alloc, b"thm", vec![in alloc; inner, again]?)?;
    let StepSource::Derived { cth, esa, parents } = step_with(alloc, source)? else {
        panic!(rt; "the step is a leaf")
    };
    assert!(rt; !cth && !esa);
    assert_eq!(rt; parents.len(), 1);
    assert_eq!(rt; parents.as_slice()[0].as_bytes(), b"c_0_3".as_slice());
    Ok(())
}

#[test]
fn both_flags_with_one_parent(rt: HostRuntime) -> Result<(), Fail> {
    let alloc = rt.alloc();
    let inner = inference(alloc, b"cth", vec![in alloc; plain(alloc, b"g")?]?)?;
    let source = inference(alloc, b"esa", vec![in alloc; inner]?)?;
    let StepSource::Derived { cth, esa, parents } = step_with(alloc, source)? else {
        panic!(rt; "the step is a leaf")
    };
    assert!(rt; cth && esa);
    assert_eq!(rt; parents.len(), 1);
    Ok(())
}

#[test]
fn leaves_name_their_items(rt: HostRuntime) -> Result<(), Fail> {
    let alloc = rt.alloc();
    let StepSource::Leaf(own) = step_with(alloc, Source::File(None))? else {
        panic!(rt; "the step is no leaf")
    };
    assert_eq!(rt; own.as_bytes(), b"s".as_slice());
    let source = Source::File(Some(name(alloc, b"a1")?));
    let StepSource::Leaf(other) = step_with(alloc, source)? else {
        panic!(rt; "the step is no leaf")
    };
    assert_eq!(rt; other.as_bytes(), b"a1".as_slice());
    Ok(())
}

/// What isn't supported of an inference with that status and so many different parents.
fn refusal(alloc: Global, status: &[u8], parents: u8) -> Result<Option<Unsupported>, NoMemory> {
    let mut sources = Vec::new(alloc);
    for parent in 0..parents {
        sources.push(plain(alloc, &[parent])?)?;
    }
    match step_with(alloc, inference(alloc, status, sources)?) {
        Err(TraceFault::Unsupported { kind, .. }) => Ok(Some(kind)),
        _ => Ok(None),
    }
}

#[test]
fn what_is_not_supported(rt: HostRuntime) -> Result<(), Fail> {
    let alloc = rt.alloc();
    let Err(TraceFault::Unsupported { step, kind }) = step_with(alloc, Source::Other) else {
        panic!(rt; "the source is supported")
    };
    assert_eq!(rt; step, 1);
    assert_eq!(rt; kind, Unsupported::Word);
    assert_eq!(rt; refusal(alloc, b"sat", 1)?, Some(Unsupported::Status));
    assert_eq!(rt; refusal(alloc, b"thm", 0)?, Some(Unsupported::NoParent));
    assert_eq!(rt; refusal(alloc, b"cth", 9)?, Some(Unsupported::ManyParents));
    assert_eq!(rt; refusal(alloc, b"cth", 2)?, Some(Unsupported::Mixed));
    assert_eq!(rt; refusal(alloc, b"thm", 8)?, None);
    Ok(())
}

#[test]
fn the_later_of_two_equal_names(rt: HostRuntime) -> Result<(), Fail> {
    let alloc = rt.alloc();
    let first = item(alloc, b"a1", b"axiom", atom(alloc, b"p")?, Source::Missing)?;
    let second = item(alloc, b"a1", b"axiom", atom(alloc, b"q")?, Source::Missing)?;
    let items = Seq::from_vec(vec![in alloc; first, second]?);
    let Err(TraceFault::DuplicateName { step }) = build_trace(alloc, &items) else {
        panic!(rt; "the names differ")
    };
    assert_eq!(rt; step, 2);
    Ok(())
}

#[test]
fn a_problem_has_its_symbols(rt: HostRuntime) -> Result<(), Fail> {
    let alloc = rt.alloc();
    let goal = item(
        alloc,
        b"g",
        b"conjecture",
        atom(alloc, b"q")?,
        Source::Missing,
    )?;
    let axiom = item(alloc, b"a", b"axiom", atom(alloc, b"p")?, Source::Missing)?;
    let items = Seq::from_vec(vec![in alloc; goal, axiom]?);
    let problem = build_problem(alloc, &items)?;
    assert_eq!(rt; problem.hyps.len(), 1);
    assert!(rt; problem.conjecture.is_some());
    assert_eq!(rt; problem.symbols.len(), 2);
    assert_eq!(rt;
        problem.symbols.as_slice()[0].name.as_bytes(),
        b"p".as_slice()
    );
    Ok(())
}

#[test]
fn faults_of_a_problem(rt: HostRuntime) -> Result<(), Fail> {
    let alloc = rt.alloc();
    let first = item(
        alloc,
        b"g",
        b"conjecture",
        atom(alloc, b"p")?,
        Source::Missing,
    )?;
    let second = item(
        alloc,
        b"h",
        b"conjecture",
        atom(alloc, b"q")?,
        Source::Missing,
    )?;
    let twice = problem_from(alloc, Seq::from_vec(vec![in alloc; first, second]?));
    let Err(ProblemFault::TwoConjectures { item: at }) = twice else {
        panic!(rt; "there is one conjecture")
    };
    assert_eq!(rt; at, 2);
    let role = item(alloc, b"a", b"plain", atom(alloc, b"p")?, Source::Missing)?;
    let bad = problem_from(alloc, Seq::from_vec(vec![in alloc; role]?));
    assert!(rt; matches!(bad, Err(ProblemFault::BadRole { item: 1 })));
    let body = Body::Outside(OutsideKind::Equality);
    let equality = item(alloc, b"a", b"plain", body, Source::Missing)?;
    let outside = problem_from(alloc, Seq::from_vec(vec![in alloc; equality]?));
    let Err(ProblemFault::Outside { kind, .. }) = outside else {
        panic!(rt; "the item is inside the profile")
    };
    assert_eq!(rt; kind, OutsideKind::Equality);
    Ok(())
}
