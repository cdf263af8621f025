//! Worked traces whose every step is listed: what is right and why, and each wrong step by its reason.
use super::*;
use crate::tests::{SOUND, joined, run_on, run_past};
use dk_io::Gate;
use generator::generate;
use std::alloc::Global;
use std::sync::atomic::{AtomicU64, Ordering};
use std::test::Fail;
use std::thread::Threads;

/// A problem, a trace, and the line on each of its steps.
#[derive(Clone, Copy)]
pub struct Row<'a> {
    pub problem: &'a str,
    pub trace: &'a str,
    lines: &'a str,
}

/// Steps by one parent: images, images of regrouped formulas, and images whose clauses are taken at once.
const IMAGES: [Row; 6] = [
    // The drinker: a negated conjecture, its image, and the image's clauses.
    Row {
        problem: "fof(g,conjecture,?[X]:(p(X)=>![Y]:p(Y))).",
        trace: "fof(g,conjecture,?[X]:(p(X)=>![Y]:p(Y)),file(x,g)).
fof(n,negated_conjecture,~?[X]:(p(X)=>![Y]:p(Y)),inference(n,[status(cth)],[g])).
fof(m,plain,![X]:(p(X)&?[Y]:~p(Y)),inference(f,[status(thm)],[n])).
fof(s,plain,![X]:(p(X)&~p(f(X))),inference(k,[status(esa)],[m])).
cnf(c1,plain,p(X),inference(c,[status(thm)],[s])).
cnf(c2,plain,~p(f(X)),inference(c,[status(thm)],[s])).
cnf(e,plain,$false,inference(r,[status(thm)],[c1,c2])).",
        lines: "1 g conjecture\n2 n structural\n3 m structural\n4 s structural\n5 c1 clausal\n6 c2 clausal\n7 e clausal\n",
    },
    // The symbol lacks the universal that is free in the existential.
    Row {
        problem: "fof(a,axiom,![Y]:?[X]:p(X,Y)).",
        trace: "fof(a,axiom,![Y]:?[X]:p(X,Y),file(x,a)).
fof(s,plain,![Y]:p(f,Y),inference(k,[status(esa)],[a])).
cnf(e,plain,$false,inference(r,[status(thm)],[s])).",
        lines: "1 a leaf\n2 s wrong: not a Skolem image\n3 e wrong: unjustified clause 0\n",
    },
    // An image of a formula whose sides changed places.
    Row {
        problem: "fof(a1,axiom,![X]:((p(X)&?[Y]:r(X,Y))|q)). fof(a2,axiom,~q). fof(a3,axiom,![X,Y]:~r(X,Y)).",
        trace: "fof(a1,axiom,![X]:((p(X)&?[Y]:r(X,Y))|q),file(x,a1)).
fof(a2,axiom,~q,file(x,a2)).
fof(a3,axiom,![X,Y]:~r(X,Y),file(x,a3)).
fof(m,plain,![X]:(q|((?[Y]:r(X,Y))&p(X))),inference(f,[status(thm)],[a1])).
fof(s,plain,![X]:(q|(r(X,f(X))&p(X))),inference(k,[status(esa)],[m])).
cnf(d,plain,q,inference(r,[status(thm)],[s,a3])).
cnf(e,plain,$false,inference(r,[status(thm)],[d,a2])).",
        lines: "1 a1 leaf\n2 a2 leaf\n3 a3 leaf\n4 m structural\n5 s structural\n6 d clausal\n7 e clausal\n",
    },
    // An image whose sides changed places too: its clauses follow from those of an image.
    Row {
        problem: "fof(a1,axiom,![X]:((p(X)&?[Y]:r(X,Y))|q)).",
        trace: "fof(a1,axiom,![X]:((p(X)&?[Y]:r(X,Y))|q),file(x,a1)).
fof(m,plain,![X]:(q|((?[Y]:r(X,Y))&p(X))),inference(f,[status(thm)],[a1])).
fof(s,plain,![X]:((r(X,f(X))&p(X))|q),inference(k,[status(esa)],[m])).",
        lines: "1 a1 leaf\n2 m structural\n3 s composed\n",
    },
    // One clause of an image; its symbol is not new later.
    Row {
        problem: "fof(a1,axiom,![X]:?[Y]:(r(X,Y)&s(Y))). fof(a2,axiom,![X]:~s(X)). fof(a3,axiom,![X]:?[Z]:q(X,Z)).",
        trace: "fof(a1,axiom,![X]:?[Y]:(r(X,Y)&s(Y)),file(x,a1)).
fof(a2,axiom,![X]:~s(X),file(x,a2)).
cnf(c,plain,s(f(X)),inference(split_conjunct,[status(thm)],[inference(skolemize,[status(esa)],[a1])])).
cnf(e,plain,$false,inference(r,[status(thm)],[c,a2])).
fof(a3,axiom,![X]:?[Z]:q(X,Z),file(x,a3)).
fof(g,plain,![X]:q(X,f(X)),inference(k,[status(esa)],[a3])).",
        lines: "1 a1 leaf\n2 a2 leaf\n3 c composed\n4 e clausal\n5 a3 leaf\n6 g wrong: not fresh: f\n",
    },
    // The same with a symbol without an argument.
    Row {
        problem: "fof(a1,axiom,![X]:?[Y]:(r(X,Y)&s(Y))).",
        trace: "fof(a1,axiom,![X]:?[Y]:(r(X,Y)&s(Y)),file(x,a1)).
cnf(c,plain,s(f),inference(split_conjunct,[status(thm)],[inference(skolemize,[status(esa)],[a1])])).",
        lines: "1 a1 leaf\n2 c wrong: not a Skolem image\n",
    },
];

/// Leaves, symbols that are not new, and steps by several parents.
const OTHERS: [Row; 7] = [
    // Names of steps are printed as in TPTP. No root is asked for.
    Row {
        problem: "cnf(a1,axiom,p). cnf(a2,axiom,~p).",
        trace: "cnf(a1,axiom,p,file(x,a1)).
cnf('C c',plain,q,inference(r,[status(thm)],[a1,a2])).
cnf(a2,axiom,~p,file(x,a2)).
fof(7,plain,p&~p,inference(r,[status(thm)],[a1,a2])).
cnf(g,axiom,p,file(x,zz)).",
        lines: "1 a1 leaf\n2 'C c' wrong: alien symbol: q\n3 a2 leaf\n4 7 clausal\n5 g wrong: unknown leaf\n",
    },
    // A leaf is compared up to the names of its variables.
    Row {
        problem: "fof(a,axiom,![X]:p(X)). fof(b,axiom,![X]:p(X)).",
        trace: "fof(a,axiom,![Y]:p(Y),file(x,a)).\nfof(b,axiom,![X]:~p(X),file(x,b)).",
        lines: "1 a leaf\n2 b wrong: altered leaf\n",
    },
    // Two steps introduce one symbol for two existentials.
    Row {
        problem: "fof(a,axiom,?[X]:p(X)). fof(b,axiom,?[X]:q(X)).",
        trace: "fof(a,axiom,?[X]:p(X),file(x,a)).
fof(b,axiom,?[X]:q(X),file(x,b)).
fof(c,plain,?[Y]:p(Y),inference(v,[status(thm)],[a])).
fof(d,plain,p(f),inference(k,[status(esa)],[c])).
cnf(e,plain,p(f),inference(v,[status(thm)],[d])).
fof(g,plain,?[Y]:q(Y),inference(v,[status(thm)],[b])).
fof(h,plain,q(f),inference(k,[status(esa)],[g])).",
        lines: "1 a leaf\n2 b leaf\n3 c structural\n4 d structural\n5 e structural\n6 g structural\n7 h wrong: not fresh: f\n",
    },
    // A symbol of the problem in an item that the trace doesn't use.
    Row {
        problem: "fof(a,axiom,?[X]:p(X)). fof(b,axiom,s(f)).",
        trace: "fof(a,axiom,?[X]:p(X),file(x,a)).\nfof(k,plain,p(f),inference(k,[status(esa)],[a])).",
        lines: "1 a leaf\n2 k wrong: not fresh: f\n",
    },
    // The parents of a chain are taken in order.
    Row {
        problem: "cnf(a1,axiom,p). cnf(a2,axiom,~p|q). cnf(a3,axiom,~q).",
        trace: "cnf(a1,axiom,p,file(x,a1)).
cnf(a2,axiom,~p|q,file(x,a2)).
cnf(a3,axiom,~q,file(x,a3)).
cnf(c,plain,$false,inference(r,[status(thm)],[a1,a2,a3])).
cnf(d,plain,$false,inference(r,[status(thm)],[a1,a3,a2])).",
        lines: "1 a1 leaf\n2 a2 leaf\n3 a3 leaf\n4 c chained\n5 d wrong: unjustified clause 0\n",
    },
    // The conjecture is no hypothesis, and a hypothesis no conjecture.
    Row {
        problem: "cnf(a,axiom,p). fof(g,conjecture,p).",
        trace: "cnf(a,axiom,p,file(x,a)).
fof(g,conjecture,p,file(x,g)).
cnf(b,plain,p,inference(r,[status(thm)],[g])).
cnf(c,plain,~p,inference(n,[status(cth)],[a])).",
        lines: "1 a leaf\n2 g conjecture\n3 b wrong: conjecture as parent\n4 c wrong: not the conjecture\n",
    },
    // An existential that is left.
    Row {
        problem: "fof(a,axiom,?[X]:p(X)). fof(b,axiom,q).",
        trace: "fof(a,axiom,?[X]:p(X),file(x,a)).
fof(b,axiom,q,file(x,b)).
cnf(c,plain,q,inference(r,[status(thm)],[a,b])).",
        lines: "1 a leaf\n2 b leaf\n3 c wrong: existential left\n",
    },
];

/// A trace in the manner of E.
pub const OF_E: Row = Row {
    problem: "% the problem\nfof(man,axiom,![X]:(man(X)=>mortal(X))).\nfof(soc,axiom,man(socrates)).\nfof(goal,conjecture,?[X]:mortal(X)).\n",
    trace: "# SZS status Theorem
% SZS output start CNFRefutation
fof(goal, conjecture, (?[X1]:(mortal(X1))), file('soc.p', goal)).
fof(man, axiom, (![X1]:((man(X1)=>mortal(X1)))), file('soc.p', man)).
fof(soc, axiom, (man(socrates)), file('soc.p', soc)).
fof(c_0_3, negated_conjecture, (~((?[X1]:(mortal(X1))))), inference(assume_negation,[status(cth)],[goal])).
fof(c_0_4, negated_conjecture, (![X2]:(~mortal(X2))), inference(variable_rename,[status(thm)],[inference(fof_nnf,[status(thm)],[c_0_3])])).
fof(c_0_5, plain, (![X2]:((~man(X2)|mortal(X2)))), inference(variable_rename,[status(thm)],[inference(fof_nnf,[status(thm)],[man])])).
cnf(c_0_6, negated_conjecture, (~mortal(X1)), inference(split_conjunct,[status(thm)],[c_0_4])).
cnf(c_0_7, plain, (mortal(X1)|~man(X1)), inference(split_conjunct,[status(thm)],[c_0_5])).
cnf(c_0_8, plain, (man(socrates)), inference(split_conjunct,[status(thm)],[soc])).
cnf(c_0_9, negated_conjecture, (~man(X1)), inference(spm,[status(thm)],[c_0_6, c_0_7])).
cnf(c_0_10, negated_conjecture, ($false), inference(sr,[status(thm)],[c_0_8, c_0_9]), ['proof']).
% SZS output end CNFRefutation
",
    lines: "1 goal conjecture\n2 man leaf\n3 soc leaf\n4 c_0_3 structural\n5 c_0_4 structural\n6 c_0_5 structural\n7 c_0_6 structural\n8 c_0_7 structural\n9 c_0_8 structural\n10 c_0_9 clausal\n11 c_0_10 clausal\n",
};

fn is_listed<R: Threads + Sync + AllocGlobal>(
    rt: &R,
    workers: &str,
    row: &Row,
) -> Result<bool, Fail> {
    let found = run_on(
        rt,
        &["steps", "p", "t", "--workers", workers],
        row.problem,
        row.trace.as_bytes(),
        SOUND,
    )?;
    let is_done = found.status == Status::Done && found.notes.is_empty();
    Ok(is_done && found.out.as_slice() == row.lines.as_bytes())
}

fn are_listed<R: Threads + Sync + AllocGlobal>(rt: &R, rows: &[Row]) -> Result<bool, Fail> {
    for row in rows {
        if !is_listed(rt, "4", row)? {
            return Ok(false);
        }
    }
    Ok(true)
}

#[test]
fn images_are_listed(rt: HostRuntime) -> Result<(), Fail> {
    assert!(rt; are_listed(&rt, &IMAGES)?);
    Ok(())
}

#[test]
fn leaves_and_consequences_are_listed(rt: HostRuntime) -> Result<(), Fail> {
    assert!(rt; are_listed(&rt, &OTHERS)?);
    for workers in ["1", "2", "64"] {
        assert!(rt; is_listed(&rt, workers, &OF_E)?);
    }
    Ok(())
}

/// How often a piece looks for the other.
const TURNS: u32 = 200_000_000;

/// A gate at which two pieces look for each other.
#[derive(Drop)]
struct Meeting {
    came: [AtomicU64; 2],
    saw: [AtomicU64; 2],
}

impl Meeting {
    fn new() -> Meeting {
        Meeting {
            came: [AtomicU64::new(0), AtomicU64::new(0)],
            saw: [AtomicU64::new(0), AtomicU64::new(0)],
        }
    }

    /// Whether each piece saw the other.
    fn is_seen(&self) -> bool {
        self.saw[0].load(Ordering::SeqCst) == 1 && self.saw[1].load(Ordering::SeqCst) == 1
    }
}

impl Gate for Meeting {
    fn pass(&self, piece: u32) {
        let (mine, other) = if piece == 0 { (0, 1) } else { (1, 0) };
        self.came[mine].store(1, Ordering::SeqCst);
        for _ in 0..TURNS {
            if self.came[other].load(Ordering::SeqCst) == 1 {
                self.saw[mine].store(1, Ordering::SeqCst);
                return;
            }
        }
    }
}

#[test]
fn two_pieces_see_each_other(rt: HostRuntime) -> Result<(), Fail> {
    for command in ["steps", "convert", "expansion"] {
        let gate = Meeting::new();
        let words = [command, "p", "t", "--workers", "2"];
        let found = run_past(
            &rt,
            &words,
            OF_E.problem,
            OF_E.trace.as_bytes(),
            SOUND,
            &gate,
        )?;
        assert!(rt; found.status == Status::Done && gate.is_seen());
    }
    let gate = Meeting::new();
    let words = ["generate", "5", "--workers", "2"];
    let found = run_past(&rt, &words, "", b"", SOUND, &gate)?;
    assert!(rt; found.status == Status::Done && gate.is_seen());
    Ok(())
}

/// The text with the second part in place of the first one.
fn altered(alloc: Global, text: &str, part: &str, other: &str) -> Result<String, Fail> {
    let (front, rest) = text.split_once(part).ok_or("no such part")?;
    joined(alloc, &[front, other, rest])
}

#[test]
fn the_first_of_two_altered_steps_is_named(rt: HostRuntime) -> Result<(), Fail> {
    let alloc = rt.alloc();
    let files = generate(alloc, 332).map_err(|_| "no memory")?;
    let problem = std::str::from_utf8(files.problem.as_slice()).map_err(|_| "no text")?;
    let trace = std::str::from_utf8(files.trace.as_slice()).map_err(|_| "no text")?;
    let leaf = "(p3(X)=>?[Y]:(r(X,Y)&p4(Y))),file";
    let once = altered(alloc, trace, leaf, "(p3(X)=>?[Y]:(r(X,Y)&p5(Y))),file")?;
    let twice = altered(
        alloc,
        once.as_str(),
        "(d235,plain,p235(",
        "(d235,plain,p236(",
    )?;
    for workers in ["1", "2", "64"] {
        let words = ["convert", "p", "t", "--workers", workers];
        let bytes = twice.as_str().as_bytes();
        let found = run_on(&rt, &words, problem, bytes, SOUND)?;
        assert!(rt; found.is_refusal(Status::Input, "step 5: wrong: altered leaf\n"));
    }
    Ok(())
}

#[test]
fn what_is_made_is_summed(rt: HostRuntime) -> Result<(), Fail> {
    let line =
        "generate 2: 3 hypotheses, 10 steps, 7 instances, 2 eigenvariables, weight 18, typed\n";
    for workers in ["1", "2", "64"] {
        let found = run_on(
            &rt,
            &["generate", "2", "--workers", workers],
            "",
            b"",
            SOUND,
        )?;
        assert!(rt; found.status == Status::Done && found.notes.is_empty());
        assert!(rt; found.out.as_slice() == line.as_bytes());
    }
    Ok(())
}

/// Seven instances, of weight 20: a chain of three pairs, by an image that is used at three terms.
const CHAIN: Row = Row {
    problem: "fof(a1,axiom,![Y]:?[X]:r(Y,X)).
fof(g,conjecture,?[X,Y,Z]:((r(a,X)&r(X,Y))&r(Y,Z))).",
    trace: "fof(a1,axiom,![Y]:?[X]:r(Y,X),file(x,a1)).
fof(g,conjecture,?[X,Y,Z]:((r(a,X)&r(X,Y))&r(Y,Z)),file(x,g)).
fof(s,plain,![Y]:r(Y,f(Y)),inference(r,[status(esa)],[a1])).
fof(n,negated_conjecture,~?[X,Y,Z]:((r(a,X)&r(X,Y))&r(Y,Z)),inference(r,[status(cth)],[g])).
cnf(c1,plain,~r(a,X)|~r(X,Y)|~r(Y,Z),inference(r,[status(thm)],[n])).
cnf(c2,plain,~r(f(a),Y)|~r(Y,Z),inference(r,[status(thm)],[c1,s])).
cnf(c3,plain,~r(f(f(a)),Z),inference(r,[status(thm)],[c2,s])).
cnf(e,plain,$false,inference(r,[status(thm)],[c3,s])).",
    lines: "weight over 19\n",
};

/// Whether the weight is refused by its line where it is over the limit, and not where it is the limit.
pub fn is_weighed<R: Threads + Sync + AllocGlobal>(rt: &R) -> Result<bool, Fail> {
    let trace = CHAIN.trace.as_bytes();
    let words = ["convert", "p", "t", "--limit", "20"];
    let within = run_on(rt, &words, CHAIN.problem, trace, SOUND)?;
    let words = ["convert", "p", "t", "--limit", "19"];
    let over = run_on(rt, &words, CHAIN.problem, trace, SOUND)?;
    Ok(within.status == Status::Done && over.is_refusal(Status::Limit, CHAIN.lines))
}

/// The report on the drinker: an eigenvariable for its Skolem symbol, which the image is used at.
const DRINKER_REPORT: &str = "eigen 0 f($any): ~![X0]:p(X0)
instance 0 step 4 clause 0: p(f($any))
thin 0 g - picks L terms f($any) skolems none
instance 1 step 5 clause 0: p(f($any))
instance 2 step 4 clause 1: ~p(f($any))
thin 2 g - picks R terms $any skolems f($any)
instance 3 step 6 clause 0: ~p(f($any))
instance 4 step 7 clause 0: $false
weight 11
";

#[test]
fn the_drinker_is_reported(rt: HostRuntime) -> Result<(), Fail> {
    let row = &IMAGES[0];
    let trace = row.trace.as_bytes();
    let words = ["expansion", "p", "t", "--limit=11", "--workers", "3"];
    let found = run_on(&rt, &words, row.problem, trace, SOUND)?;
    assert!(rt; found.status == Status::Done && found.notes.is_empty());
    assert!(rt; found.out.as_slice() == DRINKER_REPORT.as_bytes());

    let words = ["expansion", "p", "t", "--limit=10"];
    let found = run_on(&rt, &words, row.problem, trace, SOUND)?;
    assert!(rt; found.is_refusal(Status::Limit, "weight over 10\n"));
    let wrong = &IMAGES[1];
    let words = ["expansion", "p", "t"];
    let found = run_on(&rt, &words, wrong.problem, wrong.trace.as_bytes(), SOUND)?;
    assert!(rt; found.is_refusal(Status::Input, "step 2: wrong: not a Skolem image\n"));
    Ok(())
}

#[test]
fn derived_steps_are_problems(rt: HostRuntime) -> Result<(), Fail> {
    let problem = "cnf(a1,axiom,p).\ncnf(a2,axiom,~p).\n";
    let trace = "cnf(a1,axiom,p,file(x,a1)).
cnf(a2,axiom,~p,file(x,a2)).
cnf(c,plain,$false,inference(r,[status(thm)],[a1,a2])).
";
    let text = "% step 3 c\nfof(a1,axiom,p).\nfof(a2,axiom,~p).\nfof(c,conjecture,$false).\n";
    let found = run_on(
        &rt,
        &["extract", "p", "t"],
        problem,
        trace.as_bytes(),
        SOUND,
    )?;
    assert!(rt; found.status == Status::Done && found.notes.is_empty());
    assert!(rt; found.out.as_slice() == text.as_bytes());
    Ok(())
}
