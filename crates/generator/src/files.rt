//! The two files.
ghost use Rattle.std.specs.Prelude.{◌≡◌, IfOk};
ghost use Rattle.generator.specs.Files.{problem_text, trace_text};

use crate::bytes::put;
use crate::lines::{put_conjecture, put_end};
use crate::rows::{put_axioms, put_leaves, put_skolems, put_steps};
use dk_syntax::NoMemory;
use std::alloc::Global;

/// A problem and a refutation of it, in TPTP syntax.
#[derive(Drop)]
pub struct Files {
    pub problem: Vec<u8>,
    pub trace: Vec<u8>,
}

fn problem(alloc: Global, n: u32) -> Result<Vec<u8>, NoMemory>
    ensures { IfOk result (λ text. text.items ≡ problem_text n) }
{
    let mut out = Vec::new(alloc);
    put(&mut out, b"fof(base,axiom,p0(c)).\n")?;
    put_axioms(&mut out, n)?;
    put_conjecture(&mut out, n)?;
    Ok(out)
}

fn trace(alloc: Global, n: u32) -> Result<Vec<u8>, NoMemory>
    ensures { IfOk result (λ text. text.items ≡ trace_text n) }
{
    let mut out = Vec::new(alloc);
    put(&mut out, b"fof(base,axiom,p0(c),file(g,base)).\n")?;
    put_leaves(&mut out, n)?;
    put_skolems(&mut out, n)?;
    put_steps(alloc, &mut out, n)?;
    put_end(&mut out, n)?;
    Ok(out)
}

/// The problem and the trace of the family's member of that number. Names are without quotes, and
/// both texts are ASCII. Time is linear in the texts; the trace is quadratic in the number.
pub fn generate(alloc: Global, n: u32) -> Result<Files, NoMemory>
    ensures problem { IfOk result (λ files. files.problem.items ≡ problem_text n) }
    ensures trace { IfOk result (λ files. files.trace.items ≡ trace_text n) }
{
    let problem = problem(alloc, n)?;
    let trace = trace(alloc, n)?;
    Ok(Files { problem, trace })
}
