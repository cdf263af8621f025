//! The program: reads a problem and a refutation of it, and writes a development whose `goal` has the
//! problem's type (`convert`, and `dedukti` in the other syntax), the verdict on each step (`steps`), each
//! derived step as a problem (`extract`), or the report on what the development is made from (`expansion`);
//! or reads a development and says whether it is typed (`check`, `dkcheck`); or makes both files itself and
//! tells how they went through (`generate`). `--help` alone writes the usage text.
//!
//! `run` does all of it, over words, inputs, a sink and notes that its caller gives; `main` gives the
//! real ones. What it answers is `IsOutcome` (specs/Outcome), how it is delivered `Delivers`
//! (specs/Delivery), what a caller may rely on stands in specs/Headline and specs/Proof. Time may grow
//! with the square of the number of steps, memory grows with the text.
#![tactic(auto)]

mod answer;
mod checking;
mod command;
mod conversion;
mod derivation;
mod expanding;
mod extraction;
mod generation;
mod judging;
mod lines;
mod output;
mod planning;
mod reading;
mod refusal;
mod run;
mod syntax;
mod type_lines;

use dk_io::{ErrNotes, FileInputs, NoGate, OutSink};
pub use refusal::{File, ItemFault, Refusal, Status, StepFault, TypeFault};
use run::refuse;
pub use run::run;
use std::alloc::AllocError;
use std::env;
use std::env::Env;
use std::io::ErrorKind;
use std::process::ExitCode;
pub use syntax::Syntax;

/// The words of the command line, without the program's name.
fn words<R: Env + AllocGlobal>(rt: &R) -> Result<Vec<String>, Refusal> {
    match env::args(rt) {
        Ok(args) => args
            .skip(1)
            .collect(rt.alloc())
            .map_err(|_: AllocError| Refusal::Memory),
        Err(error) if error.kind() == ErrorKind::OutOfMemory => Err(Refusal::Memory),
        Err(_) => Err(Refusal::Words),
    }
}

fn main(rt: HostRuntime) -> ExitCode {
    let mut notes = ErrNotes::new(&rt);
    let status = match words(&rt) {
        Ok(words) => {
            let mut inputs = FileInputs::new(&rt);
            let mut out = OutSink::new(&rt);
            run(
                &rt,
                rt.alloc(),
                &words,
                &mut inputs,
                &mut out,
                &mut notes,
                &NoGate,
            )
        }
        Err(refusal) => refuse(rt.alloc(), &refusal, &mut notes),
    };
    ExitCode::from(status as u8)
}

#[cfg(test)]
mod outside_rows;
#[cfg(test)]
mod step_rows;
#[cfg(test)]
mod syntax_rows;
#[cfg(test)]
mod tests;
