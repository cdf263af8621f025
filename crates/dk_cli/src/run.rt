//! The top call: an answer, written or told.
ghost use Rattle.std.specs.Prelude.{◌≡◌, ℕ, List, [], ◌<◌, ◌⊎◌, None, Some, IfSome};
ghost use Rattle.dk_io.specs.Causes.{Rose};
ghost use Rattle.dk_cli.specs.Checking.{TypesAccepted, WritesTyped};
ghost use Rattle.words.specs.Commands.{Names, Text};
ghost use Rattle.words.specs.Reading.{asks_command};
ghost use Rattle.words.specs.Views.{texts};
ghost use Rattle.dk_cli.specs.Commands.{AskAlike, asked_of, check, convert, expansion, extract, files_asked, generate, help, steps};
ghost use Rattle.dk_cli.specs.Delivery.{Delivers, IsRefused, change};
ghost use Rattle.dk_cli.specs.Expansion.{WritesReport};
ghost use Rattle.dk_cli.specs.Extraction.{WritesProblems};
ghost use Rattle.dk_cli.specs.Generation.{WritesSummary};
ghost use Rattle.dk_cli.specs.Headline.{CanCome, CarriesOutEach, CarriesOutMade, DoesOutcome, IsRun, Lacks, NotesByStatus, RefusesWords, WritesByStatus, WritesUsage};
ghost use Rattle.dk_cli.specs.Introduced.{WritesNoIntroduced};
ghost use Rattle.dk_cli.specs.Proof.{WritesProof};
ghost use Rattle.dk_cli.specs.Refusals.{HasNumber};
ghost use Rattle.dk_cli.specs.StepReport.{WritesLines};
ghost use Rattle.dk_cli.specs.Views.{output_view};
ghost use Rattle.dk_cli.specs.declared.syntax.Syntax.{Syntax};

use crate::answer::answer;
use crate::output::Output;
use crate::{Refusal, Status};
use dk_io::{Gate, Inputs, Notes, Sink, write_all};
use std::alloc::Global;
use std::thread::Threads;

/// Sends the line of a refusal, or that memory ran out.
pub fn refuse<N: Notes>(alloc: Global, refusal: &Refusal, notes: &mut N) -> Status
    ensures { (IsRefused refusal.now result
        (change (N.kept notes.old) (N.kept notes.new) (N.faults notes.old) (N.faults notes.new)))
        ⊎ (HasNumber refusal.now × IsRefused Refusal.Memory result
        (change (N.kept notes.old) (N.kept notes.new) (N.faults notes.old) (N.faults notes.new))) }
{
    if let Some(line) = refusal.fixed_line() {
        let _ = notes.line(line);
        return refusal.status();
    }
    match refusal.numbered_line(alloc) {
        Ok(line) => {
            let _ = notes.line(line.as_str());
            refusal.status()
        }
        Err(_) => {
            let _ = notes.line("out of memory");
            Status::Memory
        }
    }
}

// Writes a text, or sends the line of a refusal.
fn deliver<K: Sink, N: Notes>(
    alloc: Global,
    answer: Result<Output, Refusal>,
    out: &mut K,
    notes: &mut N,
) -> Status
    ensures { Delivers (output_view answer) result
        (change (K.kept out.old) (K.kept out.new) (K.faults out.old) (K.faults out.new))
        (change (N.kept notes.old) (N.kept notes.new) (N.faults notes.old) (N.faults notes.new)) }
{
    match answer {
        Ok(output) => match write_all(out, output.bytes()) {
            Ok(()) => Status::Done,
            Err(_) => {
                let _ = notes.line("write fault");
                Status::WriteFault
            }
        },
        Err(refusal) => refuse(alloc, &refusal, notes),
    }
}

fn run_answered<R: Threads + Sync, I: Inputs, K: Sink, N: Notes, G: Gate>(
    rt: &R,
    alloc: Global,
    words: &[String],
    inputs: &mut I,
    out: &mut K,
    notes: &mut N,
    gate: &G,
) -> Status
    ensures same { I.told inputs.new ≡ I.told inputs.old }
    ensures left { files_asked (asked_of (texts words.now)) ≡ []
        → (I.left inputs.new ≡ I.left inputs.old) × (I.faults inputs.new ≡ I.faults inputs.old) }
    ensures run { IsRun (I.told inputs.old) (asks_command (texts words.now))
        (asked_of (texts words.now)) (I.faults inputs.old) (I.faults inputs.new) result
        (change (K.kept out.old) (K.kept out.new) (K.faults out.old) (K.faults out.new))
        (change (N.kept notes.old) (N.kept notes.new) (N.faults notes.old) (N.faults notes.new)) }
{
    let found = answer(rt, alloc, words, inputs, gate);
    deliver(alloc, found, out, notes)
}

/// Does all that the program does: reads the files that the words name, writes the text of the command to
/// `out` or one line to `notes`, and answers the status. The words are those of the command line
/// without the program's name. The steps are judged in as many pieces as there are workers, before each
/// of which the gate is passed once; what is done depends on neither.
pub fn run<R: Threads + Sync, I: Inputs, K: Sink, N: Notes, G: Gate>(
    rt: &R,
    alloc: Global,
    words: &[String],
    inputs: &mut I,
    out: &mut K,
    notes: &mut N,
    gate: &G,
) -> Status
    ensures told { I.told inputs.new ≡ I.told inputs.old }
    ensures run { IsRun (I.told inputs.old) (asks_command (texts words.now))
        (asked_of (texts words.now)) (I.faults inputs.old) (I.faults inputs.new) result
        (change (K.kept out.old) (K.kept out.new) (K.faults out.old) (K.faults out.new))
        (change (N.kept notes.old) (N.kept notes.new) (N.faults notes.old) (N.faults notes.new)) }

    // What can come, and what each status says of the sink and of the notes.
    ensures statuses { IfSome (asked_of (texts words.now)) (λ command. CanCome command result) }
    ensures sink { WritesByStatus result (change (K.kept out.old) (K.kept out.new)
        (K.faults out.old) (K.faults out.new)) }
    ensures line { NotesByStatus result (change (N.kept notes.old) (N.kept notes.new)
        (N.faults notes.old) (N.faults notes.new)) }

    // Words that ask for nothing are refused as such, and no others are. Want of memory may come before
    // only where the first word is a command's.
    ensures words { result ≡ Status.Words → asked_of (texts words.now) ≡ None }
    ensures refused { asked_of (texts words.now) ≡ None
        → RefusesWords (asks_command (texts words.now)) result }

    // Where the words ask for no file, nothing is read.
    ensures words_left { files_asked (asked_of (texts words.now)) ≡ []
        → I.left inputs.new ≡ I.left inputs.old }
    ensures words_count { files_asked (asked_of (texts words.now)) ≡ []
        → I.faults inputs.new ≡ I.faults inputs.old }

    // `--help` alone writes the usage text, and takes no memory.
    ensures help { asked_of (texts words.now) ≡ Some help → WritesUsage result
        (change (K.kept out.old) (K.kept out.new) (K.faults out.old) (K.faults out.new))
        (change (N.kept notes.old) (N.kept notes.new) (N.faults notes.old) (N.faults notes.new)) }

    // A read fault comes exactly where the inputs' count rose or a file of the command is absent, unless memory ran out.
    ensures read_only { result ≡ Status.ReadFault → Rose (I.faults inputs.old) (I.faults inputs.new)
        ⊎ Lacks (I.told inputs.old) (asked_of (texts words.now)) }
    ensures read_rose { I.faults inputs.old < I.faults inputs.new → result ≡ Status.ReadFault }
    ensures read_lacks { Lacks (I.told inputs.old) (asked_of (texts words.now))
        → (result ≡ Status.ReadFault) ⊎ (result ≡ Status.Memory) }

    // A write fault comes exactly where the sink's count rose.
    ensures write_only { result ≡ Status.WriteFault → Rose (K.faults out.old) (K.faults out.new) }
    ensures write_rose { K.faults out.old < K.faults out.new → result ≡ Status.WriteFault }

    // With status 0 what `convert` or `dedukti` wrote is a proof of the problem, by the typing rules.
    ensures proof { (syntax : Syntax) → (names : Names) → (limit : ℕ)
        → asked_of (texts words.now) ≡ Some (convert syntax names limit)
        → result ≡ Status.Done → WritesProof syntax (I.told inputs.old) names
        (change (K.kept out.old) (K.kept out.new) (K.faults out.old) (K.faults out.new)) }

    // No symbol that a step introduces is in that proof, nor is it declared with it.
    ensures introduced { (syntax : Syntax) → (names : Names) → (limit : ℕ)
        → asked_of (texts words.now) ≡ Some (convert syntax names limit)
        → result ≡ Status.Done → WritesNoIntroduced syntax (I.told inputs.old) names
        (change (K.kept out.old) (K.kept out.new) (K.faults out.old) (K.faults out.new)) }

    // With status 0 what `steps` wrote are the lines of the verdicts on the steps, right or wrong.
    ensures lines { (names : Names) → asked_of (texts words.now) ≡ Some (steps names)
        → result ≡ Status.Done → WritesLines (I.told inputs.old) names
        (change (K.kept out.old) (K.kept out.new) (K.faults out.old) (K.faults out.new)) }

    // With status 0 what `extract` wrote are the derived steps as problems.
    ensures problems { (names : Names) → asked_of (texts words.now) ≡ Some (extract names)
        → result ≡ Status.Done → WritesProblems (I.told inputs.old) names
        (change (K.kept out.old) (K.kept out.new) (K.faults out.old) (K.faults out.new)) }

    // With status 0 what `expansion` wrote is the report on the plan that the proof is made from.
    ensures report { (names : Names) → (limit : ℕ)
        → asked_of (texts words.now) ≡ Some (expansion names limit)
        → result ≡ Status.Done → WritesReport (I.told inputs.old) names limit
        (change (K.kept out.old) (K.kept out.new) (K.faults out.old) (K.faults out.new)) }

    // With status 0 `check` or `dkcheck` wrote `typed` and a newline, and the file is a development that is accepted
    // and typed; of each such file the status is 0.
    ensures typed { (syntax : Syntax) → (name : List ℕ)
        → asked_of (texts words.now) ≡ Some (check syntax name)
        → result ≡ Status.Done → WritesTyped syntax (I.told inputs.old) name
        (change (K.kept out.old) (K.kept out.new) (K.faults out.old) (K.faults out.new)) }
    ensures accepted { (syntax : Syntax) → (name : List ℕ)
        → asked_of (texts words.now) ≡ Some (check syntax name)
        → TypesAccepted syntax (I.told inputs.old) name (I.faults inputs.old) (I.faults inputs.new) result
        (change (K.kept out.old) (K.kept out.new) (K.faults out.old) (K.faults out.new)) }

    // With status 0 what `generate` wrote is the summary of what it made, whose development is accepted and is a proof;
    // whatever the inputs tell, each status, text and line comes exactly where it is what the made files give.
    ensures summary { (number : ℕ) → asked_of (texts words.now) ≡ Some (generate number)
        → result ≡ Status.Done → WritesSummary number
        (change (K.kept out.old) (K.kept out.new) (K.faults out.old) (K.faults out.new)) }
    ensures made { (number : ℕ) → asked_of (texts words.now) ≡ Some (generate number)
        → CarriesOutMade number result
        (change (K.kept out.old) (K.kept out.new) (K.faults out.old) (K.faults out.new))
        (change (N.kept notes.old) (N.kept notes.new) (N.faults notes.old) (N.faults notes.new)) }

    // Each status, text and line comes exactly where it is the outcome's.
    ensures outcome { IfSome (asked_of (texts words.now)) (λ command.
        DoesOutcome (I.told inputs.old) command (I.faults inputs.old) (I.faults inputs.new) result
        (change (K.kept out.old) (K.kept out.new) (K.faults out.old) (K.faults out.new))
        (change (N.kept notes.old) (N.kept notes.new) (N.faults notes.old) (N.faults notes.new))) }
    ensures exactly { IfSome (asked_of (texts words.now)) (λ command.
        CarriesOutEach (I.told inputs.old) command (I.faults inputs.old) (I.faults inputs.new)
        result
        (change (K.kept out.old) (K.kept out.new) (K.faults out.old) (K.faults out.new))
        (change (N.kept notes.old) (N.kept notes.new) (N.faults notes.old) (N.faults notes.new))) }

    // What other words give that differ in the number of workers alone is carried out too: so no such
    // number stands in any text, status or line.
    ensures workers { (other : List Text) → AskAlike (texts words.now) other
        → IfSome (asked_of other) (λ command.
        CarriesOutEach (I.told inputs.old) command (I.faults inputs.old) (I.faults inputs.new)
        result
        (change (K.kept out.old) (K.kept out.new) (K.faults out.old) (K.faults out.new))
        (change (N.kept notes.old) (N.kept notes.new) (N.faults notes.old) (N.faults notes.new))) }
{
    run_answered(rt, alloc, words, inputs, out, notes, gate)
}
