//! Why nothing, or not all, was written, and the status and the line that say so.
ghost use Rattle.std.specs.Prelude.{◌≡◌, ◌++◌, IfOk, IfSome, IfNone, string_bytes, codes, decimal};
ghost use Rattle.dk_cli.specs.Syntaxes.{syntax_word};
ghost use Rattle.dk_cli.specs.Refusals.{step_status, status_of, line_of, file_word, HasNumber};

use crate::lines::{counted_line, item_fault_line, numbered_line, step_fault_line};
use crate::syntax::Syntax;
use crate::type_lines::type_fault_line;
use dk_syntax::{Name, NoMemory};
use itoa::Buffer;
use lp_kernel::Want;
use lp_term::{Ident, Lp};
use std::alloc::{AllocError, Global};
use step_check::{Limit, Reason};
use tptp_text::OutsideKind;
use tstp_trace::Unsupported;

/// How the program ends.
#[repr(u8)]
#[derive(Debug, Clone, Copy, PartialEq, Eq)]
pub enum Status {
    Done = 0,
    Words = 1,
    Text = 2,
    Input = 3,
    Limit = 4,
    ReadFault = 5,
    WriteFault = 6,
    Memory = 7,
    IllTyped = 8,
}

/// Which file.
#[derive(Debug, Clone, Copy)]
pub enum File {
    Problem,
    Trace,
    Development,
}

/// What is at fault in an item of the problem.
#[derive(Debug, Drop)]
pub enum ItemFault {
    Outside(OutsideKind),
    BadRole,
    FreeVariable(Name),
    DuplicateName,
    SecondConjecture,
}

/// What is at fault in a step of the trace.
#[derive(Debug, Drop)]
pub enum StepFault {
    Outside(OutsideKind),
    DuplicateName,
    Unsupported(Unsupported),
    MissingParent(Name),
    Cycle,
    Wrong(Reason),
    Over(Limit),
}

/// What is at fault in a development: `lp_kernel` says which is the first fault. Commands are counted from 1,
/// nodes from 0.
#[derive(Drop)]
pub enum TypeFault {
    BadPrelude {
        command: u32,
    },
    BadSymbol {
        command: u32,
    },
    BadGoal {
        command: u32,
    },
    UnknownName {
        node: u64,
        name: Ident,
    },
    OutOfFragment {
        node: u64,
    },
    /// The types stand in a place of that level.
    IllTyped {
        node: u64,
        want: Want,
        found: Lp,
        level: u32,
    },
}

/// The refusals, in the order in which they are looked for.
#[derive(Drop)]
pub enum Refusal {
    /// The words ask for no command.
    Words,
    /// The file is absent, or reading it failed.
    ReadFault(File),
    /// The file has more bytes than the limit.
    TooLong(File),
    /// No item begins at the byte, which is counted from 0.
    NotTptp { file: File, at: u64 },
    /// The item or the command that begins at the byte is nested too deep.
    TooDeep { file: File, at: u64 },
    /// The file has more items than the limit.
    TooManyItems(File),
    /// No command of a development begins at the byte, which is counted from 0.
    NotDevelopment { syntax: Syntax, at: u64 },
    /// The development is read, and not typed.
    NotTyped(TypeFault),
    /// The first item at fault of the problem, counted from 1.
    Item { item: u32, fault: ItemFault },
    /// The first step at fault, counted from 1.
    Step { step: u32, fault: StepFault },
    /// No step that may be the root has the formula `$false`.
    NoRefutation,
    /// The instances that the root needs weigh more than the limit.
    OverWeight(u64),
    /// The first instance whose tree weight is above 1,000,000 is of that step.
    OverWide { step: u32 },
    /// Writing failed.
    WriteFault,
    /// There was no memory.
    Memory,
}

impl File {
    pub fn word(self) -> &'static str
        ensures { result.now ≡ file_word self }
    {
        match self {
            File::Problem => "problem",
            File::Trace => "trace",
            File::Development => "file",
        }
    }
}

impl StepFault {
    fn status(&self) -> Status
        ensures { result ≡ step_status self.now }
    {
        match self {
            StepFault::Over(_) => Status::Limit,
            _ => Status::Input,
        }
    }
}

impl Refusal {
    pub fn status(&self) -> Status
        ensures { result ≡ status_of self.now }
    {
        match self {
            Refusal::Words => Status::Words,
            Refusal::ReadFault(_) => Status::ReadFault,
            Refusal::NotTptp { .. } | Refusal::NotDevelopment { .. } => Status::Text,
            Refusal::TooLong(_)
            | Refusal::TooDeep { .. }
            | Refusal::TooManyItems(_)
            | Refusal::OverWeight(_)
            | Refusal::OverWide { .. } => Status::Limit,
            Refusal::Item { .. } | Refusal::NoRefutation => Status::Input,
            Refusal::Step { fault, .. } => fault.status(),
            Refusal::NotTyped(_) => Status::IllTyped,
            Refusal::WriteFault => Status::WriteFault,
            Refusal::Memory => Status::Memory,
        }
    }

    /// The line of a refusal that has no number. It takes no memory.
    pub fn fixed_line(&self) -> Option<&'static str>
        ensures line { IfSome result (λ line. line.now ≡ line_of self.now) }
        ensures none { IfNone result (HasNumber self.now) }
    {
        match self {
            Refusal::Words => Some("words: see --help"),
            Refusal::ReadFault(File::Problem) => Some("read fault: problem"),
            Refusal::ReadFault(File::Trace) => Some("read fault: trace"),
            Refusal::ReadFault(File::Development) => Some("read fault: file"),
            Refusal::TooLong(File::Problem) => Some("too long: problem"),
            Refusal::TooLong(File::Trace) => Some("too long: trace"),
            Refusal::TooLong(File::Development) => Some("too long: file"),
            Refusal::TooManyItems(File::Problem) => Some("too many items: problem"),
            Refusal::TooManyItems(File::Trace) => Some("too many items: trace"),
            Refusal::TooManyItems(File::Development) => Some("too many items: file"),
            Refusal::NoRefutation => Some("no refutation"),
            Refusal::WriteFault => Some("write fault"),
            Refusal::Memory => Some("out of memory"),
            Refusal::NotTptp { .. }
            | Refusal::TooDeep { .. }
            | Refusal::NotDevelopment { .. }
            | Refusal::NotTyped(_)
            | Refusal::Item { .. }
            | Refusal::Step { .. }
            | Refusal::OverWeight(_)
            | Refusal::OverWide { .. } => None,
        }
    }

    /// The line of a refusal that has a number: those without one have a fixed line.
    pub fn numbered_line(&self, alloc: Global) -> Result<String, AllocError>
        requires { HasNumber self.now }
        ensures { IfOk result (λ line. string_bytes line ≡ line_of self.now) }
    {
        match self {
            Refusal::NotTptp { file, at } => place_line(alloc, "not TPTP: ", *file, *at),
            Refusal::TooDeep { file, at } => place_line(alloc, "too deep: ", *file, *at),
            Refusal::NotDevelopment { syntax, at } => unread_line(alloc, *syntax, *at),
            Refusal::NotTyped(fault) => type_fault_line(alloc, fault),
            Refusal::Item { item, fault } => {
                let why = item_fault_line(alloc, fault)?;
                numbered_line(alloc, "problem item ", *item, why.as_str())
            }
            Refusal::Step { step, fault } => {
                let why = step_fault_line(alloc, fault)?;
                numbered_line(alloc, "step ", *step, why.as_str())
            }
            Refusal::OverWeight(limit) => counted_line(alloc, "weight over ", *limit),
            Refusal::OverWide { step } => {
                counted_line(alloc, "instance over 1000000: step ", u64::from(*step))
            }
            _ => Err(AllocError),
        }
    }
}

/// A line that ends in the word for a file.
fn file_line(alloc: Global, front: &str, file: File) -> Result<String, AllocError>
    ensures { IfOk result (λ line. string_bytes line ≡ front.now ++ file_word file) }
{
    let mut line = String::from_str(alloc, front)?;
    line.push_str(file.word())?;
    Ok(line)
}

/// A line that ends in a place of a file.
fn place_line(alloc: Global, front: &str, file: File, at: u64) -> Result<String, AllocError>
    ensures { IfOk result (λ line. string_bytes line ≡ front.now ++ file_word file
        ++ codes " at byte " ++ decimal at) }
{
    let mut number = Buffer::new();
    let mut line = file_line(alloc, front, file)?;
    line.push_str(" at byte ")?;
    line.push_str(number.format(at))?;
    Ok(line)
}

/// The line of a file that is no development.
fn unread_line(alloc: Global, syntax: Syntax, at: u64) -> Result<String, AllocError>
    ensures { IfOk result (λ line. string_bytes line ≡ codes "not " ++ syntax_word syntax
        ++ codes ": file at byte " ++ decimal at) }
{
    let mut number = Buffer::new();
    let mut line = String::from_str(alloc, "not ")?;
    line.push_str(syntax.word())?;
    line.push_str(": file at byte ")?;
    line.push_str(number.format(at))?;
    Ok(line)
}

impl From<NoMemory> for Refusal {
    ghost use Rattle.std.specs.Prelude.{◌≡◌};
    ghost use Rattle.dk_cli.specs.declared.refusal.Refusal.TheVariants.{Memory};

    ghost from_gives = { λ _ refusal. refusal ≡ Memory };

    fn from(_: NoMemory) -> Refusal {
        Refusal::Memory
    }
}
