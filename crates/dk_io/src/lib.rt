//! The outside of the program: files by name, a sink of bytes, notes, and a gate for workers.
//!
//! The first three have as meanings what the object tells of its bytes, and a count of faults that
//! never falls, so that a contract can say that an error comes only where the count rose. The
//! objects in memory tell all of their bytes, and their listed calls fail. The adapters over the
//! runtime tell none: they are the trusted edge.
//!
//! `read_all` takes memory and time in proportion to the file, `write_all` no memory. Of the other
//! calls only the `new` of `MemSink` and of `MemNotes` take memory.
#![tactic(auto)]

mod calls;
mod err_notes;
mod failed;
mod file_inputs;
mod gate;
mod inputs;
mod mem_inputs;
mod mem_notes;
mod mem_sink;
mod notes;
mod out_sink;
mod sink;
mod whole;

pub use err_notes::ErrNotes;
pub use failed::Failed;
pub use file_inputs::FileInputs;
pub use gate::{Gate, NoGate};
pub use inputs::Inputs;
pub use mem_inputs::MemInputs;
pub use mem_notes::MemNotes;
pub use mem_sink::MemSink;
pub use notes::Notes;
pub use out_sink::OutSink;
pub use sink::Sink;
pub use whole::{MAX_BYTES, ReadAll, read_all, write_all};
