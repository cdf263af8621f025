//! The words of the command line.
#![tactic(auto)]

mod command;
mod given;
mod help;
mod number;
mod parser;

pub use command::{Words, is_command, read_words};
pub use help::usage;
