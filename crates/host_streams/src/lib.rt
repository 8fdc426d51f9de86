//! What a script reads and writes: records of the files that are open, texts to the files that are open (POSIX.1-2017 awk, "Input Functions and
//! Statements", "Output Statements").
#![tactic(auto)]

mod closing;
mod look;
mod main_input;
mod output;
mod put;
mod reader;
mod streams;

pub use main_input::{MainInput, MainNext, Operands};
pub use output::Target;
pub use reader::FileNext;
pub use streams::Streams;
