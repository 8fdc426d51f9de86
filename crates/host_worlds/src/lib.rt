//! The imports that read and write: what comes in, and what is put out.
//!
//! The imports that read: the records of the main input and of files, and what was read for a variable.
//!
//! The imports that write, and that close and flush files: each takes words, and gives an answer, a fault or a trap.
#![tactic(auto)]

mod argv;
mod closing;
mod files;
mod flushing;
mod input;
mod input_calls;
mod main_record;
mod outlets;
mod output_line;
mod printing;
mod record;
mod shown;
mod taken;
mod turn;

pub use closing::close;
pub use flushing::flush;
pub use input::{Input, MainRead, ReadInto};
pub use input_calls::{begin_end, line, next_file, read_file, read_main};
pub use printing::{print, printf};
