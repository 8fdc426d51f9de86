//! The bytes of modules (Core 1.0, chapter 5).
//!
//! Which modules have bytes, as laws.
//!
//! Names for the functions of a module, in the custom section that engines and tools read.
#![tactic(auto)]

mod basics;
mod body;
mod entries;
mod entry_kinds;
mod fault;
pub mod limits;
pub mod name_laws;
mod names;
mod output;
mod sections;

pub use fault::WriteFault;
pub use names::with_names;
pub use sections::write;
