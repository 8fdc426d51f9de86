//! Modules from their bytes (Core 1.0, chapter 5).
#![tactic(auto)]

mod basics;
mod body;
pub mod decoding_laws;
mod entries;
mod entry_kinds;
mod fault;
mod reader;
mod sections;

pub use fault::DecodeFault;
pub use sections::decode;
