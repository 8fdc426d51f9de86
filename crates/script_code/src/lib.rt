//! The code of a script: from its bytes to mid code in which constant parts are computed and names of numbers are unboxed.
//!
//! The code of every script that fits is well sorted.
#![tactic(auto)]

mod code;
mod expressions;
pub mod translation_laws;
mod tree;

pub use code::{MAX_SCRIPT_BYTES, code_of};
pub use run_report::CompileFault;
