//! Scripts to modules, whatever the script: the bytes of a module that does what the script does.
//!
//! The module of every script that is not refused does what the script does, and nothing else.
#![tactic(auto)]

mod compiler;
pub mod module_laws;
pub mod script_laws;

pub use compiler::compile;
pub use script_code::CompileFault;
