//! The code that a module is to have for mid code, and a machine that runs it on values in place of handles: definitions, and the law that the machine shows
//! what programs do.
#![tactic(auto)]

pub mod code_laws;
