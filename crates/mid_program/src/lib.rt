//! Programs in mid code: their types and their meaning, and which program a script stands for.
//!
//! Code whose names and operations are written anew does the same.
#![tactic(auto)]

mod code;
mod mid;
mod program;
pub mod rewriting_laws;
mod step;

pub use code::{ArrayName, Code, Operand, Slot};
pub use mid::{Arithmetic, Operation};
pub use program::{Declared, Kind, Mid, Routine};
pub use step::Step;
