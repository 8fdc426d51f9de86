//! The machine that runs modules (Core 1.0, section 4), one reduction a step.
//!
//! The loop that runs operations whose operands stand in places.
//!
//! Frames of calls over one list of words.
//!
//! The state of a machine, and the steps that need no module.
#![tactic(auto)]

mod accesses;
mod act;
mod branches;
mod frames;
mod leaps;
mod lines;
mod link;
mod machine;
pub mod machine_laws;
mod places;
mod program;
mod run;
mod sites;
mod state;
mod statements;
mod steps;
mod zeros;

pub use machine::Machine;
pub use places::Place;
pub use wasm_model::{End, HostAnswer, HostCalls, LinkFault, MachineEnd, RunEnd};
