//! Constant parts of mid code, computed before the script runs.
#![tactic(auto)]

mod code;
mod program;
mod step;
mod value;

pub use program::fold;
