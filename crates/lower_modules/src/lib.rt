//! The module around emitted code, as it is defined.
//!
//! How many locals code needs.
#![tactic(auto)]

mod called_imports;
mod code;
mod counts;
mod function;
mod lengths;
mod module;
mod needs;
mod sections;
mod steps;
mod types;

pub use function::Function;
pub use lengths::least_in;
pub use module::module_for;
pub use needs::{Needs, local_types, main_needs, routine_needs};
pub use steps::steps_labels;
