//! The validator: which modules the typing rules of WebAssembly 1.0 allow (Core 1.0, section 3).
#![tactic(auto)]

mod causes;
mod checker;
mod level;
mod stack;
mod valid;
pub mod validation_laws;

pub use valid::{InvalidFault, ValidModule, validate};
