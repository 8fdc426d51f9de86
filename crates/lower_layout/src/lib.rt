//! Where the things of a script stand in its module.
#![tactic(auto)]

mod fault;
mod places;
mod script;
mod spans;

pub use fault::LowerFault;
pub use places::Layout;
pub use script::layout;
pub use spans::Span;
