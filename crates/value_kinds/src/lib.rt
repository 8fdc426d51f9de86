//! Which names of a script hold numbers alone, and the code in which they are unboxed.
//!
//! Scalars into which a script stores numbers alone are unboxed, and so are globals into which it stores copies of these besides.
#![tactic(auto)]

mod code;
mod form;
mod inference;
mod kept;
pub mod lane_laws;
mod lenders;
mod marks;
mod names;
pub mod number_names;
mod program;
mod scan;
mod step;
mod step_marks;
mod walk;

pub use inference::infer;
pub use names::Lanes;
pub use program::apply;
