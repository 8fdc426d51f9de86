//! Values of a script: uninitialised, numbers, texts and numeric strings; their number, text and truth; faults; arithmetic and comparison.
#![tactic(auto)]

mod bytes;
mod comparison;
mod fault;
mod operators;
mod value;

pub use bytes::Bytes;
pub use comparison::{CompareOp, compare};
pub use fault::{Fault, Stop};
pub use operators::{add, div, int_div, mul, pow, rem, sub};
pub use value::{Value, to_number, to_text, truncated, truth};
