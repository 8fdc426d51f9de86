//! Lists and boxes where memory may run out: what finds no room is let go here, for every type at once.
#![tactic(auto)]

mod fallible;
mod latched_vec;

pub use fallible::{boxed, pair, push, set, shared, single, triple};
pub use latched_vec::LatchedVec;
