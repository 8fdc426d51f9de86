//! The arrays that the host keeps for a module, each under a number.
#![tactic(auto)]

mod array;
mod key;
mod listing;
mod near;
mod stored;
mod table;

pub use table::Arrays;
