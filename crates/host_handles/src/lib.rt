//! The values that the host keeps for a module, each under a handle, and a table of things by number for the crates that number what they keep.
#![tactic(auto)]

mod handles;
mod numbered;

pub use handles::Handles;
pub use numbered::Numbered;

/// How many slots are filled at most, each under a number below 2^31: the greatest of these is never given, so that one is always free.
pub const MAX_SLOTS: usize = (1 << 31) - 1;
