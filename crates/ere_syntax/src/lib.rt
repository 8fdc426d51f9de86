//! Extended regular expressions (POSIX XBD 9.4): from their text to their tree, and what a tree matches.
#![tactic(auto)]

mod bracket;
mod check;
mod class;
mod ere_laws;
mod escape;
mod fault;
mod frame;
mod interval;
mod read;
mod sign;
mod size;
mod step;
mod token;
mod tree;

pub use ere_laws::{matches_inside, one_tree};
pub use fault::EreFault;
pub use read::read_ere;
pub use tree::{ByteSet, Ere, Times};
