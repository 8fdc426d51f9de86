//! The outside of a script: names, streams, and what each call does to them; a world in memory.
#![tactic(auto)]

mod faulty;
mod file;
mod memory;
mod names;
mod octets;
mod opening;
pub mod output_laws;
mod streams;
mod world;

pub use faulty::FaultyWorld;
pub use file::MemFile;
pub use memory::MemWorld;
pub use octets::Octets;
pub use world::{Ending, World, WorldFault};
