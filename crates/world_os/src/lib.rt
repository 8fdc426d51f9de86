//! A world over real files, a standard input and a standard output.
//!
//! A world in which a script opens only the names that a fence lets through.
#![tactic(auto)]

mod fence;
mod fenced;
mod fenced_names;
mod limits;
mod meter;
mod names;
mod world;

pub use fence::{Fence, FileFence, NoFiles};
pub use fenced::FencedWorld;
pub use fenced_names::Names;
pub use limits::LimitedWorld;
pub use names::{names_errors, names_input, names_output};
pub use world::{OsWorld, OwnStreams};
