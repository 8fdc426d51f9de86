//! The host of modules that awkwasm compiles: every import of the modules `awk1` and `awk2`, over a world.
#![tactic(auto)]

mod answers;
pub mod fault_laws;
mod host;
mod inputs;
mod looks;
mod module_calls;
mod names;
mod on_arrays;
mod on_texts;
mod on_values;
mod on_world;
mod outputs;
mod start;
mod watched;

pub use host::Host;
pub use host_imports::{IMPORTS, Import, VariadicImport, type_of};
pub use host_tables::Job;
pub use host_texts::NamedText;
pub use sem_primitives::Special;
pub use watched::Watched;
