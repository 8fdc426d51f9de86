//! Compiles scripts, and runs scripts and modules in the sandbox's host.
#![tactic(auto)]

mod compiled_laws;
mod counting;
mod execution_laws;
mod script;
mod script_where;

pub use awk_parse::{Feature, ParseFault};
pub use awk_resolve::{Name, ResolveFault};
pub use awk_tokens::{LeftOut, TokenFault};
pub use awk_values::{Bytes, Fault};
pub use compiled_laws::{compiled_scripts_are_sound, counted_places_are_of_spots};
pub use counting::count_script;
pub use ere_syntax::EreFault;
pub use execution_laws::{counts_are_executions, steps_begin_executions};
pub use host_calls::{Job, NamedText};
pub use module_decoder::DecodeFault;
pub use module_validator::InvalidFault;
pub use run_modules::{
    ModuleWhereabouts, counted_places_are_passed, counts_are_of_spots, lines_are_of_spots,
    run_module, run_module_where, told_places_are_at_work,
};
pub use run_report::{CallSite, PlaceCount, Refusal, RunCounts, RunEnd, Subject, Whereabouts};
pub use script::run_script;
pub use script_compiler::{CompileFault, compile};
pub use script_where::run_script_where;
pub use wasm_model::LinkFault;
pub use wasm_store::TrapKind;
pub use world_core::{MemWorld, World, WorldFault};
