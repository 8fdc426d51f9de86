//! Runs of modules over the host, with where their scripts were and how often these passed their program points.
#![tactic(auto)]

mod argument;
mod compiled_counts;
mod compiled_where;
mod end;
mod module;
mod module_sights;
mod module_where;
mod noted_world;
mod place_laws;
mod stepping;
mod whereabouts;

pub use compiled_counts::count_compiled;
pub use compiled_where::run_compiled_where;
pub use module::run_module;
pub use module_sights::ModuleWhereabouts;
pub use module_where::run_module_where;
pub use place_laws::{
    counted_places_are_passed, counts_are_of_spots, lines_are_of_spots, told_places_are_at_work,
};
