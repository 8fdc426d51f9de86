//! Scripts, compiled with the lines of their statements.
#![tactic(auto)]

mod compiling;
pub mod script_laws;
mod table;

pub use compiling::compile_with_lines;
pub use script_places::{FunctionLines, line_in, name_in, table_in, table_laws};
