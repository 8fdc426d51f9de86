//! Where the frames of a run stand in its script, how often a run passes the program points there, and where the operands of a call of the host came from.
//!
//! The lines of a module's places, in a custom section behind its bytes.
#![tactic(auto)]

mod code_before;
mod line_counts;
mod module_table;
mod reading;
mod sections;
mod sites;
pub mod table_laws;
mod tally;
mod writing;

pub use code_before::{CodeBefore, Number, Push};
pub use line_counts::lines_of;
pub use module_table::{FunctionLines, line_in, name_in};
pub use reading::table_in;
pub use sites::{sites_of, told_of};
pub use tally::{Tally, greater};
pub use writing::with_lines;
