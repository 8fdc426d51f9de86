//! A task of the command line: the module of its script, what it may open, and its run.
//!
//! What needs neither is in task_pages, and passed on.
#![tactic(auto)]

mod compiling;
mod counting;
mod fences;
mod lined;
mod module_sight;
mod sandbox;
mod where_text;

pub use awk_run::ModuleWhereabouts;
pub use compiling::{SCRIPT_LIMIT, compile_file, compiled};
pub use counting::script_counted;
pub use fences::fence_of;
pub use host_texts::NamedText;
pub use lined::compiled_with_lines;
pub use module_sight::module_seen;
pub use sandbox::{Surroundings, module_end, script_end, script_seen};
pub use task_pages::{
    Reads, TaskError, Writes, import_laws, is_told, job_on, listed, named_text, reads_of,
    undone_status, undone_text, writes_of,
};
pub use where_text::module_where_text;
