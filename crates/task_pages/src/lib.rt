//! What a task of the command line needs and prints, but for its compilation and its run: its invocation, the imports of a module and what follows from them, what is
//! told of a script's findings, and what is told where a task is not done.
#![tactic(auto)]

mod checking;
mod checks;
mod count_lines;
mod environment;
mod explanations;
mod files;
pub mod import_laws;
mod import_page;
mod imports;
mod job;
mod output;
mod powers;
mod seed;
mod standard;
mod task_error;
mod telling;
mod unlined;

pub use checking::{with_error, write_page};
pub use count_lines::{listing_of, stats_of};
pub use environment::{entries_of, environment_of};
pub use explanations::explain_to;
pub use files::{MODULE_LIMIT, file_of};
pub use host_texts::NamedText;
pub use import_page::imports_task;
pub use imports::listed;
pub use job::{job_on, named_text};
pub use output::{tell, write_module, write_text};
pub use powers::{Reads, Writes, reads_of, writes_of};
pub use seed::random_state;
pub use standard::take_closed;
pub use task_error::{TaskError, undone_status, undone_text};
pub use telling::{Lines, tell_lines, tell_task, where_lines};
pub use unlined::{is_told, unlined_text};
