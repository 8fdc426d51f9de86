//! What is told of a run's end and of a file: the exit status, and a line for the standard error.
//!
//! How runs end, and why something is not run or not compiled.
#![tactic(auto)]

mod compile_fault;
mod counts;
mod end;
mod escapes;
mod explained;
mod faults;
mod line;
mod report;
mod subject;
mod topic;
mod whereabouts;

pub use compile_fault::CompileFault;
pub use counts::{PlaceCount, RunCounts, count_text, stats_text};
pub use end::{Refusal, RunEnd};
pub use escapes::shown;
pub use explained::{Explanation, explain};
pub use report::{FileFault, fault_text, file_fault_text, no_memory_text, status_of, tell_end};
pub use subject::Subject;
pub use topic::{
    EndTopic, ModuleTopic, ScriptTopic, StatusTopic, TOPICS, Topic, topic_named, topic_of,
};
pub use whereabouts::{CallSite, Whereabouts, where_text};
