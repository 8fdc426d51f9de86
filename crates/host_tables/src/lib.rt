//! The calls of all families over the host's tables, `split`, and the tables at the start of a job.
//!
//! The tables of the host of all imports of the modules `awk1` and `awk2`, and the calls on them.
#![tactic(auto)]

mod answers;
mod byte_texts;
mod elements;
mod filling;
mod job;
mod kept_fault;
mod pieces;
mod split_words;
mod splits;
mod start;
mod starts;
mod table_families;
mod tables;

pub use answers::{refusal, told};
pub use byte_texts::ByteTexts;
pub use job::Job;
pub use splits::split;
pub use start::FirstTables;
pub use tables::Tables;
