//! Matching extended regular expressions: the first match, and the longest there.
#![tactic(auto)]

mod advance;
mod assemble;
mod automaton;
mod classes;
mod crowd;
mod dead_ends;
mod haste;
mod lead;
mod matching;
mod node;
mod notes;
mod numbers;
mod row;
mod scan;
mod search;
mod step;
mod sweep;
mod table;
mod threads;

pub use automaton::Auto;
pub use dead_ends::DeadEnds;
pub use matching::{build, first_match, first_match_by_threads, is_match, next_match};
