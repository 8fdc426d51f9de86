//! Script and module agree: laws alone, each the contract of a function that does nothing.
#![tactic(auto)]

pub mod big_step;
pub mod formats;
pub mod input;
pub mod integers;
pub mod job_words;
pub mod modules;
pub mod passed;
pub mod places;
pub mod quiet;
pub mod runs;
pub mod sizes;
pub mod spots;
pub mod stores;
pub mod texts;
pub mod twins;
pub mod typed;
