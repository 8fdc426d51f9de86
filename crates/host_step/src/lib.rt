//! The definition of the whole host: what each import does to the host's state, what it answers, and why it may not.
#![tactic(auto)]

mod refusal;
pub mod step_laws;

pub use refusal::Refusal;
