//! The code that a script has keeps the script's meaning: laws alone.
#![tactic(auto)]

pub mod meaning_laws;
