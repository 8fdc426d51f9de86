//! The code of statements, of functions and of `main`, emitted as it is defined.
#![tactic(auto)]

mod appending;
mod around;
mod beginning;
mod evaluating;
mod holding;
mod leaving;
mod lengths;
mod lists;
mod loops;
mod main_parts;
mod quick;
mod records;
mod returning;
mod routines;
mod script;
mod steps;
mod summing;
mod tallying;
mod testing;

pub use script::{functions, lower};
