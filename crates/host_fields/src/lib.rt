//! The record that a script reads, and its fields (POSIX.1-2017 awk, "Variables and Special Variables", "Regular Expressions", the use of FS).
#![tactic(auto)]

mod counted;
mod fields;
mod found;
mod joined;
mod number;
mod record;
mod sizes;
mod splitter;
mod view;

pub use record::Record;
pub use view::{FieldView, Part, Whole};
