//! The text functions of awk (POSIX.1-2017 awk, "String Functions", "Formatted output", the use of FS), in whole numbers and bytes.
//!
//! The automata of expressions that are met while a script runs, kept by their texts.
#![tactic(auto)]

mod eres;
mod expressions;
mod fields;
mod marks;
mod matcher;
mod sep;
mod span;
mod substitution;

pub use eres::expression;
pub use expressions::Expressions;
pub use fields::{split_by_expression, split_into, split_plain, split_text};
pub use host_bytes::{format, format_into, index_of, lower, substr, substr_span, upper};
pub use matcher::Matcher;
pub use sep::{Plain, Sep};
pub use span::Span;
pub use substitution::{Substituted, substitute};
