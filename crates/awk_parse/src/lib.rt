//! The parser: from the tokens of a script to its tree (POSIX.1-2017 awk, "Grammar", in the profile of this project).
//!
//! Expressions from tokens (POSIX.1-2017 awk, "Grammar", in the profile of this project), and what else a reader asks of the next tokens.
//!
//! Statements and items from tokens (POSIX.1-2017 awk, "Grammar", in the profile of this project).
#![tactic(auto)]

mod checks;
mod contains;
mod deep;
mod depth;
mod expr;
mod fault;
mod flow;
mod head;
mod item;
mod mark;
mod mode;
mod node;
pub mod parse_laws;
mod peek;
mod placed;
mod refusal;
mod scan;
mod script;
mod source;
mod start;
mod statement_node;
mod statement_peek;
mod statement_start;
mod stmt;

pub use fault::{Feature, ParseFault};
pub use script::parse;
