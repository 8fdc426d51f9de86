//! The kinds of the names of a script.
//!
//! The kinds of names as least sets.
#![tactic(auto)]

mod answer;
mod closure;
mod fault;
mod function_names;
pub mod kind_laws;
mod kinds;
mod listing;
mod mark;
mod mark_list;
mod placed;
mod refusals;
mod resolved;
mod scopes;
mod sets;
mod special;
mod uses;
mod walk;
mod walk_stmt;

pub use answer::{kinds_are_least, resolve};
pub use fault::{Name, ResolveFault};
pub use function_names::{FunctionNames, NameKind};
pub use resolved::Resolved;
