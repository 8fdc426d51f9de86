//! What is to be said of a script before it runs: the place of each refusal, and what looks like a slip.
#![tactic(auto)]

mod finding;
mod findings;
mod judged;
mod lines;
mod matter;
mod page;
mod places;
mod refused;
mod stopped;
mod text;
mod troubles;
mod uncut;
mod uses;
mod walk;
mod walk_stmt;

pub use finding::{Finding, Said, Severity};
pub use findings::findings_of;
pub use judged::matters;
pub use matter::Matter;
pub use page::page_of;
pub use places::{starts, told as told_tokens};
pub use uses::{Deed, Use, Way};
pub use walk_stmt::uses_of;
