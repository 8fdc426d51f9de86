//! What an instance of a module holds, and its integer operators (Core 1.0, sections 4.2 and 4.3).
#![tactic(auto)]

mod globals;
mod memory;
mod numeric;
mod table;
mod trap;
mod word;

pub use globals::Globals;
pub use memory::Memory;
pub use numeric::{binary, compare, convert, test, unary};
pub use table::Table;
pub use trap::TrapKind;
pub use word::Word;
