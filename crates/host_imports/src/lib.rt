//! The table of imports of the modules `awk1` and `awk2`: their names, numbers and types, what each spends, whether it may trap or fault. Host and lowering stand
//! on this one table.
//!
//! Finding the imports of the modules `awk1` and `awk2` by their names.
#![tactic(auto)]

mod import;
mod links;
mod types;

pub use import::{IMPORT_COUNT, IMPORTS, Import, VariadicImport, imports_in};
pub use links::Links;
pub use types::type_of;
