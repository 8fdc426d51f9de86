//! The text functions of awk that look for no expression (POSIX.1-2017 awk, "String Functions", "Formatted output"), in whole numbers and bytes; and texts that
//! grow up to the limit.
#![tactic(auto)]

mod conversion;
mod converted;
mod digits;
mod formatted;
mod growing;
mod padding;
mod replacement;
mod text;

pub use formatted::{format, format_into};
pub use growing::Growing;
pub use replacement::put_replacement;
pub use text::{index_of, lower, substr, substr_span, upper};
