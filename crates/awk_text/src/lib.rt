//! Numbers and strings as texts: what number a text stands for, the text of a number, and the text that a string with escapes stands for.
//!
//! A number of this awk is whole and lies from -2^53 to 2^53 ([`MAX_NUMBER`]), both included. A text is any bytes, and none is too long. Only
//! [`unescape`] and [`string_text`] take memory.
#![tactic(auto)]

mod escapes;
mod number;
pub mod number_laws;
mod reading;
mod text;

pub use escapes::{string_text, unescape};
pub use number::{
    MAX_NUMBER, NumberFault, is_nonzero, looks_numeric, number_of, numeric_of, truncated_of,
};
pub use text::{NumText, text_of};
