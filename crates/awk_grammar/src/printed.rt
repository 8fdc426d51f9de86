//! The tokens of a tree.

use awk_tokens::{Builtin, Keyword, Punctuator};

/// A token of a tree: its kind, and its text where it is a name, a number, a string or an ERE.
#[derive(Clone, Copy)]
pub enum Printed<'a> {
    Name(&'a [u8]),
    FuncName(&'a [u8]),
    Number(&'a [u8]),
    Str(&'a [u8]),
    Ere(&'a [u8]),
    Keyword(Keyword),
    Builtin(Builtin),
    Punctuator(Punctuator),
}
