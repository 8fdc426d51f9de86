//! A script with the kinds of its names.

use crate::function_names::{FunctionNames, NameKind};
use awk_grammar::Script;

/// A script with the kinds of its names.
#[derive(Drop)]
pub struct Resolved<'a> {
    pub script: &'a Script,
    /// The functions in the order of the script.
    pub functions: Vec<FunctionNames<'a>>,
    /// The variables that are neither special nor parameters, in the order of their first places.
    pub globals: Vec<NameKind<'a>>,
}
