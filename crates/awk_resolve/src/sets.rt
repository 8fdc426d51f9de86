//! The kinds of variables, as sets of them.

ghost use Rattle.std.specs.Prelude.{◌≡◌, length};

use crate::scopes::Variable;
use indexmap::IndexSet;

/// The variables of a script, and for each whether it is used as an array and as a scalar.
#[derive(Drop)]
pub(crate) struct Kinds<'a> {
    pub variables: IndexSet<Variable<'a>>,
    pub arrays: Vec<bool>,
    pub scalars: Vec<bool>,
    ghost arrays_known: { length arrays.items ≡ length variables.keys },
    ghost scalars_known: { length scalars.items ≡ length variables.keys },
}
