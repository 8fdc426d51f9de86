//! The marks of a script, as they are found.

ghost use Rattle.std.specs.Prelude.{◌∷◌, []};
ghost use Rattle.awk_resolve.specs.View.{view_mark, AddsMarks};

use crate::mark::Mark;
use latched::LatchedVec;

/// The marks that were found.
pub(crate) type Marks<'a> = LatchedVec<Mark<'a>>;

/// Adds a mark.
pub(crate) fn put<'a>(out: &mut Marks<'a>, mark: Mark<'a>)
    ensures { AddsMarks out.old out.new (view_mark mark.entry ∷ []) }
{
    out.push(mark);
}
