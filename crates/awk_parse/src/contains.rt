//! Subscripts, and the array that `in` asks about.

ghost use Rattle.awk_grammar.specs.View.{view, views};
ghost use Rattle.awk_parse.specs.Operands.{in_array_at, contained_at};
ghost use Rattle.awk_parse.specs.Parsed.{at, Parsed};

use crate::deep::{Deep, DeepList, Part};
use crate::mark::Mark;
use crate::node::{has, has_list};
use crate::source::Source;

/// A subscript, and the array after `in`.
#[inline(never)]
pub(crate) fn contained(source: &mut Source<'_>, left: Part) -> Deep
    ensures { Parsed (view result.tree) (at source.old) (at source.new)
        (contained_at (view left.tree.value)) }
{
    let array = source.name();
    has(left, array)
}

/// Two subscripts or more, and `)`, `in` and the array after them.
#[inline(never)]
pub(crate) fn in_array(source: &mut Source<'_>, first: Part, others: DeepList) -> Deep
    ensures { Parsed (view result.tree) (at source.old) (at source.new)
        (in_array_at (view first.tree.value) (views others.trees.items)) }
{
    source.expect(Mark::Close);
    source.expect(Mark::In);
    let array = source.name();
    has_list(first, others, array)
}
