//! Trees from their parts.

ghost use Rattle.std.specs.Prelude.{◌≡◌, MatchOption, Some, None};
ghost use Rattle.awk_grammar.specs.Reading.{getting};
ghost use Rattle.awk_grammar.specs.Trees.{Var, Index, Call, Apply, Group, Bin, Has, HasList, Cond, Then, NoTree};
ghost use Rattle.awk_grammar.specs.View.{view, views};
ghost use Rattle.awk_parse.specs.Operands.{followed_by, view_variable};
ghost use Rattle.awk_parse.specs.Seen.{view_infix};
ghost use Rattle.awk_parse.specs.Starts.{below, view_prefix};
ghost use Rattle.awk_parse.specs.Parsed.{at, ended, Parsed, is_read};
ghost use Rattle.awk_parse.specs.declared.refusal.Refusal.TheVariants.{NoMemory};

use crate::deep::{Deep, DeepList, Part, length};
use crate::depth::{above, above_both, deeper};
use crate::peek::Infix;
use crate::refusal::Refusal;
use crate::source::Source;
use crate::start::Prefix;
use awk_grammar::{Builtin, Expr};
use latched::push;

/// An expression on the heap; none where reading stopped.
#[inline(never)]
pub(crate) fn part(source: &mut Source<'_>, read: Deep) -> Option<Part>
    ensures { MatchOption result (at source.new ≡ ended (at source.old) NoMemory)
        (λ p. (p.tree.value ≡ read.tree) × (at source.new ≡ at source.old)) }
{
    let Deep { tree, depth } = read;
    let tree = source.boxed(tree)?;
    Some(Part { tree, depth })
}

/// A variable.
pub(crate) fn variable(name: Vec<u8>) -> Deep
    ensures { view result.tree ≡ Var name.items }
{
    Deep {
        tree: Expr::Var(name),
        depth: 1,
    }
}

/// An element of an array.
#[inline(never)]
pub(crate) fn element(array: Vec<u8>, subscripts: DeepList) -> Deep
    ensures { view result.tree ≡ Index array.items (views subscripts.trees.items) }
{
    let DeepList { trees, depth } = subscripts;
    Deep {
        tree: Expr::Element(array, trees),
        depth: above(depth),
    }
}

/// A call of a function of the script.
#[inline(never)]
pub(crate) fn call_of(function: Vec<u8>, arguments: DeepList) -> Deep
    ensures { view result.tree ≡ Call function.items (views arguments.trees.items) }
{
    let DeepList { trees, depth } = arguments;
    Deep {
        tree: Expr::Call(function, trees),
        depth: above(depth),
    }
}

/// A call of a built-in function.
pub(crate) fn application(function: Builtin, arguments: DeepList) -> Deep
    ensures { view result.tree ≡ Apply function (views arguments.trees.items) }
{
    let DeepList { trees, depth } = arguments;
    Deep {
        tree: Expr::Apply(function, trees),
        depth: above(depth),
    }
}

/// An expression in parentheses.
#[inline(never)]
pub(crate) fn grouped(inner: Part) -> Deep
    ensures { view result.tree ≡ Group (view inner.tree.value) }
{
    let Part { tree, depth } = inner;
    Deep {
        tree: Expr::Group(tree),
        depth: above(depth),
    }
}

/// One subscript and the array that `in` asks about.
pub(crate) fn has(subscript: Part, array: Vec<u8>) -> Deep
    ensures { view result.tree ≡ Has (view subscript.tree.value) array.items }
{
    let Part { tree, depth } = subscript;
    Deep {
        tree: Expr::In(tree, array),
        depth: above(depth),
    }
}

/// Two subscripts or more and the array that `in` asks about.
pub(crate) fn has_list(first: Part, others: DeepList, array: Vec<u8>) -> Deep
    ensures { view result.tree ≡ HasList (view first.tree.value) (views others.trees.items) array.items }
{
    let Part { tree, depth } = first;
    let DeepList {
        trees,
        depth: deepest,
    } = others;
    Deep {
        tree: Expr::InList(tree, trees, array),
        depth: above_both(depth, deepest),
    }
}

/// What reads a line, into a variable or none.
#[inline(never)]
pub(crate) fn got(variable: Option<Part>) -> Deep
    ensures { view result.tree ≡ getting (view_variable variable) None }
{
    let Some(Part { tree, depth }) = variable else {
        return Deep {
            tree: Expr::Getline,
            depth: 1,
        };
    };
    Deep {
        tree: Expr::GetlineInto(tree),
        depth: above(depth),
    }
}

/// What reads a line from a file, into a variable or none.
#[inline(never)]
pub(crate) fn got_from(source: &mut Source<'_>, variable: Option<Part>, file: Deep) -> Deep
    ensures { Parsed (view result.tree) (at source.old) (at source.new)
        (is_read (getting (view_variable variable) (Some (view file.tree)))) }
{
    let Some(file) = part(source, file) else {
        return length();
    };
    let Some(Part { tree, depth }) = variable else {
        return Deep {
            tree: Expr::GetlineFrom(file.tree),
            depth: above(file.depth),
        };
    };
    Deep {
        tree: Expr::GetlineIntoFrom(tree, file.tree),
        depth: above_both(depth, file.depth),
    }
}

/// What stands after `$`, a sign, `!` or a step, with that.
#[inline(never)]
pub(crate) fn below(source: &mut Source<'_>, prefix: Prefix, inner: Deep) -> Deep
    ensures { Parsed (view result.tree) (at source.old) (at source.new)
        (is_read (below (view_prefix prefix) (view inner.tree))) }
{
    let Some(Part { tree, depth }) = part(source, inner) else {
        return length();
    };
    let tree = match prefix {
        Prefix::Field => Expr::Field(tree),
        Prefix::Unary(op) => Expr::Unary(op, tree),
        Prefix::Step(op) => Expr::PreStep(op, tree),
    };
    Deep {
        tree,
        depth: above(depth),
    }
}

/// A left side, an operator and a right side.
fn between(op: Infix, left: Box<Expr>, right: Box<Expr>) -> Expr
    ensures { view result ≡ Bin (view_infix op) (view left.value) (view right.value) }
{
    match op {
        Infix::Binary(op) => Expr::Binary(op, left, right),
        Infix::Assign(op) => Expr::Assign(op, left, right),
    }
}

/// A left side, an operator and what was read after it.
#[inline(never)]
pub(crate) fn joined(source: &mut Source<'_>, op: Infix, left: Part, right: Deep) -> Deep
    ensures { Parsed (view result.tree) (at source.old) (at source.new)
        (is_read (Bin (view_infix op) (view left.tree.value) (view right.tree))) }
{
    let Some(right) = part(source, right) else {
        return length();
    };
    Deep {
        tree: between(op, left.tree, right.tree),
        depth: above_both(left.depth, right.depth),
    }
}

/// A condition and its two sides.
#[inline(never)]
pub(crate) fn choice(source: &mut Source<'_>, condition: Part, then: Part, last: Deep) -> Deep
    ensures { Parsed (view result.tree) (at source.old) (at source.new)
        (is_read (Cond (view condition.tree.value) (view then.tree.value) (view last.tree))) }
{
    let Some(last) = part(source, last) else {
        return length();
    };
    Deep {
        tree: Expr::Conditional(condition.tree, then.tree, last.tree),
        depth: above_both(condition.depth, deeper(then.depth, last.depth)),
    }
}

/// Expressions and one more.
#[inline(never)]
pub(crate) fn with_one(source: &mut Source<'_>, list: DeepList, next: Deep) -> DeepList
    ensures { Parsed (views result.trees.items) (at source.old) (at source.new)
        (is_read (followed_by (views list.trees.items) (Then (view next.tree) NoTree))) }
{
    let DeepList { mut trees, depth } = list;
    let Deep { tree, depth: last } = next;
    let Ok(()) = push(&mut trees, tree) else {
        source.refuse(Refusal::NoMemory);
        return DeepList { trees, depth };
    };
    DeepList {
        trees,
        depth: deeper(depth, last),
    }
}
