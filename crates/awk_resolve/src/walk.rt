//! The marks of an expression.

ghost use Rattle.std.specs.Prelude.{◌≡◌, ◌++◌, ◌∷◌, []};
ghost use Rattle.awk_grammar.specs.Trees.{Index, Call};
ghost use Rattle.awk_grammar.specs.View.{view, views};
ghost use Rattle.awk_grammar.specs.Marks.{Array, Computed, Given, Used, bare_name, array_name, computed_marks, named_or, unless_named, marks, all_marks, argument_marks, operand_marks};
ghost use Rattle.awk_resolve.specs.View.{view_place, AddsMarks};

use crate::mark::{Kind, Mark};
use crate::mark_list::{Marks, put};
use awk_grammar::{Builtin, Expr};

/// The name that an expression is, if it is a bare name.
fn bare_name(e: &Expr) -> Option<&[u8]>
    ensures { view_place result ≡ bare_name (view e.now) }
{
    match e {
        Expr::Var(name) => Some(name),
        _ => None,
    }
}

/// The array that a built-in function fills: the second argument of `split`.
fn array_name(function: Builtin, argument: usize, e: &Expr) -> Option<&[u8]>
    ensures { view_place result ≡ array_name function argument (view e.now) }
{
    match function {
        Builtin::Split if argument == 1 => bare_name(e),
        _ => None,
    }
}

/// Adds an argument, if it is no bare name.
fn put_computed<'a>(out: &mut Marks<'a>, function: &'a [u8], argument: usize, e: &'a Expr)
    ensures { AddsMarks out.old out.new
        (unless_named (Computed function.now argument) (bare_name (view e.now))) }
{
    match bare_name(e) {
        Some(_) => {}
        None => put(out, Mark::Computed(function, argument)),
    }
}

/// Adds the arguments that are no bare names.
fn push_computed<'a>(out: &mut Marks<'a>, function: &'a [u8], arguments: &'a [Expr])
    ensures { AddsMarks out.old out.new (computed_marks function.now 0 (views arguments.now)) }
{
    for i in 0..arguments.len() {
        put_computed(out, function, i, &arguments[i]);
    }
}

/// Adds the marks of an expression that stands in a place.
#[cycle(walk)]
pub(crate) fn push_expr<'a>(out: &mut Marks<'a>, place: Option<&'a [u8]>, e: &'a Expr)
    ensures { AddsMarks out.old out.new (marks (view_place place.entry) (view e.now)) }
{
    match e {
        Expr::Number(_) | Expr::Str(_) | Expr::Ere(_) | Expr::Length | Expr::Getline => {}
        Expr::Var(name) => put(out, Mark::Used(Kind::Scalar, place, name)),
        Expr::Element(name, subscripts) => push_element(out, place, name, subscripts),
        Expr::Field(inner)
        | Expr::Group(inner)
        | Expr::Unary(_, inner)
        | Expr::PreStep(_, inner)
        | Expr::PostStep(_, inner)
        | Expr::GetlineInto(inner)
        | Expr::GetlineFrom(inner) => push_expr(out, place, inner),
        Expr::Call(name, arguments) => push_call(out, place, name, arguments),
        Expr::Apply(function, arguments) => push_operands(out, place, *function, arguments),
        Expr::Binary(_, a, b) | Expr::Assign(_, a, b) | Expr::GetlineIntoFrom(a, b) => {
            push_expr(out, place, a);
            push_expr(out, place, b);
        }
        Expr::In(subscript, array) => {
            push_expr(out, place, subscript);
            put(out, Mark::Used(Kind::Array, place, array));
        }
        Expr::InList(first, others, array) => {
            push_expr(out, place, first);
            push_others(out, place, others, array);
        }
        Expr::Conditional(a, b, c) => {
            push_expr(out, place, a);
            push_expr(out, place, b);
            push_expr(out, place, c);
        }
    }
}

/// Adds the marks of an array's name and its subscripts.
#[cycle(walk)]
pub(crate) fn push_element<'a>(
    out: &mut Marks<'a>,
    place: Option<&'a [u8]>,
    name: &'a [u8],
    subscripts: &'a [Expr],
)
    ensures { AddsMarks out.old out.new
        (marks (view_place place.entry) (Index name.now (views subscripts.now))) }
{
    put(out, Mark::Used(Kind::Array, place, name));
    push_all(out, place, subscripts);
}

#[cycle(walk)]
fn push_call<'a>(
    out: &mut Marks<'a>,
    place: Option<&'a [u8]>,
    name: &'a [u8],
    arguments: &'a [Expr],
)
    ensures { AddsMarks out.old out.new
        (marks (view_place place.entry) (Call name.now (views arguments.now))) }
{
    put(out, Mark::Called(name, arguments.len()));
    push_computed(out, name, arguments);
    push_arguments(out, place, name, arguments);
}

/// Adds the marks of the further subscripts that are looked for in an array, and of its name.
#[cycle(walk)]
fn push_others<'a>(
    out: &mut Marks<'a>,
    place: Option<&'a [u8]>,
    others: &'a [Expr],
    array: &'a [u8],
)
    ensures { AddsMarks out.old out.new (all_marks (view_place place.entry)
        (views others.now) ++ Used Array (view_place place.entry) array.now ∷ []) }
{
    push_all(out, place, others);
    put(out, Mark::Used(Kind::Array, place, array));
}

/// Adds the marks of expressions.
#[cycle(walk)]
pub(crate) fn push_all<'a>(out: &mut Marks<'a>, place: Option<&'a [u8]>, es: &'a [Expr])
    ensures { AddsMarks out.old out.new (all_marks (view_place place.entry) (views es.now)) }
{
    for e in es {
        push_expr(out, place, e);
    }
}

/// Adds the marks of an argument of a call.
#[cycle(walk)]
fn push_argument<'a>(
    out: &mut Marks<'a>,
    place: Option<&'a [u8]>,
    function: &'a [u8],
    argument: usize,
    e: &'a Expr,
)
    ensures { AddsMarks out.old out.new
        (named_or (Given function.now argument (view_place place.entry)) (bare_name (view e.now))
        (marks (view_place place.entry) (view e.now))) }
{
    match bare_name(e) {
        Some(name) => put(out, Mark::Given(function, argument, place, name)),
        None => push_expr(out, place, e),
    }
}

/// Adds the marks of a call's arguments.
#[cycle(walk)]
fn push_arguments<'a>(
    out: &mut Marks<'a>,
    place: Option<&'a [u8]>,
    function: &'a [u8],
    arguments: &'a [Expr],
)
    ensures { AddsMarks out.old out.new
        (argument_marks (view_place place.entry) function.now 0 (views arguments.now)) }
{
    for i in 0..arguments.len() {
        push_argument(out, place, function, i, &arguments[i]);
    }
}

/// Adds the marks of an argument of a built-in function.
#[cycle(walk)]
fn push_operand<'a>(
    out: &mut Marks<'a>,
    place: Option<&'a [u8]>,
    function: Builtin,
    argument: usize,
    e: &'a Expr,
)
    ensures { AddsMarks out.old out.new (named_or (Used Array (view_place place.entry))
        (array_name function argument (view e.now))
        (marks (view_place place.entry) (view e.now))) }
{
    match array_name(function, argument, e) {
        Some(name) => put(out, Mark::Used(Kind::Array, place, name)),
        None => push_expr(out, place, e),
    }
}

/// Adds the marks of a built-in function's arguments.
#[cycle(walk)]
fn push_operands<'a>(
    out: &mut Marks<'a>,
    place: Option<&'a [u8]>,
    function: Builtin,
    arguments: &'a [Expr],
)
    ensures { AddsMarks out.old out.new
        (operand_marks (view_place place.entry) function 0 (views arguments.now)) }
{
    for i in 0..arguments.len() {
        push_operand(out, place, function, i, &arguments[i]);
    }
}
