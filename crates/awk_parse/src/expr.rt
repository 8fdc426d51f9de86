//! Expressions, by operator precedence: an operand, and the operators after it that may stand there.
//!
//! One call of this file waits within another for each level of an expression. So a waiting call holds trees in boxes and lists, and what it does beside reading
//! an expression stands in functions that are not inlined: else their places would be a part of its frame.

ghost use Rattle.std.specs.Prelude.{◌<◌, ◌-◌, length};
ghost use Rattle.awk_grammar.specs.Reading.{expr_at, after, climb, list_at, arguments_at, indexed_by, call_by, applied_by, getline_at, from_by, first_at, open_at, index_at, less_at};
ghost use Rattle.awk_grammar.specs.View.{view, views};
ghost use Rattle.awk_parse.specs.Operands.{paren_at, conditional_at, view_variable};
ghost use Rattle.awk_parse.specs.Seen.{view_mode, view_link};
ghost use Rattle.awk_parse.specs.Starts.{prefixed_at, view_prefix};
ghost use Rattle.awk_parse.specs.Parsed.{at, Parsed};

use crate::checks::{bare, bounded, fitted, suited};
use crate::contains::{contained, in_array};
use crate::deep::{Deep, DeepList, Part, length, none};
use crate::mark::{Mark, after};
use crate::mode::{Mode, floor, right_of};
use crate::node::{
    below, call_of, choice, element, got, got_from, grouped, joined, part, variable, with_one,
};
use crate::peek::{Link, begins_lvalue, joining, line_of, stopped};
use crate::refusal::Refusal;
use crate::source::Source;
use crate::start::{Prefix, Start, constant, mode_below, start_of};
use awk_grammar::{Builtin, Expr};

/// An expression of at most this depth, where `greater` says whether `>` may stand outside parentheses and brackets.
#[inline(never)]
pub fn expression(source: &mut Source<'_>, limit: u32, greater: bool, mode: Mode) -> Expr
    ensures { Parsed (view result) (at source.old) (at source.new)
        (expr_at limit greater (view_mode mode)) }
{
    let Deep { tree, depth: _ } = read(source, limit, greater, mode);
    tree
}

/// One expression or more of at most this depth, with commas between them.
#[inline(never)]
pub fn list(source: &mut Source<'_>, limit: u32, greater: bool) -> Vec<Expr>
    ensures { Parsed (views result.items) (at source.old) (at source.new)
        (list_at (expr_at limit) greater) }
{
    let DeepList { trees, depth: _ } = read_list(source, limit, greater);
    trees
}

/// An expression of at most this depth.
#[cycle(expr)]
#[inline(never)]
fn read(source: &mut Source<'_>, limit: u32, greater: bool, mode: Mode) -> Deep
    ensures { Parsed (view result.tree) (at source.old) (at source.new)
        (expr_at limit greater (view_mode mode)) }
{
    if limit == 0 {
        source.refuse(Refusal::TooDeep(line_of(source.rest)));
        return length();
    }
    let start = source.rest;
    let bare = operand(source, limit - 1, greater, mode);
    let first = fitted(source, limit, mode, bare, start);
    chain(source, limit, greater, floor(mode), first)
}

/// The operators after an expression that bind at this level or tighter, from the left.
#[cycle(expr)]
#[inline(never)]
fn chain(source: &mut Source<'_>, limit: u32, greater: bool, least: u8, first: Deep) -> Deep
    requires { 0 < limit }
    ensures { Parsed (view result.tree) (at source.old) (at source.new)
        (λ ts. climb (expr_at (limit - 1)) greater limit (length ts) least (view first.tree) ts) }
{
    let mut left = first;
    let turns = source.rest.len();
    for _ in 0..turns {
        let Some((link, rest)) = joining(greater, least, &left.tree, source.rest) else {
            return left;
        };
        source.go_on(rest);
        left = linked(source, limit - 1, greater, left, link);
        bounded(source, limit, &left);
    }
    left
}

/// An expression, a link, and what stands after it.
#[cycle(expr)]
#[inline(never)]
fn linked(source: &mut Source<'_>, limit: u32, greater: bool, left: Deep, link: Link) -> Deep
    ensures { Parsed (view result.tree) (at source.old) (at source.new)
        (after (expr_at limit) greater (view left.tree) (view_link link)) }
{
    let Some(left) = part(source, left) else {
        return length();
    };
    match link {
        Link::Joined(op) => {
            let right = read(source, limit, greater, right_of(op));
            joined(source, op, left, right)
        }
        Link::In => contained(source, left),
        Link::Question => conditional(source, limit, greater, left),
    }
}

/// A condition, and the two sides after its `?`.
#[cycle(expr)]
#[inline(never)]
fn conditional(source: &mut Source<'_>, limit: u32, greater: bool, condition: Part) -> Deep
    ensures { Parsed (view result.tree) (at source.old) (at source.new)
        (conditional_at (expr_at limit) greater (view condition.tree.value)) }
{
    let then = read(source, limit, greater, Mode::Whole);
    let Some(then) = part(source, then) else {
        return length();
    };
    source.expect(Mark::Colon);
    let last = read(source, limit, greater, Mode::Whole);
    choice(source, condition, then, last)
}

/// One expression or more, with commas between them.
#[cycle(expr)]
#[inline(never)]
fn read_list(source: &mut Source<'_>, limit: u32, greater: bool) -> DeepList
    ensures { Parsed (views result.trees.items) (at source.old) (at source.new)
        (list_at (expr_at limit) greater) }
{
    let first = read(source, limit, greater, Mode::Whole);
    let mut all = with_one(source, none(source.alloc), first);
    let turns = source.rest.len();
    for _ in 0..turns {
        let Some(rest) = after(Mark::Comma, source.rest) else {
            return all;
        };
        source.go_on(rest);
        let next = read(source, limit, greater, Mode::Whole);
        all = with_one(source, all, next);
    }
    all
}

/// Arguments, none or more, and the parenthesis that closes them.
#[cycle(expr)]
#[inline(never)]
fn arguments(source: &mut Source<'_>, limit: u32) -> DeepList
    ensures { Parsed (views result.trees.items) (at source.old) (at source.new)
        (arguments_at (expr_at limit)) }
{
    if let Some(rest) = after(Mark::Close, source.rest) {
        source.go_on(rest);
        return none(source.alloc);
    }
    let inner = read_list(source, limit, true);
    source.expect(Mark::Close);
    inner
}

/// A variable, or an element of an array.
#[cycle(expr)]
#[inline(never)]
fn named(source: &mut Source<'_>, limit: u32, text: &[u8]) -> Deep
    ensures { Parsed (view result.tree) (at source.old) (at source.new)
        (λ ts. indexed_by (expr_at limit) text.now ts (index_at ts)) }
{
    let name = source.copied(text);
    let Some(rest) = after(Mark::OpenBracket, source.rest) else {
        return variable(name);
    };
    source.go_on(rest);
    let subscripts = read_list(source, limit, true);
    source.expect(Mark::CloseBracket);
    element(name, subscripts)
}

/// A call of a function of the script.
#[cycle(expr)]
#[inline(never)]
fn call(source: &mut Source<'_>, limit: u32, text: &[u8]) -> Deep
    ensures { Parsed (view result.tree) (at source.old) (at source.new)
        (λ ts. call_by (expr_at limit) text.now (open_at ts)) }
{
    let function = source.copied(text);
    source.expect(Mark::Open);
    let inner = arguments(source, limit);
    call_of(function, inner)
}

/// A call of a built-in function; `length` may stand alone.
#[cycle(expr)]
#[inline(never)]
fn applied(source: &mut Source<'_>, limit: u32, function: Builtin) -> Deep
    ensures { Parsed (view result.tree) (at source.old) (at source.new)
        (λ ts. applied_by (expr_at limit) function ts (open_at ts)) }
{
    let start = source.rest;
    let Some(rest) = after(Mark::Open, start) else {
        return bare(source, function);
    };
    source.go_on(rest);
    let inner = arguments(source, limit);
    suited(source, function, inner, start)
}

/// What stands after `(`: an expression in parentheses, or a list of subscripts and `in`.
#[cycle(expr)]
#[inline(never)]
fn parenthesised(source: &mut Source<'_>, limit: u32) -> Deep
    ensures { Parsed (view result.tree) (at source.old) (at source.new) (paren_at (expr_at limit)) }
{
    let first = read(source, limit, true, Mode::Whole);
    let Some(first) = part(source, first) else {
        return length();
    };
    if let Some(rest) = after(Mark::Comma, source.rest) {
        source.go_on(rest);
        let others = read_list(source, limit, true);
        return in_array(source, first, others);
    }
    source.expect(Mark::Close);
    grouped(first)
}

/// What stands after `getline`: a variable or none, and a file or none.
#[cycle(expr)]
#[inline(never)]
fn getline(source: &mut Source<'_>, limit: u32, greater: bool) -> Deep
    ensures { Parsed (view result.tree) (at source.old) (at source.new)
        (getline_at (expr_at limit) greater) }
{
    if !begins_lvalue(source.rest) {
        return from_file(source, limit, greater, None);
    }
    let variable = read(source, limit, greater, Mode::LValue);
    let variable = part(source, variable);
    from_file(source, limit, greater, variable)
}

/// What stands after `getline` and its variable, if there is one.
#[cycle(expr)]
#[inline(never)]
fn from_file(source: &mut Source<'_>, limit: u32, greater: bool, variable: Option<Part>) -> Deep
    ensures { Parsed (view result.tree) (at source.old) (at source.new)
        (λ ts. from_by (expr_at limit) greater (view_variable variable) ts (less_at ts)) }
{
    let Some(rest) = after(Mark::Less, source.rest) else {
        return got(variable);
    };
    source.go_on(rest);
    let file = read(source, limit, greater, Mode::Plain);
    got_from(source, variable, file)
}

/// What stands after `$`, a sign, `!` or a step.
#[cycle(expr)]
#[inline(never)]
fn prefixed(source: &mut Source<'_>, limit: u32, greater: bool, mode: Mode, prefix: Prefix) -> Deep
    ensures { Parsed (view result.tree) (at source.old) (at source.new)
        (prefixed_at (expr_at limit) greater (view_mode mode) (view_prefix prefix)) }
{
    let inner = read(source, limit, greater, mode_below(mode, prefix));
    below(source, prefix, inner)
}

/// An operand, without the step after it.
#[cycle(expr)]
#[inline(never)]
fn operand(source: &mut Source<'_>, limit: u32, greater: bool, mode: Mode) -> Deep
    ensures { Parsed (view result.tree) (at source.old) (at source.new)
        (first_at (expr_at limit) greater (view_mode mode)) }
{
    let Some((start, rest)) = start_of(source.rest) else {
        source.refuse(stopped(source.rest));
        return length();
    };
    source.go_on(rest);
    match start {
        Start::Literal(literal, text) => constant(source, literal, text),
        Start::Name(text) => named(source, limit, text),
        Start::FuncName(text) => call(source, limit, text),
        Start::Builtin(function) => applied(source, limit, function),
        Start::Getline => getline(source, limit, greater),
        Start::Paren => parenthesised(source, limit),
        Start::Prefix(prefix) => prefixed(source, limit, greater, mode, prefix),
    }
}
