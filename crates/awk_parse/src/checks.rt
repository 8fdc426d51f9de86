//! What must hold of a tree where it stands.

ghost use Rattle.std.specs.Prelude.{◌≡◌, Ok, MatchOption, Some, None};
ghost use Rattle.awk_grammar.specs.Reading.{posted, suited, bare, checked};
ghost use Rattle.awk_grammar.specs.View.{view, views, view_step};
ghost use Rattle.awk_parse.specs.Operands.{done, fitted_at, post_at};
ghost use Rattle.awk_parse.specs.Seen.{seen, view_mode};
ghost use Rattle.awk_parse.specs.Parsed.{at, Parsed};

use crate::deep::{Deep, DeepList, length};
use crate::depth::above;
use crate::mode::{Mode, fits, is_normal};
use crate::node::{application, part};
use crate::peek::{line_of, step, stopped};
use crate::refusal::Refusal;
use crate::source::Source;
use awk_grammar::{Builtin, Expr, StepOp, suits};
use awk_tokens::Token;

/// Refuses an expression that is deeper than this.
#[inline(never)]
pub(crate) fn bounded(source: &mut Source<'_>, limit: u32, read: &Deep)
    ensures { Parsed (view read.now.tree) (at source.old) (at source.new)
        (λ ts. checked limit done (view read.now.tree, ts)) }
{
    if read.depth > u64::from(limit) {
        source.refuse(Refusal::TooDeep(line_of(source.rest)));
    }
}

/// The step after an expression, if there is one and it may stand there, and the tokens after it.
fn step_after<'a>(
    mode: Mode,
    bare: &Expr,
    tokens: &'a [Token<'a>],
) -> Option<(StepOp, &'a [Token<'a>])>
    ensures { MatchOption result (post_at (view_mode mode) (view bare.now) (seen tokens.now) ≡ None)
        (λ o. post_at (view_mode mode) (view bare.now) (seen tokens.now) ≡ Some (view_step o.0, seen o.1.now)) }
{
    if !is_normal(mode) || !fits(Mode::LValue, bare) {
        return None;
    }
    step(tokens)
}

/// An operand with the step after it, if there is one and it may stand there.
fn with_step(source: &mut Source<'_>, mode: Mode, bare: Deep) -> Deep
    ensures { Parsed (view result.tree) (at source.old) (at source.new)
        (λ ts. Ok (posted (view_mode mode) (view bare.tree, ts))) }
{
    let Some((op, rest)) = step_after(mode, &bare.tree, source.rest) else {
        return bare;
    };
    source.go_on(rest);
    let Some(inner) = part(source, bare) else {
        return length();
    };
    Deep {
        tree: Expr::PostStep(op, inner.tree),
        depth: above(inner.depth),
    }
}

/// An operand and the step after it, if they may stand there, where these tokens begin with it.
#[inline(never)]
pub(crate) fn fitted<'a>(
    source: &mut Source<'a>,
    limit: u32,
    mode: Mode,
    bare: Deep,
    start: &'a [Token<'a>],
) -> Deep
    ensures { Parsed (view result.tree) (at source.old) (at source.new)
        (λ ts. fitted_at limit (view_mode mode) (view bare.tree, ts)) }
{
    let first = with_step(source, mode, bare);
    if !fits(mode, &first.tree) {
        source.refuse(stopped(start));
    }
    bounded(source, limit, &first);
    first
}

/// A call of a built-in function, if it takes these arguments, where these tokens begin with them.
#[inline(never)]
pub(crate) fn suited<'a>(
    source: &mut Source<'a>,
    function: Builtin,
    arguments: DeepList,
    start: &'a [Token<'a>],
) -> Deep
    ensures { Parsed (view result.tree) (at source.old) (at source.new)
        (λ ts. suited function (views arguments.trees.items, ts)) }
{
    if !suits(function, &arguments.trees) {
        source.refuse(stopped(start));
    }
    application(function, arguments)
}

/// A built-in function without parentheses.
#[inline(never)]
pub(crate) fn bare(source: &mut Source<'_>, function: Builtin) -> Deep
    ensures { Parsed (view result.tree) (at source.old) (at source.new) (bare function) }
{
    if !matches!(function, Builtin::Length) {
        source.refuse(stopped(source.rest));
    }
    length()
}
