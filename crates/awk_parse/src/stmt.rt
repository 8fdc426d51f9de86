//! Simple statements: expressions, `print`, `printf` and `delete`.

ghost use Rattle.std.specs.Prelude.{◌≡◌};
ghost use Rattle.awk_grammar.specs.Reading.{expr_at};
ghost use Rattle.awk_grammar.specs.ReadStmt.{args_at, target_at, delete_at, plain_at, maybe_at, maybe_plain_at, condition_at, starts_plain};
ghost use Rattle.awk_grammar.specs.View.{view};
ghost use Rattle.awk_grammar.specs.ViewStmt.{view_word, view_args, view_target, view_simple, view_maybe, view_maybe_simple};
ghost use Rattle.awk_parse.specs.Seen.{seen};
ghost use Rattle.awk_parse.specs.Parsed.{at, Parsed, Passed};
ghost use Rattle.awk_parse.specs.Bodies.{no_in, enclosed_args_at};

use crate::expr::{expression, list};
use crate::mark::{Mark, after};
use crate::mode::Mode;
use crate::peek::{begins_expr, stopped};
use crate::source::Source;
use crate::statement_peek::is_in;
use crate::statement_start::{PlainStart, plain_start, redirected, target_of};
use awk_grammar::{Expr, PrintArgs, PrintTarget, PrintWord, SimpleStmt};
use awk_tokens::{Keyword, Token, TokenKind};

/// Refuses tokens that begin with `in`.
fn no_in(source: &mut Source<'_>)
    ensures { Passed (at source.old) (at source.new) no_in }
{
    if is_in(source.rest) {
        source.refuse(stopped(source.rest));
    }
}

/// Two expressions or more in parentheses that no `in` follows.
fn enclosed(source: &mut Source<'_>, limit: u32) -> PrintArgs
    ensures { Parsed (view_args result) (at source.old) (at source.new)
        (enclosed_args_at (expr_at limit)) }
{
    source.expect(Mark::Open);
    let first = expression(source, limit, true, Mode::Whole);
    source.expect(Mark::Comma);
    let others = list(source, limit, true);
    source.expect(Mark::Close);
    no_in(source);
    PrintArgs::Enclosed(first, others)
}

/// What is printed. The form in parentheses is tried first; where there is none, the list is read from the same place.
fn print_args(source: &mut Source<'_>, limit: u32, word: PrintWord) -> PrintArgs
    ensures { Parsed (view_args result) (at source.old) (at source.new)
        (args_at (expr_at limit) (view_word word)) }
{
    if !begins_expr(source.rest) {
        if matches!(word, PrintWord::Printf) {
            source.refuse(stopped(source.rest));
        }
        return PrintArgs::Bare;
    }
    let mut attempt = *source;
    let args = enclosed(&mut attempt, limit);
    match source.settled(attempt, args) {
        Some(args) => args,
        None => PrintArgs::Listed(list(source, limit, false)),
    }
}

/// Where it is printed.
fn print_target(source: &mut Source<'_>, limit: u32) -> PrintTarget
    ensures { Parsed (view_target result) (at source.old) (at source.new)
        (target_at (expr_at limit)) }
{
    let Some((way, rest)) = redirected(source.rest) else {
        return PrintTarget::Output;
    };
    source.go_on(rest);
    target_of(way, expression(source, limit, true, Mode::AfterCompare))
}

/// What stands after `delete`: a name and the subscripts of an element, or the name alone where all elements are deleted.
fn deletion(source: &mut Source<'_>, limit: u32) -> SimpleStmt
    ensures { Parsed (view_simple result) (at source.old) (at source.new)
        (delete_at (expr_at limit)) }
{
    let array = source.name();
    let Some(rest) = after(Mark::OpenBracket, source.rest) else {
        return SimpleStmt::Clear(array);
    };
    source.go_on(rest);
    let subscripts = list(source, limit, true);
    source.expect(Mark::CloseBracket);
    SimpleStmt::Delete(array, subscripts)
}

/// A simple statement.
pub(crate) fn simple(source: &mut Source<'_>, limit: u32) -> SimpleStmt
    ensures { Parsed (view_simple result) (at source.old) (at source.new)
        (plain_at (expr_at limit)) }
{
    match plain_start(source.rest) {
        PlainStart::Print(word, rest) => {
            source.go_on(rest);
            let args = print_args(source, limit, word);
            let target = print_target(source, limit);
            SimpleStmt::Print(word, args, target)
        }
        PlainStart::Delete(rest) => {
            source.go_on(rest);
            deletion(source, limit)
        }
        PlainStart::Value => SimpleStmt::Eval(expression(source, limit, true, Mode::Whole)),
    }
}

/// An expression, if one may begin here.
pub(crate) fn optional(source: &mut Source<'_>, limit: u32) -> Option<Expr>
    ensures { Parsed (view_maybe result) (at source.old) (at source.new)
        (maybe_at (expr_at limit)) }
{
    if !begins_expr(source.rest) {
        return None;
    }
    Some(expression(source, limit, true, Mode::Whole))
}

/// Whether a simple statement may begin here.
fn begins_simple(tokens: &[Token<'_>]) -> bool
    ensures { result ≡ starts_plain (seen tokens.now) }
{
    let [first, ..] = tokens else {
        return false;
    };
    match first.kind {
        TokenKind::Keyword(Keyword::Print | Keyword::Printf | Keyword::Delete) => true,
        _ => begins_expr(tokens),
    }
}

/// A simple statement, if one may begin here.
pub(crate) fn optional_simple(source: &mut Source<'_>, limit: u32) -> Option<SimpleStmt>
    ensures { Parsed (view_maybe_simple result) (at source.old) (at source.new)
        (maybe_plain_at (expr_at limit)) }
{
    if !begins_simple(source.rest) {
        return None;
    }
    Some(simple(source, limit))
}

/// A condition in parentheses.
pub(crate) fn condition(source: &mut Source<'_>, limit: u32) -> Expr
    ensures { Parsed (view result) (at source.old) (at source.new) (condition_at (expr_at limit)) }
{
    source.expect(Mark::Open);
    let test = expression(source, limit, true, Mode::Whole);
    source.expect(Mark::Close);
    test
}
