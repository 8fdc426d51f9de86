//! Statements that hold others, on the heap.

ghost use Rattle.std.specs.Prelude.{◌≡◌, MatchOption, None, Some};
ghost use Rattle.awk_grammar.specs.Reading.{expr_at};
ghost use Rattle.awk_grammar.specs.Trees.{Block};
ghost use Rattle.awk_grammar.specs.ViewStmt.{view_stmt, view_stmts};
ghost use Rattle.awk_parse.specs.Parsed.{at, Parsed, is_read};
ghost use Rattle.awk_parse.specs.Bodies.{Held, view_boxed, view_lead, closed_at};

use crate::head::{Head, Lead};
use crate::mark::Mark;
use crate::source::Source;
use crate::stmt::condition;
use awk_grammar::Stmt;

/// A statement on the heap; none where reading stopped.
#[inline(never)]
pub(crate) fn on_heap(source: &mut Source<'_>, statement: Stmt) -> Option<Box<Stmt>>
    ensures read { Parsed (view_boxed result) (at source.old) (at source.new)
        (is_read (view_stmt statement)) }
    ensures held { Held result (at source.new) }
{
    source.boxed(statement)
}

#[inline(never)]
pub(crate) fn block_of(source: &mut Source<'_>, inner: Vec<Stmt>) -> Option<Box<Stmt>>
    ensures read { Parsed (view_boxed result) (at source.old) (at source.new)
        (is_read (Block (view_stmts inner.items))) }
    ensures held { Held result (at source.new) }
{
    on_heap(source, Stmt::Block(inner))
}

/// What is held, and what was read after it; none where reading stopped, and what is held is let go.
pub(crate) fn both<T: Drop, U>(held: T, read: Option<U>) -> Option<(T, U)>
    ensures { MatchOption result (read ≡ None) (λ x. (x.0 ≡ held) × (read ≡ Some x.1)) }
{
    match read {
        Some(read) => Some((held, read)),
        None => None,
    }
}

/// A statement with another within, from what stands before that one.
#[inline(never)]
pub(crate) fn closed(
    source: &mut Source<'_>,
    limit: u32,
    lead: Lead,
    body: Option<Box<Stmt>>,
) -> Option<Box<Stmt>>
    requires { Held body (at source.old) }
    ensures read { Parsed (view_boxed result) (at source.old) (at source.new)
        (closed_at (expr_at limit) (view_lead lead) (view_boxed body)) }
    ensures held { Held result (at source.new) }
{
    let (lead, body) = both(lead, body)?;
    match lead {
        Lead::If(test) => on_heap(source, Stmt::If(test, body)),
        Lead::Else(test, then) => on_heap(source, Stmt::IfElse(test, then, body)),
        Lead::While(test) => on_heap(source, Stmt::While(test, body)),
        Lead::Do => {
            source.expect(Mark::While);
            let test = condition(source, limit);
            on_heap(source, Stmt::Do(body, test))
        }
        Lead::Keys(key, array) => on_heap(source, Stmt::ForIn(key, array, body)),
        Lead::Counted(head) => {
            let Head { first, test, step } = Box::into_inner(head);
            on_heap(source, Stmt::For(first, test, step, body))
        }
    }
}
