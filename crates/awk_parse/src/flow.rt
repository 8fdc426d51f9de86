//! Statements.
//!
//! One call of this file waits within another for each level of a script. So a waiting call holds trees of statements in boxes alone, and what it does beside
//! reading a statement stands in functions that are not inlined: else their places would be a part of its frame.

ghost use Rattle.std.specs.Prelude.{length};
ghost use Rattle.awk_grammar.specs.Reading.{expr_at};
ghost use Rattle.awk_grammar.specs.ReadStmt.{stmts_at, if_at, simple_at, stmt_at};
ghost use Rattle.awk_grammar.specs.ViewStmt.{view_stmt, view_stmts};
ghost use Rattle.awk_parse.specs.Parsed.{at, Parsed};
ghost use Rattle.awk_parse.specs.Bodies.{Held, view_boxed, looped_at, short_at, ended_at};

use crate::head::{Lead, loop_lead};
use crate::mark::{Mark, after};
use crate::peek::{line_of, stopped};
use crate::refusal::Refusal;
use crate::source::Source;
use crate::statement_node::{block_of, both, closed, on_heap};
use crate::statement_start::{LoopWord, Short, StmtStart, stmt_start};
use crate::stmt::{condition, optional, simple};
use awk_grammar::Stmt;

/// A statement of at most this depth; none where reading stopped.
#[cycle(flow)]
#[inline(never)]
pub(crate) fn statement(source: &mut Source<'_>, limit: u32) -> Option<Box<Stmt>>
    ensures read { Parsed (view_boxed result) (at source.old) (at source.new) (stmt_at limit) }
    ensures held { Held result (at source.new) }
{
    if limit == 0 {
        source.refuse(Refusal::TooDeep(line_of(source.rest)));
        return None;
    }
    let limit = limit - 1;
    match stmt_start(source.rest) {
        StmtStart::Block(rest) => {
            source.go_on(rest);
            let inner = statements(source, limit);
            block_of(source, inner)
        }
        StmtStart::If(rest) => {
            source.go_on(rest);
            if_statement(source, limit)
        }
        StmtStart::Loop(word, rest) => {
            source.go_on(rest);
            loop_statement(source, limit, word)
        }
        StmtStart::Short(start, rest) => {
            source.go_on(rest);
            short(source, limit, start)
        }
        StmtStart::Simple => simple_statement(source, limit),
    }
}

/// Statements and the brace that closes them.
#[cycle(flow)]
#[inline(never)]
pub(crate) fn statements(source: &mut Source<'_>, limit: u32) -> Vec<Stmt>
    ensures { Parsed (view_stmts result.items) (at source.old) (at source.new)
        (λ ts. stmts_at (stmt_at limit) (length ts) ts) }
{
    let mut read = Vec::new(source.alloc);
    let turns = source.rest.len();
    for _ in 0..turns {
        if let Some(rest) = after(Mark::CloseBrace, source.rest) {
            source.go_on(rest);
            return read;
        }
        let Some(next) = statement(source, limit) else {
            return read;
        };
        source.push_boxed(&mut read, next);
    }
    source.refuse(stopped(source.rest));
    read
}

/// What stands after `if`.
#[cycle(flow)]
#[inline(never)]
fn if_statement(source: &mut Source<'_>, limit: u32) -> Option<Box<Stmt>>
    ensures read { Parsed (view_boxed result) (at source.old) (at source.new)
        (if_at (expr_at limit) (stmt_at limit)) }
    ensures held { Held result (at source.new) }
{
    let test = condition(source, limit);
    let then = statement(source, limit);
    let Some(rest) = after(Mark::Else, source.rest) else {
        return closed(source, limit, Lead::If(test), then);
    };
    let (test, then) = both(test, then)?;
    source.go_on(rest);
    let otherwise = statement(source, limit);
    closed(source, limit, Lead::Else(test, then), otherwise)
}

/// What stands after `while`, `do` or `for`.
#[cycle(flow)]
#[inline(never)]
fn loop_statement(source: &mut Source<'_>, limit: u32, word: LoopWord) -> Option<Box<Stmt>>
    ensures read { Parsed (view_boxed result) (at source.old) (at source.new)
        (looped_at (expr_at limit) (stmt_at limit) word) }
    ensures held { Held result (at source.new) }
{
    let lead = loop_lead(source, limit, word);
    let body = statement(source, limit);
    closed(source, limit, lead, body)
}

/// What stands after the word of a statement that is only a word and at most an expression.
#[inline(never)]
fn short(source: &mut Source<'_>, limit: u32, start: Short) -> Option<Box<Stmt>>
    ensures read { Parsed (view_boxed result) (at source.old) (at source.new)
        (short_at (expr_at limit) start) }
    ensures held { Held result (at source.new) }
{
    match start {
        Short::Empty => on_heap(source, Stmt::Empty),
        Short::Jump(kind) => ended(source, Stmt::Jump(kind)),
        Short::Leave(kind) => {
            let value = optional(source, limit);
            ended(source, Stmt::Leave(kind, value))
        }
    }
}

#[inline(never)]
fn simple_statement(source: &mut Source<'_>, limit: u32) -> Option<Box<Stmt>>
    ensures read { Parsed (view_boxed result) (at source.old) (at source.new)
        (simple_at (expr_at limit)) }
    ensures held { Held result (at source.new) }
{
    let inner = simple(source, limit);
    ended(source, Stmt::Simple(inner))
}

/// A statement, and the `;` that ends it.
fn ended(source: &mut Source<'_>, statement: Stmt) -> Option<Box<Stmt>>
    ensures read { Parsed (view_boxed result) (at source.old) (at source.new)
        (ended_at (view_stmt statement)) }
    ensures held { Held result (at source.new) }
{
    source.expect(Mark::Semicolon);
    on_heap(source, statement)
}
