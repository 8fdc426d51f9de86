//! What stands before the statement within another.

ghost use Rattle.awk_grammar.specs.Reading.{expr_at};
ghost use Rattle.awk_parse.specs.Parsed.{at, Parsed};
ghost use Rattle.awk_parse.specs.Bodies.{view_lead, lead_by, keyed_at, counted_at};

use crate::mark::Mark;
use crate::source::Source;
use crate::statement_peek::keys;
use crate::statement_start::LoopWord;
use crate::stmt::{condition, optional, optional_simple};
use awk_grammar::{Expr, SimpleStmt, Stmt};

/// What a counted loop does first, its condition, and what it does after each turn.
#[derive(Drop)]
pub(crate) struct Head {
    pub(crate) first: Option<SimpleStmt>,
    pub(crate) test: Option<Expr>,
    pub(crate) step: Option<SimpleStmt>,
}

/// What stands before the statement within another. What a counted loop has there is boxed, since it is held while the statement is read.
#[derive(Drop)]
pub(crate) enum Lead {
    If(Expr),
    /// The condition of an `if`, and its first statement.
    Else(Expr, Box<Stmt>),
    While(Expr),
    Do,
    Keys(Vec<u8>, Vec<u8>),
    Counted(Box<Head>),
}

/// What stands between the word of a loop and its body.
#[inline(never)]
pub(crate) fn loop_lead(source: &mut Source<'_>, limit: u32, word: LoopWord) -> Lead
    ensures { Parsed (view_lead result) (at source.old) (at source.new)
        (lead_by (expr_at limit) word) }
{
    match word {
        LoopWord::While => Lead::While(condition(source, limit)),
        LoopWord::Do => Lead::Do,
        LoopWord::For => {
            source.expect(Mark::Open);
            keyed(source, limit)
        }
    }
}

/// What stands between `for (` and the body.
fn keyed(source: &mut Source<'_>, limit: u32) -> Lead
    ensures { Parsed (view_lead result) (at source.old) (at source.new) (keyed_at (expr_at limit)) }
{
    let Some((key, array, rest)) = keys(source.rest) else {
        return counted(source, limit);
    };
    source.go_on(rest);
    let key = source.copied(key);
    let array = source.copied(array);
    Lead::Keys(key, array)
}

/// What stands between `for (` and the body of a counted loop.
fn counted(source: &mut Source<'_>, limit: u32) -> Lead
    ensures { Parsed (view_lead result) (at source.old) (at source.new)
        (counted_at (expr_at limit)) }
{
    let first = optional_simple(source, limit);
    source.expect(Mark::Semicolon);
    let test = optional(source, limit);
    source.expect(Mark::Semicolon);
    let step = optional_simple(source, limit);
    source.expect(Mark::Close);
    match source.boxed(Head { first, test, step }) {
        Some(head) => Lead::Counted(head),
        None => Lead::Do,
    }
}
