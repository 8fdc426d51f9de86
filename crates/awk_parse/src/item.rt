//! Items and scripts.

ghost use Rattle.std.specs.Prelude.{true, length, map};
ghost use Rattle.awk_tokens.specs.Views.{spelled};
ghost use Rattle.awk_grammar.specs.Trees.{most_depth};
ghost use Rattle.awk_grammar.specs.Lexeme.{spoken_after};
ghost use Rattle.awk_grammar.specs.ReadItem.{body_at, names_at, params_at, function_at, pattern_at, rule_at, item_at, script_at};
ghost use Rattle.awk_grammar.specs.ViewStmt.{view_names, view_pattern, view_item, view_items, view_stmts};
ghost use Rattle.awk_parse.specs.Seen.{seen, Gives};
ghost use Rattle.awk_parse.specs.Parsed.{stands, at, Parsed, Ends};
ghost use Rattle.awk_parse.specs.Names.{with_names};

use crate::expr::expression;
use crate::flow::statements;
use crate::mark::{Mark, after};
use crate::mode::Mode;
use crate::peek::{after_name, stopped};
use crate::refusal::Refusal;
use crate::source::Source;
use crate::statement_peek::after_function_name;
use crate::statement_start::{ItemStart, item_start, taken};
use awk_grammar::{Item, MAX_DEPTH, Pattern, Stmt};
use awk_tokens::Token;
use std::alloc::Global;

/// Statements in braces.
fn body(source: &mut Source<'_>) -> Vec<Stmt>
    ensures { Parsed (view_stmts result.items) (at source.old) (at source.new)
        (body_at most_depth) }
{
    let Some(rest) = after(Mark::OpenBrace, source.rest) else {
        source.refuse(stopped(source.rest));
        return Vec::new(source.alloc);
    };
    source.go_on(rest);
    statements(source, MAX_DEPTH)
}

/// The parameters of a function.
fn params(source: &mut Source<'_>) -> Vec<Vec<u8>>
    ensures { Parsed (view_names result.items) (at source.old) (at source.new) params_at }
{
    let mut names = Vec::new(source.alloc);
    let Some((first, rest)) = after_name(source.rest) else {
        return names;
    };
    source.go_on(rest);
    let first = source.copied(first);
    source.push(&mut names, first);
    others(source, names)
}

/// Names, and those that follow, each after a comma.
fn others(source: &mut Source<'_>, front: Vec<Vec<u8>>) -> Vec<Vec<u8>>
    ensures { Parsed (view_names result.items) (at source.old) (at source.new)
        (λ ts. with_names (view_names front.items) (names_at (length ts) ts)) }
{
    let mut names = front;
    let turns = source.rest.len();
    for _ in 0..turns {
        let Some(rest) = after(Mark::Comma, source.rest) else {
            return names;
        };
        source.go_on(rest);
        let next = source.name();
        source.push(&mut names, next);
    }
    names
}

/// What stands after `function`, where a name may also be one directly before `(`.
fn function<'a>(source: &mut Source<'a>, tokens: &'a [Token<'a>]) -> Item
    ensures { Parsed (view_item result)
        (stands (spoken_after true (map spelled tokens.now)) source.old.refused) (at source.new)
        (function_at most_depth) }
{
    let Some((name, rest)) = after_function_name(tokens) else {
        source.refuse(stopped(tokens));
        return Item::Empty;
    };
    source.go_on(rest);
    source.expect(Mark::Open);
    let parameters = params(source);
    source.expect(Mark::Close);
    let action = body(source);
    let name = source.copied(name);
    Item::Function(name, parameters, action)
}

/// A pattern.
fn pattern(source: &mut Source<'_>) -> Pattern
    ensures { Parsed (view_pattern result) (at source.old) (at source.new)
        (pattern_at most_depth) }
{
    let first = expression(source, MAX_DEPTH, true, Mode::Whole);
    let Some(rest) = after(Mark::Comma, source.rest) else {
        return Pattern::One(first);
    };
    source.go_on(rest);
    let last = expression(source, MAX_DEPTH, true, Mode::Whole);
    Pattern::Range(first, last)
}

/// A pattern, and its action or a `;`.
fn rule(source: &mut Source<'_>) -> Item
    ensures { Parsed (view_item result) (at source.old) (at source.new) (rule_at most_depth) }
{
    let condition = pattern(source);
    let Some(rest) = after(Mark::Semicolon, source.rest) else {
        let action = body(source);
        return Item::Rule(condition, action);
    };
    source.go_on(rest);
    Item::PatternOnly(condition)
}

/// An item.
fn item(source: &mut Source<'_>) -> Item
    ensures { Parsed (view_item result) (at source.old) (at source.new) (item_at most_depth) }
{
    match item_start(source.rest) {
        ItemStart::Function(rest) => function(source, rest),
        ItemStart::Action(when, rest) => {
            source.go_on(rest);
            taken(when, body(source))
        }
        ItemStart::Nothing(rest) => {
            source.go_on(rest);
            Item::Empty
        }
        ItemStart::Rule => rule(source),
    }
}

/// The items that are left.
fn all_items(source: &mut Source<'_>) -> Vec<Item>
    ensures { Ends (view_items result.items) (at source.old) (at source.new)
        (script_at most_depth) }
{
    let mut read = Vec::new(source.alloc);
    let turns = source.rest.len() + 1;
    for _ in 0..turns {
        if source.rest.is_empty() {
            return read;
        }
        let next = item(source);
        source.push(&mut read, next);
    }
    source.refuse(stopped(source.rest));
    read
}

/// The items of a script.
pub fn items<'a>(alloc: Global, tokens: &'a [Token<'a>]) -> Result<Vec<Item>, Refusal>
    ensures { Gives (λ x. view_items x.items) result (script_at most_depth (seen tokens.now)) }
{
    let mut source = Source {
        alloc,
        rest: tokens,
        refused: None,
    };
    let read = all_items(&mut source);
    match source.refused {
        Some(refusal) => Err(refusal),
        None => Ok(read),
    }
}
