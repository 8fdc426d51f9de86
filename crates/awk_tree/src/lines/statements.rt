//! How many tokens stand before each place of statements, in the order of the module's code.
ghost use Rattle.std.specs.Prelude.{◌≡◌, [], ◌∷◌, ◌++◌, IfOk, OnOk, length};
ghost use Rattle.awk_grammar.specs.Token.{Key, WhileWord};
ghost use Rattle.awk_grammar.specs.Stmt.{print_stmt, print_stmts};
ghost use Rattle.awk_grammar.specs.Trees.{Jumping};
ghost use Rattle.awk_grammar.specs.Item.{print_body};
ghost use Rattle.awk_tree.specs.Lexemes.{lexemes};
ghost use Rattle.awk_grammar.specs.View.{view};
ghost use Rattle.awk_grammar.specs.ViewStmt.{view_jump, view_maybe, view_maybe_simple, view_stmt, view_stmts};
ghost use Rattle.awk_tree.specs.Lines.{action_places, condition, last_of, stmt_places, stmts_places, to_body, to_first, to_last, to_test};

use crate::printer_stmt::{
    push_condition, push_ended, push_jump, push_leave, push_optional, push_optional_simple,
    push_walk_head,
};
use crate::writing::{mark, word};
use awk_grammar::{Expr, Jump, Printed, SimpleStmt, Stmt};
use awk_tokens::{Keyword, Punctuator};
use std::alloc::AllocError;

/// The next place is here.
pub(crate) fn here(tokens: &[Printed<'_>], places: &mut Vec<usize>) -> Result<(), AllocError>
    ensures { OnOk result (places.new.items ≡ places.old.items ++ length (lexemes tokens.now) ∷ []) }
{
    places.push(tokens.len())?;
    Ok(())
}

/// The next place is where so many tokens stood.
pub(crate) fn there(before: usize, places: &mut Vec<usize>) -> Result<(), AllocError>
    ensures { OnOk result (places.new.items ≡ places.old.items ++ before ∷ []) }
{
    places.push(before)?;
    Ok(())
}

/// The head of a `for`, with the places of its first part and of its test; the answer is where its third part stands.
fn for_head<'a>(
    tokens: &mut Vec<Printed<'a>>,
    places: &mut Vec<usize>,
    first: &'a Option<SimpleStmt>,
    condition: &'a Option<Expr>,
    next: &'a Option<SimpleStmt>,
) -> Result<usize, AllocError>
    ensures tokens { OnOk result (lexemes tokens.new.items ≡ to_body (lexemes tokens.old.items)
        (view_maybe_simple first.now) (view_maybe condition.now) (view_maybe_simple next.now)) }
    ensures last { IfOk result (λ last. last ≡ length (to_last (lexemes tokens.old.items)
        (view_maybe_simple first.now) (view_maybe condition.now))) }
    ensures places { OnOk result (places.new.items ≡ places.old.items
        ++ (length (to_first (lexemes tokens.old.items))
        ∷ (length (to_test (lexemes tokens.old.items) (view_maybe_simple first.now)) ∷ []))) }
{
    word(tokens, Keyword::For)?;
    mark(tokens, Punctuator::OpenParen)?;
    here(tokens, places)?;
    push_optional_simple(tokens, first)?;
    mark(tokens, Punctuator::Semicolon)?;
    here(tokens, places)?;
    push_optional(tokens, condition)?;
    mark(tokens, Punctuator::Semicolon)?;
    let last = tokens.len();
    push_optional_simple(tokens, next)?;
    mark(tokens, Punctuator::CloseParen)?;
    Ok(last)
}

/// What comes last in a `for`, if there is anything.
fn for_last(
    places: &mut Vec<usize>,
    last: usize,
    next: &Option<SimpleStmt>,
) -> Result<(), AllocError>
    ensures { OnOk result (places.new.items
        ≡ places.old.items ++ last_of last (view_maybe_simple next.now)) }
{
    match next {
        Some(_) => there(last, places),
        None => Ok(()),
    }
}

/// A jump and its places.
fn jump_places(
    tokens: &mut Vec<Printed>,
    places: &mut Vec<usize>,
    jump: Jump,
) -> Result<(), AllocError>
    ensures tokens { OnOk result (lexemes tokens.new.items ≡ lexemes tokens.old.items
        ++ print_stmt (Jumping (view_jump jump))) }
    ensures places { OnOk result (places.new.items ≡ places.old.items
        ++ stmt_places (lexemes tokens.old.items) (Jumping (view_jump jump))) }
{
    here(tokens, places)?;
    if let Jump::NextFile = jump {
        here(tokens, places)?;
        here(tokens, places)?;
    }
    push_jump(tokens, jump)
}

/// The end of a `do`, whose test has two places.
fn do_end<'a>(
    tokens: &mut Vec<Printed<'a>>,
    places: &mut Vec<usize>,
    c: &'a Expr,
) -> Result<(), AllocError>
    ensures tokens { OnOk result (lexemes tokens.new.items ≡ lexemes tokens.old.items
        ++ condition (Key WhileWord) (view c.now)) }
    ensures places { OnOk result (places.new.items ≡ places.old.items
        ++ (length (lexemes tokens.old.items) ∷ (length (lexemes tokens.old.items) ∷ []))) }
{
    here(tokens, places)?;
    here(tokens, places)?;
    push_condition(tokens, Keyword::While, c)
}

/// The places of a statement: its own first, then those of what stands in it.
#[cycle(walk)]
fn statement<'a>(
    tokens: &mut Vec<Printed<'a>>,
    places: &mut Vec<usize>,
    s: &'a Stmt,
) -> Result<(), AllocError>
    ensures tokens { OnOk result (lexemes tokens.new.items ≡ lexemes tokens.old.items
        ++ print_stmt (view_stmt s.now)) }
    ensures places { OnOk result (places.new.items ≡ places.old.items
        ++ stmt_places (lexemes tokens.old.items) (view_stmt s.now)) }
{
    match s {
        Stmt::Block(body) => action(tokens, places, body),
        Stmt::Empty => {
            here(tokens, places)?;
            mark(tokens, Punctuator::Semicolon)
        }
        Stmt::Simple(simple) => {
            here(tokens, places)?;
            push_ended(tokens, simple)
        }
        Stmt::If(c, s) => {
            let start = tokens.len();
            here(tokens, places)?;
            push_condition(tokens, Keyword::If, c)?;
            statement(tokens, places, s)?;
            there(start, places)
        }
        Stmt::IfElse(c, s, t) => {
            here(tokens, places)?;
            push_condition(tokens, Keyword::If, c)?;
            statement(tokens, places, s)?;
            word(tokens, Keyword::Else)?;
            statement(tokens, places, t)
        }
        Stmt::While(c, s) => {
            here(tokens, places)?;
            push_condition(tokens, Keyword::While, c)?;
            statement(tokens, places, s)
        }
        Stmt::Do(s, c) => {
            here(tokens, places)?;
            word(tokens, Keyword::Do)?;
            statement(tokens, places, s)?;
            do_end(tokens, places, c)
        }
        Stmt::For(first, c, next, s) => {
            here(tokens, places)?;
            let last = for_head(tokens, places, first, c, next)?;
            statement(tokens, places, s)?;
            for_last(places, last, next)
        }
        Stmt::ForIn(key, array, s) => {
            here(tokens, places)?;
            push_walk_head(tokens, key, array)?;
            statement(tokens, places, s)
        }
        Stmt::Jump(jump) => jump_places(tokens, places, *jump),
        Stmt::Leave(leaving, e) => {
            here(tokens, places)?;
            push_leave(tokens, *leaving, e)
        }
    }
}

/// The places of statements, one after the other.
#[cycle(walk)]
pub(crate) fn statements<'a>(
    tokens: &mut Vec<Printed<'a>>,
    places: &mut Vec<usize>,
    body: &'a [Stmt],
) -> Result<(), AllocError>
    ensures tokens { OnOk result (lexemes tokens.new.items ≡ lexemes tokens.old.items
        ++ print_stmts (view_stmts body.now)) }
    ensures places { OnOk result (places.new.items ≡ places.old.items
        ++ stmts_places (lexemes tokens.old.items) (view_stmts body.now)) }
{
    for s in body {
        statement(tokens, places, s)?;
    }
    Ok(())
}

/// An action: a place of its own, and those of its statements.
#[cycle(walk)]
pub(crate) fn action<'a>(
    tokens: &mut Vec<Printed<'a>>,
    places: &mut Vec<usize>,
    body: &'a [Stmt],
) -> Result<(), AllocError>
    ensures tokens { OnOk result (lexemes tokens.new.items ≡ lexemes tokens.old.items
        ++ print_body (view_stmts body.now)) }
    ensures places { OnOk result (places.new.items ≡ places.old.items
        ++ action_places (lexemes tokens.old.items) (view_stmts body.now)) }
{
    here(tokens, places)?;
    mark(tokens, Punctuator::OpenBrace)?;
    statements(tokens, places, body)?;
    mark(tokens, Punctuator::CloseBrace)
}
