//! Whether statements and items are well formed.

ghost use Rattle.std.specs.Prelude.{◌≡◌, ◌↔◌, IsTrue, true, map};
ghost use Rattle.awk_grammar.specs.Item.{IsScript};
ghost use Rattle.awk_grammar.specs.Stmt.{dangles};
ghost use Rattle.awk_grammar.specs.WellFormed.{well_formed, are_args, is_target, is_plain, is_maybe, is_maybe_plain, is_stmt, are_stmts, is_pattern, is_item, is_script};
ghost use Rattle.awk_grammar.specs.View.{view};
ghost use Rattle.awk_grammar.specs.ViewStmt.{view_word, view_args, view_target, view_simple, view_maybe, view_maybe_simple, view_stmt, view_stmts, view_pattern, view_item, view_items, view_script};

use crate::check::{are_fine, are_some, are_subscripts, is_fine};
use awk_grammar::{
    Expr, Item, Pattern, PrintArgs, PrintTarget, PrintWord, Script, SimpleStmt, Stmt, level,
};

fn are_print_args(word: PrintWord, args: &PrintArgs) -> bool
    ensures { result ≡ are_args (view_word word) (view_args args.now) }
{
    match args {
        PrintArgs::Bare => matches!(word, PrintWord::Print),
        PrintArgs::Listed(es) => are_some(es) && are_fine(false, es),
        PrintArgs::Enclosed(first, others) => is_fine(true, first) && are_subscripts(others),
    }
}

fn is_print_target(target: &PrintTarget) -> bool
    ensures { result ≡ is_target (view_target target.now) }
{
    match target {
        PrintTarget::Output => true,
        PrintTarget::File(e) | PrintTarget::FileEnd(e) => level(e) >= 6 && is_fine(true, e),
    }
}

fn is_simple(simple: &SimpleStmt) -> bool
    ensures { result ≡ is_plain (view_simple simple.now) }
{
    match simple {
        SimpleStmt::Eval(e) => is_fine(true, e),
        SimpleStmt::Print(word, args, target) => {
            are_print_args(*word, args) && is_print_target(target)
        }
        SimpleStmt::Delete(_, subscripts) => are_subscripts(subscripts),
        SimpleStmt::Clear(_) => true,
    }
}

fn is_optional(e: &Option<Expr>) -> bool
    ensures { result ≡ is_maybe (view_maybe e.now) }
{
    match e {
        None => true,
        Some(e) => is_fine(true, e),
    }
}

fn is_optional_simple(simple: &Option<SimpleStmt>) -> bool
    ensures { result ≡ is_maybe_plain (view_maybe_simple simple.now) }
{
    match simple {
        None => true,
        Some(simple) => is_simple(simple),
    }
}

/// Whether a statement ends in an `if` without `else`.
fn dangles(s: &Stmt) -> bool
    ensures { result ≡ dangles (view_stmt s.now) }
{
    match s {
        Stmt::If(_, _) => true,
        Stmt::IfElse(_, _, last)
        | Stmt::While(_, last)
        | Stmt::For(_, _, _, last)
        | Stmt::ForIn(_, _, last) => dangles(last),
        Stmt::Block(_)
        | Stmt::Empty
        | Stmt::Simple(_)
        | Stmt::Do(_, _)
        | Stmt::Jump(_)
        | Stmt::Leave(_, _) => false,
    }
}

#[cycle(check_stmt)]
fn is_statement(s: &Stmt) -> bool
    ensures { result ≡ is_stmt (view_stmt s.now) }
{
    match s {
        Stmt::Block(body) => are_statements(body),
        Stmt::Empty | Stmt::Jump(_) => true,
        Stmt::Simple(simple) => is_simple(simple),
        Stmt::If(c, s) | Stmt::While(c, s) => is_fine(true, c) && is_statement(s),
        Stmt::IfElse(c, s, t) => {
            !dangles(s) && is_fine(true, c) && is_statement(s) && is_statement(t)
        }
        Stmt::Do(s, c) => is_statement(s) && is_fine(true, c),
        Stmt::For(first, c, next, s) => {
            is_optional_simple(first)
                && is_optional(c)
                && is_optional_simple(next)
                && is_statement(s)
        }
        Stmt::ForIn(_, _, s) => is_statement(s),
        Stmt::Leave(_, e) => is_optional(e),
    }
}

#[cycle(check_stmt)]
fn are_statements(body: &[Stmt]) -> bool
    ensures { result ≡ are_stmts (view_stmts body.now) }
{
    for s in body {
        if !is_statement(s) {
            return false;
        }
    }
    true
}

fn is_item_pattern(pattern: &Pattern) -> bool
    ensures { result ≡ is_pattern (view_pattern pattern.now) }
{
    match pattern {
        Pattern::One(e) => is_fine(true, e),
        Pattern::Range(first, last) => is_fine(true, first) && is_fine(true, last),
    }
}

fn is_script_item(item: &Item) -> bool
    ensures { result ≡ is_item (view_item item.now) }
{
    match item {
        Item::Function(_, _, body) | Item::Begin(body) | Item::End(body) | Item::Action(body) => {
            are_statements(body)
        }
        Item::Rule(pattern, body) => is_item_pattern(pattern) && are_statements(body),
        Item::PatternOnly(pattern) => is_item_pattern(pattern),
        Item::Empty => true,
    }
}

/// Whether a script is well formed: at each node the operands have their levels and the conditions of the grammar
/// hold, and built-in functions have the arguments that they take. It takes no memory.
pub fn is_well_formed(script: &Script) -> bool
    ensures { IsTrue result ↔ IsScript (view_script script.now) }
{
    are_items(&script.items)
}

fn are_items(items: &[Item]) -> bool
    ensures { result ≡ is_script (view_items items.now) }
{
    for item in items {
        if !is_script_item(item) {
            return false;
        }
    }
    true
}
