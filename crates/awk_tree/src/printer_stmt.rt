//! From a statement to its tokens.

ghost use Rattle.std.specs.Prelude.{◌≡◌, [], ◌∷◌, ◌++◌, OnOk};
ghost use Rattle.awk_grammar.specs.Token.{Close, DoWord, ElseWord, ForWord, InWord, Key, Name, Open, Semicolon, WhileWord};
ghost use Rattle.awk_grammar.specs.Tree.{print};
ghost use Rattle.awk_grammar.specs.Stmt.{print_args, print_target, print_plain, print_maybe, print_maybe_plain, printing_token, print_stmt, print_stmts};
ghost use Rattle.awk_grammar.specs.Trees.{jump_token, leaving_token};
ghost use Rattle.awk_grammar.specs.Item.{print_body};
ghost use Rattle.awk_grammar.specs.LexemeCases.{keyword_lexeme};
ghost use Rattle.awk_tree.specs.Lexemes.{lexemes};
ghost use Rattle.awk_grammar.specs.View.{view};
ghost use Rattle.awk_grammar.specs.ViewStmt.{view_word, view_args, view_target, view_simple, view_maybe, view_maybe_simple, view_jump, view_leaving, view_stmt, view_stmts};

use crate::writing::{
    mark, push_after, push_expr, push_in, push_list, push_listed, push_within, put, word,
};
use awk_grammar::{
    Expr, Jump, Leaving, PrintArgs, PrintTarget, PrintWord, Printed, SimpleStmt, Stmt,
};
use awk_tokens::{Keyword, Punctuator};
use std::alloc::AllocError;

fn push_args<'a>(out: &mut Vec<Printed<'a>>, args: &'a PrintArgs) -> Result<(), AllocError>
    ensures { OnOk result
        (lexemes out.new.items ≡ lexemes out.old.items ++ print_args (view_args args.now)) }
{
    match args {
        PrintArgs::Bare => Ok(()),
        PrintArgs::Listed(es) => push_list(out, es),
        PrintArgs::Enclosed(first, others) => {
            push_within(out, first, Punctuator::Comma)?;
            push_list(out, others)?;
            mark(out, Punctuator::CloseParen)
        }
    }
}

fn push_target<'a>(out: &mut Vec<Printed<'a>>, target: &'a PrintTarget) -> Result<(), AllocError>
    ensures { OnOk result
        (lexemes out.new.items ≡ lexemes out.old.items ++ print_target (view_target target.now)) }
{
    match target {
        PrintTarget::Output => Ok(()),
        PrintTarget::File(e) => push_after(out, Printed::Punctuator(Punctuator::Greater), e),
        PrintTarget::FileEnd(e) => push_after(out, Printed::Punctuator(Punctuator::Append), e),
    }
}

fn push_print_word(out: &mut Vec<Printed>, print: PrintWord) -> Result<(), AllocError>
    ensures { OnOk result
        (lexemes out.new.items ≡ lexemes out.old.items ++ printing_token (view_word print) ∷ []) }
{
    match print {
        PrintWord::Print => word(out, Keyword::Print),
        PrintWord::Printf => word(out, Keyword::Printf),
    }
}

fn push_simple<'a>(out: &mut Vec<Printed<'a>>, simple: &'a SimpleStmt) -> Result<(), AllocError>
    ensures { OnOk result
        (lexemes out.new.items ≡ lexemes out.old.items ++ print_plain (view_simple simple.now)) }
{
    match simple {
        SimpleStmt::Eval(e) => push_expr(out, e),
        SimpleStmt::Print(print, args, target) => {
            push_print_word(out, *print)?;
            push_args(out, args)?;
            push_target(out, target)
        }
        SimpleStmt::Delete(name, subscripts) => {
            word(out, Keyword::Delete)?;
            let name = Printed::Name(name);
            push_listed(
                out,
                name,
                Punctuator::OpenBracket,
                subscripts,
                Punctuator::CloseBracket,
            )
        }
        SimpleStmt::Clear(name) => {
            word(out, Keyword::Delete)?;
            put(out, Printed::Name(name))
        }
    }
}

pub(crate) fn push_optional<'a>(
    out: &mut Vec<Printed<'a>>,
    e: &'a Option<Expr>,
) -> Result<(), AllocError>
    ensures { OnOk result
        (lexemes out.new.items ≡ lexemes out.old.items ++ print_maybe (view_maybe e.now)) }
{
    match e {
        None => Ok(()),
        Some(e) => push_expr(out, e),
    }
}

pub(crate) fn push_optional_simple<'a>(
    out: &mut Vec<Printed<'a>>,
    simple: &'a Option<SimpleStmt>,
) -> Result<(), AllocError>
    ensures { OnOk result (lexemes out.new.items
        ≡ lexemes out.old.items ++ print_maybe_plain (view_maybe_simple simple.now)) }
{
    match simple {
        None => Ok(()),
        Some(simple) => push_simple(out, simple),
    }
}

/// Adds a word and a condition in parentheses.
pub(crate) fn push_condition<'a>(
    out: &mut Vec<Printed<'a>>,
    keyword: Keyword,
    e: &'a Expr,
) -> Result<(), AllocError>
    ensures { OnOk result (lexemes out.new.items ≡ lexemes out.old.items
        ++ (keyword_lexeme keyword ∷ (Open ∷ (print (view e.now) ++ Close ∷ [])))) }
{
    word(out, keyword)?;
    push_within(out, e, Punctuator::CloseParen)
}

/// Adds `for`, the parentheses after it, and what stands in them.
fn push_for_head<'a>(
    out: &mut Vec<Printed<'a>>,
    first: &'a Option<SimpleStmt>,
    condition: &'a Option<Expr>,
    next: &'a Option<SimpleStmt>,
) -> Result<(), AllocError>
    ensures { OnOk result
        (lexemes out.new.items ≡ lexemes out.old.items ++ (Key ForWord ∷ (Open ∷ (print_maybe_plain
        (view_maybe_simple first.now) ++ (Semicolon ∷ (print_maybe (view_maybe condition.now)
        ++ (Semicolon ∷ (print_maybe_plain (view_maybe_simple next.now) ++ Close ∷ [])))))))) }
{
    word(out, Keyword::For)?;
    mark(out, Punctuator::OpenParen)?;
    push_optional_simple(out, first)?;
    mark(out, Punctuator::Semicolon)?;
    push_optional(out, condition)?;
    mark(out, Punctuator::Semicolon)?;
    push_optional_simple(out, next)?;
    mark(out, Punctuator::CloseParen)
}

/// Adds `for` and the parentheses in which an array is walked.
pub(crate) fn push_walk_head<'a>(
    out: &mut Vec<Printed<'a>>,
    key: &'a [u8],
    array: &'a [u8],
) -> Result<(), AllocError>
    ensures { OnOk result (lexemes out.new.items ≡ lexemes out.old.items ++ (Key ForWord ∷ (Open
        ∷ (Name key.now ∷ (InWord ∷ (Name array.now ∷ (Close ∷ []))))))) }
{
    word(out, Keyword::For)?;
    mark(out, Punctuator::OpenParen)?;
    put(out, Printed::Name(key))?;
    push_in(out, array)?;
    mark(out, Punctuator::CloseParen)
}

fn jump_word(jump: Jump) -> Keyword
    ensures { keyword_lexeme result ≡ jump_token (view_jump jump) }
{
    match jump {
        Jump::Break => Keyword::Break,
        Jump::Continue => Keyword::Continue,
        Jump::Next => Keyword::Next,
        Jump::NextFile => Keyword::NextFile,
    }
}

fn leaving_word(leaving: Leaving) -> Keyword
    ensures { keyword_lexeme result ≡ leaving_token (view_leaving leaving) }
{
    match leaving {
        Leaving::Exit => Keyword::Exit,
        Leaving::Return => Keyword::Return,
    }
}

pub(crate) fn push_jump(out: &mut Vec<Printed>, jump: Jump) -> Result<(), AllocError>
    ensures { OnOk result (lexemes out.new.items
        ≡ lexemes out.old.items ++ (jump_token (view_jump jump) ∷ (Semicolon ∷ []))) }
{
    word(out, jump_word(jump))?;
    mark(out, Punctuator::Semicolon)
}

pub(crate) fn push_leave<'a>(
    out: &mut Vec<Printed<'a>>,
    leaving: Leaving,
    e: &'a Option<Expr>,
) -> Result<(), AllocError>
    ensures { OnOk result (lexemes out.new.items ≡ lexemes out.old.items
        ++ (leaving_token (view_leaving leaving) ∷ (print_maybe (view_maybe e.now)
        ++ (Semicolon ∷ [])))) }
{
    word(out, leaving_word(leaving))?;
    push_optional(out, e)?;
    mark(out, Punctuator::Semicolon)
}

/// Adds a simple statement and its end.
pub(crate) fn push_ended<'a>(
    out: &mut Vec<Printed<'a>>,
    simple: &'a SimpleStmt,
) -> Result<(), AllocError>
    ensures { OnOk result (lexemes out.new.items ≡ lexemes out.old.items
        ++ (print_plain (view_simple simple.now) ++ (Semicolon ∷ []))) }
{
    push_simple(out, simple)?;
    mark(out, Punctuator::Semicolon)
}

/// Adds a word, a condition in parentheses, and the statement that the condition decides on.
#[cycle(printer_stmt)]
fn push_guarded<'a>(
    out: &mut Vec<Printed<'a>>,
    keyword: Keyword,
    s: &'a Stmt,
    c: &'a Expr,
) -> Result<(), AllocError>
    ensures { OnOk result (lexemes out.new.items ≡ lexemes out.old.items
        ++ (keyword_lexeme keyword ∷ (Open ∷ (print (view c.now)
        ++ (Close ∷ print_stmt (view_stmt s.now)))))) }
{
    push_condition(out, keyword, c)?;
    push_stmt(out, s)
}

/// Adds `else` and its statement.
#[cycle(printer_stmt)]
fn push_else<'a>(out: &mut Vec<Printed<'a>>, s: &'a Stmt) -> Result<(), AllocError>
    ensures { OnOk result (lexemes out.new.items
        ≡ lexemes out.old.items ++ (Key ElseWord ∷ print_stmt (view_stmt s.now))) }
{
    word(out, Keyword::Else)?;
    push_stmt(out, s)
}

/// Adds `do`, its statement, and the condition.
#[cycle(printer_stmt)]
fn push_do<'a>(out: &mut Vec<Printed<'a>>, s: &'a Stmt, c: &'a Expr) -> Result<(), AllocError>
    ensures { OnOk result (lexemes out.new.items ≡ lexemes out.old.items
        ++ (Key DoWord ∷ (print_stmt (view_stmt s.now) ++ (Key WhileWord ∷ (Open
        ∷ (print (view c.now) ++ (Close ∷ []))))))) }
{
    word(out, Keyword::Do)?;
    push_stmt(out, s)?;
    push_condition(out, Keyword::While, c)
}

/// Adds the tokens of a statement.
#[cycle(printer_stmt)]
fn push_stmt<'a>(out: &mut Vec<Printed<'a>>, s: &'a Stmt) -> Result<(), AllocError>
    ensures { OnOk result
        (lexemes out.new.items ≡ lexemes out.old.items ++ print_stmt (view_stmt s.now)) }
{
    match s {
        Stmt::Block(body) => push_block(out, body),
        Stmt::Empty => mark(out, Punctuator::Semicolon),
        Stmt::Simple(simple) => push_ended(out, simple),
        Stmt::If(c, s) => push_guarded(out, Keyword::If, s, c),
        Stmt::IfElse(c, s, t) => {
            push_guarded(out, Keyword::If, s, c)?;
            push_else(out, t)
        }
        Stmt::While(c, s) => push_guarded(out, Keyword::While, s, c),
        Stmt::Do(s, c) => push_do(out, s, c),
        Stmt::For(first, c, next, s) => {
            push_for_head(out, first, c, next)?;
            push_stmt(out, s)
        }
        Stmt::ForIn(key, array, s) => {
            push_walk_head(out, key, array)?;
            push_stmt(out, s)
        }
        Stmt::Jump(jump) => push_jump(out, *jump),
        Stmt::Leave(leaving, e) => push_leave(out, *leaving, e),
    }
}

/// Adds statements in braces.
#[cycle(printer_stmt)]
pub fn push_block<'a>(out: &mut Vec<Printed<'a>>, body: &'a [Stmt]) -> Result<(), AllocError>
    ensures { OnOk result
        (lexemes out.new.items ≡ lexemes out.old.items ++ print_body (view_stmts body.now)) }
{
    mark(out, Punctuator::OpenBrace)?;
    push_stmts(out, body)?;
    mark(out, Punctuator::CloseBrace)
}

#[cycle(printer_stmt)]
fn push_stmts<'a>(out: &mut Vec<Printed<'a>>, body: &'a [Stmt]) -> Result<(), AllocError>
    ensures { OnOk result
        (lexemes out.new.items ≡ lexemes out.old.items ++ print_stmts (view_stmts body.now)) }
{
    for s in body {
        push_stmt(out, s)?;
    }
    Ok(())
}
