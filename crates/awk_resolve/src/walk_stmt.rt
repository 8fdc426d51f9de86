//! The marks of a script.

ghost use Rattle.std.specs.Prelude.{◌≡◌, IfOk};
ghost use Rattle.awk_grammar.specs.ViewStmt.{view_args, view_target, view_simple, view_maybe, view_maybe_simple, view_stmt, view_stmts, view_pattern, view_names, view_item, view_script};
ghost use Rattle.awk_grammar.specs.Marks.{args_marks, target_marks, plain_marks, maybe_marks, maybe_plain_marks, stmt_marks, stmts_marks, pattern_marks, parameter_marks, item_marks, script_marks};
ghost use Rattle.awk_resolve.specs.View.{view_marks, view_place, AddsMarks};

use crate::mark::{Kind, Mark};
use crate::mark_list::{Marks, put};
use crate::walk::{push_all, push_element, push_expr};
use awk_grammar::{Expr, Item, Pattern, PrintArgs, PrintTarget, Script, SimpleStmt, Stmt};
use latched::LatchedVec;
use std::alloc::{AllocError, Global};

fn push_args<'a>(out: &mut Marks<'a>, place: Option<&'a [u8]>, args: &'a PrintArgs)
    ensures { AddsMarks out.old out.new (args_marks (view_place place.entry) (view_args args.now)) }
{
    match args {
        PrintArgs::Bare => {}
        PrintArgs::Listed(es) => push_all(out, place, es),
        PrintArgs::Enclosed(first, others) => {
            push_expr(out, place, first);
            push_all(out, place, others);
        }
    }
}

fn push_target<'a>(out: &mut Marks<'a>, place: Option<&'a [u8]>, target: &'a PrintTarget)
    ensures { AddsMarks out.old out.new
        (target_marks (view_place place.entry) (view_target target.now)) }
{
    match target {
        PrintTarget::Output => {}
        PrintTarget::File(e) | PrintTarget::FileEnd(e) => push_expr(out, place, e),
    }
}

fn push_simple<'a>(out: &mut Marks<'a>, place: Option<&'a [u8]>, simple: &'a SimpleStmt)
    ensures { AddsMarks out.old out.new
        (plain_marks (view_place place.entry) (view_simple simple.now)) }
{
    match simple {
        SimpleStmt::Eval(e) => push_expr(out, place, e),
        SimpleStmt::Print(_, args, target) => {
            push_args(out, place, args);
            push_target(out, place, target);
        }
        SimpleStmt::Delete(name, subscripts) => push_element(out, place, name, subscripts),
        SimpleStmt::Clear(name) => put(out, Mark::Used(Kind::Array, place, name)),
    }
}

fn push_optional<'a>(out: &mut Marks<'a>, place: Option<&'a [u8]>, e: &'a Option<Expr>)
    ensures { AddsMarks out.old out.new (maybe_marks (view_place place.entry) (view_maybe e.now)) }
{
    match e {
        None => {}
        Some(e) => push_expr(out, place, e),
    }
}

fn push_optional_simple<'a>(
    out: &mut Marks<'a>,
    place: Option<&'a [u8]>,
    simple: &'a Option<SimpleStmt>,
)
    ensures { AddsMarks out.old out.new
        (maybe_plain_marks (view_place place.entry) (view_maybe_simple simple.now)) }
{
    match simple {
        None => {}
        Some(simple) => push_simple(out, place, simple),
    }
}

/// Adds the marks of a statement that stands in a place.
#[cycle(walk_stmt)]
fn push_stmt<'a>(out: &mut Marks<'a>, place: Option<&'a [u8]>, s: &'a Stmt)
    ensures { AddsMarks out.old out.new (stmt_marks (view_place place.entry) (view_stmt s.now)) }
{
    match s {
        Stmt::Block(body) => push_stmts(out, place, body),
        Stmt::Empty | Stmt::Jump(_) => {}
        Stmt::Simple(simple) => push_simple(out, place, simple),
        Stmt::If(c, s) | Stmt::While(c, s) => {
            push_expr(out, place, c);
            push_stmt(out, place, s);
        }
        Stmt::IfElse(c, s, t) => {
            push_expr(out, place, c);
            push_stmt(out, place, s);
            push_stmt(out, place, t);
        }
        Stmt::Do(s, c) => {
            push_stmt(out, place, s);
            push_expr(out, place, c);
        }
        Stmt::For(first, c, next, s) => {
            push_optional_simple(out, place, first);
            push_optional(out, place, c);
            push_optional_simple(out, place, next);
            push_stmt(out, place, s);
        }
        Stmt::ForIn(key, array, s) => {
            put(out, Mark::Used(Kind::Scalar, place, key));
            put(out, Mark::Used(Kind::Array, place, array));
            push_stmt(out, place, s);
        }
        Stmt::Leave(_, e) => push_optional(out, place, e),
    }
}

#[cycle(walk_stmt)]
fn push_stmts<'a>(out: &mut Marks<'a>, place: Option<&'a [u8]>, body: &'a [Stmt])
    ensures { AddsMarks out.old out.new (stmts_marks (view_place place.entry) (view_stmts body.now)) }
{
    for s in body {
        push_stmt(out, place, s);
    }
}

fn push_pattern<'a>(out: &mut Marks<'a>, pattern: &'a Pattern)
    ensures { AddsMarks out.old out.new (pattern_marks None (view_pattern pattern.now)) }
{
    match pattern {
        Pattern::One(e) => push_expr(out, None, e),
        Pattern::Range(first, last) => {
            push_expr(out, None, first);
            push_expr(out, None, last);
        }
    }
}

fn push_parameters<'a>(out: &mut Marks<'a>, function: &'a [u8], parameters: &'a [Vec<u8>])
    ensures { AddsMarks out.old out.new (parameter_marks function.now (view_names parameters.now)) }
{
    for name in parameters {
        put(out, Mark::Parameter(function, name));
    }
}

fn push_item<'a>(out: &mut Marks<'a>, item: &'a Item)
    ensures { AddsMarks out.old out.new (item_marks (view_item item.now)) }
{
    match item {
        Item::Function(name, parameters, body) => {
            put(out, Mark::Defined(name));
            push_parameters(out, name, parameters);
            push_stmts(out, Some(name), body);
        }
        Item::Begin(body) | Item::End(body) | Item::Action(body) => push_stmts(out, None, body),
        Item::Rule(pattern, body) => {
            push_pattern(out, pattern);
            push_stmts(out, None, body);
        }
        Item::PatternOnly(pattern) => push_pattern(out, pattern),
        Item::Empty => {}
    }
}

/// What a script says of names, from left to right.
pub(crate) fn marks_of(alloc: Global, script: &Script) -> Result<Vec<Mark<'_>>, AllocError>
    ensures { IfOk result
        (λ found. view_marks found.items ≡ script_marks (view_script script.now)) }
{
    let mut out = LatchedVec::new(alloc);
    for item in &script.items {
        push_item(&mut out, item);
    }
    out.into_vec()
}
