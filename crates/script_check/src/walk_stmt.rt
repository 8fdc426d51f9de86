//! The uses of a script.

ghost use Rattle.std.specs.Prelude.{◌≡◌, IfOk};
ghost use Rattle.awk_grammar.specs.View.{view};
ghost use Rattle.awk_grammar.specs.ViewStmt.{view_args, view_item, view_maybe, view_maybe_simple, view_names, view_pattern, view_script, view_simple, view_stmt, view_stmts, view_target};
ghost use Rattle.script_check.specs.Uses.{args_uses, item_uses, maybe_plain_uses, maybe_uses, parameter_uses, pattern_uses, plain_uses, script_uses, statement_way, stmt_uses, stmts_uses, target_uses};
ghost use Rattle.script_check.specs.View.{AddsUses, view_place, view_uses};

use crate::uses::{Deed, Use, Way};
use crate::walk::{Uses, push_all, push_element, push_expr, put};
use awk_grammar::{
    BinaryOp, Expr, Item, Pattern, PrintArgs, PrintTarget, Script, SimpleStmt, Stmt,
};
use latched::LatchedVec;
use std::alloc::{AllocError, Global};

fn push_args<'a>(out: &mut Uses<'a>, place: Option<&'a [u8]>, args: &'a PrintArgs)
    ensures { AddsUses out.old out.new (args_uses (view_place place.entry) (view_args args.now)) }
{
    match args {
        PrintArgs::Bare => {}
        PrintArgs::Listed(es) => push_all(out, place, Way::Asked, es),
        PrintArgs::Enclosed(first, others) => {
            push_expr(out, place, Way::Asked, first);
            push_all(out, place, Way::Asked, others);
        }
    }
}

fn push_target<'a>(out: &mut Uses<'a>, place: Option<&'a [u8]>, target: &'a PrintTarget)
    ensures { AddsUses out.old out.new
        (target_uses (view_place place.entry) (view_target target.now)) }
{
    match target {
        PrintTarget::Output => {}
        PrintTarget::File(e) | PrintTarget::FileEnd(e) => push_expr(out, place, Way::Asked, e),
    }
}

/// How the expression of a statement is used.
fn statement_way(e: &Expr) -> Way
    ensures { result ≡ statement_way (view e.now) }
{
    match e {
        Expr::Binary(BinaryOp::Concat, _, _) => Way::Joined,
        _ => Way::Asked,
    }
}

fn push_simple<'a>(out: &mut Uses<'a>, place: Option<&'a [u8]>, simple: &'a SimpleStmt)
    ensures { AddsUses out.old out.new
        (plain_uses (view_place place.entry) (view_simple simple.now)) }
{
    match simple {
        SimpleStmt::Eval(e) => push_expr(out, place, statement_way(e), e),
        SimpleStmt::Print(_, args, target) => {
            push_args(out, place, args);
            push_target(out, place, target);
        }
        SimpleStmt::Delete(name, subscripts) => {
            push_element(out, place, Deed::Clears, name, subscripts)
        }
        SimpleStmt::Clear(name) => put(out, place, Deed::Clears, name),
    }
}

fn push_optional<'a>(out: &mut Uses<'a>, place: Option<&'a [u8]>, way: Way, e: &'a Option<Expr>)
    ensures { AddsUses out.old out.new (maybe_uses (view_place place.entry) way (view_maybe e.now)) }
{
    match e {
        None => {}
        Some(e) => push_expr(out, place, way, e),
    }
}

fn push_optional_simple<'a>(
    out: &mut Uses<'a>,
    place: Option<&'a [u8]>,
    simple: &'a Option<SimpleStmt>,
)
    ensures { AddsUses out.old out.new
        (maybe_plain_uses (view_place place.entry) (view_maybe_simple simple.now)) }
{
    match simple {
        None => {}
        Some(simple) => push_simple(out, place, simple),
    }
}

/// Adds the uses in a statement that stands in a place.
#[cycle(walk_stmt)]
fn push_stmt<'a>(out: &mut Uses<'a>, place: Option<&'a [u8]>, s: &'a Stmt)
    ensures { AddsUses out.old out.new (stmt_uses (view_place place.entry) (view_stmt s.now)) }
{
    match s {
        Stmt::Block(body) => push_stmts(out, place, body),
        Stmt::Empty | Stmt::Jump(_) => {}
        Stmt::Simple(simple) => push_simple(out, place, simple),
        Stmt::If(c, s) | Stmt::While(c, s) => {
            push_expr(out, place, Way::Condition, c);
            push_stmt(out, place, s);
        }
        Stmt::IfElse(c, s, t) => {
            push_expr(out, place, Way::Condition, c);
            push_stmt(out, place, s);
            push_stmt(out, place, t);
        }
        Stmt::Do(s, c) => {
            push_stmt(out, place, s);
            push_expr(out, place, Way::Condition, c);
        }
        Stmt::For(first, c, next, s) => {
            push_optional_simple(out, place, first);
            push_optional(out, place, Way::Condition, c);
            push_optional_simple(out, place, next);
            push_stmt(out, place, s);
        }
        Stmt::ForIn(key, array, s) => {
            put(out, place, Deed::Changes, key);
            put(out, place, Deed::ReadsArray, array);
            push_stmt(out, place, s);
        }
        Stmt::Leave(_, e) => push_optional(out, place, Way::Asked, e),
    }
}

#[cycle(walk_stmt)]
fn push_stmts<'a>(out: &mut Uses<'a>, place: Option<&'a [u8]>, body: &'a [Stmt])
    ensures { AddsUses out.old out.new (stmts_uses (view_place place.entry) (view_stmts body.now)) }
{
    for s in body {
        push_stmt(out, place, s);
    }
}

fn push_pattern<'a>(out: &mut Uses<'a>, pattern: &'a Pattern)
    ensures { AddsUses out.old out.new (pattern_uses None (view_pattern pattern.now)) }
{
    match pattern {
        Pattern::One(e) => push_expr(out, None, Way::Asked, e),
        Pattern::Range(first, last) => {
            push_expr(out, None, Way::Asked, first);
            push_expr(out, None, Way::Asked, last);
        }
    }
}

fn push_parameters<'a>(out: &mut Uses<'a>, function: &'a [u8], parameters: &'a [Vec<u8>])
    ensures { AddsUses out.old out.new (parameter_uses function.now (view_names parameters.now)) }
{
    for name in parameters {
        put(out, Some(function), Deed::Takes, name);
    }
}

fn push_item<'a>(out: &mut Uses<'a>, item: &'a Item)
    ensures { AddsUses out.old out.new (item_uses (view_item item.now)) }
{
    match item {
        Item::Function(name, parameters, body) => {
            put(out, None, Deed::Defines, name);
            push_parameters(out, name, parameters);
            push_stmts(out, Some(name), body);
        }
        Item::Begin(body) | Item::End(body) | Item::Action(body) => push_stmts(out, None, body),
        Item::Rule(pattern, body) => {
            push_pattern(out, pattern);
            push_stmts(out, None, body);
        }
        Item::PatternOnly(pattern) => push_pattern(out, pattern),
        Item::Empty => {}
    }
}

/// What a script does at each of its names, each `=` and each `/`, in the order of its tokens.
///
/// # Errors
///
/// Where memory is wanting.
pub fn uses_of(alloc: Global, script: &Script) -> Result<Vec<Use<'_>>, AllocError>
    ensures { IfOk result
        (λ found. view_uses found.items ≡ script_uses (view_script script.now)) }
{
    let mut out = LatchedVec::new(alloc);
    for item in &script.items {
        push_item(&mut out, item);
    }
    out.into_vec()
}
