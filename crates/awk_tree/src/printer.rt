//! From a script to its tokens.

ghost use Rattle.std.specs.Prelude.{◌≡◌, ◌++◌, IfOk, OnOk};
ghost use Rattle.awk_grammar.specs.Item.{print_names, print_params, print_pattern, print_item, print_script};
ghost use Rattle.awk_tree.specs.Lexemes.{lexemes};
ghost use Rattle.awk_grammar.specs.ViewStmt.{view_pattern, view_names, view_item, view_items, view_script};

use crate::printer_stmt::push_block;
use crate::writing::{mark, push_expr, put, word};
use awk_grammar::{Item, Pattern, Printed, Script};
use awk_tokens::{Keyword, Punctuator};
use std::alloc::{AllocError, Global};

fn push_names<'a>(out: &mut Vec<Printed<'a>>, names: &'a [Vec<u8>]) -> Result<(), AllocError>
    ensures { OnOk result
        (lexemes out.new.items ≡ lexemes out.old.items ++ print_names (view_names names.now)) }
{
    for name in names {
        mark(out, Punctuator::Comma)?;
        put(out, Printed::Name(name))?;
    }
    Ok(())
}

pub(crate) fn push_params<'a>(
    out: &mut Vec<Printed<'a>>,
    names: &'a [Vec<u8>],
) -> Result<(), AllocError>
    ensures { OnOk result
        (lexemes out.new.items ≡ lexemes out.old.items ++ print_params (view_names names.now)) }
{
    match names {
        [] => Ok(()),
        [first, others @ ..] => {
            put(out, Printed::Name(first))?;
            push_names(out, others)
        }
    }
}

fn push_pattern<'a>(out: &mut Vec<Printed<'a>>, pattern: &'a Pattern) -> Result<(), AllocError>
    ensures { OnOk result (lexemes out.new.items
        ≡ lexemes out.old.items ++ print_pattern (view_pattern pattern.now)) }
{
    match pattern {
        Pattern::One(e) => push_expr(out, e),
        Pattern::Range(first, last) => {
            push_expr(out, first)?;
            mark(out, Punctuator::Comma)?;
            push_expr(out, last)
        }
    }
}

pub(crate) fn push_item<'a>(out: &mut Vec<Printed<'a>>, item: &'a Item) -> Result<(), AllocError>
    ensures { OnOk result
        (lexemes out.new.items ≡ lexemes out.old.items ++ print_item (view_item item.now)) }
{
    match item {
        Item::Function(name, params, body) => {
            word(out, Keyword::Function)?;
            put(out, Printed::Name(name))?;
            mark(out, Punctuator::OpenParen)?;
            push_params(out, params)?;
            mark(out, Punctuator::CloseParen)?;
            push_block(out, body)
        }
        Item::Begin(body) => {
            word(out, Keyword::Begin)?;
            push_block(out, body)
        }
        Item::End(body) => {
            word(out, Keyword::End)?;
            push_block(out, body)
        }
        Item::Action(body) => push_block(out, body),
        Item::Rule(pattern, body) => {
            push_pattern(out, pattern)?;
            push_block(out, body)
        }
        Item::PatternOnly(pattern) => {
            push_pattern(out, pattern)?;
            mark(out, Punctuator::Semicolon)
        }
        Item::Empty => mark(out, Punctuator::Semicolon),
    }
}

fn push_items<'a>(out: &mut Vec<Printed<'a>>, items: &'a [Item]) -> Result<(), AllocError>
    ensures { OnOk result
        (lexemes out.new.items ≡ lexemes out.old.items ++ print_script (view_items items.now)) }
{
    for item in items {
        push_item(out, item)?;
    }
    Ok(())
}

/// The tokens of a script, in order. The name of a function is a `Name`, whether `(` follows it at once or not.
pub fn print_tokens(alloc: Global, script: &Script) -> Result<Vec<Printed<'_>>, AllocError>
    ensures { IfOk result (λ tokens. lexemes tokens.items ≡ print_script (view_script script.now)) }
{
    let mut out = Vec::new(alloc);
    push_items(&mut out, &script.items)?;
    Ok(out)
}
