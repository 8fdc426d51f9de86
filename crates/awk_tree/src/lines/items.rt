//! How many tokens stand before each place of items.
ghost use Rattle.std.specs.Prelude.{◌≡◌, [], ◌∷◌, ◌++◌, IfOk, OnOk, length, option_map, slice_get};
ghost use Rattle.awk_grammar.specs.Item.{print_item, print_pattern};
ghost use Rattle.awk_grammar.specs.Trees.{Between, Lone, When};
ghost use Rattle.awk_grammar.specs.View.{view};
ghost use Rattle.awk_tree.specs.Lexemes.{lexemes};
ghost use Rattle.awk_grammar.specs.ViewStmt.{view_item, view_items, view_names, view_pattern, view_stmts};
ghost use Rattle.awk_tree.specs.Lines.{asked_places, function_head, functions_places, item_places, main_places, pattern_places, places_in, places_where};
ghost use Rattle.awk_tree.specs.Parts.{is_in};

use crate::lines::statements::{action, here, statements, there};
use crate::printer::{push_item, push_params};
use crate::writing::{mark, push_expr, put, word};
use awk_grammar::{Expr, Item, Pattern, Printed, Stmt};
use awk_tokens::{Keyword, Punctuator};
use std::alloc::{AllocError, Global};

/// The head of a function, with the brace of its body.
fn head<'a>(
    tokens: &mut Vec<Printed<'a>>,
    name: &'a [u8],
    params: &'a [Vec<u8>],
) -> Result<(), AllocError>
    ensures { OnOk result (lexemes tokens.new.items ≡ lexemes tokens.old.items
        ++ function_head name.now (view_names params.now)) }
{
    word(tokens, Keyword::Function)?;
    put(tokens, Printed::Name(name))?;
    mark(tokens, Punctuator::OpenParen)?;
    push_params(tokens, params)?;
    mark(tokens, Punctuator::CloseParen)?;
    mark(tokens, Punctuator::OpenBrace)
}

/// A range, and the places at which it is asked: six at its first pattern, five at its second.
fn range<'a>(
    tokens: &mut Vec<Printed<'a>>,
    places: &mut Vec<usize>,
    from: &'a Expr,
    to: &'a Expr,
) -> Result<(), AllocError>
    ensures tokens { OnOk result (lexemes tokens.new.items ≡ lexemes tokens.old.items
        ++ print_pattern (Between (view from.now) (view to.now))) }
    ensures places { OnOk result (places.new.items ≡ places.old.items
        ++ asked_places (lexemes tokens.old.items) (Between (view from.now) (view to.now))) }
{
    let first = [tokens.len(); 6];
    places.extend_from_slice(&first)?;
    push_expr(tokens, from)?;
    mark(tokens, Punctuator::Comma)?;
    let last = [tokens.len(); 5];
    places.extend_from_slice(&last)?;
    push_expr(tokens, to)
}

/// A pattern, and the places at which it is asked.
fn asked<'a>(
    tokens: &mut Vec<Printed<'a>>,
    places: &mut Vec<usize>,
    pattern: &'a Pattern,
) -> Result<(), AllocError>
    ensures tokens { OnOk result (lexemes tokens.new.items ≡ lexemes tokens.old.items
        ++ print_pattern (view_pattern pattern.now)) }
    ensures places { OnOk result (places.new.items ≡ places.old.items
        ++ asked_places (lexemes tokens.old.items) (view_pattern pattern.now)) }
{
    match pattern {
        Pattern::One(e) => {
            here(tokens, places)?;
            push_expr(tokens, e)
        }
        Pattern::Range(from, to) => range(tokens, places, from, to),
    }
}

/// A pattern and its action.
fn rule<'a>(
    tokens: &mut Vec<Printed<'a>>,
    places: &mut Vec<usize>,
    pattern: &'a Pattern,
    body: &'a [Stmt],
) -> Result<(), AllocError>
    ensures tokens { OnOk result (lexemes tokens.new.items ≡ lexemes tokens.old.items
        ++ print_item (When (view_pattern pattern.now) (view_stmts body.now))) }
    ensures places { OnOk result (places.new.items ≡ places.old.items
        ++ item_places (lexemes tokens.old.items) (When (view_pattern pattern.now)
        (view_stmts body.now))) }
{
    let start = tokens.len();
    asked(tokens, places, pattern)?;
    action(tokens, places, body)?;
    there(start, places)
}

/// A pattern without an action: at it the record is printed.
fn lone<'a>(
    tokens: &mut Vec<Printed<'a>>,
    places: &mut Vec<usize>,
    pattern: &'a Pattern,
) -> Result<(), AllocError>
    ensures tokens { OnOk result (lexemes tokens.new.items ≡ lexemes tokens.old.items
        ++ print_item (Lone (view_pattern pattern.now))) }
    ensures places { OnOk result (places.new.items ≡ places.old.items
        ++ item_places (lexemes tokens.old.items) (Lone (view_pattern pattern.now))) }
{
    let start = tokens.len();
    asked(tokens, places, pattern)?;
    let printed = [start; 3];
    places.extend_from_slice(&printed)?;
    mark(tokens, Punctuator::Semicolon)
}

/// The places of an item.
fn item_places<'a>(
    tokens: &mut Vec<Printed<'a>>,
    places: &mut Vec<usize>,
    item: &'a Item,
) -> Result<(), AllocError>
    ensures tokens { OnOk result (lexemes tokens.new.items ≡ lexemes tokens.old.items
        ++ print_item (view_item item.now)) }
    ensures places { OnOk result (places.new.items ≡ places.old.items
        ++ item_places (lexemes tokens.old.items) (view_item item.now)) }
{
    match item {
        Item::Function(name, params, body) => {
            head(tokens, name, params)?;
            statements(tokens, places, body)?;
            mark(tokens, Punctuator::CloseBrace)
        }
        Item::Begin(body) => {
            word(tokens, Keyword::Begin)?;
            action(tokens, places, body)
        }
        Item::End(body) => {
            word(tokens, Keyword::End)?;
            action(tokens, places, body)
        }
        Item::Action(body) => action(tokens, places, body),
        Item::Rule(pattern, body) => rule(tokens, places, pattern, body),
        Item::PatternOnly(pattern) => lone(tokens, places, pattern),
        Item::Empty => mark(tokens, Punctuator::Semicolon),
    }
}

/// A part of `main`.
#[derive(Clone, Copy)]
pub(crate) enum Part {
    Begin,
    Records,
    End,
}

/// Whether an item is in a part of `main`.
fn is_in(part: Part, item: &Item) -> bool
    ensures { result ≡ is_in part (view_item item.now) }
{
    match (part, item) {
        (Part::Begin, Item::Begin(_)) => true,
        (Part::Records, Item::Action(_) | Item::Rule(_, _) | Item::PatternOnly(_)) => true,
        (Part::End, Item::End(_)) => true,
        _ => false,
    }
}

/// Adds the places of a part of `main`.
fn add_part(
    places: &mut Vec<usize>,
    alloc: Global,
    items: &[Item],
    part: Part,
) -> Result<(), AllocError>
    ensures { OnOk result (places.new.items ≡ places.old.items
        ++ places_where (is_in part) [] (view_items items.now)) }
{
    let mut tokens = Vec::new(alloc);
    for item in items {
        if is_in(part, item) {
            item_places(&mut tokens, places, item)?;
        } else {
            push_item(&mut tokens, item)?;
        }
    }
    Ok(())
}

/// The places of `main`.
fn main_places(alloc: Global, items: &[Item]) -> Result<Vec<usize>, AllocError>
    ensures { IfOk result (λ places. places.items ≡ main_places (view_items items.now)) }
{
    let mut places = Vec::new(alloc);
    add_part(&mut places, alloc, items, Part::Begin)?;
    add_part(&mut places, alloc, items, Part::Records)?;
    add_part(&mut places, alloc, items, Part::End)?;
    Ok(places)
}

/// The places of a function by its number, if there are so many functions.
fn function_places(
    alloc: Global,
    items: &[Item],
    number: usize,
) -> Result<Option<Vec<usize>>, AllocError>
    ensures { IfOk result (λ found. option_map (λ places. places.items) found
        ≡ slice_get (functions_places [] (view_items items.now)) number) }
{
    let mut tokens = Vec::new(alloc);
    let mut left = number;
    for item in items {
        if let Item::Function(_, _, _) = item {
            if left == 0 {
                let mut places = Vec::new(alloc);
                item_places(&mut tokens, &mut places, item)?;
                return Ok(Some(places));
            }
            left -= 1;
        }
        push_item(&mut tokens, item)?;
    }
    Ok(None)
}

/// The places of a function of the module by its number; `main` comes after the script's functions.
pub(crate) fn places_in(
    alloc: Global,
    items: &[Item],
    function: usize,
) -> Result<Vec<usize>, AllocError>
    ensures { IfOk result (λ places. places.items ≡ places_in (view_items items.now) function) }
{
    match function_places(alloc, items, function)? {
        Some(places) => Ok(places),
        None => main_places(alloc, items),
    }
}
