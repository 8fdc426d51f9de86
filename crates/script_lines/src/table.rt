//! The table of a script's module: its functions with the lines of their places.
ghost use Rattle.std.specs.Prelude.{◌≡◌, IfOk, List, Ok, Some, length, map};
ghost use Rattle.awk_grammar.specs.ViewStmt.{view_script};
ghost use Rattle.awk_parse.specs.Parsing.{IsParsed};
ghost use Rattle.awk_tokens.specs.Cutting.{IsTokens, Spelled};
ghost use Rattle.awk_tokens.specs.Views.{spelled};
ghost use Rattle.awk_grammar.specs.Trees.{Item as ItemForm};
ghost use Rattle.awk_tree.specs.Lines.{function_names, line_at};
ghost use Rattle.script_places.specs.Lines.{form_of};
ghost use Rattle.script_lines.specs.Lined.{line_number, lines_of, name_of, row_of, table_of};

use awk_parse::parse;
use awk_tokens::{Token, tokens};
use awk_tree::{Item, Script, function_named, places_of};
use script_places::FunctionLines;
use std::alloc::{AllocError, Global};

/// What is written for the line of a place before which so many tokens stand.
fn line_number(tokens: &[Token<'_>], before: usize) -> u32
    ensures { result ≡ line_number (line_at (map spelled tokens.now) (Some before)) }
{
    let Some(token) = tokens.get(before) else {
        return 0;
    };
    match u32::try_from(token.line) {
        Ok(line) => line,
        Err(_) => 0,
    }
}

/// The lines of the places of a function.
fn lines_of(
    alloc: Global,
    tokens: &[Token<'_>],
    script: &Script,
    function: usize,
) -> Result<Vec<u32>, AllocError>
    ensures { IfOk result (λ lines. lines.items
        ≡ lines_of (map spelled tokens.now) (view_script script.now) function) }
{
    let places = places_of(alloc, script, function)?;
    let mut lines = Vec::new(alloc);
    for before in &places {
        lines.push(line_number(tokens, *before))?;
    }
    Ok(lines)
}

/// The name of a function.
fn name_of(alloc: Global, script: &Script, function: usize) -> Result<Vec<u8>, AllocError>
    ensures { IfOk result (λ name. name.items ≡ name_of (view_script script.now) function) }
{
    match function_named(script, function) {
        Some(name) => name.to_vec(alloc),
        None => "main".as_bytes().to_vec(alloc),
    }
}

/// A function, by its number.
fn row_of(
    alloc: Global,
    tokens: &[Token<'_>],
    script: &Script,
    function: usize,
) -> Result<FunctionLines, AllocError>
    ensures { IfOk result (λ row. form_of row
        ≡ row_of (map spelled tokens.now) (view_script script.now) function) }
{
    let name = name_of(alloc, script, function)?;
    let lines = lines_of(alloc, tokens, script, function)?;
    Ok(FunctionLines { name, lines })
}

/// How many functions a script has.
fn function_count(script: &Script) -> usize
    ensures { result ≡ length (function_names (view_script script.now)) }
{
    let mut count = 0;
    for item in &script.items {
        if let Item::Function(_, _, _) = item {
            count += 1;
        }
    }
    count
}

/// The functions of a script, and `main`.
fn rows_of(
    alloc: Global,
    tokens: &[Token<'_>],
    script: &Script,
) -> Result<Vec<FunctionLines>, AllocError>
    ensures { IfOk result (λ table. map form_of table.items
        ≡ table_of (map spelled tokens.now) (view_script script.now)) }
{
    let count = function_count(script);
    let mut table = Vec::new(alloc);
    for function in 0..count {
        table.push(row_of(alloc, tokens, script, function)?)?;
    }
    table.push(row_of(alloc, tokens, script, count)?)?;
    Ok(table)
}

/// The table of a script that can be compiled.
pub(crate) fn table_of(alloc: Global, script: &[u8]) -> Result<Vec<FunctionLines>, AllocError>
    ensures { IfOk result (λ table. (tokens : List Spelled) × (tree : List ItemForm)
        × IsTokens script.now (Ok tokens) × IsParsed tokens tree
        × (map form_of table.items ≡ table_of tokens tree)) }
{
    let Ok(tokens) = tokens(alloc, script) else {
        return Err(AllocError);
    };
    let Ok(tree) = parse(alloc, &tokens) else {
        return Err(AllocError);
    };
    rows_of(alloc, &tokens, &tree)
}
