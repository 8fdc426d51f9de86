//! The lines of a script's statements. A tree holds none, but its tokens are those of the script.
ghost use Rattle.std.specs.Prelude.{◌≡◌, IfOk, map, option_map, slice_get};
ghost use Rattle.awk_grammar.specs.ViewStmt.{view_items, view_script};
ghost use Rattle.awk_tokens.specs.Views.{spelled};
ghost use Rattle.awk_tree.specs.Lines.{function_names, line_of, places_in};

mod items;
mod statements;

use awk_grammar::{Item, Script};
use awk_tokens::Token;
use items::places_in;
use std::alloc::{AllocError, Global};

/// The name of a function of a script, by its number; functions are counted from 0. A script without so many has none.
pub fn function_named(script: &Script, number: usize) -> Option<&[u8]>
    ensures { option_map (λ name. name.now) result
        ≡ slice_get (function_names (view_script script.now)) number }
{
    let mut left = number;
    for item in &script.items {
        if let Item::Function(name, _, _) = item {
            if left == 0 {
                return Some(name.as_slice());
            }
            left -= 1;
        }
    }
    None
}

/// The line of a place of a script's module. `function` is the number of a function of the module, `main` after those of the script, and `place` the number of
/// the place among those of its code. The tokens are the script's. There is no line where there is no such place.
///
/// # Errors
///
/// Where memory is wanting.
pub fn line_of(
    alloc: Global,
    tokens: &[Token<'_>],
    script: &Script,
    function: usize,
    place: usize,
) -> Result<Option<usize>, AllocError>
    ensures { IfOk result (λ line. line
        ≡ line_of (map spelled tokens.now) (view_script script.now) function place) }
{
    let places = places_in(alloc, &script.items, function)?;
    let Some(before) = places.get(place) else {
        return Ok(None);
    };
    match tokens.get(*before) {
        Some(token) => Ok(Some(token.line)),
        None => Ok(None),
    }
}

/// How many tokens stand before each place of a function of a script's module, in order. `function` is its number, `main` after those of the script.
///
/// # Errors
///
/// Where memory is wanting.
pub fn places_of(alloc: Global, script: &Script, function: usize) -> Result<Vec<usize>, AllocError>
    ensures { IfOk result (λ places. places.items
        ≡ places_in (view_script script.now) function) }
{
    places_in(alloc, &script.items, function)
}
