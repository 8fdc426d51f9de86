//! How often the first program point of each line was passed.
ghost use Rattle.std.specs.Prelude.{◌≡◌, ◌<◌, ◌∷◌, ◌++◌, [], ℕ, IfOk, List, OnOk, Some, length, map, nat_eq, if◌then◌else◌};
ghost use Rattle.awk_grammar.specs.ViewStmt.{view_script};
ghost use Rattle.awk_tokens.specs.Views.{spelled};
ghost use Rattle.awk_tree.specs.Lines.{line_at, places_in};
ghost use Rattle.run_report.specs.CountTexts.{at_line};
ghost use Rattle.run_report.specs.declared.counts.PlaceCount.{PlaceCount};
ghost use Rattle.script_places.specs.Passes.{AreFirsts, Moment, counted_from, places_counted};
ghost use Rattle.script_places.specs.Sites.{OfSource};
ghost use Rattle.script_places.specs.Tallies.{AreTallied, earlier_of, rows_of};

use crate::tally::Tally;
use awk_parse::parse;
use awk_tokens::{Token, tokens};
use awk_tree::{Script, places_of};
use run_report::PlaceCount;
use std::alloc::{AllocError, Global};

/// The earlier of two places: the first one, unless fewer tokens stand before the other.
fn earlier_of(first: Option<PlaceCount>, found: PlaceCount) -> PlaceCount
    ensures { result ≡ earlier_of first found }
{
    match first {
        Some(first) if first.before <= found.before => first,
        _ => found,
    }
}

/// Makes room for a line.
fn reach(lines: &mut Vec<Option<PlaceCount>>, line: usize) -> Result<(), AllocError>
    ensures same { OnOk result
        ((n : ℕ) → at_line lines.new.items n ≡ at_line lines.old.items n) }
    ensures there { OnOk result (line < length lines.new.items) }
{
    let Some(count) = line.checked_add(1) else {
        return Err(AllocError);
    };
    if lines.len() < count {
        lines.resize(count, None)?;
    }
    Ok(())
}

/// Adds a place that begins on a line.
fn add_place(
    lines: &mut Vec<Option<PlaceCount>>,
    line: usize,
    found: PlaceCount,
) -> Result<(), AllocError>
    ensures { OnOk result ((n : ℕ) → at_line lines.new.items n
        ≡ (if nat_eq n line then Some (earlier_of (at_line lines.old.items n) found) else at_line lines.old.items n)) }
{
    reach(lines, line)?;
    lines[line] = Some(earlier_of(lines[line], found));
    Ok(())
}

/// The line of the token that has so many before it.
fn line_at(tokens: &[Token<'_>], before: usize) -> Option<usize>
    ensures { result ≡ line_at (map spelled tokens.now) (Some before) }
{
    match tokens.get(before) {
        Some(token) => Some(token.line),
        None => None,
    }
}

/// Adds a place, if it begins on a line.
fn add(
    lines: &mut Vec<Option<PlaceCount>>,
    tokens: &[Token<'_>],
    place: PlaceCount,
) -> Result<(), AllocError>
    ensures { OnOk result ((places : List PlaceCount)
        → AreFirsts (map spelled tokens.now) places lines.old.items
        → AreFirsts (map spelled tokens.now) (places ++ place ∷ []) lines.new.items) }
{
    match line_at(tokens, place.before) {
        Some(line) => add_place(lines, line, place),
        None => Ok(()),
    }
}

/// The first place that begins on each line.
fn firsts_of(
    alloc: Global,
    tokens: &[Token<'_>],
    places: &[PlaceCount],
) -> Result<Vec<Option<PlaceCount>>, AllocError>
    ensures { IfOk result (λ lines. AreFirsts (map spelled tokens.now) places.now lines.items) }
{
    let mut lines = Vec::new(alloc);
    for place in places {
        add(&mut lines, tokens, *place)?;
    }
    Ok(lines)
}

/// Adds the places of a function of the module, with how often they were passed.
fn add_function(
    places: &mut Vec<PlaceCount>,
    alloc: Global,
    tree: &Script,
    tally: &Tally,
    function: usize,
) -> Result<(), AllocError>
    ensures { (moments : List Moment) → AreTallied moments (rows_of tally.now.rows.items)
        → OnOk result (places.new.items ≡ places.old.items
        ++ counted_from (rows_of tally.now.nops.items) moments function 0
        (places_in (view_script tree.now) function)) }
{
    let all = places_of(alloc, tree, function)?;
    for (number, before) in all.iter().enumerate() {
        let count = tally.passed(function, number)?;
        places.push(PlaceCount {
            before: *before,
            count,
        })?;
    }
    Ok(())
}

/// The places of a script's module, with how often they were passed.
fn places_in(alloc: Global, tree: &Script, tally: &Tally) -> Result<Vec<PlaceCount>, AllocError>
    ensures { (moments : List Moment) → AreTallied moments (rows_of tally.now.rows.items)
        → IfOk result (λ places. places.items
        ≡ places_counted (view_script tree.now) (rows_of tally.now.nops.items) moments) }
{
    let mut places = Vec::new(alloc);
    for function in 0..tally.nops.len() {
        add_function(&mut places, alloc, tree, tally, function)?;
    }
    Ok(places)
}

/// The first place that begins on each line of a script, with how often it was passed.
pub fn lines_of(
    alloc: Global,
    script: &[u8],
    tally: &Tally,
) -> Result<Vec<Option<PlaceCount>>, AllocError>
    ensures { (moments : List Moment) → AreTallied moments (rows_of tally.now.rows.items)
        → IfOk result (λ lines. OfSource script.now (λ tokens tree. AreFirsts tokens
        (places_counted tree (rows_of tally.now.nops.items) moments) lines.items)) }
{
    let Ok(tokens) = tokens(alloc, script) else {
        return Err(AllocError);
    };
    let Ok(tree) = parse(alloc, &tokens) else {
        return Err(AllocError);
    };
    let places = places_in(alloc, &tree, tally)?;
    firsts_of(alloc, &tokens, &places)
}
