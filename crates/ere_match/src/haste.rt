//! How a search, while it has found no match, passes over bytes without a look at the table.
ghost use Rattle.std.specs.Prelude.{◌≡◌, ◌<◌, ◌≤◌, ℕ, IfOk, IfSome, None, Some, length, slice_get, true};
ghost use Rattle.std.proofs.Common.{get_or};
ghost use Rattle.ere_match.specs.Leads.{IsLead};
ghost use Rattle.ere_match.specs.Rows.{AreClasses, IsIdle, IsLoop, IsSearching, IsTable, SpecRow};

use crate::advance::{advance, begin, enter};
use crate::lead::Lead;
use crate::node::Node;
use crate::row::{Move, Table};
use std::alloc::AllocError;

/// Whether all threads of a row begin at this place.
fn is_idle(table: &Table, state: usize, at: usize) -> bool
    requires state { state < length table.now.rows.items }
    requires starts { 0 < length table.now.starts.items }
    ensures { result ≡ true → IsIdle table.now state at }
{
    table.rows[state].count == 1 && table.starts[0] == at
}

/// Goes on at the next place where a match can begin, from a row whose threads all begin at `at`; the place and the row.
fn jump(
    nodes: &[Node],
    entry: usize,
    classes: &[u8; 256],
    lead: &Lead,
    table: &mut Table,
    text: &[u8],
    at: usize,
    state: usize,
) -> Result<(usize, usize), AllocError>
    requires inside { at ≤ length text.now }
    requires lead { IsLead nodes.now entry lead.now }
    requires table { ∥ IsTable nodes.now entry classes.now table.old ∥₁ }
    requires idle { IsIdle table.old state at }
    ensures after { IfOk result (λ to. at ≤ to.0) }
    ensures inside { IfOk result (λ to. to.0 ≤ length text.now) }
    ensures search { (from : ℕ) → from ≤ at
        → ∥ IsSearching nodes.now text.now entry from at state None table.old ∥₁ → IfOk result
        (λ to. ∥ IsSearching nodes.now text.now entry from to.0 to.1 None table.new ∥₁) }
    ensures table { ∥ IsTable nodes.now entry classes.now table.new ∥₁ }
{
    let to = lead.find(text, at);
    if to == at {
        return Ok((at, state));
    }
    let state = begin(nodes, entry, classes, table, to)?;
    Ok((to, state))
}

/// The move of a byte from a row that accepts nothing inside a text to that row itself, if it is known.
fn loop_of(table: &Table, classes: &[u8; 256], state: usize, byte: u8) -> Option<Move>
    requires state { state < length table.now.rows.items }
    requires wide { state < length table.now.moves.items }
    ensures { IfSome result (IsLoop table.now classes.now state byte) }
{
    if table.rows[state].inside.is_some() {
        return None;
    }
    match table.moves[state].at(false, classes[usize::from(byte)]) {
        Some(to) if to.to as usize == state => Some(to),
        _ => None,
    }
}

/// Goes on over the bytes of the class of one, each of which leads from the row to itself; the place.
fn pass_over(
    nodes: &[Node],
    entry: usize,
    classes: &[u8; 256],
    table: &mut Table,
    text: &[u8],
    at: usize,
    state: usize,
    byte: u8,
    to: Move,
) -> usize
    requires inside { at ≤ length text.now }
    requires table { ∥ IsTable nodes.now entry classes.now table.old ∥₁ }
    requires is_loop { IsLoop table.old classes.now state byte to }
    ensures after { at ≤ result }
    ensures further { at < length text.now → get_or text.now at 0 ≡ byte → at < result }
    ensures inside { result ≤ length text.now }
    ensures search { (from : ℕ) → from ≤ at
        → ∥ IsSearching nodes.now text.now entry from at state None table.old ∥₁
        → ∥ IsSearching nodes.now text.now entry from result state None table.new ∥₁ }
    ensures table { ∥ IsTable nodes.now entry classes.now table.new ∥₁ }
{
    let count = table.rows[state].count;
    let class = classes[usize::from(byte)];
    for place in at..text.len() {
        if classes[usize::from(text[place])] != class {
            return place;
        }
        enter(table, count, to, place + 1);
    }
    text.len()
}

/// Goes on from a row that accepts nothing inside a text, over a byte, or over more that lead from the row to itself. It tells
/// the place, the row, and how many rows were given up for it.
pub(crate) fn stride(
    nodes: &[Node],
    entry: usize,
    classes: &[u8; 256],
    table: &mut Table,
    text: &[u8],
    at: usize,
    state: usize,
) -> Result<(usize, usize, usize), AllocError>
    requires inside { at < length text.now }
    requires classes { AreClasses nodes.now classes.now }
    requires table { ∥ IsTable nodes.now entry classes.now table.old ∥₁ }
    requires state { state < length table.old.rows.items }
    requires none { (row : SpecRow) → slice_get table.old.rows.items state ≡ Some row
        → row.inside ≡ None }
    ensures after { IfOk result (λ to. at < to.0) }
    ensures inside { IfOk result (λ to. to.0 ≤ length text.now) }
    ensures search { (from : ℕ) → from ≤ at
        → ∥ IsSearching nodes.now text.now entry from at state None table.old ∥₁ → IfOk result
        (λ to. ∥ IsSearching nodes.now text.now entry from to.0 to.1 None table.new ∥₁) }
    ensures table { ∥ IsTable nodes.now entry classes.now table.new ∥₁ }
{
    let byte = text[at];
    match loop_of(table, classes, state, byte) {
        Some(to) => {
            let place = pass_over(nodes, entry, classes, table, text, at, state, byte, to);
            return Ok((place, state, 0));
        }
        None => {}
    }
    let step = advance(nodes, entry, classes, table, state, byte, false, at + 1)?;
    Ok((at + 1, step.0, step.1))
}

/// Goes on to where a match can begin, if all threads of the row begin at the place: the place and the row.
pub(crate) fn hasten(
    nodes: &[Node],
    entry: usize,
    classes: &[u8; 256],
    lead: &Lead,
    table: &mut Table,
    text: &[u8],
    at: usize,
    state: usize,
) -> Result<(usize, usize), AllocError>
    requires inside { at ≤ length text.now }
    requires lead { IsLead nodes.now entry lead.now }
    requires table { ∥ IsTable nodes.now entry classes.now table.old ∥₁ }
    requires state { state < length table.old.rows.items }
    ensures after { IfOk result (λ to. at ≤ to.0) }
    ensures inside { IfOk result (λ to. to.0 ≤ length text.now) }
    ensures search { (from : ℕ) → from ≤ at
        → ∥ IsSearching nodes.now text.now entry from at state None table.old ∥₁ → IfOk result
        (λ to. ∥ IsSearching nodes.now text.now entry from to.0 to.1 None table.new ∥₁) }
    ensures table { ∥ IsTable nodes.now entry classes.now table.new ∥₁ }
{
    if lead.are_told() && is_idle(table, state, at) {
        return jump(nodes, entry, classes, lead, table, text, at, state);
    }
    Ok((at, state))
}
