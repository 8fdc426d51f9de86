//! How a search goes from row to row.
ghost use Rattle.std.specs.Prelude.{◌≡◌, ◌+◌, ◌<◌, ◌≤◌, ◌^◌, ℕ, List, IfOk, Some, length, slice_get, true};
ghost use Rattle.std.proofs.Common.{get_or};
ghost use Rattle.ere_match.specs.Rows.{AreClasses, CanEnter, HasBegun, HasEntered, HasLed, HasMoved, IsBegin, IsEmpty, IsIncreasing, IsKnownTable, IsSame, IsShifted, IsStep, IsStepOf, IsTable, SpecRow, begin_at, limit_of, source};
ghost use Rattle.ere_match.specs.Threads.{SpecNode};

use crate::node::Node;
use crate::numbers::load;
use crate::row::{Move, Row, Table};
use crate::step::step;
use crate::table::make;
use crate::threads::clear;
use std::alloc::AllocError;

/// The last number of a row that is of use.
fn limit(row: &Row, found: bool) -> usize
    ensures { result ≡ limit_of found row.now }
{
    if !found {
        return row.count;
    }
    match row.inside {
        Some(number) => number,
        None => row.count,
    }
}

/// Leads the threads of a row on by the byte, into `next`, and tells how many numbers the row has.
pub(crate) fn lead(nodes: &[Node], table: &mut Table, state: usize, byte: u8, found: bool) -> usize
    requires state { state < length table.old.rows.items }
    requires set_len { length table.old.set.items ≡ length nodes.now }
    requires next_len { length table.old.next.items ≡ length nodes.now }
    requires ranks { (row : SpecRow) → slice_get table.old.rows.items state ≡ Some row
        → length row.ranks.items ≡ length nodes.now }
    ensures led { HasLed nodes.now byte found table.old.rows.items state table.new.next.items
        result }
    ensures rows { table.new.rows ≡ table.old.rows }
    ensures sources { table.new.sources ≡ table.old.sources }
    ensures set_len { length table.new.set.items ≡ length nodes.now }
    ensures next_len { length table.new.next.items ≡ length nodes.now }
    ensures starts { table.new.starts ≡ table.old.starts }
    ensures table { (entry : ℕ) (classes : List ℕ) → IsTable nodes.now entry classes table.old
        → IsKnownTable nodes.now entry classes table.old table.new }
{
    let row = &table.rows[state];
    let count = row.count;
    load(&row.ranks, limit(row, found), &mut table.set);
    step(nodes, &table.set, byte, &mut table.next);
    count
}

/// Gives up all rows where there is no room for a further one, and tells whether it kept them.
fn make_room(table: &mut Table) -> bool
    ensures rows { length table.new.rows.items < 2 ^ 31 }
    ensures sources { length table.new.sources.items < 2 ^ 31 }
    ensures kept { result ≡ true → table.new ≡ table.old }
    ensures set { table.new.set ≡ table.old.set }
    ensures next { table.new.next ≡ table.old.next }
    ensures starts { table.new.starts ≡ table.old.starts }
    ensures table { (all : List SpecNode) (entry : ℕ) (classes : List ℕ)
        → IsTable all entry classes table.old → IsTable all entry classes table.new }
{
    if table.is_full() {
        table.empty();
        return false;
    }
    true
}

/// Keeps where a class of bytes leads from a row.
fn keep(table: &mut Table, state: usize, found: bool, class: u8, to: Move)
    requires state { state < length table.old.moves.items }
    ensures rows { table.new.rows ≡ table.old.rows }
    ensures sources { table.new.sources ≡ table.old.sources }
    ensures starts { table.new.starts ≡ table.old.starts }
    ensures table { (all : List SpecNode) (entry byte : ℕ) (classes : List ℕ) (row : SpecRow)
        → AreClasses all classes → byte < 256 → class ≡ get_or classes byte 0
        → IsTable all entry classes table.old → slice_get table.old.rows.items state ≡ Some row
        → IsStep all entry byte found row table.old.rows.items table.old.sources.items to
        → IsTable all entry classes table.new }
{
    table.moves[state].put(found, class, to);
}

/// Works out where the byte leads from a row, and keeps it.
fn compute(
    nodes: &[Node],
    entry: usize,
    classes: &[u8; 256],
    table: &mut Table,
    state: usize,
    byte: u8,
    found: bool,
) -> Result<Move, AllocError>
    requires classes { AreClasses nodes.now classes.now }
    requires table { ∥ IsTable nodes.now entry classes.now table.old ∥₁ }
    requires state { state < length table.old.rows.items }
    ensures step { IfOk result
        (λ to. ∥ IsStepOf nodes.now entry byte found table.old state table.new to ∥₁) }
    ensures table { ∥ IsTable nodes.now entry classes.now table.new ∥₁ }
    ensures starts { IsSame table.old.starts.items table.new.starts.items }
{
    let count = lead(nodes, table, state, byte, found);
    let kept = make_room(table);
    let to = make(nodes, entry, table, found, false, count)?;
    if kept {
        keep(table, state, found, classes[usize::from(byte)], to);
    }
    Ok(to)
}

/// Leads the starts along a move.
fn shift(starts: &mut [usize], sources: &[u32], count: usize, fewer: usize, to: Move, at: usize)
    requires count { count < length starts.old }
    requires fewer { fewer < length starts.old }
    requires room { to.start + fewer ≤ length sources.now }
    requires increasing { IsIncreasing fewer (source sources.now to) }
    requires known { (k : ℕ) → k < fewer → source sources.now to k ≤ count }
    requires same { (k : ℕ) → k < to.kept → source sources.now to k ≡ k }
    ensures len { length starts.new ≡ length starts.old }
    ensures shifted { IsShifted starts.old starts.new count at fewer (source sources.now to) }
{
    starts[count] = at;
    for number in to.kept as usize..fewer {
        starts[number] = starts[sources[to.start as usize + number] as usize];
    }
}

/// Takes a move from a row of so many numbers.
pub(crate) fn enter(table: &mut Table, count: usize, to: Move, at: usize) -> usize
    requires { ∥ CanEnter table.old count to ∥₁ }
    ensures entered { HasEntered table.old count to at table.new result }
    ensures starts { length table.new.starts.items ≡ length table.old.starts.items }
    ensures moves { table.new.moves ≡ table.old.moves }
    ensures table { (all : List SpecNode) (entry : ℕ) (classes : List ℕ)
        → IsTable all entry classes table.old → IsTable all entry classes table.new }
{
    let fewer = table.rows[to.to as usize].count;
    shift(&mut table.starts, &table.sources, count, fewer, to, at);
    to.to as usize
}

/// Keeps the row with which a search begins.
fn keep_first(table: &mut Table, first: bool, to: Move)
    ensures rows { table.new.rows ≡ table.old.rows }
    ensures sources { table.new.sources ≡ table.old.sources }
    ensures table { (all : List SpecNode) (entry : ℕ) (classes : List ℕ)
        → IsBegin all entry first table.old.rows.items table.old.sources.items to
        → IsTable all entry classes table.old → IsTable all entry classes table.new }
{
    if first {
        table.at_first = Some(to);
    } else {
        table.elsewhere = Some(to);
    }
}

/// The move to the row with which a search begins, if it is known.
fn known_first(table: &Table, first: bool) -> Option<Move>
    ensures { result ≡ begin_at first table.now }
{
    if first {
        table.at_first
    } else {
        table.elsewhere
    }
}

/// Leaves no thread in `next`.
pub(crate) fn no_threads(table: &mut Table)
    ensures empty { IsEmpty table.new.next.items }
    ensures len { length table.new.next.items ≡ length table.old.next.items }
    ensures set { table.new.set ≡ table.old.set }
    ensures rows { table.new.rows ≡ table.old.rows }
    ensures sources { table.new.sources ≡ table.old.sources }
    ensures table { (all : List SpecNode) (entry : ℕ) (classes : List ℕ)
        → IsTable all entry classes table.old → IsTable all entry classes table.new }
{
    clear(&mut table.next);
}

/// The move to the row with which a search begins.
fn first_move(
    nodes: &[Node],
    entry: usize,
    classes: &[u8; 256],
    table: &mut Table,
    first: bool,
) -> Result<Move, AllocError>
    requires table { ∥ IsTable nodes.now entry classes.now table.old ∥₁ }
    ensures begin { IfOk result
        (λ to. ∥ IsBegin nodes.now entry first table.new.rows.items table.new.sources.items to ∥₁) }
    ensures table { ∥ IsTable nodes.now entry classes.now table.new ∥₁ }
{
    match known_first(table, first) {
        Some(to) => return Ok(to),
        None => {}
    }
    make_room(table);
    no_threads(table);
    let to = make(nodes, entry, table, false, first, 0)?;
    keep_first(table, first, to);
    Ok(to)
}

/// The row with which a search begins.
pub(crate) fn begin(
    nodes: &[Node],
    entry: usize,
    classes: &[u8; 256],
    table: &mut Table,
    from: usize,
) -> Result<usize, AllocError>
    requires table { ∥ IsTable nodes.now entry classes.now table.old ∥₁ }
    ensures begun { IfOk result (λ to. ∥ HasBegun nodes.now entry from table.new to ∥₁) }
    ensures table { ∥ IsTable nodes.now entry classes.now table.new ∥₁ }
{
    let to = first_move(nodes, entry, classes, table, from == 0)?;
    Ok(enter(table, 0, to, from))
}

/// Goes on by a byte whose move is not known yet.
#[inline(never)]
fn advance_anew(
    nodes: &[Node],
    entry: usize,
    classes: &[u8; 256],
    table: &mut Table,
    state: usize,
    byte: u8,
    found: bool,
    at: usize,
) -> Result<usize, AllocError>
    requires classes { AreClasses nodes.now classes.now }
    requires table { ∥ IsTable nodes.now entry classes.now table.old ∥₁ }
    requires state { state < length table.old.rows.items }
    ensures moved { IfOk result
        (λ to. ∥ HasMoved nodes.now entry byte found at table.old state table.new to ∥₁) }
    ensures table { ∥ IsTable nodes.now entry classes.now table.new ∥₁ }
{
    let count = table.rows[state].count;
    let to = compute(nodes, entry, classes, table, state, byte, found)?;
    Ok(enter(table, count, to, at))
}

/// Goes on by a byte; `at` is the place behind it. It tells the row, and how many rows were given up for it.
#[inline(always)]
pub(crate) fn advance(
    nodes: &[Node],
    entry: usize,
    classes: &[u8; 256],
    table: &mut Table,
    state: usize,
    byte: u8,
    found: bool,
    at: usize,
) -> Result<(usize, usize), AllocError>
    requires classes { AreClasses nodes.now classes.now }
    requires table { ∥ IsTable nodes.now entry classes.now table.old ∥₁ }
    requires state { state < length table.old.rows.items }
    ensures moved { IfOk result
        (λ to. ∥ HasMoved nodes.now entry byte found at table.old state table.new to.0 ∥₁) }
    ensures table { ∥ IsTable nodes.now entry classes.now table.new ∥₁ }
{
    let count = table.rows[state].count;
    match table.moves[state].at(found, classes[usize::from(byte)]) {
        Some(to) => return Ok((enter(table, count, to, at), 0)),
        None => {}
    }
    let rows = table.rows.len();
    let to = advance_anew(nodes, entry, classes, table, state, byte, found, at)?;
    let gone = if table.rows.len() < rows { rows } else { 0 };
    Ok((to, gone))
}
