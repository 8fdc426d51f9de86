//! How rows are found or made.
ghost use Rattle.std.specs.Prelude.{◌≡◌, ◌+◌, ◌<◌, ◌≤◌, ◌^◌, ℕ, List, IfOk, IfSome, OnOk, length, false};
ghost use Rattle.ere_match.specs.Rows.{AddsNoMoves, Begins, FoundRow, IsKnownTable, IsMadeMove, IsPlaced, IsRow, IsSame, IsTable, SetSettled, numbers};
ghost use Rattle.ere_match.specs.Threads.{Holds, IsClosedFrom};

use crate::node::Node;
use crate::numbers::{kept, load, rank_threads};
use crate::row::{Move, Moves, Row, Table};
use crate::step::accepted;
use crate::threads::{close, mark};
use std::alloc::{AllocError, Global};

/// More starts than this are not numbered: no memory holds so many.
const MOST_NUMBERS: usize = 1_073_741_824;

/// A number for ranks; rows with different ones are different.
fn hash_of(ranks: &[u32]) -> u64 {
    let mut hash: u64 = 0;
    for rank in ranks {
        hash = (hash.rotate_left(5) ^ u64::from(*rank)).wrapping_mul(0x517c_c1b7_2722_0a95);
    }
    hash
}

/// The row that has these ranks, if there is one.
fn find(rows: &[Row], ranks: &[u32], count: usize, first: bool, hash: u64) -> Option<usize>
    ensures { IfSome result (FoundRow rows.now ranks.now count first) }
{
    for place in 0..rows.len() {
        let row = &rows[place];
        if row.hash == hash
            && row.count == count
            && row.first == first
            && row.ranks.as_slice() == ranks
        {
            return Some(place);
        }
    }
    None
}

/// A row, with what it accepts.
fn new_row(
    nodes: &[Node],
    ranks: Vec<u32>,
    count: usize,
    first: bool,
    hash: u64,
    set: &mut [Option<usize>],
) -> Row
    requires len { length ranks.items ≡ length nodes.now }
    requires set_len { length set.old ≡ length nodes.now }
    requires few { (id s : ℕ) → Holds (numbers ranks.items) id s → s < count }
    requires closed { IsClosedFrom nodes.now first false 0 (numbers ranks.items) }
    ensures row { IsRow nodes.now result }
    ensures ranks { result.ranks.items ≡ ranks.items }
    ensures count { result.count ≡ count }
    ensures first { result.first ≡ first }
    ensures len { length set.new ≡ length nodes.now }
{
    load(&ranks, count, set);
    let inside = accepted(nodes, set);
    close(nodes, set, count, first, true);
    let at_end = accepted(nodes, set);
    Row {
        ranks,
        count,
        first,
        inside,
        at_end,
        hash,
    }
}

/// Room for so many starts and one more.
fn widen(starts: &mut Vec<usize>, count: usize) -> Result<(), AllocError>
    ensures same { IsSame starts.old.items starts.new.items }
    ensures ok { OnOk result (count < length starts.new.items) }
{
    while starts.len() <= count {
        starts.push(0)?;
    }
    Ok(())
}

/// Room for the moves of so many rows and one more.
pub(crate) fn widen_moves(moves: &mut Vec<Moves>, count: usize) -> Result<(), AllocError>
    ensures none { AddsNoMoves moves.old.items moves.new.items }
    ensures ok { OnOk result (count < length moves.new.items) }
{
    while moves.len() <= count {
        moves.push(Moves::none())?;
    }
    Ok(())
}

/// The row that has these ranks: one that is there, or a new one.
fn row_of(
    nodes: &[Node],
    table: &mut Table,
    ranks: Vec<u32>,
    count: usize,
    first: bool,
) -> Result<usize, AllocError>
    requires set_len { length table.old.set.items ≡ length nodes.now }
    requires len { length ranks.items ≡ length nodes.now }
    requires few { (id s : ℕ) → Holds (numbers ranks.items) id s → s < count }
    requires closed { IsClosedFrom nodes.now first false 0 (numbers ranks.items) }
    requires starts { count < length table.old.starts.items }
    ensures row { IfOk result (FoundRow table.new.rows.items ranks.items count first) }
    ensures most { IfOk result (λ row. row ≤ length table.old.rows.items) }
    ensures table { (entry : ℕ) (classes : List ℕ) → IsTable nodes.now entry classes table.old
        → IsKnownTable nodes.now entry classes table.old table.new }
    ensures sources { table.new.sources ≡ table.old.sources }
    ensures starts { table.new.starts ≡ table.old.starts }
{
    let hash = hash_of(&ranks);
    match find(&table.rows, &ranks, count, first, hash) {
        Some(row) => return Ok(row),
        None => {}
    }
    let row = new_row(nodes, ranks, count, first, hash, &mut table.set);
    let place = table.rows.len();
    widen_moves(&mut table.moves, place)?;
    table.rows.push(row)?;
    Ok(place)
}

/// The move to the row of the threads in `next`.
fn place(nodes: &[Node], table: &mut Table, first: bool, bound: usize) -> Result<Move, AllocError>
    requires bound { bound < 2 ^ 31 }
    requires rows { length table.old.rows.items < 2 ^ 31 }
    requires sources { length table.old.sources.items < 2 ^ 31 }
    requires set_len { length table.old.set.items ≡ length nodes.now }
    requires next_len { length table.old.next.items ≡ length nodes.now }
    requires numbers { (id s : ℕ) → Holds table.old.next.items id s → s < bound }
    requires closed { IsClosedFrom nodes.now first false 0 table.old.next.items }
    ensures placed { IfOk result (IsPlaced first bound table.old.next.items table.new) }
    ensures table { (entry : ℕ) (classes : List ℕ) → IsTable nodes.now entry classes table.old
        → IsKnownTable nodes.now entry classes table.old table.new }
    ensures starts { IsSame table.old.starts.items table.new.starts.items }
{
    let alloc = *table.sources.allocator();
    let start = table.sources.len();
    let mut used = vec![in alloc; 0; bound]?;
    let (ranks, count) = rank_threads(alloc, &table.next, &mut used, &mut table.sources)?;
    widen(&mut table.starts, count)?;
    let to = row_of(nodes, table, ranks, count, first)?;
    Ok(Move {
        to: to as u32,
        kept: kept(&table.sources, start, count) as u32,
        start: start as u32,
    })
}

/// Begins a thread at the entry with the next number, unless a match has been found.
fn sow(set: &mut [Option<usize>], entry: usize, found: bool, count: usize)
    requires { (id s : ℕ) → Holds set.old id s → s < count + 1 }
    ensures begins { Begins found entry count set.old set.new }
    ensures numbers { (id s : ℕ) → Holds set.new id s → s < count + 1 }
{
    if found {
        return;
    }
    mark(set, entry, count);
}

/// Begins a thread at the entry with the next number, unless a match has been found, and leads all on as far as they go.
fn settle(
    nodes: &[Node],
    entry: usize,
    set: &mut [Option<usize>],
    found: bool,
    first: bool,
    count: usize,
)
    requires len { length set.old ≡ length nodes.now }
    requires numbers { (id s : ℕ) → Holds set.old id s → s < count + 1 }
    ensures settled { SetSettled nodes.now entry found first count set.old set.new }
    ensures numbers { (id s : ℕ) → Holds set.new id s → s < count + 1 }
{
    sow(set, entry, found, count);
    close(nodes, set, count, first, false);
}

/// The move to the row of the threads in `next`, led on as far as they go, with one more that begins at the entry unless a
/// match has been found.
pub(crate) fn make(
    nodes: &[Node],
    entry: usize,
    table: &mut Table,
    found: bool,
    first: bool,
    count: usize,
) -> Result<Move, AllocError>
    requires rows { length table.old.rows.items < 2 ^ 31 }
    requires sources { length table.old.sources.items < 2 ^ 31 }
    requires set_len { length table.old.set.items ≡ length nodes.now }
    requires next_len { length table.old.next.items ≡ length nodes.now }
    requires numbers { (id s : ℕ) → Holds table.old.next.items id s → s < count + 1 }
    ensures made { IfOk result
        (IsMadeMove nodes.now entry found first count table.old.next.items table.new) }
    ensures table { (classes : List ℕ) → IsTable nodes.now entry classes table.old
        → IsKnownTable nodes.now entry classes table.old table.new }
    ensures starts { IsSame table.old.starts.items table.new.starts.items }
{
    if count >= MOST_NUMBERS {
        return Err(AllocError);
    }
    settle(nodes, entry, &mut table.next, found, first, count);
    place(nodes, table, first, count + 1)
}
