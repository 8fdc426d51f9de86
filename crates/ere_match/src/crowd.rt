//! Whether there is a match at all, by rows whose threads' starts are not told apart: these are few where rows with starts are
//! many.
ghost use Rattle.std.specs.Prelude.{◌≡◌, ◌<◌, ◌≤◌, ◌^◌, ◌+◌, ℕ, List, IfOk, IfSome, None, Some, [], false, length, nat_eq, slice_get};
ghost use Rattle.ere_match.specs.Crowds.{HasGathered, HasLeapt, IsCrowd};
ghost use Rattle.ere_match.specs.Rows.{AreClasses, SpecRow};
ghost use Rattle.ere_match.specs.Threads.{IsBest};

use crate::advance::{lead, no_threads};
use crate::node::Node;
use crate::row::{Moves, Table};
use crate::table::{make, widen_moves};
use std::alloc::{AllocError, Global};

/// A table whose threads all have the number 0. Its own moves stay unknown: where a byte leads, with one more thread at the
/// entry, its leaps say.
#[derive(Drop)]
pub(crate) struct Crowd {
    pub(crate) table: Table,
    pub(crate) leaps: Vec<Moves>,
}

/// A crowd without rows.
fn no_crowd(alloc: Global, nodes: &[Node]) -> Result<Crowd, AllocError>
    ensures crowd { (entry : ℕ) (classes : List ℕ) → IfOk result (IsCrowd nodes.now entry classes) }
    ensures rows { IfOk result (λ crowd. crowd.table.rows.items ≡ []) }
    ensures sources { IfOk result (λ crowd. crowd.table.sources.items ≡ []) }
{
    let table = Table::new(alloc, nodes.len())?;
    Ok(Crowd {
        table,
        leaps: Vec::new(alloc),
    })
}

/// The row of a place at which a first thread begins.
fn gather(
    nodes: &[Node],
    entry: usize,
    classes: &[u8; 256],
    crowd: &mut Crowd,
    first: bool,
) -> Result<usize, AllocError>
    requires rows { length crowd.old.table.rows.items < 2 ^ 31 }
    requires sources { length crowd.old.table.sources.items < 2 ^ 31 }
    requires crowd { IsCrowd nodes.now entry classes.now crowd.old }
    ensures gathered { IfOk result (HasGathered nodes.now entry first crowd.new) }
    ensures crowd { IfOk result (λ to. IsCrowd nodes.now entry classes.now crowd.new) }
{
    no_threads(&mut crowd.table);
    let to = make(nodes, entry, &mut crowd.table, false, first, 0)?;
    widen_moves(&mut crowd.leaps, crowd.table.rows.len())?;
    Ok(to.to as usize)
}

/// Works out where the byte leads from a row, and keeps it.
fn compute(
    nodes: &[Node],
    entry: usize,
    classes: &[u8; 256],
    crowd: &mut Crowd,
    state: usize,
    byte: u8,
) -> Result<usize, AllocError>
    requires rows { length crowd.old.table.rows.items < 2 ^ 31 }
    requires sources { length crowd.old.table.sources.items < 2 ^ 31 }
    requires classes { AreClasses nodes.now classes.now }
    requires crowd { IsCrowd nodes.now entry classes.now crowd.old }
    requires state { state < length crowd.old.table.rows.items }
    requires single { (row : SpecRow) → slice_get crowd.old.table.rows.items state ≡ Some row
        → row.count ≤ 1 }
    ensures leapt { IfOk result (HasLeapt nodes.now entry byte crowd.old state crowd.new) }
    ensures crowd { IfOk result (λ to. IsCrowd nodes.now entry classes.now crowd.new) }
{
    lead(nodes, &mut crowd.table, state, byte, false);
    let to = make(nodes, entry, &mut crowd.table, false, false, 0)?;
    widen_moves(&mut crowd.leaps, crowd.table.rows.len())?;
    crowd.leaps[state].put(false, classes[usize::from(byte)], to);
    Ok(to.to as usize)
}

/// Where the byte leads from a row, unless there is no room for a further row.
fn leap(
    nodes: &[Node],
    entry: usize,
    classes: &[u8; 256],
    crowd: &mut Crowd,
    state: usize,
    byte: u8,
) -> Result<Option<usize>, AllocError>
    requires classes { AreClasses nodes.now classes.now }
    requires crowd { IsCrowd nodes.now entry classes.now crowd.old }
    requires state { state < length crowd.old.table.rows.items }
    requires single { (row : SpecRow) → slice_get crowd.old.table.rows.items state ≡ Some row
        → row.count ≤ 1 }
    ensures leapt { IfOk result
        (λ to. IfSome to (HasLeapt nodes.now entry byte crowd.old state crowd.new)) }
    ensures crowd { IfOk result (λ to. IsCrowd nodes.now entry classes.now crowd.new) }
{
    match crowd.leaps[state].at(false, classes[usize::from(byte)]) {
        Some(to) => return Ok(Some(to.to as usize)),
        None => {}
    }
    if crowd.table.is_full() {
        return Ok(None);
    }
    let to = compute(nodes, entry, classes, crowd, state, byte)?;
    Ok(Some(to))
}

/// Whether there may be a match from a place on, by the rows of a crowd.
fn may_cross(
    nodes: &[Node],
    entry: usize,
    classes: &[u8; 256],
    crowd: &mut Crowd,
    text: &[u8],
    from: usize,
) -> Result<bool, AllocError>
    requires inside { from ≤ length text.now }
    requires classes { AreClasses nodes.now classes.now }
    requires rows { length crowd.old.table.rows.items < 2 ^ 31 }
    requires sources { length crowd.old.table.sources.items < 2 ^ 31 }
    requires crowd { IsCrowd nodes.now entry classes.now crowd.old }
    ensures { IfOk result
        (λ may. may ≡ false → IsBest nodes.now text.now entry from (length text.now + 1) None) }
{
    let mut at = from;
    let mut state = gather(nodes, entry, classes, crowd, from == 0)?;
    while at < text.len() {
        if crowd.table.rows[state].inside.is_some() {
            return Ok(true);
        }
        match leap(nodes, entry, classes, crowd, state, text[at])? {
            Some(to) => state = to,
            None => return Ok(true),
        }
        at += 1;
    }
    Ok(crowd.table.rows[state].at_end.is_some())
}

/// Whether there may be a match from a place on. There may be one, too, where there is no room for the rows.
pub(crate) fn may_match(
    alloc: Global,
    nodes: &[Node],
    entry: usize,
    classes: &[u8; 256],
    text: &[u8],
    from: usize,
) -> Result<bool, AllocError>
    requires inside { from ≤ length text.now }
    requires classes { AreClasses nodes.now classes.now }
    ensures { IfOk result
        (λ may. may ≡ false → IsBest nodes.now text.now entry from (length text.now + 1) None) }
{
    let mut crowd = no_crowd(alloc, nodes)?;
    may_cross(nodes, entry, classes, &mut crowd, text, from)
}
