//! A search by rows: the threads of all starts at once, as `scan` leads them, with a table of where each byte leads.
ghost use Rattle.std.specs.Prelude.{◌≡◌, ◌+◌, ◌<◌, ◌≤◌, ◌^◌, ℕ, Bool, List, IfOk, None, Some, is_none, length, nat_eq, slice_get, true};
ghost use Rattle.std.proofs.Common.{get_or};
ghost use Rattle.ere_match.specs.Ends.{AreDead, AreTails, SpecEnds, raised};
ghost use Rattle.ere_match.specs.Leads.{IsLead};
ghost use Rattle.ere_match.specs.Rows.{AreClasses, AreEarly, IsLatest, IsRow, IsSearching, IsTable, SpecRow, is_soon, started};
ghost use Rattle.ere_match.specs.Threads.{IsBest, SpecNode, better_of};

use crate::advance::{advance, begin};
use crate::crowd::may_match;
use crate::dead_ends::DeadEnds;
use crate::haste::{hasten, stride};
use crate::lead::Lead;
use crate::node::Node;
use crate::numbers::unload;
use crate::row::{Row, Table};
use crate::scan::{better, scan_on};
use std::alloc::AllocError;

/// A table is of use where so many bytes are read for each row that is made.
const BYTES_A_ROW: usize = 10;

/// The start with this number.
fn start_of(number: Option<usize>, starts: &[usize]) -> Option<usize>
    requires { (k : ℕ) → number ≡ Some k → k < length starts.now }
    ensures { result ≡ started starts.now number }
{
    match number {
        Some(number) => Some(starts[number]),
        None => None,
    }
}

/// Whether the table was emptied too soon after it had been emptied: then so many rows were made for the bytes since.
fn is_soon(before: Option<usize>, at: usize, rows: usize) -> bool
    ensures { rows < 2 ^ 32 → result ≡ is_soon before at rows }
{
    match before {
        None => false,
        Some(before) => at.saturating_sub(before) < rows.saturating_mul(BYTES_A_ROW),
    }
}

/// Whether it is known that there is no match, by rows without starts.
fn is_over(
    nodes: &[Node],
    entry: usize,
    classes: &[u8; 256],
    table: &Table,
    text: &[u8],
    from: usize,
) -> bool
    requires inside { from ≤ length text.now }
    requires classes { AreClasses nodes.now classes.now }
    ensures { result ≡ true → IsBest nodes.now text.now entry from (length text.now + 1) None }
{
    let alloc = *table.sources.allocator();
    match may_match(alloc, nodes, entry, classes, text, from) {
        Ok(may) => !may,
        Err(_) => false,
    }
}

/// Goes on from a row without the table.
#[inline(always)]
fn go_on(
    nodes: &[Node],
    entry: usize,
    classes: &[u8; 256],
    table: &mut Table,
    text: &[u8],
    from: usize,
    at: usize,
    state: usize,
    best: Option<(usize, usize)>,
) -> Option<(usize, usize)>
    requires begun { from ≤ at }
    requires inside { at ≤ length text.now }
    requires classes { AreClasses nodes.now classes.now }
    requires table { ∥ IsTable nodes.now entry classes.now table.old ∥₁ }
    requires search { ∥ IsSearching nodes.now text.now entry from at state best table.old ∥₁ }
    ensures best { ∥ IsBest nodes.now text.now entry from (length text.now + 1) result ∥₁ }
    ensures table { ∥ IsTable nodes.now entry classes.now table.new ∥₁ }
{
    if best.is_none() && is_over(nodes, entry, classes, table, text, from) {
        return None;
    }
    let row = &table.rows[state];
    unload(&row.ranks, &table.starts, &mut table.set);
    scan_on(
        nodes,
        entry,
        text,
        at,
        &mut table.set,
        &mut table.next,
        best,
    )
}

/// The best match at the end of the text.
fn last(
    row: &Row,
    starts: &[usize],
    end: usize,
    best: Option<(usize, usize)>,
    ends: &mut DeadEnds,
) -> Option<(usize, usize)>
    requires { (k : ℕ) → row.now.at_end ≡ Some k → k < length starts.now }
    ensures best { result ≡ better_of (started starts.now row.now.at_end) end best }
    ensures ends { (all : List SpecNode) (text : List ℕ) (on : Bool) → IsRow all row.now
        → row.now.first ≡ nat_eq end 0 → end ≡ length text
        → AreTails all text end end on row.now ends.old → AreDead all text ends.new }
{
    if row.at_end.is_some() {
        ends.forget(end);
    }
    better(start_of(row.at_end, starts), end, best)
}

/// The match that ends at a place, if the row accepts there, or else the one before: no thread of the row begins behind it.
#[inline(always)]
fn longer(row: &Row, starts: &[usize], at: usize, best: (usize, usize)) -> (usize, usize)
    requires starts { (k : ℕ) → row.now.inside ≡ Some k → k < length starts.now }
    requires ended { best.1 < at }
    ensures best { (all : List SpecNode) → IsRow all row.now → AreEarly row.now starts.now best.0
        → Some result ≡ better_of (started starts.now row.now.inside) at (Some best) }
    ensures latest { AreEarly row.now starts.now best.0
        → IsLatest row.now starts.now row.now.inside result.0 }
    ensures end { result.1 ≤ at }
    ensures tails { (all : List SpecNode) (text : List ℕ) (ends : SpecEnds)
        → AreTails all text at (at + 1) true row.now (raised best.1 ends)
        → AreTails all text at (at + 1) (is_none row.now.inside) row.now (raised result.1 ends) }
{
    match row.inside {
        Some(number) => (starts[number], at),
        None => best,
    }
}

/// Goes on behind a match, where a longer one or one that begins before it may come.
fn follow(
    nodes: &[Node],
    entry: usize,
    classes: &[u8; 256],
    table: &mut Table,
    text: &[u8],
    from: usize,
    at: usize,
    state: usize,
    best: (usize, usize),
    emptied: Option<usize>,
    ends: &mut DeadEnds,
) -> Result<Option<(usize, usize)>, AllocError>
    requires begun { from ≤ at }
    requires inside { at ≤ length text.now }
    requires ended { best.1 < at }
    requires classes { AreClasses nodes.now classes.now }
    requires table { ∥ IsTable nodes.now entry classes.now table.old ∥₁ }
    requires search { ∥ IsSearching nodes.now text.now entry from at state (Some best)
        table.old ∥₁ }
    requires early { (row : SpecRow) → slice_get table.old.rows.items state ≡ Some row
        → AreEarly row table.old.starts.items best.0 }
    requires ends { AreDead nodes.now text.now ends.old }
    ensures best { IfOk result
        (λ found. ∥ IsBest nodes.now text.now entry from (length text.now + 1) found ∥₁) }
    ensures table { ∥ IsTable nodes.now entry classes.now table.new ∥₁ }
    ensures ends { IfOk result (λ found. AreDead nodes.now text.now ends.new) }
{
    let mut at = at;
    let mut state = state;
    let mut best = best;
    let mut emptied = emptied;
    while at < text.len() {
        let row = &table.rows[state];
        let done = ends.is_done(row, at)?;
        if done {
            ends.forget(best.1);
            return Ok(Some(best));
        }
        best = longer(row, &table.starts, at, best);
        let to = at + 1;
        let step = advance(nodes, entry, classes, table, state, text[at], true, to)?;
        state = step.0;
        if step.1 > 0 {
            if is_soon(emptied, to, step.1) {
                ends.forget(to);
                let best = Some(best);
                return Ok(go_on(nodes, entry, classes, table, text, from, to, state, best));
            }
            emptied = Some(to);
        }
        at += 1;
    }
    ends.forget(best.1);
    let best = Some(best);
    Ok(last(&table.rows[state], &table.starts, text.len(), best, ends))
}

/// Goes on behind the first match, with the start of this number.
fn go_behind(
    nodes: &[Node],
    entry: usize,
    classes: &[u8; 256],
    table: &mut Table,
    text: &[u8],
    from: usize,
    at: usize,
    state: usize,
    number: usize,
    emptied: Option<usize>,
    ends: &mut DeadEnds,
) -> Result<Option<(usize, usize)>, AllocError>
    requires begun { from ≤ at }
    requires inside { at < length text.now }
    requires accepts { (row : SpecRow) → slice_get table.old.rows.items state ≡ Some row
        → row.inside ≡ Some number }
    requires classes { AreClasses nodes.now classes.now }
    requires table { ∥ IsTable nodes.now entry classes.now table.old ∥₁ }
    requires search { ∥ IsSearching nodes.now text.now entry from at state None table.old ∥₁ }
    requires ends { AreDead nodes.now text.now ends.old }
    ensures best { IfOk result
        (λ found. ∥ IsBest nodes.now text.now entry from (length text.now + 1) found ∥₁) }
    ensures table { ∥ IsTable nodes.now entry classes.now table.new ∥₁ }
    ensures ends { IfOk result (λ found. AreDead nodes.now text.now ends.new) }
{
    let start = table.starts[number];
    let to = advance(nodes, entry, classes, table, state, text[at], true, at + 1)?;
    follow(
        nodes,
        entry,
        classes,
        table,
        text,
        from,
        at + 1,
        to.0,
        (start, at),
        emptied,
        ends,
    )
}

/// Goes on until a row accepts, and then behind that match.
fn seek(
    nodes: &[Node],
    entry: usize,
    classes: &[u8; 256],
    lead: &Lead,
    table: &mut Table,
    text: &[u8],
    from: usize,
    at: usize,
    state: usize,
    ends: &mut DeadEnds,
) -> Result<Option<(usize, usize)>, AllocError>
    requires begun { from ≤ at }
    requires inside { at ≤ length text.now }
    requires lead { IsLead nodes.now entry lead.now }
    requires classes { AreClasses nodes.now classes.now }
    requires table { ∥ IsTable nodes.now entry classes.now table.old ∥₁ }
    requires search { ∥ IsSearching nodes.now text.now entry from at state None table.old ∥₁ }
    requires ends { AreDead nodes.now text.now ends.old }
    ensures best { IfOk result
        (λ found. ∥ IsBest nodes.now text.now entry from (length text.now + 1) found ∥₁) }
    ensures table { ∥ IsTable nodes.now entry classes.now table.new ∥₁ }
    ensures ends { IfOk result (λ found. AreDead nodes.now text.now ends.new) }
{
    let mut at = at;
    let mut state = state;
    let mut emptied = None;
    while at < text.len() {
        let row = &table.rows[state];
        match row.inside {
            Some(number) => {
                return go_behind(
                    nodes, entry, classes, table, text, from, at, state, number, emptied, ends,
                );
            }
            None => {}
        }
        let step = stride(nodes, entry, classes, table, text, at, state)?;
        at = step.0;
        state = step.1;
        if step.2 > 0 {
            if is_soon(emptied, at, step.2) {
                return Ok(go_on(nodes, entry, classes, table, text, from, at, state, None));
            }
            emptied = Some(at);
        }
        if at < text.len() {
            let next = hasten(nodes, entry, classes, lead, table, text, at, state)?;
            at = next.0;
            state = next.1;
        }
    }
    Ok(last(&table.rows[state], &table.starts, text.len(), None, ends))
}

/// The least start not before a place, and its greatest end, of the runs from the entry. Where the table is emptied again and
/// again, each time after few bytes, threads go on without it.
pub(crate) fn search(
    nodes: &[Node],
    entry: usize,
    classes: &[u8; 256],
    lead: &Lead,
    table: &mut Table,
    text: &[u8],
    from: usize,
    ends: &mut DeadEnds,
) -> Result<Option<(usize, usize)>, AllocError>
    requires inside { from ≤ length text.now }
    requires lead { IsLead nodes.now entry lead.now }
    requires classes { AreClasses nodes.now classes.now }
    requires table { ∥ IsTable nodes.now entry classes.now table.old ∥₁ }
    requires ends { AreDead nodes.now text.now ends.old }
    ensures best { IfOk result
        (λ found. ∥ IsBest nodes.now text.now entry from (length text.now + 1) found ∥₁) }
    ensures table { ∥ IsTable nodes.now entry classes.now table.new ∥₁ }
    ensures ends { IfOk result (λ found. AreDead nodes.now text.now ends.new) }
{
    let at = lead.find(text, from);
    let state = begin(nodes, entry, classes, table, at)?;
    seek(
        nodes, entry, classes, lead, table, text, from, at, state, ends,
    )
}
