//! A scan of a text: threads from all starts at once, of which the earliest at each node is kept.
ghost use Rattle.std.specs.Prelude.{◌≡◌, ◌+◌, ◌<◌, ◌≤◌, ℕ, false, length, nat_eq, true, List};
ghost use Rattle.ere_match.specs.Threads.{AreThreads, Holds, IsBest, IsSettled, SpecNode, better_of};

use crate::node::Node;
use crate::step::accepted;
use crate::sweep::sweep;
use crate::threads::{clear, close, mark};

/// The best match so far, with the least start that is accepted at this place.
pub(crate) fn better(
    accepted: Option<usize>,
    at: usize,
    best: Option<(usize, usize)>,
) -> Option<(usize, usize)>
    ensures { result ≡ better_of accepted at best }
{
    match accepted {
        None => best,
        Some(start) => match best {
            None => Some((start, at)),
            Some(found) => {
                if start <= found.0 {
                    Some((start, at))
                } else {
                    Some(found)
                }
            }
        },
    }
}

/// Whether no thread is left.
fn is_empty(set: &[Option<usize>]) -> bool
    ensures { result ≡ true → (id start : ℕ) → Holds set.now id start → ⊥ }
{
    for thread in set {
        if thread.is_some() {
            return false;
        }
    }
    true
}

/// Begins a thread at this place.
fn seed(set: &mut [Option<usize>], entry: usize, at: usize, best: Option<(usize, usize)>)
    requires { (k s : ℕ) → Holds set.old k s → s ≤ at }
    ensures starts { (k s : ℕ) → Holds set.new k s → s ≤ at }
    ensures threads { (nodes : List SpecNode) (text : List ℕ) (from : ℕ) → from ≤ at
        → AreThreads nodes text entry from at at set.old best → IsBest nodes text entry from at best
        → AreThreads nodes text entry from at (at + 1) set.new best }
{
    match best {
        None => {
            mark(set, entry, at);
        }
        Some(_) => {}
    }
}

/// Leads the threads of a place on as far as they go, and looks for those that are accepted.
fn settle(
    nodes: &[Node],
    entry: usize,
    text: &[u8],
    at: usize,
    set: &mut [Option<usize>],
    best: Option<(usize, usize)>,
) -> Option<(usize, usize)>
    requires same_len { length set.old ≡ length nodes.now }
    requires starts { (k s : ℕ) → Holds set.old k s → s ≤ at }
    ensures starts { (k s : ℕ) → Holds set.new k s → s ≤ at }
    ensures settled { (from : ℕ) → from ≤ at → at ≤ length text.now
        → AreThreads nodes.now text.now entry from at at set.old best
        → IsBest nodes.now text.now entry from at best → IsSettled nodes.now text.now entry from at
        (nat_eq at 0) (nat_eq at (length text.now)) set.new result }
{
    seed(set, entry, at, best);
    close(nodes, set, at, at == 0, at == text.len());
    better(accepted(nodes, set), at, best)
}

/// Leads the threads of a place before the last on as far as they go, looks for those that are accepted, and leads all over
/// the byte, into `next`.
fn cross(
    nodes: &[Node],
    entry: usize,
    text: &[u8],
    at: usize,
    set: &mut [Option<usize>],
    next: &mut [Option<usize>],
    best: Option<(usize, usize)>,
) -> Option<(usize, usize)>
    requires inside { at < length text.now }
    requires set_len { length set.old ≡ length nodes.now }
    requires next_len { length next.old ≡ length nodes.now }
    requires starts { (k s : ℕ) → Holds set.old k s → s ≤ at }
    ensures next_len { length next.new ≡ length nodes.now }
    ensures starts { (k s : ℕ) → Holds next.new k s → s ≤ at }
    ensures threads { (from : ℕ) → from ≤ at → AreThreads nodes.now text.now entry from at at
        set.old best → IsBest nodes.now text.now entry from at best
        → AreThreads nodes.now text.now entry from (at + 1) (at + 1) next.new result }
    ensures best { (from : ℕ) → from ≤ at → AreThreads nodes.now text.now entry from at at set.old
        best → IsBest nodes.now text.now entry from at best
        → IsBest nodes.now text.now entry from (at + 1) result }
{
    seed(set, entry, at, best);
    sweep(nodes, set, next, at, text[at], at == 0);
    better(accepted(nodes, set), at, best)
}

/// Goes on from a place: the least start, and its greatest end, of the runs from the entry, where `best` is that of the runs
/// that end before.
pub(crate) fn scan_on(
    nodes: &[Node],
    entry: usize,
    text: &[u8],
    at: usize,
    set: &mut [Option<usize>],
    next: &mut [Option<usize>],
    best: Option<(usize, usize)>,
) -> Option<(usize, usize)>
    requires inside { at ≤ length text.now }
    requires next_len { length next.old ≡ length nodes.now }
    requires set_len { length set.old ≡ length nodes.now }
    requires starts { (k s : ℕ) → Holds set.old k s → s ≤ at }
    ensures { (from : ℕ) → from ≤ at → AreThreads nodes.now text.now entry from at at set.old best
        → IsBest nodes.now text.now entry from at best
        → IsBest nodes.now text.now entry from (length text.now + 1) result }
{
    let mut best = best;
    for place in at..text.len() {
        best = cross(nodes, entry, text, place, set, next, best);
        match best {
            Some(_) if is_empty(next) => return best,
            _ => {}
        }
        set.copy_from_slice(next);
    }
    settle(nodes, entry, text, text.len(), set, best)
}

/// The least start not before a place, and its greatest end, of the runs from the entry.
pub(crate) fn scan(
    nodes: &[Node],
    entry: usize,
    text: &[u8],
    from: usize,
    set: &mut [Option<usize>],
    next: &mut [Option<usize>],
) -> Option<(usize, usize)>
    requires inside { from ≤ length text.now }
    requires set_len { length set.old ≡ length nodes.now }
    requires next_len { length next.old ≡ length nodes.now }
    ensures { IsBest nodes.now text.now entry from (length text.now + 1) result }
{
    clear(set);
    scan_on(nodes, entry, text, from, set, next, None)
}
