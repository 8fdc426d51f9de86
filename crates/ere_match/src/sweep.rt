//! A place of a scan in one pass: all threads are led on as far as they go, and over the byte.
ghost use Rattle.std.specs.Prelude.{◌≡◌, ◌<◌, ◌≤◌, ℕ, false, length};
ghost use Rattle.ere_match.specs.Threads.{Holds, IsClosure, IsPassed, IsStepped};

use crate::node::Node;
use crate::step::advance;
use crate::threads::{clear, visit};

/// Leads each thread on once, from the last node to the first, and over the byte, and tells whether one has come to a node
/// that was passed by then: if so, what has come over the byte is of no use.
fn pass(
    nodes: &[Node],
    set: &mut [Option<usize>],
    next: &mut [Option<usize>],
    byte: u8,
    first: bool,
) -> bool
    requires set_len { length set.old ≡ length nodes.now }
    requires next_len { length next.old ≡ length nodes.now }
    ensures passed { (bound : ℕ) → ((k s : ℕ) → Holds set.old k s → s < bound)
        → IsPassed nodes.now first false bound 0 set.old set.new result }
    ensures stepped { (bound : ℕ) → ((k s : ℕ) → Holds set.old k s → s < bound) → result ≡ false
        → IsStepped nodes.now byte (length nodes.now) set.new next.new }
    ensures next_len { length next.new ≡ length nodes.now }
{
    clear(next);
    let mut added = false;
    for done in 0..nodes.len() {
        if visit(nodes, nodes.len() - 1 - done, set, first, false) {
            added = true;
        }
        advance(nodes, nodes.len() - 1 - done, set, byte, next);
    }
    added
}

/// Leads all threads on without a byte, as far as they go, at a place that is not the last of its text, and over the byte,
/// into `next`; no start lies behind `latest`.
pub(crate) fn sweep(
    nodes: &[Node],
    set: &mut [Option<usize>],
    next: &mut [Option<usize>],
    latest: usize,
    byte: u8,
    first: bool,
)
    requires set_len { length set.old ≡ length nodes.now }
    requires next_len { length next.old ≡ length nodes.now }
    requires starts { (k s : ℕ) → Holds set.old k s → s ≤ latest }
    ensures closure { IsClosure nodes.now first false set.old set.new }
    ensures stepped { IsStepped nodes.now byte (length nodes.now) set.new next.new }
{
    let mut added = true;
    while added {
        added = pass(nodes, set, next, byte, first);
    }
}
