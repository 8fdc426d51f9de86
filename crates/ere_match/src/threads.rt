//! Sets of threads, and how they are led on without a byte.
ghost use Rattle.std.specs.Prelude.{◌≡◌, ◌<◌, ◌≤◌, ℕ, Some, false, length, true};
ghost use Rattle.ere_match.specs.Threads.{Holds, IsClosure, IsCovered, IsFollowed, IsLess, IsMarked, IsPassed, IsRaised, IsVisited};

use crate::node::Node;

/// Empties the set.
pub(crate) fn clear(set: &mut [Option<usize>])
    ensures { (id start : ℕ) → Holds set.new id start → ⊥ }
{
    for thread in set.iter_mut() {
        *thread = None;
    }
}

/// Whether the start is earlier than what is there.
fn improves(start: usize, there: Option<usize>) -> bool
    ensures yes { result ≡ true → (bound : ℕ) → start < bound → IsLess bound start there }
    ensures no { result ≡ false → IsCovered there start }
{
    match there {
        None => true,
        Some(before) => start < before,
    }
}

/// Puts a thread into the set unless an earlier one has come there, and tells whether the set has changed.
pub(crate) fn mark(set: &mut [Option<usize>], id: usize, start: usize) -> bool
    ensures { (bound : ℕ) → start < bound → IsMarked bound id start set.old set.new result }
{
    if id >= set.len() {
        return false;
    }
    if !improves(start, set[id]) {
        return false;
    }
    set[id] = Some(start);
    true
}

/// Puts a thread into the set as `mark` does, and tells whether a node not before `from` has changed.
fn raise(set: &mut [Option<usize>], from: usize, id: usize, start: usize) -> bool
    ensures { (bound : ℕ) → start < bound → IsRaised from bound id start set.old set.new result }
{
    mark(set, id, start) && id >= from
}

/// Leads the thread of a node on without a byte, and tells whether a node not before it has changed.
fn follow(
    node: &Node,
    id: usize,
    set: &mut [Option<usize>],
    start: usize,
    first: bool,
    last: bool,
) -> bool
    ensures { (bound : ℕ) → start < bound
        → IsFollowed first last bound id start node.now set.old set.new result }
{
    match node {
        Node::Split(to, other) => {
            let one = raise(set, id, *to, start);
            let two = raise(set, id, *other, start);
            one || two
        }
        Node::Start(to) => first && raise(set, id, *to, start),
        Node::End(to) => last && raise(set, id, *to, start),
        _ => false,
    }
}

/// Leads the thread of a node on, if there is one, and tells whether a node not before it has changed.
pub(crate) fn visit(
    nodes: &[Node],
    id: usize,
    set: &mut [Option<usize>],
    first: bool,
    last: bool,
) -> bool
    requires within { id < length nodes.now }
    requires same_len { length set.old ≡ length nodes.now }
    ensures { (bound : ℕ) → ((k s : ℕ) → Holds set.old k s → s < bound)
        → IsVisited nodes.now first last bound id set.old set.new result }
{
    match set[id] {
        Some(start) => follow(&nodes[id], id, set, start, first, last),
        None => false,
    }
}

/// Leads each thread on once, from the last node to the first, and tells whether one has come to a node that was passed by then.
fn pass(nodes: &[Node], set: &mut [Option<usize>], first: bool, last: bool) -> bool
    requires { length set.old ≡ length nodes.now }
    ensures { (bound : ℕ) → ((k s : ℕ) → Holds set.old k s → s < bound)
        → IsPassed nodes.now first last bound 0 set.old set.new result }
{
    let mut added = false;
    for done in 0..nodes.len() {
        if visit(nodes, nodes.len() - 1 - done, set, first, last) {
            added = true;
        }
    }
    added
}

/// Leads all threads on without a byte, as far as they go, at a place that is the first of its text or the last or neither;
/// no start lies behind `latest`.
pub(crate) fn close(
    nodes: &[Node],
    set: &mut [Option<usize>],
    latest: usize,
    first: bool,
    last: bool,
)
    requires same_len { length set.old ≡ length nodes.now }
    requires starts { (k s : ℕ) → Holds set.old k s → s ≤ latest }
    ensures { IsClosure nodes.now first last set.old set.new }
{
    let mut added = true;
    while added {
        added = pass(nodes, set, first, last);
    }
}
