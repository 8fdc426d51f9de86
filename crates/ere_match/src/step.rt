//! The step of a set of threads by one byte.
ghost use Rattle.std.specs.Prelude.{◌≡◌, ◌<◌, false, length, true};
ghost use Rattle.ere_match.specs.Threads.{AcceptNode, IsAccepted, IsAdvanced, IsStepped, IsTarget, least_of};

use crate::node::Node;
use crate::threads::{clear, mark};

/// Whether the node accepts.
fn accepts(node: &Node) -> bool
    ensures yes { result ≡ true → node.now ≡ AcceptNode }
    ensures no { result ≡ false → node.now ≡ AcceptNode → ⊥ }
{
    matches!(node, Node::Accept)
}

/// The lesser of two starts.
fn earlier(one: Option<usize>, other: Option<usize>) -> Option<usize>
    ensures { result ≡ least_of one other }
{
    match one {
        None => other,
        Some(a) => match other {
            None => Some(a),
            Some(b) => { if a <= b { Some(a) } else { Some(b) } }
        },
    }
}

/// The least start of the threads that have come to an accepting node.
pub(crate) fn accepted(nodes: &[Node], set: &[Option<usize>]) -> Option<usize>
    requires { length set.now ≡ length nodes.now }
    ensures { IsAccepted nodes.now set.now (length nodes.now) result }
{
    let mut least: Option<usize> = None;
    for id in 0..nodes.len() {
        if accepts(&nodes[id]) {
            least = earlier(least, set[id]);
        }
    }
    least
}

/// Where the node leads by the byte, if it takes it.
fn target(node: &Node, byte: u8) -> Option<usize>
    ensures { IsTarget node.now byte result }
{
    match node {
        Node::Take(filter, to) => { if filter.takes(byte) { Some(*to) } else { None } }
        _ => None,
    }
}

/// Leads the thread of a node on by the byte, if there is one that takes it.
pub(crate) fn advance(
    nodes: &[Node],
    id: usize,
    set: &[Option<usize>],
    byte: u8,
    next: &mut [Option<usize>],
)
    requires node { id < length nodes.now }
    requires same_len { length set.now ≡ length nodes.now }
    requires next_len { length next.old ≡ length nodes.now }
    ensures { IsAdvanced nodes.now byte id set.now next.old next.new }
{
    match set[id] {
        None => {}
        Some(start) => match target(&nodes[id], byte) {
            None => {}
            Some(to) => {
                mark(next, to, start);
            }
        },
    }
}

/// Leads all threads on by the byte.
pub(crate) fn step(nodes: &[Node], set: &[Option<usize>], byte: u8, next: &mut [Option<usize>])
    requires same_len { length set.now ≡ length nodes.now }
    requires next_len { length next.old ≡ length nodes.now }
    ensures { IsStepped nodes.now byte (length nodes.now) set.now next.new }
{
    clear(next);
    for id in 0..nodes.len() {
        advance(nodes, id, set, byte, next);
    }
}
