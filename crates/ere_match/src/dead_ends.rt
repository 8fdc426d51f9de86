//! Nodes at places from which no match ends.
ghost use Rattle.std.specs.Prelude.{◌<◌};

/// What searches of one text have found out: nodes at places from which no match ends. With it a search stops where each node that
/// could lead to a longer match is known to lead to none, so all matches of a text together are found in linear time.
#[derive(Drop)]
pub struct DeadEnds {
    /// Nodes are marked at the multiples of this.
    pub(crate) step: usize,
    /// The nodes that are marked at each of these places; a node past the end is not.
    pub(crate) marks: Vec<Vec<bool>>,
    /// Marks at places up to this one say nothing.
    pub(crate) floor: usize,
    ghost apart: { 0 < step },
}
