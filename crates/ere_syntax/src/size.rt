//! The size of a tree: what the limits are on.
ghost use Rattle.std.specs.Prelude.{◌≡◌, ◌+◌, ◌*◌, ◌≤◌, ◌<◌, min, max, true, Some, IfSome, IsNone, ◌↔◌, IsTrue};
ghost use Rattle.ere_syntax.specs.Tree.{most_ere_nesting, most_positions, times};

use crate::tree::Times;

/// The greatest number of positions, after counts are expanded.
const MAX_POSITIONS: u32 = 10_000;

/// The greatest nesting of groups and repetitions.
pub(crate) const MAX_ERE_NESTING: u32 = 1_000;

/// The positions of a tree, those past the limit as one past it, and its nesting, which is within its limit.
#[derive(Clone, Copy)]
pub(crate) struct Size {
    pub(crate) positions: u32,
    pub(crate) nesting: u32,
    ghost few: { positions ≤ most_positions + 1 },
    ghost shallow: { nesting ≤ most_ere_nesting },
}

fn capped(positions: u32) -> u32
    ensures { result ≡ min positions (most_positions + 1) }
{
    if positions <= MAX_POSITIONS {
        positions
    } else {
        MAX_POSITIONS + 1
    }
}

impl Size {
    /// Of nothing.
    pub(crate) fn none() -> Size
        ensures positions { result.positions ≡ 0 }
        ensures nesting { result.nesting ≡ 0 }
    {
        Size {
            positions: 0,
            nesting: 0,
        }
    }

    /// Of one position.
    pub(crate) fn one() -> Size
        ensures positions { result.positions ≡ 1 }
        ensures nesting { result.nesting ≡ 0 }
    {
        Size {
            positions: 1,
            nesting: 0,
        }
    }

    /// Of both.
    pub(crate) fn beside(self, other: Size) -> Size
        ensures positions { result.positions ≡ min (self.positions + other.positions) (most_positions + 1) }
        ensures nesting { result.nesting ≡ max self.nesting other.nesting }
    {
        Size {
            positions: capped(self.positions + other.positions),
            nesting: if self.nesting < other.nesting {
                other.nesting
            } else {
                self.nesting
            },
        }
    }

    /// One level of nesting more; nothing past the limit.
    pub(crate) fn deeper(self) -> Option<Size>
        ensures some { IfSome result
            (λ s. (s.positions ≡ self.positions) × (s.nesting ≡ self.nesting + 1)) }
        ensures none { IsNone result ↔ (most_ere_nesting < self.nesting + 1) }
    {
        if self.nesting < MAX_ERE_NESTING {
            Some(Size {
                positions: self.positions,
                nesting: self.nesting + 1,
            })
        } else {
            None
        }
    }

    /// So many times.
    pub(crate) fn repeated(self, counts: Times) -> Size
        ensures positions { result.positions
            ≡ min (self.positions * times counts.low counts.high) (most_positions + 1) }
        ensures nesting { result.nesting ≡ self.nesting }
    {
        let factor = match counts.high {
            Some(high) => high,
            None => { if counts.low == 0 { 1 } else { counts.low } }
        };
        Size {
            positions: capped(self.positions * u32::from(factor)),
            nesting: self.nesting,
        }
    }

    /// Whether the limits are kept.
    pub(crate) fn is_within_limits(self) -> bool
        ensures { IsTrue result ↔ (self.positions ≤ most_positions) }
    {
        self.positions <= MAX_POSITIONS
    }
}
