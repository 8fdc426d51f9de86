//! Depths of trees from those of their parts.

ghost use Rattle.std.specs.Prelude.{◌≡◌, ◌+◌, ℕ, max};
ghost use Rattle.awk_parse.specs.Depths.{capped};

/// The depth of a tree above parts of at most this depth.
pub(crate) fn above(parts: u64) -> u64
    ensures { (n : ℕ) → parts ≡ capped n → result ≡ capped (n + 1) }
{
    parts.saturating_add(1)
}

/// The greater of two depths.
pub(crate) fn deeper(first: u64, second: u64) -> u64
    ensures { (m n : ℕ) → first ≡ capped m → second ≡ capped n → result ≡ capped (max m n) }
{
    first.max(second)
}

/// The depth of a tree above two parts.
pub(crate) fn above_both(first: u64, second: u64) -> u64
    ensures { (m n : ℕ) → first ≡ capped m → second ≡ capped n → result ≡ capped (max m n + 1) }
{
    above(deeper(first, second))
}
