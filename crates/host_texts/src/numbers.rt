//! Counts as numbers.
ghost use Rattle.std.specs.Prelude.{◌≡◌};
ghost use Rattle.sem_primitives.specs.Texts.{counted};

use awk_text::MAX_NUMBER;

const LARGEST: i64 = MAX_NUMBER as i64;

/// A count as a number.
#[tactic(auto, using(crate::proofs::Counts::counted_within, crate::proofs::Counts::counted_past))]
pub fn counted(count: usize) -> i64
    ensures { result ≡ (counted count).number }
{
    if count <= LARGEST as usize {
        count as i64
    } else {
        LARGEST
    }
}
