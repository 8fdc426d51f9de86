//! Where in the map of an array a key may stand, so that it need not be hashed.

/// The number that a key of digits is; none where it has another byte. It may wrap: a place is only guessed from it.
#[inline(always)]
pub(crate) fn number_in(key: &[u8]) -> Option<usize> {
    let mut number = 0usize;
    for byte in key {
        let digit = byte.wrapping_sub(b'0');
        if digit > 9 {
            return None;
        }
        number = number.wrapping_mul(10).wrapping_add(usize::from(digit));
    }
    Some(number)
}

/// What was seen of the places of keys.
#[derive(Drop)]
pub(crate) struct Near {
    /// Where the key stands that was read last: most often that key is written next.
    last: usize,
    /// How far the number that was read last is ahead of its place: most often numbers come in their order, and the others are as far ahead.
    ahead: usize,
}

impl Near {
    /// Nothing was seen yet.
    pub(crate) fn new() -> Near {
        Near { last: 0, ahead: 0 }
    }

    /// Where a number may stand.
    #[inline(always)]
    pub(crate) fn place_of(&self, number: Option<usize>) -> Option<usize> {
        Some(number?.wrapping_sub(self.ahead))
    }

    /// Where a key may stand that is written.
    #[inline(always)]
    pub(crate) fn place_to_write(&self, number: Option<usize>) -> usize {
        self.place_of(number).unwrap_or(self.last)
    }

    /// Sees where a key stands that is read.
    #[inline(always)]
    pub(crate) fn see(&mut self, place: usize, number: Option<usize>) {
        self.last = place;
        if let Some(number) = number {
            self.ahead = number.wrapping_sub(place);
        }
    }
}
