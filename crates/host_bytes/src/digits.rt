//! Digits of a number in a base.
ghost use Rattle.std.specs.Prelude.{◌≡◌, ◌<◌, ◌≤◌, ℕ, List, drop};
ghost use Rattle.std.specs.Fmt.{digit_glyph, digits};

use std::marker::Model;

/// The most digits of a number of 64 bits.
const ROOM: usize = 64;

/// The digits of a number.
#[derive(Drop)]
pub(crate) struct Digits {
    room: [u8; 64],
    start: usize,
}

impl Model for Digits {
    ghost Value = { List ℕ };

    ghost view = { λ d. drop d.start d.room };

    ghost invariant = { λ d. d.start ≤ 64 };
}

impl Digits {
    /// The digits of a number in a base from 2 to 16; letters are small unless `upper` says else.
    pub(crate) fn of(number: u64, base: u64, upper: bool) -> Digits
        requires low { 2 ≤ base }
        requires high { base ≤ 16 }
        ensures { result ≡ digits base upper number }
    {
        let mut room = [0; ROOM];
        let start = write_digits(number, base, upper, &mut room);
        Digits { room, start }
    }

    pub(crate) fn as_slice(&self) -> &[u8]
        ensures { result.now ≡ self.now }
    {
        &self.room[self.start..]
    }
}

/// The digit of a number below 16.
fn digit(number: u64, upper: bool) -> u8
    requires { number < 16 }
    ensures { result ≡ digit_glyph upper number }
{
    let low = number as u8;
    if low < 10 {
        b'0' + low
    } else if upper {
        b'A' + (low - 10)
    } else {
        b'a' + (low - 10)
    }
}

/// Writes the digits of a number to the end of the room, and tells where they begin.
fn write_digits(number: u64, base: u64, upper: bool, room: &mut [u8; ROOM]) -> usize
    requires low { 2 ≤ base }
    requires high { base ≤ 16 }
    ensures within { result ≤ 64 }
    ensures written { drop result room.new ≡ digits base upper number }
{
    let mut at = ROOM;
    let mut rest = number;
    while at > 0 {
        at -= 1;
        room[at] = digit(rest % base, upper);
        rest /= base;
        if rest == 0 {
            break;
        }
    }
    at
}
