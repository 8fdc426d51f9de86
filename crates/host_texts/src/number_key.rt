//! The digits of a key of two numbers.
ghost use Rattle.std.specs.Prelude.{◌≡◌, ◌+◌, ◌++◌, ◌∷◌, ◌≤◌, drop, length};
ghost use Rattle.std.specs.Fmt.{signed_decimal};

/// A key of two numbers and a byte has at most so many bytes.
pub(crate) const MOST_KEY: usize = 41;

/// Writes the digits of a number, after a minus if it is below 0, so that they end there; where they begin.
#[inline(always)]
fn write_number(number: i64, room: &mut [u8], end: usize) -> usize
    requires { (20 ≤ end) × (end ≤ length room.old) }
    ensures start { (result ≤ end) × (end ≤ result + 20) }
    ensures written { drop result room.new ≡ signed_decimal number ++ drop end room.old }
    ensures len { length room.new ≡ length room.old }
{
    let start = itoa::write_digits(number.unsigned_abs(), room, end);
    if number >= 0 {
        return start;
    }
    room[start - 1] = b'-';
    start - 1
}

/// Writes the digits of two numbers with a byte between them, so that they end with the room; where they begin.
#[inline(always)]
pub(crate) fn write_key(left: i64, between: u8, right: i64, room: &mut [u8; MOST_KEY]) -> usize
    ensures start { result ≤ 41 }
    ensures written { drop result room.new ≡ signed_decimal left ++ between ∷ signed_decimal right }
    ensures short { length (signed_decimal left ++ between ∷ signed_decimal right) ≤ 41 }
{
    let middle = write_number(right, room, MOST_KEY) - 1;
    room[middle] = between;
    write_number(left, room, middle)
}
