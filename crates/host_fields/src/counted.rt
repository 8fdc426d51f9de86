//! How many fields a text has, where memory for their places is not to be taken.
ghost use Rattle.std.specs.Prelude.{◌≡◌, ◌≢◌, ◌≤◌, ◌==◌, ◌||◌, ◌&&◌, Bool, [], filter, length};
ghost use Rattle.sem_primitives.specs.Fields.{Blanks, Byte, is_blank, pieces_of};
ghost use Rattle.host_format.specs.Separators.{separator_by};

use host_format::Plain;

pub(crate) fn is_blank(byte: u8) -> bool
    ensures { result ≡ is_blank byte }
{
    byte == b' ' || byte == b'\t' || byte == b'\n'
}

#[tactic(auto, using(crate::proofs::Counting::words_at))]
/// How many runs of bytes there are that are no blanks.
fn count_words(text: &[u8]) -> usize
    ensures { (newlines : Bool) → result ≡ length (pieces_of Blanks newlines text.now) }
{
    let mut count = 0;
    let mut is_inside = false;
    for byte in text {
        let is_outside = is_blank(*byte);
        if !is_outside && !is_inside {
            count += 1;
        }
        is_inside = !is_outside;
    }
    count
}

/// How many of the bytes are this one, or a newline where the flag says so.
fn count_ends(text: &[u8], byte: u8, newlines: bool) -> usize
    ensures count { result
        ≡ length (filter (λ c. (c == byte) || (newlines && (c == 10))) text.now) }
    ensures few { result ≤ length text.now }
{
    text.iter()
        .filter(|b| **b == byte || newlines && **b == b'\n')
        .count()
}

/// How many pieces there are between these bytes, and newlines where the flag says so.
fn count_parts(text: &[u8], byte: u8, newlines: bool) -> usize
    requires { text.now ≢ [] }
    ensures { result ≡ length (pieces_of (Byte byte) newlines text.now) }
{
    count_ends(text, byte, newlines) + 1
}

/// How many pieces a text has. It takes no memory.
#[inline(never)]
pub(crate) fn count_pieces(text: &[u8], by: Plain, newlines: bool) -> usize
    ensures { result ≡ length (pieces_of (separator_by by) newlines text.now) }
{
    if text.is_empty() {
        return 0;
    }
    match by {
        Plain::Blanks => count_words(text),
        Plain::Byte(byte) => count_parts(text, byte, newlines),
    }
}
