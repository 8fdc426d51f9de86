//! The field of a number, where memory for the places of all fields is not to be taken.
ghost use Rattle.std.specs.Prelude.{◌≡◌, ◌⊎◌, ◌<◌, ◌≤◌, IfSome, false, option_map, slice_get, true};
ghost use Rattle.memchr.specs.Find.{IsFirstByte};
ghost use Rattle.sem_primitives.specs.Fields.{parted, pieces_of};
ghost use Rattle.host_format.specs.Marks.{kept};
ghost use Rattle.host_format.specs.Separators.{separator_by};
ghost use Rattle.host_format.specs.Spans.{IsInside, span_text};
ghost use Rattle.host_fields.specs.Ends.{is_end, skips_empty};

use crate::counted::is_blank;
use host_format::{Plain, Span};

/// Whether a byte stands between fields.
fn is_end(byte: u8, by: Plain, newlines: bool) -> bool
    ensures { result ≡ is_end by newlines byte }
{
    match by {
        Plain::Blanks => is_blank(byte),
        Plain::Byte(end) => byte == end || newlines && byte == b'\n',
    }
}

/// The first place of such a byte.
fn first_end(text: &[u8], by: Plain, newlines: bool) -> Option<usize>
    ensures { IsFirstByte (is_end by newlines) text.now result }
{
    for (at, byte) in text.iter().enumerate() {
        if is_end(*byte, by, newlines) {
            return Some(at);
        }
    }
    None
}

/// Whether the bytes between two places are a field: between blanks no bytes are none.
fn is_field(by: Plain, start: usize, end: usize) -> bool
    ensures full { result ≡ true → (start < end) ⊎ (skips_empty by ≡ false) }
    ensures empty { result ≡ false → (end ≤ start) × (skips_empty by ≡ true) }
{
    start < end || matches!(by, Plain::Byte(_))
}

/// The field of a number, counted from 0, of a text that is not empty.
fn part_in(text: &[u8], by: Plain, newlines: bool, number: usize) -> Option<Span>
    ensures text { option_map (span_text text.now) result
        ≡ slice_get (kept (skips_empty by) (parted (is_end by newlines) text.now)) number }
    ensures inside { IfSome result (IsInside text.now) }
{
    let mut from = 0;
    let mut left = number;
    while let Some(at) = first_end(&text[from..], by, newlines) {
        let end = from + at;
        if is_field(by, from, end) {
            if left == 0 {
                return Some(Span { start: from, end });
            }
            left -= 1;
        }
        from = end + 1;
    }
    let end = text.len();
    if left == 0 && is_field(by, from, end) {
        return Some(Span { start: from, end });
    }
    None
}

/// The field of a number, counted from 0, as a part of the text; none past the last one. It takes no memory.
#[inline(never)]
pub(crate) fn find_part(text: &[u8], by: Plain, newlines: bool, number: usize) -> Option<Span>
    ensures text { option_map (span_text text.now) result
        ≡ slice_get (pieces_of (separator_by by) newlines text.now) number }
    ensures inside { IfSome result (IsInside text.now) }
{
    if text.is_empty() {
        return None;
    }
    part_in(text, by, newlines, number)
}
