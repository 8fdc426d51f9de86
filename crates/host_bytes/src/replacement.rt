//! What a replacement stands for.
ghost use Rattle.std.specs.Prelude.{◌≡◌, ◌≤◌, List, Ok, length, ℕ};
ghost use Rattle.memchr.specs.Find.{IsFirstByte, is_byte2};
ghost use Rattle.sem_primitives.specs.TextMeaning.{escaped, replacement};
ghost use Rattle.host_bytes.specs.Growing.{Grows};
ghost use Rattle.host_bytes.specs.declared.growing.Growing.{Growing};

use crate::growing::Growing;
use memchr::memchr2;

/// In a text of so many bytes a byte is looked for one by one.
const SHORT: usize = 16;

/// Whether a byte is a backslash or an ampersand.
#[inline(always)]
fn is_special(byte: u8) -> bool
    ensures { result ≡ is_byte2 92 38 byte }
{
    byte == b'\\' || byte == b'&'
}

/// The first backslash or ampersand. Most replacements are short.
#[inline(always)]
fn find_special(by: &[u8]) -> Option<usize>
    ensures { IsFirstByte (is_byte2 92 38) by.now result }
{
    if by.len() > SHORT {
        return memchr2(b'\\', b'&', by);
    }
    for at in 0..by.len() {
        if is_special(by[at]) {
            return Some(at);
        }
    }
    None
}

/// Adds what a backslash before this text stands for, and gives what is left.
fn put_escaped<'a>(out: &mut Growing, by: &'a [u8]) -> &'a [u8]
    ensures grows { (matched : List ℕ) (end : Growing)
        → Grows out.new end (Ok (replacement matched result.now))
        → Grows out.old end (Ok (escaped matched by.now)) }
    ensures left { length result.now ≤ length by.now }
{
    match by {
        [byte, rest @ ..] if *byte == b'&' || *byte == b'\\' => {
            out.put(&[*byte]);
            rest
        }
        _ => {
            out.put(b"\\");
            by
        }
    }
}

/// Adds what a replacement stands for (POSIX.1-2017 awk, "String Functions", sub): an ampersand is the match, unless a backslash stands
/// before it; two backslashes are one.
pub fn put_replacement(out: &mut Growing, matched: &[u8], by: &[u8])
    ensures { Grows out.old out.new (Ok (replacement matched.now by.now)) }
{
    let mut rest = by;
    while let Some(at) = find_special(rest) {
        out.put(&rest[..at]);
        let after = &rest[at + 1..];
        rest = if rest[at] == b'&' {
            out.put(matched);
            after
        } else {
            put_escaped(out, after)
        };
    }
    out.put(rest);
}
