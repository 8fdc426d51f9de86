//! Bytes that stand between fields.
ghost use Rattle.std.specs.Prelude.{◌≡◌};
ghost use Rattle.sem_primitives.specs.Fields.{is_blank};
ghost use Rattle.memchr.specs.Find.{IsFirstByte};
ghost use Rattle.host_format.specs.Marks.{is_mark, skips_empty};

use memchr::{memchr, memchr2, memchr3};

/// A mark among so many bytes is looked for byte by byte: most fields are short.
const NEAR: usize = 16;

/// Whether a byte is a space, a tab or a newline.
#[inline(always)]
fn is_blank(byte: u8) -> bool
    ensures { result ≡ is_blank byte }
{
    byte == b' ' || byte == b'\t' || byte == b'\n'
}

/// Which bytes stand between fields.
#[derive(Clone, Copy)]
pub(crate) enum Marks {
    Byte(u8),
    ByteOrNewline(u8),
    /// Spaces, tabs and newlines: runs of them stand between fields, so that no field is empty.
    Blanks,
}

impl Marks {
    /// Whether a byte is one of them.
    #[inline(always)]
    fn has(self, byte: u8) -> bool
        ensures { result ≡ is_mark self byte }
    {
        match self {
            Marks::Byte(mark) => byte == mark,
            Marks::ByteOrNewline(mark) => byte == mark || byte == b'\n',
            Marks::Blanks => is_blank(byte),
        }
    }

    /// The first place of such a byte, where it is likely to be far.
    #[inline(never)]
    fn find_far(self, text: &[u8]) -> Option<usize>
        ensures { IsFirstByte (is_mark self) text.now result }
    {
        match self {
            Marks::Byte(byte) => memchr(byte, text),
            Marks::ByteOrNewline(byte) => memchr2(byte, b'\n', text),
            Marks::Blanks => memchr3(b' ', b'\t', b'\n', text),
        }
    }

    /// The first place of such a byte.
    #[inline(always)]
    pub(crate) fn find(self, text: &[u8]) -> Option<usize>
        ensures { IsFirstByte (is_mark self) text.now result }
    {
        let near = text.len().min(NEAR);
        for at in 0..near {
            if self.has(text[at]) {
                return Some(at);
            }
        }
        if near == text.len() {
            return None;
        }
        match self.find_far(&text[near..]) {
            Some(at) => Some(near + at),
            None => None,
        }
    }

    /// Whether empty pieces are no fields.
    #[inline(always)]
    pub(crate) fn skips_empty(self) -> bool
        ensures { result ≡ skips_empty self }
    {
        matches!(self, Marks::Blanks)
    }
}
