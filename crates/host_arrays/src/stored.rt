//! Texts that are kept for long.
ghost use Rattle.std.specs.Prelude.{◌≡◌, IfErr, IfOk};

use awk_values::Bytes;
use std::alloc::Global;

/// A text that is stored may keep a text in memory that is longer by this many bytes than twice its own length.
const MOST_MORE: usize = 256;

/// The same text, to be stored where texts may be parts of others of up to `longest` bytes: a copy, unless what it may keep in memory is little more than
/// twice its bytes. It is handed back where there is no memory.
#[inline(always)]
pub(crate) fn stored(alloc: Global, text: Bytes, longest: usize) -> Result<Bytes, Bytes>
    ensures stored { IfOk result (λ stored. stored ≡ text) }
    ensures handed_back { IfErr result (λ t. t ≡ text) }
{
    if longest <= MOST_MORE || (longest - MOST_MORE) / 2 <= text.len() {
        return Ok(text);
    }
    match Bytes::from_slice(alloc, text.as_slice()) {
        Ok(copy) => Ok(copy),
        Err(_) => Err(text),
    }
}
