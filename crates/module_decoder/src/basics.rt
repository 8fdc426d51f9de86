//! What stands at the front: integers, bytes, names, types.

ghost use Rattle.std.specs.Prelude.{◌≡◌, ◌+◌, ◌-◌, ◌≤◌, length};
ghost use Rattle.std.specs.Prelude.{if◌then◌else◌};
ghost use Rattle.module_decoder.specs.declared.fault.DecodeFault.TheVariants.{BadSection, BadInteger};
ghost use Rattle.module_decoder.specs.Readers.{Gives, unfinished, place, index_at, bits32_at, bits64_at, bytes_at, cut_at, ended_by};
ghost use Rattle.module_decoder.specs.Readings.{tag_at};
ghost use Rattle.module_decoder.specs.Reading.{val_type_at, val_type_by, block_type_at, reserved_at, mut_at};

use crate::fault::DecodeFault;
use wasm_types::{BlockType, ValType, take_s32, take_s64, take_u32};

/// Where bytes come from: the place of their section's id, and that of the byte after them.
#[derive(Clone, Copy)]
pub struct Span {
    pub section: usize,
    pub end: usize,
}

impl Span {
    /// The place of the first of these bytes.
    pub(crate) fn place(self, bytes: &[u8]) -> usize
        ensures { result ≡ place self bytes.now }
    {
        self.end.saturating_sub(bytes.len())
    }

    /// A part of the section is malformed.
    pub(crate) fn malformed(self) -> DecodeFault
        ensures { result ≡ BadSection self.section }
    {
        DecodeFault::BadSection(self.section)
    }
}

/// Whether all bytes say that more follow, and there are fewer than an integer may have.
pub(crate) fn unfinished(bytes: &[u8], most: u8) -> bool
    ensures { result ≡ unfinished most bytes.now }
{
    if most == 0 {
        return false;
    }
    match bytes {
        [] => true,
        [b, rest @ ..] => *b >= 128 && unfinished(rest, most - 1),
    }
}

fn no_integer(c: Span, most: u8, bytes: &[u8]) -> DecodeFault
    ensures { result ≡ (if unfinished most bytes.now then BadSection c.section else BadInteger
        (place c bytes.now)) }
{
    if unfinished(bytes, most) {
        c.malformed()
    } else {
        DecodeFault::BadInteger(c.place(bytes))
    }
}

/// The bytes are at their end.
pub(crate) fn ended(c: Span, bytes: &[u8]) -> Result<(), DecodeFault>
    ensures { Gives (λ x. x) result (ended_by c bytes.now) }
{
    match bytes {
        [] => Ok(()),
        [_, ..] => Err(c.malformed()),
    }
}

/// An unsigned integer.
#[tactic(auto, unfolding(crate::specs::Readers::index_at))]
pub(crate) fn index(c: Span, bytes: &[u8]) -> Result<(u32, &[u8]), DecodeFault>
    ensures { Gives (λ x. (x.0, x.1.now)) result (index_at c bytes.now) }
{
    match take_u32(bytes) {
        None => Err(no_integer(c, 5, bytes)),
        Some((n, rest)) => Ok((n, rest)),
    }
}

/// The bits of a signed integer of 32 bits.
#[tactic(auto, unfolding(crate::specs::Readers::bits32_at))]
pub(crate) fn bits32(c: Span, bytes: &[u8]) -> Result<(u32, &[u8]), DecodeFault>
    ensures { Gives (λ x. (x.0, x.1.now)) result (bits32_at c bytes.now) }
{
    match take_s32(bytes) {
        None => Err(no_integer(c, 5, bytes)),
        Some((n, rest)) => Ok((n, rest)),
    }
}

/// The bits of a signed integer of 64 bits.
#[tactic(auto, unfolding(crate::specs::Readers::bits64_at))]
pub(crate) fn bits64(c: Span, bytes: &[u8]) -> Result<(u64, &[u8]), DecodeFault>
    ensures { Gives (λ x. (x.0, x.1.now)) result (bits64_at c bytes.now) }
{
    match take_s64(bytes) {
        None => Err(no_integer(c, 10, bytes)),
        Some((n, rest)) => Ok((n, rest)),
    }
}

fn val_type_by(c: Span, b: u8, bytes: &[u8]) -> Result<ValType, DecodeFault>
    ensures { Gives (λ x. x) result (val_type_by c b bytes.now) }
{
    match b {
        0x7f => Ok(ValType::I32),
        0x7e => Ok(ValType::I64),
        0x7d | 0x7c => Err(DecodeFault::Float(c.place(bytes))),
        _ => Err(c.malformed()),
    }
}

/// The type of a value.
pub(crate) fn val_type(c: Span, bytes: &[u8]) -> Result<(ValType, &[u8]), DecodeFault>
    ensures { Gives (λ x. (x.0, x.1.now)) result (val_type_at c bytes.now) }
{
    match bytes {
        [] => Err(c.malformed()),
        [b, rest @ ..] => {
            let t = val_type_by(c, *b, bytes)?;
            Ok((t, rest))
        }
    }
}

/// What a block gives.
pub(crate) fn block_type(c: Span, bytes: &[u8]) -> Result<(BlockType, &[u8]), DecodeFault>
    ensures { Gives (λ x. (x.0, x.1.now)) result (block_type_at c bytes.now) }
{
    match bytes {
        [] => Err(c.malformed()),
        [b, rest @ ..] => {
            if *b == 0x40 {
                return Ok((None, rest));
            }
            let t = val_type_by(c, *b, bytes)?;
            Ok((Some(t), rest))
        }
    }
}

/// A byte that has to be 0.
pub(crate) fn reserved(c: Span, bytes: &[u8]) -> Result<((), &[u8]), DecodeFault>
    ensures { Gives (λ x. (x.0, x.1.now)) result (reserved_at c bytes.now) }
{
    match bytes {
        [] => Err(c.malformed()),
        [b, rest @ ..] => {
            if *b == 0 {
                Ok(((), rest))
            } else {
                Err(DecodeFault::BadOpcode(c.place(bytes)))
            }
        }
    }
}

/// The byte that begins a part.
pub(crate) fn tag(c: Span, code: u8, bytes: &[u8]) -> Result<((), &[u8]), DecodeFault>
    ensures { Gives (λ x. (x.0, x.1.now)) result (tag_at code c bytes.now) }
{
    match bytes {
        [] => Err(c.malformed()),
        [b, rest @ ..] => {
            if *b == code {
                Ok(((), rest))
            } else {
                Err(c.malformed())
            }
        }
    }
}

/// A byte that is 0 or 1.
pub(crate) fn flag(c: Span, bytes: &[u8]) -> Result<(bool, &[u8]), DecodeFault>
    ensures { Gives (λ x. (x.0, x.1.now)) result (mut_at c bytes.now) }
{
    match bytes {
        [] => Err(c.malformed()),
        [b, rest @ ..] => match *b {
            0 => Ok((false, rest)),
            1 => Ok((true, rest)),
            _ => Err(c.malformed()),
        },
    }
}

/// Bytes with their number before them.
pub(crate) fn counted(c: Span, bytes: &[u8]) -> Result<(&[u8], &[u8]), DecodeFault>
    ensures { Gives (λ x. (x.0.now, x.1.now)) result (bytes_at c bytes.now) }
{
    let (n, rest) = index(c, bytes)?;
    let n = n as usize;
    if n <= rest.len() {
        Ok((&rest[..n], &rest[n..]))
    } else {
        Err(c.malformed())
    }
}
