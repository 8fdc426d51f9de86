//! Parts of texts, places in them, and letters.
ghost use Rattle.std.specs.Prelude.{◌≡◌, ◌≤◌, ℕ, IfErr, IfOk, int_lt, length, map, nat_le, pos, slice_range};
ghost use Rattle.sem_primitives.specs.TextMeaning.{lower, place_of, upper};
ghost use Rattle.awk_values.specs.declared.fault.Stop.TheVariants as stops;
ghost use Rattle.memchr.specs.Find.{FindsNeedle};
ghost use Rattle.host_bytes.specs.Parts.{is_before_end, part};

use awk_values::{Bytes, Stop};
use memchr::{memchr, memmem};
use std::alloc::Global;

/// How many of the text's places, counted from 1, lie before this one.
fn places_before(text: &[u8], place: i128) -> usize
    ensures within { result ≤ length text.now }
    ensures before { (k : ℕ) → k ≤ length text.now → 1 ≤ k → nat_le k result
        ≡ int_lt (pos k) place }
{
    if place < 1 {
        return 0;
    }
    match usize::try_from(place - 1) {
        Ok(places) => places.min(text.len()),
        Err(_) => text.len(),
    }
}

/// How many of the text's places, counted from 1, lie before the end of a part.
fn places_before_end(text: &[u8], start: i64, len: Option<i64>) -> usize
    ensures within { result ≤ length text.now }
    ensures before { (k : ℕ) → k ≤ length text.now → 1 ≤ k → nat_le k result
        ≡ is_before_end start len k }
{
    match len {
        Some(len) => places_before(text, i128::from(start) + i128::from(len)),
        None => text.len(),
    }
}

/// The bytes at the places from `start` on, counted from 1, and before `start + len`; without a length, to the end. The sum has no range.
pub fn substr(text: &[u8], start: i64, len: Option<i64>) -> &[u8]
    ensures { result.now ≡ part text.now start len }
{
    let (first, past) = substr_span(text, start, len);
    &text[first..past]
}

/// The same part, as the place of its first byte and the place behind its last one.
pub fn substr_span(text: &[u8], start: i64, len: Option<i64>) -> (usize, usize)
    ensures part { slice_range text.now result.0 result.1 ≡ part text.now start len }
    ensures order { result.0 ≤ result.1 }
    ensures inside { result.1 ≤ length text.now }
{
    let first = places_before(text, i128::from(start));
    let past = places_before_end(text, start, len).max(first);
    (first, past)
}

/// The first place at which `wanted` stands in the text. A byte is looked for as such, since a search for more takes long to begin.
fn find(text: &[u8], wanted: &[u8]) -> Option<usize>
    ensures { FindsNeedle text.now wanted.now 0 result }
{
    if wanted.len() == 1 {
        return memchr(wanted[0], text);
    }
    memmem::find(text, wanted)
}

/// The first place, counted from 1, at which `wanted` stands in the text; 0 where there is none, and where `wanted` is empty.
pub fn index_of(text: &[u8], wanted: &[u8]) -> usize
    ensures { result ≡ place_of text.now wanted.now }
{
    if wanted.is_empty() {
        return 0;
    }
    match find(text, wanted) {
        Some(at) => at + 1,
        None => 0,
    }
}

fn lower_byte(byte: u8) -> u8
    ensures { result ≡ lower byte }
{
    if b'A' <= byte && byte <= b'Z' {
        byte + 32
    } else {
        byte
    }
}

fn upper_byte(byte: u8) -> u8
    ensures { result ≡ upper byte }
{
    if b'a' <= byte && byte <= b'z' {
        byte - 32
    } else {
        byte
    }
}

/// The text with each ASCII letter in lower case.
///
/// # Errors
///
/// [`Stop::NoMemory`] alone.
pub fn lower(alloc: Global, text: &[u8]) -> Result<Bytes, Stop>
    ensures ok { IfOk result (λ new. new ≡ map lower text.now) }
    ensures err { IfErr result (λ stop. stop ≡ stops.NoMemory) }
{
    let bytes: Vec<u8> = text.iter().map(|byte| lower_byte(*byte)).collect(alloc)?;
    Ok(Bytes::from_vec(bytes)?)
}

/// The text with each ASCII letter in upper case.
///
/// # Errors
///
/// [`Stop::NoMemory`] alone.
pub fn upper(alloc: Global, text: &[u8]) -> Result<Bytes, Stop>
    ensures ok { IfOk result (λ new. new ≡ map upper text.now) }
    ensures err { IfErr result (λ stop. stop ≡ stops.NoMemory) }
{
    let bytes: Vec<u8> = text.iter().map(|byte| upper_byte(*byte)).collect(alloc)?;
    Ok(Bytes::from_vec(bytes)?)
}
