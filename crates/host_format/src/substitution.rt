//! Substitution.
ghost use Rattle.std.specs.Prelude.{◌≡◌, ℕ, ◌^◌, ◌<◌, ◌≤◌, ◌++◌, true, Bool, IfErr, IfOk, IfSome, List, None, Ok, Some, length, slice_range};
ghost use Rattle.ere_syntax.specs.Tree.{Tree};
ghost use Rattle.ere_match.specs.Autos.{IsAutoOf};
ghost use Rattle.ere_match.specs.Ends.{AreDeadEnds};
ghost use Rattle.sem_primitives.specs.TextMeaning.{behind, is_empty_at, replacement};
ghost use Rattle.host_format.specs.Expressions.{IsAuto};
ghost use Rattle.host_bytes.specs.Growing.{Grows};
ghost use Rattle.host_bytes.specs.Outcomes.{IsStopOf};
ghost use Rattle.host_format.specs.Substitutions.{IsNextPlace, IsReplaced, substitution};

use crate::eres::first;
use awk_values::{Bytes, Fault, Stop};
use ere_match::{Auto, DeadEnds};
use host_bytes::{Growing, put_replacement};
use sem_primitives::MAX_TEXT;
use std::alloc::{AllocError, Global};

/// What a substitution gives.
#[derive(Drop)]
pub struct Substituted {
    /// How many matches were replaced.
    pub count: usize,
    /// The new text.
    pub text: Bytes,
}

/// Whether a match is empty and directly after the former one, which ended at `last`.
fn is_repeated(place: (usize, usize), last: Option<usize>) -> bool
    ensures { result ≡ is_empty_at last place }
{
    match last {
        Some(end) => place.0 == place.1 && end == place.0,
        None => false,
    }
}

/// The next match to be replaced, from a place on.
fn next_place(
    auto: &mut Auto,
    text: &[u8],
    at: usize,
    last: Option<usize>,
    ends: &mut DeadEnds,
) -> Result<Option<(usize, usize)>, AllocError>
    requires auto { IsAuto auto.old }
    requires ends { AreDeadEnds auto.old text.now ends.old }
    ensures found { (t : Tree) → IsAutoOf auto.old t
        → IfOk result (IsNextPlace t text.now at last) }
    ensures inside { IfOk result
        (λ found. IfSome found (λ m. (at ≤ m.0) × (m.0 ≤ m.1) × (m.1 ≤ length text.now))) }
    ensures kept { (t : Tree) → IsAutoOf auto.old t → IsAutoOf auto.new t }
    ensures auto { IsAuto auto.new }
    ensures ends { IfOk result (λ found. AreDeadEnds auto.new text.now ends.new) }
{
    if at > text.len() {
        return Ok(None);
    }
    let Some(place) = first(auto, text, at, ends)? else {
        return Ok(None);
    };
    if !is_repeated(place, last) {
        return Ok(Some(place));
    }
    if place.0 == text.len() {
        return Ok(None);
    }
    let found = first(auto, text, place.0 + 1, ends)?;
    Ok(found)
}

/// Where matching goes on after a match: an empty one leaves its byte alone.
fn behind(place: (usize, usize)) -> usize
    requires { place.1 < 2 ^ 63 }
    ensures { result ≡ behind place }
{
    if place.0 == place.1 {
        place.1 + 1
    } else {
        place.1
    }
}

/// Adds what stands before a match, and what replaces the match.
fn put_place(out: &mut Growing, by: &[u8], text: &[u8], from: usize, place: (usize, usize))
    requires from { from ≤ place.0 }
    requires start { place.0 ≤ place.1 }
    requires end { place.1 ≤ length text.now }
    ensures { Grows out.old out.new (Ok (slice_range text.now from place.0
        ++ replacement (slice_range text.now place.0 place.1) by.now)) }
{
    out.put(&text[from..place.0]);
    put_replacement(out, &text[place.0..place.1], by);
}

/// Adds the text with every match from the first one on replaced, and tells how many there were.
fn put_all(
    out: &mut Growing,
    auto: &mut Auto,
    by: &[u8],
    text: &[u8],
    first: (usize, usize),
    ends: &mut DeadEnds,
) -> Result<usize, AllocError>
    requires auto { IsAuto auto.old }
    requires ends { AreDeadEnds auto.old text.now ends.old }
    requires order { first.0 ≤ first.1 }
    requires inside { first.1 ≤ length text.now }
    ensures ok { (t : Tree) → IsAutoOf auto.old t → IsNextPlace t text.now 0 None (Some first)
        → IfOk result (λ count. IsReplaced t by.now text.now true count out.old out.new) }
    ensures kept { (t : Tree) → IsAutoOf auto.old t → IsAutoOf auto.new t }
{
    let mut count = 0;
    let mut from = 0;
    let mut at = 0;
    let mut found = Some(first);
    while let Some(place) = found {
        put_place(out, by, text, from, place);
        count += 1;
        from = place.1;
        at = behind(place);
        found = next_place(auto, text, at, Some(from), ends)?;
    }
    out.put(&text[from..]);
    Ok(count)
}

/// Adds the text with this match, the first one, or with every match, replaced, and tells how many these were.
fn put_replaced(
    out: &mut Growing,
    auto: &mut Auto,
    by: &[u8],
    text: &[u8],
    all: bool,
    first: (usize, usize),
    ends: &mut DeadEnds,
) -> Result<usize, AllocError>
    requires auto { IsAuto auto.old }
    requires ends { AreDeadEnds auto.old text.now ends.old }
    requires order { first.0 ≤ first.1 }
    requires inside { first.1 ≤ length text.now }
    ensures ok { (t : Tree) → IsAutoOf auto.old t → IsNextPlace t text.now 0 None (Some first)
        → IfOk result (λ count. IsReplaced t by.now text.now all count out.old out.new) }
    ensures kept { (t : Tree) → IsAutoOf auto.old t → IsAutoOf auto.new t }
{
    if all {
        return put_all(out, auto, by, text, first, ends);
    }
    put_place(out, by, text, 0, first);
    out.put(&text[first.1..]);
    Ok(1)
}

/// The text of these bytes, which keeps no more memory than twice their length and 256 bytes.
fn text_of(alloc: Global, bytes: Vec<u8>) -> Result<Bytes, AllocError>
    ensures { IfOk result (λ text. text ≡ bytes.items) }
{
    if bytes.capacity() / 2 > bytes.len() + 128 {
        return Bytes::from_slice(alloc, bytes.as_slice());
    }
    Bytes::from_vec(bytes)
}

/// What a substitution gives where there is no match: the text itself, which is shared.
fn unchanged(text: &Bytes) -> Result<Substituted, Stop>
    ensures ok { (t : Tree) (by : List ℕ) (all : Bool) → IsNextPlace t text.now 0 None None
        → IfOk result (λ new. substitution t by text.now all ≡ Ok (new.count, new.text)) }
    ensures err { (t : Tree) (by : List ℕ) (all : Bool) → IsNextPlace t text.now 0 None None
        → IfErr result (IsStopOf (substitution t by text.now all)) }
{
    if text.len() > MAX_TEXT {
        return Err(Stop::Fault(Fault::TextLimit));
    }
    let text = text.clone()?;
    Ok(Substituted { count: 0, text })
}

/// The text with its first match, or with every match, replaced (POSIX.1-2017 awk, "String Functions", sub and gsub). Matches are taken
/// from left to right; an empty match directly after the former match is none. Where there is no match the text is shared, and no memory is taken for it.
///
/// # Errors
///
/// `TextLimit` where the new text is past 67,108,864 bytes, and [`Stop::NoMemory`].
pub fn substitute(
    alloc: Global,
    auto: &mut Auto,
    by: &[u8],
    text: &Bytes,
    all: bool,
) -> Result<Substituted, Stop>
    requires { IsAuto auto.old }
    ensures ok { (t : Tree) → IsAutoOf auto.old t
        → IfOk result (λ new. substitution t by.now text.now all ≡ Ok (new.count, new.text)) }
    ensures kept { (t : Tree) → IsAutoOf auto.old t → IsAutoOf auto.new t }
    ensures err { (t : Tree) → IsAutoOf auto.old t
        → IfErr result (IsStopOf (substitution t by.now text.now all)) }
{
    let mut ends = DeadEnds::new(alloc, auto);
    let Some(first) = next_place(auto, text.as_slice(), 0, None, &mut ends)? else {
        return unchanged(text);
    };
    let bytes = Vec::with_capacity(alloc, text.len())?;
    let mut out = Growing { bytes, stop: None };
    let count = put_replaced(&mut out, auto, by, text.as_slice(), all, first, &mut ends)?;
    let text = text_of(alloc, out.all()?)?;
    Ok(Substituted { count, text })
}
