//! The fields of a text.
ghost use Rattle.std.specs.Prelude.{◌≡◌, ℕ, zero, ◌+◌, ◌<◌, ◌≤◌, List, None, Option, IfErr, IfOk, IfSome, OnOk, length, map, slice_range, take, [], ◌∷◌, if◌then◌else◌};
ghost use Rattle.ere_syntax.specs.Tree.{Tree};
ghost use Rattle.ere_match.specs.Autos.{IsAutoOf};
ghost use Rattle.awk_values.specs.declared.fault.Stop.TheVariants as stops;
ghost use Rattle.sem_primitives.specs.Fields.{Expression, Nothing, Separator, newline_end, pieces, pieces_of};
ghost use Rattle.host_format.specs.Between.{IsOpen, separator_end};
ghost use Rattle.host_format.specs.Expressions.{IsAuto};
ghost use Rattle.host_format.specs.Marks.{kept, pieces_by, skips_empty};
ghost use Rattle.host_format.specs.Separators.{IsAnySep, IsSep, separator_by};
ghost use Rattle.host_format.specs.declared.marks.Marks.TheVariants as marks;
ghost use Rattle.host_format.specs.Spans.{AreSpans, IsSoFar};

use crate::eres::first_not_empty;
use crate::marks::Marks;
use crate::sep::{Plain, Sep};
use crate::span::{Span, push, put};
use awk_values::Stop;
use ere_match::{Auto, DeadEnds};
use memchr::memchr;
use std::alloc::{AllocError, Global};

/// Puts a piece in a place, unless it is empty and no field, and gives the place of the next one.
#[inline(always)]
fn put_piece(
    spans: &mut Vec<Span>,
    marks: Marks,
    at: usize,
    start: usize,
    end: usize,
) -> Result<usize, AllocError>
    requires { at ≤ length spans.old.items }
    ensures within { IfOk result (λ next. next ≤ length spans.new.items) }
    ensures parts { (text : List ℕ) (rest total : List (List ℕ)) → start ≤ end → end ≤ length text
        → IsSoFar text (take at spans.old.items)
        (kept (skips_empty marks) (slice_range text start end ∷ rest)) total → IfOk result
        (λ next. IsSoFar text (take next spans.new.items) (kept (skips_empty marks) rest) total) }
{
    if start < end || !marks.skips_empty() {
        put(spans, at, start, end)?;
        return Ok(at + 1);
    }
    Ok(at)
}

/// Puts the pieces between certain bytes in the place of these parts.
#[inline(always)]
fn split_by(spans: &mut Vec<Span>, text: &[u8], marks: Marks) -> Result<(), AllocError>
    ensures { OnOk result (AreSpans text.now spans.new.items (pieces_by marks text.now)) }
{
    let mut from = 0;
    let mut count = 0;
    while let Some(at) = marks.find(&text[from..]) {
        count = put_piece(spans, marks, count, from, from + at)?;
        from = from + at + 1;
    }
    count = put_piece(spans, marks, count, from, text.len())?;
    spans.truncate(count);
    Ok(())
}

/// Adds each byte by itself to no piece.
fn split_each(spans: &mut Vec<Span>, text: &[u8]) -> Result<(), AllocError>
    requires { spans.old.items ≡ [] }
    ensures { OnOk result (AreSpans text.now spans.new.items (map (λ c. c ∷ []) text.now)) }
{
    spans.reserve(text.len())?;
    for at in 0..text.len() {
        push(spans, at, at + 1)?;
    }
    Ok(())
}

/// Adds the lines of a part of the text in which newlines alone separate, if they do, and gives where the last piece begins.
fn push_lines(
    spans: &mut Vec<Span>,
    text: &[u8],
    from: usize,
    to: usize,
    newlines: bool,
) -> Result<usize, AllocError>
    requires from { from ≤ to }
    requires to { to ≤ length text.now }
    ensures from { IfOk result (λ line. (from ≤ line) × (line ≤ to)) }
    ensures rest { (end : ℕ → Option ℕ) → ((k : ℕ) → from ≤ k → k < to → end k ≡ newline_end
        newlines text.now k) → IfOk result (λ line. (k : ℕ) → line ≤ k → k < to → end k ≡ None) }
    ensures lines { (end : ℕ → Option ℕ) (total : List (List ℕ)) → ((k : ℕ) → from ≤ k → k < to
        → end k ≡ newline_end newlines text.now k) → IsOpen end text.now spans.old.items from total
        → IfOk result (λ line. IsOpen end text.now spans.new.items line total) }
{
    let mut line = from;
    if newlines {
        while let Some(at) = memchr(b'\n', &text[line..to]) {
            push(spans, line, line + at)?;
            line = line + at + 1;
        }
    }
    Ok(line)
}

/// Adds the pieces between the matches of an expression that are not empty, and newlines where these separate too, to no piece.
fn split_by_ere(
    spans: &mut Vec<Span>,
    text: &[u8],
    auto: &mut Auto,
    newlines: bool,
) -> Result<(), AllocError>
    requires none { spans.old.items ≡ [] }
    requires auto { IsAuto auto.old }
    ensures ok { (t : Tree) → IsAutoOf auto.old t → OnOk result
        (AreSpans text.now spans.new.items (pieces (Expression t) newlines text.now)) }
    ensures kept { (t : Tree) → IsAutoOf auto.old t → IsAutoOf auto.new t }
{
    let mut ends = DeadEnds::new(*spans.allocator(), auto);
    let mut from = 0;
    while let Some((start, end)) = first_not_empty(auto, text, from, &mut ends)? {
        let line = push_lines(spans, text, from, start, newlines)?;
        push(spans, line, start)?;
        from = end;
    }
    let line = push_lines(spans, text, from, text.len(), newlines)?;
    push(spans, line, text.len())?;
    Ok(())
}

/// The pieces of a text between the matches of an expression that are not empty, as parts of it. An empty text has none. Where `newlines` says so,
/// newlines separate too; of a newline and a match the earlier counts, and at one place the longer.
///
/// # Errors
///
/// There is no memory.
pub fn split_by_expression(
    alloc: Global,
    text: &[u8],
    auto: &mut Auto,
    newlines: bool,
) -> Result<Vec<Span>, AllocError>
    requires { IsAuto auto.old }
    ensures ok { (t : Tree) → IsAutoOf auto.old t → IfOk result
        (λ spans. AreSpans text.now spans.items (pieces_of (Expression t) newlines text.now)) }
    ensures kept { (t : Tree) → IsAutoOf auto.old t → IsAutoOf auto.new t }
{
    let mut spans = Vec::new(alloc);
    if text.is_empty() {
        return Ok(spans);
    }
    split_by_ere(&mut spans, text, auto, newlines)?;
    Ok(spans)
}

fn byte_marks(byte: u8, newlines: bool) -> Marks
    ensures { result ≡ (if newlines then marks.ByteOrNewline byte else marks.Byte byte) }
{
    if newlines {
        Marks::ByteOrNewline(byte)
    } else {
        Marks::Byte(byte)
    }
}

/// Puts the fields of a text, as parts of it, in the place of these parts, whose room they take. An empty text has none. Where `newlines` says so,
/// newlines separate too, unless each byte is a field; of a newline and a match of an expression the earlier counts, and at one place the longer.
///
/// # Errors
///
/// [`Stop::NoMemory`] alone; the parts may be any then.
pub fn split_into(
    spans: &mut Vec<Span>,
    text: &[u8],
    sep: &mut Sep,
    newlines: bool,
) -> Result<(), Stop>
    requires { IsAnySep sep.old }
    ensures ok { (s : Separator) → IsSep sep.old s
        → OnOk result (AreSpans text.now spans.new.items (pieces_of s newlines text.now)) }
    ensures kept { (s : Separator) → IsSep sep.old s → IsSep sep.new s }
    ensures err { IfErr result (λ stop. stop ≡ stops.NoMemory) }
{
    if text.is_empty() {
        spans.clear();
        return Ok(());
    }
    match sep {
        Sep::Blanks => split_by(spans, text, Marks::Blanks)?,
        Sep::EachByte => {
            spans.clear();
            split_each(spans, text)?;
        }
        Sep::Byte(byte) => {
            let marks = byte_marks(*byte, newlines);
            split_by(spans, text, marks)?;
        }
        Sep::Ere(auto) => {
            spans.clear();
            split_by_ere(spans, text, auto, newlines)?;
        }
    }
    Ok(())
}

/// The same by a separator that is no expression.
///
/// # Errors
///
/// There is no memory; the parts may be any then.
pub fn split_plain(
    spans: &mut Vec<Span>,
    text: &[u8],
    by: Plain,
    newlines: bool,
) -> Result<(), AllocError>
    ensures { OnOk result
        (AreSpans text.now spans.new.items (pieces_of (separator_by by) newlines text.now)) }
{
    if text.is_empty() {
        spans.clear();
        return Ok(());
    }
    match by {
        Plain::Blanks => split_by(spans, text, Marks::Blanks),
        Plain::Byte(byte) => split_by(spans, text, byte_marks(byte, newlines)),
    }
}

/// The fields of a text, as parts of it, as [`split_into`] has them.
///
/// # Errors
///
/// [`Stop::NoMemory`] alone.
pub fn split_text(
    alloc: Global,
    text: &[u8],
    sep: &mut Sep,
    newlines: bool,
) -> Result<Vec<Span>, Stop>
    requires { IsAnySep sep.old }
    ensures ok { (s : Separator) → IsSep sep.old s
        → IfOk result (λ spans. AreSpans text.now spans.items (pieces_of s newlines text.now)) }
    ensures kept { (s : Separator) → IsSep sep.old s → IsSep sep.new s }
    ensures err { IfErr result (λ stop. stop ≡ stops.NoMemory) }
{
    let mut spans = Vec::new(alloc);
    split_into(&mut spans, text, sep, newlines)?;
    Ok(spans)
}
