//! Parts of a text.
ghost use Rattle.std.specs.Prelude.{◌≡◌, ℕ, ◌+◌, ◌∷◌, ◌≤◌, List, OnOk, length, slice_range, take};
ghost use Rattle.host_format.specs.Spans.{IsSoFar};

use std::alloc::AllocFailed;

/// A part of a text: its bytes from `start` on and before `end`, counted from 0.
#[derive(Clone, Copy)]
pub struct Span {
    pub start: usize,
    pub end: usize,
}

/// Adds a part.
#[inline(always)]
pub(crate) fn push(spans: &mut Vec<Span>, start: usize, end: usize) -> Result<(), AllocFailed<Span>>
    ensures { (text : List ℕ) (rest total : List (List ℕ)) → start ≤ end → end ≤ length text
        → IsSoFar text spans.old.items (slice_range text start end ∷ rest) total
        → OnOk result (IsSoFar text spans.new.items rest total) }
{
    let span = Span { start, end };
    if spans.len() < spans.capacity() {
        spans.push_reserved(span);
        return Ok(());
    }
    spans.push(span)
}

/// Puts a part in the place of another, or after the last one.
#[inline(always)]
pub(crate) fn put(
    spans: &mut Vec<Span>,
    at: usize,
    start: usize,
    end: usize,
) -> Result<(), AllocFailed<Span>>
    requires { at ≤ length spans.old.items }
    ensures within { OnOk result (at + 1 ≤ length spans.new.items) }
    ensures parts { (text : List ℕ) (rest total : List (List ℕ)) → start ≤ end → end ≤ length text
        → IsSoFar text (take at spans.old.items) (slice_range text start end ∷ rest) total
        → OnOk result (IsSoFar text (take (at + 1) spans.new.items) rest total) }
{
    if at < spans.len() {
        spans[at] = Span { start, end };
        return Ok(());
    }
    spans.push(Span { start, end })
}
