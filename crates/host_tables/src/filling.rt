//! An array takes the pieces of a text.
ghost use Rattle.std.specs.Prelude.{◌≡◌, ◌+◌, IfOk, None, OnErr, OnOk, decimal, map, true};
ghost use Rattle.std.specs.FinMap as maps;
ghost use Rattle.std.specs.List.{All};
ghost use Rattle.sem_primitives.specs.ArrayMeaning.{numbered};
ghost use Rattle.awk_values.specs.declared.value.Value.{Value as AnyValue};
ghost use Rattle.host_arrays.specs.Pairs.{pairs_at, set_pair};
ghost use Rattle.host_format.specs.Spans.{IsInside, span_text};
ghost use Rattle.host_values.specs.Calls.{reserved_handle};

use crate::byte_texts::ByteTexts;
use awk_text::text_of;
use awk_values::{Bytes, Value};
use host_arrays::Arrays;
use host_format::Span;
use std::alloc::{AllocError, Global};

/// A part of a text that is longer by more than this many bytes than twice the part is copied.
const MOST_MORE: usize = 256;

/// Puts a text, which is no part of another, at the key that a number is.
pub(crate) fn put_text(
    arrays: &mut Arrays,
    array: i32,
    number: usize,
    text: Bytes,
) -> Result<(), AllocError>
    requires { maps.contains_key arrays.old array ≡ true }
    ensures put { OnOk result (arrays.new ≡ maps.insert arrays.old array
        (set_pair (decimal number) (AnyValue.StrNum text) (pairs_at arrays.old array))) }
    ensures refused { OnErr result (arrays.new ≡ arrays.old) }
{
    let Ok(number) = i64::try_from(number) else {
        return Err(AllocError);
    };
    let key = text_of(number);
    match arrays.set(array, key.as_bytes(), Value::StrNum(text), 0) {
        Ok(()) => Ok(()),
        Err(_) => Err(AllocError),
    }
}

/// A part of a text, to be stored, where the text may be a part of one of up to `longest` bytes.
fn piece(
    bytes: &mut ByteTexts,
    alloc: Global,
    longest: usize,
    text: &Bytes,
    span: Span,
) -> Result<Bytes, AllocError>
    requires { IsInside text.now span }
    ensures { IfOk result (λ piece. piece ≡ span_text text.now span) }
{
    if longest <= MOST_MORE || (longest - MOST_MORE) / 2 <= span.end - span.start {
        return text.part(span.start, span.end);
    }
    match &text.as_slice()[span.start..span.end] {
        [byte] => bytes.text(alloc, *byte),
        part => Bytes::from_slice(alloc, part),
    }
}

/// The array holds these parts of a text, by their numbers from 1 on, and nothing else. The text may be a part of one of up to `longest` bytes.
pub(crate) fn fill(
    bytes: &mut ByteTexts,
    alloc: Global,
    longest: usize,
    arrays: &mut Arrays,
    array: i32,
    text: &Bytes,
    spans: &[Span],
) -> Result<(), AllocError>
    requires there { maps.contains_key arrays.old array ≡ true }
    requires inside { All (IsInside text.now) spans.now }
    ensures filled { OnOk result (arrays.new
        ≡ maps.insert arrays.old array (numbered 1 (map (span_text text.now) spans.now))) }
    ensures reserved { maps.get arrays.old reserved_handle ≡ None → maps.get arrays.new reserved_handle ≡ None }
{
    arrays.clear(array);
    let longest = longest.max(text.len());
    for (at, span) in spans.iter().enumerate() {
        let piece = piece(bytes, alloc, longest, text, *span)?;
        put_text(arrays, array, at + 1, piece)?;
    }
    Ok(())
}
