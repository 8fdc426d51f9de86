//! `split`: an array takes the pieces of a text (POSIX.1-2017 awk, "String Functions").
ghost use Rattle.std.specs.Prelude.{◌≡◌, List, ℕ, None, length, map, true};
ghost use Rattle.std.specs.FinMap as maps;
ghost use Rattle.std.specs.List.{All};
ghost use Rattle.sem_primitives.specs.ArrayMeaning.{numbered};
ghost use Rattle.sem_primitives.specs.declared.table.Primitive.TheVariants as row;
ghost use Rattle.host_format.specs.Spans.{IsInside, span_text};
ghost use Rattle.host_imports.specs.declared.import.Import.{Import};
ghost use Rattle.host_values.specs.Calls.{reserved_handle};
ghost use Rattle.host_values.specs.ElementCalls.{IsTableCall, with_arrays};
ghost use Rattle.host_values.specs.Forms.{HostForm};
ghost use Rattle.host_tables.specs.Splits.{IsFilled};

use crate::byte_texts::ByteTexts;
use crate::filling::fill;
use crate::pieces::split_outcome;
use crate::split_words::split_front;
use awk_values::Bytes;
use host_arrays::Arrays;
use host_format::{Expressions, Span};
use host_handles::Handles;
use host_texts::counted;
use host_values::Refusal;
use std::alloc::Global;
use wasm_store::Word;

/// The array holds these parts of a text and nothing else; how many they are is answered. The text may be a part of one of up to `longest` bytes.
fn take_pieces(
    bytes: &mut ByteTexts,
    alloc: Global,
    longest: usize,
    arrays: &mut Arrays,
    array: i32,
    text: &Bytes,
    spans: &[Span],
) -> Result<Option<Word>, Refusal>
    requires there { maps.contains_key arrays.old array ≡ true }
    requires inside { All (IsInside text.now) spans.now }
    ensures filled { IsFilled result (length spans.now) (maps.insert arrays.old array
        (numbered 1 (map (span_text text.now) spans.now))) arrays.new }
    ensures reserved { maps.get arrays.old reserved_handle ≡ None → maps.get arrays.new reserved_handle ≡ None }
{
    match fill(bytes, alloc, longest, arrays, array, text, spans) {
        Ok(()) => Ok(Some(Word::I64(counted(spans.len()).cast_unsigned()))),
        Err(_) => Err(Refusal::NoMemory),
    }
}

/// Splits a text at a separator, or at the matches of an expression, which is kept: the array holds the pieces, by their numbers from 1 on, and nothing else.
/// The text may be a part of one of up to `longest` bytes.
///
/// # Errors
///
/// A trap, which changes nothing; a fault, which is to be kept, and changes no array; or want of memory.
pub fn split(
    bytes: &mut ByteTexts,
    alloc: Global,
    longest: usize,
    expressions: &mut Expressions,
    arrays: &mut Arrays,
    handles: &mut Handles,
    words: &[Word],
) -> Result<Option<Word>, Refusal>
    ensures step { (f : HostForm) (memory : List ℕ) → f.fault ≡ None
        → IsTableCall (Import.OfPrimitive row.Split) (with_arrays handles.old arrays.old f) words.now memory
        result (with_arrays handles.new arrays.new f) }
    ensures reserved { maps.get handles.old reserved_handle ≡ None → maps.get handles.new reserved_handle ≡ None }
    ensures reserved_array { maps.get arrays.old reserved_handle ≡ None → maps.get arrays.new reserved_handle ≡ None }
{
    let (first, value, array, second, between, is_ere) = match split_front(arrays, handles, words) {
        Ok(said) => said,
        Err(kind) => return Err(Refusal::Trap(kind)),
    };
    let Ok(found) = split_outcome(alloc, expressions, value, between, is_ere) else {
        return Err(Refusal::NoMemory);
    };
    handles.take(first);
    handles.take(second);
    match found {
        Ok((text, spans)) => take_pieces(
            bytes,
            alloc,
            longest,
            arrays,
            array,
            &text,
            spans.as_slice(),
        ),
        Err(fault) => Err(Refusal::Fault(fault)),
    }
}
