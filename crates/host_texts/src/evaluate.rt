//! Imports on texts that change nothing but handles.
ghost use Rattle.std.specs.Prelude.{◌≡◌, IfOk};
ghost use Rattle.awk_values.specs.Values.{text_of_value};
ghost use Rattle.host_step.specs.HostState.{HostState};
ghost use Rattle.host_bytes.specs.Parts.{part};
ghost use Rattle.host_texts.specs.Evaluations.{index_evaluation, length_evaluation, lower_evaluation, substr_evaluation, substr_from_evaluation, upper_evaluation};
ghost use Rattle.host_values.specs.Evaluations.{Evaluates};

use crate::numbers::counted;
use crate::text_words::{one_value, two_values};
use awk_values::{Bytes, Value};
use host_format::{index_of, lower, substr, substr_span, upper};
use host_handles::Handles;
use host_values::{
    Evaluated, Refusal, Reply, Spent, expect_end, number_front, text_len, value_front, value_text,
};
use std::alloc::{AllocError, Global};
use wasm_store::Word;

/// The length of a value's text.
///
/// # Errors
///
/// A trap.
#[inline(always)]
pub fn length(handles: &Handles, words: &[Word]) -> Result<Evaluated, Refusal>
    ensures { (s : HostState) → Evaluates handles.now s result s
        (length_evaluation handles.now s words.now) }
{
    let (handle, value) = one_value(handles, words)?;
    Ok(Evaluated {
        spent: Spent::One(handle),
        outcome: Ok(Reply::Number(counted(text_len(value)))),
    })
}

/// Where a text stands in another first.
///
/// # Errors
///
/// A trap, or want of memory.
pub fn index(alloc: Global, handles: &Handles, words: &[Word]) -> Result<Evaluated, Refusal>
    ensures { (s : HostState) → Evaluates handles.now s result s
        (index_evaluation handles.now s words.now) }
{
    let (first, value, second, wanted) = two_values(handles, words)?;
    let text = value_text(alloc, value)?;
    let wanted = value_text(alloc, wanted)?;
    Ok(Evaluated {
        spent: Spent::Two(first, second),
        outcome: Ok(Reply::Number(counted(index_of(text.as_slice(), wanted.as_slice())))),
    })
}

/// A text in lower case.
///
/// # Errors
///
/// A trap, or want of memory.
pub fn lower_case(alloc: Global, handles: &Handles, words: &[Word]) -> Result<Evaluated, Refusal>
    ensures { (s : HostState) → Evaluates handles.now s result s
        (lower_evaluation handles.now s words.now) }
{
    let (handle, value) = one_value(handles, words)?;
    let text = value_text(alloc, value)?;
    match lower(alloc, text.as_slice()) {
        Ok(text) => Ok(Evaluated {
            spent: Spent::One(handle),
            outcome: Ok(Reply::Value(Value::Text(text))),
        }),
        Err(_) => Err(Refusal::NoMemory),
    }
}

/// A text in upper case.
///
/// # Errors
///
/// A trap, or want of memory.
pub fn upper_case(alloc: Global, handles: &Handles, words: &[Word]) -> Result<Evaluated, Refusal>
    ensures { (s : HostState) → Evaluates handles.now s result s
        (upper_evaluation handles.now s words.now) }
{
    let (handle, value) = one_value(handles, words)?;
    let text = value_text(alloc, value)?;
    match upper(alloc, text.as_slice()) {
        Ok(text) => Ok(Evaluated {
            spent: Spent::One(handle),
            outcome: Ok(Reply::Value(Value::Text(text))),
        }),
        Err(_) => Err(Refusal::NoMemory),
    }
}

/// A part of a text of at most so many bytes shares it.
const SHORT: usize = 256;

/// A part of a text, which is shared where it is short.
fn part_of(alloc: Global, text: &Bytes, from: i64, count: Option<i64>) -> Result<Bytes, AllocError>
    ensures { IfOk result (λ new. new ≡ part text.now from count) }
{
    let (first, past) = substr_span(text.as_slice(), from, count);
    if text.len() <= SHORT {
        return text.part(first, past);
    }
    Bytes::from_slice(alloc, &text.as_slice()[first..past])
}

/// A part of a value's text.
fn part(alloc: Global, value: &Value, from: i64, count: Option<i64>) -> Result<Value, AllocError>
    ensures { IfOk result (λ new. new ≡ Value.Text (part (text_of_value value.now) from count)) }
{
    match value {
        Value::Text(text) | Value::StrNum(text) => {
            Ok(Value::Text(part_of(alloc, text, from, count)?))
        }
        Value::Uninit | Value::Num(_) => {
            let text = value_text(alloc, value)?;
            let part = Bytes::from_slice(alloc, substr(text.as_slice(), from, count))?;
            Ok(Value::Text(part))
        }
    }
}

/// A part of a text, of so many bytes.
///
/// # Errors
///
/// A trap, or want of memory.
pub fn substr_of(alloc: Global, handles: &Handles, words: &[Word]) -> Result<Evaluated, Refusal>
    ensures { (s : HostState) → Evaluates handles.now s result s
        (substr_evaluation handles.now s words.now) }
{
    let (handle, value, behind) = value_front(handles, words)?;
    let (from, behind_from) = number_front(behind)?;
    let (count, rest) = number_front(behind_from)?;
    expect_end(rest)?;
    Ok(Evaluated {
        spent: Spent::One(handle),
        outcome: Ok(Reply::Value(part(alloc, value, from, Some(count))?)),
    })
}

/// The rest of a text.
///
/// # Errors
///
/// A trap, or want of memory.
pub fn substr_from(alloc: Global, handles: &Handles, words: &[Word]) -> Result<Evaluated, Refusal>
    ensures { (s : HostState) → Evaluates handles.now s result s
        (substr_from_evaluation handles.now s words.now) }
{
    let (handle, value, behind) = value_front(handles, words)?;
    let (from, rest) = number_front(behind)?;
    expect_end(rest)?;
    Ok(Evaluated {
        spent: Spent::One(handle),
        outcome: Ok(Reply::Value(part(alloc, value, from, None)?)),
    })
}
