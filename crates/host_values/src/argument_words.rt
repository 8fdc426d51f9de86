//! What the words of a call say: each function takes one argument from their front, and gives the words behind it.
ghost use Rattle.std.specs.Prelude.{◌≡◌, ◌<◌, IfOk, option_copied, slice_get, unsigned_abs};
ghost use Rattle.sem_primitives.specs.Constants.{fault_at, faults};
ghost use Rattle.sem_primitives.specs.ConstantPlaces.{comparison_at};
ghost use Rattle.sem_primitives.specs.declared.sorts.Constant.{Constant};
ghost use Rattle.std.specs.FinMap as map;
ghost use Rattle.awk_text.specs.NumberText.{InRange};
ghost use Rattle.host_step.specs.Arguments.{constant_front, no_more, number_front, place_front, text_at};
ghost use Rattle.host_values.specs.Fronts.{handle_front, lent, lent_handle, owned, plain_number};

use awk_text::MAX_NUMBER;
use awk_values::{CompareOp, Fault, Value};
use host_handles::Handles;
use wasm_store::{TrapKind, Word};

/// The operators of comparison in the order of their numbers.
const COMPARISONS: [CompareOp; 6] = [
    CompareOp::Less,
    CompareOp::LessOrEqual,
    CompareOp::Equal,
    CompareOp::NotEqual,
    CompareOp::Greater,
    CompareOp::GreaterOrEqual,
];

/// The faults in the order of their numbers, which count from 1.
const FAULTS: [Fault; 16] = [
    Fault::Range,
    Fault::Fraction,
    Fault::DivisionByZero,
    Fault::Inexact,
    Fault::FieldNumber,
    Fault::Format,
    Fault::BadEre,
    Fault::EreTooLarge,
    Fault::TextLimit,
    Fault::OpenInput,
    Fault::ReadFailed,
    Fault::OpenOutput,
    Fault::WriteFailed,
    Fault::TooManyStreams,
    Fault::NextOutside,
    Fault::BadAssignment,
];

const UNFIT: TrapKind = TrapKind::BadArgument;

#[inline(always)]
fn comparison_at(number: u32) -> Option<CompareOp>
    ensures { result ≡ comparison_at number }
{
    COMPARISONS.get(number as usize).copied()
}

/// The fault of a number that counts from 0.
fn fault_from_zero(number: usize) -> Option<Fault>
    ensures { result ≡ slice_get faults number }
{
    FAULTS.get(number).copied()
}

#[tactic(auto, using(crate::proofs::Tables::fault_from_one))]
fn fault_at(number: u32) -> Option<Fault>
    ensures { result ≡ fault_at number }
{
    if number == 0 {
        return None;
    }
    fault_from_zero(number as usize - 1)
}

/// That no word is left.
///
/// # Errors
///
/// A trap, where one is.
#[inline(always)]
pub fn expect_end(words: &[Word]) -> Result<(), TrapKind>
    ensures { result ≡ no_more words.now }
{
    if words.is_empty() { Ok(()) } else { Err(UNFIT) }
}

/// A handle, with its value, and the words behind it.
///
/// # Errors
///
/// A trap, where no handle is there.
#[inline(always)]
pub fn value_front<'a, 'b>(
    handles: &'a Handles,
    words: &'b [Word],
) -> Result<(i32, &'a Value, &'b [Word]), TrapKind>
    ensures { lent_handle result ≡ handle_front handles.now words.now }
{
    let Some((Word::I32(handle), rest)) = words.split_first() else {
        return Err(UNFIT);
    };
    let handle = handle.cast_signed();
    match handles.view(handle) {
        Some(value) => Ok((handle, value, rest)),
        None => Err(TrapKind::BadHandle),
    }
}

/// The same where a handle before it is spent.
///
/// # Errors
///
/// A trap, where no handle is there but the one that is spent.
#[tactic(auto, using(crate::proofs::Tables::get_removed, crate::proofs::Tables::get_others))]
#[inline(always)]
pub fn value_after<'a, 'b>(
    handles: &'a Handles,
    first: i32,
    words: &'b [Word],
) -> Result<(i32, &'a Value, &'b [Word]), TrapKind>
    ensures { lent_handle result ≡ handle_front (map.remove handles.now first) words.now }
{
    let Some((Word::I32(handle), rest)) = words.split_first() else {
        return Err(UNFIT);
    };
    let handle = handle.cast_signed();
    if handle == first {
        return Err(TrapKind::BadHandle);
    }
    match handles.view(handle) {
        Some(value) => Ok((handle, value, rest)),
        None => Err(TrapKind::BadHandle),
    }
}

/// A number in range.
#[inline(always)]
pub fn number_front(words: &[Word]) -> Result<(i64, &[Word]), TrapKind>
    ensures value { owned result ≡ plain_number (number_front words.now) }
    ensures in_range { IfOk result (λ r. InRange r.0) }
{
    let Some((Word::I64(bits), rest)) = words.split_first() else {
        return Err(UNFIT);
    };
    let number = bits.cast_signed();
    if number.unsigned_abs() <= MAX_NUMBER {
        Ok((number, rest))
    } else {
        Err(UNFIT)
    }
}

/// An operator of comparison.
#[inline(always)]
pub(crate) fn comparison_front(words: &[Word]) -> Result<(CompareOp, &[Word]), TrapKind>
    ensures { owned result ≡ constant_front Constant.Comparison words.now }
{
    let Some((Word::I32(number), rest)) = words.split_first() else {
        return Err(UNFIT);
    };
    match comparison_at(*number) {
        Some(op) => Ok((op, rest)),
        None => Err(UNFIT),
    }
}

/// A fault.
pub(crate) fn fault_front(words: &[Word]) -> Result<(Fault, &[Word]), TrapKind>
    ensures { owned result ≡ constant_front Constant.Fault words.now }
{
    let Some((Word::I32(number), rest)) = words.split_first() else {
        return Err(UNFIT);
    };
    match fault_at(*number) {
        Some(fault) => Ok((fault, rest)),
        None => Err(UNFIT),
    }
}

/// The bytes of a place in memory.
fn text_at(memory: &[u8], place: u32, size: u32) -> Option<&[u8]>
    ensures { option_copied result ≡ text_at memory.now place size }
{
    let from = place as usize;
    let end = from + size as usize;
    if end > memory.len() {
        return None;
    }
    Some(&memory[from..end])
}

/// A text in memory, by its place and its length, and the words behind it.
///
/// # Errors
///
/// The trap of words that name no place, or one that is not within the memory.
pub fn place_front<'a>(
    memory: &'a [u8],
    words: &'a [Word],
) -> Result<(&'a [u8], &'a [Word]), TrapKind>
    ensures { lent result ≡ place_front memory.now words.now }
{
    let Some((Word::I32(place), rest)) = words.split_first() else {
        return Err(UNFIT);
    };
    let Some((Word::I32(size), rest)) = rest.split_first() else {
        return Err(UNFIT);
    };
    match text_at(memory, *place, *size) {
        Some(text) => Ok((text, rest)),
        None => Err(TrapKind::BadPointer),
    }
}
