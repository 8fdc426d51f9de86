//! What words say: arrays and iterators by their numbers, and the values of keys.
ghost use Rattle.std.specs.Prelude.{◌≡◌, IfOk, true};
ghost use Rattle.std.specs.FinMap as map;
ghost use Rattle.host_values.specs.Reads.{array_and_two, array_and_value, but_value, lent_key, lent_two, lent_value, number_front, only_number, owned_number, two_handles};

use crate::argument_words::{expect_end, value_after, value_front};
use crate::iterators::Iterators;
use awk_values::Value;
use host_arrays::Arrays;
use host_handles::Handles;
use wasm_store::{TrapKind, Word};

/// The number of an array, and the words behind it.
///
/// # Errors
///
/// A trap, where no array's number is there.
#[inline(always)]
pub fn array_front<'a>(arrays: &Arrays, words: &'a [Word]) -> Result<(i32, &'a [Word]), TrapKind>
    ensures number { owned_number result ≡ number_front arrays.now words.now }
    ensures there { IfOk result (λ x. map.contains_key arrays.now x.0 ≡ true) }
{
    let Some((Word::I32(number), rest)) = words.split_first() else {
        return Err(TrapKind::BadArgument);
    };
    let number = number.cast_signed();
    if arrays.is_array(number) {
        Ok((number, rest))
    } else {
        Err(TrapKind::BadHandle)
    }
}

/// The one array that words name.
#[inline(always)]
pub(crate) fn only_array(arrays: &Arrays, words: &[Word]) -> Result<i32, TrapKind>
    ensures number { result ≡ only_number arrays.now words.now }
    ensures there { IfOk result (λ n. map.contains_key arrays.now n ≡ true) }
{
    let (number, rest) = array_front(arrays, words)?;
    expect_end(rest)?;
    Ok(number)
}

/// The one iterator that words name.
#[inline(always)]
pub(crate) fn only_iterator(iterators: &Iterators, words: &[Word]) -> Result<i32, TrapKind>
    ensures number { result ≡ only_number iterators.now words.now }
    ensures there { IfOk result (λ n. map.contains_key iterators.now n ≡ true) }
{
    let Some((Word::I32(number), rest)) = words.split_first() else {
        return Err(TrapKind::BadArgument);
    };
    let number = number.cast_signed();
    if !iterators.is_iterator(number) {
        return Err(TrapKind::BadHandle);
    }
    expect_end(rest)?;
    Ok(number)
}

/// Two values, each with its handle.
#[inline(always)]
pub(crate) fn two_values<'a>(
    handles: &'a Handles,
    words: &[Word],
) -> Result<(i32, &'a Value, i32, &'a Value), TrapKind>
    ensures { lent_two result ≡ two_handles handles.now words.now }
{
    let (first, left, behind) = value_front(handles, words)?;
    let (second, right, rest) = value_after(handles, first, behind)?;
    expect_end(rest)?;
    Ok((first, left, second, right))
}

/// An array and a key, with the key's handle.
#[inline(always)]
pub(crate) fn array_and_key<'a>(
    arrays: &Arrays,
    handles: &'a Handles,
    words: &[Word],
) -> Result<(i32, i32, &'a Value), TrapKind>
    ensures value { lent_value result ≡ array_and_value arrays.now handles.now words.now }
    ensures there { IfOk result (λ x. map.contains_key arrays.now x.0 ≡ true) }
{
    let (array, behind) = array_front(arrays, words)?;
    let (handle, key, rest) = value_front(handles, behind)?;
    expect_end(rest)?;
    Ok((array, handle, key))
}

/// An array, a key and the handle of a value, with the key's handle.
#[inline(always)]
pub(crate) fn array_key_value<'a>(
    arrays: &Arrays,
    handles: &'a Handles,
    words: &[Word],
) -> Result<(i32, i32, &'a Value, i32), TrapKind>
    ensures value { lent_key result ≡ but_value (array_and_two arrays.now handles.now words.now) }
    ensures there { IfOk result (λ x. map.contains_key arrays.now x.0 ≡ true) }
{
    let (array, behind) = array_front(arrays, words)?;
    let (first, key, second, _) = two_values(handles, behind)?;
    Ok((array, first, key, second))
}
