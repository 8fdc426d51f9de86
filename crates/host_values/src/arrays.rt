//! Calls on arrays and their keys.
ghost use Rattle.std.specs.Prelude.{◌≡◌, List, [], ℕ, None, true};
ghost use Rattle.std.specs.FinMap as map;
ghost use Rattle.sem_primitives.specs.declared.table.Primitive.TheVariants as row;
ghost use Rattle.host_imports.specs.declared.import.Import.{Import};
ghost use Rattle.host_values.specs.Calls.{reserved_handle};
ghost use Rattle.host_values.specs.ElementCalls.{IsNumbered, IsPut, IsTableCall, with_arrays};
ghost use Rattle.host_values.specs.Forms.{HostForm};
ghost use Rattle.host_arrays.specs.Pairs.{pairs_at, set_pair};

use crate::argument_words::expect_end;
use crate::element_keys::key_text;
use crate::element_words::{array_and_key, array_key_value, only_array};
use crate::value_calls::give_back;
use awk_values::Value;
use host_arrays::Arrays;
use host_handles::Handles;
use host_step::Refusal;
use wasm_store::{TrapKind, Word};

/// What is answered where nothing else is to be said.
const DONE: Word = Word::I32(0);

/// Adds an array without an element.
fn add_array(arrays: &mut Arrays) -> Result<Option<Word>, Refusal>
    requires { map.get arrays.old reserved_handle ≡ None }
    ensures number { IsNumbered arrays.old [] result arrays.new }
    ensures reserved { map.get arrays.new reserved_handle ≡ None }
{
    match arrays.new_array() {
        Ok(number) => Ok(Some(Word::I32(number.cast_unsigned()))),
        Err(_) => Err(Refusal::NoMemory),
    }
}

/// Makes an array without an element.
///
/// # Errors
///
/// A trap, where there is a word, or want of memory; nothing changes.
pub fn new_array(arrays: &mut Arrays, words: &[Word]) -> Result<Option<Word>, Refusal>
    requires { map.get arrays.old reserved_handle ≡ None }
    ensures step { (f : HostForm) (memory : List ℕ) → f.fault ≡ None
        → IsTableCall (Import.OfPrimitive row.NewArray) (with_arrays f.values arrays.old f) words.now memory
        result (with_arrays f.values arrays.new f) }
    ensures reserved { map.get arrays.new reserved_handle ≡ None }
{
    match expect_end(words) {
        Ok(()) => add_array(arrays),
        Err(kind) => Err(Refusal::Trap(kind)),
    }
}

/// A copy of an element, which is made where there is none.
///
/// # Errors
///
/// A trap, which changes nothing, or want of memory.
#[inline(always)]
pub fn elem(
    arrays: &mut Arrays,
    handles: &mut Handles,
    words: &[Word],
) -> Result<Option<Word>, Refusal>
    requires { map.get handles.old reserved_handle ≡ None }
    ensures step { (f : HostForm) (memory : List ℕ) → f.fault ≡ None
        → IsTableCall (Import.OfPrimitive row.Elem) (with_arrays handles.old arrays.old f) words.now memory
        result (with_arrays handles.new arrays.new f) }
    ensures reserved { map.get handles.new reserved_handle ≡ None }
    ensures reserved_array { map.get arrays.old reserved_handle ≡ None → map.get arrays.new reserved_handle ≡ None }
{
    let (array, handle, value) = match array_and_key(arrays, handles, words) {
        Ok(read) => read,
        Err(kind) => return Err(Refusal::Trap(kind)),
    };
    let key = key_text(value);
    let Ok(found) = arrays.get_or_create(array, key.as_slice()) else {
        return Err(Refusal::NoMemory);
    };
    drop(key);
    give_back(handles, handle, found)
}

/// Puts a value at a key.
fn put(
    arrays: &mut Arrays,
    array: i32,
    key: &[u8],
    value: Value,
    longest: usize,
) -> Result<Option<Word>, Refusal>
    requires { map.contains_key arrays.old array ≡ true }
    ensures put { IsPut result (map.insert arrays.old array
        (set_pair key.now value (pairs_at arrays.old array))) arrays.new }
    ensures reserved_array { map.get arrays.old reserved_handle ≡ None → map.get arrays.new reserved_handle ≡ None }
{
    match arrays.set(array, key, value, longest) {
        Ok(()) => Ok(Some(DONE)),
        Err(_) => Err(Refusal::NoMemory),
    }
}

/// Gives an element a value, which may be a part of a text of up to `longest` bytes.
///
/// # Errors
///
/// A trap, which changes nothing, or want of memory.
#[inline(always)]
pub fn set_elem(
    arrays: &mut Arrays,
    handles: &mut Handles,
    words: &[Word],
    longest: usize,
) -> Result<Option<Word>, Refusal>
    ensures step { (f : HostForm) (memory : List ℕ) → f.fault ≡ None
        → IsTableCall (Import.OfPrimitive row.SetElem) (with_arrays handles.old arrays.old f) words.now
        memory result (with_arrays handles.new arrays.new f) }
    ensures reserved { map.get handles.old reserved_handle ≡ None → map.get handles.new reserved_handle ≡ None }
    ensures reserved_array { map.get arrays.old reserved_handle ≡ None → map.get arrays.new reserved_handle ≡ None }
{
    let (array, first, _, second) = match array_key_value(arrays, handles, words) {
        Ok(read) => read,
        Err(kind) => return Err(Refusal::Trap(kind)),
    };
    let Some(key) = handles.take(first) else {
        unreachable!();
    };
    let Some(value) = handles.take(second) else {
        unreachable!();
    };
    let text = key_text(&key);
    let outcome = put(arrays, array, text.as_slice(), value, longest);
    drop(text);
    handles.let_go(key);
    outcome
}

/// Whether an array has an element; none is made.
///
/// # Errors
///
/// A trap, which changes nothing.
#[inline(always)]
pub fn has(arrays: &Arrays, handles: &mut Handles, words: &[Word]) -> Result<Option<Word>, Refusal>
    ensures step { (f : HostForm) (memory : List ℕ) → f.fault ≡ None
        → IsTableCall (Import.OfPrimitive row.Has) (with_arrays handles.old arrays.now f) words.now memory
        result (with_arrays handles.new arrays.now f) }
    ensures reserved { map.get handles.old reserved_handle ≡ None → map.get handles.new reserved_handle ≡ None }
{
    let (array, handle, value) = match array_and_key(arrays, handles, words) {
        Ok(read) => read,
        Err(kind) => return Err(Refusal::Trap(kind)),
    };
    let key = key_text(value);
    let found = arrays.has(array, key.as_slice());
    drop(key);
    handles.spend(handle);
    Ok(Some(Word::I32(u32::from(found))))
}

/// Takes an element away, where there is one.
///
/// # Errors
///
/// A trap, which changes nothing.
pub fn delete(
    arrays: &mut Arrays,
    handles: &mut Handles,
    words: &[Word],
) -> Result<Option<Word>, Refusal>
    ensures step { (f : HostForm) (memory : List ℕ) → f.fault ≡ None
        → IsTableCall (Import.OfPrimitive row.Delete) (with_arrays handles.old arrays.old f) words.now memory
        result (with_arrays handles.new arrays.new f) }
    ensures reserved { map.get handles.old reserved_handle ≡ None → map.get handles.new reserved_handle ≡ None }
    ensures reserved_array { map.get arrays.old reserved_handle ≡ None → map.get arrays.new reserved_handle ≡ None }
{
    let (array, handle, value) = match array_and_key(arrays, handles, words) {
        Ok(read) => read,
        Err(kind) => return Err(Refusal::Trap(kind)),
    };
    let key = key_text(value);
    arrays.delete(array, key.as_slice());
    drop(key);
    handles.spend(handle);
    Ok(Some(DONE))
}

/// Takes all elements away. The array stays, and what is left to visit of its keys. It takes no memory.
///
/// # Errors
///
/// A trap, which changes nothing.
pub fn clear(arrays: &mut Arrays, words: &[Word]) -> Result<Option<Word>, Refusal>
    ensures step { (f : HostForm) (memory : List ℕ) → f.fault ≡ None
        → IsTableCall (Import.OfPrimitive row.Clear) (with_arrays f.values arrays.old f) words.now memory
        result (with_arrays f.values arrays.new f) }
    ensures reserved { map.get arrays.old reserved_handle ≡ None → map.get arrays.new reserved_handle ≡ None }
{
    let number = match only_array(arrays, words) {
        Ok(number) => number,
        Err(kind) => return Err(Refusal::Trap(kind)),
    };
    arrays.clear(number);
    Ok(Some(DONE))
}

/// Gives an array up, also where a fault is kept. ARGV and ENVIRON stay.
///
/// # Errors
///
/// A trap, which changes nothing.
pub fn free_array(arrays: &mut Arrays, words: &[Word]) -> Result<Option<Word>, Refusal>
    ensures step { (f : HostForm) (memory : List ℕ) → IsTableCall Import.FreeArray (with_arrays
        f.values arrays.old f) words.now memory result (with_arrays f.values arrays.new f) }
    ensures reserved { map.get arrays.old reserved_handle ≡ None → map.get arrays.new reserved_handle ≡ None }
{
    let number = match only_array(arrays, words) {
        Ok(number) => number,
        Err(kind) => return Err(Refusal::Trap(kind)),
    };
    if number == Arrays::ARGV || number == Arrays::ENVIRON {
        return Err(Refusal::Trap(TrapKind::BadArgument));
    }
    arrays.free(number);
    Ok(None)
}
