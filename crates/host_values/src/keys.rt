//! Calls on iterators.
ghost use Rattle.std.specs.Prelude.{◌≡◌, List, ℕ, None};
ghost use Rattle.std.specs.FinMap as map;
ghost use Rattle.sem_primitives.specs.declared.table.Primitive.TheVariants as row;
ghost use Rattle.host_imports.specs.declared.import.Import.{Import};
ghost use Rattle.host_values.specs.Calls.{reserved_handle};
ghost use Rattle.host_values.specs.ElementCalls.{IsNumbered, IsTableCall, with_both, with_iterators};
ghost use Rattle.host_values.specs.Forms.{HostForm};

use crate::element_words::{only_array, only_iterator};
use crate::iterators::Iterators;
use crate::value_calls::give_value;
use awk_values::{Bytes, Value};
use host_arrays::Arrays;
use host_handles::Handles;
use host_step::Refusal;
use wasm_store::Word;

/// The word for the end of the keys: -2.
const END: Word = Word::I32(0xffff_fffe);

/// Adds an iterator over these keys.
fn add_keys(iterators: &mut Iterators, keys: Vec<Bytes>) -> Result<Option<Word>, Refusal>
    requires { map.get iterators.old reserved_handle ≡ None }
    ensures number { IsNumbered iterators.old keys.items result iterators.new }
    ensures reserved { map.get iterators.new reserved_handle ≡ None }
{
    match iterators.add(keys) {
        Ok(number) => Ok(Some(Word::I32(number.cast_unsigned()))),
        Err(_) => Err(Refusal::NoMemory),
    }
}

/// Starts to visit the keys of an array, as they are now.
///
/// # Errors
///
/// A trap, or want of memory; nothing changes.
pub fn iter(
    arrays: &Arrays,
    iterators: &mut Iterators,
    words: &[Word],
) -> Result<Option<Word>, Refusal>
    requires { map.get iterators.old reserved_handle ≡ None }
    ensures step { (f : HostForm) (memory : List ℕ) → f.fault ≡ None
        → IsTableCall (Import.OfPrimitive row.Iter) (with_both arrays.now iterators.old f) words.now memory
        result (with_both arrays.now iterators.new f) }
    ensures reserved { map.get iterators.new reserved_handle ≡ None }
{
    let array = match only_array(arrays, words) {
        Ok(array) => array,
        Err(kind) => return Err(Refusal::Trap(kind)),
    };
    let Ok(keys) = arrays.keys(array) else {
        return Err(Refusal::NoMemory);
    };
    add_keys(iterators, keys)
}

/// The next key of an iterator, or that none is left.
///
/// # Errors
///
/// A trap, which changes nothing, or want of memory.
pub fn iter_next(
    iterators: &mut Iterators,
    handles: &mut Handles,
    words: &[Word],
) -> Result<Option<Word>, Refusal>
    requires { map.get handles.old reserved_handle ≡ None }
    ensures step { (f : HostForm) (memory : List ℕ) → f.fault ≡ None
        → IsTableCall (Import.OfPrimitive row.IterNext) (with_iterators handles.old iterators.old f)
        words.now memory result (with_iterators handles.new iterators.new f) }
    ensures reserved { map.get handles.new reserved_handle ≡ None }
    ensures reserved_iterator { map.get iterators.old reserved_handle ≡ None → map.get iterators.new reserved_handle
        ≡ None }
{
    let number = match only_iterator(iterators, words) {
        Ok(number) => number,
        Err(kind) => return Err(Refusal::Trap(kind)),
    };
    match iterators.next(number) {
        Ok(Some(key)) => give_value(handles, Value::Text(key)),
        Ok(None) => Ok(Some(END)),
        Err(_) => Err(Refusal::NoMemory),
    }
}

/// Gives an iterator up, also where a fault is kept.
///
/// # Errors
///
/// A trap, which changes nothing.
pub fn iter_free(iterators: &mut Iterators, words: &[Word]) -> Result<Option<Word>, Refusal>
    ensures step { (f : HostForm) (memory : List ℕ)
        → IsTableCall Import.IterFree (with_iterators f.values iterators.old f) words.now memory
        result (with_iterators f.values iterators.new f) }
    ensures reserved { map.get iterators.old reserved_handle ≡ None → map.get iterators.new reserved_handle ≡ None }
{
    let number = match only_iterator(iterators, words) {
        Ok(number) => number,
        Err(kind) => return Err(Refusal::Trap(kind)),
    };
    iterators.free(number);
    Ok(None)
}
