//! Calls with one handle: a value is let go, or goes onto the argument list.
ghost use Rattle.std.specs.Prelude.{◌≡◌, List, ℕ, None};
ghost use Rattle.std.specs.FinMap as map;
ghost use Rattle.host_step.specs.HostState.{HostState};
ghost use Rattle.host_step.specs.Outcomes.{IsCall};
ghost use Rattle.host_imports.specs.declared.import.Import.{Import};
ghost use Rattle.host_values.specs.Calls.{reserved_handle, with_values};
ghost use Rattle.host_values.specs.Singles.{IsPushed, left_one, lent_only, only_handle, only_number, only_value, with_arguments};

use crate::argument_words::{expect_end, value_front};
use awk_values::Value;
use host_handles::Handles;
use host_step::Refusal;
use smallvec::SmallVec;
use wasm_store::{TrapKind, Word};

/// The one handle that words name, with its value.
///
/// # Errors
///
/// The trap of words that name no handle, or more than one.
#[inline(always)]
pub fn only_handle<'a>(handles: &'a Handles, words: &[Word]) -> Result<(i32, &'a Value), TrapKind>
    ensures { lent_only result ≡ only_handle handles.now words.now }
{
    let (handle, value, rest) = value_front(handles, words)?;
    expect_end(rest)?;
    Ok((handle, value))
}

/// The one handle that words name.
fn only_number(handles: &Handles, words: &[Word]) -> Result<i32, TrapKind>
    ensures { result ≡ only_number (only_handle handles.now words.now) }
{
    let (handle, _) = only_handle(handles, words)?;
    Ok(handle)
}

/// Takes the one value that words name.
#[inline(always)]
fn take_one(handles: &mut Handles, words: &[Word]) -> Result<Value, TrapKind>
    ensures value { result ≡ only_value (only_handle handles.old words.now) }
    ensures rest { handles.new ≡ left_one handles.old (only_handle handles.old words.now) }
{
    let handle = match only_number(handles, words) {
        Ok(handle) => handle,
        Err(kind) => return Err(kind),
    };
    match handles.take(handle) {
        Some(value) => Ok(value),
        None => unreachable!(),
    }
}

/// Appends a value.
#[inline(always)]
fn push_value(arguments: &mut SmallVec<Value, 8>, value: Value) -> Result<Option<Word>, Refusal>
    ensures { IsPushed arguments.old.items value result arguments.new.items }
{
    match arguments.push(value) {
        Ok(()) => Ok(None),
        Err(_) => Err(Refusal::NoMemory),
    }
}

/// Lets a value go, also where a fault is kept.
///
/// # Errors
///
/// A trap, which changes nothing.
#[inline(always)]
pub fn release(handles: &mut Handles, words: &[Word]) -> Result<Option<Word>, Refusal>
    ensures step { (s : HostState) (memory : List ℕ) → IsCall Import.Drop (with_values handles.old s)
        words.now memory result (with_values handles.new s) }
    ensures reserved { map.get handles.old reserved_handle ≡ None → map.get handles.new reserved_handle ≡ None }
{
    match take_one(handles, words) {
        Ok(value) => {
            handles.let_go(value);
            Ok(None)
        }
        Err(kind) => Err(Refusal::Trap(kind)),
    }
}

/// Moves a value onto the argument list, where no fault is kept.
///
/// # Errors
///
/// A trap, which changes nothing, or want of memory.
#[inline(always)]
pub fn append(
    handles: &mut Handles,
    arguments: &mut SmallVec<Value, 8>,
    words: &[Word],
) -> Result<Option<Word>, Refusal>
    ensures step { (s : HostState) (memory : List ℕ) → s.fault ≡ None → IsCall Import.Arg
        (with_arguments arguments.old.items (with_values handles.old s)) words.now memory result
        (with_arguments arguments.new.items (with_values handles.new s)) }
    ensures reserved { map.get handles.old reserved_handle ≡ None → map.get handles.new reserved_handle ≡ None }
{
    match take_one(handles, words) {
        Ok(value) => push_value(arguments, value),
        Err(kind) => Err(Refusal::Trap(kind)),
    }
}
