//! Answers: what a call spends leaves the handles, and what is new gets one.
ghost use Rattle.std.specs.Prelude.{◌≡◌, None, Ok, true};
ghost use Rattle.std.specs.FinMap as map;
ghost use Rattle.host_values.specs.Calls.{CarriesOut, Gives, reserved_handle};

use crate::reply::{Evaluated, Reply};
use awk_values::Value;
use host_handles::Handles;
use host_step::Refusal;
use wasm_store::Word;

/// Gives a value under a new handle.
///
/// # Errors
///
/// There is no memory; nothing changes.
#[inline(always)]
pub(crate) fn give_value(handles: &mut Handles, value: Value) -> Result<Option<Word>, Refusal>
    requires { map.get handles.old reserved_handle ≡ None }
    ensures answer { Gives (Reply.Value value) handles.old result handles.new }
    ensures reserved { map.get handles.new reserved_handle ≡ None }
{
    match handles.put(value) {
        Ok(handle) => Ok(Some(Word::I32(handle.cast_unsigned()))),
        Err(_) => Err(Refusal::NoMemory),
    }
}

/// Gives a value in the place of one that is spent.
#[inline(always)]
pub(crate) fn give_back(
    handles: &mut Handles,
    handle: i32,
    value: Value,
) -> Result<Option<Word>, Refusal>
    requires there { map.contains_key handles.old handle ≡ true }
    requires reserved { map.get handles.old reserved_handle ≡ None }
    ensures answer { Gives (Reply.Value value) (map.remove handles.old handle) result handles.new }
    ensures reserved { map.get handles.new reserved_handle ≡ None }
{
    let spent = handles.replace(handle, value);
    handles.let_go(spent);
    Ok(Some(Word::I32(handle.cast_unsigned())))
}

/// Gives an answer: a value under a new handle.
///
/// # Errors
///
/// There is no memory; nothing changes.
#[inline(always)]
pub fn give(handles: &mut Handles, reply: Reply) -> Result<Option<Word>, Refusal>
    requires { map.get handles.old reserved_handle ≡ None }
    ensures answer { Gives reply handles.old result handles.new }
    ensures reserved { map.get handles.new reserved_handle ≡ None }
{
    match reply {
        Reply::Value(value) => give_value(handles, value),
        Reply::Number(number) => Ok(Some(Word::I64(number.cast_unsigned()))),
        Reply::Truth(truth) => Ok(Some(Word::I32(u32::from(truth)))),
        Reply::Done => Ok(Some(Word::I32(0))),
    }
}

/// Carries out what a call came to: what it spends leaves the handles, and what is new gets a handle.
///
/// # Errors
///
/// The fault of the call, which is to be kept, or want of memory.
#[inline(always)]
pub fn carry_out(handles: &mut Handles, evaluated: Evaluated) -> Result<Option<Word>, Refusal>
    requires { map.get handles.old reserved_handle ≡ None }
    ensures outcome { CarriesOut (Ok evaluated) handles.old result handles.new }
    ensures reserved { map.get handles.new reserved_handle ≡ None }
{
    evaluated.spent.leave(handles);
    match evaluated.outcome {
        Ok(reply) => give(handles, reply),
        Err(fault) => Err(Refusal::Fault(fault)),
    }
}
