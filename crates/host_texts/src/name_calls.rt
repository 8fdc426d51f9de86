//! Calls on names and on assignments of the command line.
ghost use Rattle.std.specs.Prelude.{◌≡◌, List, ℕ, None};
ghost use Rattle.std.specs.FinMap as map;
ghost use Rattle.sem_primitives.specs.declared.table.Primitive.TheVariants as row;
ghost use Rattle.host_imports.specs.Codes.{assign_code};
ghost use Rattle.host_imports.specs.declared.import.Import.{Import};
ghost use Rattle.host_values.specs.Calls.{reserved_handle};
ghost use Rattle.host_values.specs.ElementCalls.{IsTableCall};
ghost use Rattle.host_values.specs.Forms.{HostForm};
ghost use Rattle.host_texts.specs.NameForms.{left_after, of_all, of_names};

use crate::announced_words::declare_front;
use crate::making::make_left;
use crate::names::Names;
use crate::texts::Texts;
use awk_values::{Bytes, Stop};
use host_handles::Handles;
use host_values::{Refusal, Reply, expect_end, give};
use sem_primitives::{AssignAnswer, NameKind};
use std::alloc::Global;
use wasm_store::{TrapKind, Word};

/// A call out of turn.
const UNFIT: Refusal = Refusal::Trap(TrapKind::BadArgument);

/// `declare`: a name of the script is announced, once.
///
/// # Errors
///
/// A trap, which changes nothing, also where the name was announced before; or want of memory.
pub fn declare(
    alloc: Global,
    names: &mut Names,
    words: &[Word],
    memory: &[u8],
) -> Result<Option<Word>, Refusal>
    ensures step { (f : HostForm) → f.fault ≡ None → IsTableCall (Import.OfPrimitive row.Declare) (of_names
        names.old f.values f) words.now memory.now result (of_names names.new f.values f) }
{
    let (text, kind) = match declare_front(memory, words) {
        Ok(said) => said,
        Err(kind) => return Err(Refusal::Trap(kind)),
    };
    let Ok(name) = Bytes::from_slice(alloc, text) else {
        return Err(Refusal::NoMemory);
    };
    if names.declared(&name).is_some() {
        return Err(UNFIT);
    }
    match names.add(name, kind) {
        Ok(()) => Ok(None),
        Err(_) => Err(Refusal::NoMemory),
    }
}

/// The word of an answer.
fn assign_word(answer: AssignAnswer) -> Word
    ensures { result ≡ Word.I32 (assign_code answer) }
{
    match answer {
        AssignAnswer::NoneLeft => Word::I32(0),
        AssignAnswer::Pending => Word::I32(2),
    }
}

/// `start_assign`: makes the assignments of the command line, up to one that the script is to make.
///
/// # Errors
///
/// A trap, which changes nothing, also where one is to be made by the script still; a fault, which is to be kept; or want of memory.
pub fn start_assign(
    alloc: Global,
    texts: &mut Texts,
    names: &mut Names,
    words: &[Word],
) -> Result<Option<Word>, Refusal>
    ensures step { (f : HostForm) (memory : List ℕ) → f.fault ≡ None
        → IsTableCall (Import.OfPrimitive row.StartAssign) (of_all texts.old names.old f) words.now memory
        result (left_after result (of_all texts.old names.old f) (of_all texts.new names.new f)) }
{
    match expect_end(words) {
        Ok(()) => {}
        Err(kind) => return Err(Refusal::Trap(kind)),
    }
    if names.is_pending() {
        return Err(UNFIT);
    }
    match make_left(alloc, texts, names) {
        Ok(answer) => Ok(Some(assign_word(answer))),
        Err(Stop::Fault(fault)) => Err(Refusal::Fault(fault)),
        Err(Stop::NoMemory) => Err(Refusal::NoMemory),
    }
}

/// `pending_name`: the number of the name that the script is to assign to.
///
/// # Errors
///
/// A trap, also where none is.
pub fn pending_name(names: &Names, words: &[Word]) -> Result<Option<Word>, Refusal>
    ensures step { (f : HostForm) (memory : List ℕ) → f.fault ≡ None
        → IsTableCall (Import.OfPrimitive row.PendingName) (of_names names.now f.values f) words.now memory
        result (of_names names.now f.values f) }
{
    match expect_end(words) {
        Ok(()) => {}
        Err(kind) => return Err(Refusal::Trap(kind)),
    }
    match &names.pending {
        Some((number, _)) => Ok(Some(Word::I32(*number))),
        None => Err(UNFIT),
    }
}

/// `pending_value`: the value that the script is to assign, which is given once.
///
/// # Errors
///
/// A trap, which changes nothing, also where there is none; or want of memory.
pub fn pending_value(
    names: &mut Names,
    handles: &mut Handles,
    words: &[Word],
) -> Result<Option<Word>, Refusal>
    requires { map.get handles.old reserved_handle ≡ None }
    ensures step { (f : HostForm) (memory : List ℕ) → f.fault ≡ None
        → IsTableCall (Import.OfPrimitive row.PendingValue) (of_names names.old handles.old f) words.now
        memory result (of_names names.new handles.new f) }
    ensures reserved { map.get handles.new reserved_handle ≡ None }
{
    match expect_end(words) {
        Ok(()) => {}
        Err(kind) => return Err(Refusal::Trap(kind)),
    }
    match names.pending.take() {
        Some((_, value)) => give(handles, Reply::Value(value)),
        None => Err(UNFIT),
    }
}
