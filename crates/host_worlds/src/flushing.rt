//! `flush`.
ghost use Rattle.std.specs.Prelude.{◌≡◌, List, ℕ, None};
ghost use Rattle.std.specs.FinMap as map;
ghost use Rattle.sem_primitives.specs.declared.table.Primitive.TheVariants as row;
ghost use Rattle.host_imports.specs.declared.import.Import.{Import};
ghost use Rattle.host_values.specs.ElementCalls.{IsTableCall};
ghost use Rattle.host_values.specs.Forms.{HostForm};
ghost use Rattle.host_values.specs.Calls.{reserved_handle};
ghost use Rattle.host_worlds.specs.Forms.{flushing};

use crate::closing::code;
use awk_values::to_text;
use host_handles::Handles;
use host_streams::Streams;
use host_values::{Refusal, only_handle};
use std::alloc::Global;
use wasm_store::Word;

/// Answers whether the file that a value names is open for writing, where no fault is kept. All that was printed to it is out by then. The empty text
/// names all files.
///
/// # Errors
///
/// A trap, which changes nothing, or want of memory.
pub fn flush(
    alloc: Global,
    handles: &mut Handles,
    streams: &Streams,
    words: &[Word],
) -> Result<Option<Word>, Refusal>
    ensures step { (f : HostForm) (memory : List ℕ) → f.fault ≡ None → IsTableCall
        (Import.OfPrimitive row.Flush) (flushing handles.old streams.now f) words.now memory result
        (flushing handles.new streams.now f) }
    ensures reserved { map.get handles.old reserved_handle ≡ None → map.get handles.new reserved_handle ≡ None }
{
    let (handle, value) = match only_handle(handles, words) {
        Ok(read) => read,
        Err(kind) => return Err(Refusal::Trap(kind)),
    };
    let Ok(name) = to_text(alloc, value) else {
        return Err(Refusal::NoMemory);
    };
    handles.take(handle);
    Ok(Some(code(streams.is_out(name.as_slice()))))
}
