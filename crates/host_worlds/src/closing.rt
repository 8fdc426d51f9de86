//! `close`.
ghost use Rattle.std.specs.Prelude.{◌≡◌, List, [], ℕ, None};
ghost use Rattle.std.specs.FinMap as map;
ghost use Rattle.sem_primitives.specs.declared.table.Primitive.TheVariants as row;
ghost use Rattle.host_imports.specs.declared.import.Import.{Import};
ghost use Rattle.host_values.specs.Forms.{HostForm};
ghost use Rattle.world_core.specs.Traces.{Targets};
ghost use Rattle.host_streams.specs.Given.{AreTargets, GivesNone};
ghost use Rattle.host_streams.specs.OpenFiles.{HoldsOpen, OthersKeep, OthersStay, WritersGo};
ghost use Rattle.host_values.specs.Calls.{reserved_handle};
ghost use Rattle.host_values.specs.WorldCalls.{IsCalled};
ghost use Rattle.host_worlds.specs.Forms.{closing, closed_code};

use awk_values::to_text;
use host_handles::Handles;
use host_streams::Streams;
use host_values::{Refusal, only_handle};
use std::alloc::Global;
use wasm_store::Word;
use world_core::World;

/// The answer by whether there was a file to close, or to flush.
pub(crate) fn code(done: bool) -> Word
    ensures { result ≡ closed_code done }
{
    Word::I32(if done { 0 } else { 3 })
}

/// Closes the file that a value names, for reading and for writing, where no fault is kept, and answers whether it was open.
///
/// # Errors
///
/// A trap, which changes nothing, or want of memory.
pub fn close<W: World>(
    alloc: Global,
    handles: &mut Handles,
    streams: &mut Streams,
    world: &mut W,
    words: &[Word],
) -> Result<Option<Word>, Refusal>
    requires held { HoldsOpen streams.old (W.kinds world.old) }
    requires goes { W.is_modelled → WritersGo streams.old.writers.items (W.state world.old) }
    ensures step { (f : HostForm) (memory : List ℕ) → f.fault ≡ None → IsCalled W.is_modelled
        (Import.OfPrimitive row.Close) (closing handles.old streams.old (W.state world.old) f) words.now
        memory result (closing handles.new streams.new (W.state world.new) f) [] }
    ensures reserved { map.get handles.old reserved_handle ≡ None → map.get handles.new reserved_handle ≡ None }
    ensures held { HoldsOpen streams.new (W.kinds world.new) }
    ensures goes { W.is_modelled → WritersGo streams.new.writers.items (W.state world.new) }
    ensures count { W.count world.new ≡ W.count world.old }
    ensures others { OthersStay streams.old streams.new (W.kinds world.old) (W.kinds world.new) }
    ensures no_others { OthersStay streams.new streams.old (W.kinds world.new) (W.kinds world.old) }
    ensures places { W.is_modelled
        → OthersKeep streams.old (W.kinds world.old) (W.state world.old) (W.state world.new) }
    ensures gives { GivesNone W.did world.old world.new }
    ensures left { (targets : Targets) → AreTargets streams.old.writers.items targets
        → AreTargets streams.new.writers.items targets }
{
    let (handle, value) = match only_handle(handles, words) {
        Ok(read) => read,
        Err(kind) => return Err(Refusal::Trap(kind)),
    };
    let Ok(name) = to_text(alloc, value) else {
        return Err(Refusal::NoMemory);
    };
    handles.take(handle);
    let closed = streams.close(world, name.as_slice());
    Ok(Some(code(closed)))
}
