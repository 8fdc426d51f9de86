//! The opening of a name of a world in memory.
ghost use Rattle.std.specs.Prelude.{◌≡◌, IfOk, OnErr};
ghost use Rattle.world_core.specs.WorldState.{Source, Outside};
ghost use Rattle.world_core.specs.Calls.{Reading, Writing, Opens, OpensToRead, OpensToWrite};
ghost use Rattle.world_core.specs.Memory.{kinds_of, memory_state, outside_of};
ghost use Rattle.world_core.specs.declared.file.MemFile.{MemFile as AnyFile};

use crate::file::open_file;
use crate::names::{NamedFile, place_of, source_of_name};
use crate::streams::{MemStream, add_stream};
use crate::{Octets, WorldFault};
use std::alloc::Global;

/// Opens a name for reading.
pub(crate) fn open_to_read(
    files: &[NamedFile],
    streams: &mut Vec<MemStream>,
    alloc: Global,
    name: &[u8],
) -> Result<u32, WorldFault>
    ensures opened { IfOk result
        (λ id. Opens Reading id (kinds_of streams.old.items) (kinds_of streams.new.items)) }
    ensures not_opened { OnErr result (streams.new.items ≡ streams.old.items) }
    ensures told { (input : Source) (output : AnyFile)
        → OpensToRead name.now (memory_state input (outside_of output files.now) streams.old.items)
        result (memory_state input (outside_of output files.now) streams.new.items) }
{
    let source = source_of_name(files, alloc, name)?;
    add_stream(streams, MemStream::Reader(source))
}

/// Opens a name for writing.
pub(crate) fn open_to_write(
    files: &mut Vec<NamedFile>,
    streams: &mut Vec<MemStream>,
    alloc: Global,
    name: &[u8],
    append: bool,
) -> Result<u32, WorldFault>
    ensures opened { IfOk result
        (λ id. Opens Writing id (kinds_of streams.old.items) (kinds_of streams.new.items)) }
    ensures not_opened { OnErr result (streams.new.items ≡ streams.old.items) }
    ensures told { (input : Source) (output : AnyFile) → OpensToWrite name.now append
        (memory_state input (outside_of output files.old.items) streams.old.items) result
        (memory_state input (outside_of output files.new.items) streams.new.items) }
{
    let at = place_of(files, alloc, name)?;
    if !files[at].file.opens {
        return Err(WorldFault::Failed);
    }
    let stream = MemStream::Writer(Octets::from_slice(alloc, name)?);
    let id = add_stream(streams, stream)?;
    let named = &mut files[at];
    open_file(&mut named.file, alloc, append);
    Ok(id)
}
