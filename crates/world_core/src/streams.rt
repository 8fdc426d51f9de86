//! The streams of a world in memory, beside the standard ones.
ghost use Rattle.std.specs.Prelude.{◌≡◌, ◌≢◌, IfOk, IfErr, OnErr};
ghost use Rattle.world_core.specs.Calls.{Reading, Writing};
ghost use Rattle.world_core.specs.Memory.{kind_of, reader_of, writer_of, kinds_of, writers_of, Gives, AddsStream};
ghost use Rattle.world_core.specs.WorldState.{Named};

use crate::file::{MemSource, read_source};
use crate::{Octets, WorldFault};

#[derive(Drop)]
pub(crate) enum MemStream {
    Closed,
    Reader(MemSource),
    /// It writes to this name.
    Writer(Octets),
}

pub(crate) fn read_stream(stream: &mut MemStream, buffer: &mut [u8]) -> Result<usize, WorldFault>
    requires { kind_of stream.old ≡ Reading }
    ensures kind { kind_of stream.new ≡ Reading }
    ensures writer { writer_of stream.new ≡ writer_of stream.old }
    ensures gives { Gives result (reader_of stream.old) (reader_of stream.new) buffer.old
        buffer.new }
{
    match stream {
        MemStream::Reader(source) => read_source(source, buffer),
        _ => unreachable!(),
    }
}

/// Puts a stream behind the others, and gives its number.
pub(crate) fn add_stream(streams: &mut Vec<MemStream>, stream: MemStream) -> Result<u32, WorldFault>
    ensures ok { IfOk result (λ id. AddsStream stream id streams.old.items streams.new.items) }
    ensures err { OnErr result (streams.new.items ≡ streams.old.items) }
    ensures not_failed { IfErr result (λ fault. fault ≡ WorldFault.NoMemory) }
{
    let Ok(id) = u32::try_from(streams.as_slice().len() + 2) else {
        return Err(WorldFault::NoMemory);
    };
    match streams.push(stream) {
        Ok(()) => Ok(id),
        Err(_) => Err(WorldFault::NoMemory),
    }
}

/// The name that a stream writes to.
pub(crate) fn written_name(streams: &[MemStream], id: u32) -> &[u8]
    requires open { kinds_of streams.now id ≡ Writing }
    requires own { id ≢ 1 }
    ensures { writers_of streams.now id ≡ Named result.now }
{
    match &streams[id as usize - 2] {
        MemStream::Writer(name) => name.as_slice(),
        _ => unreachable!(),
    }
}
