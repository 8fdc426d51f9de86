//! What a name of a world in memory holds, and its readers.
ghost use Rattle.std.specs.Prelude.{◌≡◌, ◌<◌, ◌≤◌, ◌++◌, Some, None, true, length, OnErr, OnOk};
ghost use Rattle.world_core.specs.WorldState.{absent, bytes_of, free, opened};
ghost use Rattle.world_core.specs.Calls.{Fits};
ghost use Rattle.world_core.specs.Memory.{entry_of, source_of, Gives, Takes};

use crate::{Ending, Octets, WorldFault};
use std::alloc::{AllocError, Global};

/// What a name of a world in memory holds.
#[derive(Drop)]
pub struct MemFile {
    /// The bytes; none of an absent file.
    pub bytes: Option<Octets>,
    /// What a reader meets behind the bytes.
    pub ending: Ending,
    /// The greatest length, in bytes, that the file may have; none without a limit.
    pub room: Option<usize>,
    /// Whether it opens, for reading and for writing.
    pub opens: bool,
}

impl MemFile {
    /// A file that holds bytes, ends, opens and has no limit.
    pub fn holding(bytes: Vec<u8>) -> MemFile
        ensures { result
            ≡ record { bytes = Some bytes.items; ending = Ending.End; room = None; opens = true } }
    {
        MemFile {
            bytes: Some(Octets::from_vec(bytes)),
            ..MemFile::absent()
        }
    }

    /// A file that is absent, and that opens for writing without a limit.
    pub fn absent() -> MemFile
        ensures { entry_of result ≡ absent }
    {
        MemFile {
            bytes: None,
            ending: Ending::End,
            room: None,
            opens: true,
        }
    }
}

/// How many of some bytes fit.
fn room_for(file: &MemFile, wanted: usize) -> usize
    ensures most { result ≤ wanted }
    ensures fits { Fits result (entry_of file.now) }
    ensures full { result ≡ 0 → 0 < wanted → free (entry_of file.now) ≡ Some 0 }
{
    let Some(room) = file.room else {
        return wanted;
    };
    let held = match &file.bytes {
        Some(bytes) => bytes.as_slice().len(),
        None => 0,
    };
    wanted.min(room.saturating_sub(held))
}

fn append_to(bytes: &mut Option<Octets>, alloc: Global, text: &[u8]) -> Result<(), AllocError>
    ensures ok { OnOk result (bytes.new ≡ Some (bytes_of bytes.old ++ text.now)) }
    ensures err { OnErr result (bytes.new ≡ bytes.old) }
{
    match bytes {
        Some(held) => held.append(text),
        None => {
            *bytes = Some(Octets::from_slice(alloc, text)?);
            Ok(())
        }
    }
}

/// Appends what fits of a text.
pub(crate) fn write_file(
    file: &mut MemFile,
    alloc: Global,
    text: &[u8],
) -> Result<usize, WorldFault>
    ensures { Takes result text.now (entry_of file.old) (entry_of file.new) }
{
    let n = room_for(file, text.len());
    if n == 0 {
        return if text.is_empty() {
            Ok(0)
        } else {
            Err(WorldFault::Failed)
        };
    }
    append_to(&mut file.bytes, alloc, &text[..n])?;
    Ok(n)
}

/// A reader's bytes, as they were when it was opened, and how many of them it has read.
#[derive(Drop)]
pub(crate) struct MemSource {
    pub(crate) bytes: Octets,
    pub(crate) at: usize,
    pub(crate) ending: Ending,
}

/// Reads what fits into a buffer.
pub(crate) fn read_source(source: &mut MemSource, buffer: &mut [u8]) -> Result<usize, WorldFault>
    ensures { Gives result (source_of source.old) (source_of source.new) buffer.old buffer.new }
{
    let bytes = source.bytes.as_slice();
    if source.at >= bytes.len() {
        return if source.ending == Ending::Fails && !buffer.is_empty() {
            Err(WorldFault::Failed)
        } else {
            Ok(0)
        };
    }
    let n = buffer.len().min(bytes.len() - source.at);
    buffer[..n].copy_from_slice(&bytes[source.at..source.at + n]);
    source.at += n;
    Ok(n)
}

/// Opens a file for writing, at its end or emptied.
pub(crate) fn open_file(file: &mut MemFile, alloc: Global, append: bool)
    ensures { entry_of file.new ≡ opened append (entry_of file.old) }
{
    if append && file.bytes.is_some() {
        return;
    }
    file.bytes = Some(Octets::new(alloc));
}
