//! The names of a world in memory.
ghost use Rattle.std.specs.Prelude.{◌≡◌, Some, IfOk, OnErr, OnOk};
ghost use Rattle.world_core.specs.Memory.{entry_at, entry_of, is_named, place, source_of, KeepsNames, KeepsOtherNames, OpensSource, Takes};

use crate::file::{MemSource, write_file};
use crate::{MemFile, Octets, WorldFault};
use std::alloc::{AllocError, Global};

#[derive(Drop)]
pub(crate) struct NamedFile {
    pub(crate) name: Octets,
    pub(crate) file: MemFile,
}

/// The place of the first file of a name.
pub(crate) fn find_name(files: &[NamedFile], name: &[u8]) -> Option<usize>
    ensures { result ≡ place files.now name.now }
{
    files.iter().position(|f| f.name.as_slice() == name)
}

/// The place of a name; a name that is not there is put there, absent.
pub(crate) fn place_of(
    files: &mut Vec<NamedFile>,
    alloc: Global,
    name: &[u8],
) -> Result<usize, AllocError>
    ensures found { IfOk result (λ at. place files.new.items name.now ≡ Some at) }
    ensures kept { KeepsNames files.old.items files.new.items }
{
    if let Some(at) = find_name(files.as_slice(), name) {
        return Ok(at);
    }
    let at = files.as_slice().len();
    let name = Octets::from_slice(alloc, name)?;
    let file = MemFile::absent();
    files.push(NamedFile { name, file })?;
    Ok(at)
}

/// Appends what fits of a text to a name's bytes.
pub(crate) fn write_named(
    files: &mut Vec<NamedFile>,
    alloc: Global,
    name: &[u8],
    text: &[u8],
) -> Result<usize, WorldFault>
    ensures entry { Takes result text.now (entry_at files.old.items name.now)
        (entry_at files.new.items name.now) }
    ensures others { KeepsOtherNames name.now files.old.items files.new.items }
{
    let at = place_of(files, alloc, name)?;
    let named = &mut files[at];
    write_file(&mut named.file, alloc, text)
}

/// A reader of what a name holds.
pub(crate) fn source_of_name(
    files: &[NamedFile],
    alloc: Global,
    name: &[u8],
) -> Result<MemSource, WorldFault>
    ensures { OpensSource (entry_at files.now name.now) result }
{
    let Some(at) = find_name(files, name) else {
        return Err(WorldFault::Failed);
    };
    let file = &files[at].file;
    if !file.opens {
        return Err(WorldFault::Failed);
    }
    let Some(held) = &file.bytes else {
        return Err(WorldFault::Failed);
    };
    Ok(MemSource {
        bytes: Octets::from_slice(alloc, held.as_slice())?,
        at: 0,
        ending: file.ending,
    })
}
