//! A world in memory, which is modelled.
ghost use Rattle.std.specs.Prelude.{refl, ◌≡◌, [], OnErr, OnOk, option_copied};
ghost use Rattle.world_core.specs.WorldState.{Standard, Named, bytes_of};
ghost use Rattle.world_core.specs.Calls.{next_count};
ghost use Rattle.world_core.specs.Traces.{DoesCall};
ghost use Rattle.world_core.specs.Memory.{count_of, entry_of, kinds_of, only_standard, open_for, source_at_start, state_of, with_entry};

use crate::file::{MemSource, read_source, write_file};
use crate::names::{NamedFile, find_name, place_of, write_named};
use crate::opening::{open_to_read, open_to_write};
use crate::streams::{MemStream, read_stream, written_name};
use crate::{MemFile, Octets, World, WorldFault};
use std::alloc::{AllocError, Global};

/// A world in memory: names with their files, the standard input and the standard output.
#[derive(Drop)]
pub struct MemWorld {
    input: MemSource,
    output: MemFile,
    files: Vec<NamedFile>,
    streams: Vec<MemStream>,
    failed: u64,
    alloc: Global,
}

/// Counts a failure.
fn counted<T>(given: Result<T, WorldFault>, failed: &mut u64) -> Result<T, WorldFault>
    ensures result { result ≡ given }
    ensures count { failed.new ≡ next_count given failed.old }
{
    if let Err(WorldFault::Failed) = &given {
        *failed = failed.wrapping_add(1);
    }
    given
}

impl MemWorld {
    /// A world with these standard streams, and no other name. It takes no memory. Of the input its bytes and its ending count, of the output its
    /// bytes and its room.
    pub fn new(alloc: Global, input: MemFile, output: MemFile) -> MemWorld
        ensures state { state_of result ≡ only_standard (source_at_start input) (entry_of output) }
        ensures kinds { open_for result ≡ kinds_of [] }
        ensures count { count_of result ≡ 0 }
    {
        MemWorld {
            input: MemSource {
                bytes: input.bytes.unwrap_or(Octets::new(alloc)),
                at: 0,
                ending: input.ending,
            },
            output,
            files: Vec::new(alloc),
            streams: Vec::new(alloc),
            failed: 0,
            alloc,
        }
    }

    /// Puts a file under a name, in the place of what the name held.
    ///
    /// # Errors
    ///
    /// Of no memory; then nothing changes.
    pub fn add(&mut self, name: &[u8], file: MemFile) -> Result<(), AllocError>
        ensures added { OnOk result
            (state_of self.new ≡ with_entry name.now (entry_of file) (state_of self.old)) }
        ensures refused { OnErr result (state_of self.new ≡ state_of self.old) }
        ensures kinds { open_for self.new ≡ open_for self.old }
        ensures count { count_of self.new ≡ count_of self.old }
    {
        let at = place_of(&mut self.files, self.alloc, name)?;
        self.files[at].file = file;
        Ok(())
    }

    /// The bytes that a name holds; none of an absent name.
    pub fn bytes(&self, name: &[u8]) -> Option<&[u8]>
        ensures { option_copied result ≡ ((state_of self.now).outside (Named name.now)).bytes }
    {
        let at = find_name(&self.files, name)?;
        let held = self.files[at].file.bytes.as_ref()?;
        Some(held.as_slice())
    }

    /// The bytes of the standard output.
    pub fn output(&self) -> &[u8]
        ensures { result.now ≡ bytes_of ((state_of self.now).outside Standard).bytes }
    {
        match &self.output.bytes {
            Some(bytes) => bytes.as_slice(),
            None => &[],
        }
    }
}

impl World for MemWorld {
    ghost is_modelled = { Unit {0} };

    ghost state = { state_of };

    ghost kinds = { open_for };

    ghost count = { count_of };

    ghost did = { λ old call new. DoesCall call (state_of old) (state_of new) };

    fn open_read(&mut self, name: &[u8]) -> Result<u32, WorldFault> {
        let opened = open_to_read(&self.files, &mut self.streams, self.alloc, name);
        counted(opened, &mut self.failed)
    }

    fn open_write(&mut self, name: &[u8], append: bool) -> Result<u32, WorldFault> {
        let opened = open_to_write(&mut self.files, &mut self.streams, self.alloc, name, append);
        counted(opened, &mut self.failed)
    }

    fn read(&mut self, id: u32, buffer: &mut [u8]) -> Result<usize, WorldFault> {
        if id == 0 {
            return counted(read_source(&mut self.input, buffer), &mut self.failed);
        }
        let stream = &mut self.streams[id as usize - 2];
        counted(read_stream(stream, buffer), &mut self.failed)
    }

    fn write(&mut self, id: u32, text: &[u8]) -> Result<usize, WorldFault> {
        if id == 1 {
            return counted(
                write_file(&mut self.output, self.alloc, text),
                &mut self.failed,
            );
        }
        let name = written_name(&self.streams, id);
        let written = write_named(&mut self.files, self.alloc, name, text);
        counted(written, &mut self.failed)
    }

    fn close(&mut self, id: u32) {
        self.streams[id as usize - 2] = MemStream::Closed;
    }

    fn failures(&self) -> u64 {
        self.failed
    }

    ghost input = { λ w. refl };

    ghost output = { λ w. refl };

    ghost standard = { λ w. refl };
}
