//! The files that a script has open, by their names.
ghost use Rattle.std.specs.Prelude.{◌≡◌, ℕ, [], None, Some, Ok, IfOk, IfSome, false, map, true};
ghost use Rattle.world_core.specs.WorldState.{Named, State};
ghost use Rattle.world_core.specs.Calls.{Kind};
ghost use Rattle.sem_primitives.specs.InputParts.{source_of};
ghost use Rattle.sem_primitives.specs.OutputMeaning.{is_writing};
ghost use Rattle.sem_primitives.specs.Records.{record_separator};
ghost use Rattle.host_streams.specs.declared.reader.Phase.TheVariants.{Broken, Open};
ghost use Rattle.host_streams.specs.declared.reader.FileNext.TheVariants.{Failed};
ghost use Rattle.host_streams.specs.Given.{GivesNone};
ghost use Rattle.host_streams.specs.OpenFiles.{FileBreaks, FileCounts, FileGoesOnFailing, FileHands, FileReaders, HandsFile, HoldsOpen, IsMissing, OpensFile, OpensReader, OpenCounts, OthersKeep, OthersStay, ReadersAfter, ReadsFile, ReadsNext, StartsFile, WritersGo, has_room, kept_named, phase_named, reader_handle, reader_names, reader_place, readers_beside, readers_in};
ghost use Rattle.host_streams.specs.Readers.{HandsOver, NextCounts, NextPhase, OnlyLimit};

use crate::FileNext;
use crate::reader::Reader;
use awk_values::{Bytes, Fault, Stop};
use sem_primitives::MAX_STREAMS;
use std::alloc::Global;
use world_core::{World, WorldFault};

#[derive(Drop)]
pub(crate) struct NamedReader {
    pub(crate) name: Bytes,
    pub(crate) reader: Reader,
}

#[derive(Drop)]
pub(crate) struct NamedWriter {
    pub(crate) name: Bytes,
    pub(crate) id: u32,
}

/// The files that a script has open, by their names: those that `getline` reads, and those that output goes to.
#[derive(Drop)]
pub struct Streams {
    pub(crate) readers: Vec<NamedReader>,
    pub(crate) writers: Vec<NamedWriter>,
    pub(crate) alloc: Global,
}

/// The place of the reader of a name.
pub(crate) fn find_reader(readers: &[NamedReader], name: &[u8]) -> Option<usize>
    ensures { result ≡ reader_place name.now readers.now }
{
    readers.iter().position(|r| r.name.as_slice() == name)
}

pub(crate) fn first_byte(text: &[u8]) -> Option<u8>
    ensures { result ≡ record_separator text.now }
{
    match text {
        [first, ..] => Some(*first),
        [] => None,
    }
}

impl Streams {
    /// No file is open. It takes no memory.
    pub fn new(alloc: Global) -> Streams
        ensures none { IsMissing result }
        ensures held { (kinds : ℕ → Kind) → HoldsOpen result kinds }
        ensures goes { (state : State) → WritersGo result.writers.items state }
    {
        Streams {
            readers: Vec::new(alloc),
            writers: Vec::new(alloc),
            alloc,
        }
    }

    /// Opens a file for reading, and gives the place of its reader; none where it does not open.
    fn open_reader<W: World>(&mut self, world: &mut W, name: &[u8]) -> Result<Option<usize>, Stop>
        requires held { HoldsOpen self.old (W.kinds world.old) }
        requires missing { reader_place name.now self.old.readers.items ≡ None }
        requires goes { W.is_modelled → WritersGo self.old.writers.items (W.state world.old) }
        ensures held { HoldsOpen self.new (W.kinds world.new) }
        ensures writers { self.new.writers ≡ self.old.writers }
        ensures count { OpenCounts result (W.count world.old) (W.count world.new) }
        ensures readers { OpensReader (has_room self.old) name.now self.old.readers.items result
            self.new.readers.items }
        ensures kept { readers_beside name.now self.new.readers.items
            ≡ readers_beside name.now self.old.readers.items }
        ensures place { IfOk result
            (λ found. IfSome found (λ at. reader_place name.now self.new.readers.items ≡ Some at)) }
        ensures phase { IfOk result
            (λ found. IfSome found (λ at. phase_named name.now self.new.readers.items ≡ Open)) }
        ensures nothing { IfOk result
            (λ found. IfSome found (λ at. kept_named name.now self.new.readers.items ≡ [])) }
        ensures goes { W.is_modelled → WritersGo self.new.writers.items (W.state world.new) }
        ensures told { W.is_modelled → OpensFile name.now (has_room self.old) (W.state world.old)
            (readers_in self.old.readers.items (W.state world.old)) result
            (readers_in self.new.readers.items (W.state world.new)) }
        ensures outside { W.is_modelled → (W.state world.new).outside ≡ (W.state world.old).outside }
        ensures others { OthersStay self.old self.new (W.kinds world.old) (W.kinds world.new) }
        ensures no_others { OthersStay self.new self.old (W.kinds world.new) (W.kinds world.old) }
        ensures places { W.is_modelled
            → OthersKeep self.old (W.kinds world.old) (W.state world.old) (W.state world.new) }
        ensures gives { GivesNone W.did world.old world.new }
    {
        if self.readers.as_slice().len() + self.writers.as_slice().len() >= MAX_STREAMS {
            return Err(Stop::Fault(Fault::TooManyStreams));
        }
        let at = self.readers.as_slice().len();
        let own = Bytes::from_slice(self.alloc, name)?;
        self.readers.reserve(1)?;
        match world.open_read(name) {
            Ok(id) => {
                let reader = Reader::new(self.alloc, id);
                self.readers
                    .push_reserved(NamedReader { name: own, reader });
                Ok(Some(at))
            }
            Err(WorldFault::Failed) => Ok(None),
            Err(WorldFault::NoMemory) => Err(Stop::NoMemory),
        }
    }

    /// The next record of the reader at a place.
    fn next_at<W: World>(
        &mut self,
        world: &mut W,
        name: &[u8],
        at: usize,
        rs: Option<u8>,
    ) -> Result<FileNext, Stop>
        requires held { HoldsOpen self.old (W.kinds world.old) }
        requires place { reader_place name.now self.old.readers.items ≡ Some at }
        requires goes { W.is_modelled → WritersGo self.old.writers.items (W.state world.old) }
        ensures held { HoldsOpen self.new (W.kinds world.new) }
        ensures writers { self.new.writers ≡ self.old.writers }
        ensures count { NextCounts (phase_named name.now self.old.readers.items) result
            (W.count world.old) (W.count world.new) }
        ensures phase { NextPhase (phase_named name.now self.old.readers.items) result
            (phase_named name.now self.new.readers.items) }
        ensures handed { HandsFile name.now rs self.old.readers.items result
            self.new.readers.items }
        ensures limit { OnlyLimit result }
        ensures handles { map reader_handle self.new.readers.items
            ≡ map reader_handle self.old.readers.items }
        ensures kept { readers_beside name.now self.new.readers.items
            ≡ readers_beside name.now self.old.readers.items }
        ensures goes { W.is_modelled → WritersGo self.new.writers.items (W.state world.new) }
        ensures told { W.is_modelled → ReadsFile name.now rs (readers_in self.old.readers.items
            (W.state world.old)) result (readers_in self.new.readers.items (W.state world.new)) }
        ensures outside { W.is_modelled → (W.state world.new).outside ≡ (W.state world.old).outside }
        ensures others { OthersStay self.old self.new (W.kinds world.old) (W.kinds world.new) }
        ensures no_others { OthersStay self.new self.old (W.kinds world.new) (W.kinds world.old) }
        ensures places { W.is_modelled
            → OthersKeep self.old (W.kinds world.old) (W.state world.old) (W.state world.new) }
        ensures gives { GivesNone W.did world.old world.new }
    {
        let _ = name;
        let named = &mut self.readers[at];
        named.reader.next(self.alloc, world, rs)
    }

    /// Opens a file for reading, and gives its first record.
    fn open_and_read<W: World>(
        &mut self,
        world: &mut W,
        name: &[u8],
        rs: Option<u8>,
    ) -> Result<FileNext, Stop>
        requires held { HoldsOpen self.old (W.kinds world.old) }
        requires missing { reader_place name.now self.old.readers.items ≡ None }
        requires goes { W.is_modelled → WritersGo self.old.writers.items (W.state world.old) }
        ensures held { HoldsOpen self.new (W.kinds world.new) }
        ensures writers { self.new.writers ≡ self.old.writers }
        ensures count { NextCounts Open result (W.count world.old) (W.count world.new) }
        ensures readers { ReadersAfter false (has_room self.old) name.now self.old.readers.items
            result self.new.readers.items }
        ensures kept { readers_beside name.now self.new.readers.items
            ≡ readers_beside name.now self.old.readers.items }
        ensures breaks { is_writing name.now (reader_names self.new.readers.items) ≡ true
            → NextPhase Open result (phase_named name.now self.new.readers.items) }
        ensures handed { is_writing name.now (reader_names self.new.readers.items) ≡ true
            → HandsOver rs Open [] result (phase_named name.now self.new.readers.items)
            (kept_named name.now self.new.readers.items) }
        ensures goes { W.is_modelled → WritersGo self.new.writers.items (W.state world.new) }
        ensures told { W.is_modelled → StartsFile (has_room self.old) (source_of ((W.state
            world.old).outside (Named name.now))) name.now rs (readers_in self.old.readers.items
            (W.state world.old)) result (readers_in self.new.readers.items (W.state world.new)) }
        ensures outside { W.is_modelled → (W.state world.new).outside ≡ (W.state world.old).outside }
        ensures others { OthersStay self.old self.new (W.kinds world.old) (W.kinds world.new) }
        ensures no_others { OthersStay self.new self.old (W.kinds world.new) (W.kinds world.old) }
        ensures places { W.is_modelled
            → OthersKeep self.old (W.kinds world.old) (W.state world.old) (W.state world.new) }
        ensures gives { GivesNone W.did world.old world.new }
    {
        match self.open_reader(world, name) {
            Ok(Some(at)) => self.next_at(world, name, at, rs),
            Ok(None) => Ok(FileNext::Failed),
            Err(stop) => Err(stop),
        }
    }

    /// The next record of a file, which is opened for reading unless its name has a reader already (`getline < file`). The first byte of `rs` ends a
    /// record; where `rs` is empty, empty lines do.
    ///
    /// Bytes after the last separator are a record if the end follows, and none if a read fails: from then on the file answers
    /// [`FileNext::Failed`], whatever `rs` is. A file that does not open answers `Failed` too, and has no reader.
    ///
    /// # Errors
    ///
    /// [`Fault::TooManyStreams`] where the name has no reader and 256 streams are open; nothing is opened. [`Fault::TextLimit`] where the newlines that
    /// are skipped and the record have more than 67,108,864 bytes. [`Stop::NoMemory`]. No byte is lost by either.
    pub fn file_next<W: World>(
        &mut self,
        world: &mut W,
        name: &[u8],
        rs: &[u8],
    ) -> Result<FileNext, Stop>
        requires held { HoldsOpen self.old (W.kinds world.old) }
        requires goes { W.is_modelled → WritersGo self.old.writers.items (W.state world.old) }
        ensures held { HoldsOpen self.new (W.kinds world.new) }
        ensures goes { W.is_modelled → WritersGo self.new.writers.items (W.state world.new) }
        ensures writers { self.new.writers ≡ self.old.writers }
        ensures count { FileCounts name.now self.old result (W.count world.old)
            (W.count world.new) }
        ensures readers { FileReaders name.now self.old result self.new }
        ensures kept { readers_beside name.now self.new.readers.items
            ≡ readers_beside name.now self.old.readers.items }
        ensures breaks { FileBreaks name.now self.old result self.new }
        ensures handed { FileHands name.now (record_separator rs.now) self.old result self.new }
        ensures failing { FileGoesOnFailing name.now self.old result self.new }
        ensures told { W.is_modelled → ReadsNext name.now (record_separator rs.now) self.old
            (W.state world.old) result self.new (W.state world.new) }
        ensures outside { W.is_modelled → (W.state world.new).outside ≡ (W.state world.old).outside }
        ensures others { OthersStay self.old self.new (W.kinds world.old) (W.kinds world.new) }
        ensures no_others { OthersStay self.new self.old (W.kinds world.new) (W.kinds world.old) }
        ensures places { W.is_modelled
            → OthersKeep self.old (W.kinds world.old) (W.state world.old) (W.state world.new) }
        ensures gives { GivesNone W.did world.old world.new }
    {
        let separator = first_byte(rs);
        match find_reader(self.readers.as_slice(), name) {
            Some(at) => self.next_at(world, name, at, separator),
            None => self.open_and_read(world, name, separator),
        }
    }
}
