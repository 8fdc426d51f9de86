//! Records of an open stream.
ghost use Rattle.std.specs.Prelude.{◌≡◌, ◌≢◌, ◌+◌, ◌<◌, ◌≤◌, ◌++◌, [], length, take, drop, IfOk, OnErr, OnOk, IsTrue, IsFalse, slice_range, vec_capacity, vec_len};
ghost use Rattle.awk_values.specs.declared.fault.Stop.TheVariants.{NoMemory};
ghost use Rattle.sem_primitives.specs.Limits.{most_text};
ghost use Rattle.sem_primitives.specs.Records.{record_separator};
ghost use Rattle.world_core.specs.Calls.{Reading, next_count};
ghost use Rattle.host_streams.specs.Given.{GivesNone};
ghost use Rattle.host_streams.specs.Looks.{IsOpen, IsScanned};
ghost use Rattle.host_streams.specs.Readers.{Answers, EndStays, Fills, GoesOn, HandsMore, HandsOver, HandsTurn, IsLast, MoreCounts, MoreIs, MoreKeeps, NextCounts, NextPhase, OnlyLimit, OnlyReads, ScannedAgain, TurnCounts, TurnPhase, Turns, fresh, left, unread, work};

use crate::look::{Known, Look, seen};
use awk_values::{Bytes, Fault, Stop};
use std::alloc::{AllocError, Global};
use std::mem::replace;
use world_core::{World, WorldFault};

/// How many bytes are asked for at once.
const PIECE: usize = 65_536;

/// The room of texts up to this length is taken again.
const SHORT: usize = 4096;

/// How far a reader is.
#[derive(Clone, Copy, Drop)]
pub(crate) enum Phase {
    /// The stream may have more bytes.
    Open,
    /// The end was met.
    Ended,
    /// A read failed.
    Broken,
}

/// What reading a record of a file answers.
#[derive(Drop)]
pub enum FileNext {
    /// The text of the next record.
    Record(Bytes),
    /// There is none left.
    End,
    /// The file did not open, or a read failed, now or earlier.
    Failed,
}

/// One turn of a reader: an answer, or what is known by now.
#[derive(Drop)]
pub(crate) enum Turn {
    Answer(FileNext),
    Again(Known),
}

/// An open stream with the bytes that were read and that no record used.
#[derive(Drop)]
pub(crate) struct Reader {
    pub(crate) id: u32,
    kept: Vec<u8>,
    /// Where the unread bytes begin.
    start: usize,
    phase: Phase,
    /// What a read fills.
    piece: Vec<u8>,
    /// The text of the last short record.
    given: Option<Bytes>,
    /// That of the one before it, whose room is taken again where nobody has it any more.
    spare: Option<Bytes>,
}

/// A text of bytes, in the room of another that nobody has any more.
fn text_in(alloc: Global, room: Option<Bytes>, bytes: &[u8]) -> Result<Bytes, AllocError>
    ensures { IfOk result (λ text. text ≡ bytes.now) }
{
    match room {
        Some(former) => former.refilled(alloc, bytes),
        None => Bytes::from_slice(alloc, bytes),
    }
}

/// The text of a record.
fn record_text(
    alloc: Global,
    given: &mut Option<Bytes>,
    spare: &mut Option<Bytes>,
    bytes: &[u8],
) -> Result<Bytes, AllocError>
    ensures { IfOk result (λ text. text ≡ bytes.now) }
{
    if bytes.len() > SHORT {
        return Bytes::from_slice(alloc, bytes);
    }
    let text = text_in(alloc, spare.take(), bytes)?;
    *spare = replace(given, Some(text.clone()?));
    Ok(text)
}

/// What of these bytes no record used.
fn unread_of(kept: &[u8], start: usize) -> &[u8]
    ensures { result.now ≡ drop start kept.now }
{
    if start <= kept.len() {
        &kept[start..]
    } else {
        &[]
    }
}

/// Gives a piece its bytes, where it has none yet.
fn provide(piece: &mut Vec<u8>) -> Result<(), AllocError>
    ensures { OnOk result (0 < vec_len piece.new) }
{
    if piece.as_slice().is_empty() {
        piece.resize(PIECE, 0)?;
    }
    Ok(())
}

/// Appends bytes that there is room for.
fn append(kept: &mut Vec<u8>, bytes: &[u8])
    requires { vec_len kept.old + length bytes.now ≤ vec_capacity kept.old }
    ensures items { kept.new.items ≡ kept.old.items ++ bytes.now }
    ensures len { vec_len kept.new ≡ vec_len kept.old + length bytes.now }
{
    let _room = kept.extend_from_slice(bytes);
}

/// Reads one piece after what is kept, and says whether there was any.
fn fill<W: World>(
    world: &mut W,
    id: u32,
    piece: &mut Vec<u8>,
    kept: &mut Vec<u8>,
) -> Result<bool, WorldFault>
    requires reading { W.kinds world.old id ≡ Reading }
    ensures kinds { W.kinds world.new ≡ W.kinds world.old }
    ensures count { W.count world.new ≡ next_count result (W.count world.old) }
    ensures front { take (length kept.old.items) kept.new.items ≡ kept.old.items }
    ensures grows { IfOk result (λ more. IsTrue more → vec_len kept.old < vec_len kept.new) }
    ensures ended { IfOk result (λ more. IsFalse more → kept.new.items ≡ kept.old.items) }
    ensures failed { OnErr result (kept.new.items ≡ kept.old.items) }
    ensures told { W.is_modelled
        → Fills id (W.state world.old) kept.old.items result kept.new.items (W.state world.new) }
    ensures gives { GivesNone W.did world.old world.new }
{
    provide(piece)?;
    kept.reserve(piece.as_slice().len())?;
    match world.read(id, piece.as_mut_slice()) {
        Ok(n) => {
            append(kept, &piece.as_slice()[..n]);
            Ok(n > 0)
        }
        Err(e) => Err(e),
    }
}

impl Reader {
    /// A reader of a stream that is open for reading, of which nothing was read.
    pub(crate) fn new(alloc: Global, id: u32) -> Reader
        ensures id { result.id ≡ id }
        ensures fresh { fresh result }
    {
        Reader {
            id,
            kept: Vec::new(alloc),
            start: 0,
            phase: Phase::Open,
            piece: Vec::new(alloc),
            given: None,
            spare: None,
        }
    }

    /// The bytes that no record used.
    fn unread(&self) -> &[u8]
        ensures { result.now ≡ unread self.now }
    {
        unread_of(self.kept.as_slice(), self.start)
    }

    /// Gives up the bytes that records used.
    fn compact(&mut self, alloc: Global) -> Result<(), AllocError>
        ensures id { self.new.id ≡ self.old.id }
        ensures phase { self.new.phase ≡ self.old.phase }
        ensures unread { unread self.new ≡ unread self.old }
        ensures whole { OnOk result (self.new.kept.items ≡ unread self.old) }
        ensures start { OnOk result (self.new.start ≡ 0) }
    {
        if self.start > 0 {
            self.kept = Vec::from_slice(alloc, self.unread())?;
            self.start = 0;
        }
        Ok(())
    }

    /// Reads a piece more. Where that fails, it answers false, and the reader is broken from then on.
    fn more<W: World>(&mut self, alloc: Global, world: &mut W) -> Result<bool, Stop>
        requires reading { W.kinds world.old self.old.id ≡ Reading }
        requires short { length (unread self.old) ≤ most_text + 1 }
        requires live { self.old.phase ≡ Phase.Open }
        ensures id { self.new.id ≡ self.old.id }
        ensures kinds { W.kinds world.new ≡ W.kinds world.old }
        ensures count { MoreCounts result (W.count world.old) (W.count world.new) }
        ensures keeps { MoreKeeps self.old result self.new }
        ensures stays { EndStays self.old.phase self.new.phase }
        ensures handed { HandsMore self.old.phase (unread self.old) result self.new.phase
            (unread self.new) }
        ensures told { W.is_modelled
            → MoreIs (unread self.old) (left self.old ((W.state world.old).readers self.old.id))
            result (left self.new ((W.state world.new).readers self.old.id)) }
        ensures only { W.is_modelled → OnlyReads self.old.id (W.state world.old) (W.state world.new) }
        ensures gives { GivesNone W.did world.old world.new }
    {
        self.compact(alloc)?;
        match fill(world, self.id, &mut self.piece, &mut self.kept) {
            Ok(true) => Ok(true),
            Ok(false) => {
                self.phase = Phase::Ended;
                Ok(true)
            }
            Err(WorldFault::Failed) => {
                self.phase = Phase::Broken;
                Ok(false)
            }
            Err(WorldFault::NoMemory) => Err(Stop::NoMemory),
        }
    }
    /// One turn: an answer from what is kept, or else a piece more.
    fn turn<W: World>(
        &mut self,
        alloc: Global,
        world: &mut W,
        rs: Option<u8>,
        known: Known,
    ) -> Result<Turn, Stop>
        requires reading { W.kinds world.old self.old.id ≡ Reading }
        requires live { self.old.phase ≢ Phase.Broken }
        requires known { IsScanned rs (unread self.old) known }
        ensures id { self.new.id ≡ self.old.id }
        ensures kinds { W.kinds world.new ≡ W.kinds world.old }
        ensures count { TurnCounts result (W.count world.old) (W.count world.new) }
        ensures phase { TurnPhase result self.new.phase }
        ensures limit { OnlyLimit result }
        ensures again { ScannedAgain rs result self.new }
        ensures goes_on { GoesOn result (work self.old) (work self.new) }
        ensures stays { EndStays self.old.phase self.new.phase }
        ensures handed { HandsTurn rs self.old.phase (unread self.old) result self.new.phase
            (unread self.new) }
        ensures told { W.is_modelled → Turns rs (left self.old ((W.state world.old).readers self.old.id))
            result (left self.new ((W.state world.new).readers self.old.id)) }
        ensures only { W.is_modelled → OnlyReads self.old.id (W.state world.old) (W.state world.new) }
        ensures gives { GivesNone W.did world.old world.new }
    {
        match seen(self.unread(), rs, known) {
            Look::Record(from, to, next) => {
                let text = record_text(
                    alloc,
                    &mut self.given,
                    &mut self.spare,
                    &unread_of(self.kept.as_slice(), self.start)[from..to],
                )?;
                self.start += next;
                Ok(Turn::Answer(FileNext::Record(text)))
            }
            Look::Long => Err(Stop::Fault(Fault::TextLimit)),
            Look::More(from, to, searched) => {
                if let Phase::Ended = self.phase {
                    return self.last(alloc, from, to);
                }
                match self.more(alloc, world) {
                    Ok(true) => Ok(Turn::Again(Known {
                        skipped: from,
                        searched,
                    })),
                    Ok(false) => Ok(Turn::Answer(FileNext::Failed)),
                    Err(stop) => Err(stop),
                }
            }
        }
    }

    /// What is left at the end is a record, if it is not empty.
    fn last(&mut self, alloc: Global, from: usize, to: usize) -> Result<Turn, Stop>
        requires order { from ≤ to }
        requires within { to ≤ length (unread self.old) }
        ensures id { self.new.id ≡ self.old.id }
        ensures phase { self.new.phase ≡ self.old.phase }
        ensures answer { IsLast (slice_range (unread self.old) from to) result self.old self.new }
    {
        if from == to {
            self.kept.clear();
            return Ok(Turn::Answer(FileNext::End));
        }
        let text = Bytes::from_slice(alloc, &self.unread()[from..to])?;
        self.kept.clear();
        Ok(Turn::Answer(FileNext::Record(text)))
    }

    /// Nothing is left of it: it is at its end, whatever its stream has.
    pub(crate) fn skip(&mut self)
        ensures id { self.new.id ≡ self.old.id }
        ensures ended { self.new.phase ≡ Phase.Ended }
        ensures none { unread self.new ≡ [] }
    {
        self.kept.clear();
        self.phase = Phase::Ended;
    }

    /// The next record. Where a read has failed, it keeps failing.
    pub(crate) fn next<W: World>(
        &mut self,
        alloc: Global,
        world: &mut W,
        rs: Option<u8>,
    ) -> Result<FileNext, Stop>
        requires reading { W.kinds world.old self.old.id ≡ Reading }
        ensures id { self.new.id ≡ self.old.id }
        ensures kinds { W.kinds world.new ≡ W.kinds world.old }
        ensures count { NextCounts self.old.phase result (W.count world.old) (W.count world.new) }
        ensures phase { NextPhase self.old.phase result self.new.phase }
        ensures limit { OnlyLimit result }
        ensures stays { EndStays self.old.phase self.new.phase }
        ensures handed { HandsOver rs self.old.phase (unread self.old) result self.new.phase
            (unread self.new) }
        ensures told { W.is_modelled → Answers rs (left self.old ((W.state world.old).readers
            self.old.id)) result (left self.new ((W.state world.new).readers self.old.id)) }
        ensures only { W.is_modelled → OnlyReads self.old.id (W.state world.old) (W.state world.new) }
        ensures gives { GivesNone W.did world.old world.new }
    {
        if let Phase::Broken = self.phase {
            return Ok(FileNext::Failed);
        }
        let mut known = Known {
            skipped: 0,
            searched: 0,
        };
        'turns: loop {
            match self.turn(alloc, world, rs, known) {
                Ok(Turn::Answer(answer)) => return Ok(answer),
                Ok(Turn::Again(more)) => known = more,
                Err(stop) => return Err(stop),
            }
        }
    }
}
