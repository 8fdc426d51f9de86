//! The main input: the files that the operands name, or else the standard input (POSIX.1-2017 awk, "OPERANDS", "INPUT FILES").
ghost use Rattle.std.specs.Prelude.{◌≡◌, ◌≢◌, ◌≤◌, ℕ, Result, List, [], None, Some, false, length, IfErr, IfOk, OnErr};
ghost use Rattle.std.specs.List.{prefix_len};
ghost use Rattle.world_core.specs.WorldState.{State};
ghost use Rattle.world_core.specs.Calls.{Kind};
ghost use Rattle.awk_values.specs.Values.{number_of_value};
ghost use Rattle.sem_primitives.specs.Assignments.{assignment_of, continues_name};
ghost use Rattle.sem_primitives.specs.MainInput.{follows};
ghost use Rattle.sem_primitives.specs.InputParts.{reader_of};
ghost use Rattle.sem_primitives.specs.Limits.{most_operands};
ghost use Rattle.sem_primitives.specs.Records.{record_separator};
ghost use Rattle.sem_primitives.specs.SharedState.{Inner};
ghost use Rattle.host_streams.specs.declared.reader.Phase.TheVariants.{Broken, Open};
ghost use Rattle.host_streams.specs.Readers.{NextCounts, NextPhase, OnlyLimit};
ghost use Rattle.host_streams.specs.Given.{GivesNone};
ghost use Rattle.host_streams.specs.Mains.{FileIsOpen, GivenIs, GivesMain, GivesOperand, GivesStep, HoldsMain, IsApartFrom, IsAsked, IsFresh, IsOfNumber, IsOffered, MainCounts, MainEnds, MainPhase, NameLen, OpensNoOther, OperandCounts, ReadsMain, SkipsMain, SparesKinds, SparesOthers, SparesPlaces, StandardIs, begins, has_operand, idle, is_equals, main_at_start, main_in, main_of, main_phase, phase_at, reading_of};
ghost use Rattle.host_streams.specs.MainFinds.{FindsFollowing, FindsMain, FindsReach, FindsSomeOn, FindsStep, entry_of_reading, left_found, main_found, reading_found};
ghost use Rattle.host_streams.specs.MainMoves.{MovesMain, StepsMain, TakesOperand};
ghost use Rattle.host_streams.specs.Passing.{AreThere, FollowsAll, HandsAt, HandsMain, HandsStep, IdleAfter, IsOfOperands, IsOfReader, NoneMore, Passes, RestsAfter, StandardSkips, StandardStays, StepNoneMore, StepPasses};

use crate::reader::{FileNext, Reader};
use crate::streams::first_byte;
use awk_values::{Bytes, Fault, Stop, Value, to_number};
use sem_primitives::MAX_OPERANDS;
use std::alloc::{AllocError, Global};
use world_core::{World, WorldFault};

/// The operands as they are now: the elements of ARGV, by their numbers.
pub trait Operands {
    /// The text of each element; an empty one where there is none.
    ghost text: { Self → ℕ → List ℕ };

    /// A copy of the text of an element, empty where there is none.
    ///
    /// # Errors
    ///
    /// There is no memory.
    fn operand(&self, number: u32) -> Result<Bytes, AllocError>
        ensures { IfOk result (λ copy. copy ≡ text self.now number) };
}

/// Whether an operand named a file so far, or the standard input follows the operands, of which none did.
#[derive(Clone, Copy, Drop)]
pub(crate) enum Found {
    NoFile,
    SomeFile,
    NoneLeft,
}

/// What is read now.
#[derive(Drop)]
pub(crate) enum Reading {
    Nothing,
    Standard,
    File(Reader),
}

/// What the main input gives.
#[derive(Drop)]
pub enum MainNext {
    /// The text of the next record.
    Record(Bytes),
    /// An operand is an assignment: its name, and its text as it stands, escapes included. Who asked makes it, and asks again.
    Assign(Bytes, Bytes),
    /// An operand names a file, or the standard input, and it is open now; nothing of it is read yet. The name is empty where the standard input
    /// follows the operands. Who asked sets FILENAME and FNR, and asks again.
    Opened(Bytes),
    /// There is none left, now or earlier.
    End,
}

/// The main input.
#[derive(Drop)]
pub struct MainInput {
    standard: Reader,
    /// The number of the next operand.
    next: u32,
    found: Found,
    reading: Reading,
    ended: bool,
    alloc: Global,
}

/// Whether a byte may stand in a name.
fn continues_name(byte: u8) -> bool
    ensures { result ≡ continues_name byte }
{
    byte.is_ascii_alphanumeric() || byte == b'_'
}

/// Whether bytes that may stand in a name are one.
fn is_name(text: &[u8]) -> bool
    ensures { result ≡ begins text.now }
{
    match text {
        [first, ..] => first.is_ascii_alphabetic() || *first == b'_',
        [] => false,
    }
}

/// How many bytes at the front may stand in a name.
fn name_bytes(text: &[u8]) -> usize
    ensures value { result ≡ prefix_len continues_name text.now }
    ensures within { result ≤ length text.now }
{
    text.iter().take_while(|b| continues_name(**b)).count()
}

/// Whether an equals sign stands at the front.
fn is_equals(text: &[u8]) -> bool
    ensures { result ≡ is_equals text.now }
{
    match text {
        [first, ..] => *first == b'=',
        [] => false,
    }
}

/// How long the name is, where an operand is an assignment.
fn name_len(text: &[u8]) -> Option<usize>
    ensures { NameLen text.now result }
{
    let len = name_bytes(text);
    if !is_equals(&text[len..]) {
        return None;
    }
    if is_name(&text[..len]) {
        Some(len)
    } else {
        None
    }
}

/// Opens what an operand names, `-` being the standard input; nothing where it does not open.
fn open_operand<W: World>(world: &mut W, alloc: Global, name: &[u8]) -> Result<Reading, Stop>
    ensures held { IfOk result (λ r. FileIsOpen r (W.kinds world.new)) }
    ensures told { W.is_modelled → IfOk result
        (λ r. reader_of (W.state world.old).outside name.now ≡ reading_of r (W.state world.new)) }
    ensures refused { W.is_modelled → OnErr result (W.state world.new ≡ W.state world.old) }
    ensures memory { IfErr result (λ stop. stop ≡ Stop.NoMemory) }
    ensures count { OperandCounts result (W.count world.old) (W.count world.new) }
    ensures fresh { IfOk result (λ r. IsFresh r) }
    ensures no_others { IfOk result
        (λ r. SparesKinds r Reading.Nothing (W.kinds world.new) (W.kinds world.old)) }
    ensures standard { W.is_modelled → (W.state world.new).readers 0 ≡ (W.state world.old).readers 0 }
    ensures opened { IfOk result
        (λ r. SparesKinds Reading.Nothing r (W.kinds world.old) (W.kinds world.new)) }
    ensures not_opened { OnErr result (W.kinds world.new ≡ W.kinds world.old) }
    ensures places { W.is_modelled
        → SparesPlaces Reading.Nothing (W.kinds world.old) (W.state world.old) (W.state world.new) }
    ensures outside { W.is_modelled → (W.state world.new).outside ≡ (W.state world.old).outside }
    ensures finds { IfOk result (λ r. reader_of (λ target. entry_of_reading r) name.now
        ≡ reading_found r) }
    ensures gives { GivesNone W.did world.old world.new }
{
    if name == b"-".as_slice() {
        return Ok(Reading::Standard);
    }
    match world.open_read(name) {
        Ok(id) => Ok(Reading::File(Reader::new(alloc, id))),
        Err(WorldFault::Failed) => Ok(Reading::Nothing),
        Err(WorldFault::NoMemory) => Err(Stop::NoMemory),
    }
}

/// Whether there may be an operand of this number.
fn has_operand(number: u32, argc: &Value) -> Result<bool, Fault>
    ensures value { result ≡ has_operand number (number_of_value argc.now) }
    ensures own { IfErr result (λ fault. IsOfNumber fault) }
{
    match to_number(argc) {
        Ok(count) => Ok(number <= MAX_OPERANDS && i64::from(number) < count),
        Err(fault) => Err(fault),
    }
}

impl MainInput {
    /// The main input before anything is read. It takes no memory.
    pub fn new(alloc: Global) -> MainInput
        ensures held { (kinds : ℕ → Kind) → HoldsMain result kinds }
        ensures begins { (state : State) → main_of result state ≡ main_at_start (state.readers 0) }
    {
        MainInput {
            standard: Reader::new(alloc, 0),
            next: 1,
            found: Found::NoFile,
            reading: Reading::Nothing,
            ended: false,
            alloc,
        }
    }

    /// The next record of the reader at hand.
    fn read<W: World>(&mut self, world: &mut W, rs: Option<u8>) -> Result<FileNext, Stop>
        requires held { HoldsMain self.old (W.kinds world.old) }
        requires busy { self.old.reading ≢ Reading.Nothing }
        ensures moves { MovesMain W.is_modelled self.old self.new (W.kinds world.old)
            (W.kinds world.new) (W.state world.old) (W.state world.new) }
        ensures kinds { W.kinds world.new ≡ W.kinds world.old }
        ensures ended { self.new.ended ≡ self.old.ended }
        ensures count { NextCounts (phase_at self.old.reading self.old.standard) result
            (W.count world.old) (W.count world.new) }
        ensures phase { NextPhase (phase_at self.old.reading self.old.standard) result
            (phase_at self.new.reading self.new.standard) }
        ensures limit { OnlyLimit result }
        ensures next { self.new.next ≡ self.old.next }
        ensures busy { self.new.reading ≢ Reading.Nothing }
        ensures told { W.is_modelled → ReadsMain rs (main_of self.old (W.state world.old)) result
            (main_of self.new (W.state world.new)) }
        ensures found { self.new.found ≡ self.old.found }
        ensures standard { StandardStays self.old.reading self.old.standard self.new.standard }
        ensures handed { HandsAt rs self.old.reading self.old.standard result self.new.reading
            self.new.standard }
        ensures leaves { main_found self.new
            ≡ left_found self.old self.new.reading self.new.standard }
        ensures gives { GivesNone W.did world.old world.new }
    {
        match &mut self.reading {
            Reading::Nothing => Ok(FileNext::End),
            Reading::Standard => self.standard.next(self.alloc, world, rs),
            Reading::File(reader) => reader.next(self.alloc, world, rs),
        }
    }

    /// Closes the file that is read, if one is.
    fn stop_reading<W: World>(&mut self, world: &mut W)
        requires held { HoldsMain self.old (W.kinds world.old) }
        requires whole { self.old.standard.phase ≢ Broken }
        ensures moves { MovesMain W.is_modelled self.old self.new (W.kinds world.old)
            (W.kinds world.new) (W.state world.old) (W.state world.new) }
        ensures nothing { self.new.reading ≡ Reading.Nothing }
        ensures ended { self.new.ended ≡ self.old.ended }
        ensures next { self.new.next ≡ self.old.next }
        ensures count { W.count world.new ≡ W.count world.old }
        ensures told { W.is_modelled → main_of self.new (W.state world.new)
            ≡ idle (main_of self.old (W.state world.old)) }
        ensures found { self.new.found ≡ self.old.found }
        ensures standard { self.new.standard ≡ self.old.standard }
        ensures gives { GivesNone W.did world.old world.new }
    {
        if let Reading::File(reader) = &self.reading {
            world.close(reader.id);
        }
        self.reading = Reading::Nothing;
    }

    /// What the reader at hand gives; none at its end, where it is given up.
    fn read_on<W: World>(&mut self, world: &mut W, rs: Option<u8>) -> Result<Option<MainNext>, Stop>
        requires held { HoldsMain self.old (W.kinds world.old) }
        requires busy { self.old.reading ≢ Reading.Nothing }
        requires live { self.old.ended ≡ false }
        ensures moves { MovesMain W.is_modelled self.old self.new (W.kinds world.old)
            (W.kinds world.new) (W.state world.old) (W.state world.new) }
        ensures told { W.is_modelled → (inner : Inner) → IsAsked rs inner
            → GivesStep inner self.old (W.state world.old) result self.new (W.state world.new) }
        ensures steps { StepsMain (main_phase self.old) self.old result self.new (W.count world.old)
            (W.count world.new) }
        ensures next { self.new.next ≡ self.old.next }
        ensures found { self.new.found ≡ self.old.found }
        ensures standard { StandardStays self.old.reading self.old.standard self.new.standard }
        ensures handed { HandsStep rs self.old result self.new }
        ensures answers { IsOfReader result }
        ensures finds { FindsSomeOn rs self.old result self.new }
        ensures gives { GivesNone W.did world.old world.new }
    {
        match self.read(world, rs) {
            Ok(FileNext::Record(text)) => Ok(Some(MainNext::Record(text))),
            Ok(FileNext::End) => {
                self.stop_reading(world);
                Ok(None)
            }
            Ok(FileNext::Failed) => Err(Stop::Fault(Fault::ReadFailed)),
            Err(stop) => Err(stop),
        }
    }

    /// After the operands the standard input follows, if none of them named a file.
    fn follow(&mut self) -> Result<Option<MainNext>, Stop>
        requires idle { self.old.reading ≡ Reading.Nothing }
        requires live { self.old.ended ≡ false }
        requires whole { self.old.standard.phase ≢ Broken }
        ensures standard { self.new.standard ≡ self.old.standard }
        ensures held { (kinds : ℕ → Kind) → FileIsOpen self.new.reading kinds }
        ensures whole { StandardIs self.new.reading self.new.standard.phase }
        ensures apart { (k : ℕ) → IsApartFrom k self.new.reading }
        ensures told { (state : State) (inner : Inner)
            → GivenIs (follows (main_of self.old state).operands (main_in self.old state inner))
            result state.outside (main_in self.old state inner) (main_in self.new state inner) }
        ensures steps { (n : ℕ) → StepsMain Open self.old result self.new n n }
        ensures next { self.new.next ≡ self.old.next }
        ensures follows { FollowsAll self.old.found result self.new.found }
        ensures finds { FindsFollowing self.old result self.new }
    {
        if let Found::NoFile = self.found {
            let name = Bytes::from_slice(self.alloc, &[])?;
            self.found = Found::NoneLeft;
            self.reading = Reading::Standard;
            return Ok(Some(MainNext::Opened(name)));
        }
        self.ended = true;
        Ok(Some(MainNext::End))
    }

    /// Opens what an operand names, and passes the operand.
    fn open<W: World>(&mut self, world: &mut W, name: Bytes) -> Result<Option<MainNext>, Stop>
        requires idle { self.old.reading ≡ Reading.Nothing }
        requires live { self.old.ended ≡ false }
        requires next { self.old.next ≤ most_operands }
        requires held { HoldsMain self.old (W.kinds world.old) }
        requires plain { name ≢ [] }
        requires file { assignment_of name ≡ None }
        requires left { self.old.found ≢ Found.NoneLeft }
        ensures moves { MovesMain W.is_modelled self.old self.new (W.kinds world.old)
            (W.kinds world.new) (W.state world.old) (W.state world.new) }
        ensures told { W.is_modelled → (inner : Inner) → GivesOperand name inner self.old
            (W.state world.old) result self.new (W.state world.new) }
        ensures steps { StepsMain Open self.old result self.new (W.count world.old)
            (W.count world.new) }
        ensures operand { TakesOperand name self.old result self.new }
        ensures gives { GivesNone W.did world.old world.new }
    {
        let opened = open_operand(world, self.alloc, name.as_slice())?;
        self.next += 1;
        self.found = Found::SomeFile;
        self.reading = opened;
        if let Reading::Nothing = &self.reading {
            return Err(Stop::Fault(Fault::OpenInput));
        }
        Ok(Some(MainNext::Opened(name)))
    }

    /// An operand that is an assignment is passed.
    fn assign(&mut self, text: &[u8], len: usize) -> Result<Option<MainNext>, Stop>
        requires idle { self.old.reading ≡ Reading.Nothing }
        requires live { self.old.ended ≡ false }
        requires name { NameLen text.now (Some len) }
        requires next { self.old.next ≤ most_operands }
        requires left { self.old.found ≢ Found.NoneLeft }
        ensures reading { self.new.reading ≡ self.old.reading }
        ensures told { (state : State) (inner : Inner)
            → GivesOperand text.now inner self.old state result self.new state }
        ensures steps { (n : ℕ) → StepsMain Open self.old result self.new n n }
        ensures operand { TakesOperand text.now self.old result self.new }
    {
        let name = Bytes::from_slice(self.alloc, &text[..len])?;
        let value = Bytes::from_slice(self.alloc, &text[len + 1..])?;
        self.next += 1;
        Ok(Some(MainNext::Assign(name, value)))
    }

    /// Takes the operand at hand: an empty one is skipped.
    fn take<W: World, O: Operands>(
        &mut self,
        world: &mut W,
        operands: &O,
    ) -> Result<Option<MainNext>, Stop>
        requires idle { self.old.reading ≡ Reading.Nothing }
        requires live { self.old.ended ≡ false }
        requires next { self.old.next ≤ most_operands }
        requires left { self.old.found ≢ Found.NoneLeft }
        requires held { HoldsMain self.old (W.kinds world.old) }
        ensures moves { MovesMain W.is_modelled self.old self.new (W.kinds world.old)
            (W.kinds world.new) (W.state world.old) (W.state world.new) }
        ensures told { W.is_modelled → (inner : Inner) → GivesOperand (O.text operands.now self.old.next)
            inner self.old (W.state world.old) result self.new (W.state world.new) }
        ensures steps { StepsMain Open self.old result self.new (W.count world.old)
            (W.count world.new) }
        ensures operand { TakesOperand (O.text operands.now self.old.next) self.old result self.new }
        ensures gives { GivesNone W.did world.old world.new }
    {
        let text = operands.operand(self.next)?;
        if text.as_slice().is_empty() {
            self.next += 1;
            return Ok(None);
        }
        match name_len(text.as_slice()) {
            Some(len) => self.assign(text.as_slice(), len),
            None => self.open(world, text),
        }
    }

    /// Reaches the next operand, or what follows the operands.
    fn reach<W: World, O: Operands>(
        &mut self,
        world: &mut W,
        operands: &O,
        argc: &Value,
    ) -> Result<Option<MainNext>, Stop>
        requires idle { self.old.reading ≡ Reading.Nothing }
        requires live { self.old.ended ≡ false }
        requires held { HoldsMain self.old (W.kinds world.old) }
        ensures moves { MovesMain W.is_modelled self.old self.new (W.kinds world.old)
            (W.kinds world.new) (W.state world.old) (W.state world.new) }
        ensures told { W.is_modelled → (inner : Inner) → IsOffered argc.now (O.text operands.now) inner
            → GivesStep inner self.old (W.state world.old) result self.new (W.state world.new) }
        ensures steps { StepsMain Open self.old result self.new (W.count world.old)
            (W.count world.new) }
        ensures passes { StepPasses (O.text operands.now) self.old.next self.old.found result
            self.new.next self.new.found }
        ensures there { AreThere (number_of_value argc.now) self.old.next self.new.next }
        ensures more { StepNoneMore (number_of_value argc.now) false self.old.found result
            self.new.next self.new.found }
        ensures standard { self.new.standard ≡ self.old.standard }
        ensures answers { IsOfOperands result }
        ensures idle { IdleAfter result self.new.reading }
        ensures finds { FindsReach argc.now (O.text operands.now) self.old result self.new }
        ensures gives { GivesNone W.did world.old world.new }
    {
        if let Found::NoneLeft = self.found {
            return self.follow();
        }
        match has_operand(self.next, argc) {
            Ok(true) => self.take(world, operands),
            Ok(false) => self.follow(),
            Err(fault) => Err(Stop::Fault(fault)),
        }
    }

    /// One step: the reader at hand, the next operand, or the end.
    fn step<W: World, O: Operands>(
        &mut self,
        world: &mut W,
        operands: &O,
        argc: &Value,
        rs: Option<u8>,
    ) -> Result<Option<MainNext>, Stop>
        requires held { HoldsMain self.old (W.kinds world.old) }
        ensures moves { MovesMain W.is_modelled self.old self.new (W.kinds world.old)
            (W.kinds world.new) (W.state world.old) (W.state world.new) }
        ensures told { W.is_modelled → (inner : Inner) → IsAsked rs inner
            → IsOffered argc.now (O.text operands.now) inner
            → GivesStep inner self.old (W.state world.old) result self.new (W.state world.new) }
        ensures steps { StepsMain (main_phase self.old) self.old result self.new (W.count world.old)
            (W.count world.new) }
        ensures handed { HandsStep rs self.old result self.new }
        ensures passes { StepPasses (O.text operands.now) self.old.next self.old.found result
            self.new.next self.new.found }
        ensures there { AreThere (number_of_value argc.now) self.old.next self.new.next }
        ensures more { StepNoneMore (number_of_value argc.now) self.old.ended self.old.found result
            self.new.next self.new.found }
        ensures standard { StandardStays self.old.reading self.old.standard self.new.standard }
        ensures finds { FindsStep rs argc.now (O.text operands.now) self.old result self.new }
        ensures gives { GivesNone W.did world.old world.new }
    {
        if self.ended {
            return Ok(Some(MainNext::End));
        }
        if let Reading::Nothing = &self.reading {
            return self.reach(world, operands, argc);
        }
        self.read_on(world, rs)
    }

    /// Gives up the rest of what is being read, also where it fails: of the standard input nothing is left, and a file is closed. Where nothing is
    /// being read nothing changes. It takes no memory.
    pub fn skip<W: World>(&mut self, world: &mut W)
        requires held { HoldsMain self.old (W.kinds world.old) }
        ensures held { HoldsMain self.new (W.kinds world.new) }
        ensures told { W.is_modelled
            → SkipsMain self.old (W.state world.old) self.new (W.state world.new) }
        ensures nothing { self.new.reading ≡ Reading.Nothing }
        ensures standard { StandardSkips self.old.reading self.old.standard self.new.standard }
        ensures next { self.new.next ≡ self.old.next }
        ensures found { self.new.found ≡ self.old.found }
        ensures ended { self.new.ended ≡ self.old.ended }
        ensures count { W.count world.new ≡ W.count world.old }
        ensures spares { SparesOthers self.old self.new (W.kinds world.old) (W.kinds world.new) }
        ensures no_others { OpensNoOther self.old self.new (W.kinds world.old) (W.kinds world.new) }
        ensures places { W.is_modelled → SparesPlaces self.old.reading (W.kinds world.old)
            (W.state world.old) (W.state world.new) }
        ensures outside { W.is_modelled → (W.state world.new).outside ≡ (W.state world.old).outside }
        ensures gives { GivesNone W.did world.old world.new }
    {
        if let Reading::Standard = &self.reading {
            self.standard.skip();
        }
        self.stop_reading(world);
    }

    /// What the main input gives next. The first byte of `rs` ends a record; where `rs` is empty, empty lines do. Operands are taken when they are
    /// reached, up to the number before `argc`'s and 1,048,576; empty ones are skipped. Once [`MainNext::End`] was told, it is told again.
    ///
    /// # Errors
    ///
    /// [`Fault::OpenInput`] where a file does not open; it is passed over. [`Fault::ReadFailed`] where a read fails, now or earlier; bytes after the
    /// last separator are no record then. [`Fault::TextLimit`] where the newlines that are skipped and the record have more than 67,108,864 bytes.
    /// The faults of the number of `argc`. [`Stop::NoMemory`]; no byte and no operand is lost.
    pub fn next<W: World, O: Operands>(
        &mut self,
        world: &mut W,
        operands: &O,
        argc: &Value,
        rs: &[u8],
    ) -> Result<MainNext, Stop>
        requires held { HoldsMain self.old (W.kinds world.old) }
        ensures held { HoldsMain self.new (W.kinds world.new) }
        ensures told { W.is_modelled → GivesMain (record_separator rs.now) argc.now (O.text operands.now)
            self.old (W.state world.old) result self.new (W.state world.new) }
        ensures count { MainCounts (main_phase self.old) result (W.count world.old)
            (W.count world.new) }
        ensures phase { MainPhase (main_phase self.old) result (main_phase self.new) }
        ensures ends { MainEnds self.old.ended result self.new.ended }
        ensures spares { SparesOthers self.old self.new (W.kinds world.old) (W.kinds world.new) }
        ensures no_others { OpensNoOther self.old self.new (W.kinds world.old) (W.kinds world.new) }
        ensures places { W.is_modelled → SparesPlaces self.old.reading (W.kinds world.old)
            (W.state world.old) (W.state world.new) }
        ensures outside { W.is_modelled → (W.state world.new).outside ≡ (W.state world.old).outside }
        ensures handed { HandsMain (record_separator rs.now) self.old result self.new }
        ensures passes { Passes (O.text operands.now) self.old.next self.old.found result
            self.new.next self.new.found }
        ensures there { AreThere (number_of_value argc.now) self.old.next self.new.next }
        ensures more { NoneMore (number_of_value argc.now) self.old.ended self.old.found result
            self.new.next self.new.found }
        ensures rests { RestsAfter result self.new.reading self.new.found }
        ensures standard { StandardStays self.old.reading self.old.standard self.new.standard }
        ensures finds { FindsMain (record_separator rs.now) argc.now (O.text operands.now)
            self.old result self.new }
        ensures gives { GivesNone W.did world.old world.new }
    {
        let separator = first_byte(rs);
        'steps: loop {
            match self.step(world, operands, argc, separator) {
                Ok(Some(answer)) => return Ok(answer),
                Ok(None) => {}
                Err(stop) => return Err(stop),
            }
        }
    }
}
