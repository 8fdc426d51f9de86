//! A world over real files, which tells nothing of what they hold.
ghost use Rattle.std.specs.Prelude.{◌≡◌, ◌≢◌, ◌<◌, ◌≤◌, [], length, Err, IfErr, IfNone, IfOk, IfSome, MatchOption, OnErr, Some};
ghost use Rattle.world_core.specs.Traces.{Other, opening, writing as wrote};
ghost use Rattle.world_os.specs.OsStreams.{File, Gives, held_by, IsPath, left_of, meaning_of, os_kind, os_kinds, OthersStay, read_as, stream_at, writing, written_as};
ghost use Rattle.std.specs.Io.KnownBytes.{ReadConsumes, WriteAppends};
ghost use Rattle.world_core.specs.Calls.{Closed, next_count, Opens, Reading, set_kind, Writing};

use crate::names::{names_errors, names_input, names_output};
use std::alloc::Global;
use std::fs;
use std::fs::OpenOptions;
use std::io::{Read, Write};
use std::rt::Files;
use world_core::{World, WorldFault};

/// Counts a failure.
fn failed<T>(failures: &mut u64) -> Result<T, WorldFault>
    ensures fault { result ≡ Err WorldFault.Failed }
    ensures count { failures.new ≡ next_count result failures.old }
{
    *failures = failures.wrapping_add(1);
    Err(WorldFault::Failed)
}

/// The path of a name; none where the name is empty or not UTF-8.
fn path_of(name: &[u8]) -> Option<&str>
    ensures { MatchOption result (¬ (IsPath name.now))
        (λ path. (path.now ≡ name.now) × IsPath name.now) }
{
    match str::from_utf8(name) {
        Ok(path) if !name.is_empty() => Some(path),
        _ => None,
    }
}

/// Reads once. An interrupted call is a failure.
fn counted_read<I: Read>(
    from: &mut I,
    buffer: &mut [u8],
    failures: &mut u64,
) -> Result<usize, WorldFault>
    ensures within { IfOk result (λ n. n ≤ length buffer.old) }
    ensures bytes { ReadConsumes (I.remaining from.old) (I.remaining from.new) result buffer.new }
    ensures count { failures.new ≡ next_count result failures.old }
{
    match from.read(buffer) {
        Ok(n) => Ok(n),
        Err(_) => failed(failures),
    }
}

/// Writes once. An interrupted call is a failure, and so is one that takes nothing of a text that is not empty.
fn counted_write<O: Write>(to: &mut O, text: &[u8], failures: &mut u64) -> Result<usize, WorldFault>
    ensures within { IfOk result (λ n. n ≤ length text.now) }
    ensures some { IfOk result (λ n. 0 < length text.now → 0 < n) }
    ensures bytes { WriteAppends (O.contents to.old) (O.contents to.new) result text.now }
    ensures count { failures.new ≡ next_count result failures.old }
{
    match to.write(text) {
        Ok(n) if n > 0 || text.is_empty() => Ok(n),
        _ => failed(failures),
    }
}

/// A stream of a name: a file, or one of the program's own streams.
#[derive(Drop)]
pub(crate) enum OsStream<F: Drop> {
    Closed,
    Reader(F),
    Writer(F),
    Input,
    Output,
    Errors,
}

/// How a file is opened for writing: created where it is absent, and at its end or emptied.
fn write_options(append: bool) -> OpenOptions
    ensures { result ≡ writing append }
{
    let mut options = OpenOptions::new();
    options
        .write(true)
        .create(true)
        .append(append)
        .truncate(!append);
    options
}

/// The file of a name, opened for reading.
fn open_to_read<R: Files>(files: &R, name: &[u8]) -> Option<R::File>
    ensures { IfSome result (λ file. IsPath name.now) }
{
    fs::open(files, path_of(name)?).ok()
}

/// The file of a name, opened for writing, at its end or emptied.
fn open_to_write<R: Files>(files: &R, name: &[u8], append: bool) -> Option<R::File>
    ensures { IfSome result (λ file. IsPath name.now) }
{
    write_options(append).open(files, path_of(name)?).ok()
}

/// Puts a stream behind the others, and gives its number.
fn add_stream<F: Drop>(
    streams: &mut Vec<OsStream<F>>,
    stream: OsStream<F>,
) -> Result<u32, WorldFault>
    ensures opened { IfOk result (λ id. Opens (os_kind stream) id (os_kinds streams.old.items)
        (os_kinds streams.new.items)) }
    ensures stream { IfOk result (λ id. stream_at streams.new.items id ≡ stream) }
    ensures others { IfOk result (λ id. OthersStay id streams.old.items streams.new.items) }
    ensures err { OnErr result (streams.new.items ≡ streams.old.items) }
    ensures not_failed { IfErr result (λ fault. fault ≡ WorldFault.NoMemory) }
{
    let Ok(id) = u32::try_from(streams.as_slice().len() + 2) else {
        return Err(WorldFault::NoMemory);
    };
    match streams.push(stream) {
        Ok(()) => {}
        Err(_) => return Err(WorldFault::NoMemory),
    }
    Ok(id)
}

/// The program's own streams, as a world is given them.
#[derive(Drop)]
pub struct OwnStreams<I: Read + Drop, O: Write + Drop, E: Write + Drop> {
    /// The standard input.
    pub input: I,
    /// The standard output.
    pub output: O,
    /// The standard error.
    pub errors: E,
    /// Whether the file names `/dev/stdin`, `/dev/stdout` and `/dev/stderr` mean these streams.
    pub named: bool,
}

/// A world over real files and the program's own streams. It keeps nothing back: each write is one call of the system.
#[derive(Drop)]
pub struct OsWorld<'a, R: Files, I: Read + Drop, O: Write + Drop, E: Write + Drop> {
    files: &'a R,
    input: I,
    output: O,
    errors: E,
    named: bool,
    streams: Vec<OsStream<R::File>>,
    failures: u64,
}

impl<'a, R: Files, I: Read + Drop, O: Write + Drop, E: Write + Drop> OsWorld<'a, R, I, O, E> {
    /// A world with nothing open but the standard streams, in which nothing has failed. It takes no memory.
    pub fn new(alloc: Global, files: &'a R, own: OwnStreams<I, O, E>) -> OsWorld<'a, R, I, O, E>
        ensures streams { result.streams.items ≡ [] }
        ensures count { result.failures ≡ 0 }
        ensures named { result.named ≡ own.named }
        ensures input { result.input ≡ own.input }
        ensures output { result.output ≡ own.output }
        ensures errors { result.errors ≡ own.errors }
    {
        OsWorld {
            files,
            input: own.input,
            output: own.output,
            errors: own.errors,
            named: own.named,
            streams: Vec::new(alloc),
            failures: 0,
        }
    }

    /// The stream of a name, opened for reading; none where the name does not open.
    fn to_read(&self, name: &[u8]) -> Option<OsStream<R::File>>
        ensures kind { IfSome result (λ stream. os_kind stream ≡ Reading) }
        ensures path { IfSome result (λ stream. IsPath name.now) }
        ensures means { IfSome result
            (λ stream. meaning_of stream ≡ Some (read_as self.now.named name.now)) }
        ensures file { IfNone result (read_as self.now.named name.now ≡ File) }
    {
        if self.named && names_input(name) {
            return Some(OsStream::Input);
        }
        Some(OsStream::Reader(open_to_read(self.files, name)?))
    }

    /// The stream of a name, opened for writing; none where the name does not open.
    fn to_write(&self, name: &[u8], append: bool) -> Option<OsStream<R::File>>
        ensures kind { IfSome result (λ stream. os_kind stream ≡ Writing) }
        ensures path { IfSome result (λ stream. IsPath name.now) }
        ensures means { IfSome result
            (λ stream. meaning_of stream ≡ Some (written_as self.now.named name.now)) }
        ensures file { IfNone result (written_as self.now.named name.now ≡ File) }
    {
        if self.named && names_output(name) {
            return Some(OsStream::Output);
        }
        if self.named && names_errors(name) {
            return Some(OsStream::Errors);
        }
        Some(OsStream::Writer(open_to_write(self.files, name, append)?))
    }
}

impl<'a, R: Files, I: Read + Drop, O: Write + Drop, E: Write + Drop> World
    for OsWorld<'a, R, I, O, E> {
    ghost use Rattle.std.specs.Prelude.{refl};
    ghost use Rattle.world_os.specs.OsStreams.{Gives, os_kinds, no_state};

    ghost is_modelled = { ⊥ };

    ghost state = { λ _. no_state };

    ghost kinds = { λ w. os_kinds w.streams.items };

    ghost count = { λ w. w.failures };

    ghost did = { λ old call new. Gives R.File.contents old.named call old.streams.items new.streams.items
        (O.contents old.output) (O.contents new.output) (E.contents old.errors)
        (E.contents new.errors) };

    fn open_read(&mut self, name: &[u8]) -> Result<u32, WorldFault>
        ensures opened { IfOk result (λ id. Opens Reading id (os_kinds self.old.streams.items)
            (os_kinds self.new.streams.items)) }
        ensures not_opened { OnErr result
            (os_kinds self.new.streams.items ≡ os_kinds self.old.streams.items) }
        ensures count { self.new.failures ≡ next_count result self.old.failures }
        ensures did { Gives R.File.contents self.old.named Other self.old.streams.items
            self.new.streams.items (O.contents self.old.output) (O.contents self.new.output)
            (E.contents self.old.errors) (E.contents self.new.errors) }
        ensures not_path { ¬ (IsPath name.now) → (result ≡ Err WorldFault.Failed)
            × (self.new.streams.items ≡ self.old.streams.items) }
        ensures others { IfOk result
            (λ id. OthersStay id self.old.streams.items self.new.streams.items) }
        ensures stay { OnErr result (self.new.streams.items ≡ self.old.streams.items) }
        ensures means { IfOk result (λ id. meaning_of (stream_at self.new.streams.items id)
            ≡ Some (read_as self.old.named name.now)) }
        ensures own { result ≡ Err WorldFault.Failed → read_as self.old.named name.now ≡ File }
        ensures input { self.new.input ≡ self.old.input }
        ensures output { self.new.output ≡ self.old.output }
        ensures errors { self.new.errors ≡ self.old.errors }
        ensures named { self.new.named ≡ self.old.named }
    {
        match self.to_read(name) {
            Some(stream) => add_stream(&mut self.streams, stream),
            None => failed(&mut self.failures),
        }
    }

    fn open_write(&mut self, name: &[u8], append: bool) -> Result<u32, WorldFault>
        ensures opened { IfOk result (λ id. Opens Writing id (os_kinds self.old.streams.items)
            (os_kinds self.new.streams.items)) }
        ensures not_opened { OnErr result
            (os_kinds self.new.streams.items ≡ os_kinds self.old.streams.items) }
        ensures count { self.new.failures ≡ next_count result self.old.failures }
        ensures did { Gives R.File.contents self.old.named (opening name.now append result) self.old.streams.items
            self.new.streams.items (O.contents self.old.output) (O.contents self.new.output)
            (E.contents self.old.errors) (E.contents self.new.errors) }
        ensures not_path { ¬ (IsPath name.now) → (result ≡ Err WorldFault.Failed)
            × (self.new.streams.items ≡ self.old.streams.items) }
        ensures others { IfOk result
            (λ id. OthersStay id self.old.streams.items self.new.streams.items) }
        ensures stay { OnErr result (self.new.streams.items ≡ self.old.streams.items) }
        ensures means { IfOk result (λ id. meaning_of (stream_at self.new.streams.items id)
            ≡ Some (written_as self.old.named name.now)) }
        ensures own { result ≡ Err WorldFault.Failed → written_as self.old.named name.now ≡ File }
        ensures input { self.new.input ≡ self.old.input }
        ensures output { self.new.output ≡ self.old.output }
        ensures errors { self.new.errors ≡ self.old.errors }
        ensures named { self.new.named ≡ self.old.named }
    {
        match self.to_write(name, append) {
            Some(stream) => add_stream(&mut self.streams, stream),
            None => failed(&mut self.failures),
        }
    }

    fn read(&mut self, id: u32, buffer: &mut [u8]) -> Result<usize, WorldFault>
        requires { os_kinds self.old.streams.items id ≡ Reading }
        ensures within { IfOk result (λ n. n ≤ length buffer.old) }
        ensures kinds { os_kinds self.new.streams.items ≡ os_kinds self.old.streams.items }
        ensures count { self.new.failures ≡ next_count result self.old.failures }
        ensures did { Gives R.File.contents self.old.named Other self.old.streams.items
            self.new.streams.items (O.contents self.old.output) (O.contents self.new.output)
            (E.contents self.old.errors) (E.contents self.new.errors) }
        ensures standard { id ≡ 0 → ReadConsumes (I.remaining self.old.input)
            (I.remaining self.new.input) result buffer.new }
        ensures own { 1 < id
            → ReadConsumes (left_of R.File.remaining (stream_at self.old.streams.items id))
            (left_of R.File.remaining (stream_at self.new.streams.items id)) result buffer.new }
        ensures from_input { stream_at self.old.streams.items id ≡ OsStream.Input
            → ReadConsumes (I.remaining self.old.input) (I.remaining self.new.input) result
            buffer.new }
        ensures others { OthersStay id self.old.streams.items self.new.streams.items }
        ensures input { id ≢ 0 → stream_at self.old.streams.items id ≢ OsStream.Input
            → self.new.input ≡ self.old.input }
        ensures output { self.new.output ≡ self.old.output }
        ensures errors { self.new.errors ≡ self.old.errors }
        ensures named { self.new.named ≡ self.old.named }
    {
        if id == 0 {
            return counted_read(&mut self.input, buffer, &mut self.failures);
        }
        match &mut self.streams[id as usize - 2] {
            OsStream::Input => counted_read(&mut self.input, buffer, &mut self.failures),
            OsStream::Reader(file) => counted_read(file, buffer, &mut self.failures),
            _ => unreachable!(),
        }
    }

    fn write(&mut self, id: u32, text: &[u8]) -> Result<usize, WorldFault>
        requires { os_kinds self.old.streams.items id ≡ Writing }
        ensures within { IfOk result (λ n. n ≤ length text.now) }
        ensures some { IfOk result (λ n. 0 < length text.now → 0 < n) }
        ensures kinds { os_kinds self.new.streams.items ≡ os_kinds self.old.streams.items }
        ensures count { self.new.failures ≡ next_count result self.old.failures }
        ensures did { Gives R.File.contents self.old.named (wrote id text.now result) self.old.streams.items
            self.new.streams.items (O.contents self.old.output) (O.contents self.new.output)
            (E.contents self.old.errors) (E.contents self.new.errors) }
        ensures standard { id ≡ 1 → WriteAppends (O.contents self.old.output)
            (O.contents self.new.output) result text.now }
        ensures own { 1 < id
            → WriteAppends (held_by R.File.contents (stream_at self.old.streams.items id))
            (held_by R.File.contents (stream_at self.new.streams.items id)) result text.now }
        ensures to_output { stream_at self.old.streams.items id ≡ OsStream.Output → WriteAppends
            (O.contents self.old.output) (O.contents self.new.output) result text.now }
        ensures to_errors { stream_at self.old.streams.items id ≡ OsStream.Errors → WriteAppends
            (E.contents self.old.errors) (E.contents self.new.errors) result text.now }
        ensures others { OthersStay id self.old.streams.items self.new.streams.items }
        ensures input { self.new.input ≡ self.old.input }
        ensures output { id ≢ 1 → stream_at self.old.streams.items id ≢ OsStream.Output
            → self.new.output ≡ self.old.output }
        ensures errors { stream_at self.old.streams.items id ≢ OsStream.Errors
            → self.new.errors ≡ self.old.errors }
        ensures named { self.new.named ≡ self.old.named }
    {
        if id == 1 {
            return counted_write(&mut self.output, text, &mut self.failures);
        }
        match &mut self.streams[id as usize - 2] {
            OsStream::Output => counted_write(&mut self.output, text, &mut self.failures),
            OsStream::Errors => counted_write(&mut self.errors, text, &mut self.failures),
            OsStream::Writer(file) => counted_write(file, text, &mut self.failures),
            _ => unreachable!(),
        }
    }

    fn close(&mut self, id: u32)
        requires open { os_kinds self.old.streams.items id ≢ Closed }
        requires own { 1 < id }
        ensures kinds { os_kinds self.new.streams.items
            ≡ set_kind id Closed (os_kinds self.old.streams.items) }
        ensures count { self.new.failures ≡ self.old.failures }
        ensures did { Gives R.File.contents self.old.named Other self.old.streams.items
            self.new.streams.items (O.contents self.old.output) (O.contents self.new.output)
            (E.contents self.old.errors) (E.contents self.new.errors) }
        ensures others { OthersStay id self.old.streams.items self.new.streams.items }
        ensures input { self.new.input ≡ self.old.input }
        ensures output { self.new.output ≡ self.old.output }
        ensures errors { self.new.errors ≡ self.old.errors }
        ensures named { self.new.named ≡ self.old.named }
    {
        self.streams[id as usize - 2] = OsStream::Closed;
    }

    fn failures(&self) -> u64 {
        self.failures
    }

    ghost input = { λ w. refl };

    ghost output = { λ w. refl };

    ghost standard = { λ w. refl };
}
