//! The world of a row.
use crate::slow::SlowWorld;
use awk_text::number_of;
use std::alloc::{AllocError, Global};
use world_core::{Ending, FaultyWorld, MemFile, MemWorld};

/// The world that rows run over.
pub(crate) type RowWorld = FaultyWorld<SlowWorld<MemWorld>>;

/// A file that is there before the run; one that does not open has no text.
#[derive(Drop)]
struct File {
    name: Vec<u8>,
    text: Vec<u8>,
    ending: Ending,
    opens: bool,
}

/// What a world is made of.
#[derive(Drop)]
pub(crate) struct Outside {
    input: Vec<u8>,
    ending: Ending,
    room: Option<usize>,
    files: Vec<File>,
    call: u64,
    most_read: usize,
}

/// What is before the first `=` and what is after it; all is before it where there is none.
pub(crate) fn pair_of(bytes: &[u8]) -> (&[u8], &[u8]) {
    match bytes.iter().position(|byte| *byte == b'=') {
        Some(at) => (&bytes[..at], &bytes[at + 1..]),
        None => (bytes, &[]),
    }
}

/// The number that a field writes.
pub(crate) fn count_of(digits: &[u8]) -> u64 {
    match number_of(digits) {
        Ok(number) => number.unsigned_abs(),
        Err(_) => 0,
    }
}

/// Adds so many of a text, which stand before it.
pub(crate) fn push_times(bytes: &mut Vec<u8>, field: &[u8]) -> Result<(), AllocError> {
    let (times, text) = pair_of(field);
    for _ in 0..count_of(times) {
        bytes.extend_from_slice(text)?;
    }
    Ok(())
}

impl Outside {
    /// With this input, and nothing else.
    pub(crate) fn new(alloc: Global, input: Vec<u8>) -> Outside {
        Outside {
            input,
            ending: Ending::End,
            room: None,
            files: Vec::new(alloc),
            call: 0,
            most_read: usize::MAX,
        }
    }

    /// Lets this call fail, from 1 on.
    pub(crate) fn let_fail(&mut self, call: u64) {
        self.call = call;
    }

    /// Adds a file that opens.
    fn add_file(&mut self, alloc: Global, field: &[u8], ending: Ending) -> Result<(), AllocError> {
        let (name, text) = pair_of(field);
        let name = Vec::from_slice(alloc, name)?;
        let text = Vec::from_slice(alloc, text)?;
        self.files.push(File {
            name,
            text,
            ending,
            opens: true,
        })?;
        Ok(())
    }

    /// Adds a file that does not open.
    fn add_shut(&mut self, alloc: Global, name: &[u8]) -> Result<(), AllocError> {
        let name = Vec::from_slice(alloc, name)?;
        self.files.push(File {
            name,
            text: Vec::new(alloc),
            ending: Ending::End,
            opens: false,
        })?;
        Ok(())
    }

    /// Adds what a field of this letter says.
    pub(crate) fn add(&mut self, alloc: Global, letter: u8, text: &[u8]) -> Result<(), AllocError> {
        match letter {
            b'f' => return self.add_file(alloc, text, Ending::End),
            b'g' => return self.add_file(alloc, text, Ending::Fails),
            b'n' => return self.add_shut(alloc, text),
            b'i' => return push_times(&mut self.input, text),
            b'x' => self.ending = Ending::Fails,
            b'r' => self.room = Some(count_of(text) as usize),
            b'c' => self.call = count_of(text),
            b'y' => self.most_read = count_of(text) as usize,
            _ => {}
        }
        Ok(())
    }

    /// The world of this, at its beginning.
    pub(crate) fn world(&self, alloc: Global) -> Result<RowWorld, AllocError> {
        let mut input = MemFile::holding(self.input.clone()?);
        input.ending = self.ending;
        let mut output = MemFile::absent();
        output.room = self.room;
        let mut world = MemWorld::new(alloc, input, output);
        for file in &self.files {
            add_to(&mut world, file)?;
        }
        Ok(FaultyWorld::new(SlowWorld::new(world, self.most_read), self.call))
    }
}

/// Puts a file into a world.
fn add_to(world: &mut MemWorld, file: &File) -> Result<(), AllocError> {
    let mut held = MemFile::holding(file.text.clone()?);
    held.ending = file.ending;
    held.opens = file.opens;
    world.add(&file.name, held)
}
