//! A world that remembers which file a call that failed was about.
ghost use Rattle.std.specs.Prelude.{◌≡◌, IfSome};
ghost use Rattle.run_modules.specs.Seen.{IsFile};

use awk_values::Bytes;
use run_report::Subject;
use std::alloc::Global;
use world_core::{World, WorldFault};

/// A name that was opened, and the number of its stream while that is open.
#[derive(Drop)]
struct Opened {
    id: Option<u32>,
    name: Vec<u8>,
}

/// What the last call that failed was about.
#[derive(Clone, Copy, Drop)]
enum Failed {
    Nothing,
    StandardInput,
    StandardOutput,
    Named,
}

/// The names of the streams that are open, and what the last call that failed was about. A name is left out where there is no memory for it.
#[derive(Drop)]
struct Notes {
    alloc: Global,
    opened: Vec<Opened>,
    failed: Failed,
    /// The name that failed.
    name: Vec<u8>,
}

/// Makes a list these bytes; whether there is memory for them.
fn refill(list: &mut Vec<u8>, bytes: &[u8]) -> bool {
    list.clear();
    list.extend_from_slice(bytes).is_ok()
}

/// Takes a name down where a stream is no more.
fn reopen(opened: &mut Opened, id: u32, name: &[u8]) {
    if refill(&mut opened.name, name) {
        opened.id = Some(id);
    }
}

impl Notes {
    /// Nothing is opened, and nothing has failed. It takes no memory.
    fn new(alloc: Global) -> Notes {
        Notes {
            alloc,
            opened: Vec::new(alloc),
            failed: Failed::Nothing,
            name: Vec::new(alloc),
        }
    }

    /// Where the stream of a number stands; none is where one is no more.
    fn place(&self, id: Option<u32>) -> Option<usize> {
        self.opened.iter().position(|opened| opened.id == id)
    }

    /// A name is opened.
    fn open(&mut self, id: u32, name: &[u8]) {
        if let Some(place) = self.place(None) {
            if let Some(opened) = self.opened.get_mut(place) {
                reopen(opened, id, name);
            }
            return;
        }
        if let Ok(name) = Vec::from_slice(self.alloc, name) {
            let id = Some(id);
            let _ = self.opened.push(Opened { id, name });
        }
    }

    /// A stream is closed.
    fn close(&mut self, id: u32) {
        if let Some(place) = self.place(Some(id)) {
            if let Some(opened) = self.opened.get_mut(place) {
                opened.id = None;
            }
        }
    }

    /// A name does not open.
    fn refuse(&mut self, name: &[u8]) {
        self.failed = if refill(&mut self.name, name) {
            Failed::Named
        } else {
            Failed::Nothing
        };
    }

    /// A stream that was opened by a name is not read, or not written.
    fn break_named(&mut self, id: u32) {
        self.failed = Failed::Nothing;
        if let Some(place) = self.place(Some(id)) {
            if let Some(opened) = self.opened.get(place) {
                if refill(&mut self.name, &opened.name) {
                    self.failed = Failed::Named;
                }
            }
        }
    }

    /// A stream is not read, or not written.
    #[inline(never)]
    fn break_stream(&mut self, id: u32) {
        match id {
            0 => self.failed = Failed::StandardInput,
            1 => self.failed = Failed::StandardOutput,
            _ => self.break_named(id),
        }
    }

    /// What the last call that failed was about; none where there is no memory.
    fn subject(&self, alloc: Global) -> Option<Subject>
        ensures { IfSome result IsFile }
    {
        match self.failed {
            Failed::Nothing => None,
            Failed::StandardInput => Some(Subject::StandardInput),
            Failed::StandardOutput => Some(Subject::StandardOutput),
            Failed::Named => match Bytes::from_slice(alloc, &self.name) {
                Ok(name) => Some(Subject::File(name)),
                Err(_) => None,
            },
        }
    }
}

/// A world that does as its inner one does, and remembers which file or standard stream the last call that failed was about.
#[derive(Drop)]
pub struct NotedWorld<W: World> {
    inner: W,
    notes: Notes,
}

/// A world that knows which file or standard stream the last call that failed was about.
pub(crate) trait KnowsFailed {
    /// What the last call that failed was about, if one has, and there is memory for its name.
    fn failed(&self, alloc: Global) -> Option<Subject>
        ensures { IfSome result IsFile };
}

impl<W: World> KnowsFailed for NotedWorld<W> {
    fn failed(&self, alloc: Global) -> Option<Subject> {
        self.notes.subject(alloc)
    }
}

impl<W: World> NotedWorld<W> {
    /// A world whose failures are noted from now on. It takes no memory.
    pub fn new(alloc: Global, inner: W) -> NotedWorld<W>
        ensures { result.inner ≡ inner }
    {
        NotedWorld {
            inner,
            notes: Notes::new(alloc),
        }
    }

    /// The inner world.
    pub fn into_inner(self) -> W
        ensures { result ≡ self.inner }
    {
        self.inner
    }
}

impl<W: World> World for NotedWorld<W> {
    ghost is_modelled = { W.is_modelled };

    ghost state = { λ w. W.state w.inner };

    ghost kinds = { λ w. W.kinds w.inner };

    ghost count = { λ w. W.count w.inner };

    ghost did = { λ old call new. W.did old.inner call new.inner };

    fn open_read(&mut self, name: &[u8]) -> Result<u32, WorldFault> {
        let opened = self.inner.open_read(name);
        match opened {
            Ok(id) => self.notes.open(id, name),
            Err(_) => self.notes.refuse(name),
        }
        opened
    }

    fn open_write(&mut self, name: &[u8], append: bool) -> Result<u32, WorldFault> {
        let opened = self.inner.open_write(name, append);
        match opened {
            Ok(id) => self.notes.open(id, name),
            Err(_) => self.notes.refuse(name),
        }
        opened
    }

    #[inline(always)]
    fn read(&mut self, id: u32, buffer: &mut [u8]) -> Result<usize, WorldFault> {
        let read = self.inner.read(id, buffer);
        if read.is_err() {
            self.notes.break_stream(id);
        }
        read
    }

    #[inline(always)]
    fn write(&mut self, id: u32, text: &[u8]) -> Result<usize, WorldFault> {
        let written = self.inner.write(id, text);
        if written.is_err() {
            self.notes.break_stream(id);
        }
        written
    }

    fn close(&mut self, id: u32) {
        self.notes.close(id);
        self.inner.close(id)
    }

    fn failures(&self) -> u64 {
        self.inner.failures()
    }

    ghost input = { λ w. W.input w.inner };

    ghost output = { λ w. W.output w.inner };

    ghost standard = { λ w. W.standard w.inner };
}
