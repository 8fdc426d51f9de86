//! A world whose reads give few bytes.
use world_core::{World, WorldFault};

/// A world that does as its inner one does, and reads so many bytes at a time at most. It is not modelled.
#[derive(Drop)]
pub(crate) struct SlowWorld<W: World> {
    inner: W,
    most: usize,
}

impl<W: World> SlowWorld<W> {
    /// A read gives so many bytes at most.
    pub(crate) fn new(inner: W, most: usize) -> SlowWorld<W> {
        SlowWorld { inner, most }
    }

    /// The inner world.
    pub(crate) fn into_inner(self) -> W {
        self.inner
    }
}

impl<W: World> World for SlowWorld<W> {
    ghost is_modelled = { ⊥ };

    ghost state = { λ w. W.state w.inner };

    ghost kinds = { λ w. W.kinds w.inner };

    ghost count = { λ w. W.count w.inner };

    ghost did = { λ old call new. W.did old.inner call new.inner };

    fn open_read(&mut self, name: &[u8]) -> Result<u32, WorldFault> {
        self.inner.open_read(name)
    }

    fn open_write(&mut self, name: &[u8], append: bool) -> Result<u32, WorldFault> {
        self.inner.open_write(name, append)
    }

    fn read(&mut self, id: u32, buffer: &mut [u8]) -> Result<usize, WorldFault> {
        let count = buffer.len().min(self.most);
        self.inner.read(id, &mut buffer[..count])
    }

    fn write(&mut self, id: u32, text: &[u8]) -> Result<usize, WorldFault> {
        self.inner.write(id, text)
    }

    fn close(&mut self, id: u32) {
        self.inner.close(id)
    }

    fn failures(&self) -> u64 {
        self.inner.failures()
    }

    ghost input = { λ w. W.input w.inner };

    ghost output = { λ w. W.output w.inner };

    ghost standard = { λ w. W.standard w.inner };
}
