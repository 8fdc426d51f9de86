//! A world behind a fence.
ghost use Rattle.std.specs.Prelude.{◌≡◌, ◌<◌, ◌≤◌, ◌+◌, ◌%◌, ◌^◌, ◌≢◌, true, false, length, Err, IfOk, OnErr};
ghost use Rattle.world_core.specs.Calls.{Closed, Closes, Opens, OpensToRead, OpensToWrite, Reading, Reads, Writes, Writing, next_count, set_kind};
ghost use Rattle.world_core.specs.Traces.{Other, opening, writing};
ghost use Rattle.world_core.specs.TraceParts.{IsHandedOn};
ghost use Rattle.world_os.specs.Behind.{behind};

use crate::fence::Fence;
use world_core::{FaultyWorld, World, WorldFault};

/// A world that does as its inner one does, but for names that its fence keeps out: they do not open, and the inner world is not asked. What is
/// told of it is what the inner world tells, seen through the fence.
#[derive(Drop)]
pub struct FencedWorld<W: World, F: Fence> {
    inner: W,
    fence: F,
    kept_out: u64,
}

impl<W: World, F: Fence> FencedWorld<W, F> {
    /// A world behind a fence. It takes no memory.
    pub fn new(inner: W, fence: F) -> FencedWorld<W, F>
        ensures inner { result.inner ≡ inner }
        ensures fence { result.fence ≡ fence }
        ensures kept_out { result.kept_out ≡ 0 }
    {
        FencedWorld {
            inner,
            fence,
            kept_out: 0,
        }
    }

    /// A name is kept out.
    fn keep_out(&mut self) -> Result<u32, WorldFault>
        ensures result { result ≡ Err WorldFault.Failed }
        ensures inner { self.new.inner ≡ self.old.inner }
        ensures fence { self.new.fence ≡ self.old.fence }
        ensures counted { self.new.kept_out ≡ (self.old.kept_out + 1) % 2 ^ 64 }
    {
        self.kept_out = self.kept_out.wrapping_add(1);
        Err(WorldFault::Failed)
    }
}

impl<W: World, F: Fence> FencedWorld<FaultyWorld<W>, F> {
    /// The inner world, where it is one whose calls fail as told, as in a test. The fence is taken from no other world.
    pub fn into_inner(self) -> FaultyWorld<W>
        ensures { result ≡ self.inner }
    {
        self.inner
    }
}

impl<W: World, F: Fence> World for FencedWorld<W, F> {
    ghost use Rattle.std.specs.Prelude.{◌+◌, ◌%◌, ◌^◌};
    ghost use Rattle.world_core.specs.TraceParts.{IsHandedOn};
    ghost use Rattle.world_os.specs.Behind.{behind};

    ghost is_modelled = { W.is_modelled × F.alike };

    ghost state = { λ w. behind (F.reads w.fence) (W.state w.inner) };

    ghost kinds = { λ w. W.kinds w.inner };

    ghost count = { λ w. (W.count w.inner + w.kept_out) % 2 ^ 64 };

    ghost did = { λ old call new. IsHandedOn W.did old.inner call new.inner };

    fn open_read(&mut self, name: &[u8]) -> Result<u32, WorldFault>
        ensures opened { IfOk result
            (λ id. Opens Reading id (W.kinds self.old.inner) (W.kinds self.new.inner)) }
        ensures not_opened { OnErr result (W.kinds self.new.inner ≡ W.kinds self.old.inner) }
        ensures did { IsHandedOn W.did self.old.inner Other self.new.inner }
        ensures count { (W.count self.new.inner + self.new.kept_out) % 2 ^ 64
            ≡ next_count result ((W.count self.old.inner + self.old.kept_out) % 2 ^ 64) }
        ensures told { W.is_modelled × F.alike
            → OpensToRead name.now (behind (F.reads self.old.fence) (W.state self.old.inner)) result
            (behind (F.reads self.new.fence) (W.state self.new.inner)) }
        ensures kept_out { F.reads self.old.fence name.now ≡ false
            → (result ≡ Err WorldFault.Failed) × (self.new.inner ≡ self.old.inner) }
        ensures let_through { F.reads self.old.fence name.now ≡ true → W.is_modelled
            → OpensToRead name.now (W.state self.old.inner) result (W.state self.new.inner) }
        ensures fence { self.new.fence ≡ self.old.fence }
    {
        if !self.fence.lets_read(name) {
            return self.keep_out();
        }
        self.inner.open_read(name)
    }

    fn open_write(&mut self, name: &[u8], append: bool) -> Result<u32, WorldFault>
        ensures opened { IfOk result
            (λ id. Opens Writing id (W.kinds self.old.inner) (W.kinds self.new.inner)) }
        ensures not_opened { OnErr result (W.kinds self.new.inner ≡ W.kinds self.old.inner) }
        ensures did { IsHandedOn W.did self.old.inner (opening name.now append result) self.new.inner }
        ensures count { (W.count self.new.inner + self.new.kept_out) % 2 ^ 64
            ≡ next_count result ((W.count self.old.inner + self.old.kept_out) % 2 ^ 64) }
        ensures told { W.is_modelled × F.alike → OpensToWrite name.now append
            (behind (F.reads self.old.fence) (W.state self.old.inner)) result
            (behind (F.reads self.new.fence) (W.state self.new.inner)) }
        ensures kept_out { F.writes self.old.fence name.now ≡ false
            → (result ≡ Err WorldFault.Failed) × (self.new.inner ≡ self.old.inner) }
        ensures let_through { F.writes self.old.fence name.now ≡ true → W.is_modelled → OpensToWrite
            name.now append (W.state self.old.inner) result (W.state self.new.inner) }
        ensures fence { self.new.fence ≡ self.old.fence }
    {
        if !self.fence.lets_write(name) {
            return self.keep_out();
        }
        self.inner.open_write(name, append)
    }

    fn read(&mut self, id: u32, buffer: &mut [u8]) -> Result<usize, WorldFault>
        requires { W.kinds self.old.inner id ≡ Reading }
        ensures within { IfOk result (λ n. n ≤ length buffer.old) }
        ensures kinds { W.kinds self.new.inner ≡ W.kinds self.old.inner }
        ensures did { IsHandedOn W.did self.old.inner Other self.new.inner }
        ensures count { (W.count self.new.inner + self.new.kept_out) % 2 ^ 64
            ≡ next_count result ((W.count self.old.inner + self.old.kept_out) % 2 ^ 64) }
        ensures told { W.is_modelled × F.alike
            → Reads id (behind (F.reads self.old.fence) (W.state self.old.inner)) buffer.old result
            buffer.new (behind (F.reads self.new.fence) (W.state self.new.inner)) }
        ensures inner { W.is_modelled → Reads id (W.state self.old.inner) buffer.old result buffer.new
            (W.state self.new.inner) }
        ensures fence { self.new.fence ≡ self.old.fence }
    {
        self.inner.read(id, buffer)
    }

    fn write(&mut self, id: u32, text: &[u8]) -> Result<usize, WorldFault>
        requires { W.kinds self.old.inner id ≡ Writing }
        ensures within { IfOk result (λ n. n ≤ length text.now) }
        ensures some { IfOk result (λ n. 0 < length text.now → 0 < n) }
        ensures kinds { W.kinds self.new.inner ≡ W.kinds self.old.inner }
        ensures did { IsHandedOn W.did self.old.inner (writing id text.now result) self.new.inner }
        ensures count { (W.count self.new.inner + self.new.kept_out) % 2 ^ 64
            ≡ next_count result ((W.count self.old.inner + self.old.kept_out) % 2 ^ 64) }
        ensures told { W.is_modelled × F.alike
            → Writes id text.now (behind (F.reads self.old.fence) (W.state self.old.inner)) result
            (behind (F.reads self.new.fence) (W.state self.new.inner)) }
        ensures inner { W.is_modelled
            → Writes id text.now (W.state self.old.inner) result (W.state self.new.inner) }
        ensures fence { self.new.fence ≡ self.old.fence }
    {
        self.inner.write(id, text)
    }

    fn close(&mut self, id: u32)
        requires open { W.kinds self.old.inner id ≢ Closed }
        requires own { 1 < id }
        ensures kinds { W.kinds self.new.inner ≡ set_kind id Closed (W.kinds self.old.inner) }
        ensures did { IsHandedOn W.did self.old.inner Other self.new.inner }
        ensures count { (W.count self.new.inner + self.new.kept_out) % 2 ^ 64
            ≡ (W.count self.old.inner + self.old.kept_out) % 2 ^ 64 }
        ensures told { W.is_modelled × F.alike → Closes id (behind (F.reads self.old.fence)
            (W.state self.old.inner)) (behind (F.reads self.new.fence) (W.state self.new.inner)) }
        ensures inner { W.is_modelled → Closes id (W.state self.old.inner) (W.state self.new.inner) }
        ensures fence { self.new.fence ≡ self.old.fence }
    {
        self.inner.close(id)
    }

    fn failures(&self) -> u64 {
        self.inner.failures().wrapping_add(self.kept_out)
    }

    ghost input = { λ w. W.input w.inner };

    ghost output = { λ w. W.output w.inner };

    ghost standard = { λ w. W.standard w.inner };
}
