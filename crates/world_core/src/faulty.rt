//! A world of which one call fails.
ghost use Rattle.std.specs.Prelude.{◌≡◌, ◌≢◌, ◌↔◌, ◌<◌, ◌≤◌, ◌-◌, ◌+◌, ◌%◌, ◌^◌, length, Err, IsTrue, IsFalse, IfOk, OnErr};
ghost use Rattle.world_core.specs.Calls.{Closed, Closes, Opens, OpensToRead, OpensToWrite, Reading, Reads, Writes, Writing, next_count, set_kind};
ghost use Rattle.world_core.specs.Faulty.{calls_left, failed_here, inside};
ghost use Rattle.world_core.specs.Traces.{Other, opening, writing};
ghost use Rattle.world_core.specs.TraceParts.{IsHandedOn};

use crate::{World, WorldFault};

/// A world that does as its inner one does, but for one call: that call fails and leaves the inner world as it was. It is not modelled.
#[derive(Drop)]
pub struct FaultyWorld<W: World> {
    inner: W,
    calls_left: u64,
    failed: u64,
}

impl<W: World> FaultyWorld<W> {
    /// The call with this number fails; `open_read`, `open_write`, `read` and `write` are counted, from 1 on. 0 is no call.
    pub fn new(inner: W, call: u64) -> FaultyWorld<W>
        ensures inside { inside result ≡ inner }
        ensures call { calls_left result ≡ call }
        ensures failed { failed_here result ≡ 0 }
    {
        FaultyWorld {
            inner,
            calls_left: call,
            failed: 0,
        }
    }

    /// The inner world.
    pub fn into_inner(self) -> W
        ensures { result ≡ inside self }
    {
        self.inner
    }

    /// Counts a call, and says whether it is the one that fails.
    fn fails_now(&mut self) -> bool
        ensures result { IsTrue result ↔ (calls_left self.old ≡ 1) }
        ensures inside { inside self.new ≡ inside self.old }
        ensures call { calls_left self.new ≡ calls_left self.old - 1 }
        ensures counted { IsTrue result → failed_here self.new
            ≡ (failed_here self.old + 1) % 2 ^ 64 }
        ensures same { IsFalse result → failed_here self.new ≡ failed_here self.old }
    {
        let fails = self.calls_left == 1;
        self.calls_left = self.calls_left.saturating_sub(1);
        if fails {
            self.failed = self.failed.wrapping_add(1);
        }
        fails
    }
}

/// Of the calls that are counted the one whose turn it is answers [`WorldFault::Failed`], changes nothing inside, and `failures` rises by one (`fails`).
/// Every other call is handed on: what the trait says of it is so of the inner world (`counted_inside`, `handed_on`).
impl<W: World> World for FaultyWorld<W> {
    ghost use Rattle.world_core.specs.Faulty.{Fails, calls_left, failed_here, failures_of, inside};
    ghost use Rattle.world_core.specs.TraceParts.{IsHandedOn};

    ghost is_modelled = { ⊥ };

    ghost state = { λ w. W.state (inside w) };

    ghost kinds = { λ w. W.kinds (inside w) };

    ghost count = { failures_of W.count };

    ghost did = { λ old call new. IsHandedOn W.did (inside old) call (inside new) };

    fn open_read(&mut self, name: &[u8]) -> Result<u32, WorldFault>
        ensures opened { IfOk result
            (λ id. Opens Reading id (W.kinds (inside self.old)) (W.kinds (inside self.new))) }
        ensures not_opened { OnErr result (W.kinds (inside self.new) ≡ W.kinds (inside self.old)) }
        ensures did { IsHandedOn W.did (inside self.old) Other (inside self.new) }
        ensures count { failures_of W.count self.new
            ≡ next_count result (failures_of W.count self.old) }
        ensures calls { calls_left self.new ≡ calls_left self.old - 1 }
        ensures fails { calls_left self.old ≡ 1 → Fails self.old result self.new }
        ensures counted_inside { calls_left self.old ≢ 1
            → W.count (inside self.new) ≡ next_count result (W.count (inside self.old)) }
        ensures handed_on { calls_left self.old ≢ 1 → W.is_modelled
            → OpensToRead name.now (W.state (inside self.old)) result (W.state (inside self.new)) }
        ensures same { calls_left self.old ≢ 1 → failed_here self.new ≡ failed_here self.old }
    {
        if self.fails_now() {
            return Err(WorldFault::Failed);
        }
        self.inner.open_read(name)
    }

    fn open_write(&mut self, name: &[u8], append: bool) -> Result<u32, WorldFault>
        ensures opened { IfOk result
            (λ id. Opens Writing id (W.kinds (inside self.old)) (W.kinds (inside self.new))) }
        ensures not_opened { OnErr result (W.kinds (inside self.new) ≡ W.kinds (inside self.old)) }
        ensures did { IsHandedOn W.did (inside self.old) (opening name.now append result) (inside self.new) }
        ensures count { failures_of W.count self.new
            ≡ next_count result (failures_of W.count self.old) }
        ensures calls { calls_left self.new ≡ calls_left self.old - 1 }
        ensures fails { calls_left self.old ≡ 1 → Fails self.old result self.new }
        ensures counted_inside { calls_left self.old ≢ 1
            → W.count (inside self.new) ≡ next_count result (W.count (inside self.old)) }
        ensures handed_on { calls_left self.old ≢ 1 → W.is_modelled
            → OpensToWrite name.now append (W.state (inside self.old)) result
            (W.state (inside self.new)) }
        ensures same { calls_left self.old ≢ 1 → failed_here self.new ≡ failed_here self.old }
    {
        if self.fails_now() {
            return Err(WorldFault::Failed);
        }
        self.inner.open_write(name, append)
    }

    fn read(&mut self, id: u32, buffer: &mut [u8]) -> Result<usize, WorldFault>
        requires { W.kinds (inside self.old) id ≡ Reading }
        ensures within { IfOk result (λ n. n ≤ length buffer.old) }
        ensures kinds { W.kinds (inside self.new) ≡ W.kinds (inside self.old) }
        ensures did { IsHandedOn W.did (inside self.old) Other (inside self.new) }
        ensures count { failures_of W.count self.new
            ≡ next_count result (failures_of W.count self.old) }
        ensures calls { calls_left self.new ≡ calls_left self.old - 1 }
        ensures fails { calls_left self.old ≡ 1 → Fails self.old result self.new }
        ensures counted_inside { calls_left self.old ≢ 1
            → W.count (inside self.new) ≡ next_count result (W.count (inside self.old)) }
        ensures handed_on { calls_left self.old ≢ 1 → W.is_modelled
            → Reads id (W.state (inside self.old)) buffer.old result buffer.new
            (W.state (inside self.new)) }
        ensures same { calls_left self.old ≢ 1 → failed_here self.new ≡ failed_here self.old }
    {
        if self.fails_now() {
            return Err(WorldFault::Failed);
        }
        self.inner.read(id, buffer)
    }

    fn write(&mut self, id: u32, text: &[u8]) -> Result<usize, WorldFault>
        requires { W.kinds (inside self.old) id ≡ Writing }
        ensures within { IfOk result (λ n. n ≤ length text.now) }
        ensures some { IfOk result (λ n. 0 < length text.now → 0 < n) }
        ensures kinds { W.kinds (inside self.new) ≡ W.kinds (inside self.old) }
        ensures did { IsHandedOn W.did (inside self.old) (writing id text.now result) (inside self.new) }
        ensures count { failures_of W.count self.new
            ≡ next_count result (failures_of W.count self.old) }
        ensures calls { calls_left self.new ≡ calls_left self.old - 1 }
        ensures fails { calls_left self.old ≡ 1 → Fails self.old result self.new }
        ensures counted_inside { calls_left self.old ≢ 1
            → W.count (inside self.new) ≡ next_count result (W.count (inside self.old)) }
        ensures handed_on { calls_left self.old ≢ 1 → W.is_modelled
            → Writes id text.now (W.state (inside self.old)) result (W.state (inside self.new)) }
        ensures same { calls_left self.old ≢ 1 → failed_here self.new ≡ failed_here self.old }
    {
        if self.fails_now() {
            return Err(WorldFault::Failed);
        }
        self.inner.write(id, text)
    }

    fn close(&mut self, id: u32)
        requires open { W.kinds (inside self.old) id ≢ Closed }
        requires own { 1 < id }
        ensures kinds { W.kinds (inside self.new) ≡ set_kind id Closed (W.kinds (inside self.old)) }
        ensures did { IsHandedOn W.did (inside self.old) Other (inside self.new) }
        ensures count { failures_of W.count self.new ≡ failures_of W.count self.old }
        ensures handed_on { W.is_modelled
            → Closes id (W.state (inside self.old)) (W.state (inside self.new)) }
        ensures calls { calls_left self.new ≡ calls_left self.old }
        ensures same { failed_here self.new ≡ failed_here self.old }
    {
        self.inner.close(id)
    }

    fn failures(&self) -> u64 {
        self.inner.failures().wrapping_add(self.failed)
    }

    ghost input = { λ w. W.input (inside w) };

    ghost output = { λ w. W.output (inside w) };

    ghost standard = { λ w. W.standard (inside w) };
}
