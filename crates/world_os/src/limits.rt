//! A world of which so many bytes are read and written at most.
ghost use Rattle.std.specs.Prelude.{◌≡◌, ◌<◌, ◌≤◌, ◌+◌, ◌%◌, ◌^◌, ◌≢◌, ℕ, true, take, length, Err, IfOk, OnErr, OnOk};
ghost use Rattle.world_core.specs.Calls.{Closed, Closes, Opens, OpensToRead, OpensToWrite, Reading, Reads, Writes, Writing, next_count, set_kind};
ghost use Rattle.world_core.specs.Traces.{Other, opening, writing};
ghost use Rattle.world_core.specs.TraceParts.{IsHandedOn};
ghost use Rattle.world_os.specs.Limits.{AtLimit, MayPass, StartsWith, left, moved};

use crate::meter::Meter;
use world_core::{World, WorldFault};

/// A world that does as its inner one does, until as many bytes as a limit allows are read, or written, over all its streams. A write past the limit takes
/// what fits and then fails. A read past the limit fails, but at the end it tells the end. It is not modelled.
#[derive(Drop)]
pub struct LimitedWorld<W: World> {
    inner: W,
    output: Meter,
    input: Meter,
    input_is_over: bool,
    refused: u64,
}

impl<W: World> LimitedWorld<W> {
    /// A world of which so many bytes are written, and so many are read, at most. It takes no memory.
    pub fn new(inner: W, most_output: u64, most_input: u64) -> LimitedWorld<W>
        ensures inner { result.inner ≡ inner }
        ensures limits { StartsWith most_output most_input result }
    {
        LimitedWorld {
            inner,
            output: Meter::new(most_output),
            input: Meter::new(most_input),
            input_is_over: false,
            refused: 0,
        }
    }

    /// A call is refused.
    fn refuse(&mut self) -> Result<usize, WorldFault>
        ensures result { result ≡ Err WorldFault.Failed }
        ensures inner { self.new.inner ≡ self.old.inner }
        ensures output { self.new.output ≡ self.old.output }
        ensures input { self.new.input ≡ self.old.input }
        ensures over { self.new.input_is_over ≡ self.old.input_is_over }
        ensures counted { self.new.refused ≡ (self.old.refused + 1) % 2 ^ 64 }
    {
        self.refused = self.refused.wrapping_add(1);
        Err(WorldFault::Failed)
    }

    /// Reads where no byte may come in: the end is told where it is there. A byte that comes in its place is given to nobody, and from then on no read is
    /// tried.
    fn read_at_limit(&mut self, id: u32) -> Result<usize, WorldFault>
        requires { W.kinds self.old.inner id ≡ Reading }
        ensures none { IfOk result (λ n. n ≡ 0) }
        ensures kinds { W.kinds self.new.inner ≡ W.kinds self.old.inner }
        ensures count { (W.count self.new.inner + self.new.refused) % 2 ^ 64
            ≡ next_count result ((W.count self.old.inner + self.old.refused) % 2 ^ 64) }
        ensures did { IsHandedOn W.did self.old.inner Other self.new.inner }
        ensures told { W.is_modelled → AtLimit id (W.state self.old.inner) self.old.input_is_over result }
        ensures over { self.old.input_is_over ≡ true
            → (result ≡ Err WorldFault.Failed) × (self.new.inner ≡ self.old.inner) }
        ensures stays { self.old.input_is_over ≡ true → self.new.input_is_over ≡ true }
        ensures ended { OnOk result (self.new.input_is_over ≡ self.old.input_is_over) }
        ensures refused { self.new.refused ≢ self.old.refused → self.new.input_is_over ≡ true }
        ensures output { self.new.output ≡ self.old.output }
        ensures input { self.new.input ≡ self.old.input }
    {
        if self.input_is_over {
            return self.refuse();
        }
        match self.inner.read(id, &mut [0]) {
            Ok(0) => Ok(0),
            Ok(_) => {
                self.input_is_over = true;
                self.refuse()
            }
            Err(fault) => Err(fault),
        }
    }
}

impl<W: World> World for LimitedWorld<W> {
    ghost use Rattle.std.specs.Prelude.{◌+◌, ◌%◌, ◌^◌};
    ghost use Rattle.world_core.specs.TraceParts.{IsHandedOn};

    ghost is_modelled = { ⊥ };

    ghost state = { λ w. W.state w.inner };

    ghost kinds = { λ w. W.kinds w.inner };

    ghost count = { λ w. (W.count w.inner + w.refused) % 2 ^ 64 };

    ghost did = { λ old call new. IsHandedOn W.did old.inner call new.inner };

    fn open_read(&mut self, name: &[u8]) -> Result<u32, WorldFault>
        ensures opened { IfOk result
            (λ id. Opens Reading id (W.kinds self.old.inner) (W.kinds self.new.inner)) }
        ensures not_opened { OnErr result (W.kinds self.new.inner ≡ W.kinds self.old.inner) }
        ensures did { IsHandedOn W.did self.old.inner Other self.new.inner }
        ensures count { (W.count self.new.inner + self.new.refused) % 2 ^ 64
            ≡ next_count result ((W.count self.old.inner + self.old.refused) % 2 ^ 64) }
        ensures inner { W.is_modelled
            → OpensToRead name.now (W.state self.old.inner) result (W.state self.new.inner) }
        ensures output { self.new.output ≡ self.old.output }
        ensures input { self.new.input ≡ self.old.input }
        ensures over { self.new.input_is_over ≡ self.old.input_is_over }
    {
        self.inner.open_read(name)
    }

    fn open_write(&mut self, name: &[u8], append: bool) -> Result<u32, WorldFault>
        ensures opened { IfOk result
            (λ id. Opens Writing id (W.kinds self.old.inner) (W.kinds self.new.inner)) }
        ensures not_opened { OnErr result (W.kinds self.new.inner ≡ W.kinds self.old.inner) }
        ensures did { IsHandedOn W.did self.old.inner (opening name.now append result) self.new.inner }
        ensures count { (W.count self.new.inner + self.new.refused) % 2 ^ 64
            ≡ next_count result ((W.count self.old.inner + self.old.refused) % 2 ^ 64) }
        ensures inner { W.is_modelled → OpensToWrite name.now append (W.state self.old.inner) result
            (W.state self.new.inner) }
        ensures output { self.new.output ≡ self.old.output }
        ensures input { self.new.input ≡ self.old.input }
        ensures over { self.new.input_is_over ≡ self.old.input_is_over }
    {
        self.inner.open_write(name, append)
    }

    fn read(&mut self, id: u32, buffer: &mut [u8]) -> Result<usize, WorldFault>
        requires { W.kinds self.old.inner id ≡ Reading }
        ensures within { IfOk result (λ n. n ≤ length buffer.old) }
        ensures kinds { W.kinds self.new.inner ≡ W.kinds self.old.inner }
        ensures did { IsHandedOn W.did self.old.inner Other self.new.inner }
        ensures count { (W.count self.new.inner + self.new.refused) % 2 ^ 64
            ≡ next_count result ((W.count self.old.inner + self.old.refused) % 2 ^ 64) }
        ensures read { self.new.input.passed ≡ self.old.input.passed + moved result }
        ensures limit { self.new.input.passed ≤ self.new.input.most }
        ensures most { self.new.input.most ≡ self.old.input.most }
        ensures inner { MayPass self.old.input (length buffer.old) → W.is_modelled
            → Reads id (W.state self.old.inner) (take (left self.old.input) buffer.old) result
            (take (left self.old.input) buffer.new) (W.state self.new.inner) }
        ensures at_limit { left self.old.input ≡ 0 → 0 < length buffer.old → W.is_modelled
            → AtLimit id (W.state self.old.inner) self.old.input_is_over result }
        ensures over { self.old.input_is_over ≡ true → left self.old.input ≡ 0
            → 0 < length buffer.old
            → (result ≡ Err WorldFault.Failed) × (self.new.inner ≡ self.old.inner) }
        ensures stays { self.old.input_is_over ≡ true → self.new.input_is_over ≡ true }
        ensures earlier { 0 < left self.old.input → self.new.input_is_over ≡ self.old.input_is_over }
        ensures ended { OnOk result (self.new.input_is_over ≡ self.old.input_is_over) }
        ensures refused { self.new.refused ≢ self.old.refused → self.new.input_is_over ≡ true }
        ensures output { self.new.output ≡ self.old.output }
    {
        let room = self.input.room(buffer.len());
        if room == 0 && !buffer.is_empty() {
            return self.read_at_limit(id);
        }
        let bytes = self.inner.read(id, &mut buffer[..room])?;
        self.input.pass(bytes);
        Ok(bytes)
    }

    fn write(&mut self, id: u32, text: &[u8]) -> Result<usize, WorldFault>
        requires { W.kinds self.old.inner id ≡ Writing }
        ensures within { IfOk result (λ n. n ≤ length text.now) }
        ensures some { IfOk result (λ n. 0 < length text.now → 0 < n) }
        ensures kinds { W.kinds self.new.inner ≡ W.kinds self.old.inner }
        ensures did { IsHandedOn W.did self.old.inner (writing id text.now result) self.new.inner }
        ensures count { (W.count self.new.inner + self.new.refused) % 2 ^ 64
            ≡ next_count result ((W.count self.old.inner + self.old.refused) % 2 ^ 64) }
        ensures written { self.new.output.passed ≡ self.old.output.passed + moved result }
        ensures limit { self.new.output.passed ≤ self.new.output.most }
        ensures most { self.new.output.most ≡ self.old.output.most }
        ensures inner { MayPass self.old.output (length text.now) → W.is_modelled
            → Writes id (take (left self.old.output) text.now) (W.state self.old.inner) result
            (W.state self.new.inner) }
        ensures full { left self.old.output ≡ 0 → 0 < length text.now
            → (result ≡ Err WorldFault.Failed) × (self.new.inner ≡ self.old.inner) }
        ensures input { self.new.input ≡ self.old.input }
        ensures over { self.new.input_is_over ≡ self.old.input_is_over }
    {
        let room = self.output.room(text.len());
        if room == 0 && !text.is_empty() {
            return self.refuse();
        }
        let bytes = self.inner.write(id, &text[..room])?;
        self.output.pass(bytes);
        Ok(bytes)
    }

    fn close(&mut self, id: u32)
        requires open { W.kinds self.old.inner id ≢ Closed }
        requires own { 1 < id }
        ensures kinds { W.kinds self.new.inner ≡ set_kind id Closed (W.kinds self.old.inner) }
        ensures did { IsHandedOn W.did self.old.inner Other self.new.inner }
        ensures count { (W.count self.new.inner + self.new.refused) % 2 ^ 64
            ≡ (W.count self.old.inner + self.old.refused) % 2 ^ 64 }
        ensures inner { W.is_modelled → Closes id (W.state self.old.inner) (W.state self.new.inner) }
        ensures output { self.new.output ≡ self.old.output }
        ensures input { self.new.input ≡ self.old.input }
        ensures over { self.new.input_is_over ≡ self.old.input_is_over }
    {
        self.inner.close(id)
    }

    fn failures(&self) -> u64 {
        self.inner.failures().wrapping_add(self.refused)
    }

    ghost input = { λ w. W.input w.inner };

    ghost output = { λ w. W.output w.inner };

    ghost standard = { λ w. W.standard w.inner };
}
