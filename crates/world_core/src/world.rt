//! A world: files by name, and the standard streams.
ghost use Rattle.std.specs.Prelude.{◌≡◌, ◌≢◌, ◌<◌, ◌≤◌, ℕ, length, IfOk, OnErr};
ghost use Rattle.world_core.specs.WorldState.{Standard, State};
ghost use Rattle.world_core.specs.Calls.{Kind, Closed, Reading, Writing, Opens, set_kind, Closes, next_count, Reads, Writes, OpensToRead, OpensToWrite};
ghost use Rattle.world_core.specs.Traces.{Call, Other, opening, writing};

use std::alloc::AllocError;
use thiserror::Error;

/// What a reader meets behind the last byte.
#[derive(Clone, Copy, Debug, PartialEq, Eq, Drop)]
pub enum Ending {
    /// The end of the file.
    End,
    /// A read that fails.
    Fails,
}

/// Why a call of a world does not do what it is asked.
#[derive(Clone, Copy, Debug, PartialEq, Eq, Drop, Error)]
pub enum WorldFault {
    /// The device failed, or the file does not open; `failures` rose in this call.
    #[error("Failed")]
    Failed,
    /// There is no memory.
    #[error("NoMemory")]
    NoMemory,
}

impl From<AllocError> for WorldFault {
    ghost use Rattle.std.specs.Prelude.{◌≡◌};
    ghost use Rattle.world_core.specs.declared.world.WorldFault.TheVariants.{NoMemory};

    ghost from_gives = { λ _ e. e ≡ NoMemory };

    fn from(_error: AllocError) -> WorldFault {
        WorldFault::NoMemory
    }
}

/// The files and streams outside a script, by the calls of POSIX.1-2017 (`open`, `read`, `write`, `close`) that a script's input and output need.
/// Streams have numbers: 0 is the standard input and 1 the standard output, which are always open.
pub trait World {
    /// The premise of the clauses `told`: it is false of a world that is not modelled, as one of real files.
    ghost is_modelled: { Type 0 };

    /// What the names hold, and where the open streams are.
    ghost state: { Self → State };

    /// What each stream is open for.
    ghost kinds: { Self → ℕ → Kind };

    /// How many calls have failed, modulo 2^64.
    ghost count: { Self → ℕ };

    /// What a world is after a call. Who knows nothing else of a world knows this only of calls that were made of it.
    ghost did: { Self → Call → Self → Type 0 };

    /// Opens a name for reading, and gives the stream's number.
    ///
    /// # Errors
    ///
    /// [`WorldFault::Failed`] where the name is absent or does not open; no stream is opened.
    fn open_read(&mut self, name: &[u8]) -> Result<u32, WorldFault>
        ensures opened { IfOk result (λ id. Opens Reading id (kinds self.old) (kinds self.new)) }
        ensures not_opened { OnErr result (kinds self.new ≡ kinds self.old) }
        ensures count { count self.new ≡ next_count result (count self.old) }
        ensures did { did self.old Other self.new }
        ensures told { is_modelled → OpensToRead name.now (state self.old) result (state self.new) };

    /// Opens a name for writing, at its end (`append`) or emptied, and gives the stream's number. An absent name is created.
    ///
    /// # Errors
    ///
    /// [`WorldFault::Failed`] where the name does not open; no stream is opened.
    fn open_write(&mut self, name: &[u8], append: bool) -> Result<u32, WorldFault>
        ensures opened { IfOk result (λ id. Opens Writing id (kinds self.old) (kinds self.new)) }
        ensures not_opened { OnErr result (kinds self.new ≡ kinds self.old) }
        ensures count { count self.new ≡ next_count result (count self.old) }
        ensures did { did self.old (opening name.now append result) self.new }
        ensures told { is_modelled
            → OpensToWrite name.now append (state self.old) result (state self.new) };

    /// Reads into a buffer, and gives how many bytes: at least one into a buffer that is not empty, or 0 at the end.
    ///
    /// # Errors
    ///
    /// [`WorldFault::Failed`] where the device fails.
    fn read(&mut self, id: u32, buffer: &mut [u8]) -> Result<usize, WorldFault>
        requires { kinds self.old id ≡ Reading }
        ensures within { IfOk result (λ n. n ≤ length buffer.old) }
        ensures kinds { kinds self.new ≡ kinds self.old }
        ensures count { count self.new ≡ next_count result (count self.old) }
        ensures did { did self.old Other self.new }
        ensures told { is_modelled
            → Reads id (state self.old) buffer.old result buffer.new (state self.new) };

    /// Appends the first bytes of a text, and gives how many: at least one of a text that is not empty.
    ///
    /// # Errors
    ///
    /// [`WorldFault::Failed`] where the device fails or is full.
    fn write(&mut self, id: u32, text: &[u8]) -> Result<usize, WorldFault>
        requires { kinds self.old id ≡ Writing }
        ensures within { IfOk result (λ n. n ≤ length text.now) }
        ensures some { IfOk result (λ n. 0 < length text.now → 0 < n) }
        ensures kinds { kinds self.new ≡ kinds self.old }
        ensures count { count self.new ≡ next_count result (count self.old) }
        ensures did { did self.old (writing id text.now result) self.new }
        ensures told { is_modelled → Writes id text.now (state self.old) result (state self.new) };

    /// Closes a stream that is open and not a standard one. It takes no memory.
    fn close(&mut self, id: u32)
        requires open { kinds self.old id ≢ Closed }
        requires own { 1 < id }
        ensures kinds { kinds self.new ≡ set_kind id Closed (kinds self.old) }
        ensures count { count self.new ≡ count self.old }
        ensures did { did self.old Other self.new }
        ensures told { is_modelled → Closes id (state self.old) (state self.new) };

    /// How many calls have failed, modulo 2^64. It takes no memory.
    fn failures(&self) -> u64
        ensures { result ≡ count self.now };

    /// The standard input is open for reading.
    ghost input: { (world : Self) → kinds world 0 ≡ Reading };

    /// The standard output is open for writing.
    ghost output: { (world : Self) → kinds world 1 ≡ Writing };

    /// What is written to the standard output goes there.
    ghost standard: { (world : Self) → (state world).writers 1 ≡ Standard };
}
