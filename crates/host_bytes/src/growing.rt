//! Texts that grow up to the limit.
ghost use Rattle.std.specs.Prelude.{◌≡◌, ◌+◌, ◌++◌, ◌≤◌, ℕ, Err, List, None, Ok, OnOk, false, length, replicate, true};
ghost use Rattle.sem_primitives.specs.Limits.{most_text};
ghost use Rattle.host_bytes.specs.Growing.{Grows, IsAllOf};

use awk_values::{Fault, Stop};
use sem_primitives::MAX_TEXT;
use std::alloc::AllocError;

/// So few bytes are appended one by one: to copy memory is a call.
const FEW: usize = 8;

/// Appends bytes.
fn append(to: &mut Vec<u8>, bytes: &[u8]) -> Result<(), AllocError>
    ensures { OnOk result (to.new.items ≡ to.old.items ++ bytes.now) }
{
    if bytes.len() > FEW {
        return to.extend_from_slice(bytes);
    }
    for byte in bytes {
        to.push(*byte)?;
    }
    Ok(())
}

/// A text that is written piece by piece, and why it takes no more. From then on it takes nothing: only who asks for all of it learns why.
#[derive(Drop)]
pub struct Growing {
    pub bytes: Vec<u8>,
    pub stop: Option<Stop>,
}

impl Growing {
    /// Takes no more, for this fault unless there was a reason before.
    pub fn refuse(&mut self, fault: Fault)
        ensures { Grows self.old self.new (Err fault) }
    {
        if self.stop.is_none() {
            self.stop = Some(Stop::Fault(fault));
        }
    }

    /// Whether it takes so many bytes more, and these are some. It stops where they are past the limit.
    fn takes(&mut self, count: usize) -> bool
        ensures yes { result ≡ true → (self.new ≡ self.old) × (self.old.stop ≡ None)
            × (length self.old.bytes.items + count ≤ most_text) }
        ensures no { result ≡ false → (text : List ℕ) → length text ≡ count
            → Grows self.old self.new (Ok text) }
    {
        let before = self.bytes.len();
        if before > MAX_TEXT || count > MAX_TEXT - before {
            self.refuse(Fault::TextLimit);
            return false;
        }
        self.stop.is_none() && count > 0
    }

    /// Adds bytes.
    pub fn put(&mut self, bytes: &[u8])
        ensures { Grows self.old self.new (Ok bytes.now) }
    {
        if self.takes(bytes.len()) && append(&mut self.bytes, bytes).is_err() {
            self.stop = Some(Stop::NoMemory);
        }
    }

    /// Adds a byte so many times.
    pub fn fill(&mut self, byte: u8, count: usize)
        ensures { Grows self.old self.new (Ok (replicate count byte)) }
    {
        if self.takes(count) && self.bytes.resize(self.bytes.len() + count, byte).is_err() {
            self.stop = Some(Stop::NoMemory);
        }
    }

    /// All of it, unless it stopped.
    pub fn all(self) -> Result<Vec<u8>, Stop>
        ensures { IsAllOf self result }
    {
        match self.stop {
            None => Ok(self.bytes),
            Some(stop) => Err(stop),
        }
    }
}
