//! Bytes that remember why they are not all.

ghost use Rattle.std.specs.Prelude.{◌≡◌, ◌∷◌, ◌++◌, [], is_some, OnErr, OnOk};
ghost use Rattle.module_writer.specs.Outputs.{Adds};
ghost use Rattle.module_writer.specs.Writers.{Fails, Gives, Written, byte_to, index_to, bits32_to, bits64_to, bytes_to};
ghost use Rattle.module_writer.specs.Writing.{fit};

use crate::fault::WriteFault;
use std::alloc::{AllocError, Global};
use wasm_types::{MAX_MODULE_BYTES, push_s32, push_s64, push_u32};

/// For how many bytes there is room at first, if there is memory for it: most parts of a module have fewer.
const ROOM: usize = 512;

/// Adds a byte. Mostly there is room for it, which is seen without a call.
#[inline(always)]
fn put(bytes: &mut Vec<u8>, b: u8) -> Result<(), AllocError>
    ensures done { OnOk result (bytes.new.items ≡ bytes.old.items ++ b ∷ []) }
    ensures undone { OnErr result (bytes.new.items ≡ bytes.old.items) }
{
    if bytes.len() < bytes.capacity() {
        bytes.push_reserved(b);
        return Ok(());
    }
    bytes.push(b)?;
    Ok(())
}

/// Bytes that are written one after the other. Once some are refused no more are taken: only who asks for all of them learns of it.
#[derive(Drop)]
pub(crate) struct Output {
    alloc: Global,
    bytes: Vec<u8>,
    refused: Option<WriteFault>,
}

impl Output {
    /// None yet.
    pub(crate) fn new(alloc: Global) -> Self
        ensures empty { result.bytes.items ≡ [] }
        ensures open { result.refused ≡ None }
    {
        let bytes = match Vec::with_capacity(alloc, ROOM) {
            Ok(bytes) => bytes,
            Err(_) => Vec::new(alloc),
        };
        Output {
            alloc,
            bytes,
            refused: None,
        }
    }

    /// What its memory comes from.
    pub(crate) fn alloc(&self) -> Global {
        self.alloc
    }

    /// Whether it takes no more.
    pub(crate) fn is_refused(&self) -> bool
        ensures { result ≡ is_some self.now.refused }
    {
        self.refused.is_some()
    }

    /// Takes no more, for this reason if there was none before.
    pub(crate) fn refuse(&mut self, fault: WriteFault)
        ensures { (all : Written) → Fails fault all → Adds self.old self.new all }
    {
        if self.refused.is_none() {
            self.refused = Some(fault);
        }
    }

    /// A byte. What is too large already is not written on, so that no part grows far past the limit.
    pub(crate) fn byte(&mut self, b: u8)
        ensures { Adds self.old self.new (byte_to b self.old.bytes.items) }
    {
        if self.bytes.len() >= MAX_MODULE_BYTES {
            self.refuse(WriteFault::TooLarge);
        } else if self.refused.is_none() && put(&mut self.bytes, b).is_err() {
            self.refused = Some(WriteFault::NoMemory);
        }
    }

    /// An unsigned integer.
    #[tactic(auto, unfolding(crate::specs::Writers::index_to))]
    pub(crate) fn index(&mut self, n: u32)
        ensures { Adds self.old self.new (index_to n self.old.bytes.items) }
    {
        if self.refused.is_none() && push_u32(&mut self.bytes, n).is_err() {
            self.refused = Some(WriteFault::NoMemory);
        }
    }

    /// The number of the elements that follow.
    #[tactic(auto, unfolding(crate::specs::Writers::index_to))]
    pub(crate) fn count(&mut self, n: usize)
        ensures { Adds self.old self.new (index_to n self.old.bytes.items) }
    {
        match u32::try_from(n) {
            Ok(n) => self.index(n),
            Err(_) => self.refuse(WriteFault::TooLarge),
        }
    }

    /// A signed integer of 32 bits, from its bits.
    #[tactic(auto, unfolding(crate::specs::Writers::bits32_to))]
    pub(crate) fn bits32(&mut self, n: u32)
        ensures { Adds self.old self.new (bits32_to n self.old.bytes.items) }
    {
        if self.refused.is_none() && push_s32(&mut self.bytes, n).is_err() {
            self.refused = Some(WriteFault::NoMemory);
        }
    }

    /// A signed integer of 64 bits, from its bits.
    #[tactic(auto, unfolding(crate::specs::Writers::bits64_to))]
    pub(crate) fn bits64(&mut self, n: u64)
        ensures { Adds self.old self.new (bits64_to n self.old.bytes.items) }
    {
        if self.refused.is_none() && push_s64(&mut self.bytes, n).is_err() {
            self.refused = Some(WriteFault::NoMemory);
        }
    }

    /// Bytes as they are.
    pub(crate) fn bytes(&mut self, bytes: &[u8])
        ensures { Adds self.old self.new (Some (self.old.bytes.items ++ bytes.now)) }
    {
        if self.refused.is_none() && self.bytes.extend_from_slice(bytes).is_err() {
            self.refused = Some(WriteFault::NoMemory);
        }
    }

    /// Bytes with their number before them.
    pub(crate) fn counted(&mut self, bytes: &[u8])
        ensures { Adds self.old self.new (bytes_to bytes.now self.old.bytes.items) }
    {
        self.count(bytes.len());
        self.bytes(bytes);
    }

    /// Refuses them, where they are too many for a module.
    pub(crate) fn limit(&mut self)
        ensures { Adds self.old self.new (fit self.old.bytes.items) }
    {
        if self.bytes.len() > MAX_MODULE_BYTES {
            self.refuse(WriteFault::TooLarge);
        }
    }

    /// All of them, unless some were refused.
    pub(crate) fn all(self) -> Result<Vec<u8>, WriteFault>
        ensures { (before : Output) (all : Written) → before.refused ≡ None → Adds before self all → Gives result all }
    {
        match self.refused {
            None => Ok(self.bytes),
            Some(fault) => Err(fault),
        }
    }
}
