//! Linear memory (Core 1.0, section 4.2.8).
ghost use Rattle.std.specs.Prelude.{◌≡◌, ◌+◌, ◌^◌, ◌≤◌, IfOk, IfSome, OnErr, length, Some, None, if◌then◌else◌};
ghost use Rattle.wasm_store.specs.Memories.{fresh, number_at, load, word_if, put, put_if, store, written, grown, pages_of};
ghost use Rattle.wasm_store.specs.MemoryAnswers.{found, told};
ghost use Rattle.wasm_types.specs.Typing.{loaded};

use crate::trap::TrapKind;
use crate::word::Word;
use byteorder::{ByteOrder, LittleEndian};
use std::alloc::{AllocError, Global};
use std::marker::Model;
use wasm_types::{Limits, LoadOp, MAX_PAGES, StoreOp};

/// How many bytes a page has.
const PAGE: usize = 65536;

/// A memory of whole pages. A contract sees its bytes and how many pages it may have.
#[derive(Drop)]
pub struct Memory {
    bytes: Vec<u8>,
    most: u32,
}

impl Model for Memory {
    ghost use Rattle.std.specs.Prelude.{ℕ, ◌≡◌, ◌*◌, ◌≤◌, length};
    ghost use Rattle.wasm_store.specs.Memories.{MemoryForm};

    ghost Value = { MemoryForm };

    ghost view = { λ m. record { bytes = m.bytes.items; most = m.most } };

    ghost invariant = { λ m. (pages : ℕ) × (length m.bytes.items ≡ pages * 65536) × (pages ≤ 65536) };
}

impl Memory {
    /// A memory of the least size, all zeros.
    ///
    /// # Errors
    ///
    /// [`AllocError`] where memory is wanting.
    pub fn new(alloc: Global, limits: Limits) -> Result<Memory, AllocError>
        requires { limits.min ≤ 65536 }
        ensures { IfOk result (λ m. m ≡ fresh limits) }
    {
        let mut bytes = Vec::new(alloc);
        bytes.resize(limits.min as usize * PAGE, 0)?;
        Ok(Memory {
            bytes,
            most: match limits.max {
                Some(most) => most,
                None => 65536,
            },
        })
    }

    /// The number of pages.
    #[inline(always)]
    pub fn size(&self) -> u32
        ensures { result ≡ pages_of self.now }
    {
        (self.bytes.len() / PAGE) as u32
    }

    /// The bytes.
    #[inline(always)]
    pub fn bytes(&self) -> &[u8]
        ensures { result.now ≡ self.now.bytes }
    {
        self.bytes.as_slice()
    }

    #[inline(always)]
    fn number_8(&self, at: usize) -> Option<u8>
        requires { at ≤ 2 ^ 33 }
        ensures { result ≡ number_at 1 self.now.bytes at }
    {
        if at + 1 <= self.bytes.len() {
            Some(self.bytes[at])
        } else {
            None
        }
    }

    #[inline(always)]
    fn number_16(&self, at: usize) -> Option<u16>
        requires { at ≤ 2 ^ 33 }
        ensures { result ≡ number_at 2 self.now.bytes at }
    {
        if at + 2 <= self.bytes.len() {
            Some(LittleEndian::read_u16(&self.bytes[at..]))
        } else {
            None
        }
    }

    #[inline(always)]
    fn number_32(&self, at: usize) -> Option<u32>
        requires { at ≤ 2 ^ 33 }
        ensures { result ≡ number_at 4 self.now.bytes at }
    {
        if at + 4 <= self.bytes.len() {
            Some(LittleEndian::read_u32(&self.bytes[at..]))
        } else {
            None
        }
    }

    #[inline(always)]
    fn number_64(&self, at: usize) -> Option<u64>
        requires { at ≤ 2 ^ 33 }
        ensures { result ≡ number_at 8 self.now.bytes at }
    {
        if at + 8 <= self.bytes.len() {
            Some(LittleEndian::read_u64(&self.bytes[at..]))
        } else {
            None
        }
    }

    #[inline(always)]
    fn read(&self, op: LoadOp, at: usize) -> Option<Word>
        requires { at ≤ 2 ^ 33 }
        ensures { word_if op (number_at (loaded op).1 self.now.bytes at) ≡ found result }
    {
        Some(match op {
            LoadOp::I32Load => Word::I32(self.number_32(at)?),
            LoadOp::I64Load => Word::I64(self.number_64(at)?),
            LoadOp::I32Load8S => {
                Word::I32(i32::from(self.number_8(at)?.cast_signed()).cast_unsigned())
            }
            LoadOp::I32Load8U => Word::I32(u32::from(self.number_8(at)?)),
            LoadOp::I32Load16S => {
                Word::I32(i32::from(self.number_16(at)?.cast_signed()).cast_unsigned())
            }
            LoadOp::I32Load16U => Word::I32(u32::from(self.number_16(at)?)),
            LoadOp::I64Load8S => {
                Word::I64(i64::from(self.number_8(at)?.cast_signed()).cast_unsigned())
            }
            LoadOp::I64Load8U => Word::I64(u64::from(self.number_8(at)?)),
            LoadOp::I64Load16S => {
                Word::I64(i64::from(self.number_16(at)?.cast_signed()).cast_unsigned())
            }
            LoadOp::I64Load16U => Word::I64(u64::from(self.number_16(at)?)),
            LoadOp::I64Load32S => {
                Word::I64(i64::from(self.number_32(at)?.cast_signed()).cast_unsigned())
            }
            LoadOp::I64Load32U => Word::I64(u64::from(self.number_32(at)?)),
        })
    }

    /// The value that a load gives, at the sum of an address and an offset.
    ///
    /// # Errors
    ///
    /// [`TrapKind::MemoryBounds`] where a byte of it is past the end.
    #[inline(always)]
    pub fn load(&self, op: LoadOp, base: u32, offset: u32) -> Result<Word, TrapKind>
        ensures { result ≡ load op self.now.bytes (base + offset) }
    {
        match self.read(op, base as usize + offset as usize) {
            Some(word) => Ok(word),
            None => Err(TrapKind::MemoryBounds),
        }
    }

    #[inline(always)]
    fn put_8(&mut self, at: usize, x: u8) -> bool
        requires { at ≤ 2 ^ 33 }
        ensures { put_if self.old (put 1 self.old.bytes at x) ≡ (told result, self.new) }
    {
        if at + 1 > self.bytes.len() {
            return false;
        }
        self.bytes[at..at + 1].copy_from_slice(&[x]);
        true
    }

    #[inline(always)]
    fn put_16(&mut self, at: usize, x: u16) -> bool
        requires { at ≤ 2 ^ 33 }
        ensures { put_if self.old (put 2 self.old.bytes at x) ≡ (told result, self.new) }
    {
        if at + 2 > self.bytes.len() {
            return false;
        }
        LittleEndian::write_u16(&mut self.bytes[at..], x);
        true
    }

    #[inline(always)]
    fn put_32(&mut self, at: usize, x: u32) -> bool
        requires { at ≤ 2 ^ 33 }
        ensures { put_if self.old (put 4 self.old.bytes at x) ≡ (told result, self.new) }
    {
        if at + 4 > self.bytes.len() {
            return false;
        }
        LittleEndian::write_u32(&mut self.bytes[at..], x);
        true
    }

    #[inline(always)]
    fn put_64(&mut self, at: usize, x: u64) -> bool
        requires { at ≤ 2 ^ 33 }
        ensures { put_if self.old (put 8 self.old.bytes at x) ≡ (told result, self.new) }
    {
        if at + 8 > self.bytes.len() {
            return false;
        }
        LittleEndian::write_u64(&mut self.bytes[at..], x);
        true
    }

    /// Stores a value, or its lowest bytes, at the sum of an address and an offset.
    ///
    /// # Errors
    ///
    /// [`TrapKind::MemoryBounds`] where a byte of it is past the end; nothing is stored then.
    #[inline(always)]
    pub fn store(
        &mut self,
        op: StoreOp,
        base: u32,
        offset: u32,
        value: Word,
    ) -> Result<(), TrapKind>
        ensures { store op self.old (base + offset) value ≡ (result, self.new) }
    {
        let at = base as usize + offset as usize;
        let x = value.pattern();
        let done = match op {
            StoreOp::I32Store8 | StoreOp::I64Store8 => self.put_8(at, (x % (1 << 8)) as u8),
            StoreOp::I32Store16 | StoreOp::I64Store16 => self.put_16(at, (x % (1 << 16)) as u16),
            StoreOp::I32Store | StoreOp::I64Store32 => self.put_32(at, (x % (1 << 32)) as u32),
            StoreOp::I64Store => self.put_64(at, x),
        };
        if done {
            Ok(())
        } else {
            Err(TrapKind::MemoryBounds)
        }
    }

    /// Writes these bytes from an address on.
    pub fn write(&mut self, at: u32, bytes: &[u8])
        requires { at + length bytes.now ≤ length self.old.bytes }
        ensures { self.new ≡ record self.old { bytes = written self.old.bytes at bytes.now } }
    {
        let at = at as usize;
        self.bytes[at..at + bytes.len()].copy_from_slice(bytes);
    }

    /// Adds pages of zeros, and gives how many pages there were. None past [`MAX_PAGES`] or the memory's own maximum, and nothing changes.
    ///
    /// # Errors
    ///
    /// [`AllocError`] where memory is wanting; nothing changes.
    pub fn grow(&mut self, more: u32) -> Result<Option<u32>, AllocError>
        ensures ok { IfOk result (λ o. grown self.old more ≡ (o, self.new)) }
        ensures err { OnErr result (self.new ≡ self.old) }
    {
        let old = self.size();
        if more > MAX_PAGES || old + more > self.most || old + more > MAX_PAGES {
            return Ok(None);
        }
        self.bytes.resize((old + more) as usize * PAGE, 0)?;
        Ok(Some(old))
    }
}
