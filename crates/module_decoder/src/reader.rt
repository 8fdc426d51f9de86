//! Bytes that are read from the left, and remember the first fault.

ghost use Rattle.std.specs.Prelude.{◌≡◌, ℕ, List, Ok, Err, None, MatchOption, is_some, [], ◌∷◌, ◌++◌, string_bytes};
ghost use Rattle.module_decoder.specs.Readers.{Gives, bytes_at, ended_by, index_at};
ghost use Rattle.module_decoder.specs.Reading.{mem_arg_at, mut_at, name_at, reserved_at, val_type_at};
ghost use Rattle.module_decoder.specs.Readings.{Checked, RecordsFault, Made, Reads, Took, tag_at};

use crate::basics::{Span, counted, ended, flag, index, reserved, tag, val_type};
use crate::fault::DecodeFault;
use std::alloc::{AllocError, Global};
use std::str;
use wasm_types::{MemArg, ValType};

/// Bytes that are read one part after the other. After a fault parts are read as zeros: only who asks at the end learns of it.
#[derive(Drop)]
pub(crate) struct Reader<'a> {
    pub alloc: Global,
    pub span: Span,
    pub rest: &'a [u8],
    fault: Option<DecodeFault>,
}

impl<'a> Reader<'a> {
    /// From the first of these bytes.
    pub(crate) fn new(alloc: Global, span: Span, bytes: &'a [u8]) -> Self
        ensures span { result.span ≡ span }
        ensures rest { result.rest.now ≡ bytes.now }
        ensures sound { result.fault ≡ None }
    {
        Reader {
            alloc,
            span,
            rest: bytes,
            fault: None,
        }
    }

    /// Whether there was a fault.
    pub(crate) fn has_failed(&self) -> bool
        ensures { result ≡ is_some self.now.fault }
    {
        self.fault.is_some()
    }

    /// A fault, which is told if it is the first.
    pub(crate) fn fail(&mut self, fault: DecodeFault)
        ensures span { self.new.span ≡ self.old.span }
        ensures rest { self.new.rest.now ≡ self.old.rest.now }
        ensures fault { RecordsFault fault self.old.fault self.new.fault }
    {
        if self.fault.is_none() {
            self.fault = Some(fault);
        }
    }

    /// Goes on after what was read from here.
    pub(crate) fn take<T: Drop>(&mut self, read: Result<(T, &'a [u8]), DecodeFault>, zero: T) -> T
        ensures span { self.new.span ≡ self.old.span }
        ensures took { Took self.old.fault self.new.fault read.entry result self.new.rest.now }
    {
        match read {
            Ok((value, rest)) => {
                self.rest = rest;
                value
            }
            Err(fault) => {
                self.fail(fault);
                zero
            }
        }
    }

    /// A value that takes memory.
    pub(crate) fn made<T: Drop>(&mut self, made: Result<T, AllocError>, zero: T) -> T
        ensures span { self.new.span ≡ self.old.span }
        ensures rest { self.new.rest.now ≡ self.old.rest.now }
        ensures made { Made self.old.fault self.new.fault made result }
    {
        match made {
            Ok(value) => value,
            Err(_) => {
                self.fail(DecodeFault::NoMemory);
                zero
            }
        }
    }

    /// Goes on where a part of its own was read.
    pub(crate) fn check(&mut self, part: Result<(), DecodeFault>)
        ensures span { self.new.span ≡ self.old.span }
        ensures rest { self.new.rest.now ≡ self.old.rest.now }
        ensures fault { Checked self.old.fault self.new.fault part }
    {
        if let Err(fault) = part {
            self.fail(fault);
        }
    }

    /// The bytes are at their end.
    pub(crate) fn ended(&mut self)
        ensures { Reads self.old self.new (Ok tt) (ended_by self.old.span self.old.rest.now) }
    {
        self.check(ended(self.span, self.rest));
    }

    /// Adds an item to others.
    pub(crate) fn push<T: Drop>(&mut self, items: &mut Vec<T>, item: T)
        ensures { Reads {Z = List T × List ℕ} self.old self.new
            (Ok (items.new.items, self.new.rest.now))
            (Ok (items.old.items ++ item ∷ [], self.old.rest.now)) }
    {
        // Most lists have one item, and each is kept: without this the first item would get room for four.
        if items.is_empty() && items.reserve_exact(1).is_err() {
            self.fail(DecodeFault::NoMemory);
            return;
        }
        if items.push(item).is_err() {
            self.fail(DecodeFault::NoMemory);
        }
    }

    /// An unsigned integer.
    pub(crate) fn index(&mut self) -> u32
        ensures { Reads self.old self.new (Ok (result, self.new.rest.now))
            (index_at self.old.span self.old.rest.now) }
    {
        self.take(index(self.span, self.rest), 0)
    }

    /// The type of a value.
    pub(crate) fn val_type(&mut self) -> ValType
        ensures { Reads self.old self.new (Ok (result, self.new.rest.now))
            (val_type_at self.old.span self.old.rest.now) }
    {
        self.take(val_type(self.span, self.rest), ValType::I32)
    }

    /// A byte that has to be 0.
    pub(crate) fn reserved(&mut self)
        ensures { Reads self.old self.new (Ok (tt, self.new.rest.now))
            (reserved_at self.old.span self.old.rest.now) }
    {
        self.take(reserved(self.span, self.rest), ());
    }

    /// The byte that begins a part.
    pub(crate) fn tag(&mut self, code: u8)
        ensures { Reads self.old self.new (Ok (tt, self.new.rest.now))
            (tag_at code self.old.span self.old.rest.now) }
    {
        self.take(tag(self.span, code, self.rest), ());
    }

    /// A byte that is 0 or 1.
    pub(crate) fn flag(&mut self) -> bool
        ensures { Reads self.old self.new (Ok (result, self.new.rest.now))
            (mut_at self.old.span self.old.rest.now) }
    {
        self.take(flag(self.span, self.rest), false)
    }

    /// An alignment and an offset.
    pub(crate) fn mem_arg(&mut self) -> MemArg
        ensures { Reads self.old self.new (Ok (result, self.new.rest.now))
            (mem_arg_at self.old.span self.old.rest.now) }
    {
        let align = self.index();
        let offset = self.index();
        MemArg { align, offset }
    }

    /// Bytes with their number before them.
    pub(crate) fn counted(&mut self) -> &'a [u8]
        ensures { Reads self.old self.new (Ok (result.now, self.new.rest.now))
            (bytes_at self.old.span self.old.rest.now) }
    {
        self.take(counted(self.span, self.rest), &[])
    }

    /// A name.
    pub(crate) fn name(&mut self) -> String
        ensures { Reads self.old self.new (Ok (string_bytes result, self.new.rest.now))
            (name_at self.old.span self.old.rest.now) }
    {
        let text = self.counted();
        match str::from_utf8(text) {
            Ok(text) => self.made(String::from_str(self.alloc, text), String::new(self.alloc)),
            Err(_) => {
                self.fail(self.span.malformed());
                String::new(self.alloc)
            }
        }
    }

    /// There was no fault.
    pub(crate) fn sound(self) -> Result<(), DecodeFault>
        ensures { MatchOption self.entry.fault (result ≡ Ok tt) (λ fault. result ≡ Err fault) }
    {
        match self.fault {
            None => Ok(()),
            Some(fault) => Err(fault),
        }
    }
}
