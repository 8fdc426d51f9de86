//! The table of values by handle.
ghost use Rattle.std.specs.Prelude.{◌≡◌, ◌≤ℤ◌, ◌<ℤ◌, pos, IfOk, IfErr, IfSome, IfNone, OnErr, OnOk, None, Some, option_copied, true};
ghost use Rattle.std.specs.FinMap as map;
ghost use Rattle.slab.specs.Slab.{HasRoomFor};
ghost use Rattle.host_handles.specs.Tables.{most_slots};

use crate::{MAX_SLOTS, numbered};
use awk_values::{Bytes, Value};
use slab::Slab;
use std::alloc::{AllocError, Global};
use std::marker::Model;
use std::mem::replace;

/// Values, each under a handle: a number from 0 to 2^31 - 2. Contracts see a finite map from handles to values.
///
/// The room of a text that was let go last is kept for one that is made next. No contract sees it.
#[derive(Drop)]
pub struct Handles {
    slab: Slab<Value>,
    spare: Option<Bytes>,
}

impl Model for Handles {
    ghost use Rattle.std.specs.Coded.{coded_ℤ};
    ghost use Rattle.std.specs.FinMap as map;
    ghost use Rattle.std.specs.Ordering.{int_cmp};
    ghost use Rattle.awk_values.specs.contracts.value.Value as stored;
    ghost use Rattle.awk_values.specs.declared.value.Value.{Value as AnyValue};
    ghost use Rattle.host_handles.specs.Tables.{table};

    ghost Value = { map.FinMap int_cmp AnyValue };

    ghost coded = { map.code coded_ℤ stored.the_row.coded };

    ghost view = { λ h. table h.slab.slots };
}

/// The slot of a handle; a number below 0 has none.
#[inline(always)]
fn slot_of(handle: i32) -> Option<usize>
    ensures slot { IfSome result (λ key. handle ≡ pos key) }
    ensures none { IfNone result (handle <ℤ pos 0) }
{
    if handle < 0 {
        return None;
    }
    Some(handle as usize)
}

/// Makes room for one more value. Mostly there is some.
#[inline(always)]
fn make_room(slab: &mut Slab<Value>) -> Result<(), AllocError>
    ensures room { OnOk result (HasRoomFor slab.new 1) }
    ensures same { slab.new ≡ record slab.old { capacity = slab.new.capacity } }
{
    if slab.len() < slab.capacity() {
        return Ok(());
    }
    slab.reserve(1)
}

impl Handles {
    /// A table without a value. It takes no memory.
    pub fn new(alloc: Global) -> Self
        ensures { result ≡ map.empty }
    {
        Handles {
            slab: Slab::new(alloc),
            spare: None,
        }
    }

    /// Stores a value under a handle that has none. A handle whose value was taken may come again.
    ///
    /// # Errors
    ///
    /// The value is handed back, and nothing changes, where there is no memory or no number is left.
    #[inline]
    pub fn put(&mut self, value: Value) -> Result<i32, Value>
        ensures free { IfOk result (λ handle. map.get self.old handle ≡ None) }
        ensures from_zero { IfOk result (λ handle. pos 0 ≤ℤ handle) }
        ensures below { IfOk result (λ handle. handle <ℤ pos most_slots) }
        ensures stored { IfOk result (λ handle. self.new ≡ map.insert self.old handle value) }
        ensures refused { OnErr result (self.new ≡ self.old) }
        ensures handed_back { IfErr result (λ v. v ≡ value) }
    {
        let slab = &mut self.slab;
        if slab.vacant_key() >= MAX_SLOTS {
            return Err(value);
        }
        if make_room(slab).is_err() {
            return Err(value);
        }
        let key = slab.insert_reserved(value);
        Ok(key as i32)
    }

    /// The value under a handle; none under a number that is no handle.
    #[inline(always)]
    pub fn view(&self, handle: i32) -> Option<&Value>
        ensures { option_copied result ≡ map.get self.now handle }
    {
        let slab = &self.slab;
        slab.get(slot_of(handle)?)
    }

    /// Takes the value under a handle out, where there is one.
    #[inline(always)]
    pub fn take(&mut self, handle: i32) -> Option<Value>
        ensures value { result ≡ map.get self.old handle }
        ensures rest { self.new ≡ map.remove self.old handle }
    {
        let slab = &mut self.slab;
        slab.try_remove(slot_of(handle)?)
    }

    /// Puts a value in the place of the one under a handle, which is taken out.
    #[inline(always)]
    pub fn replace(&mut self, handle: i32, value: Value) -> Value
        requires { map.contains_key self.old handle ≡ true }
        ensures from_zero { pos 0 ≤ℤ handle }
        ensures value { map.get self.old handle ≡ Some result }
        ensures replaced { self.new ≡ map.insert self.old handle value }
    {
        replace(&mut self.slab[numbered::slot_of(handle)], value)
    }

    /// Keeps the room of a text. It stands apart, so that who lets a value go needs few registers.
    #[inline(never)]
    fn keep_room(&mut self, text: Bytes)
        ensures { self.new ≡ self.old }
    {
        self.spare = Some(text);
    }

    /// Lets a value go, and keeps the room of its text where nobody else needs it.
    #[inline(always)]
    pub fn let_go(&mut self, value: Value)
        ensures { self.new ≡ self.old }
    {
        match value {
            Value::Text(text) | Value::StrNum(text) => {
                if text.is_room() {
                    self.keep_room(text);
                }
            }
            Value::Num(_) | Value::Uninit => {}
        }
    }

    /// Lets the value under a handle go, where there is one.
    #[inline(always)]
    pub fn spend(&mut self, handle: i32)
        ensures { self.new ≡ map.remove self.old handle }
    {
        if let Some(value) = self.take(handle) {
            self.let_go(value);
        }
    }

    /// The room of a text that was let go, where it is kept.
    #[inline(always)]
    pub fn spare_room(&mut self) -> Option<Bytes>
        ensures { self.new ≡ self.old }
    {
        self.spare.take()
    }

    /// How many handles have a value.
    pub fn live(&self) -> usize
        ensures { result ≡ map.len self.now }
    {
        self.slab.len()
    }
}
