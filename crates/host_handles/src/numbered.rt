//! Things by number.
ghost use Rattle.std.specs.Prelude.{◌≡◌, ◌≤ℤ◌, ◌<ℤ◌, pos, None, Some, IfOk, OnErr, true};
ghost use Rattle.std.specs.Borrow.{sem};
ghost use Rattle.std.specs.FinMap as map;
ghost use Rattle.host_handles.specs.Tables.{most_slots};

use crate::MAX_SLOTS;
use slab::Slab;
use std::alloc::{AllocError, Global};
use std::marker::Model;

/// Things, each under a number from 0 to 2^31 - 2. Contracts see a finite map from numbers to things.
#[derive(Drop)]
pub struct Numbered<T> {
    slab: Slab<T>,
}

impl<T> Model for Numbered<T> {
    ghost use Rattle.std.specs.Coded.{coded_ℤ};
    ghost use Rattle.std.specs.FinMap as map;
    ghost use Rattle.std.specs.Ordering.{int_cmp};
    ghost use Rattle.host_handles.specs.Tables.{table};

    ghost Value = { map.FinMap int_cmp T };

    ghost coded = { map.code coded_ℤ T.code };

    ghost view = { λ n. table n.slab.slots };
}

/// The slot of a number.
#[inline(always)]
pub(crate) fn slot_of(number: i32) -> usize
    requires { pos 0 ≤ℤ number }
    ensures { number ≡ pos result }
{
    number as usize
}

impl<T: Drop> Numbered<T> {
    ghost use Rattle.host_handles.specs.Lends.{lends_number};

    /// None yet. It takes no memory.
    pub fn new(alloc: Global) -> Self
        ensures { result ≡ map.empty }
    {
        Numbered {
            slab: Slab::new(alloc),
        }
    }

    /// Adds a thing under a number that has none. The number of one that was removed may come again.
    ///
    /// # Errors
    ///
    /// There is no memory or no number is left; nothing changes.
    pub fn add(&mut self, thing: T) -> Result<i32, AllocError>
        ensures free { IfOk result (λ number. map.get self.old number ≡ None) }
        ensures from_zero { IfOk result (λ number. pos 0 ≤ℤ number) }
        ensures below { IfOk result (λ number. number <ℤ pos most_slots) }
        ensures added { IfOk result (λ number. self.new ≡ map.insert self.old number thing) }
        ensures refused { OnErr result (self.new ≡ self.old) }
    {
        let slab = &mut self.slab;
        if slab.vacant_key() >= MAX_SLOTS {
            return Err(AllocError);
        }
        let Ok(key) = slab.insert(thing) else {
            return Err(AllocError);
        };
        Ok(key as i32)
    }

    /// How many things there are.
    pub fn live(&self) -> usize
        ensures { result ≡ map.len self.now }
    {
        self.slab.len()
    }

    /// Whether a number has a thing.
    #[inline(always)]
    pub fn contains(&self, number: i32) -> bool
        ensures { result ≡ map.contains_key self.now number }
    {
        let slab = &self.slab;
        if number < 0 {
            return false;
        }
        slab.get(slot_of(number)).is_some()
    }

    /// The thing under a number that has one.
    #[inline(always)]
    pub fn at(&self, number: i32) -> &T
        requires { map.contains_key self.now number ≡ true }
        ensures { map.get self.now number ≡ Some result.now }
    {
        let slab = &self.slab;
        &slab[slot_of(number)]
    }

    /// The same, to be changed.
    #[inline(always)]
    pub fn at_mut(&mut self, number: i32) -> &mut T
        requires { map.contains_key self.old number ≡ true }
        ensures* writes_back { sem 𝓛 (lends_number T.row self.entry number result) }
        ensures value { map.get self.old number ≡ Some result.now }
    {
        &mut self.slab[slot_of(number)]
    }

    /// Removes the thing under a number that has one. It takes no memory.
    pub fn remove(&mut self, number: i32)
        requires { map.contains_key self.old number ≡ true }
        ensures { self.new ≡ map.remove self.old number }
    {
        self.slab.remove(slot_of(number));
    }
}
