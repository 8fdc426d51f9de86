//! The arrays by number.
ghost use Rattle.std.specs.Prelude.{◌≡◌, ◌≤ℤ◌, ◌<ℤ◌, pos, [], None, is_some, option_copied, true, OnOk, OnErr, IfOk, IfErr};
ghost use Rattle.std.specs.FinMap as map;
ghost use Rattle.host_handles.specs.Tables.{most_slots};
ghost use Rattle.std.specs.Map.{keys_of};
ghost use Rattle.std.specs.Borrow.{Lends, sem};
ghost use Rattle.host_arrays.specs.Pairs.{Pairs, get_pair, set_pair, delete_pair, pairs_at, created, first_arrays, value_or_uninit};

use crate::array::Array;
use crate::stored::stored;
use awk_values::{Bytes, Value};
use host_handles::Numbered;
use std::alloc::{AllocError, Global};
use std::hash::RandomState;
use std::marker::Model;

/// Arrays, each under a number from 0 to 2^31 - 2 (POSIX.1-2017 awk, "Variables and Special Variables").
///
/// Contracts see a finite map from numbers to lists of pairs of key and value, in the order of insertion.
#[derive(Drop)]
pub struct Arrays {
    numbered: Numbered<Array>,
    alloc: Global,
    state: RandomState,
}

impl Model for Arrays {
    ghost use Rattle.std.specs.Ordering.{int_cmp};
    ghost use Rattle.std.specs.FinMap as map;
    ghost use Rattle.std.specs.Coded.{coded_ℤ};
    ghost use Rattle.host_arrays.specs.Pairs.{Pairs};
    ghost use Rattle.host_arrays.specs.contracts.array.Array as stored;

    ghost Value = { map.FinMap int_cmp Pairs };

    ghost coded = { map.code coded_ℤ stored.the_row.coded };

    ghost view = { λ t. t.numbered };
}

/// The same value, to be stored where texts may be parts of others of up to `longest` bytes; or handed back where there is no memory.
#[inline(always)]
fn to_keep(alloc: Global, value: Value, longest: usize) -> Result<Value, Value>
    ensures kept { IfOk result (λ kept. kept ≡ value) }
    ensures handed_back { IfErr result (λ v. v ≡ value) }
{
    match value {
        Value::Uninit => Ok(Value::Uninit),
        Value::Num(number) => Ok(Value::Num(number)),
        Value::Text(text) => match stored(alloc, text, longest) {
            Ok(kept) => Ok(Value::Text(kept)),
            Err(text) => Err(Value::Text(text)),
        },
        Value::StrNum(text) => match stored(alloc, text, longest) {
            Ok(kept) => Ok(Value::StrNum(kept)),
            Err(text) => Err(Value::StrNum(text)),
        },
    }
}

impl Arrays {
    ghost use Rattle.host_arrays.specs.contracts.array.Array as one;
    ghost use Rattle.host_arrays.specs.contracts.table.Arrays.{the_row};

    /// The number of ARGV.
    pub const ARGV: i32 = 0;

    /// The number of ENVIRON.
    pub const ENVIRON: i32 = 1;

    /// The arrays ARGV and ENVIRON, without a pair. The keys of all arrays are hashed by the state, so that who chooses keys can not choose them to
    /// collide unless the state is known. No answer depends on it.
    ///
    /// # Errors
    ///
    /// There is no memory.
    pub fn new(alloc: Global, state: RandomState) -> Result<Arrays, AllocError>
        ensures { IfOk result (λ arrays. arrays ≡ first_arrays) }
    {
        let mut arrays = Arrays {
            numbered: Numbered::new(alloc),
            alloc,
            state,
        };
        let argv = arrays.new_array()?;
        let environ = arrays.new_array()?;
        if argv != Arrays::ARGV || environ != Arrays::ENVIRON {
            return Err(AllocError);
        }
        Ok(arrays)
    }

    /// Adds an array without a pair under a number that has none. The number of an array that was freed may come again.
    ///
    /// # Errors
    ///
    /// There is no memory or no number is left; nothing changes.
    pub fn new_array(&mut self) -> Result<i32, AllocError>
        ensures free { IfOk result (λ number. map.get self.old number ≡ None) }
        ensures from_zero { IfOk result (λ number. pos 0 ≤ℤ number) }
        ensures below { IfOk result (λ number. number <ℤ pos most_slots) }
        ensures added { IfOk result (λ number. self.new ≡ map.insert self.old number []) }
        ensures refused { OnErr result (self.new ≡ self.old) }
    {
        self.numbered.add(Array::new(self.alloc, self.state))
    }

    /// How many arrays there are, ARGV and ENVIRON counted.
    pub fn live(&self) -> usize
        ensures { result ≡ map.len self.now }
    {
        self.numbered.live()
    }

    /// Whether a number is that of an array.
    pub fn is_array(&self, number: i32) -> bool
        ensures { result ≡ map.contains_key self.now number }
    {
        self.numbered.contains(number)
    }

    fn array(&self, number: i32) -> &Array
        requires { map.contains_key self.now number ≡ true }
        ensures { result.now ≡ pairs_at self.now number }
    {
        self.numbered.at(number)
    }

    fn array_mut(&mut self, number: i32) -> &mut Array
        requires { map.contains_key self.old number ≡ true }
        ensures* writes_back { sem 𝓛
            (Lends the_row one.the_row self.entry result (map.insert self.old number)) }
        ensures value { result.now ≡ pairs_at self.old number }
    {
        self.numbered.at_mut(number)
    }

    /// Whether the array has the key (`key in a`). It creates nothing.
    pub fn has(&self, number: i32, key: &[u8]) -> bool
        requires { map.contains_key self.now number ≡ true }
        ensures { result ≡ is_some (get_pair key.now (pairs_at self.now number)) }
    {
        self.array(number).has(key)
    }

    /// The value at a key of the array; none where the number has no array, or the key no pair. It creates nothing.
    pub fn get(&self, number: i32, key: &[u8]) -> Option<&Value>
        ensures { option_copied result ≡ get_pair key.now (pairs_at self.now number) }
    {
        if !self.is_array(number) {
            return None;
        }
        self.array(number).get(key)
    }

    /// A copy of the value at a key of the array. A key without a pair is created uninitialised, and goes last.
    ///
    /// # Errors
    ///
    /// There is no memory; nothing changes.
    pub fn get_or_create(&mut self, number: i32, key: &[u8]) -> Result<Value, AllocError>
        requires { map.contains_key self.old number ≡ true }
        ensures value { IfOk result
            (λ v. v ≡ value_or_uninit (get_pair key.now (pairs_at self.old number))) }
        ensures created { OnOk result
            (self.new ≡ map.insert self.old number (created key.now (pairs_at self.old number))) }
        ensures refused { OnErr result (self.new ≡ self.old) }
    {
        self.array_mut(number).get_or_create(key)
    }

    /// Puts a value at a key of the array. A key that has a pair keeps its place; a new one goes last. The value may be a part of a text of up to `longest`
    /// bytes; what is stored of it is then a copy, unless it keeps at most 256 bytes more than twice its own in memory.
    ///
    /// # Errors
    ///
    /// The value is handed back where there is no memory; nothing changes.
    pub fn set(
        &mut self,
        number: i32,
        key: &[u8],
        value: Value,
        longest: usize,
    ) -> Result<(), Value>
        requires { map.contains_key self.old number ≡ true }
        ensures set { OnOk result (self.new
            ≡ map.insert self.old number (set_pair key.now value (pairs_at self.old number))) }
        ensures refused { OnErr result (self.new ≡ self.old) }
        ensures handed_back { IfErr result (λ v. v ≡ value) }
    {
        let kept = to_keep(self.alloc, value, longest)?;
        self.array_mut(number).set(key, kept)
    }

    /// Takes a key out of the array, where it has one. The others keep their order. It takes no memory, and the time of a few calls on average.
    pub fn delete(&mut self, number: i32, key: &[u8])
        requires { map.contains_key self.old number ≡ true }
        ensures { self.new
            ≡ map.insert self.old number (delete_pair key.now (pairs_at self.old number)) }
    {
        self.array_mut(number).delete(key);
    }

    /// Takes all keys out of the array. It takes no memory. A small array keeps the room of its pairs.
    pub fn clear(&mut self, number: i32)
        requires { map.contains_key self.old number ≡ true }
        ensures { self.new ≡ map.insert self.old number [] }
    {
        if self.array(number).is_small() {
            self.array_mut(number).clear();
            return;
        }
        let none = Array::new(self.alloc, self.state);
        *self.array_mut(number) = none;
    }

    /// The keys of the array, in the order of insertion.
    ///
    /// # Errors
    ///
    /// There is no memory.
    pub fn keys(&self, number: i32) -> Result<Vec<Bytes>, AllocError>
        requires { map.contains_key self.now number ≡ true }
        ensures { IfOk result (λ keys. keys.items ≡ keys_of (pairs_at self.now number)) }
    {
        self.array(number).keys(self.alloc)
    }

    /// Gives an array up. It takes no memory. ARGV and ENVIRON are arrays for the whole of a run: who calls keeps them.
    pub fn free(&mut self, number: i32)
        requires { map.contains_key self.old number ≡ true }
        ensures { self.new ≡ map.remove self.old number }
    {
        self.numbered.remove(number);
    }
}
