//! One array: its pairs in the order of insertion.
ghost use Rattle.std.specs.Prelude.{◌≡◌, ℕ, List, [], Option, Some, None, get_or, is_some, option_copied, OnOk, OnErr, IfOk, IfErr, IfSome, IsSome, slice_get, true};
ghost use Rattle.std.specs.Map.{keys_of};
ghost use Rattle.host_arrays.specs.Pairs.{get_pair, set_pair, delete_pair, created, value_or_uninit};
ghost use Rattle.host_arrays.specs.Order.{Changes, IsOnce, SpecHeld, StandsIn, held_in, kept_value, place_in};

use crate::key::{Key, Sought};
use crate::listing::texts_of;
use crate::near::{Near, number_in};
use awk_values::{Bytes, Value};
use indexmap::IndexMap;
use std::alloc::{AllocError, Global};
use std::hash::RandomState;
use std::marker::Model;

/// An array of at most so many pairs keeps its room when it is cleared.
const SMALL: usize = 256;

/// A value, and the place of its key in the order.
#[derive(Drop)]
pub(crate) struct Held {
    pub(crate) value: Value,
    pub(crate) place: usize,
}

/// An array. Contracts see the list of its pairs, in the order of insertion.
///
/// The map finds a key's value. A key that is deleted leaves a hole in the order, so that the others need not move; where more than half are holes, they are
/// closed.
#[derive(Drop)]
pub(crate) struct Array {
    pairs: IndexMap<Key, Held, RandomState>,
    order: Vec<Option<Key>>,
    near: Near,
}

impl Model for Array {
    ghost use Rattle.std.specs.Prelude.{ℕ, List};
    ghost use Rattle.std.specs.Coded.{coded_list, coded×, coded_ℕ};
    ghost use Rattle.awk_values.specs.contracts.value.Value as stored;
    ghost use Rattle.awk_values.specs.declared.value.Value.{Value as AnyValue};
    ghost use Rattle.host_arrays.specs.Order.{IsPlaced, held_in, pairs_in};

    ghost Value = { List (List ℕ × AnyValue) };

    ghost coded = { coded_list (coded× (coded_list coded_ℕ) stored.the_row.coded) };

    ghost view = { λ a. pairs_in (held_in a.pairs.entries) a.order.items };

    ghost invariant = { λ a. IsPlaced (held_in a.pairs.entries) a.order.items };
}

fn copy_of(value: &Value) -> Result<Value, AllocError>
    ensures { IfOk result (λ copy. copy ≡ value.now) }
{
    value.clone()
}

/// What is held at a key, if the key stands at this place of the map.
#[inline(always)]
fn held_at<'a>(
    pairs: &'a IndexMap<Key, Held, RandomState>,
    place: Option<usize>,
    key: &[u8],
) -> Option<&'a Held>
    ensures { IfSome result (λ held. held_in pairs.now.entries key.now ≡ Some held.now) }
{
    let (own, held) = pairs.get_index(place?)?;
    if own.is(key) { Some(held) } else { None }
}

/// Whether a key stands at this place of the map.
fn stands_in(pairs: &IndexMap<Key, Held, RandomState>, place: usize, key: &[u8]) -> bool
    ensures { result ≡ true → StandsIn pairs.now.entries place key.now }
{
    match pairs.get_index(place) {
        Some(entry) => entry.0.is(key),
        None => false,
    }
}

/// Writes the value of the key at this place of the map.
fn write_at(pairs: &mut IndexMap<Key, Held, RandomState>, place: usize, value: Value)
    ensures { (k : List ℕ) (h : SpecHeld) → slice_get pairs.old.entries place ≡ Some (k, h)
        → Changes (held_in pairs.old.entries) (held_in pairs.new.entries) k
        (Some (record { value = value; place = h.place })) }
{
    if let Some(held) = pairs.get_index_mut(place) {
        held.value = value;
    }
}

/// Gives each key its place in an order without holes.
fn renumber(pairs: &mut IndexMap<Key, Held, RandomState>, order: &[Option<Key>])
    requires once { IsOnce order.now }
    requires held { (k : List ℕ) (i : ℕ) → get_or order.now i None ≡ Some k
        → IsSome (held_in pairs.old.entries k) }
    ensures values { (k : List ℕ) → kept_value (held_in pairs.new.entries k)
        ≡ kept_value (held_in pairs.old.entries k) }
    ensures places { (k : List ℕ) (i : ℕ) → get_or order.now i None ≡ Some k
        → place_in (held_in pairs.new.entries k) ≡ Some i }
{
    for place in 0..order.len() {
        if let Some(key) = &order[place] {
            if let Some(held) = pairs.get_mut(key) {
                held.place = place;
            }
        }
    }
}

impl Array {
    /// An array without a pair, whose keys are hashed by the state. It takes no memory.
    pub(crate) fn new(alloc: Global, state: RandomState) -> Self
        ensures { result ≡ [] }
    {
        Array {
            pairs: IndexMap::with_hasher(alloc, state),
            order: Vec::new(alloc),
            near: Near::new(),
        }
    }

    /// Whether the key has a pair.
    pub(crate) fn has(&self, key: &[u8]) -> bool
        ensures { result ≡ is_some (get_pair key.now self.now) }
    {
        self.pairs.contains_key(Sought { bytes: key })
    }

    /// The value at a key.
    pub(crate) fn get(&self, key: &[u8]) -> Option<&Value>
        ensures { option_copied result ≡ get_pair key.now self.now }
    {
        match self.pairs.get(Sought { bytes: key }) {
            Some(held) => Some(&held.value),
            None => None,
        }
    }

    /// Takes all pairs out, and keeps the room that they took.
    pub(crate) fn clear(&mut self)
        ensures { self.new ≡ [] }
    {
        self.pairs.clear();
        self.order.clear();
    }

    /// Whether it takes little room.
    pub(crate) fn is_small(&self) -> bool {
        self.pairs.capacity() <= SMALL && self.order.capacity() <= SMALL
    }

    /// Adds a pair of a key that has none, or hands the value back.
    fn add(&mut self, key: &[u8], value: Value) -> Result<(), Value>
        requires { get_pair key.now self.old ≡ None }
        ensures added { OnOk result (self.new ≡ set_pair key.now value self.old) }
        ensures refused { OnErr result (self.new ≡ self.old) }
        ensures handed_back { IfErr result (λ v. v ≡ value) }
    {
        let place = self.order.len();
        let Ok(own) = Key::new(*self.pairs.allocator(), key) else {
            return Err(value);
        };
        let Ok(listed) = own.clone() else {
            return Err(value);
        };
        let Ok(()) = self.order.push(Some(listed)) else {
            return Err(value);
        };
        match self.pairs.insert(own, Held { value, place }) {
            Ok(_) => Ok(()),
            Err(failed) => {
                self.order.pop();
                let (_, held) = failed.value;
                Err(held.value)
            }
        }
    }

    /// Puts a value at a key, or hands it back.
    pub(crate) fn set(&mut self, key: &[u8], value: Value) -> Result<(), Value>
        ensures set { OnOk result (self.new ≡ set_pair key.now value self.old) }
        ensures refused { OnErr result (self.new ≡ self.old) }
        ensures handed_back { IfErr result (λ v. v ≡ value) }
    {
        let likely = self.near.place_to_write(number_in(key));
        if stands_in(&self.pairs, likely, key) {
            write_at(&mut self.pairs, likely, value);
            return Ok(());
        }
        if let Some(held) = self.pairs.get_mut(Sought { bytes: key }) {
            held.value = value;
            return Ok(());
        }
        self.add(key, value)
    }

    /// A copy of the value at a key, which is created where it is missing.
    pub(crate) fn get_or_create(&mut self, key: &[u8]) -> Result<Value, AllocError>
        ensures value { IfOk result (λ v. v ≡ value_or_uninit (get_pair key.now self.old)) }
        ensures created { OnOk result (self.new ≡ created key.now self.old) }
        ensures refused { OnErr result (self.new ≡ self.old) }
    {
        let number = number_in(key);
        if let Some(held) = held_at(&self.pairs, self.near.place_of(number), key) {
            let copy = copy_of(&held.value)?;
            return Ok(copy);
        }
        if let Some((place, _, held)) = self.pairs.get_full(Sought { bytes: key }) {
            let copy = copy_of(&held.value)?;
            self.near.see(place, number);
            return Ok(copy);
        }
        let place = self.pairs.len();
        let Ok(()) = self.add(key, Value::Uninit) else {
            return Err(AllocError);
        };
        self.near.see(place, number);
        Ok(Value::Uninit)
    }

    /// Closes the holes in the order.
    fn sweep(&mut self)
        ensures { self.new ≡ self.old }
    {
        self.order.retain(|slot| slot.is_some());
        renumber(&mut self.pairs, &self.order);
    }

    /// Takes a key out. The others keep their order.
    pub(crate) fn delete(&mut self, key: &[u8])
        ensures { self.new ≡ delete_pair key.now self.old }
    {
        if let Some(held) = self.pairs.swap_remove(Sought { bytes: key }) {
            self.order[held.place] = None;
            if self.order.len() / 2 > self.pairs.len() {
                self.sweep();
            }
        }
    }

    /// The keys, in order.
    pub(crate) fn keys(&self, alloc: Global) -> Result<Vec<Bytes>, AllocError>
        ensures { IfOk result (λ keys. keys.items ≡ keys_of self.now) }
    {
        texts_of(alloc, self.order.as_slice(), self.pairs.len())
    }
}
