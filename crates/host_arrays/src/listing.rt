//! The keys of an order as texts. Those of short keys share memory, so that few are allocated.
ghost use Rattle.std.specs.Prelude.{◌≡◌, ◌<◌, ◌≤◌, ◌∷◌, ◌++◌, [], length, take, IfOk, OnOk};
ghost use Rattle.std.specs.List.{filter_map};
ghost use Rattle.host_arrays.specs.Keys.{joined};

use crate::key::Key;
use awk_values::Bytes;
use std::alloc::{AllocError, Global};

/// Short keys share a text of at most so many bytes.
const MOST_JOINED: usize = 256;

/// At how many places, from the first on, the keys share one text: none is long, and they are not too many.
fn places_joined(order: &[Option<Key>]) -> usize
    ensures { result ≤ length order.now }
{
    let mut room = MOST_JOINED;
    for place in 0..order.len() {
        if let Some(key) = &order[place] {
            if !key.is_short_of(room) {
                return place;
            }
            room -= key.len();
        }
    }
    order.len()
}

/// The bytes of all keys, one after the other.
fn join(alloc: Global, order: &[Option<Key>]) -> Result<Bytes, AllocError>
    ensures { IfOk result (λ text. text ≡ joined order.now) }
{
    let mut bytes = Vec::with_capacity(alloc, MOST_JOINED)?;
    for slot in order {
        if let Some(key) = slot {
            bytes.extend_from_slice(key.as_slice())?;
        }
    }
    Bytes::from_vec(bytes)
}

/// Adds each key as its part of the bytes of all.
fn add_parts(text: &Bytes, order: &[Option<Key>], keys: &mut Vec<Bytes>) -> Result<(), AllocError>
    requires { text.now ≡ joined order.now }
    ensures { OnOk result (keys.new.items ≡ keys.old.items ++ filter_map (λ slot. slot) order.now) }
{
    let end = text.len();
    let mut left = end;
    for slot in order {
        if let Some(key) = slot {
            let after = left - key.len();
            keys.push(text.part(end - left, end - after)?)?;
            left = after;
        }
    }
    Ok(())
}

/// Adds the key of a place.
fn add_one(alloc: Global, slot: &Option<Key>, keys: &mut Vec<Bytes>) -> Result<(), AllocError>
    ensures { OnOk result (keys.new.items ≡ keys.old.items ++ filter_map (λ slot. slot) (slot.now ∷ [])) }
{
    if let Some(key) = slot {
        keys.push(key.text(alloc)?)?;
    }
    Ok(())
}

/// Adds the keys at the first places, and how many places these are.
fn add_front(
    alloc: Global,
    order: &[Option<Key>],
    keys: &mut Vec<Bytes>,
) -> Result<usize, AllocError>
    requires { 0 < length order.now }
    ensures added { IfOk result (λ places. keys.new.items ≡ keys.old.items ++ filter_map (λ slot. slot) (take places order.now)) }
    ensures some { IfOk result (λ places. 0 < places) }
    ensures within { IfOk result (λ places. places ≤ length order.now) }
{
    let places = places_joined(order);
    if places == 0 {
        add_one(alloc, &order[0], keys)?;
        return Ok(1);
    }
    let front = &order[..places];
    add_parts(&join(alloc, front)?, front, keys)?;
    Ok(places)
}

/// The texts of the keys, in order, where there are about so many.
///
/// # Errors
///
/// There is no memory.
pub(crate) fn texts_of(
    alloc: Global,
    order: &[Option<Key>],
    many: usize,
) -> Result<Vec<Bytes>, AllocError>
    ensures { IfOk result (λ keys. keys.items ≡ filter_map (λ slot. slot) order.now) }
{
    let mut keys = Vec::with_capacity(alloc, many)?;
    let mut from = 0;
    while from < order.len() {
        from += add_front(alloc, &order[from..], &mut keys)?;
    }
    Ok(keys)
}
