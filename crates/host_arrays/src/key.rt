//! The keys of an array.
ghost use Rattle.std.specs.Prelude.{◌≡◌, ◌==◌, ◌≤◌, ◌↔◌, ◌∷◌, [], length, IfOk, IsTrue};
ghost use Rattle.std.specs.Cmp.{on_equiv, on_per, partial_equiv_from_equiv};
ghost use Rattle.std.specs.Cmp.Lexicographic.{pointwise, bytes_decides, nat_list_eq_equiv};
ghost use Rattle.std.specs.Cmp.Rules.{comparing, hashing};
ghost use Rattle.std.proofs.Common.{ap, rules};

use awk_values::Bytes;
use indexmap::Equivalent;
use std::alloc::{AllocError, Global};
use std::hash::{Hash, Hasher};
use std::marker::Model;

/// A key of at most so many bytes takes no memory of its own.
const MOST_SHORT: usize = 30;

/// The bytes of a short key, which it holds itself.
#[derive(Drop)]
struct Short {
    len: u8,
    bytes: [u8; MOST_SHORT],
}

impl Model for Short {
    ghost use Rattle.std.specs.Prelude.{List, ℕ, ◌≤◌, take};

    ghost Value = { List ℕ };

    ghost view = { λ s. take s.len s.bytes };

    ghost invariant = { λ s. s.len ≤ 30 };
}

impl Short {
    fn new(bytes: &[u8]) -> Short
        requires { length bytes.now ≤ 30 }
        ensures { result ≡ bytes.now }
    {
        let mut room = [0; MOST_SHORT];
        room[..bytes.len()].copy_from_slice(bytes);
        Short {
            len: bytes.len() as u8,
            bytes: room,
        }
    }

    fn as_slice(&self) -> &[u8]
        ensures { result.now ≡ self.now }
    {
        &self.bytes[..self.len as usize]
    }

    fn copy(&self) -> Short
        ensures { result ≡ self.now }
    {
        Short {
            len: self.len,
            bytes: self.bytes,
        }
    }
}

/// Where the bytes of a key are.
#[derive(Drop)]
enum Place {
    Here(Short),
    Shared(Bytes),
}

/// A key of an array. Contracts see its bytes.
///
/// It holds a short key's bytes itself, and shares a long key's text.
#[derive(Drop)]
pub(crate) struct Key {
    place: Place,
}

impl Model for Key {
    ghost use Rattle.std.specs.Prelude.{List, ℕ};

    ghost Value = { List ℕ };

    ghost use Rattle.host_arrays.specs.Keys.{bytes_of};

    ghost view = { λ k. bytes_of k.place };
}

impl Key {
    /// The key of these bytes.
    ///
    /// # Errors
    ///
    /// There is no memory.
    pub(crate) fn new(alloc: Global, bytes: &[u8]) -> Result<Key, AllocError>
        ensures { IfOk result (λ key. key ≡ bytes.now) }
    {
        let place = if bytes.len() <= MOST_SHORT {
            Place::Here(Short::new(bytes))
        } else {
            Place::Shared(Bytes::from_slice(alloc, bytes)?)
        };
        Ok(Key { place })
    }

    /// Its bytes.
    #[inline(always)]
    pub(crate) fn as_slice(&self) -> &[u8]
        ensures { result.now ≡ self.now }
    {
        match &self.place {
            Place::Here(short) => short.as_slice(),
            Place::Shared(text) => text.as_slice(),
        }
    }

    /// Whether it has these bytes.
    #[inline(always)]
    pub(crate) fn is(&self, bytes: &[u8]) -> bool
        ensures { result ≡ pointwise ◌==◌ bytes.now self.now }
    {
        match &self.place {
            Place::Here(short) => are_same(bytes, short.as_slice()),
            Place::Shared(text) => bytes == text.as_slice(),
        }
    }

    /// How many bytes.
    #[inline(always)]
    pub(crate) fn len(&self) -> usize
        ensures { result ≡ length self.now }
    {
        self.as_slice().len()
    }

    /// Whether it holds its bytes itself, and they are at most so many.
    #[inline(always)]
    pub(crate) fn is_short_of(&self, most: usize) -> bool
        ensures { IsTrue result → length self.now ≤ most }
    {
        match &self.place {
            Place::Here(short) => short.as_slice().len() <= most,
            Place::Shared(_) => false,
        }
    }

    /// Its text.
    ///
    /// # Errors
    ///
    /// There is no memory.
    pub(crate) fn text(&self, alloc: Global) -> Result<Bytes, AllocError>
        ensures { IfOk result (λ text. text ≡ self.now) }
    {
        match &self.place {
            Place::Here(short) => Bytes::from_slice(alloc, short.as_slice()),
            Place::Shared(text) => text.clone(),
        }
    }
}

impl Clone for Key {
    ghost is_clone = { λ it copy. copy ≡ it };

    fn clone(&self) -> Result<Key, AllocError> {
        let place = match &self.place {
            Place::Here(short) => Place::Here(short.copy()),
            Place::Shared(text) => Place::Shared(text.clone()?),
        };
        Ok(Key { place })
    }
}

/// Whether two short texts have the same bytes.
#[inline(always)]
fn are_same(left: &[u8], right: &[u8]) -> bool
    ensures { IsTrue result ↔ (left.now ≡ right.now) }
{
    if left.len() != right.len() {
        return false;
    }
    for at in 0..left.len() {
        if left[at] != right[at] {
            return false;
        }
    }
    true
}

impl PartialEq for Key {
    ghost eq = { pointwise ◌==◌ };

    ghost laws = { Prim.search (comparing, rules) };

    fn eq(&self, other: &Key) -> bool {
        self.as_slice() == other.as_slice()
    }
}

impl Eq for Key {
    ghost laws = { Prim.search (comparing, rules) };
}

impl Hash for Key {
    ghost hash_input = { λ k. k ∷ [] };

    ghost respects_eq = { Prim.search (hashing, rules) };

    // In one write, as a text is hashed.
    fn hash<H: Hasher>(&self, state: &mut H) {
        state.write(self.as_slice());
    }
}

/// Bytes that find the key that has them. No key is made of them.
#[derive(Clone, Copy)]
pub(crate) struct Sought<'a> {
    pub(crate) bytes: &'a [u8],
}

impl<'a> PartialEq for Sought<'a> {
    ghost eq = { λ x y. pointwise ◌==◌ x.bytes.now y.bytes.now };

    ghost laws = { on_per (λ s. s.bytes.now) (partial_equiv_from_equiv nat_list_eq_equiv) };

    fn eq(&self, other: &Sought<'a>) -> bool {
        self.bytes == other.bytes
    }
}

impl<'a> Eq for Sought<'a> {
    ghost laws = { on_equiv (λ s. s.bytes.now) nat_list_eq_equiv };
}

impl<'a> Hash for Sought<'a> {
    ghost hash_input = { λ s. s.bytes.now ∷ [] };

    ghost respects_eq = { λ x y h. ap (λ b. b ∷ []) ((bytes_decides x.bytes.now y.bytes.now).0 h) };

    // As a key is hashed.
    fn hash<H: Hasher>(&self, state: &mut H) {
        state.write(self.bytes);
    }
}

impl<'a> Equivalent<Key> for Sought<'a> {
    ghost equivalent = { λ s k. pointwise ◌==◌ s.bytes.now k };

    ghost respects_hash = { λ s k h. ap (λ b. b ∷ []) ((bytes_decides s.bytes.now k).0 h) };

    ghost respects_eq = { λ s x y. nat_list_eq_equiv.congr s.bytes.now x y };

    fn equivalent(&self, key: &Key) -> bool {
        key.is(self.bytes)
    }
}
