//! Items with names, and the place of each name, by hash.

ghost use Rattle.std.specs.Prelude.{◌≡◌, ℕ, List, [], ◌∷◌, ◌++◌, true, false, length, IfOk};
ghost use Rattle.awk_resolve.specs.Placed.{Puts};
ghost use Rattle.awk_resolve.specs.Places.{number_in, place_of, ArePlaces};

use indexmap::IndexMap;
use std::alloc::{AllocError, Global};

/// Items with names, as they are listed, and the place of each name; of two of one name the first. Once memory was wanting it takes no more: only who
/// asks for all of them learns it.
#[derive(Drop)]
pub(crate) struct Placed<'a, T> {
    items: Vec<T>,
    places: IndexMap<&'a [u8], usize>,
    is_refused: bool,
}

/// Adds the place of a name that has none yet, and says whether there was memory for it.
fn add_place<'a>(places: &mut IndexMap<&'a [u8], usize>, name: &'a [u8], place: usize) -> bool
    ensures { result ≡ true → (names : List (List ℕ)) → length names ≡ place
        → ArePlaces places.old.entries (place_of names)
        → ArePlaces places.new.entries (place_of (names ++ name.now ∷ [])) }
{
    places.contains_key(&name) || places.insert(name, place).is_ok()
}

impl<'a, T: Drop> Placed<'a, T> {
    /// None yet.
    pub(crate) fn new(alloc: Global) -> Self
        ensures items { result.items.items ≡ [] }
        ensures places { result.places.entries ≡ [] }
    {
        Placed {
            items: Vec::new(alloc),
            places: IndexMap::new(alloc),
            is_refused: false,
        }
    }

    /// Puts an item of this name after the others, if there was memory for it.
    pub(crate) fn put(&mut self, name: &'a [u8], item: Result<T, AllocError>)
        ensures { Puts self.old self.new name.now item }
    {
        match item {
            Ok(item) if !self.is_refused => {
                let is_placed = add_place(&mut self.places, name, self.items.len());
                let is_put = self.items.push(item).is_ok();
                self.is_refused = !(is_placed && is_put);
            }
            _ => self.is_refused = true,
        }
    }

    /// All of them with the places of their names, unless memory was wanting.
    pub(crate) fn all(self) -> Result<(Vec<T>, IndexMap<&'a [u8], usize>), AllocError>
        ensures { IfOk result (λ all. (self.entry.is_refused ≡ false)
            × ((all.0.items ≡ self.entry.items.items) × (all.1.entries ≡ self.entry.places.entries))) }
    {
        if self.is_refused {
            return Err(AllocError);
        }
        Ok((self.items, self.places))
    }
}

/// The place of a name.
pub(crate) fn place_at(places: &IndexMap<&[u8], usize>, name: &[u8]) -> Option<usize>
    ensures { result ≡ number_in places.now.entries name.now }
{
    places.get(&name).copied()
}
