//! A list that latches its first failed allocation.

ghost use Rattle.std.specs.Prelude.{◌≡◌, [], ◌∷◌, ◌++◌, true, false, IfErr, IfOk, IsOkAnd};

use crate::fallible::push;
use std::alloc::{AllocError, Global};

/// A list that grows. Once memory ran out for an item it takes no more, and who asks for all of them learns of it. So what adds to it returns no result.
#[derive(Drop)]
pub struct LatchedVec<T> {
    items: Vec<T>,
    out_of_memory: bool,
}

impl<T: Drop> LatchedVec<T> {
    /// None yet.
    pub fn new(alloc: Global) -> Self
        ensures items { result.items.items ≡ [] }
        ensures open { result.out_of_memory ≡ false }
    {
        LatchedVec::from_vec(Vec::new(alloc))
    }

    /// These, to begin with.
    pub fn from_vec(items: Vec<T>) -> Self
        ensures items { result.items.items ≡ items.items }
        ensures open { result.out_of_memory ≡ false }
    {
        LatchedVec {
            items,
            out_of_memory: false,
        }
    }

    /// Puts an item after the others, unless memory ran out before or runs out now. Then the list stays as it is.
    pub fn push(&mut self, item: T)
        ensures added { self.new.out_of_memory ≡ false → (self.old.out_of_memory ≡ false)
            × (self.new.items.items ≡ self.old.items.items ++ item ∷ []) }
        ensures kept { self.new.out_of_memory ≡ true → self.new.items.items ≡ self.old.items.items }
    {
        if !self.out_of_memory {
            self.out_of_memory = push(&mut self.items, item).is_err();
        }
    }

    /// Puts an item after the others that was made, if there was memory to make it.
    #[inline(never)]
    pub fn push_made(&mut self, item: Result<T, AllocError>)
        ensures added { self.new.out_of_memory ≡ false → (self.old.out_of_memory ≡ false)
            × IsOkAnd item (λ x. self.new.items.items ≡ self.old.items.items ++ x ∷ []) }
        ensures kept { self.new.out_of_memory ≡ true → self.new.items.items ≡ self.old.items.items }
    {
        match item {
            Ok(item) => self.push(item),
            Err(_) => self.out_of_memory = true,
        }
    }

    /// Whether memory ran out for an item.
    pub fn out_of_memory(&self) -> bool
        ensures { result ≡ self.now.out_of_memory }
    {
        self.out_of_memory
    }

    /// Those that it has.
    pub fn as_slice(&self) -> &[T]
        ensures { result.now ≡ self.now.items.items }
    {
        &self.items
    }

    /// All of them.
    ///
    /// # Errors
    ///
    /// Where memory ran out for one.
    pub fn into_vec(self) -> Result<Vec<T>, AllocError>
        ensures all { IfOk result
            (λ all. (self.out_of_memory ≡ false) × (all.items ≡ self.items.items)) }
        ensures refused { IfErr result (λ e. self.out_of_memory ≡ true) }
    {
        if self.out_of_memory {
            return Err(AllocError);
        }
        Ok(self.items)
    }
}
