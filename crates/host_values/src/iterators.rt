//! The iterators by number.
ghost use Rattle.std.specs.Prelude.{◌≡◌, ◌≤ℤ◌, ◌<ℤ◌, [], pos, true, List, ℕ, None, Some, IfOk, OnOk, OnErr};
ghost use Rattle.std.specs.Borrow.{Lends, sem};
ghost use Rattle.std.specs.FinMap as map;
ghost use Rattle.host_handles.specs.Tables.{most_slots};
ghost use Rattle.host_values.specs.Turns.{first_key, keys_at, other_keys};

use awk_values::Bytes;
use host_handles::Numbered;
use std::alloc::{AllocError, Global};
use std::marker::Model;

/// The keys of an array as they were at one time, and how many were visited. Contracts see those that are left.
#[derive(Drop)]
struct Visit {
    keys: Vec<Bytes>,
    visited: usize,
}

impl Model for Visit {
    ghost use Rattle.std.specs.Prelude.{List, ℕ, drop};

    ghost Value = { List (List ℕ) };

    ghost view = { λ v. drop v.visited v.keys.items };
}

impl Visit {
    /// The next key; none where none is left.
    fn next(&mut self) -> Result<Option<Bytes>, AllocError>
        ensures key { IfOk result (λ key. key ≡ first_key self.old) }
        ensures left { OnOk result (self.new ≡ other_keys self.old) }
        ensures refused { OnErr result (self.new ≡ self.old) }
    {
        let Some(key) = self.keys.get(self.visited) else {
            return Ok(None);
        };
        let key = key.clone()?;
        self.visited += 1;
        Ok(Some(key))
    }
}

/// Iterators, each under a number from 0 to 2^31 - 2. Contracts see a finite map from numbers to the keys that are left.
#[derive(Drop)]
pub struct Iterators {
    numbered: Numbered<Visit>,
}

impl Model for Iterators {
    ghost use Rattle.std.specs.Prelude.{List, ℕ};
    ghost use Rattle.std.specs.Ordering.{int_cmp};
    ghost use Rattle.std.specs.FinMap as map;
    ghost use Rattle.std.specs.Coded.{coded_ℤ, coded_list, coded_ℕ};

    ghost Value = { map.FinMap int_cmp (List (List ℕ)) };

    ghost coded = { map.code coded_ℤ (coded_list (coded_list coded_ℕ)) };

    ghost view = { λ t. t.numbered };
}

impl Iterators {
    ghost use Rattle.host_values.specs.contracts.iterators.Visit as one;
    ghost use Rattle.host_values.specs.contracts.iterators.Iterators.{the_row};

    /// A table without an iterator. It takes no memory.
    pub fn new(alloc: Global) -> Self
        ensures { result ≡ map.empty }
    {
        Iterators {
            numbered: Numbered::new(alloc),
        }
    }

    /// Adds an iterator over these keys under a number that has none. The number of one that was freed may come again.
    ///
    /// # Errors
    ///
    /// There is no memory or no number is left; nothing changes.
    pub fn add(&mut self, keys: Vec<Bytes>) -> Result<i32, AllocError>
        ensures free { IfOk result (λ number. map.get self.old number ≡ None) }
        ensures from_zero { IfOk result (λ number. pos 0 ≤ℤ number) }
        ensures below { IfOk result (λ number. number <ℤ pos most_slots) }
        ensures added { IfOk result (λ number. self.new ≡ map.insert self.old number keys.items) }
        ensures refused { OnErr result (self.new ≡ self.old) }
    {
        self.numbered.add(Visit { keys, visited: 0 })
    }

    /// How many iterators there are.
    pub fn live(&self) -> usize
        ensures { result ≡ map.len self.now }
    {
        self.numbered.live()
    }

    /// Whether a number is that of an iterator.
    pub fn is_iterator(&self, number: i32) -> bool
        ensures { result ≡ map.contains_key self.now number }
    {
        self.numbered.contains(number)
    }

    fn visit(&mut self, number: i32) -> &mut Visit
        requires { map.contains_key self.old number ≡ true }
        ensures* writes_back { sem 𝓛
            (Lends the_row one.the_row self.entry result (map.insert self.old number)) }
        ensures value { result.now ≡ keys_at self.old number }
    {
        self.numbered.at_mut(number)
    }

    /// The next key of an iterator; none where none is left.
    ///
    /// # Errors
    ///
    /// There is no memory; nothing changes.
    pub fn next(&mut self, number: i32) -> Result<Option<Bytes>, AllocError>
        requires { map.contains_key self.old number ≡ true }
        ensures key { IfOk result (λ key. key ≡ first_key (keys_at self.old number)) }
        ensures left { OnOk result
            (self.new ≡ map.insert self.old number (other_keys (keys_at self.old number))) }
        ensures refused { OnErr result (self.new ≡ self.old) }
    {
        self.visit(number).next()
    }

    /// Gives an iterator up. It takes no memory.
    pub fn free(&mut self, number: i32)
        requires { map.contains_key self.old number ≡ true }
        ensures { self.new ≡ map.remove self.old number }
    {
        self.numbered.remove(number);
    }
}
