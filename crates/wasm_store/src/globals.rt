//! Globals.
ghost use Rattle.std.specs.Prelude.{◌≡◌, ◌<◌, length, slice_get, slice_set};

use crate::word::Word;
use std::marker::Model;

/// The values of a module's globals. A contract sees their list.
#[derive(Drop)]
pub struct Globals {
    values: Vec<Word>,
}

impl Model for Globals {
    ghost use Rattle.std.specs.Prelude.{List};
    ghost use Rattle.wasm_store.specs.declared.word.Word.{Word};

    ghost Value = { List Word };

    ghost view = { λ g. g.values.items };
}

impl Globals {
    /// Globals with these values, in order.
    pub fn new(values: Vec<Word>) -> Globals
        ensures { result ≡ values.items }
    {
        Globals { values }
    }

    /// How many there are.
    #[inline(always)]
    pub fn len(&self) -> usize
        ensures { result ≡ length self.now }
    {
        self.values.len()
    }

    /// The value of a global, if it is there.
    #[inline(always)]
    pub fn get(&self, index: u32) -> Option<Word>
        ensures { result ≡ slice_get self.now index }
    {
        Some(*self.values.get(index as usize)?)
    }

    /// Gives a global a value.
    #[inline(always)]
    pub fn set(&mut self, index: u32, value: Word)
        requires { index < length self.old }
        ensures { self.new ≡ slice_set self.old index value }
    {
        self.values[index as usize] = value;
    }
}
