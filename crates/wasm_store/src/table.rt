//! Tables of functions.
ghost use Rattle.std.specs.Prelude.{◌≡◌, ◌≤◌, ◌+◌, IfOk, None, length, replicate, slice_get};
ghost use Rattle.wasm_store.specs.Tables.{element, with_functions};

use crate::trap::TrapKind;
use std::alloc::{AllocError, Global};
use std::marker::Model;

/// A table. A contract sees its elements, each the index of a function or nothing.
#[derive(Drop)]
pub struct Table {
    elements: Vec<Option<u32>>,
}

impl Model for Table {
    ghost use Rattle.std.specs.Prelude.{List, Option, ℕ};

    ghost Value = { List (Option ℕ) };

    ghost view = { λ t. t.elements.items };
}

impl Table {
    /// A table of so many empty elements.
    ///
    /// # Errors
    ///
    /// [`AllocError`] where memory is wanting.
    pub fn new(alloc: Global, elements: u32) -> Result<Table, AllocError>
        ensures { IfOk result (λ t. t ≡ replicate elements None) }
    {
        let mut all = Vec::new(alloc);
        all.resize(elements as usize, None)?;
        Ok(Table { elements: all })
    }

    /// The function that an element names.
    ///
    /// # Errors
    ///
    /// [`TrapKind::TableBounds`] past the end of the table, [`TrapKind::EmptyElement`] at an element that names none.
    #[inline(always)]
    pub fn get(&self, at: u32) -> Result<u32, TrapKind>
        ensures { result ≡ element (slice_get self.now at) }
    {
        match self.elements.get(at as usize) {
            None => Err(TrapKind::TableBounds),
            Some(None) => Err(TrapKind::EmptyElement),
            Some(Some(function)) => Ok(*function),
        }
    }

    /// Makes the elements from one on name these functions.
    pub fn fill(&mut self, at: u32, functions: &[u32])
        requires { at + length functions.now ≤ length self.old }
        ensures { self.new ≡ with_functions self.old at functions.now }
    {
        for i in 0..functions.len() {
            self.elements[at as usize + i] = Some(functions[i]);
        }
    }
}
