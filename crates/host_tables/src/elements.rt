//! Calls on arrays, elements and iterators.
ghost use Rattle.std.specs.Prelude.{◌≡◌, List, ℕ, None};
ghost use Rattle.sem_primitives.specs.declared.table.Primitive.TheVariants as row;
ghost use Rattle.host_values.specs.ElementCalls.{IsTableCall};
ghost use Rattle.host_values.specs.TableCalls.{TableCalls};
ghost use Rattle.host_values.specs.Forms.{HostForm};
ghost use Rattle.host_imports.specs.declared.import.Import.{Import};
ghost use Rattle.host_tables.specs.Forms.{of_tables};

use crate::tables::Tables;
use host_values::{
    Refusal, clear, delete, elem, free_array, has, iter, iter_free, iter_next, new_array, set_elem,
};
use wasm_store::Word;

impl Tables {
    /// `new_array`: makes an array without an element.
    ///
    /// # Errors
    ///
    /// A trap, which changes nothing, or want of memory.
    pub fn new_array(&mut self, words: &[Word]) -> Result<Option<Word>, Refusal>
        requires { self.old.fault ≡ None }
        ensures { (f : HostForm) (memory : List ℕ) → IsTableCall (Import.OfPrimitive row.NewArray)
            (of_tables self.old f) words.now memory result (of_tables self.new f) }
    {
        new_array(&mut self.arrays, words)
    }

    /// `elem`: a copy of an element, which is made where there is none.
    ///
    /// # Errors
    ///
    /// A trap, which changes nothing; a fault, which is to be kept; or want of memory.
    #[inline(always)]
    pub fn elem(&mut self, words: &[Word]) -> Result<Option<Word>, Refusal>
        requires { self.old.fault ≡ None }
        ensures { (f : HostForm) (memory : List ℕ) → IsTableCall (Import.OfPrimitive row.Elem)
            (of_tables self.old f) words.now memory result (of_tables self.new f) }
    {
        elem(&mut self.arrays, &mut self.handles, words)
    }

    /// `set_elem`: gives an element a value.
    ///
    /// # Errors
    ///
    /// A trap, which changes nothing; a fault, which is to be kept; or want of memory.
    #[inline(always)]
    pub fn set_elem(&mut self, words: &[Word]) -> Result<Option<Word>, Refusal>
        requires { self.old.fault ≡ None }
        ensures { (f : HostForm) (memory : List ℕ) → IsTableCall (Import.OfPrimitive row.SetElem)
            (of_tables self.old f) words.now memory result (of_tables self.new f) }
    {
        set_elem(
            &mut self.arrays,
            &mut self.handles,
            words,
            self.texts.current_record.longest(),
        )
    }

    /// `has`: whether an array has an element.
    ///
    /// # Errors
    ///
    /// A trap, which changes nothing.
    #[inline(always)]
    pub fn has(&mut self, words: &[Word]) -> Result<Option<Word>, Refusal>
        requires { self.old.fault ≡ None }
        ensures { (f : HostForm) (memory : List ℕ) → IsTableCall (Import.OfPrimitive row.Has)
            (of_tables self.old f) words.now memory result (of_tables self.new f) }
    {
        has(&self.arrays, &mut self.handles, words)
    }

    /// `delete`: takes an element away, where there is one.
    ///
    /// # Errors
    ///
    /// A trap, which changes nothing.
    pub fn delete(&mut self, words: &[Word]) -> Result<Option<Word>, Refusal>
        requires { self.old.fault ≡ None }
        ensures { (f : HostForm) (memory : List ℕ) → IsTableCall (Import.OfPrimitive row.Delete)
            (of_tables self.old f) words.now memory result (of_tables self.new f) }
    {
        delete(&mut self.arrays, &mut self.handles, words)
    }

    /// `clear`: takes all elements away.
    ///
    /// # Errors
    ///
    /// A trap, which changes nothing.
    pub fn clear(&mut self, words: &[Word]) -> Result<Option<Word>, Refusal>
        requires { self.old.fault ≡ None }
        ensures { (f : HostForm) (memory : List ℕ) → IsTableCall (Import.OfPrimitive row.Clear)
            (of_tables self.old f) words.now memory result (of_tables self.new f) }
    {
        clear(&mut self.arrays, words)
    }

    /// `iter`: starts to visit the keys of an array.
    ///
    /// # Errors
    ///
    /// A trap, which changes nothing, or want of memory.
    pub fn iter(&mut self, words: &[Word]) -> Result<Option<Word>, Refusal>
        requires { self.old.fault ≡ None }
        ensures { (f : HostForm) (memory : List ℕ) → IsTableCall (Import.OfPrimitive row.Iter)
            (of_tables self.old f) words.now memory result (of_tables self.new f) }
    {
        iter(&self.arrays, &mut self.iterators, words)
    }

    /// `iter_next`: the next key of an iterator.
    ///
    /// # Errors
    ///
    /// A trap, which changes nothing, or want of memory.
    pub fn iter_next(&mut self, words: &[Word]) -> Result<Option<Word>, Refusal>
        requires { self.old.fault ≡ None }
        ensures { (f : HostForm) (memory : List ℕ) → IsTableCall (Import.OfPrimitive row.IterNext)
            (of_tables self.old f) words.now memory result (of_tables self.new f) }
    {
        iter_next(&mut self.iterators, &mut self.handles, words)
    }

    /// `iter_free`: gives an iterator up, also where a fault is kept.
    ///
    /// # Errors
    ///
    /// A trap, which changes nothing.
    pub fn iter_free(&mut self, words: &[Word]) -> Result<Option<Word>, Refusal>
        ensures { (f : HostForm) (memory : List ℕ) → TableCalls Import.IterFree (of_tables self.old f)
            words.now memory result (of_tables self.new f) }
    {
        iter_free(&mut self.iterators, words)
    }

    /// `free_array`: gives an array up, also where a fault is kept.
    ///
    /// # Errors
    ///
    /// A trap, which changes nothing.
    pub fn free_array(&mut self, words: &[Word]) -> Result<Option<Word>, Refusal>
        ensures { (f : HostForm) (memory : List ℕ) → TableCalls Import.FreeArray (of_tables self.old f)
            words.now memory result (of_tables self.new f) }
    {
        free_array(&mut self.arrays, words)
    }
}
