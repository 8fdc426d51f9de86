//! The imports on arrays, elements and iterators, each by a function of its own.
ghost use Rattle.std.specs.Prelude.{◌≡◌, List, ℕ, false};
ghost use Rattle.sem_primitives.specs.declared.table.Primitive.TheVariants as row;
ghost use Rattle.host_imports.specs.declared.import.Import.TheVariants.{FreeArray, IterFree, OfPrimitive};
ghost use Rattle.host_step.specs.HostStep.{refuses};
ghost use Rattle.host_calls.specs.Calls.{Means};

use crate::host::Host;
use host_imports::Import;
use sem_primitives::Primitive;
use wasm_model::BriefAnswer;
use wasm_store::Word;
use world_core::World;

impl<W: World> Host<W> {
    /// The value of an element.
    #[inline(never)]
    pub(crate) fn on_elem(&mut self, words: &[Word]) -> BriefAnswer
        requires { refuses (OfPrimitive row.Elem) self.old.tables.fault ≡ false }
        ensures { (memory : List ℕ) → Means W.is_modelled W.state W.did (OfPrimitive row.Elem)
            self.old words.now memory result self.new }
    {
        let outcome = self.tables.elem(words);
        self.tell(Import::OfPrimitive(Primitive::Elem), outcome)
    }

    /// An element gets a value.
    #[inline(never)]
    pub(crate) fn on_set_elem(&mut self, words: &[Word]) -> BriefAnswer
        requires { refuses (OfPrimitive row.SetElem) self.old.tables.fault ≡ false }
        ensures { (memory : List ℕ) → Means W.is_modelled W.state W.did (OfPrimitive row.SetElem)
            self.old words.now memory result self.new }
    {
        let outcome = self.tables.set_elem(words);
        self.tell(Import::OfPrimitive(Primitive::SetElem), outcome)
    }

    /// Whether there is an element.
    #[inline(never)]
    pub(crate) fn on_has(&mut self, words: &[Word]) -> BriefAnswer
        requires { refuses (OfPrimitive row.Has) self.old.tables.fault ≡ false }
        ensures { (memory : List ℕ) → Means W.is_modelled W.state W.did (OfPrimitive row.Has)
            self.old words.now memory result self.new }
    {
        let outcome = self.tables.has(words);
        self.tell(Import::OfPrimitive(Primitive::Has), outcome)
    }

    /// An array without an element.
    #[inline(never)]
    pub(crate) fn on_new_array(&mut self, words: &[Word]) -> BriefAnswer
        requires { refuses (OfPrimitive row.NewArray) self.old.tables.fault ≡ false }
        ensures { (memory : List ℕ) → Means W.is_modelled W.state W.did (OfPrimitive row.NewArray)
            self.old words.now memory result self.new }
    {
        let outcome = self.tables.new_array(words);
        self.tell(Import::OfPrimitive(Primitive::NewArray), outcome)
    }

    /// An element is taken away, where there is one.
    #[inline(never)]
    pub(crate) fn on_delete(&mut self, words: &[Word]) -> BriefAnswer
        requires { refuses (OfPrimitive row.Delete) self.old.tables.fault ≡ false }
        ensures { (memory : List ℕ) → Means W.is_modelled W.state W.did (OfPrimitive row.Delete)
            self.old words.now memory result self.new }
    {
        let outcome = self.tables.delete(words);
        self.tell(Import::OfPrimitive(Primitive::Delete), outcome)
    }

    /// All elements are taken away.
    #[inline(never)]
    pub(crate) fn on_clear(&mut self, words: &[Word]) -> BriefAnswer
        requires { refuses (OfPrimitive row.Clear) self.old.tables.fault ≡ false }
        ensures { (memory : List ℕ) → Means W.is_modelled W.state W.did (OfPrimitive row.Clear)
            self.old words.now memory result self.new }
    {
        let outcome = self.tables.clear(words);
        self.tell(Import::OfPrimitive(Primitive::Clear), outcome)
    }

    /// The keys of an array begin to be visited.
    #[inline(never)]
    pub(crate) fn on_iter(&mut self, words: &[Word]) -> BriefAnswer
        requires { refuses (OfPrimitive row.Iter) self.old.tables.fault ≡ false }
        ensures { (memory : List ℕ) → Means W.is_modelled W.state W.did (OfPrimitive row.Iter)
            self.old words.now memory result self.new }
    {
        let outcome = self.tables.iter(words);
        self.tell(Import::OfPrimitive(Primitive::Iter), outcome)
    }

    /// The next key of an iterator.
    #[inline(never)]
    pub(crate) fn on_iter_next(&mut self, words: &[Word]) -> BriefAnswer
        requires { refuses (OfPrimitive row.IterNext) self.old.tables.fault ≡ false }
        ensures { (memory : List ℕ) → Means W.is_modelled W.state W.did (OfPrimitive row.IterNext)
            self.old words.now memory result self.new }
    {
        let outcome = self.tables.iter_next(words);
        self.tell(Import::OfPrimitive(Primitive::IterNext), outcome)
    }

    /// An array takes the pieces of a text.
    #[inline(never)]
    pub(crate) fn on_split(&mut self, words: &[Word]) -> BriefAnswer
        requires { refuses (OfPrimitive row.Split) self.old.tables.fault ≡ false }
        ensures { (memory : List ℕ) → Means W.is_modelled W.state W.did (OfPrimitive row.Split)
            self.old words.now memory result self.new }
    {
        let outcome = self.tables.split(words);
        self.tell(Import::OfPrimitive(Primitive::Split), outcome)
    }

    /// An iterator is let go.
    #[inline(never)]
    pub(crate) fn on_iter_free(&mut self, words: &[Word]) -> BriefAnswer
        requires { refuses IterFree self.old.tables.fault ≡ false }
        ensures { (memory : List ℕ) → Means W.is_modelled W.state W.did IterFree self.old words.now
            memory result self.new }
    {
        let outcome = self.tables.iter_free(words);
        self.tell(Import::IterFree, outcome)
    }

    /// An array is let go.
    #[inline(never)]
    pub(crate) fn on_free_array(&mut self, words: &[Word]) -> BriefAnswer
        requires { refuses FreeArray self.old.tables.fault ≡ false }
        ensures { (memory : List ℕ) → Means W.is_modelled W.state W.did FreeArray self.old words.now
            memory result self.new }
    {
        let outcome = self.tables.free_array(words);
        self.tell(Import::FreeArray, outcome)
    }
}
