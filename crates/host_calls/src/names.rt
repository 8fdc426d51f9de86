//! Calls on names and assignments, and on what was read.
ghost use Rattle.std.specs.Prelude.{◌≡◌, List, ℕ, None};
ghost use Rattle.sem_primitives.specs.declared.table.Primitive.TheVariants as row;
ghost use Rattle.host_calls.specs.Calls.{ComesTo, Gave};
ghost use Rattle.host_calls.specs.Forms.{host_form};
ghost use Rattle.host_imports.specs.declared.import.Import.{Import};

use crate::host::Host;
use host_texts::{declare, pending_name, pending_value, start_assign};
use host_values::Refusal;
use host_worlds::{begin_end, line};
use wasm_store::Word;
use world_core::World;

impl<W: World> Host<W> {
    /// A name of the script is announced.
    pub(crate) fn declare(&mut self, words: &[Word], memory: &[u8]) -> Result<Option<Word>, Refusal>
        requires { self.old.tables.fault ≡ None }
        ensures { ComesTo W.is_modelled (Gave W.did self.old self.new)
            (Import.OfPrimitive row.Declare) (host_form W.state self.old) words.now memory.now result
            (host_form W.state self.new) }
    {
        declare(self.alloc, &mut self.input.names, words, memory)
    }

    /// The assignments of the command line are made, up to one that the script is to make.
    pub(crate) fn start_assign(&mut self, words: &[Word]) -> Result<Option<Word>, Refusal>
        requires { self.old.tables.fault ≡ None }
        ensures { (memory : List ℕ) → ComesTo W.is_modelled (Gave W.did self.old self.new)
            (Import.OfPrimitive row.StartAssign) (host_form W.state self.old) words.now memory
            result (host_form W.state self.new) }
    {
        start_assign(
            self.alloc,
            &mut self.tables.texts,
            &mut self.input.names,
            words,
        )
    }

    /// The number of the name that the script is to assign to.
    pub(crate) fn pending_name(&mut self, words: &[Word]) -> Result<Option<Word>, Refusal>
        requires { self.old.tables.fault ≡ None }
        ensures { (memory : List ℕ) → ComesTo W.is_modelled (Gave W.did self.old self.new)
            (Import.OfPrimitive row.PendingName) (host_form W.state self.old) words.now memory
            result (host_form W.state self.new) }
    {
        pending_name(&self.input.names, words)
    }

    /// The value that the script is to assign, once.
    pub(crate) fn pending_value(&mut self, words: &[Word]) -> Result<Option<Word>, Refusal>
        requires { self.old.tables.fault ≡ None }
        ensures { (memory : List ℕ) → ComesTo W.is_modelled (Gave W.did self.old self.new)
            (Import.OfPrimitive row.PendingValue) (host_form W.state self.old) words.now memory
            result (host_form W.state self.new) }
    {
        pending_value(&mut self.input.names, &mut self.tables.handles, words)
    }

    /// What was read for a variable, once.
    pub(crate) fn line(&mut self, words: &[Word]) -> Result<Option<Word>, Refusal>
        requires { self.old.tables.fault ≡ None }
        ensures { (memory : List ℕ) → ComesTo W.is_modelled (Gave W.did self.old self.new)
            (Import.OfPrimitive row.Line) (host_form W.state self.old) words.now memory result
            (host_form W.state self.new) }
    {
        line(&mut self.tables.handles, &mut self.input, words)
    }

    /// The actions of END begin.
    pub(crate) fn begin_end(&mut self, words: &[Word]) -> Result<Option<Word>, Refusal>
        requires { self.old.tables.fault ≡ None }
        ensures { (memory : List ℕ) → ComesTo W.is_modelled (Gave W.did self.old self.new)
            (Import.OfPrimitive row.BeginEnd) (host_form W.state self.old) words.now memory result
            (host_form W.state self.new) }
    {
        begin_end(&mut self.input, words)
    }
}
