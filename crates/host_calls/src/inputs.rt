//! What is read: the main input, and files by their names.
ghost use Rattle.std.specs.Prelude.{◌≡◌, List, ℕ, None};
ghost use Rattle.sem_primitives.specs.declared.table.Primitive.TheVariants as row;
ghost use Rattle.host_worlds.specs.Givens.{file_primitive, main_primitive};
ghost use Rattle.host_imports.specs.declared.import.Import.{Import};
ghost use Rattle.host_calls.specs.Calls.{ComesTo, Gave};
ghost use Rattle.host_calls.specs.Forms.{host_form};

use crate::host::Host;
use host_values::Refusal;
use host_worlds::{MainRead, ReadInto};
use wasm_store::Word;
use world_core::World;

impl<W: World> Host<W> {
    /// Reads the main input (`next_main`, `getline`, `getline_var`), where no fault is kept.
    #[inline(always)]
    pub(crate) fn read_main(
        &mut self,
        how: MainRead,
        words: &[Word],
    ) -> Result<Option<Word>, Refusal>
        requires { self.old.tables.fault ≡ None }
        ensures { (memory : List ℕ) → ComesTo W.is_modelled (Gave W.did self.old self.new)
            (Import.OfPrimitive (main_primitive how)) (host_form W.state self.old) words.now memory
            result (host_form W.state self.new) }
    {
        host_worlds::read_main(
            self.alloc,
            &mut self.world,
            &self.tables.arrays,
            &mut self.tables.texts,
            &mut self.input,
            how,
            words,
        )
    }

    /// Reads a file (`getline_file`, `getline_var_file`), where no fault is kept.
    pub(crate) fn read_file(
        &mut self,
        to: ReadInto,
        words: &[Word],
    ) -> Result<Option<Word>, Refusal>
        requires { self.old.tables.fault ≡ None }
        ensures { (memory : List ℕ) → ComesTo W.is_modelled (Gave W.did self.old self.new)
            (Import.OfPrimitive (file_primitive to)) (host_form W.state self.old) words.now memory
            result (host_form W.state self.new) }
    {
        host_worlds::read_file(
            self.alloc,
            &mut self.world,
            &mut self.tables.handles,
            &mut self.tables.texts,
            &mut self.input,
            to,
            words,
        )
    }

    /// Gives up the rest of what the main input reads (`next_file`), where no fault is kept.
    pub(crate) fn next_file(&mut self, words: &[Word]) -> Result<Option<Word>, Refusal>
        requires { self.old.tables.fault ≡ None }
        ensures { (memory : List ℕ) → ComesTo W.is_modelled (Gave W.did self.old self.new)
            (Import.OfPrimitive row.NextFile) (host_form W.state self.old) words.now memory result
            (host_form W.state self.new) }
    {
        host_worlds::next_file(&mut self.world, &mut self.input, words)
    }
}
