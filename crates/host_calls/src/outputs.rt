//! Calls that write, and that close and flush files.
ghost use Rattle.std.specs.Prelude.{◌≡◌, List, ℕ, None};
ghost use Rattle.sem_primitives.specs.declared.table.Primitive.TheVariants as row;
ghost use Rattle.host_calls.specs.Calls.{ComesTo, Gave};
ghost use Rattle.host_calls.specs.Forms.{host_form};
ghost use Rattle.host_imports.specs.declared.import.Import.{Import};
ghost use Rattle.host_imports.specs.declared.import.VariadicImport.{VariadicImport};

use crate::host::Host;
use host_values::Refusal;
use host_worlds::{close, flush, print, printf};
use wasm_store::Word;
use world_core::World;

impl<W: World> Host<W> {
    /// The last values of the argument list are printed.
    pub(crate) fn print(&mut self, words: &[Word]) -> Result<Option<Word>, Refusal>
        requires { self.old.tables.fault ≡ None }
        ensures { (memory : List ℕ) → ComesTo W.is_modelled (Gave W.did self.old self.new)
            (Import.Variadic VariadicImport.Print) (host_form W.state self.old) words.now memory
            result (host_form W.state self.new) }
    {
        print(
            self.alloc,
            &mut self.line,
            &self.tables.texts.specials,
            &mut self.tables.arguments,
            &mut self.input.files,
            &mut self.world,
            words,
        )
    }

    /// The last values of the argument list are printed by a format.
    pub(crate) fn printf(&mut self, words: &[Word]) -> Result<Option<Word>, Refusal>
        requires { self.old.tables.fault ≡ None }
        ensures { (memory : List ℕ) → ComesTo W.is_modelled (Gave W.did self.old self.new)
            (Import.Variadic VariadicImport.Printf) (host_form W.state self.old) words.now memory
            result (host_form W.state self.new) }
    {
        printf(
            self.alloc,
            &mut self.line,
            &mut self.tables.arguments,
            &mut self.input.files,
            &mut self.world,
            words,
        )
    }

    /// The file of a name is closed.
    pub(crate) fn close(&mut self, words: &[Word]) -> Result<Option<Word>, Refusal>
        requires { self.old.tables.fault ≡ None }
        ensures { (memory : List ℕ) → ComesTo W.is_modelled (Gave W.did self.old self.new)
            (Import.OfPrimitive row.Close) (host_form W.state self.old) words.now memory result
            (host_form W.state self.new) }
    {
        close(
            self.alloc,
            &mut self.tables.handles,
            &mut self.input.files,
            &mut self.world,
            words,
        )
    }

    /// Whether the file of a name is open for writing: then all that was printed to it is out.
    pub(crate) fn flush(&mut self, words: &[Word]) -> Result<Option<Word>, Refusal>
        requires { self.old.tables.fault ≡ None }
        ensures { (memory : List ℕ) → ComesTo W.is_modelled (Gave W.did self.old self.new)
            (Import.OfPrimitive row.Flush) (host_form W.state self.old) words.now memory result
            (host_form W.state self.new) }
    {
        flush(
            self.alloc,
            &mut self.tables.handles,
            &self.input.files,
            words,
        )
    }
}
