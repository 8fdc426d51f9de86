//! Calls on the argument list, `split`, and a value that is let go.
ghost use Rattle.std.specs.Prelude.{◌≡◌, List, ℕ, None};
ghost use Rattle.sem_primitives.specs.declared.table.Primitive.TheVariants as row;
ghost use Rattle.host_values.specs.ElementCalls.{IsTableCall};
ghost use Rattle.host_values.specs.Forms.{HostForm};
ghost use Rattle.host_imports.specs.declared.import.Import.{Import};
ghost use Rattle.host_imports.specs.declared.import.VariadicImport.{VariadicImport};
ghost use Rattle.host_values.specs.TableCalls.{TableCalls};
ghost use Rattle.host_tables.specs.Forms.{of_tables};

use crate::splits::split;
use crate::tables::Tables;
use host_texts::sprintf;
use host_values::{Refusal, append, release};
use wasm_store::Word;

impl Tables {
    /// `sprintf`: the last values of the argument list are taken, and make a text.
    ///
    /// # Errors
    ///
    /// A trap, which changes nothing; a fault, which is to be kept; or want of memory.
    pub fn sprintf(&mut self, words: &[Word]) -> Result<Option<Word>, Refusal>
        requires { self.old.fault ≡ None }
        ensures { (f : HostForm) (memory : List ℕ) → IsTableCall (Import.Variadic VariadicImport.Sprintf)
            (of_tables self.old f) words.now memory result (of_tables self.new f) }
    {
        sprintf(self.alloc, &mut self.handles, &mut self.arguments, words)
    }

    /// `arg`: a value goes onto the argument list.
    ///
    /// # Errors
    ///
    /// A trap, which changes nothing, or want of memory.
    #[inline(always)]
    pub fn arg(&mut self, words: &[Word]) -> Result<Option<Word>, Refusal>
        requires { self.old.fault ≡ None }
        ensures { (f : HostForm) (memory : List ℕ) → IsTableCall Import.Arg (of_tables self.old f)
            words.now memory result (of_tables self.new f) }
    {
        append(&mut self.handles, &mut self.arguments, words)
    }

    /// `split`: an array takes the pieces of a text.
    ///
    /// # Errors
    ///
    /// A trap, which changes nothing; a fault, which is to be kept; or want of memory.
    pub fn split(&mut self, words: &[Word]) -> Result<Option<Word>, Refusal>
        requires { self.old.fault ≡ None }
        ensures { (f : HostForm) (memory : List ℕ) → IsTableCall (Import.OfPrimitive row.Split)
            (of_tables self.old f) words.now memory result (of_tables self.new f) }
    {
        split(
            &mut self.byte_texts,
            self.alloc,
            self.texts.current_record.longest(),
            &mut self.texts.expressions,
            &mut self.arrays,
            &mut self.handles,
            words,
        )
    }

    /// `drop`: gives a value up, also where a fault is kept.
    ///
    /// # Errors
    ///
    /// A trap, which changes nothing.
    #[inline(always)]
    pub fn release(&mut self, words: &[Word]) -> Result<Option<Word>, Refusal>
        ensures { (f : HostForm) (memory : List ℕ) → TableCalls Import.Drop (of_tables self.old f)
            words.now memory result (of_tables self.new f) }
    {
        release(&mut self.handles, words)
    }
}
