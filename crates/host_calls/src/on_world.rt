//! The imports that read, write, or look at names and assignments, each by a function of its own.
ghost use Rattle.std.specs.Prelude.{◌≡◌, List, ℕ, false};
ghost use Rattle.sem_primitives.specs.declared.table.Primitive.TheVariants as row;
ghost use Rattle.host_imports.specs.declared.import.VariadicImport.TheVariants as listing;
ghost use Rattle.host_imports.specs.declared.import.Import.TheVariants.{OfPrimitive, Variadic};
ghost use Rattle.host_step.specs.HostStep.{refuses};
ghost use Rattle.host_calls.specs.Calls.{Means};

use crate::host::Host;
use host_imports::{Import, VariadicImport};
use host_worlds::{MainRead, ReadInto};
use sem_primitives::Primitive;
use wasm_model::BriefAnswer;
use wasm_store::Word;
use world_core::World;

impl<W: World> Host<W> {
    /// The next record of the main input.
    #[inline(never)]
    pub(crate) fn on_next_main(&mut self, words: &[Word]) -> BriefAnswer
        requires { refuses (OfPrimitive row.NextMain) self.old.tables.fault ≡ false }
        ensures { (memory : List ℕ) → Means W.is_modelled W.state W.did (OfPrimitive row.NextMain)
            self.old words.now memory result self.new }
    {
        let outcome = self.read_main(MainRead::Loop, words);
        self.tell(Import::OfPrimitive(Primitive::NextMain), outcome)
    }

    /// `getline`: the next record of the main input.
    #[inline(never)]
    pub(crate) fn on_getline(&mut self, words: &[Word]) -> BriefAnswer
        requires { refuses (OfPrimitive row.Getline) self.old.tables.fault ≡ false }
        ensures { (memory : List ℕ) → Means W.is_modelled W.state W.did (OfPrimitive row.Getline)
            self.old words.now memory result self.new }
    {
        let outcome = self.read_main(MainRead::Getline(ReadInto::Record), words);
        self.tell(Import::OfPrimitive(Primitive::Getline), outcome)
    }

    /// `getline var`: the next record of the main input, for a variable.
    #[inline(never)]
    pub(crate) fn on_getline_var(&mut self, words: &[Word]) -> BriefAnswer
        requires { refuses (OfPrimitive row.GetlineVar) self.old.tables.fault ≡ false }
        ensures { (memory : List ℕ) → Means W.is_modelled W.state W.did (OfPrimitive row.GetlineVar)
            self.old words.now memory result self.new }
    {
        let outcome = self.read_main(MainRead::Getline(ReadInto::Variable), words);
        self.tell(Import::OfPrimitive(Primitive::GetlineVar), outcome)
    }

    /// `getline <file`: the next record of a file.
    #[inline(never)]
    pub(crate) fn on_getline_file(&mut self, words: &[Word]) -> BriefAnswer
        requires { refuses (OfPrimitive row.GetlineFile) self.old.tables.fault ≡ false }
        ensures { (memory : List ℕ) → Means W.is_modelled W.state W.did (OfPrimitive
            row.GetlineFile) self.old words.now memory result self.new }
    {
        let outcome = self.read_file(ReadInto::Record, words);
        self.tell(Import::OfPrimitive(Primitive::GetlineFile), outcome)
    }

    /// `getline var <file`: the next record of a file, for a variable.
    #[inline(never)]
    pub(crate) fn on_getline_var_file(&mut self, words: &[Word]) -> BriefAnswer
        requires { refuses (OfPrimitive row.GetlineVarFile) self.old.tables.fault ≡ false }
        ensures { (memory : List ℕ) → Means W.is_modelled W.state W.did (OfPrimitive
            row.GetlineVarFile) self.old words.now memory result self.new }
    {
        let outcome = self.read_file(ReadInto::Variable, words);
        self.tell(Import::OfPrimitive(Primitive::GetlineVarFile), outcome)
    }

    /// What was read for a variable.
    #[inline(never)]
    pub(crate) fn on_line(&mut self, words: &[Word]) -> BriefAnswer
        requires { refuses (OfPrimitive row.Line) self.old.tables.fault ≡ false }
        ensures { (memory : List ℕ) → Means W.is_modelled W.state W.did (OfPrimitive row.Line)
            self.old words.now memory result self.new }
    {
        let outcome = self.line(words);
        self.tell(Import::OfPrimitive(Primitive::Line), outcome)
    }

    /// The assignments of the command line are made, up to one that the script is to make.
    #[inline(never)]
    pub(crate) fn on_start_assign(&mut self, words: &[Word]) -> BriefAnswer
        requires { refuses (OfPrimitive row.StartAssign) self.old.tables.fault ≡ false }
        ensures { (memory : List ℕ) → Means W.is_modelled W.state W.did (OfPrimitive
            row.StartAssign) self.old words.now memory result self.new }
    {
        let outcome = self.start_assign(words);
        self.tell(Import::OfPrimitive(Primitive::StartAssign), outcome)
    }

    /// The name that the script is to assign to.
    #[inline(never)]
    pub(crate) fn on_pending_name(&mut self, words: &[Word]) -> BriefAnswer
        requires { refuses (OfPrimitive row.PendingName) self.old.tables.fault ≡ false }
        ensures { (memory : List ℕ) → Means W.is_modelled W.state W.did (OfPrimitive
            row.PendingName) self.old words.now memory result self.new }
    {
        let outcome = self.pending_name(words);
        self.tell(Import::OfPrimitive(Primitive::PendingName), outcome)
    }

    /// The value that the script is to assign.
    #[inline(never)]
    pub(crate) fn on_pending_value(&mut self, words: &[Word]) -> BriefAnswer
        requires { refuses (OfPrimitive row.PendingValue) self.old.tables.fault ≡ false }
        ensures { (memory : List ℕ) → Means W.is_modelled W.state W.did (OfPrimitive
            row.PendingValue) self.old words.now memory result self.new }
    {
        let outcome = self.pending_value(words);
        self.tell(Import::OfPrimitive(Primitive::PendingValue), outcome)
    }

    /// The actions of END begin.
    #[inline(never)]
    pub(crate) fn on_begin_end(&mut self, words: &[Word]) -> BriefAnswer
        requires { refuses (OfPrimitive row.BeginEnd) self.old.tables.fault ≡ false }
        ensures { (memory : List ℕ) → Means W.is_modelled W.state W.did (OfPrimitive row.BeginEnd)
            self.old words.now memory result self.new }
    {
        let outcome = self.begin_end(words);
        self.tell(Import::OfPrimitive(Primitive::BeginEnd), outcome)
    }

    /// The file of a name is closed.
    #[inline(never)]
    pub(crate) fn on_close(&mut self, words: &[Word]) -> BriefAnswer
        requires { refuses (OfPrimitive row.Close) self.old.tables.fault ≡ false }
        ensures { (memory : List ℕ) → Means W.is_modelled W.state W.did (OfPrimitive row.Close)
            self.old words.now memory result self.new }
    {
        let outcome = self.close(words);
        self.tell(Import::OfPrimitive(Primitive::Close), outcome)
    }

    /// The rest of what the main input reads is given up.
    #[inline(never)]
    pub(crate) fn on_next_file(&mut self, words: &[Word]) -> BriefAnswer
        requires { refuses (OfPrimitive row.NextFile) self.old.tables.fault ≡ false }
        ensures { (memory : List ℕ) → Means W.is_modelled W.state W.did (OfPrimitive row.NextFile)
            self.old words.now memory result self.new }
    {
        let outcome = self.next_file(words);
        self.tell(Import::OfPrimitive(Primitive::NextFile), outcome)
    }

    /// What was printed to a file is out.
    #[inline(never)]
    pub(crate) fn on_flush(&mut self, words: &[Word]) -> BriefAnswer
        requires { refuses (OfPrimitive row.Flush) self.old.tables.fault ≡ false }
        ensures { (memory : List ℕ) → Means W.is_modelled W.state W.did (OfPrimitive row.Flush)
            self.old words.now memory result self.new }
    {
        let outcome = self.flush(words);
        self.tell(Import::OfPrimitive(Primitive::Flush), outcome)
    }

    /// A name of the script is announced.
    #[inline(never)]
    pub(crate) fn on_declare(&mut self, words: &[Word], memory: &[u8]) -> BriefAnswer
        requires { refuses (OfPrimitive row.Declare) self.old.tables.fault ≡ false }
        ensures { Means W.is_modelled W.state W.did (OfPrimitive row.Declare) self.old words.now
            memory.now result self.new }
    {
        let outcome = self.declare(words, memory);
        self.tell(Import::OfPrimitive(Primitive::Declare), outcome)
    }

    /// Values are printed.
    #[inline(never)]
    pub(crate) fn on_print(&mut self, words: &[Word]) -> BriefAnswer
        requires { refuses (Variadic listing.Print) self.old.tables.fault ≡ false }
        ensures { (memory : List ℕ) → Means W.is_modelled W.state W.did (Variadic listing.Print)
            self.old words.now memory result self.new }
    {
        let outcome = self.print(words);
        self.tell(Import::Variadic(VariadicImport::Print), outcome)
    }

    /// Values are printed by a format.
    #[inline(never)]
    pub(crate) fn on_printf(&mut self, words: &[Word]) -> BriefAnswer
        requires { refuses (Variadic listing.Printf) self.old.tables.fault ≡ false }
        ensures { (memory : List ℕ) → Means W.is_modelled W.state W.did (Variadic listing.Printf)
            self.old words.now memory result self.new }
    {
        let outcome = self.printf(words);
        self.tell(Import::Variadic(VariadicImport::Printf), outcome)
    }
}
