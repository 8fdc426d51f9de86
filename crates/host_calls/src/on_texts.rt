//! The imports on texts, special variables and the record, each by a function of its own.
ghost use Rattle.std.specs.Prelude.{◌≡◌, List, ℕ, false};
ghost use Rattle.sem_primitives.specs.declared.table.Primitive.TheVariants as row;
ghost use Rattle.host_imports.specs.declared.import.VariadicImport.TheVariants as listing;
ghost use Rattle.host_imports.specs.declared.import.Import.TheVariants.{OfPrimitive, Variadic};
ghost use Rattle.host_step.specs.HostStep.{refuses};
ghost use Rattle.host_calls.specs.Calls.{Means};

use crate::host::Host;
use host_imports::{Import, VariadicImport};
use host_texts::{
    field, get_special, index, join_texts, length, lower_case, match_at, matches, set_field,
    set_special, sub, sub_result, substr_from, substr_of, upper_case,
};
use sem_primitives::Primitive;
use wasm_model::BriefAnswer;
use wasm_store::Word;
use world_core::World;

impl<W: World> Host<W> {
    /// The value of a special variable.
    #[inline(never)]
    pub(crate) fn on_get_special(&mut self, words: &[Word]) -> BriefAnswer
        requires { refuses (OfPrimitive row.GetSpecial) self.old.tables.fault ≡ false }
        ensures { (memory : List ℕ) → Means W.is_modelled W.state W.did (OfPrimitive row.GetSpecial)
            self.old words.now memory result self.new }
    {
        let tables = &mut self.tables;
        let import = Import::OfPrimitive(Primitive::GetSpecial);
        match get_special(&tables.handles, &mut tables.texts, words) {
            Ok(evaluated) => self.settle(import, evaluated),
            Err(refusal) => self.tell(import, Err(refusal)),
        }
    }

    /// A special variable gets a value.
    #[inline(never)]
    pub(crate) fn on_set_special(&mut self, words: &[Word]) -> BriefAnswer
        requires { refuses (OfPrimitive row.SetSpecial) self.old.tables.fault ≡ false }
        ensures { (memory : List ℕ) → Means W.is_modelled W.state W.did (OfPrimitive row.SetSpecial)
            self.old words.now memory result self.new }
    {
        let tables = &mut self.tables;
        let import = Import::OfPrimitive(Primitive::SetSpecial);
        match set_special(tables.alloc, &tables.handles, &mut tables.texts, words) {
            Ok(evaluated) => self.settle(import, evaluated),
            Err(refusal) => self.tell(import, Err(refusal)),
        }
    }

    /// The value of a field.
    #[inline(never)]
    pub(crate) fn on_field(&mut self, words: &[Word]) -> BriefAnswer
        requires { refuses (OfPrimitive row.Field) self.old.tables.fault ≡ false }
        ensures { (memory : List ℕ) → Means W.is_modelled W.state W.did (OfPrimitive row.Field)
            self.old words.now memory result self.new }
    {
        let tables = &mut self.tables;
        let import = Import::OfPrimitive(Primitive::Field);
        match field(tables.alloc, &tables.handles, &mut tables.texts, words) {
            Ok(evaluated) => self.settle(import, evaluated),
            Err(refusal) => self.tell(import, Err(refusal)),
        }
    }

    /// A field gets a value.
    #[inline(never)]
    pub(crate) fn on_set_field(&mut self, words: &[Word]) -> BriefAnswer
        requires { refuses (OfPrimitive row.SetField) self.old.tables.fault ≡ false }
        ensures { (memory : List ℕ) → Means W.is_modelled W.state W.did (OfPrimitive row.SetField)
            self.old words.now memory result self.new }
    {
        let tables = &mut self.tables;
        let import = Import::OfPrimitive(Primitive::SetField);
        match set_field(tables.alloc, &tables.handles, &mut tables.texts, words) {
            Ok(evaluated) => self.settle(import, evaluated),
            Err(refusal) => self.tell(import, Err(refusal)),
        }
    }

    /// The length of a value's text.
    #[inline(never)]
    pub(crate) fn on_length(&mut self, words: &[Word]) -> BriefAnswer
        requires { refuses (OfPrimitive row.Length) self.old.tables.fault ≡ false }
        ensures { (memory : List ℕ) → Means W.is_modelled W.state W.did (OfPrimitive row.Length)
            self.old words.now memory result self.new }
    {
        let import = Import::OfPrimitive(Primitive::Length);
        match length(&self.tables.handles, words) {
            Ok(evaluated) => self.settle(import, evaluated),
            Err(refusal) => self.tell(import, Err(refusal)),
        }
    }

    /// Whether an expression matches.
    #[inline(never)]
    pub(crate) fn on_matches(&mut self, words: &[Word]) -> BriefAnswer
        requires { refuses (OfPrimitive row.Matches) self.old.tables.fault ≡ false }
        ensures { (memory : List ℕ) → Means W.is_modelled W.state W.did (OfPrimitive row.Matches)
            self.old words.now memory result self.new }
    {
        let tables = &mut self.tables;
        let import = Import::OfPrimitive(Primitive::Matches);
        match matches(
            tables.alloc,
            &tables.handles,
            &mut tables.texts.expressions,
            words,
        ) {
            Ok(evaluated) => self.settle(import, evaluated),
            Err(refusal) => self.tell(import, Err(refusal)),
        }
    }

    /// Where an expression matches first.
    #[inline(never)]
    pub(crate) fn on_match(&mut self, words: &[Word]) -> BriefAnswer
        requires { refuses (OfPrimitive row.Match) self.old.tables.fault ≡ false }
        ensures { (memory : List ℕ) → Means W.is_modelled W.state W.did (OfPrimitive row.Match)
            self.old words.now memory result self.new }
    {
        let tables = &mut self.tables;
        let import = Import::OfPrimitive(Primitive::Match);
        match match_at(tables.alloc, &tables.handles, &mut tables.texts, words) {
            Ok(evaluated) => self.settle(import, evaluated),
            Err(refusal) => self.tell(import, Err(refusal)),
        }
    }

    /// A substitution.
    #[inline(never)]
    pub(crate) fn on_sub(&mut self, words: &[Word]) -> BriefAnswer
        requires { refuses (OfPrimitive row.Sub) self.old.tables.fault ≡ false }
        ensures { (memory : List ℕ) → Means W.is_modelled W.state W.did (OfPrimitive row.Sub)
            self.old words.now memory result self.new }
    {
        let tables = &mut self.tables;
        let import = Import::OfPrimitive(Primitive::Sub);
        match sub(tables.alloc, &tables.handles, &mut tables.texts, words) {
            Ok(evaluated) => self.settle(import, evaluated),
            Err(refusal) => self.tell(import, Err(refusal)),
        }
    }

    /// The text of the last substitution.
    #[inline(never)]
    pub(crate) fn on_sub_result(&mut self, words: &[Word]) -> BriefAnswer
        requires { refuses (OfPrimitive row.SubResult) self.old.tables.fault ≡ false }
        ensures { (memory : List ℕ) → Means W.is_modelled W.state W.did (OfPrimitive row.SubResult)
            self.old words.now memory result self.new }
    {
        let tables = &mut self.tables;
        let import = Import::OfPrimitive(Primitive::SubResult);
        match sub_result(&tables.handles, &mut tables.texts, words) {
            Ok(evaluated) => self.settle(import, evaluated),
            Err(refusal) => self.tell(import, Err(refusal)),
        }
    }

    /// A part of a text.
    #[inline(never)]
    pub(crate) fn on_substr(&mut self, words: &[Word]) -> BriefAnswer
        requires { refuses (OfPrimitive row.Substr) self.old.tables.fault ≡ false }
        ensures { (memory : List ℕ) → Means W.is_modelled W.state W.did (OfPrimitive row.Substr)
            self.old words.now memory result self.new }
    {
        let import = Import::OfPrimitive(Primitive::Substr);
        match substr_of(self.tables.alloc, &self.tables.handles, words) {
            Ok(evaluated) => self.settle(import, evaluated),
            Err(refusal) => self.tell(import, Err(refusal)),
        }
    }

    /// The rest of a text.
    #[inline(never)]
    pub(crate) fn on_substr_from(&mut self, words: &[Word]) -> BriefAnswer
        requires { refuses (OfPrimitive row.SubstrFrom) self.old.tables.fault ≡ false }
        ensures { (memory : List ℕ) → Means W.is_modelled W.state W.did (OfPrimitive row.SubstrFrom)
            self.old words.now memory result self.new }
    {
        let import = Import::OfPrimitive(Primitive::SubstrFrom);
        match substr_from(self.tables.alloc, &self.tables.handles, words) {
            Ok(evaluated) => self.settle(import, evaluated),
            Err(refusal) => self.tell(import, Err(refusal)),
        }
    }

    /// Where a text stands in another.
    #[inline(never)]
    pub(crate) fn on_index(&mut self, words: &[Word]) -> BriefAnswer
        requires { refuses (OfPrimitive row.Index) self.old.tables.fault ≡ false }
        ensures { (memory : List ℕ) → Means W.is_modelled W.state W.did (OfPrimitive row.Index)
            self.old words.now memory result self.new }
    {
        let import = Import::OfPrimitive(Primitive::Index);
        match index(self.tables.alloc, &self.tables.handles, words) {
            Ok(evaluated) => self.settle(import, evaluated),
            Err(refusal) => self.tell(import, Err(refusal)),
        }
    }

    /// A text in lower case.
    #[inline(never)]
    pub(crate) fn on_lower(&mut self, words: &[Word]) -> BriefAnswer
        requires { refuses (OfPrimitive row.Lower) self.old.tables.fault ≡ false }
        ensures { (memory : List ℕ) → Means W.is_modelled W.state W.did (OfPrimitive row.Lower)
            self.old words.now memory result self.new }
    {
        let import = Import::OfPrimitive(Primitive::Lower);
        match lower_case(self.tables.alloc, &self.tables.handles, words) {
            Ok(evaluated) => self.settle(import, evaluated),
            Err(refusal) => self.tell(import, Err(refusal)),
        }
    }

    /// A text in upper case.
    #[inline(never)]
    pub(crate) fn on_upper(&mut self, words: &[Word]) -> BriefAnswer
        requires { refuses (OfPrimitive row.Upper) self.old.tables.fault ≡ false }
        ensures { (memory : List ℕ) → Means W.is_modelled W.state W.did (OfPrimitive row.Upper)
            self.old words.now memory result self.new }
    {
        let import = Import::OfPrimitive(Primitive::Upper);
        match upper_case(self.tables.alloc, &self.tables.handles, words) {
            Ok(evaluated) => self.settle(import, evaluated),
            Err(refusal) => self.tell(import, Err(refusal)),
        }
    }

    /// A key of two texts.
    #[inline(never)]
    pub(crate) fn on_join(&mut self, words: &[Word]) -> BriefAnswer
        requires { refuses (OfPrimitive row.Join) self.old.tables.fault ≡ false }
        ensures { (memory : List ℕ) → Means W.is_modelled W.state W.did (OfPrimitive row.Join)
            self.old words.now memory result self.new }
    {
        let tables = &mut self.tables;
        let import = Import::OfPrimitive(Primitive::Join);
        match join_texts(tables.alloc, &mut tables.handles, &tables.texts, words) {
            Ok(evaluated) => self.settle(import, evaluated),
            Err(refusal) => self.tell(import, Err(refusal)),
        }
    }

    /// The last values of the argument list make a text.
    #[inline(never)]
    pub(crate) fn on_sprintf(&mut self, words: &[Word]) -> BriefAnswer
        requires { refuses (Variadic listing.Sprintf) self.old.tables.fault ≡ false }
        ensures { (memory : List ℕ) → Means W.is_modelled W.state W.did (Variadic listing.Sprintf)
            self.old words.now memory result self.new }
    {
        let outcome = self.tables.sprintf(words);
        self.tell(Import::Variadic(VariadicImport::Sprintf), outcome)
    }
}
