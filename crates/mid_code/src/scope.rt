//! Where an expression stands.

ghost use Rattle.std.specs.Prelude.{◌≡◌};
ghost use Rattle.sem_scripts.specs.Names.{array_of, function_at, function_number, is_array, variable_of};
ghost use Rattle.mid_program.specs.Texts.{text_place};
ghost use Rattle.mid_program.specs.ViewCode.{view_array};
ghost use Rattle.mid_code.specs.ViewNames.{view_variable};
ghost use Rattle.mid_code.specs.ViewScope.{scope_of, texts_of};
ghost use Rattle.awk_resolve.specs.ViewKinds.{view_name_kinds};

use crate::names::{Names, Variable, kind_at, place_in, special_array, special_named};
use awk_resolve::NameKind;
use indexmap::IndexSet;
use mid_program::ArrayName;
use std::alloc::Global;

/// The names and texts of a script, and the parameters of the function in which an expression stands, if it stands in one.
#[derive(Clone, Copy)]
pub(crate) struct Scope<'a> {
    pub alloc: Global,
    pub names: &'a Names<'a>,
    pub texts: &'a IndexSet<Vec<u8>>,
    pub parameters: &'a [NameKind<'a>],
}

impl<'a> Scope<'a> {
    /// What a name stands for that is used as a scalar.
    #[tactic(auto, using(crate::proofs::NameTables::place_from_is), unfolding(crate::specs::ViewScope::scope_of))]
    pub fn variable(&self, name: &[u8]) -> Variable
        ensures { view_variable result ≡ variable_of (scope_of self.now) name.now }
    {
        if let Some(place) = place_in(self.parameters, name) {
            return Variable::Parameter(place);
        }
        if let Some(special) = special_named(name) {
            return Variable::Reserved(special);
        }
        Variable::Global(self.names.global(name))
    }

    /// The array that a name stands for.
    #[tactic(auto, using(crate::proofs::NameTables::place_from_is), unfolding(crate::specs::ViewScope::scope_of))]
    pub fn array(&self, name: &[u8]) -> ArrayName
        ensures { view_array result ≡ array_of (scope_of self.now) name.now }
    {
        if let Some(place) = place_in(self.parameters, name) {
            return ArrayName::Given(place);
        }
        if let Some(number) = special_array(name) {
            return ArrayName::Numbered(number);
        }
        ArrayName::Numbered(self.names.array(name))
    }

    /// Whether a name is an array's.
    #[tactic(auto, unfolding(crate::specs::ViewScope::scope_of))]
    pub fn is_array(&self, name: &[u8]) -> bool
        ensures { result ≡ is_array (scope_of self.now) name.now }
    {
        match self.variable(name) {
            Variable::Parameter(place) => kind_at(self.parameters, place),
            Variable::Global(number) => {
                kind_at(&self.names.resolved.globals, number) || special_array(name).is_some()
            }
            Variable::Reserved(_) => false,
        }
    }

    /// The number of a function.
    #[tactic(auto, unfolding(crate::specs::ViewScope::scope_of))]
    pub fn function(&self, name: &[u8]) -> usize
        ensures { result ≡ function_number (scope_of self.now).script name.now }
    {
        self.names.function(name)
    }

    /// The parameters of a function, by its number.
    #[tactic(auto, unfolding(crate::specs::ViewScope::scope_of))]
    pub fn parameters_of(&self, function: usize) -> &'a [NameKind<'a>]
        ensures { view_name_kinds result.now ≡ (function_at (scope_of self.now).script.functions
            function).parameters }
    {
        match self.names.resolved.functions.get(function) {
            Some(found) => &found.parameters,
            None => &[],
        }
    }

    /// The place of a text among the script's.
    #[tactic(auto, unfolding(crate::specs::ViewScope::texts_of))]
    pub fn text_place(&self, text: &[u8]) -> usize
        ensures { result ≡ text_place (texts_of self.now) text.now }
    {
        match self.texts.get_index_of(text) {
            Some(place) => place,
            None => self.texts.len(),
        }
    }
}
