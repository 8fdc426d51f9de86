//! The functions of a script, and what a name stands for in each.

ghost use Rattle.std.specs.Prelude.{◌≡◌, [], ◌∷◌, false, IfOk};
ghost use Rattle.std.specs.List.{list_any};
ghost use Rattle.awk_grammar.specs.ViewStmt.{view_names, view_script};
ghost use Rattle.awk_grammar.specs.Kinds.{Inside, same_key, heads, head_keys, is_function, parameters_of, parameter_keys, key_in, parameter_at};
ghost use Rattle.awk_resolve.specs.ViewVariables.{distinct_parameters, AddsKeys, AreKeys, HasNumber};
ghost use Rattle.awk_resolve.specs.View.{view_place};
ghost use Rattle.awk_resolve.specs.ViewNames.{head_names, view_heads, view_variable, view_variables, view_parameters, view_maybe_variable};
ghost use Rattle.awk_resolve.specs.Places.{place_of, ArePlaces};

use crate::placed::{Placed, place_at};
use awk_grammar::{Item, Script};
use indexmap::{IndexMap, IndexSet};
use std::alloc::{AllocError, Global};

/// A variable: one of the whole script, or a parameter of a function.
#[derive(Clone, Copy, PartialEq, Eq, Hash)]
pub(crate) enum Variable<'a> {
    Whole(&'a [u8]),
    /// The function's name and the parameter's.
    Inside(&'a [u8], &'a [u8]),
}

/// A function's name and parameters.
#[derive(Clone, Copy)]
pub(crate) struct Head<'a> {
    pub name: &'a [u8],
    pub parameters: &'a [Vec<u8>],
}

/// Variables, each with its number, which is its place. Once memory was wanting for one none of them counts: only who asks for all of them learns it.
#[derive(Drop)]
pub(crate) struct Variables<'a> {
    pub found: IndexSet<Variable<'a>>,
    pub is_refused: bool,
}

impl<'a> Variables<'a> {
    /// The number of a variable, which is added if it is new. Where memory was wanting it is that of nothing.
    pub(crate) fn number_of(&mut self, variable: Variable<'a>) -> usize
        ensures added { AddsKeys self.old self.new (view_variable variable.entry ∷ []) }
        ensures number { HasNumber self.new result (view_variable variable.entry) }
    {
        match self.found.insert_full(variable) {
            Ok((number, _)) => number,
            Err(_) => {
                self.is_refused = true;
                0
            }
        }
    }

    /// Adds the parameters of a function.
    fn add_parameters(&mut self, function: &'a [u8], parameters: &'a [Vec<u8>])
        ensures { AddsKeys self.old self.new (head_keys function.now (view_names parameters.now)) }
    {
        for name in parameters {
            self.number_of(Variable::Inside(function, name));
        }
    }

    /// The parameters of all functions.
    pub(crate) fn of_parameters(alloc: Global, heads: &[Head<'a>]) -> Self
        ensures { AreKeys result (distinct_parameters (view_heads heads.now)) }
    {
        let mut all = Variables {
            found: IndexSet::new(alloc),
            is_refused: false,
        };
        for head in heads {
            all.add_parameters(head.name, head.parameters);
        }
        all
    }

    /// All of them, unless memory was wanting for one.
    fn all(self) -> Result<IndexSet<Variable<'a>>, AllocError>
        ensures { IfOk result
            (λ all. (self.entry.is_refused ≡ false) × (all.keys ≡ self.entry.found.keys)) }
    {
        if self.is_refused {
            return Err(AllocError);
        }
        Ok(self.found)
    }
}

/// The functions of a script.
#[derive(Drop)]
pub(crate) struct Scopes<'a> {
    pub heads: Vec<Head<'a>>,
    functions: IndexMap<&'a [u8], usize>,
    parameters: IndexSet<Variable<'a>>,
    ghost functions_found: { ArePlaces functions.entries (place_of (head_names (view_heads heads.items))) },
    ghost parameters_found: { view_variables parameters.keys
        ≡ distinct_parameters (view_heads heads.items) },
}

/// The functions of a script in order, and the places of their names.
fn heads_of(
    alloc: Global,
    script: &Script,
) -> Result<(Vec<Head<'_>>, IndexMap<&'_ [u8], usize>), AllocError>
    ensures heads { IfOk result (λ all. view_heads all.0.items ≡ heads (view_script script.now)) }
    ensures places { IfOk result
        (λ all. ArePlaces all.1.entries (place_of (head_names (view_heads all.0.items)))) }
{
    let mut all = Placed::new(alloc);
    for item in &script.items {
        if let Item::Function(name, parameters, _) = item {
            all.put(name, Ok(Head { name, parameters }));
        }
    }
    all.all()
}

impl<'a> Scopes<'a> {
    /// The functions of a script.
    pub fn new(alloc: Global, script: &'a Script) -> Result<Self, AllocError>
        ensures { IfOk result
            (λ scopes. view_heads scopes.heads.items ≡ heads (view_script script.now)) }
    {
        let (heads, functions) = heads_of(alloc, script)?;
        let parameters = Variables::of_parameters(alloc, &heads).all()?;
        Ok(Scopes {
            heads,
            functions,
            parameters,
        })
    }

    /// The parameters of a function.
    pub fn parameters_of(&self, function: &[u8]) -> Option<&'a [Vec<u8>]>
        ensures { view_parameters result
            ≡ parameters_of (view_heads self.now.heads.items) function.now }
    {
        match place_at(&self.functions, function) {
            Some(place) => Some(self.heads[place].parameters),
            None => None,
        }
    }

    /// Whether the script has this function.
    pub fn is_function(&self, name: &[u8]) -> bool
        ensures { result ≡ is_function (view_heads self.now.heads.items) name.now }
    {
        self.parameters_of(name).is_some()
    }

    /// Whether a function has a parameter of this name.
    #[tactic(auto, using(crate::proofs::Names::any_is, crate::proofs::Names::any_with_keys))]
    fn has_parameter(&self, function: &[u8], name: &[u8]) -> bool
        ensures { result ≡ list_any (same_key (Inside function.now name.now))
            (parameter_keys (view_heads self.now.heads.items)) }
    {
        self.parameters.contains(&Variable::Inside(function, name))
    }

    /// What a name stands for in a place.
    pub fn variable_in(&self, place: Option<&'a [u8]>, name: &'a [u8]) -> Variable<'a>
        ensures { view_variable result
            ≡ key_in (view_heads self.now.heads.items) (view_place place.entry) name.now }
    {
        match place {
            Some(function) if self.has_parameter(function, name) => {
                Variable::Inside(function, name)
            }
            _ => Variable::Whole(name),
        }
    }

    /// The parameter for which an argument of a call is given.
    pub fn parameter_at(&self, function: &'a [u8], argument: usize) -> Option<Variable<'a>>
        ensures { view_maybe_variable result
            ≡ parameter_at (view_heads self.now.heads.items) function.now argument }
    {
        let parameters = self.parameters_of(function)?;
        let name = parameters.get(argument)?;
        Some(Variable::Inside(function, name))
    }
}
