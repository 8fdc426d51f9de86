//! The kinds of a script's variables.

ghost use Rattle.std.specs.Prelude.{◌≡◌, ◌<◌, ◌&&◌, ℕ, false, All, length, IfOk};
ghost use Rattle.awk_grammar.specs.Marks.{Array, Scalar};
ghost use Rattle.awk_grammar.specs.Kinds.{Key, key_in, name_of, variables, is_used_as, clashing, needing, clash, first};
ghost use Rattle.awk_grammar.specs.Least.{IsLeast};
ghost use Rattle.awk_resolve.specs.Marked.{is_marked, is_marked_in};
ghost use Rattle.awk_resolve.specs.View.{view_mark, view_marks, view_place};
ghost use Rattle.awk_resolve.specs.ViewNames.{view_variable, view_variables, view_maybe_variable};
ghost use Rattle.awk_resolve.specs.ViewScopes.{functions_in};
ghost use Rattle.awk_resolve.specs.ViewSets.{variables_in, arrays_in, scalars_in};

use crate::closure::closure;
use crate::mark::Mark;
use crate::scopes::{Scopes, Variable};
use crate::sets::Kinds;
use crate::uses::{Uses, uses_of};
use indexmap::IndexSet;
use std::alloc::{AllocError, Global};

/// Whether a variable is marked.
fn is_marked_in<'a>(
    variables: &IndexSet<Variable<'a>>,
    marked: &[bool],
    variable: Variable<'a>,
) -> bool
    requires { length marked.now ≡ length variables.now.keys }
    ensures { result ≡ is_marked_in (view_variables variables.now.keys) marked.now
        (view_variable variable.entry) }
{
    match variables.get_index_of(&variable) {
        None => false,
        Some(number) => marked[number],
    }
}

/// The marks of what is used as an array, and of what is used as a scalar.
fn marked<'a>(alloc: Global, uses: &Uses<'a>) -> Result<(Vec<bool>, Vec<bool>), AllocError>
    requires arrays { All (λ n. n < length uses.now.variables.found.keys) uses.now.arrays.items.items }
    requires scalars { All (λ n. n < length uses.now.variables.found.keys) uses.now.scalars.items.items }
    requires pairs { All (λ p. (p.0 < length uses.now.variables.found.keys)
        × (p.1 < length uses.now.variables.found.keys)) uses.now.pairs.items.items }
    ensures lengths { IfOk result (λ found. (length found.0.items ≡ length uses.now.variables.found.keys)
        × (length found.1.items ≡ length uses.now.variables.found.keys)) }
    ensures arrays { IfOk result
        (λ found. IsLeast (is_marked found.0.items) uses.now.arrays.items.items uses.now.pairs.items.items) }
    ensures scalars { IfOk result
        (λ found. IsLeast (is_marked found.1.items) uses.now.scalars.items.items uses.now.pairs.items.items) }
{
    let count = uses.variables.found.len();
    let arrays = closure(alloc, count, uses.arrays.as_slice(), uses.pairs.as_slice())?;
    let scalars = closure(alloc, count, uses.scalars.as_slice(), uses.pairs.as_slice())?;
    Ok((arrays, scalars))
}

/// The kinds of a script's variables.
pub(crate) fn kinds_of<'a>(
    alloc: Global,
    scopes: &Scopes<'a>,
    marks: &[Mark<'a>],
) -> Result<Kinds<'a>, AllocError>
    ensures variables { IfOk result
        (λ kinds. variables_in kinds ≡ variables (functions_in scopes.now) (view_marks marks.now)) }
    ensures arrays { IfOk result (λ kinds. arrays_in kinds
        ≡ is_used_as Array (functions_in scopes.now) (view_marks marks.now)) }
    ensures scalars { IfOk result (λ kinds. scalars_in kinds
        ≡ is_used_as Scalar (functions_in scopes.now) (view_marks marks.now)) }
{
    let uses = uses_of(alloc, scopes, marks)?;
    let found = marked(alloc, &uses)?;
    Ok(Kinds {
        variables: uses.variables.found,
        arrays: found.0,
        scalars: found.1,
    })
}

/// Whether a number is marked in two lists.
fn is_any_in_both(first: &[bool], second: &[bool]) -> bool
    requires { length first.now ≡ length second.now }
    ensures { result ≡ false → (n : ℕ) → (is_marked first.now n && is_marked second.now n) ≡ false }
{
    for number in 0..first.len() {
        if first[number] && second[number] {
            return true;
        }
    }
    false
}

impl<'a> Variable<'a> {
    /// Its name.
    pub fn name(self) -> &'a [u8]
        ensures { result.now ≡ name_of (view_variable self.entry) }
    {
        match self {
            Variable::Whole(name) | Variable::Inside(_, name) => name,
        }
    }
}

impl<'a> Kinds<'a> {
    /// Whether a variable is used as an array.
    pub fn is_array(&self, variable: Variable<'a>) -> bool
        ensures { result ≡ arrays_in self.now (view_variable variable.entry) }
    {
        is_marked_in(&self.variables, &self.arrays, variable)
    }

    /// Whether a variable is used as a scalar.
    pub fn is_scalar(&self, variable: Variable<'a>) -> bool
        ensures { result ≡ scalars_in self.now (view_variable variable.entry) }
    {
        is_marked_in(&self.variables, &self.scalars, variable)
    }

    /// The name of a variable of both kinds.
    fn clashing(&self, variable: Variable<'a>) -> Option<&'a [u8]>
        ensures { view_place result
            ≡ clashing (arrays_in self.now) (scalars_in self.now) (view_variable variable.entry) }
    {
        if self.is_array(variable) && self.is_scalar(variable) {
            Some(variable.name())
        } else {
            None
        }
    }

    /// The name of a parameter that is an array.
    fn needing(&self, parameter: Option<Variable<'a>>) -> Option<&'a [u8]>
        ensures { view_place result
            ≡ needing (arrays_in self.now) (view_maybe_variable parameter.entry) }
    {
        match parameter {
            Some(parameter) if self.is_array(parameter) => Some(parameter.name()),
            _ => None,
        }
    }

    /// Whether some variable is of both kinds.
    fn has_clash(&self) -> bool
        ensures { result ≡ false → (k : Key) → (arrays_in self.now k && scalars_in self.now k) ≡ false }
    {
        is_any_in_both(&self.arrays, &self.scalars)
    }

    /// A name of both kinds, where some variable may be so: else it need not be found.
    fn clash_of(
        &self,
        some: bool,
        scopes: &Scopes<'a>,
        place: Option<&'a [u8]>,
        name: &'a [u8],
    ) -> Option<&'a [u8]>
        requires { some ≡ false → (k : Key) → (arrays_in self.now k && scalars_in self.now k) ≡ false }
        ensures { view_place result ≡ clashing (arrays_in self.now) (scalars_in self.now)
            (key_in (functions_in scopes.now) (view_place place.entry) name.now) }
    {
        if !some {
            return None;
        }
        self.clashing(scopes.variable_in(place, name))
    }

    /// The name that a mark shows to be of both kinds, where some variable may be so.
    fn clash(&self, some: bool, scopes: &Scopes<'a>, mark: Mark<'a>) -> Option<&'a [u8]>
        requires { some ≡ false → (k : Key) → (arrays_in self.now k && scalars_in self.now k) ≡ false }
        ensures { view_place result ≡ clash (arrays_in self.now) (scalars_in self.now)
            (functions_in scopes.now) (view_mark mark.entry) }
    {
        match mark {
            Mark::Parameter(function, name) => self.clashing(Variable::Inside(function, name)),
            Mark::Used(_, place, name) | Mark::Given(_, _, place, name) => {
                self.clash_of(some, scopes, place, name)
            }
            Mark::Computed(function, argument) => {
                self.needing(scopes.parameter_at(function, argument))
            }
            Mark::Defined(_) | Mark::Called(_, _) => None,
        }
    }

    /// The first name of both kinds, or the first parameter that is an array where the argument is no bare name.
    pub fn first_clash(&self, scopes: &Scopes<'a>, marks: &[Mark<'a>]) -> Option<&'a [u8]>
        ensures { view_place result ≡ first (clash (arrays_in self.now) (scalars_in self.now)
            (functions_in scopes.now)) (view_marks marks.now) }
    {
        let some = self.has_clash();
        for mark in marks {
            let found = self.clash(some, scopes, *mark);
            if found.is_some() {
                return found;
            }
        }
        None
    }
}
