//! The variables of a script by number, and their uses.

ghost use Rattle.std.specs.Prelude.{◌≡◌, ◌∷◌, [], true, map, IfOk};
ghost use Rattle.awk_grammar.specs.Marks.{Array, Scalar};
ghost use Rattle.awk_grammar.specs.Kinds.{Whole, variables, members, pairs};
ghost use Rattle.awk_resolve.specs.View.{view_kind, view_mark, view_marks};
ghost use Rattle.awk_resolve.specs.ViewNames.{names, view_variable, view_maybe_variable};
ghost use Rattle.awk_resolve.specs.ViewScopes.{functions_in};
ghost use Rattle.awk_resolve.specs.ViewUses.{AreUses, IsWhole, NotesGiven, NotesMark, NotesUses, Stand};

use crate::mark::{Kind, Mark};
use crate::scopes::{Scopes, Variable, Variables};
use crate::special::{special_arrays, special_scalars};
use latched::LatchedVec;
use std::alloc::{AllocError, Global};

/// The variables of a script and their uses. Once memory was wanting they are not all.
#[derive(Drop)]
pub(crate) struct Uses<'a> {
    pub variables: Variables<'a>,
    /// The variables that are used as arrays where they stand.
    pub arrays: LatchedVec<usize>,
    /// The variables that are used as scalars where they stand.
    pub scalars: LatchedVec<usize>,
    /// Bare names, each with the parameter for which it is given.
    pub pairs: LatchedVec<(usize, usize)>,
}

/// Notes that a variable is used so.
fn note_use<'a>(uses: &mut Uses<'a>, kind: Kind, variable: Variable<'a>)
    ensures { NotesUses uses.old uses.new (view_kind kind) (view_variable variable.entry ∷ []) }
{
    let number = uses.variables.number_of(variable);
    match kind {
        Kind::Array => uses.arrays.push(number),
        Kind::Scalar => uses.scalars.push(number),
    }
}

/// Notes that a bare name is given for a parameter, if the function has one there.
fn note_given<'a>(uses: &mut Uses<'a>, given: Variable<'a>, parameter: Option<Variable<'a>>)
    ensures { NotesGiven uses.old uses.new (view_variable given.entry)
        (view_maybe_variable parameter.entry) }
{
    let given = uses.variables.number_of(given);
    match parameter {
        None => {}
        Some(parameter) => {
            let parameter = uses.variables.number_of(parameter);
            uses.pairs.push((given, parameter));
        }
    }
}

/// Notes what a mark says.
fn note<'a>(uses: &mut Uses<'a>, scopes: &Scopes<'a>, mark: Mark<'a>)
    ensures { NotesMark (functions_in scopes.now) uses.old uses.new (view_mark mark.entry) }
{
    match mark {
        Mark::Used(kind, place, name) => note_use(uses, kind, scopes.variable_in(place, name)),
        Mark::Given(function, argument, place, name) => {
            let parameter = scopes.parameter_at(function, argument);
            note_given(uses, scopes.variable_in(place, name), parameter);
        }
        _ => {}
    }
}

/// Notes the special variables of a kind.
fn note_specials<'a>(uses: &mut Uses<'a>, kind: Kind, specials: &[&'a [u8]])
    ensures { NotesUses uses.old uses.new (view_kind kind) (map Whole (names specials.now)) }
{
    for name in specials {
        note_use(uses, kind, Variable::Whole(*name));
    }
}

/// The parameters of all functions and the special variables, with their uses.
fn first_uses<'a>(alloc: Global, scopes: &Scopes<'a>) -> Uses<'a>
    ensures { AreUses (functions_in scopes.now) result [] }
{
    let mut uses = Uses {
        variables: Variables::of_parameters(alloc, &scopes.heads),
        arrays: LatchedVec::new(alloc),
        scalars: LatchedVec::new(alloc),
        pairs: LatchedVec::new(alloc),
    };
    note_specials(&mut uses, Kind::Array, &special_arrays());
    note_specials(&mut uses, Kind::Scalar, &special_scalars());
    uses
}

impl Uses<'_> {
    /// Whether memory was wanting for none of them.
    fn is_whole(&self) -> bool
        ensures { result ≡ true → IsWhole self.now }
    {
        !(self.variables.is_refused
            || self.arrays.out_of_memory()
            || self.scalars.out_of_memory()
            || self.pairs.out_of_memory())
    }
}

/// The variables of a script and their uses.
pub(crate) fn uses_of<'a>(
    alloc: Global,
    scopes: &Scopes<'a>,
    marks: &[Mark<'a>],
) -> Result<Uses<'a>, AllocError>
    ensures { IfOk result (λ uses. Stand uses
        (variables (functions_in scopes.now) (view_marks marks.now))
        (members Array (functions_in scopes.now) (view_marks marks.now))
        (members Scalar (functions_in scopes.now) (view_marks marks.now))
        (pairs (functions_in scopes.now) (view_marks marks.now))) }
{
    let mut uses = first_uses(alloc, scopes);
    for mark in marks {
        note(&mut uses, scopes, *mark);
    }
    if uses.is_whole() {
        Ok(uses)
    } else {
        Err(AllocError)
    }
}
