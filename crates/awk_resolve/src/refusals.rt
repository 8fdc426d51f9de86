//! Why a script is refused for its names, kinds aside.

ghost use Rattle.std.specs.Prelude.{◌≡◌, ◌++◌, [], ◌∷◌, ◌||◌, false, IfOk};
ghost use Rattle.std.specs.List.{list_any};
ghost use Rattle.awk_grammar.specs.Kinds.{Inside, same_key, has_name, is_function, specials, only_if, too_many, defined, declared, duplicate, first_duplicate, unknown, excess, first};
ghost use Rattle.awk_resolve.specs.View.{view_place, view_mark, view_marks};
ghost use Rattle.awk_resolve.specs.ViewNames.{view_heads};
ghost use Rattle.awk_resolve.specs.ViewScopes.{functions_in};
ghost use Rattle.awk_resolve.specs.ViewSeen.{functions_named, parameters_named};

use crate::mark::Mark;
use crate::scopes::{Head, Scopes, Variable};
use crate::special::is_special;
use indexmap::IndexSet;
use std::alloc::{AllocError, Global};

/// How many functions a script has at most.
const MAX_FUNCTIONS: usize = 1_000;

/// How many parameters a function has at most.
const MAX_PARAMETERS: usize = 100;

/// The first function that is past the limit of functions or has too many parameters.
pub(crate) fn too_many<'a>(heads: &[Head<'a>]) -> Option<&'a [u8]>
    ensures { view_place result ≡ too_many 0 (view_heads heads.now) }
{
    for i in 0..heads.len() {
        if i >= MAX_FUNCTIONS || heads[i].parameters.len() > MAX_PARAMETERS {
            return Some(heads[i].name);
        }
    }
    None
}

/// The functions and parameters that were named so far; all of them, unless memory was wanting for one.
#[derive(Drop)]
struct Seen<'a> {
    functions: IndexSet<&'a [u8]>,
    parameters: IndexSet<Variable<'a>>,
    is_refused: bool,
}

/// Notes a function's name, and says whether it is taken. It counts as taken where memory was wanting.
fn note_function<'a>(seen: &mut Seen<'a>, name: &'a [u8]) -> bool
    ensures taken { seen.new.is_refused ≡ false → (seen.old.is_refused ≡ false) × (result
        ≡ (has_name specials name.now || has_name (functions_named seen.old) name.now)) }
    ensures noted { seen.new.is_refused ≡ false → result ≡ false
        → functions_named seen.new ≡ functions_named seen.old ++ name.now ∷ [] }
    ensures parameters { seen.new.parameters.keys ≡ seen.old.parameters.keys }
{
    if is_special(name) {
        return true;
    }
    match seen.functions.insert(name) {
        Ok(added) => !added,
        Err(_) => {
            seen.is_refused = true;
            true
        }
    }
}

/// Notes a parameter, and says whether its name is taken. It counts as taken where memory was wanting.
fn note_parameter<'a>(
    seen: &mut Seen<'a>,
    scopes: &Scopes<'a>,
    function: &'a [u8],
    name: &'a [u8],
) -> bool
    ensures taken { seen.new.is_refused ≡ false → (seen.old.is_refused ≡ false) × (result
        ≡ (has_name specials name.now || (is_function (functions_in scopes.now) name.now || list_any
        (same_key (Inside function.now name.now)) (parameters_named seen.old)))) }
    ensures noted { seen.new.is_refused ≡ false → result ≡ false → parameters_named seen.new
        ≡ parameters_named seen.old ++ Inside function.now name.now ∷ [] }
    ensures functions { seen.new.functions.keys ≡ seen.old.functions.keys }
{
    if is_special(name) || scopes.is_function(name) {
        return true;
    }
    match seen.parameters.insert(Variable::Inside(function, name)) {
        Ok(added) => !added,
        Err(_) => {
            seen.is_refused = true;
            true
        }
    }
}

/// A name, if it is refused.
fn only_if(refused: bool, name: &[u8]) -> Option<&[u8]>
    ensures { view_place result ≡ only_if refused name.now }
{
    if refused { Some(name) } else { None }
}

/// Notes what a mark names, and gives the name if it is taken.
fn note<'a>(seen: &mut Seen<'a>, scopes: &Scopes<'a>, mark: Mark<'a>) -> Option<&'a [u8]>
    ensures taken { seen.new.is_refused ≡ false → (seen.old.is_refused ≡ false)
        × (view_place result ≡ duplicate (functions_in scopes.now) (functions_named seen.old)
        (parameters_named seen.old) (view_mark mark.entry)) }
    ensures functions { seen.new.is_refused ≡ false → result ≡ None → functions_named seen.new
        ≡ functions_named seen.old ++ defined (view_mark mark.entry ∷ []) }
    ensures parameters { seen.new.is_refused ≡ false → result ≡ None → parameters_named seen.new
        ≡ parameters_named seen.old ++ declared (view_mark mark.entry ∷ []) }
{
    match mark {
        Mark::Defined(name) => only_if(note_function(seen, name), name),
        Mark::Parameter(function, name) => {
            only_if(note_parameter(seen, scopes, function, name), name)
        }
        Mark::Used(_, _, name) | Mark::Given(_, _, _, name) => {
            only_if(scopes.is_function(name), name)
        }
        Mark::Called(_, _) | Mark::Computed(_, _) => None,
    }
}

/// The first name that stands for two things, where nothing is seen yet.
fn first_taken<'a>(seen: &mut Seen<'a>, scopes: &Scopes<'a>, marks: &[Mark<'a>]) -> Option<&'a [u8]>
    requires functions { seen.old.functions.keys ≡ [] }
    requires parameters { seen.old.parameters.keys ≡ [] }
    ensures { seen.new.is_refused ≡ false
        → view_place result ≡ first_duplicate (functions_in scopes.now) [] (view_marks marks.now) }
{
    for mark in marks {
        let taken = note(seen, scopes, *mark);
        if taken.is_some() {
            return taken;
        }
    }
    None
}

/// The first name that stands for two things.
pub(crate) fn first_duplicate<'a>(
    alloc: Global,
    scopes: &Scopes<'a>,
    marks: &[Mark<'a>],
) -> Result<Option<&'a [u8]>, AllocError>
    ensures { IfOk result (λ found. view_place found
        ≡ first_duplicate (functions_in scopes.now) [] (view_marks marks.now)) }
{
    let mut seen = Seen {
        functions: IndexSet::new(alloc),
        parameters: IndexSet::new(alloc),
        is_refused: false,
    };
    let found = first_taken(&mut seen, scopes, marks);
    if seen.is_refused {
        Err(AllocError)
    } else {
        Ok(found)
    }
}

/// The function of a call, if the script lacks it.
fn unknown<'a>(scopes: &Scopes<'a>, mark: Mark<'a>) -> Option<&'a [u8]>
    ensures { view_place result ≡ unknown (functions_in scopes.now) (view_mark mark.entry) }
{
    match mark {
        Mark::Called(function, _) => only_if(!scopes.is_function(function), function),
        _ => None,
    }
}

/// The function of a call, if it has fewer parameters than the call has arguments.
fn excess<'a>(scopes: &Scopes<'a>, mark: Mark<'a>) -> Option<&'a [u8]>
    ensures { view_place result ≡ excess (functions_in scopes.now) (view_mark mark.entry) }
{
    match mark {
        Mark::Called(function, count) => match scopes.parameters_of(function) {
            Some(parameters) => only_if(parameters.len() < count, function),
            None => None,
        },
        _ => None,
    }
}

/// The first call of a function that the script lacks.
pub(crate) fn first_unknown<'a>(scopes: &Scopes<'a>, marks: &[Mark<'a>]) -> Option<&'a [u8]>
    ensures { view_place result ≡ first (unknown (functions_in scopes.now)) (view_marks marks.now) }
{
    for mark in marks {
        let found = unknown(scopes, *mark);
        if found.is_some() {
            return found;
        }
    }
    None
}

/// The first call with too many arguments.
pub(crate) fn first_excess<'a>(scopes: &Scopes<'a>, marks: &[Mark<'a>]) -> Option<&'a [u8]>
    ensures { view_place result ≡ first (excess (functions_in scopes.now)) (view_marks marks.now) }
{
    for mark in marks {
        let found = excess(scopes, *mark);
        if found.is_some() {
            return found;
        }
    }
    None
}
