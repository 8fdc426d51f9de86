//! What is to be said of each use of a script.

ghost use Rattle.std.specs.Prelude.{◌≡◌, IfOk, length, option_map};
ghost use Rattle.awk_grammar.specs.Kinds.{has_name, heads, parameters_of};
ghost use Rattle.awk_grammar.specs.ViewStmt.{view_names, view_script};
ghost use Rattle.awk_resolve.specs.ViewKinds.{view_name_kinds};
ghost use Rattle.script_check.specs.Matters.{asks, call_matter, global_matter, has_whole, is_local, is_whole, kind_of, matter, matters, never_assigned, never_read, only_if, sets, shows};
ghost use Rattle.script_check.specs.View.{view_place, view_use, view_uses};

use crate::matter::{Aspect, Matter};
use crate::uses::{Deed, Use};
use awk_grammar::{Item, Script};
use awk_resolve::NameKind;
use std::alloc::{AllocError, Global};

/// Whether it asks for a variable.
fn asks(deed: Deed) -> bool
    ensures { result ≡ asks deed }
{
    matches!(
        deed,
        Deed::Reads
            | Deed::Joins
            | Deed::Changes
            | Deed::Gives
            | Deed::ReadsArray
            | Deed::ChangesArray
    )
}

/// Whether it assigns to a variable.
fn sets(deed: Deed) -> bool
    ensures { result ≡ sets deed }
{
    matches!(
        deed,
        Deed::Sets | Deed::Changes | Deed::SetsArray | Deed::ChangesArray
    )
}

/// Whether it is of this aspect.
fn shows(aspect: Aspect, deed: Deed) -> bool
    ensures { result ≡ shows aspect deed }
{
    match aspect {
        Aspect::Calling => matches!(deed, Deed::Calls(_)),
        Aspect::Asking => asks(deed),
        Aspect::Setting => sets(deed),
    }
}

/// A matter, if it is so.
fn only_if(holds: bool, matter: Matter) -> Option<Matter>
    ensures { result ≡ only_if holds matter }
{
    if holds { Some(matter) } else { None }
}

/// The parameters of a function of the script.
pub(crate) fn parameters_of<'a>(script: &'a Script, function: &[u8]) -> Option<&'a [Vec<u8>]>
    ensures { option_map (λ p. view_names p.now) result
        ≡ parameters_of (heads (view_script script.now)) function.now }
{
    for item in &script.items {
        if let Item::Function(name, parameters, _) = item {
            if function == name.as_slice() {
                return Some(parameters.as_slice());
            }
        }
    }
    None
}

fn is_among(names: &[Vec<u8>], name: &[u8]) -> bool
    ensures { result ≡ has_name (view_names names.now) name.now }
{
    for other in names {
        if name == other.as_slice() {
            return true;
        }
    }
    false
}

/// Whether a name is a parameter's in this place.
pub(crate) fn is_local(script: &Script, place: Option<&[u8]>, name: &[u8]) -> bool
    ensures { result ≡ is_local (view_script script.now) (view_place place.entry) name.now }
{
    let Some(function) = place else {
        return false;
    };
    match parameters_of(script, function) {
        Some(parameters) => is_among(parameters, name),
        None => false,
    }
}

/// Whether it is a use of the whole script's variable, or function, of this name.
fn is_whole(script: &Script, aspect: Aspect, name: &[u8], used: &Use<'_>) -> bool
    ensures { result ≡ is_whole (view_script script.now) aspect name.now (view_use used.now) }
{
    shows(aspect, used.deed) && name == used.name && !is_local(script, used.place, used.name)
}

/// Whether there is such a use.
fn has_whole(script: &Script, aspect: Aspect, name: &[u8], uses: &[Use<'_>]) -> bool
    ensures { result ≡ has_whole (view_script script.now) aspect name.now (view_uses uses.now) }
{
    for used in uses {
        if is_whole(script, aspect, name, used) {
            return true;
        }
    }
    false
}

/// What is to be said of a call with so many arguments.
fn call_matter(script: &Script, function: &[u8], arguments: usize) -> Option<Matter>
    ensures { result ≡ call_matter (view_script script.now) function.now arguments }
{
    match parameters_of(script, function) {
        None => Some(Matter::UnknownFunction),
        Some(parameters) => only_if(parameters.len() < arguments, Matter::ArgCount),
    }
}

/// Whether a variable of the whole script is an array; none where there is no variable of this name.
fn kind_of(globals: &[NameKind<'_>], name: &[u8]) -> Option<bool>
    ensures { result ≡ kind_of (view_name_kinds globals.now) name.now }
{
    for global in globals {
        if name == global.name {
            return Some(global.is_array);
        }
    }
    None
}

/// Whether a variable is never assigned to, and this is the first use that asks for it.
fn never_assigned(script: &Script, before: &[Use<'_>], all: &[Use<'_>], used: &Use<'_>) -> bool
    ensures { result ≡ never_assigned (view_script script.now) (view_uses before.now)
        (view_uses all.now) (view_use used.now) }
{
    is_whole(script, Aspect::Asking, used.name, used)
        && !has_whole(script, Aspect::Setting, used.name, all)
        && !has_whole(script, Aspect::Asking, used.name, before)
}

/// Whether a variable is never asked for, and this is the first use that assigns to it.
fn never_read(script: &Script, before: &[Use<'_>], all: &[Use<'_>], used: &Use<'_>) -> bool
    ensures { result ≡ never_read (view_script script.now) (view_uses before.now)
        (view_uses all.now) (view_use used.now) }
{
    is_whole(script, Aspect::Setting, used.name, used)
        && !has_whole(script, Aspect::Asking, used.name, all)
        && !has_whole(script, Aspect::Setting, used.name, before)
}

/// What is to be said of a use of a variable of this kind, if it is one of the whole script.
fn global_matter(
    script: &Script,
    before: &[Use<'_>],
    all: &[Use<'_>],
    used: &Use<'_>,
    kind: Option<bool>,
) -> Option<Matter>
    ensures { result ≡ global_matter (view_script script.now) (view_uses before.now)
        (view_uses all.now) (view_use used.now) kind }
{
    let array = kind?;
    if !array && never_assigned(script, before, all, used) {
        return Some(Matter::NeverAssigned);
    }
    only_if(never_read(script, before, all, used), Matter::NeverRead)
}

/// What is to be said of a use, behind these and among all.
fn matter(
    script: &Script,
    globals: &[NameKind<'_>],
    before: &[Use<'_>],
    all: &[Use<'_>],
    used: &Use<'_>,
) -> Option<Matter>
    ensures { result ≡ matter (view_script script.now) (view_name_kinds globals.now)
        (view_uses before.now) (view_uses all.now) (view_use used.now) }
{
    match used.deed {
        Deed::Calls(arguments) => call_matter(script, used.name, arguments),
        Deed::Defines => {
            let called = has_whole(script, Aspect::Calling, used.name, all);
            only_if(!called, Matter::NeverCalled)
        }
        Deed::Joins => Some(Matter::OnlyJoins),
        Deed::Assigns(whole) => only_if(whole, Matter::AssignedCondition),
        Deed::Divides(uneven) => only_if(uneven, Matter::UnevenQuotient),
        _ => global_matter(script, before, all, used, kind_of(globals, used.name)),
    }
}

/// What is to be said of each use of a script, in their order. The globals are those of the script with their kinds; where there are none nothing is said of
/// variables.
///
/// # Errors
///
/// Where memory is wanting.
pub fn matters(
    alloc: Global,
    script: &Script,
    globals: &[NameKind<'_>],
    uses: &[Use<'_>],
) -> Result<Vec<Option<Matter>>, AllocError>
    ensures { IfOk result (λ found. found.items
        ≡ matters (view_script script.now) (view_name_kinds globals.now) uses.now (length uses.now)) }
{
    let mut found = Vec::new(alloc);
    for i in 0..uses.len() {
        found.push(matter(script, globals, &uses[..i], uses, &uses[i]))?;
    }
    Ok(found)
}
