//! What is found in a script that is refused for its names.

ghost use Rattle.std.specs.Prelude.{◌≡◌, [], Option, OnOk, is_some, option_map, slice_get};
ghost use Rattle.awk_grammar.specs.Kinds.{Refusal, has_name, heads, is_function, specials};
ghost use Rattle.awk_grammar.specs.ViewStmt.{view_script};
ghost use Rattle.awk_resolve.specs.ViewNames.{names};
ghost use Rattle.awk_resolve.specs.ViewResolved.{IsCause};
ghost use Rattle.script_check.specs.Layout.{use_found, view_text};
ghost use Rattle.script_check.specs.Remarks.{Gains, trouble_remark, view_finding};
ghost use Rattle.script_check.specs.Troubles.{clash_found, defines, definition, first_as, first_clash, first_from, is_clash, is_definition, is_kind, is_named, is_parameter, is_taken, is_variable, kinds_found, names_again, names_variable, owner, refusal_found, same_naming, same_place, same_variable, taken_from, trouble_found, uses_as};
ghost use Rattle.script_check.specs.View.{view_place, view_use, view_uses};

use crate::finding::{Finding, push_found, said_of_trouble};
use crate::judged::{is_local, parameters_of};
use crate::matter::Trouble;
use crate::text::{Text, found_at, use_place};
use crate::uses::{Deed, Use};
use awk_grammar::Script;
use awk_resolve::ResolveFault;
use std::alloc::AllocError;

/// Whether it asks for an array, or for a scalar.
fn is_kind(array: bool, deed: Deed) -> bool
    ensures { result ≡ is_kind array deed }
{
    match deed {
        Deed::ReadsArray | Deed::SetsArray | Deed::ChangesArray | Deed::Clears => array,
        Deed::Reads | Deed::Sets | Deed::Changes | Deed::Joins => !array,
        _ => false,
    }
}

fn is_variable(deed: Deed) -> bool
    ensures { result ≡ is_variable deed }
{
    matches!(deed, Deed::Gives) || is_kind(true, deed) || is_kind(false, deed)
}

fn is_definition(deed: Deed) -> bool
    ensures { result ≡ is_definition deed }
{
    matches!(deed, Deed::Defines)
}

fn is_parameter(deed: Deed) -> bool
    ensures { result ≡ is_parameter deed }
{
    matches!(deed, Deed::Takes)
}

/// Whether both define a function, or both name a parameter.
fn same_naming(one: Deed, other: Deed) -> bool
    ensures { result ≡ same_naming one other }
{
    matches!(
        (one, other),
        (Deed::Defines, Deed::Defines) | (Deed::Takes, Deed::Takes)
    )
}

/// The special variables.
#[tactic(auto, unfolding(awk_grammar::specs::Kinds::special_arrays, awk_grammar::specs::Kinds::special_scalars))]
fn special_names() -> [&'static [u8]; 16]
    ensures { names result ≡ specials }
{
    [
        b"ARGV".as_slice(),
        b"ENVIRON".as_slice(),
        b"ARGC".as_slice(),
        b"CONVFMT".as_slice(),
        b"FILENAME".as_slice(),
        b"FNR".as_slice(),
        b"FS".as_slice(),
        b"NF".as_slice(),
        b"NR".as_slice(),
        b"OFMT".as_slice(),
        b"OFS".as_slice(),
        b"ORS".as_slice(),
        b"RLENGTH".as_slice(),
        b"RS".as_slice(),
        b"RSTART".as_slice(),
        b"SUBSEP".as_slice(),
    ]
}

/// Whether a name is one of these.
fn is_one_of(list: &[&[u8]], name: &[u8]) -> bool
    ensures { result ≡ has_name (names list.now) name.now }
{
    for other in list {
        if name == *other {
            return true;
        }
    }
    false
}

/// Whether a name is that of a special variable.
fn is_special(name: &[u8]) -> bool
    ensures { result ≡ has_name specials name.now }
{
    is_one_of(&special_names(), name)
}

/// Whether the script has a function of this name.
fn is_function(script: &Script, name: &[u8]) -> bool
    ensures { result ≡ is_function (heads (view_script script.now)) name.now }
{
    match parameters_of(script, name) {
        None => false,
        Some(_) => true,
    }
}

/// Whether both are the same function, or none.
fn same_place(one: Option<&[u8]>, other: Option<&[u8]>) -> bool
    ensures { result ≡ same_place (view_place one.entry) (view_place other.entry) }
{
    match (one, other) {
        (None, None) => true,
        (Some(a), Some(b)) => a == b,
        _ => false,
    }
}

/// The function whose parameter the name of a use is.
fn owner<'a>(script: &Script, used: &Use<'a>) -> Option<&'a [u8]>
    ensures { view_place result ≡ owner (view_script script.now) (view_use used.now) }
{
    if is_local(script, used.place, used.name) {
        used.place
    } else {
        None
    }
}

/// Whether two uses name the same variable, or parameter.
fn same_variable(script: &Script, one: &Use<'_>, other: &Use<'_>) -> bool
    ensures { result ≡ same_variable (view_script script.now) (view_use one.now) (view_use other.now) }
{
    one.name == other.name && same_place(owner(script, one), owner(script, other))
}

/// Whether a use names what another names: a function, or a parameter of its function.
fn names_again(used: &Use<'_>, other: &Use<'_>) -> bool
    ensures { result ≡ names_again (view_use used.now) (view_use other.now) }
{
    same_naming(other.deed, used.deed)
        && other.name == used.name
        && same_place(other.place, used.place)
}

/// Whether a use names what an earlier one names already.
fn is_named(before: &[Use<'_>], used: &Use<'_>) -> bool
    ensures { result ≡ is_named (view_uses before.now) (view_use used.now) }
{
    for other in before {
        if names_again(used, other) {
            return true;
        }
    }
    false
}

/// Whether a name stands for two things at a use.
fn is_taken(script: &Script, before: &[Use<'_>], used: &Use<'_>) -> bool
    ensures { result ≡ is_taken (view_script script.now) (view_uses before.now) (view_use used.now) }
{
    match used.deed {
        Deed::Defines => is_special(used.name) || is_named(before, used),
        Deed::Takes => {
            is_special(used.name) || is_function(script, used.name) || is_named(before, used)
        }
        deed => is_variable(deed) && is_function(script, used.name),
    }
}

/// The first use of this name at which it stands for two things.
fn first_taken(script: &Script, uses: &[Use<'_>], name: &[u8]) -> Option<usize>
    ensures { result ≡ taken_from (view_script script.now) name.now [] 0 (view_uses uses.now) }
{
    for i in 0..uses.len() {
        if uses[i].name == name && is_taken(script, &uses[..i], &uses[i]) {
            return Some(i);
        }
    }
    None
}

/// Whether a use defines the function of this name.
fn defines(name: &[u8], used: &Use<'_>) -> bool
    ensures { result ≡ defines name.now (view_use used.now) }
{
    is_definition(used.deed) && used.name == name
}

/// The place at which the function of this name is defined.
fn definition(name: &[u8], uses: &[Use<'_>]) -> Option<usize>
    ensures { result ≡ definition name.now (view_uses uses.now) }
{
    for i in 0..uses.len() {
        if defines(name, &uses[i]) {
            return Some(i);
        }
    }
    None
}

/// Whether another use is of the same variable, as an array or as a scalar.
fn uses_as(script: &Script, array: bool, used: &Use<'_>, other: &Use<'_>) -> bool
    ensures { result
        ≡ uses_as (view_script script.now) array (view_use used.now) (view_use other.now) }
{
    is_kind(array, other.deed) && same_variable(script, other, used)
}

/// The first use of the variable as an array, or as a scalar.
fn first_as(script: &Script, array: bool, used: &Use<'_>, uses: &[Use<'_>]) -> Option<usize>
    ensures { result
        ≡ first_as (view_script script.now) array (view_use used.now) (view_uses uses.now) }
{
    for i in 0..uses.len() {
        if uses_as(script, array, used, &uses[i]) {
            return Some(i);
        }
    }
    None
}

/// Whether a use is of a variable, or parameter, of this name.
fn names_variable(name: &[u8], used: &Use<'_>) -> bool
    ensures { result ≡ names_variable name.now (view_use used.now) }
{
    used.name == name && (is_variable(used.deed) || is_parameter(used.deed))
}

/// The first use of a variable, or parameter, of this name.
fn first_named(name: &[u8], uses: &[Use<'_>]) -> Option<usize>
    ensures { result ≡ first_from (names_variable name.now) 0 (view_uses uses.now) }
{
    for i in 0..uses.len() {
        if names_variable(name, &uses[i]) {
            return Some(i);
        }
    }
    None
}

/// Whether the variable of a use is used as an array, or as a scalar.
fn is_used_as(script: &Script, array: bool, used: &Use<'_>, all: &[Use<'_>]) -> bool
    ensures { result
        ≡ is_some (first_as (view_script script.now) array (view_use used.now) (view_uses all.now)) }
{
    match first_as(script, array, used, all) {
        None => false,
        Some(_) => true,
    }
}

/// Whether a use is of a variable of this name that is used both ways.
fn is_clash(script: &Script, name: &[u8], all: &[Use<'_>], used: &Use<'_>) -> bool
    ensures { result
        ≡ is_clash (view_script script.now) name.now (view_uses all.now) (view_use used.now) }
{
    names_variable(name, used)
        && is_used_as(script, true, used, all)
        && is_used_as(script, false, used, all)
}

/// The first use of this name that is of a variable of both kinds.
fn first_of_both(script: &Script, name: &[u8], uses: &[Use<'_>]) -> Option<usize>
    ensures { result ≡ first_from (is_clash (view_script script.now) name.now (view_uses uses.now)) 0
        (view_uses uses.now) }
{
    for i in 0..uses.len() {
        if is_clash(script, name, uses, &uses[i]) {
            return Some(i);
        }
    }
    None
}

/// The first use of this name that is of a variable of both kinds; where none is, the first that is of a variable.
fn first_clash(script: &Script, name: &[u8], uses: &[Use<'_>]) -> Option<usize>
    ensures { result ≡ first_clash (view_script script.now) name.now (view_uses uses.now) }
{
    match first_of_both(script, name, uses) {
        Some(at) => Some(at),
        None => first_named(name, uses),
    }
}

/// What is found at a use, by its number.
fn trouble_at<'a>(text: &Text<'_, 'a>, trouble: Trouble, at: usize) -> Option<Finding<'a>>
    ensures { option_map view_finding result
        ≡ use_found (view_text text.now) at (trouble_remark trouble) }
{
    let place = use_place(text, at)?;
    Some(found_at(text, place.number, said_of_trouble(trouble, place.name)))
}

/// Adds what is found at a use, if there is one.
fn push_trouble<'a>(
    out: &mut Vec<Finding<'a>>,
    text: &Text<'_, 'a>,
    trouble: Trouble,
    at: Option<usize>,
) -> Result<(), AllocError>
    ensures { OnOk result (Gains out.old.items out.new.items
        (trouble_found (view_text text.now) trouble at)) }
{
    match at {
        None => Ok(()),
        Some(at) => push_found(out, trouble_at(text, trouble, at)),
    }
}

/// The use of this number, if there is one.
fn use_at<'a>(uses: &[Use<'a>], at: usize) -> Option<Use<'a>>
    ensures { result ≡ slice_get uses.now at }
{
    if at < uses.len() {
        Some(uses[at])
    } else {
        None
    }
}

/// Adds what is found of a variable of both kinds, of which this is a use: the first place, and one of each kind.
fn push_kinds_of<'a>(
    out: &mut Vec<Finding<'a>>,
    text: &Text<'_, 'a>,
    script: &Script,
    uses: &[Use<'_>],
    at: usize,
    used: &Use<'_>,
) -> Result<(), AllocError>
    ensures { OnOk result (Gains out.old.items out.new.items (kinds_found (view_text text.now)
        (view_script script.now) (view_uses uses.now) at (Some (view_use used.now)))) }
{
    let array = first_as(script, true, used, uses);
    let scalar = first_as(script, false, used, uses);
    push_trouble(out, text, Trouble::KindClash, Some(at))?;
    push_trouble(out, text, Trouble::AsArray, array)?;
    push_trouble(out, text, Trouble::AsScalar, scalar)
}

/// Adds what is found of a variable of both kinds, by the number of its first use.
fn push_kinds<'a>(
    out: &mut Vec<Finding<'a>>,
    text: &Text<'_, 'a>,
    script: &Script,
    uses: &[Use<'_>],
    at: usize,
) -> Result<(), AllocError>
    ensures { OnOk result (Gains out.old.items out.new.items (kinds_found (view_text text.now)
        (view_script script.now) (view_uses uses.now) at (slice_get (view_uses uses.now) at))) }
{
    match use_at(uses, at) {
        None => Ok(()),
        Some(used) => push_kinds_of(out, text, script, uses, at, &used),
    }
}

/// Adds what is found of a name of both kinds.
fn push_clash<'a>(
    out: &mut Vec<Finding<'a>>,
    text: &Text<'_, 'a>,
    script: &Script,
    uses: &[Use<'_>],
    at: Option<usize>,
) -> Result<(), AllocError>
    ensures { OnOk result (Gains out.old.items out.new.items (clash_found (view_text text.now)
        (view_script script.now) (view_uses uses.now) at)) }
{
    match at {
        None => Ok(()),
        Some(at) => push_kinds(out, text, script, uses, at),
    }
}

/// Adds what is found in a script that is refused for a name, but for calls, of which each use tells by itself.
pub(crate) fn push_refusal<'a>(
    out: &mut Vec<Finding<'a>>,
    text: &Text<'_, 'a>,
    script: &Script,
    uses: &[Use<'_>],
    fault: &ResolveFault,
) -> Result<(), AllocError>
    ensures { (refusal : Option Refusal) → IsCause fault.now refusal
        → OnOk result (Gains out.old.items out.new.items (refusal_found (view_text text.now)
        (view_script script.now) (view_uses uses.now) refusal)) }
{
    match fault {
        ResolveFault::TooMany(name) => {
            push_trouble(
                out,
                text,
                Trouble::TooMany,
                definition(name.as_slice(), uses),
            )
        }
        ResolveFault::DuplicateName(name) => {
            let at = first_taken(script, uses, name.as_slice());
            push_trouble(out, text, Trouble::DuplicateName, at)
        }
        ResolveFault::KindClash(name) => {
            let at = first_clash(script, name.as_slice(), uses);
            push_clash(out, text, script, uses, at)
        }
        ResolveFault::UnknownFunction(_) | ResolveFault::ArgCount(_) => Ok(()),
        ResolveFault::NoMemory => Err(AllocError),
    }
}
