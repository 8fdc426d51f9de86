//! From a script to the kinds of its names.

ghost use Rattle.std.specs.Prelude.{◌≡◌, List, None, IfOk, IfErr, OnOk};
ghost use Rattle.awk_grammar.specs.Trees.{Item};
ghost use Rattle.awk_grammar.specs.ViewStmt.{view_script};
ghost use Rattle.awk_grammar.specs.Marks.{Kind, script_marks};
ghost use Rattle.awk_grammar.specs.Least.{IsLeast};
ghost use Rattle.awk_grammar.specs.Kinds.{functions_by, globals_by, heads, is_used_as, members, name_refusal, pairs, refusal, refusal_by, resolved, resolved_by};
ghost use Rattle.awk_resolve.specs.View.{view_marks};
ghost use Rattle.awk_resolve.specs.ViewKinds.{view_name_kinds};
ghost use Rattle.awk_resolve.specs.ViewFunctions.{view_functions};
ghost use Rattle.awk_resolve.specs.ViewRefused.{view_maybe_refused};
ghost use Rattle.awk_resolve.specs.ViewResolved.{IsCause, view_resolved};
ghost use Rattle.awk_resolve.specs.ViewScopes.{functions_in};
ghost use Rattle.awk_resolve.specs.ViewSets.{variables_in, arrays_in};

use crate::fault::{Reason, Refused, ResolveFault};
use crate::kinds::kinds_of;
use crate::listing::{listed_functions, listed_globals};
use crate::mark::Mark;
use crate::refusals::{first_duplicate, first_excess, first_unknown, too_many};
use crate::resolved::Resolved;
use crate::scopes::Scopes;
use crate::sets::Kinds;
use crate::walk_stmt::marks_of;
use awk_grammar::Script;
use std::alloc::{AllocError, Global};

/// Why a script is refused for its names, kinds aside.
fn name_refusal<'a>(
    alloc: Global,
    scopes: &Scopes<'a>,
    marks: &[Mark<'a>],
) -> Result<Option<Refused<'a>>, AllocError>
    ensures { IfOk result (λ found. view_maybe_refused found
        ≡ name_refusal (functions_in scopes.now) (view_marks marks.now)) }
{
    if let Some(name) = too_many(&scopes.heads) {
        let reason = Reason::TooMany;
        return Ok(Some(Refused { reason, name }));
    }
    if let Some(name) = first_duplicate(alloc, scopes, marks)? {
        let reason = Reason::DuplicateName;
        return Ok(Some(Refused { reason, name }));
    }
    if let Some(name) = first_unknown(scopes, marks) {
        let reason = Reason::UnknownFunction;
        return Ok(Some(Refused { reason, name }));
    }
    if let Some(name) = first_excess(scopes, marks) {
        let reason = Reason::ArgCount;
        return Ok(Some(Refused { reason, name }));
    }
    Ok(None)
}

/// The names with their kinds.
fn listed<'a>(
    alloc: Global,
    script: &'a Script,
    scopes: &Scopes<'a>,
    kinds: &Kinds<'a>,
) -> Result<Resolved<'a>, AllocError>
    ensures functions { IfOk result (λ names. view_functions names.functions.items
        ≡ functions_by (arrays_in kinds.now) (functions_in scopes.now)) }
    ensures globals { IfOk result (λ names. view_name_kinds names.globals.items
        ≡ globals_by (arrays_in kinds.now) (variables_in kinds.now)) }
    ensures script { IfOk result (λ names. names.script.now ≡ script.now) }
{
    let functions = listed_functions(alloc, kinds, &scopes.heads)?;
    let globals = listed_globals(alloc, kinds)?;
    Ok(Resolved {
        script,
        functions,
        globals,
    })
}

/// The names of a script that says this of names, which has these functions.
fn resolve_in<'a>(
    alloc: Global,
    script: &'a Script,
    scopes: &Scopes<'a>,
    marks: &[Mark<'a>],
) -> Result<Resolved<'a>, ResolveFault>
    ensures fine { OnOk result
        (refusal_by (functions_in scopes.now) (view_marks marks.now) ≡ None) }
    ensures kinds { IfOk result (λ names. view_resolved names
        ≡ resolved_by (functions_in scopes.now) (view_marks marks.now)) }
    ensures script { IfOk result (λ names. names.script.now ≡ script.now) }
    ensures refused { IfErr result
        (λ fault. IsCause fault (refusal_by (functions_in scopes.now) (view_marks marks.now))) }
{
    if let Some(refused) = name_refusal(alloc, scopes, marks)? {
        return Err(refused.fault(alloc));
    }
    let kinds = kinds_of(alloc, scopes, marks)?;
    if let Some(name) = kinds.first_clash(scopes, marks) {
        let reason = Reason::KindClash;
        return Err(Refused { reason, name }.fault(alloc));
    }
    Ok(listed(alloc, script, scopes, &kinds)?)
}

/// Gives each name of a script its kind (POSIX.1-2017 awk, "User-Defined Functions"): an array if it is used as one or given for a parameter that is
/// one, a scalar otherwise. It borrows the script.
///
/// # Errors
///
/// The first of these that there is, each with the name at the first place in the script: [`ResolveFault::TooMany`], [`ResolveFault::DuplicateName`],
/// [`ResolveFault::UnknownFunction`], [`ResolveFault::ArgCount`], [`ResolveFault::KindClash`]. [`ResolveFault::NoMemory`] where there is no memory.
pub fn resolve(alloc: Global, script: &Script) -> Result<Resolved<'_>, ResolveFault>
    ensures fine { OnOk result (refusal (view_script script.now) ≡ None) }
    ensures kinds { IfOk result (λ names. view_resolved names ≡ resolved (view_script script.now)) }
    ensures script { IfOk result (λ names. names.script.now ≡ script.now) }
    ensures refused { IfErr result (λ fault. IsCause fault (refusal (view_script script.now))) }
{
    let marks = marks_of(alloc, script)?;
    let scopes = Scopes::new(alloc, script)?;
    resolve_in(alloc, script, &scopes, &marks)
}

/// The names used as arrays, and those used as scalars, are the least sets: they have the names used so where they stand, and a bare name given for a
/// parameter that they have, and they are within every set that does.
pub fn kinds_are_least()
    ensures { (kind : Kind) (script : List Item)
        → IsLeast (is_used_as kind (heads script) (script_marks script))
        (members kind (heads script) (script_marks script))
        (pairs (heads script) (script_marks script)) }
{}
