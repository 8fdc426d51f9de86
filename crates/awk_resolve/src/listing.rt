//! The names of a script with their kinds.

ghost use Rattle.std.specs.Prelude.{◌≡◌, true, false, map, IfOk, MatchOption};
ghost use Rattle.awk_grammar.specs.ViewStmt.{view_names};
ghost use Rattle.awk_grammar.specs.Kinds.{name_of, is_global, named, head_keys, functions_by, globals_by};
ghost use Rattle.awk_resolve.specs.ViewNames.{view_heads, view_variable};
ghost use Rattle.awk_resolve.specs.ViewKinds.{view_name_kinds};
ghost use Rattle.awk_resolve.specs.ViewFunctions.{view_functions};
ghost use Rattle.awk_resolve.specs.ViewSets.{variables_in, arrays_in};

use crate::function_names::{FunctionNames, NameKind};
use crate::scopes::{Head, Variable};
use crate::sets::Kinds;
use crate::special::is_special;
use latched::LatchedVec;
use std::alloc::{AllocError, Global};

/// A function with the kinds of its parameters.
fn function_names<'a>(
    alloc: Global,
    kinds: &Kinds<'a>,
    head: Head<'a>,
) -> Result<FunctionNames<'a>, AllocError>
    ensures name { IfOk result (λ found. found.name ≡ head.entry.name) }
    ensures parameters { IfOk result
        (λ found. view_name_kinds found.parameters.items ≡ map (named (arrays_in kinds.now))
        (head_keys head.entry.name.now (view_names head.entry.parameters.now))) }
{
    let mut all = LatchedVec::new(alloc);
    for parameter in head.parameters {
        let name = parameter.as_slice();
        let is_array = kinds.is_array(Variable::Inside(head.name, name));
        all.push(NameKind { name, is_array });
    }
    let parameters = all.into_vec()?;
    Ok(FunctionNames {
        name: head.name,
        parameters,
    })
}

/// The functions with the kinds of their parameters.
pub(crate) fn listed_functions<'a>(
    alloc: Global,
    kinds: &Kinds<'a>,
    heads: &[Head<'a>],
) -> Result<Vec<FunctionNames<'a>>, AllocError>
    ensures { IfOk result (λ found. view_functions found.items
        ≡ functions_by (arrays_in kinds.now) (view_heads heads.now)) }
{
    let mut all = LatchedVec::new(alloc);
    for head in heads {
        all.push_made(function_names(alloc, kinds, *head));
    }
    all.into_vec()
}

/// The name of a variable that is neither special nor a parameter.
fn global_name<'a>(variable: Variable<'a>) -> Option<&'a [u8]>
    ensures { MatchOption result (is_global (view_variable variable.entry) ≡ false)
        (λ name. (is_global (view_variable variable.entry) ≡ true)
        × (name.now ≡ name_of (view_variable variable.entry))) }
{
    match variable {
        Variable::Whole(name) if !is_special(name) => Some(name),
        _ => None,
    }
}

/// The globals with their kinds.
pub(crate) fn listed_globals<'a>(
    alloc: Global,
    kinds: &Kinds<'a>,
) -> Result<Vec<NameKind<'a>>, AllocError>
    ensures { IfOk result (λ found. view_name_kinds found.items
        ≡ globals_by (arrays_in kinds.now) (variables_in kinds.now)) }
{
    let mut all = LatchedVec::new(alloc);
    for variable in kinds.variables.as_slice() {
        match global_name(*variable) {
            None => {}
            Some(name) => {
                let is_array = kinds.is_array(*variable);
                all.push(NameKind { name, is_array });
            }
        }
    }
    all.into_vec()
}
