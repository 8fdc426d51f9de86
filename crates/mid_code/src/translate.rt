//! From a script with the kinds of its names to its code.

ghost use Rattle.std.specs.Prelude.{◌≡◌, List, map, IfOk};
ghost use Rattle.awk_resolve.specs.ViewKinds.{view_name, view_name_kinds};
ghost use Rattle.awk_grammar.specs.ViewStmt.{view_script, view_stmts};
ghost use Rattle.sem_scripts.specs.Kinds.{bodies as bodies_of};
ghost use Rattle.mid_program.specs.MidMeaning.{EndsAs};
ghost use Rattle.mid_program.specs.Translation.{declared_code, kind_of, program_of, program_with, routine_code};
ghost use Rattle.mid_program.specs.View.{view_declared, view_kind, view_mid, view_routine, view_texts};
ghost use Rattle.mid_code.specs.ViewNames.{script_of, view_bodies};
ghost use Rattle.mid_code.specs.ViewScope.{scope_of, texts_of as texts_in};
ghost use Rattle.mid_code.specs.ViewScript.{view_script_code};

use crate::bodies::{bodies, body_at};
use crate::fallible::{all_three, push, push_made};
use crate::item::{Actions, code_of_items, reads_records};
use crate::lenders::none_lend;
use crate::names::Names;
use crate::scope::Scope;
use crate::statement::steps;
use crate::texts::texts_of;
use awk_grammar::Stmt;
use awk_resolve::{NameKind, Resolved};
use indexmap::IndexSet;
use mid_program::{Declared, Kind, Mid, Routine};
use std::alloc::{AllocError, Global};

/// What a name of the program is; all scalars are boxed.
fn kind_of(name: &NameKind<'_>) -> Kind
    ensures { view_kind result ≡ kind_of (view_name name.now) }
{
    if name.is_array {
        Kind::Array
    } else {
        Kind::Boxed
    }
}

fn kinds_of(alloc: Global, names: &[NameKind<'_>]) -> Result<Vec<Kind>, AllocError>
    ensures { IfOk result (λ kinds. map view_kind kinds.items
        ≡ map kind_of (view_name_kinds names.now)) }
{
    let mut kinds = Vec::new(alloc);
    for name in names {
        push(&mut kinds, kind_of(name))?;
    }
    Ok(kinds)
}

/// What is announced of a global name.
fn announced(alloc: Global, name: &NameKind<'_>) -> Result<Declared, AllocError>
    ensures { IfOk result (λ found. view_declared found ≡ declared_code (view_name name.now)) }
{
    let kind = kind_of(name);
    let name = name.name.to_vec(alloc)?;
    Ok(Declared {
        name,
        kind,
        mixed: false,
    })
}

/// What is announced of the global names.
fn declared(alloc: Global, names: &[NameKind<'_>]) -> Result<Vec<Declared>, AllocError>
    ensures { IfOk result (λ found. map view_declared found.items
        ≡ map declared_code (view_name_kinds names.now)) }
{
    let mut found = Vec::new(alloc);
    for name in names {
        push_made(&mut found, announced(alloc, name))?;
    }
    Ok(found)
}

/// The code of a function.
#[tactic(auto, unfolding(crate::specs::ViewScope::scope_of))]
fn routine(scope: &Scope<'_>, name: &[u8], body: &[Stmt]) -> Result<Routine, AllocError>
    ensures { IfOk result (λ found. view_routine found
        ≡ routine_code (texts_in scope.now) (scope_of scope.now).script (record {
          name = name.now;
          parameters = (scope_of scope.now).parameters;
          body = view_stmts body.now;
        })) }
{
    let parameters = kinds_of(scope.alloc, scope.parameters);
    let name = name.to_vec(scope.alloc);
    let (name, parameters, body) = all_three(name, parameters, steps(scope, body))?;
    Ok(Routine {
        name,
        parameters,
        body,
    })
}

/// The code of the functions.
fn routines(
    alloc: Global,
    names: &Names<'_>,
    texts: &IndexSet<Vec<u8>>,
    bodies: &[&[Stmt]],
) -> Result<Vec<Routine>, AllocError>
    requires { view_bodies bodies.now ≡ bodies_of (view_script names.now.resolved.now.script.now) }
    ensures { IfOk result (λ found. map view_routine found.items
        ≡ map (routine_code (view_texts texts.now.keys) (script_of names.now.resolved.now))
        (script_of names.now.resolved.now).functions) }
{
    let mut found = Vec::new(alloc);
    let functions = &names.resolved.functions;
    for i in 0..functions.len() {
        let function = &functions[i];
        let scope = Scope {
            alloc,
            names,
            texts,
            parameters: &function.parameters,
        };
        push(
            &mut found,
            routine(&scope, function.name, body_at(bodies, i))?,
        )?;
    }
    Ok(found)
}

/// A script's code without its texts and its lenders.
#[derive(Drop)]
struct ScriptCode {
    globals: Vec<Declared>,
    routines: Vec<Routine>,
    reads: bool,
    actions: Actions,
}

/// The code of a script whose names are known by their hashes.
fn code_by_names(
    alloc: Global,
    names: &Names<'_>,
    texts: &IndexSet<Vec<u8>>,
    bodies: &[&[Stmt]],
) -> Result<ScriptCode, AllocError>
    requires { view_bodies bodies.now ≡ bodies_of (view_script names.now.resolved.now.script.now) }
    ensures { IfOk result (λ found. view_script_code (view_texts texts.now.keys) found
        ≡ program_with (view_texts texts.now.keys) (script_of names.now.resolved.now)) }
{
    let globals = declared(alloc, &names.resolved.globals);
    let routines = routines(alloc, names, texts, bodies);
    let items = names.resolved.script.items.as_slice();
    let scope = Scope {
        alloc,
        names,
        texts,
        parameters: &[],
    };
    let actions = code_of_items(&scope, items);
    let (globals, routines, actions) = all_three(globals, routines, actions)?;
    Ok(ScriptCode {
        globals,
        routines,
        reads: reads_records(items),
        actions,
    })
}

/// The code of a script, by its texts and the bodies of its functions.
fn script_code(
    alloc: Global,
    resolved: &Resolved<'_>,
    texts: &IndexSet<Vec<u8>>,
    bodies: &[&[Stmt]],
) -> Result<ScriptCode, AllocError>
    requires { view_bodies bodies.now ≡ bodies_of (view_script resolved.now.script.now) }
    ensures { IfOk result (λ found. view_script_code (view_texts texts.now.keys) found
        ≡ program_with (view_texts texts.now.keys) (script_of resolved.now)) }
{
    let names = Names::new(alloc, resolved)?;
    code_by_names(alloc, &names, texts, bodies)
}

fn with_texts(alloc: Global, texts: IndexSet<Vec<u8>>, code: ScriptCode) -> Result<Mid, AllocError>
    ensures { IfOk result (λ mid. view_mid mid ≡ view_script_code (view_texts texts.keys) code) }
{
    let lenders = none_lend(alloc, &code.routines)?;
    let ScriptCode {
        globals,
        routines,
        reads,
        actions,
    } = code;
    let Actions {
        begin,
        each,
        end,
        ranges,
    } = actions;
    Ok(Mid {
        texts,
        lenders,
        globals,
        routines,
        ranges,
        begin,
        reads,
        items: each,
        end,
    })
}

/// The mid code of a script: at each job, input, outside and number of turns it ends as the script does, with the same output.
///
/// # Errors
///
/// [`AllocError`] where there is no memory for the code.
pub fn to_mid(alloc: Global, resolved: &Resolved<'_>) -> Result<Mid, AllocError>
    ensures code { IfOk result (λ mid. view_mid mid ≡ program_of (script_of resolved.now)) }
    ensures same_meaning { IfOk result (λ mid. EndsAs (view_mid mid) (script_of resolved.now)) }
{
    let bodies = bodies(alloc, resolved.script)?;
    let texts = texts_of(alloc, resolved, &bodies)?;
    let code = script_code(alloc, resolved, &texts, &bodies)?;
    with_texts(alloc, texts, code)
}
