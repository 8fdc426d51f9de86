//! The bodies of functions.

ghost use Rattle.std.specs.Prelude.{◌≡◌, List, ◌∷◌, ◌++◌, IfOk, OnOk};
ghost use Rattle.awk_grammar.specs.Trees.{Item as PlainItem};
ghost use Rattle.awk_grammar.specs.ViewStmt.{view_item, view_script, view_stmts};
ghost use Rattle.sem_scripts.specs.Kinds.{bodies as bodies_of};
ghost use Rattle.mid_code.specs.ViewBodies.{body_in};
ghost use Rattle.mid_code.specs.ViewNames.{view_bodies};

use crate::fallible::push;
use awk_grammar::{Item, Script, Stmt};
use std::alloc::{AllocError, Global};

/// Adds the body of an item that is a function.
fn push_body<'a>(found: &mut Vec<&'a [Stmt]>, item: &'a Item) -> Result<(), AllocError>
    ensures { OnOk result ((items : List PlainItem) → view_bodies found.new.items ++ bodies_of items
        ≡ view_bodies found.old.items ++ bodies_of (view_item item.now ∷ items)) }
{
    match item {
        Item::Function(_, _, body) => push(found, body.as_slice()),
        _ => Ok(()),
    }
}

/// The bodies of the functions, in the order of the script.
pub(crate) fn bodies<'a>(alloc: Global, script: &'a Script) -> Result<Vec<&'a [Stmt]>, AllocError>
    ensures { IfOk result (λ found. view_bodies found.items ≡ bodies_of (view_script script.now)) }
{
    let items = script.items.as_slice();
    let mut found = Vec::new(alloc);
    for item in items {
        push_body(&mut found, item)?;
    }
    Ok(found)
}

/// The body of a function, by its number.
pub(crate) fn body_at<'a>(bodies: &[&'a [Stmt]], function: usize) -> &'a [Stmt]
    ensures { view_stmts result.now ≡ body_in (view_bodies bodies.now) function }
{
    match bodies.get(function) {
        Some(body) => body,
        None => &[],
    }
}
