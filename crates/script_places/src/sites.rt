//! Where the frames of a script's run stand: program points, lines, functions.
ghost use Rattle.std.specs.Prelude.{◌≡◌, ◌≤◌, IfOk, length, map, option_and_then, slice_get};
ghost use Rattle.awk_grammar.specs.ViewStmt.{view_script};
ghost use Rattle.awk_tokens.specs.Views.{spelled};
ghost use Rattle.awk_tree.specs.Lines.{function_names, line_of};
ghost use Rattle.script_places.specs.Sites.{AreSites, IsSite, OfSource};

use awk_parse::parse;
use awk_tokens::{Token, tokens};
use awk_tree::{Script, function_named, line_of};
use awk_values::Bytes;
use host_imports::Import;
use run_report::CallSite;
use sem_primitives::Primitive;
use std::alloc::{AllocError, Global};
use wasm_machine::{Machine, Place};

/// How many sites are told at most: what is at work, and calls that wait.
const MOST_SITES: usize = 8;

/// The line of a place in a function of the module.
fn line_in(
    alloc: Global,
    tokens: &[Token<'_>],
    tree: &Script,
    function: usize,
    place: Option<usize>,
) -> Result<Option<usize>, AllocError>
    ensures { IfOk result (λ line. line ≡ option_and_then (line_of (map spelled tokens.now)
        (view_script tree.now) function) place) }
{
    match place {
        Some(number) => line_of(alloc, tokens, tree, function, number),
        None => Ok(None),
    }
}

/// The name of a function of the script.
fn name_of(alloc: Global, tree: &Script, function: usize) -> Result<Option<Bytes>, AllocError>
    ensures { IfOk result (λ name. name
        ≡ slice_get (function_names (view_script tree.now)) function) }
{
    let Some(name) = function_named(tree, function) else {
        return Ok(None);
    };
    match Bytes::from_slice(alloc, name) {
        Ok(name) => Ok(Some(name)),
        Err(_) => Err(AllocError),
    }
}

/// What is told of a place. In the loop over records, outside of all statements, `next_main` is called.
fn site_of(
    alloc: Global,
    tokens: &[Token<'_>],
    tree: &Script,
    machine: &Machine,
    at: Place,
) -> Result<CallSite, AllocError>
    ensures { IfOk result (IsSite (map spelled tokens.now) (view_script tree.now) machine.now.program at) }
{
    let next_record = Import::OfPrimitive(Primitive::NextMain);
    let place = machine.statement(at, next_record.number());
    let line = line_in(alloc, tokens, tree, at.function, place)?;
    let function = name_of(alloc, tree, at.function)?;
    Ok(CallSite {
        place,
        line,
        function,
    })
}

/// The sites of so many frames, by the script's tokens and its tree.
fn sites_in(
    alloc: Global,
    tokens: &[Token<'_>],
    tree: &Script,
    machine: &Machine,
    count: usize,
) -> Result<Vec<CallSite>, AllocError>
    ensures sites { IfOk result (λ sites. AreSites (map spelled tokens.now) (view_script tree.now)
        machine.now.program machine.now.conf sites.items) }
    ensures count { IfOk result (λ sites. length sites.items ≡ count) }
{
    let mut sites = Vec::new(alloc);
    for number in 0..count {
        let Some(place) = machine.place(number) else {
            return Err(AllocError);
        };
        let site = site_of(alloc, tokens, tree, machine, place)?;
        sites.push(site)?;
    }
    Ok(sites)
}

/// The sites of so many frames, by the script's text.
pub fn sites_of(
    alloc: Global,
    script: &[u8],
    machine: &Machine,
    count: usize,
) -> Result<Vec<CallSite>, AllocError>
    ensures sites { IfOk result (λ sites. OfSource script.now (λ tokens tree. AreSites tokens tree
        machine.now.program machine.now.conf sites.items)) }
    ensures count { IfOk result (λ sites. length sites.items ≡ count) }
{
    let Ok(tokens) = tokens(alloc, script) else {
        return Err(AllocError);
    };
    let Ok(tree) = parse(alloc, &tokens) else {
        return Err(AllocError);
    };
    sites_in(alloc, &tokens, &tree, machine, count)
}

/// Of how many frames it is told where they stand.
pub fn told_of(waiting: usize) -> usize
    ensures within { result ≤ waiting }
    ensures most { result ≤ 8 }
{
    if waiting < MOST_SITES {
        waiting
    } else {
        MOST_SITES
    }
}
