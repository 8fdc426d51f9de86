//! From the tree of an expression to nodes, each built with what comes behind it.
ghost use Rattle.std.specs.Prelude.{◌≡◌, ◌+◌, ◌≤◌, ℕ, IfOk, List, None, OnOk, Some, length, slice_get};
ghost use Rattle.ere_syntax.specs.Matches.{Matches};
ghost use Rattle.ere_syntax.specs.Tree.{Repeat};
ghost use Rattle.ere_syntax.specs.View.{concat_all, or_all, view, views};
ghost use Rattle.ere_match.specs.Means.{AreBuilt, IsBuilt, IsLonger, Power, Turns};

use crate::node::{Filter, Node};
use ere_syntax::{Ere, Times};
use std::alloc::{AllocError, Global};

/// Adds a node, and tells its place.
pub(crate) fn add(nodes: &mut Vec<Node>, node: Node) -> Result<usize, AllocError>
    ensures place { IfOk result (λ place. (place ≡ length nodes.old.items)
        × (slice_get nodes.new.items place ≡ Some node)) }
    ensures longer { OnOk result (IsLonger nodes.old.items nodes.new.items) }
    ensures one { OnOk result (length nodes.new.items ≡ length nodes.old.items + 1) }
{
    let place = nodes.len();
    nodes.push(node)?;
    Ok(place)
}

/// Adds the nodes of an expression that lead to `next`, and tells where they begin.
#[cycle(build)]
pub(crate) fn build(
    alloc: Global,
    nodes: &mut Vec<Node>,
    ere: &Ere,
    next: usize,
) -> Result<usize, AllocError>
    ensures { IfOk result
        (λ entry. IsBuilt nodes.old.items nodes.new.items (view ere.now) entry next) }
{
    match ere {
        Ere::Empty => Ok(next),
        Ere::Byte(byte) => add(nodes, Node::Take(Filter::Byte(*byte), next)),
        Ere::Any => add(nodes, Node::Take(Filter::Any, next)),
        Ere::Bracket(set) => {
            let set = Box::new(alloc, **set)?;
            add(nodes, Node::Take(Filter::Bracket(set), next))
        }
        Ere::Start => add(nodes, Node::Start(next)),
        Ere::End => add(nodes, Node::End(next)),
        Ere::Group(inner) => build(alloc, nodes, inner, next),
        Ere::Repeat(inner, times) => repeat(alloc, nodes, inner, *times, next),
        Ere::Concat(parts) => all_of(alloc, nodes, parts, next),
        Ere::Or(parts) => any_of(alloc, nodes, parts, next),
    }
}

/// Adds the nodes of the parts, one after another, from the last to the first.
#[cycle(build)]
fn all_of(
    alloc: Global,
    nodes: &mut Vec<Node>,
    parts: &[Ere],
    next: usize,
) -> Result<usize, AllocError>
    ensures { IfOk result (λ entry. IsBuilt nodes.old.items nodes.new.items
        (concat_all (views parts.now)) entry next) }
{
    let mut entry = next;
    for done in 0..parts.len() {
        entry = build(alloc, nodes, &parts[parts.len() - 1 - done], entry)?;
    }
    Ok(entry)
}

/// Adds the nodes of the alternatives.
#[cycle(build)]
fn any_of(
    alloc: Global,
    nodes: &mut Vec<Node>,
    parts: &[Ere],
    next: usize,
) -> Result<usize, AllocError>
    ensures { IfOk result
        (λ entry. IsBuilt nodes.old.items nodes.new.items (or_all (views parts.now)) entry next) }
{
    let before = nodes.len();
    let mut entry = next;
    for (place, part) in parts.iter().enumerate() {
        let branch = build(alloc, nodes, part, next)?;
        entry = if place == 0 {
            branch
        } else if nodes.len() == before {
            next
        } else {
            add(nodes, Node::Split(entry, branch))?
        };
    }
    Ok(entry)
}

/// Adds the nodes of a repetition.
#[cycle(build)]
fn repeat(
    alloc: Global,
    nodes: &mut Vec<Node>,
    inner: &Ere,
    times: Times,
    next: usize,
) -> Result<usize, AllocError>
    ensures { IfOk result (λ entry. IsBuilt nodes.old.items nodes.new.items
        (Repeat (view inner.now) times.low times.high) entry next) }
{
    match times.high {
        None => {
            let (none, one) = endless(alloc, nodes, inner, next)?;
            if times.low == 0 {
                Ok(none)
            } else {
                copies(alloc, nodes, inner, times.low - 1, one)
            }
        }
        Some(high) => {
            if high < times.low {
                add(nodes, Node::Never)
            } else {
                let rest = up_to(alloc, nodes, inner, high - times.low, next)?;
                copies(alloc, nodes, inner, times.low, rest)
            }
        }
    }
}

/// Adds the nodes of any number of turns, and tells where none and where one must be taken first.
#[cycle(build)]
fn endless(
    alloc: Global,
    nodes: &mut Vec<Node>,
    inner: &Ere,
    next: usize,
) -> Result<(usize, usize), AllocError>
    ensures any { IfOk result (λ x. AreBuilt nodes.old.items nodes.new.items
        (Turns (Matches (view inner.now)) 0 None) x.0 next) }
    ensures some { IfOk result (λ x. AreBuilt nodes.old.items nodes.new.items
        (Turns (Matches (view inner.now)) 1 None) x.1 next) }
{
    let place = add(nodes, Node::Never)?;
    let body = build(alloc, nodes, inner, place)?;
    if nodes.len() == place + 1 {
        nodes.pop();
        return Ok((next, next));
    }
    nodes[place] = Node::Split(body, next);
    Ok((place, body))
}

/// Adds the nodes of so many turns.
#[cycle(build)]
fn copies(
    alloc: Global,
    nodes: &mut Vec<Node>,
    inner: &Ere,
    count: u8,
    next: usize,
) -> Result<usize, AllocError>
    ensures { IfOk result (λ entry. AreBuilt nodes.old.items nodes.new.items
        (Power (Matches (view inner.now)) count) entry next) }
{
    let mut entry = next;
    for _turn in 0..count {
        let before = nodes.len();
        entry = build(alloc, nodes, inner, entry)?;
        if nodes.len() == before {
            return Ok(entry);
        }
    }
    Ok(entry)
}

/// Adds the nodes of at most so many turns.
#[cycle(build)]
fn up_to(
    alloc: Global,
    nodes: &mut Vec<Node>,
    inner: &Ere,
    count: u8,
    next: usize,
) -> Result<usize, AllocError>
    ensures { IfOk result (λ entry. AreBuilt nodes.old.items nodes.new.items
        (Turns (Matches (view inner.now)) 0 (Some count)) entry next) }
{
    let mut entry = next;
    for _turn in 0..count {
        let before = nodes.len();
        let body = build(alloc, nodes, inner, entry)?;
        if nodes.len() == before {
            return Ok(entry);
        }
        entry = add(nodes, Node::Split(body, next))?;
    }
    Ok(entry)
}
