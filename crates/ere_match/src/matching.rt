//! Building automata, and matching with them.
ghost use Rattle.std.specs.Prelude.{◌≡◌, ◌≤◌, ℕ, IfErr, IfOk, length};
ghost use Rattle.ere_syntax.specs.Tree.{Tree};
ghost use Rattle.ere_syntax.specs.View.{view};
ghost use Rattle.ere_syntax.specs.declared.fault.EreFault.TheVariants.{NoMemory};
ghost use Rattle.ere_match.specs.Autos.{IsAutoOf};
ghost use Rattle.ere_match.specs.Ends.{AreDeadEnds};
ghost use Rattle.ere_syntax.specs.FirstMatch.{IsFirstMatch, IsMatch};

use crate::assemble::{add, build as build_nodes};
use crate::automaton::Auto;
use crate::classes::classes_of;
use crate::dead_ends::DeadEnds;
use crate::lead::lead_of;
use crate::node::Node;
use crate::row::Table;
use crate::scan::scan;
use crate::search::search;
use ere_syntax::{Ere, EreFault};
use std::alloc::{AllocError, Global};

/// The automaton of an expression. It is refused only where memory ran out: what `read_ere` gives is within the limits.
pub fn build(alloc: Global, ere: &Ere) -> Result<Auto, EreFault>
    ensures auto { IfOk result (λ auto. IsAutoOf auto (view ere.now)) }
    ensures refused { IfErr result (λ fault. fault ≡ NoMemory) }
{
    let mut nodes = Vec::new(alloc);
    let accept = add(&mut nodes, Node::Accept)?;
    let entry = build_nodes(alloc, &mut nodes, ere, accept)?;
    let classes = classes_of(&nodes);
    let mut table = Table::new(alloc, nodes.len())?;
    let lead = lead_of(&nodes, entry, &mut table.set);
    Ok(Auto {
        nodes,
        entry,
        classes,
        lead,
        table,
    })
}

/// Whether the expression matches somewhere in the text.
pub fn is_match(auto: &mut Auto, text: &[u8]) -> Result<bool, AllocError>
    ensures found { (t : Tree) → IsAutoOf auto.old t
        → IfOk result (λ found. IsMatch t text.now found) }
    ensures kept { (t : Tree) → IsAutoOf auto.old t → IsAutoOf auto.new t }
{
    let found = first_match(auto, text, 0)?;
    Ok(found.is_some())
}

/// The first match that begins at `from` or behind it, and the longest of those that begin there, as the places of its
/// first byte and behind its last one: POSIX's leftmost longest match.
pub fn first_match(
    auto: &mut Auto,
    text: &[u8],
    from: usize,
) -> Result<Option<(usize, usize)>, AllocError>
    requires { from ≤ length text.now }
    ensures found { (t : Tree) → IsAutoOf auto.old t
        → IfOk result (λ found. IsFirstMatch t text.now from found) }
    ensures kept { (t : Tree) → IsAutoOf auto.old t → IsAutoOf auto.new t }
{
    let alloc = *auto.table.sources.allocator();
    next_match(auto, text, from, &mut DeadEnds::none(alloc))
}

/// The match that `first_match` gives. All matches of one text, each looked for from the end of the one before, take linear time
/// together if each call is given the same `ends`, which keep what the calls have found out.
///
/// # Errors
///
/// There is no memory; nothing is known of `ends` then.
pub fn next_match(
    auto: &mut Auto,
    text: &[u8],
    from: usize,
    ends: &mut DeadEnds,
) -> Result<Option<(usize, usize)>, AllocError>
    requires inside { from ≤ length text.now }
    requires ends { AreDeadEnds auto.old text.now ends.old }
    ensures found { (t : Tree) → IsAutoOf auto.old t
        → IfOk result (λ found. IsFirstMatch t text.now from found) }
    ensures kept { (t : Tree) → IsAutoOf auto.old t → IsAutoOf auto.new t }
    ensures ends { IfOk result (λ found. AreDeadEnds auto.new text.now ends.new) }
{
    search(
        &auto.nodes,
        auto.entry,
        &auto.classes,
        &auto.lead,
        &mut auto.table,
        text,
        from,
        ends,
    )
}

/// The same match by leading sets of threads from place to place, without a table: the plain program beside which tests run
/// `first_match`.
pub fn first_match_by_threads(auto: &mut Auto, text: &[u8], from: usize) -> Option<(usize, usize)>
    requires { from ≤ length text.now }
    ensures found { (t : Tree) → IsAutoOf auto.old t → IsFirstMatch t text.now from result }
    ensures kept { (t : Tree) → IsAutoOf auto.old t → IsAutoOf auto.new t }
{
    scan(
        &auto.nodes,
        auto.entry,
        text,
        from,
        &mut auto.table.set,
        &mut auto.table.next,
    )
}
