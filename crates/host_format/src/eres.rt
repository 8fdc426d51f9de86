//! Expressions: their automata, and their first matches.
ghost use Rattle.std.specs.Prelude.{◌≡◌, ◌+◌, ◌≤◌, ℕ, IfErr, IfOk, IfSome, length};
ghost use Rattle.ere_syntax.specs.Tree.{Tree};
ghost use Rattle.ere_match.specs.Autos.{IsAutoOf};
ghost use Rattle.ere_match.specs.Ends.{AreDeadEnds};
ghost use Rattle.sem_primitives.specs.FirstMatch.{first_match, longest};
ghost use Rattle.sem_primitives.specs.Eres.{expression_of};
ghost use Rattle.host_bytes.specs.Outcomes.{IsStopOf};
ghost use Rattle.host_format.specs.Expressions.{IsAuto, IsExpression, IsFirstBy, is_stop_of_ere, not_empty};

use awk_values::{Fault, Stop};
use ere_match::{Auto, DeadEnds, build, next_match};
use ere_syntax::{EreFault, read_ere};
use std::alloc::{AllocError, Global};

fn stop_of(fault: EreFault) -> Stop
    ensures { result ≡ is_stop_of_ere fault }
{
    match fault {
        EreFault::BadEre(_) => Stop::Fault(Fault::BadEre),
        EreFault::EreTooLarge => Stop::Fault(Fault::EreTooLarge),
        EreFault::NoMemory => Stop::NoMemory,
    }
}

/// The automaton of an expression's text (POSIX XBD 9.4).
///
/// # Errors
///
/// [`Fault::BadEre`] where the text is no expression, [`Fault::EreTooLarge`] where it is one past the limits, [`Stop::NoMemory`].
pub fn expression(alloc: Global, text: &[u8]) -> Result<Auto, Stop>
    ensures ok { IfOk result (λ auto. IsExpression text.now auto) }
    ensures auto { IfOk result IsAuto }
    ensures err { IfErr result (IsStopOf (expression_of text.now)) }
{
    let ere = match read_ere(alloc, text) {
        Ok(ere) => ere,
        Err(fault) => return Err(stop_of(fault)),
    };
    match build(alloc, &ere) {
        Ok(auto) => Ok(auto),
        Err(_) => Err(Stop::NoMemory),
    }
}

/// The first match from a place on.
pub(crate) fn first(
    auto: &mut Auto,
    text: &[u8],
    from: usize,
    ends: &mut DeadEnds,
) -> Result<Option<(usize, usize)>, AllocError>
    requires auto { IsAuto auto.old }
    requires within { from ≤ length text.now }
    requires ends { AreDeadEnds auto.old text.now ends.old }
    ensures found { (t : Tree) → IsAutoOf auto.old t
        → IfOk result (λ found. found ≡ first_match t text.now from) }
    ensures inside { IfOk result
        (λ found. IfSome found (λ m. (from ≤ m.0) × (m.0 ≤ m.1) × (m.1 ≤ length text.now))) }
    ensures kept { (t : Tree) → IsAutoOf auto.old t → IsAutoOf auto.new t }
    ensures auto { IsAuto auto.new }
    ensures ends { IfOk result (λ found. AreDeadEnds auto.new text.now ends.new) }
{
    next_match(auto, text, from, ends)
}

/// The first match from a place on that is not empty.
pub(crate) fn first_not_empty(
    auto: &mut Auto,
    text: &[u8],
    from: usize,
    ends: &mut DeadEnds,
) -> Result<Option<(usize, usize)>, AllocError>
    requires auto { IsAuto auto.old }
    requires within { from ≤ length text.now }
    requires ends { AreDeadEnds auto.old text.now ends.old }
    ensures found { (t : Tree) → IsAutoOf auto.old t
        → IfOk result (λ found. IsFirstBy (not_empty t text.now) from (length text.now) found) }
    ensures inside { IfOk result
        (λ found. IfSome found (λ m. (from ≤ m.0) × (m.0 + 1 ≤ m.1) × (m.1 ≤ length text.now))) }
    ensures kept { (t : Tree) → IsAutoOf auto.old t → IsAutoOf auto.new t }
    ensures auto { IsAuto auto.new }
    ensures ends { IfOk result (λ found. AreDeadEnds auto.new text.now ends.new) }
{
    let mut at = from;
    while let Some((start, end)) = first(auto, text, at, ends)? {
        if start < end {
            return Ok(Some((start, end)));
        }
        if start == text.len() {
            return Ok(None);
        }
        at = start + 1;
    }
    Ok(None)
}
