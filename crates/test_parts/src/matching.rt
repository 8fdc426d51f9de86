//! Extended regular expressions.
ghost use Rattle.std.specs.Prelude.{IfOk, IfErr};
ghost use Rattle.ere_syntax.specs.Answers.{IsRefused, IsTreeOf};
ghost use Rattle.ere_syntax.specs.Tree.{Tree};
ghost use Rattle.ere_syntax.specs.FirstMatch.{IsMatch};

use ere_match::{build, is_match};
use ere_syntax::{EreFault, read_ere};
use std::alloc::Global;

/// Whether an extended regular expression matches somewhere in a text.
///
/// # Errors
///
/// What [`read_ere`] says of a text that is no expression, or one past the limits; [`EreFault::NoMemory`].
pub fn matches(alloc: Global, expression: &[u8], text: &[u8]) -> Result<bool, EreFault>
    ensures found { IfOk result
        (λ found. (t : Tree) × IsTreeOf expression.now t × IsMatch t text.now found) }
    ensures refused { IfErr result (λ fault. IsRefused expression.now fault) }
{
    let ere = read_ere(alloc, expression)?;
    let mut auto = build(alloc, &ere)?;
    match is_match(&mut auto, text) {
        Ok(found) => Ok(found),
        Err(_) => Err(EreFault::NoMemory),
    }
}
