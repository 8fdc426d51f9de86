//! From the text of a regular expression to its tree.
ghost use Rattle.std.specs.Prelude.{◌≡◌, ◌<◌, ◌≤◌, [], IfErr, IfOk, length, true};
ghost use Rattle.ere_syntax.specs.Answers.{BuildAnswer, IsRefused, IsTreeOf};
ghost use Rattle.ere_syntax.specs.Reading.{is_some};
ghost use Rattle.ere_syntax.specs.EreOf.{ere_of};
ghost use Rattle.ere_syntax.specs.View.{view};

use crate::check::check;
use crate::fault::EreFault;
use crate::frame::{Frame, finish, fresh};
use crate::step::step;
use crate::token::next_token;
use crate::tree::Ere;
use std::alloc::Global;

/// The place of what was left where reading stopped.
fn place(text: &[u8], stop: &[u8]) -> usize
    ensures { result ≤ length text.now }
{
    text.len().saturating_sub(stop.len())
}

/// The tree of a text that has one, with what is open kept on a stack.
fn build_on(alloc: Global, stack: &mut Vec<Frame>, text: &[u8]) -> Result<Ere, EreFault>
    requires some { is_some (ere_of text.now) ≡ true }
    requires any { 0 < length text.now }
    requires empty { stack.old.items ≡ [] }
    ensures { BuildAnswer text.now result }
{
    let mut frame = fresh(alloc);
    let mut rest = text;
    while !rest.is_empty() {
        match next_token(rest, stack.len()) {
            Err(stop) => return Err(EreFault::BadEre(place(text, stop))),
            Ok((token, after)) => match step(alloc, stack, frame, token) {
                Err(fault) => return Err(fault),
                Ok(None) => return Err(EreFault::BadEre(place(text, rest))),
                Ok(Some(next)) => {
                    frame = next;
                    rest = after;
                }
            },
        }
    }
    if !stack.is_empty() {
        return Err(EreFault::BadEre(text.len()));
    }
    match finish(frame)? {
        None => Err(EreFault::BadEre(text.len())),
        Some(part) => {
            if part.size.is_within_limits() {
                Ok(part.ere)
            } else {
                Err(EreFault::EreTooLarge)
            }
        }
    }
}

/// The tree of a text that has one.
fn build(alloc: Global, text: &[u8]) -> Result<Ere, EreFault>
    requires some { is_some (ere_of text.now) ≡ true }
    requires any { 0 < length text.now }
    ensures { BuildAnswer text.now result }
{
    let mut stack = Vec::new(alloc);
    build_on(alloc, &mut stack, text)
}

/// Reads an extended regular expression, as POSIX XBD 9.4 has them: ordinary bytes, `.`, bracket expressions, groups,
/// alternatives, `* + ? {m} {m,} {m,n}` with counts up to 255, the anchors `^` and `$`, and escapes as in awk's strings.
/// The empty text is read as the empty expression.
///
/// `BadEre` with the offset where reading stopped exactly where the text has no tree, `EreTooLarge` exactly where it has
/// one that passes 10,000 positions after counts are expanded or a nesting of 1,000, `NoMemory` where memory ran out.
pub fn read_ere(alloc: Global, text: &[u8]) -> Result<Ere, EreFault>
    ensures tree { IfOk result (λ e. IsTreeOf text.now (view e)) }
    ensures refused { IfErr result (λ fault. IsRefused text.now fault) }
{
    if text.is_empty() {
        return Ok(Ere::Empty);
    }
    match check(text) {
        Err(stop) => Err(EreFault::BadEre(place(text, stop))),
        Ok(()) => build(alloc, text),
    }
}
