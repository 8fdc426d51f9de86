//! Expressions that are met at run time, and whether they match.
ghost use Rattle.std.specs.Prelude.{◌≡◌, ◌<◌, ◌≤◌, ◌^◌, IfErr, IfOk, IfSome, Ok};
ghost use Rattle.awk_values.specs.Values.{text_of_value};
ghost use Rattle.awk_values.specs.declared.fault.Stop.TheVariants as stops;
ghost use Rattle.ere_syntax.specs.Tree.{Tree};
ghost use Rattle.sem_primitives.specs.FirstMatch.{first_match};
ghost use Rattle.sem_primitives.specs.Eres.{expression_of};
ghost use Rattle.sem_primitives.specs.Rows.{matches_row};
ghost use Rattle.host_step.specs.HostState.{HostState};
ghost use Rattle.host_bytes.specs.Outcomes.{IsStopOf};
ghost use Rattle.host_texts.specs.Evaluations.{matches_evaluation, replied};
ghost use Rattle.host_values.specs.Evaluations.{Evaluates};

use crate::text_words::two_values;
use awk_values::{Fault, Stop, Value};
use host_format::{Expressions, Matcher};
use host_handles::Handles;
use host_values::{Evaluated, Refusal, Reply, Spent, value_text};
use std::alloc::{AllocError, Global};
use wasm_store::Word;

/// The matcher of the expression that a value's text is.
pub(crate) fn matcher<'a>(
    alloc: Global,
    expressions: &'a mut Expressions,
    ere: &Value,
) -> Result<&'a mut Matcher, Stop>
    ensures ok { IfOk result (λ matcher. matcher.now ≡ text_of_value ere.now) }
    ensures err { IfErr result (IsStopOf (expression_of (text_of_value ere.now))) }
{
    let text = value_text(alloc, ere)?;
    expressions.automaton(alloc, text.bytes())
}

/// The first match, as places in the text.
pub(crate) fn first(matcher: &mut Matcher, text: &[u8]) -> Result<Option<(usize, usize)>, Stop>
    ensures found { IfOk result (λ found. (t : Tree) × (expression_of matcher.old ≡ Ok t)
        × (found ≡ first_match t text.now 0)) }
    ensures inside { IfOk result (λ found. IfSome found (λ m. (m.0 ≤ m.1) × (m.1 < 2 ^ 63))) }
    ensures err { IfErr result (λ stop. stop ≡ stops.NoMemory) }
{
    match matcher.first_match(text) {
        Ok(found) => Ok(found),
        Err(_) => Err(Stop::NoMemory),
    }
}

/// Whether the expression matches somewhere in the text.
fn matched(
    alloc: Global,
    expressions: &mut Expressions,
    value: &Value,
    ere: &Value,
) -> Result<bool, Stop>
    ensures ok { IfOk result (λ found. matches_row value.now ere.now ≡ Ok found) }
    ensures err { IfErr result (IsStopOf (matches_row value.now ere.now)) }
{
    let matcher = matcher(alloc, expressions, ere)?;
    let text = value_text(alloc, value)?;
    match matcher.is_match(text.as_slice()) {
        Ok(found) => Ok(found),
        Err(_) => Err(Stop::NoMemory),
    }
}

/// What matching comes to.
fn truth_outcome(
    alloc: Global,
    expressions: &mut Expressions,
    value: &Value,
    ere: &Value,
) -> Result<Result<Reply, Fault>, AllocError>
    ensures { IfOk result
        (λ outcome. replied Reply.Truth (matches_row value.now ere.now) ≡ outcome) }
{
    match matched(alloc, expressions, value, ere) {
        Ok(found) => Ok(Ok(Reply::Truth(found))),
        Err(Stop::Fault(fault)) => Ok(Err(fault)),
        Err(Stop::NoMemory) => Err(AllocError),
    }
}

/// Whether an expression matches somewhere in a text.
///
/// # Errors
///
/// A trap, or want of memory.
#[inline(always)]
pub fn matches(
    alloc: Global,
    handles: &Handles,
    expressions: &mut Expressions,
    words: &[Word],
) -> Result<Evaluated, Refusal>
    ensures { (s : HostState) → Evaluates handles.now s result s
        (matches_evaluation handles.now s words.now) }
{
    let (first, value, second, ere) = two_values(handles, words)?;
    Ok(Evaluated {
        spent: Spent::Two(first, second),
        outcome: truth_outcome(alloc, expressions, value, ere)?,
    })
}
