//! Primitives that change special variables, or the text of a substitution.
ghost use Rattle.std.specs.Prelude.{◌≡◌, ◌<◌, ◌≤◌, ◌^◌, IfErr, IfOk, IfSome, OnErr, pos};
ghost use Rattle.sem_primitives.specs.SharedState.{Inner, with_special};
ghost use Rattle.sem_primitives.specs.declared.constants.Special.{Special as AnySpecial};
ghost use Rattle.sem_primitives.specs.TextMeaning.{match_length, match_row, match_start, substitute_row, with_match};
ghost use Rattle.sem_primitives.specs.Texts.{counted};
ghost use Rattle.host_step.specs.HostState.{HostState};
ghost use Rattle.host_bytes.specs.Outcomes.{IsStopOf};
ghost use Rattle.host_texts.specs.Evaluations.{match_evaluation, number_reply, settled, sub_evaluation, sub_result_evaluation};
ghost use Rattle.host_values.specs.Evaluations.{Evaluates};
ghost use Rattle.host_texts.specs.States.{holding, with_texts};

use crate::expressions::{first, matcher};
use crate::numbers::counted;
use crate::text_words::{flag_front, two_values, value_third};
use crate::texts::Texts;
use awk_values::{Fault, Stop, Value};
use host_format::Expressions;
use host_handles::Handles;
use host_values::{
    Evaluated, Refusal, Reply, Spent, expect_end, value_after, value_front, value_text,
};
use sem_primitives::Special;
use std::alloc::{AllocError, Global};
use wasm_store::{TrapKind, Word};

/// The first match, as places in the text.
fn first_of(
    alloc: Global,
    expressions: &mut Expressions,
    value: &Value,
    ere: &Value,
) -> Result<Option<(usize, usize)>, Stop>
    ensures ok { IfOk result (λ found. (inner : Inner) → match_row value.now ere.now inner
        ≡ Ok (with_match found inner, counted (match_start found))) }
    ensures inside { IfOk result (λ found. IfSome found (λ m. (m.0 ≤ m.1) × (m.1 < 2 ^ 63))) }
    ensures err { IfErr result
        (λ stop. (inner : Inner) → IsStopOf (match_row value.now ere.now inner) stop) }
{
    let matcher = matcher(alloc, expressions, ere)?;
    let text = value_text(alloc, value)?;
    first(matcher, text.as_slice())
}

/// Where a match begins, counted from 1, and its length; 0 and -1 of none.
fn numbers_of(found: Option<(usize, usize)>) -> Result<(Value, Value), AllocError>
    requires { IfSome found (λ m. (m.0 ≤ m.1) × (m.1 < 2 ^ 63)) }
    ensures { IfOk result (λ r. (r.0 ≡ Value.Num (pos (match_start found)))
        × (r.1 ≡ Value.Num (match_length found))) }
{
    let Some((from, to)) = found else {
        return Ok((Value::Num(0), Value::Num(-1)));
    };
    match i64::try_from(from + 1) {
        Ok(start) => Ok((Value::Num(start), Value::Num((to - from) as i64))),
        Err(_) => Err(AllocError),
    }
}

/// Where a match begins, counted from 1; 0 of none.
fn start_of(found: Option<(usize, usize)>) -> usize
    requires { IfSome found (λ m. (m.0 ≤ m.1) × (m.1 < 2 ^ 63)) }
    ensures { result ≡ match_start found }
{
    match found {
        Some((from, _)) => from + 1,
        None => 0,
    }
}

/// Keeps where a match begins, and its length.
fn keep_match(texts: &mut Texts, start: Value, length: Value)
    ensures { (inner : Inner) → with_texts texts.new inner ≡ with_special AnySpecial.Rlength length
        (with_special AnySpecial.Rstart start (with_texts texts.old inner)) }
{
    texts.specials.set(Special::Rstart, start);
    texts.specials.set(Special::Rlength, length);
}

/// Matches, and sets RSTART and RLENGTH.
fn matched(alloc: Global, texts: &mut Texts, value: &Value, ere: &Value) -> Result<usize, Stop>
    ensures ok { IfOk result (λ start. (inner : Inner) → match_row value.now ere.now
        (with_texts texts.old inner) ≡ Ok (with_texts texts.new inner, counted start)) }
    ensures err { IfErr result
        (λ stop. (inner : Inner) → IsStopOf (match_row value.now ere.now inner) stop) }
    ensures refused { OnErr result (texts.new ≡ texts.old) }
{
    let found = first_of(alloc, &mut texts.expressions, value, ere)?;
    let (start, length) = numbers_of(found)?;
    keep_match(texts, start, length);
    Ok(start_of(found))
}

/// What matching comes to.
fn match_outcome(
    alloc: Global,
    texts: &mut Texts,
    value: &Value,
    ere: &Value,
) -> Result<Result<Reply, Fault>, AllocError>
    ensures { IfOk result (λ outcome. (s : HostState) → settled (holding texts.old s) number_reply
        (match_row value.now ere.now (with_texts texts.old s.shared.inner))
        ≡ (holding texts.new s, outcome)) }
{
    match matched(alloc, texts, value, ere) {
        Ok(start) => Ok(Ok(Reply::Number(counted(start)))),
        Err(Stop::Fault(fault)) => Ok(Err(fault)),
        Err(Stop::NoMemory) => Err(AllocError),
    }
}

/// Where an expression matches a text first; it sets RSTART and RLENGTH.
///
/// # Errors
///
/// A trap, or want of memory.
pub fn match_at(
    alloc: Global,
    handles: &Handles,
    texts: &mut Texts,
    words: &[Word],
) -> Result<Evaluated, Refusal>
    ensures { (s : HostState) → Evaluates handles.now (holding texts.old s) result (holding
        texts.new s) (match_evaluation handles.now (holding texts.old s) words.now) }
{
    let (first, value, second, ere) = two_values(handles, words)?;
    Ok(Evaluated {
        spent: Spent::Two(first, second),
        outcome: match_outcome(alloc, texts, value, ere)?,
    })
}

/// Substitutes, and keeps the new text.
fn substituted(
    alloc: Global,
    texts: &mut Texts,
    ere: &Value,
    by: &Value,
    target: &Value,
    all: bool,
) -> Result<usize, Stop>
    ensures ok { IfOk result (λ count. (inner : Inner) → substitute_row ere.now by.now target.now
        all (with_texts texts.old inner) ≡ Ok (with_texts texts.new inner, counted count)) }
    ensures err { IfErr result (λ stop. (inner : Inner)
        → IsStopOf (substitute_row ere.now by.now target.now all inner) stop) }
    ensures refused { OnErr result (texts.new ≡ texts.old) }
{
    let matcher = matcher(alloc, &mut texts.expressions, ere)?;
    let by = value_text(alloc, by)?;
    let target = value_text(alloc, target)?;
    match matcher.substitute(alloc, by.as_slice(), target.bytes(), all) {
        Ok(new) => {
            texts.substituted = Some(Value::Text(new.text));
            Ok(new.count)
        }
        Err(stop) => Err(stop),
    }
}

/// What a substitution comes to.
fn sub_outcome(
    alloc: Global,
    texts: &mut Texts,
    ere: &Value,
    by: &Value,
    target: &Value,
    all: bool,
) -> Result<Result<Reply, Fault>, AllocError>
    ensures { IfOk result (λ outcome. (s : HostState) → settled (holding texts.old s) number_reply
        (substitute_row ere.now by.now target.now all (with_texts texts.old s.shared.inner))
        ≡ (holding texts.new s, outcome)) }
{
    match substituted(alloc, texts, ere, by, target, all) {
        Ok(count) => Ok(Ok(Reply::Number(counted(count)))),
        Err(Stop::Fault(fault)) => Ok(Err(fault)),
        Err(Stop::NoMemory) => Err(AllocError),
    }
}

/// A substitution: how many matches were replaced. The new text is kept.
///
/// # Errors
///
/// A trap, or want of memory.
pub fn sub(
    alloc: Global,
    handles: &Handles,
    texts: &mut Texts,
    words: &[Word],
) -> Result<Evaluated, Refusal>
    ensures { (s : HostState) → Evaluates handles.now (holding texts.old s) result (holding
        texts.new s) (sub_evaluation handles.now (holding texts.old s) words.now) }
{
    let (first, ere, behind_ere) = value_front(handles, words)?;
    let (second, by, behind_by) = value_after(handles, first, behind_ere)?;
    let (third, target, behind) = value_third(handles, first, second, behind_by)?;
    let (all, rest) = flag_front(behind)?;
    expect_end(rest)?;
    Ok(Evaluated {
        spent: Spent::Three(first, second, third),
        outcome: sub_outcome(alloc, texts, ere, by, target, all)?,
    })
}

/// The text of the last substitution, once.
///
/// # Errors
///
/// A trap.
pub fn sub_result(
    handles: &Handles,
    texts: &mut Texts,
    words: &[Word],
) -> Result<Evaluated, Refusal>
    ensures { (s : HostState)
        → Evaluates handles.now (holding texts.old s) result (holding texts.new s)
        (sub_result_evaluation handles.now (holding texts.old s) words.now) }
{
    expect_end(words)?;
    match texts.substituted.take() {
        Some(value) => Ok(Evaluated {
            spent: Spent::Nothing,
            outcome: Ok(Reply::Value(value)),
        }),
        None => Err(Refusal::Trap(TrapKind::BadArgument)),
    }
}
