//! Two parts of a key.
ghost use Rattle.std.specs.Prelude.{◌≡◌, ◌+◌, ◌++◌, ◌∷◌, ◌≤◌, [], IfOk, IfSome, Ok, nat_le, true};
ghost use Rattle.sem_primitives.specs.Limits.{most_text};
ghost use Rattle.sem_primitives.specs.ValueMeaning.{within_limit};
ghost use Rattle.sem_primitives.specs.declared.constants.Special.{Special as AnySpecial};
ghost use Rattle.awk_values.specs.Values.{text_of_value};
ghost use Rattle.host_step.specs.HostState.{HostState};
ghost use Rattle.host_texts.specs.Evaluations.{join_evaluation, replied};
ghost use Rattle.host_values.specs.Evaluations.{Evaluates};
ghost use Rattle.host_texts.specs.States.{holding, specials_of};

use crate::number_key::{MOST_KEY, write_key};
use crate::text_words::two_values;
use crate::texts::Texts;
use awk_values::{Bytes, Fault, Value};
use host_handles::Handles;
use host_values::{Evaluated, Refusal, Reply, Spent, key_text};
use sem_primitives::{MAX_TEXT, Special};
use std::alloc::{AllocError, Global};
use wasm_store::Word;

/// Whether three texts are within the limit together.
fn fits(left: usize, between: usize, right: usize) -> bool
    ensures value { result ≡ nat_le (left + (between + right)) most_text }
    ensures within { result ≡ true → left + (between + right) ≤ most_text }
{
    left <= MAX_TEXT
        && between <= MAX_TEXT
        && right <= MAX_TEXT
        && left + (between + right) <= MAX_TEXT
}

/// Bytes as a text, in spare room where there is some.
#[inline(always)]
fn put_into(alloc: Global, spare: Option<Bytes>, bytes: &[u8]) -> Result<Bytes, AllocError>
    ensures { IfOk result (λ text. text ≡ bytes.now) }
{
    match spare {
        Some(former) => former.refilled(alloc, bytes),
        None => Bytes::from_slice(alloc, bytes),
    }
}

/// The digits of two numbers with a byte between them.
#[inline(always)]
fn numbers_joined(
    alloc: Global,
    spare: Option<Bytes>,
    left: i64,
    between: u8,
    right: i64,
) -> Result<Bytes, AllocError>
    ensures { IfOk result (λ text. within_limit (text_of_value (Value.Num left) ++ between ∷ text_of_value (Value.Num right))
        ≡ Ok (Value.Text text)) }
{
    let mut room = [0; MOST_KEY];
    let start = write_key(left, between, right, &mut room);
    put_into(alloc, spare, &room[start..])
}

/// The byte that a value's text is, where it is one.
#[inline(always)]
fn one_byte(value: &Value) -> Option<u8>
    ensures { IfSome result (λ byte. text_of_value value.now ≡ byte ∷ []) }
{
    match value {
        Value::Text(text) | Value::StrNum(text) => match text.as_slice() {
            [byte] => Some(*byte),
            _ => None,
        },
        Value::Uninit | Value::Num(_) => None,
    }
}

/// The texts of two values with another between them, where that is within the limit.
#[inline(never)]
fn texts_joined(
    alloc: Global,
    spare: Option<Bytes>,
    left: &Value,
    between: &Value,
    right: &Value,
) -> Result<Result<Reply, Fault>, AllocError>
    ensures { IfOk result (λ outcome. replied Reply.Value
        (within_limit (text_of_value left.now ++ (text_of_value between.now ++ text_of_value right.now))) ≡ outcome) }
{
    let left = key_text(left);
    let between = key_text(between);
    let right = key_text(right);
    let first = left.as_slice();
    let second = between.as_slice();
    let third = right.as_slice();
    if !fits(first.len(), second.len(), third.len()) {
        return Ok(Err(Fault::TextLimit));
    }
    let mut text = Bytes::of_two(alloc, spare, first, second)?;
    if !text.append(third)? {
        text = Bytes::of_two(alloc, None, text.as_slice(), third)?;
    }
    Ok(Ok(Reply::Value(Value::Text(text))))
}

/// The texts of two values with SUBSEP between them, where that is within the limit. Mostly both values are numbers.
#[inline(always)]
fn join_outcome(
    alloc: Global,
    spare: Option<Bytes>,
    texts: &Texts,
    left: &Value,
    right: &Value,
) -> Result<Result<Reply, Fault>, AllocError>
    ensures { IfOk result (λ outcome. replied Reply.Value
        (within_limit (text_of_value left.now ++ (text_of_value (specials_of
        texts.now.specials.values AnySpecial.Subsep) ++ text_of_value right.now))) ≡ outcome) }
{
    let between = texts.specials.get(Special::Subsep);
    if let (Value::Num(first), Value::Num(second), Some(byte)) = (left, right, one_byte(between)) {
        let text = numbers_joined(alloc, spare, *first, byte, *second)?;
        return Ok(Ok(Reply::Value(Value::Text(text))));
    }
    texts_joined(alloc, spare, left, between, right)
}

/// A key of two texts, with SUBSEP between them.
///
/// # Errors
///
/// A trap, or want of memory.
pub fn join_texts(
    alloc: Global,
    handles: &mut Handles,
    texts: &Texts,
    words: &[Word],
) -> Result<Evaluated, Refusal>
    ensures came { (s : HostState) → Evaluates handles.old (holding texts.now s) result (holding
        texts.now s) (join_evaluation handles.old (holding texts.now s) words.now) }
    ensures same { handles.new ≡ handles.old }
{
    let spare = handles.spare_room();
    let (first, left, second, right) = two_values(handles, words)?;
    Ok(Evaluated {
        spent: Spent::Two(first, second),
        outcome: join_outcome(alloc, spare, texts, left, right)?,
    })
}
