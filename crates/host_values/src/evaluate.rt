//! The imports on values: what each comes to, of the words of a call.
ghost use Rattle.std.specs.Prelude.{◌≡◌, ◌+◌, ◌++◌, ◌≤◌, [], Err, IfOk, None, Ok, OnOk, false, length, nat_le, true};
ghost use Rattle.std.specs.FinMap as map;
ghost use Rattle.sem_primitives.specs.Limits.{most_text};
ghost use Rattle.sem_primitives.specs.ValueMeaning.{within_limit};
ghost use Rattle.std.specs.Ordering.{int_cmp};
ghost use Rattle.awk_values.specs.Comparison.{comparison, holds};
ghost use Rattle.awk_values.specs.Operators.{power};
ghost use Rattle.awk_values.specs.Values.{number_of_value, text_of_value};
ghost use Rattle.awk_text.specs.NumberText.{InRange};
ghost use Rattle.host_values.specs.declared.spent.Spent.{Spent};
ghost use Rattle.host_step.specs.HostState.{HostState};
ghost use Rattle.host_values.specs.Calls.{IsCarriedOut, reserved_handle};
ghost use Rattle.host_values.specs.Evaluations.{Evaluates, Values};
ghost use Rattle.host_values.specs.ValueEvaluations.{compare_evaluation, concat_evaluation, dup_evaluation, fail_evaluation, int_of_evaluation, lit_evaluation, num_evaluation, number_reply, pow_evaluation, to_num_evaluation, truth_evaluation, uninit_evaluation, value_reply};

use crate::argument_words::{
    comparison_front, expect_end, fault_front, number_front, place_front, value_after, value_front,
};
use crate::element_keys::key_text;
use crate::element_words::two_values;
use crate::literals::Literals;
use crate::reply::{Evaluated, Reply, number_reply, truth_reply};
use crate::spent::Spent;
use crate::value_calls::give_back;
use awk_text::text_of;
use awk_values::{Bytes, CompareOp, Fault, Value, compare, pow, to_number, truncated, truth};
use host_handles::Handles;
use host_step::Refusal;
use sem_primitives::MAX_TEXT;
use std::alloc::{AllocError, Global};
use wasm_store::Word;

/// An outcome of a call that spends nothing.
#[inline(always)]
fn unspent(outcome: Result<Reply, Fault>) -> Evaluated
    ensures { result ≡ record { spent = Spent.Nothing; outcome = outcome } }
{
    Evaluated {
        spent: Spent::Nothing,
        outcome,
    }
}

/// A number as a value.
///
/// # Errors
///
/// A trap.
#[inline(always)]
pub fn num(words: &[Word]) -> Result<Evaluated, Refusal>
    ensures { (values : Values) (s : HostState)
        → Evaluates values s result s (num_evaluation values s words.now) }
{
    let (number, rest) = number_front(words)?;
    expect_end(rest)?;
    Ok(unspent(Ok(Reply::Value(Value::Num(number)))))
}

/// The number of the first word, where there is one: the place of a literal.
fn first_place(words: &[Word]) -> usize {
    match words.first() {
        Some(Word::I32(place)) => *place as usize,
        _ => 0,
    }
}

/// The text at a place of the memory. The texts of literals are kept; they change no answer.
///
/// # Errors
///
/// A trap, or want of memory.
#[inline(always)]
pub fn lit(
    alloc: Global,
    literals: &mut Literals,
    words: &[Word],
    memory: &[u8],
) -> Result<Evaluated, Refusal>
    ensures { (values : Values) (s : HostState)
        → Evaluates values s result s (lit_evaluation memory.now values s words.now) }
{
    let (text, rest) = place_front(memory, words)?;
    expect_end(rest)?;
    let text = literals.text(alloc, first_place(words), text)?;
    Ok(unspent(Ok(Reply::Value(Value::Text(text)))))
}

/// The value of a variable that was never set.
///
/// # Errors
///
/// A trap.
#[inline(always)]
pub fn uninit(words: &[Word]) -> Result<Evaluated, Refusal>
    ensures { (values : Values) (s : HostState)
        → Evaluates values s result s (uninit_evaluation values s words.now) }
{
    expect_end(words)?;
    Ok(unspent(Ok(Reply::Value(Value::Uninit))))
}

/// A value once more, which is not spent.
///
/// # Errors
///
/// A trap, or want of memory.
#[inline(always)]
pub fn dup(handles: &Handles, words: &[Word]) -> Result<Evaluated, Refusal>
    ensures { (s : HostState) → Evaluates handles.now s result s
        (dup_evaluation handles.now s words.now) }
{
    let (_, value, rest) = value_front(handles, words)?;
    expect_end(rest)?;
    Ok(unspent(Ok(Reply::Value(value.clone()?))))
}

/// The number of a value. Mostly the value is a number.
#[inline(always)]
fn number_of(value: &Value) -> Result<i64, Fault>
    ensures { result ≡ number_of_value value.now }
{
    match value {
        Value::Num(number) => Ok(*number),
        _ => to_number(value),
    }
}

/// The number of a value.
///
/// # Errors
///
/// A trap.
#[inline(always)]
pub fn to_num(handles: &Handles, words: &[Word]) -> Result<Evaluated, Refusal>
    ensures { (s : HostState) → Evaluates handles.now s result s
        (to_num_evaluation handles.now s words.now) }
{
    let (handle, value, rest) = value_front(handles, words)?;
    expect_end(rest)?;
    Ok(Evaluated {
        spent: Spent::One(handle),
        outcome: number_reply(number_of(value)),
    })
}

/// The number of a value without its fraction.
///
/// # Errors
///
/// A trap.
#[inline(always)]
pub fn int_of(handles: &Handles, words: &[Word]) -> Result<Evaluated, Refusal>
    ensures { (s : HostState) → Evaluates handles.now s result s
        (int_of_evaluation handles.now s words.now) }
{
    let (handle, value, rest) = value_front(handles, words)?;
    expect_end(rest)?;
    Ok(Evaluated {
        spent: Spent::One(handle),
        outcome: number_reply(truncated(value)),
    })
}

/// The truth of a value.
///
/// # Errors
///
/// A trap.
#[inline(always)]
pub fn truth_of(handles: &Handles, words: &[Word]) -> Result<Evaluated, Refusal>
    ensures { (s : HostState) → Evaluates handles.now s result s
        (truth_evaluation handles.now s words.now) }
{
    let (handle, value, rest) = value_front(handles, words)?;
    expect_end(rest)?;
    Ok(Evaluated {
        spent: Spent::One(handle),
        outcome: Ok(Reply::Truth(truth(value))),
    })
}

/// Whether a comparison of numbers holds.
#[inline(always)]
fn numbers_compared(left: i64, right: i64, op: CompareOp) -> bool
    ensures { result ≡ holds op (int_cmp left right) }
{
    match op {
        CompareOp::Less => left < right,
        CompareOp::LessOrEqual => left <= right,
        CompareOp::Equal => left == right,
        CompareOp::NotEqual => left != right,
        CompareOp::Greater => left > right,
        CompareOp::GreaterOrEqual => left >= right,
    }
}

/// Whether a comparison holds. Mostly both sides are numbers.
#[inline(always)]
fn compared(left: &Value, right: &Value, op: CompareOp) -> Result<bool, Fault>
    ensures { result ≡ comparison left.now right.now op }
{
    match (left, right) {
        (Value::Num(left), Value::Num(right)) => Ok(numbers_compared(*left, *right, op)),
        _ => compare(left, right, op),
    }
}

/// Whether a comparison of two values holds.
///
/// # Errors
///
/// A trap.
#[inline(always)]
pub fn comparison(handles: &Handles, words: &[Word]) -> Result<Evaluated, Refusal>
    ensures { (s : HostState) → Evaluates handles.now s result s
        (compare_evaluation handles.now s words.now) }
{
    let (op, behind_op) = comparison_front(words)?;
    let (first, left, behind_left) = value_front(handles, behind_op)?;
    let (second, right, rest) = value_after(handles, first, behind_left)?;
    expect_end(rest)?;
    Ok(Evaluated {
        spent: Spent::Two(first, second),
        outcome: truth_reply(compared(left, right, op)),
    })
}

/// The length of a number's text. It stands apart, so that the length of a text is told with few registers.
#[inline(never)]
fn number_len(number: i64) -> usize
    ensures { result ≡ length (text_of_value (Value.Num number)) }
{
    text_of(number).as_bytes().len()
}

/// The length of a value's text.
pub fn text_len(value: &Value) -> usize
    ensures { result ≡ length (text_of_value value.now) }
{
    match value {
        Value::Uninit => 0,
        Value::Num(number) => number_len(*number),
        Value::Text(text) | Value::StrNum(text) => text.len(),
    }
}

/// Appends the text of a value.
///
/// # Errors
///
/// There is no memory.
#[inline(always)]
pub fn push_text(out: &mut Vec<u8>, value: &Value) -> Result<(), AllocError>
    ensures { OnOk result (out.new.items ≡ out.old.items ++ text_of_value value.now) }
{
    match value {
        Value::Uninit => Ok(()),
        Value::Num(number) => out.extend_from_slice(text_of(*number).as_bytes()),
        Value::Text(text) | Value::StrNum(text) => out.extend_from_slice(text.as_slice()),
    }
}

/// A text and bytes behind it, in place where nobody else shares the text.
#[inline(always)]
fn longer(
    alloc: Global,
    handles: &mut Handles,
    text: Bytes,
    behind: &[u8],
) -> Result<Bytes, AllocError>
    ensures text { IfOk result (λ longer. longer ≡ text ++ behind.now) }
    ensures same { handles.new ≡ handles.old }
{
    let mut longer = text;
    if longer.append(behind)? {
        return Ok(longer);
    }
    Bytes::of_two(alloc, handles.spare_room(), longer.as_slice(), behind)
}

/// The text of a value and bytes behind it. Mostly the value is a text.
#[inline(always)]
fn with_behind(
    alloc: Global,
    handles: &mut Handles,
    value: Value,
    behind: &[u8],
) -> Result<Bytes, AllocError>
    ensures text { IfOk result (λ text. text ≡ text_of_value value ++ behind.now) }
    ensures same { handles.new ≡ handles.old }
{
    match value {
        Value::Text(text) | Value::StrNum(text) => longer(alloc, handles, text, behind),
        Value::Num(_) | Value::Uninit => {
            let front = key_text(&value);
            Bytes::of_two(alloc, handles.spare_room(), front.as_slice(), behind)
        }
    }
}

/// The same where a number or nothing is behind. It stands apart, so that texts are joined with few registers.
#[inline(never)]
fn with_digits(
    alloc: Global,
    handles: &mut Handles,
    left: Value,
    right: &Value,
) -> Result<Bytes, AllocError>
    ensures text { IfOk result (λ text. text ≡ text_of_value left ++ text_of_value right.now) }
    ensures same { handles.new ≡ handles.old }
{
    let behind = key_text(right);
    with_behind(alloc, handles, left, behind.as_slice())
}

/// The texts of two values, one behind the other.
#[inline(always)]
fn joined(
    alloc: Global,
    handles: &mut Handles,
    left: Value,
    right: &Value,
) -> Result<Bytes, AllocError>
    ensures text { IfOk result (λ text. text ≡ text_of_value left ++ text_of_value right.now) }
    ensures same { handles.new ≡ handles.old }
{
    match right {
        Value::Text(text) | Value::StrNum(text) => {
            with_behind(alloc, handles, left, text.as_slice())
        }
        Value::Num(_) | Value::Uninit => with_digits(alloc, handles, left, right),
    }
}

/// Whether two texts are within the limit together.
fn fits(left: usize, right: usize) -> bool
    ensures value { result ≡ nat_le (left + right) most_text }
    ensures within { result ≡ true → left + right ≤ most_text }
{
    match left.checked_add(right) {
        Some(both) => both <= MAX_TEXT,
        None => false,
    }
}

/// Whether the texts of two values are within the limit together.
#[inline(always)]
fn fit_together(left: &Value, right: &Value) -> bool
    ensures too_long { result ≡ false
        → within_limit (text_of_value left.now ++ text_of_value right.now) ≡ Err Fault.TextLimit }
    ensures within { result ≡ true → within_limit (text_of_value left.now ++ text_of_value right.now)
        ≡ Ok (Value.Text (text_of_value left.now ++ text_of_value right.now)) }
{
    fits(text_len(left), text_len(right))
}

/// The texts of two values as one. A text that nobody else needs grows in place.
///
/// # Errors
///
/// A trap, which changes nothing; a fault, which is to be kept; or want of memory.
#[inline(always)]
pub fn concat(alloc: Global, handles: &mut Handles, words: &[Word]) -> Result<Option<Word>, Refusal>
    requires { map.get handles.old reserved_handle ≡ None }
    ensures step { IsCarriedOut (λ s. concat_evaluation handles.old s words.now) handles.old result
        handles.new }
    ensures reserved { map.get handles.new reserved_handle ≡ None }
{
    let (first, left, second, right) = match two_values(handles, words) {
        Ok(read) => read,
        Err(kind) => return Err(Refusal::Trap(kind)),
    };
    if !fit_together(left, right) {
        handles.spend(first);
        handles.spend(second);
        return Err(Refusal::Fault(Fault::TextLimit));
    }
    let Some(right) = handles.take(second) else {
        unreachable!();
    };
    let left = handles.replace(first, Value::Uninit);
    let Ok(text) = joined(alloc, handles, left, &right) else {
        handles.spend(first);
        return Err(Refusal::NoMemory);
    };
    drop(right);
    give_back(handles, first, Value::Text(text))
}

/// A power as an answer. It is in range without a test.
#[inline(always)]
fn power_reply(base: i64, exponent: i64) -> Result<Reply, Fault>
    requires base { InRange base }
    requires exponent { InRange exponent }
    ensures { result ≡ number_reply (power base exponent) }
{
    match pow(base, exponent) {
        Ok(number) => Ok(Reply::Number(number)),
        Err(fault) => Err(fault),
    }
}

/// A power of numbers.
///
/// # Errors
///
/// A trap.
#[inline(always)]
pub fn power(words: &[Word]) -> Result<Evaluated, Refusal>
    ensures { (values : Values) (s : HostState)
        → Evaluates values s result s (pow_evaluation values s words.now) }
{
    let (base, behind_base) = number_front(words)?;
    let (exponent, rest) = number_front(behind_base)?;
    expect_end(rest)?;
    Ok(unspent(power_reply(base, exponent)))
}

/// The fault that the script meets.
///
/// # Errors
///
/// A trap.
#[inline(always)]
pub fn fail(words: &[Word]) -> Result<Evaluated, Refusal>
    ensures { (values : Values) (s : HostState)
        → Evaluates values s result s (fail_evaluation values s words.now) }
{
    let (fault, rest) = fault_front(words)?;
    expect_end(rest)?;
    Ok(unspent(Err(fault)))
}
