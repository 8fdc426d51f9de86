//! Comparison of values.
ghost use Rattle.std.specs.Prelude.{◌≡◌, MatchOption, Some, None};
ghost use Rattle.awk_values.specs.Comparison.{comparison, holds, numeric_side, order_of, order_of_numbers};
ghost use Rattle.awk_values.specs.Texts.{viewed};
ghost use Rattle.awk_values.specs.Values.{text_of_value};
ghost use Rattle.std.specs.Ordering.{nat_cmp};
ghost use Rattle.std.specs.Cmp.Lexicographic.{slice_cmp};

use crate::value::as_fault;
use crate::{Fault, Value};
use awk_text::{NumText, numeric_of, text_of};
use std::cmp::Ordering;

/// An operator of comparison.
#[derive(Clone, Copy, Debug, PartialEq, Eq, Drop)]
pub enum CompareOp {
    Less,
    LessOrEqual,
    Equal,
    NotEqual,
    Greater,
    GreaterOrEqual,
}

fn holds(op: CompareOp, order: Ordering) -> bool
    ensures { result ≡ holds op order }
{
    match op {
        CompareOp::Less => order.is_lt(),
        CompareOp::LessOrEqual => order.is_le(),
        CompareOp::Equal => order.is_eq(),
        CompareOp::NotEqual => order.is_ne(),
        CompareOp::Greater => order.is_gt(),
        CompareOp::GreaterOrEqual => order.is_ge(),
    }
}

/// The number of a side that may be compared as one.
#[inline(always)]
fn numeric_side(value: &Value) -> Option<Result<i64, Fault>>
    ensures { result ≡ numeric_side value.now }
{
    match value {
        Value::Uninit => Some(Ok(0)),
        Value::Num(number) => Some(Ok(*number)),
        Value::Text(_) => None,
        Value::StrNum(text) => Some(as_fault(numeric_of(text.as_slice())?)),
    }
}

/// The text of a value, without taking memory.
#[derive(Drop)]
enum TextView<'a> {
    Number(NumText),
    Text(&'a [u8]),
}

impl TextView<'_> {
    fn as_slice(&self) -> &[u8]
        ensures { result.now ≡ viewed self.now }
    {
        match self {
            TextView::Number(text) => text.as_bytes(),
            TextView::Text(text) => text,
        }
    }
}

fn view_of(value: &Value) -> TextView<'_>
    ensures { viewed result ≡ text_of_value value.now }
{
    match value {
        Value::Uninit => TextView::Text(&[]),
        Value::Num(number) => TextView::Number(text_of(*number)),
        Value::Text(text) | Value::StrNum(text) => TextView::Text(text.as_slice()),
    }
}

fn order_of_texts(left: &Value, right: &Value) -> Ordering
    ensures { result ≡ slice_cmp nat_cmp (text_of_value left.now) (text_of_value right.now) }
{
    let left = view_of(left);
    let right = view_of(right);
    left.as_slice().cmp(right.as_slice())
}

fn order_of(left: &Value, right: &Value) -> Result<Ordering, Fault>
    ensures { result ≡ order_of left.now right.now }
{
    match (numeric_side(left), numeric_side(right)) {
        (Some(left), Some(right)) => {
            let left = left?;
            let right = right?;
            Ok(left.cmp(&right))
        }
        _ => Ok(order_of_texts(left, right)),
    }
}

/// Whether a comparison holds (POSIX.1-2017 awk, "Expressions in awk"): by number where each side is a number, is uninitialised or is a
/// numeric string that looks numeric, and else by the bytes of the texts.
///
/// # Errors
///
/// Of a comparison by number, the fault of the left side's number, or else that of the right side's.
pub fn compare(left: &Value, right: &Value, op: CompareOp) -> Result<bool, Fault>
    ensures { result ≡ comparison left.now right.now op }
{
    let order = order_of(left, right)?;
    Ok(holds(op, order))
}
