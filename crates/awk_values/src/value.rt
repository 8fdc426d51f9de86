//! Values, and their number, text and truth.
ghost use Rattle.std.specs.Prelude.{◌≡◌, IfOk, IfErr};
ghost use Rattle.awk_text.specs.Number.{number_of_text};
ghost use Rattle.awk_values.specs.Values.{as_fault, number_of_value, text_of_value, truncated_of_value, truth_of_value};

use crate::{Bytes, Fault, Stop};
use awk_text::{NumberFault, is_nonzero, looks_numeric, number_of, text_of, truncated_of};
use std::alloc::{AllocError, Global};

/// A value of a script (POSIX.1-2017 awk, "Expressions in awk"). A number lies from -2^53 to 2^53.
#[derive(Clone, PartialEq, Debug, Default, Drop)]
pub enum Value {
    /// What was never set: both 0 and the empty text.
    #[default]
    Uninit,
    Num(i64),
    Text(Bytes),
    /// A text of the input: a number where it looks numeric.
    StrNum(Bytes),
}

impl Value {
    /// The same value, to be kept for long: its text as [`Bytes::kept`] gives it.
    ///
    /// # Errors
    ///
    /// There is no memory.
    pub fn kept(&self, alloc: Global) -> Result<Value, AllocError>
        ensures { IfOk result (λ kept. kept ≡ self.now) }
    {
        match self {
            Value::Uninit => Ok(Value::Uninit),
            Value::Num(number) => Ok(Value::Num(*number)),
            Value::Text(text) => Ok(Value::Text(text.kept(alloc)?)),
            Value::StrNum(text) => Ok(Value::StrNum(text.kept(alloc)?)),
        }
    }
}

pub(crate) fn as_fault(number: Result<i64, NumberFault>) -> Result<i64, Fault>
    ensures { result ≡ as_fault number }
{
    match number {
        Ok(number) => Ok(number),
        Err(NumberFault::Range) => Err(Fault::Range),
        Err(NumberFault::Fraction) => Err(Fault::Fraction),
    }
}

/// The number of a text, with its fault.
pub(crate) fn number_of_text(text: &[u8]) -> Result<i64, Fault>
    ensures { result ≡ as_fault (number_of_text text.now) }
{
    as_fault(number_of(text))
}

/// The number of a value: 0 of an uninitialised one, and of a text that of its longest prefix that is number text.
///
/// # Errors
///
/// [`Fault::Fraction`] where a text's number is not whole, and else [`Fault::Range`] where it is outside the range.
pub fn to_number(value: &Value) -> Result<i64, Fault>
    ensures { result ≡ number_of_value value.now }
{
    match value {
        Value::Uninit => Ok(0),
        Value::Num(number) => Ok(*number),
        Value::Text(text) | Value::StrNum(text) => number_of_text(text.as_slice()),
    }
}

/// The number of a value, that of a text truncated towards 0.
///
/// # Errors
///
/// [`Fault::Fraction`] and [`Fault::Range`] as [`truncated_of`] tells them.
pub fn truncated(value: &Value) -> Result<i64, Fault>
    ensures { result ≡ truncated_of_value value.now }
{
    match value {
        Value::Uninit => Ok(0),
        Value::Num(whole) => Ok(*whole),
        Value::Text(text) | Value::StrNum(text) => as_fault(truncated_of(text.as_slice())),
    }
}

/// The text of a value: the decimal digits of a number, nothing of an uninitialised value.
///
/// # Errors
///
/// [`Stop::NoMemory`] alone.
pub fn to_text(alloc: Global, value: &Value) -> Result<Bytes, Stop>
    ensures ok { IfOk result (λ text. text ≡ text_of_value value.now) }
    ensures err { IfErr result (λ stop. stop ≡ Stop.NoMemory) }
{
    match value {
        Value::Uninit => Ok(Bytes::from_slice(alloc, &[])?),
        Value::Num(number) => Ok(Bytes::from_slice(alloc, text_of(*number).as_bytes())?),
        Value::Text(text) | Value::StrNum(text) => Ok(text.clone()?),
    }
}

/// The truth of a value. It never faults: a numeric string that looks numeric is true where a digit of its mantissa is not 0.
pub fn truth(value: &Value) -> bool
    ensures { result ≡ truth_of_value value.now }
{
    match value {
        Value::Uninit => false,
        Value::Num(number) => *number != 0,
        Value::Text(text) => text.len() != 0,
        Value::StrNum(text) => {
            if looks_numeric(text.as_slice()) {
                is_nonzero(text.as_slice())
            } else {
                text.len() != 0
            }
        }
    }
}
