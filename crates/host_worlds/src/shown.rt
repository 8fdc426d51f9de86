//! The text of a value, for which no memory is taken.
ghost use Rattle.std.specs.Prelude.{◌≡◌};
ghost use Rattle.awk_values.specs.Values.{text_of_value};
ghost use Rattle.host_worlds.specs.Shown.{shown};

use awk_text::{NumText, text_of};
use awk_values::{Bytes, Value};

/// The text of a value, which is its own, or the digits of its number. Nothing has to be done where it is let go.
#[derive(Drop)]
pub(crate) enum Shown<'a> {
    Own(&'a Bytes),
    Digits(NumText),
    Empty,
}

impl Shown<'_> {
    /// Its bytes.
    #[inline(always)]
    pub(crate) fn as_slice(&self) -> &[u8]
        ensures { result.now ≡ shown self.now }
    {
        match self {
            Shown::Own(text) => text.as_slice(),
            Shown::Digits(digits) => digits.as_bytes(),
            Shown::Empty => &[],
        }
    }
}

/// The text of a value.
#[inline(always)]
pub(crate) fn shown_text(value: &Value) -> Shown<'_>
    ensures { shown result ≡ text_of_value value.now }
{
    match value {
        Value::Uninit => Shown::Empty,
        Value::Num(number) => Shown::Digits(text_of(*number)),
        Value::Text(text) | Value::StrNum(text) => Shown::Own(text),
    }
}
