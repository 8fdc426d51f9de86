//! The bytes of a key, which take no memory of their own.
ghost use Rattle.std.specs.Prelude.{◌≡◌};
ghost use Rattle.awk_values.specs.Values.{text_of_value};
ghost use Rattle.host_values.specs.Texts.{key_bytes};

use awk_text::{NumText, text_of};
use awk_values::{Bytes, Value};

/// The bytes of a key: those of a text, which are lent, or the digits of a number.
#[derive(Drop)]
pub enum KeyText<'a> {
    Lent(&'a Bytes),
    Digits(NumText),
    Empty,
}

impl KeyText<'_> {
    /// The bytes.
    #[inline(always)]
    pub fn as_slice(&self) -> &[u8]
        ensures { result.now ≡ key_bytes self.now }
    {
        match self {
            KeyText::Lent(text) => text.as_slice(),
            KeyText::Digits(digits) => digits.as_bytes(),
            KeyText::Empty => &[],
        }
    }
}

/// The key that a value is.
#[inline(always)]
pub fn key_text(value: &Value) -> KeyText<'_>
    ensures { key_bytes result ≡ text_of_value value.now }
{
    match value {
        Value::Text(text) | Value::StrNum(text) => KeyText::Lent(text),
        Value::Num(number) => KeyText::Digits(text_of(*number)),
        Value::Uninit => KeyText::Empty,
    }
}
