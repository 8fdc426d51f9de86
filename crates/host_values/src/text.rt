//! The text of a value, which takes no memory where the value is one.
ghost use Rattle.std.specs.Prelude.{◌≡◌, IfOk};
ghost use Rattle.awk_values.specs.Values.{text_of_value};
ghost use Rattle.host_values.specs.Texts.{shown};

use awk_values::{Bytes, Value, to_text};
use std::alloc::{AllocError, Global};

/// The text of a value: its own where it is a text, and else one that was made of it.
#[derive(Drop)]
pub enum ValueText<'a> {
    Own(&'a Bytes),
    Made(Bytes),
}

impl ValueText<'_> {
    /// The text.
    #[inline(always)]
    pub fn bytes(&self) -> &Bytes
        ensures { result.now ≡ shown self.now }
    {
        match self {
            ValueText::Own(text) => text,
            ValueText::Made(text) => text,
        }
    }

    /// Its bytes.
    #[inline(always)]
    pub fn as_slice(&self) -> &[u8]
        ensures { result.now ≡ shown self.now }
    {
        self.bytes().as_slice()
    }
}

/// The text of a value; one that is a text shares it.
///
/// # Errors
///
/// There is no memory.
#[inline(never)]
pub fn shared_text(alloc: Global, value: &Value) -> Result<Bytes, AllocError>
    ensures { IfOk result (λ text. text ≡ text_of_value value.now) }
{
    match to_text(alloc, value) {
        Ok(text) => Ok(text),
        Err(_) => Err(AllocError),
    }
}

/// The text of a value, which is lent where the value is a text.
///
/// # Errors
///
/// There is no memory for the text of a number.
#[inline(always)]
pub fn value_text(alloc: Global, value: &Value) -> Result<ValueText<'_>, AllocError>
    ensures { IfOk result (λ text. shown text ≡ text_of_value value.now) }
{
    match value {
        Value::Text(text) | Value::StrNum(text) => Ok(ValueText::Own(text)),
        Value::Uninit | Value::Num(_) => Ok(ValueText::Made(shared_text(alloc, value)?)),
    }
}
