//! The text of a record that is made of its fields.
ghost use Rattle.std.specs.Prelude.{◌≡◌, ◌++◌, [], IfOk, OnOk};
ghost use Rattle.awk_values.specs.Values.{text_of_value};
ghost use Rattle.sem_primitives.specs.FieldMeaning.{joined};

use awk_text::text_of;
use awk_values::{Bytes, Value};
use std::alloc::{AllocError, Global};

/// Adds the text of a value.
fn put_value(out: &mut Vec<u8>, value: &Value) -> Result<(), AllocError>
    ensures { OnOk result (out.new.items ≡ out.old.items ++ text_of_value value.now) }
{
    match value {
        Value::Uninit => Ok(()),
        Value::Num(number) => out.extend_from_slice(text_of(*number).as_bytes()),
        Value::Text(text) | Value::StrNum(text) => out.extend_from_slice(text.as_slice()),
    }
}

/// Adds the texts of values with another text between them to no text.
fn put_all(out: &mut Vec<u8>, values: &[Value], between: &[u8]) -> Result<(), AllocError>
    requires { out.old.items ≡ [] }
    ensures { OnOk result (out.new.items ≡ joined between.now values.now) }
{
    if let [first, rest @ ..] = values {
        put_value(out, first)?;
        for value in rest {
            out.extend_from_slice(between)?;
            put_value(out, value)?;
        }
    }
    Ok(())
}

/// The texts of values with another text between them, put into this room.
#[inline(never)]
pub(crate) fn joined(room: Vec<u8>, values: &[Value], between: &[u8]) -> Result<Bytes, AllocError>
    ensures { IfOk result (λ text. text ≡ joined between.now values.now) }
{
    let mut out = room;
    out.clear();
    put_all(&mut out, values, between)?;
    Bytes::from_vec(out)
}
