//! How many bytes the texts of fields have.
ghost use Rattle.std.specs.Prelude.{◌≡◌, ◌+◌, ◌*◌, ◌-◌, ◌<◌, ◌≤◌, ◌^◌, IfErr, IfOk, get_or, length, slice_set};
ghost use Rattle.std.specs.List.{sum_by};
ghost use Rattle.awk_values.specs.declared.fault.Fault.TheVariants.{TextLimit};
ghost use Rattle.awk_values.specs.declared.value.Value.TheVariants.{Uninit};
ghost use Rattle.sem_primitives.specs.FieldMeaning.{at_least, resized};
ghost use Rattle.sem_primitives.specs.Limits.{most_text};
ghost use Rattle.host_fields.specs.Held.{IsMeasured, text_size};

use crate::fields::Form;
use awk_text::text_of;
use awk_values::{Fault, Value};
use sem_primitives::MAX_TEXT;

/// How many bytes the text of a value has.
pub(crate) fn text_size(value: &Value) -> usize
    ensures { result ≡ text_size value.now }
{
    match value {
        Value::Uninit => 0,
        Value::Num(number) => text_of(*number).as_bytes().len(),
        Value::Text(text) | Value::StrNum(text) => text.len(),
    }
}

/// How many bytes the texts of values have together.
fn size_of(values: &[Value]) -> u128
    ensures size { result ≡ sum_by text_size values.now }
    ensures few { result < 2 ^ 127 }
{
    let mut size = 0;
    for value in values {
        size += text_size(value) as u128;
    }
    size
}

/// The same of the fields, which is known where `$0` is yet to be built of them.
fn size_of_own(form: Form, own: &[Value]) -> u128
    requires { IsMeasured form own.now }
    ensures size { result ≡ sum_by text_size own.now }
    ensures few { result < 2 ^ 127 }
{
    match form {
        Form::Unbuilt(size) => size as u128,
        Form::Later(..) | Form::Parts | Form::Own => size_of(own),
    }
}

/// How many bytes the text of a field has: none if there is no such field.
fn former_size(own: &[Value], at: usize) -> usize
    ensures { result ≡ text_size (get_or own.now at Uninit) }
{
    match own.get(at) {
        Some(value) => text_size(value),
        None => 0,
    }
}

#[tactic(auto, using(crate::proofs::TextSizes::former_le, crate::proofs::TextSizes::set_size))]
/// The same where a field has another value, and fields before it that are missing have none.
pub(crate) fn size_with(form: Form, own: &[Value], at: usize, value: &Value) -> u128
    requires { IsMeasured form own.now }
    ensures { result ≡ sum_by text_size (slice_set (at_least (at + 1) own.now) at value.now) }
{
    size_of_own(form, own) - former_size(own, at) as u128 + text_size(value) as u128
}

#[tactic(auto, using(crate::proofs::TextSizes::all_size))]
/// The same where there are exactly so many fields.
pub(crate) fn size_of_first(form: Form, own: &[Value], count: usize) -> u128
    requires { IsMeasured form own.now }
    ensures { result ≡ sum_by text_size (resized count own.now) }
{
    let all = size_of_own(form, own);
    if count < own.len() {
        return all - size_of(&own[count..]);
    }
    all
}

/// How many bytes `$0` has whose fields have texts of this size, with so many bytes between two of them.
///
/// # Errors
///
/// `TextLimit` past 67,108,864 bytes.
pub(crate) fn whole_size(texts: u128, count: usize, between: usize) -> Result<usize, Fault>
    ensures ok { IfOk result (λ size. size ≡ texts + (count - 1) * between) }
    ensures within { IfOk result (λ size. size ≤ most_text) }
    ensures fault { IfErr result (λ fault. fault ≡ TextLimit) }
    ensures past { IfErr result (λ fault. most_text < texts + (count - 1) * between) }
{
    let gaps = count.saturating_sub(1) as u128 * between as u128;
    let size = texts.saturating_add(gaps);
    if size > MAX_TEXT as u128 {
        return Err(Fault::TextLimit);
    }
    Ok(size as usize)
}
