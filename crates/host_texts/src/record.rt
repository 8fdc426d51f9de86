//! Primitives on special variables, the record and its fields.
ghost use Rattle.std.specs.Prelude.{◌≡◌, ◌≢◌, pos, IfErr, IfOk, IfSome, OnErr, OnOk};
ghost use Rattle.awk_values.specs.Values.{text_of_value};
ghost use Rattle.sem_primitives.specs.FieldMeaning.{done, set_special, with_record};
ghost use Rattle.sem_primitives.specs.Rows.{set_special_row};
ghost use Rattle.sem_primitives.specs.SharedState.{Inner, special_of};
ghost use Rattle.host_step.specs.HostState.{HostState};
ghost use Rattle.host_bytes.specs.Outcomes.{IsStopOf};
ghost use Rattle.host_fields.specs.Calls.{count_set, field_read, field_set};
ghost use Rattle.host_texts.specs.Evaluations.{done_reply, field_evaluation, get_special_evaluation, replied, set_field_evaluation, set_special_evaluation, settled};
ghost use Rattle.host_values.specs.Evaluations.{Evaluates};
ghost use Rattle.host_texts.specs.States.{holding, with_texts};

use crate::text_words::special_front;
use crate::texts::Texts;
use awk_values::{Bytes, Fault, Stop, Value, to_number};
use host_handles::Handles;
use host_values::{
    Evaluated, Refusal, Reply, Spent, expect_end, number_front, shared_text, value_front,
    value_text,
};
use sem_primitives::Special;
use std::alloc::{AllocError, Global};
use wasm_store::Word;

/// The value of a special variable.
#[inline(always)]
fn special_value(texts: &mut Texts, special: Special) -> Result<Value, AllocError>
    ensures value { IfOk result
        (λ value. (inner : Inner) → value ≡ special_of (with_texts texts.old inner) special) }
    ensures same { texts.new ≡ texts.old }
{
    if special != Special::Nf {
        return texts.specials.get(special).clone();
    }
    match i64::try_from(texts.current_record.count()) {
        Ok(count) => Ok(Value::Num(count)),
        Err(_) => Err(AllocError),
    }
}

/// The value of a special variable.
///
/// # Errors
///
/// A trap, or want of memory.
#[inline(always)]
pub fn get_special(
    handles: &Handles,
    texts: &mut Texts,
    words: &[Word],
) -> Result<Evaluated, Refusal>
    ensures { (s : HostState)
        → Evaluates handles.now (holding texts.old s) result (holding texts.new s)
        (get_special_evaluation handles.now (holding texts.old s) words.now) }
{
    let (special, rest) = special_front(words)?;
    expect_end(rest)?;
    Ok(Evaluated {
        spent: Spent::Nothing,
        outcome: Ok(Reply::Value(special_value(texts, special)?)),
    })
}

/// Sets NF.
fn set_count(alloc: Global, texts: &mut Texts, count: i64) -> Result<(), Stop>
    ensures ok { OnOk result ((inner : Inner) → count_set count (with_texts texts.old inner)
        ≡ Ok (with_texts texts.new inner)) }
    ensures err { IfErr result
        (λ stop. (inner : Inner) → IsStopOf (count_set count (with_texts texts.old inner)) stop) }
    ensures refused { OnErr result (texts.new ≡ texts.old) }
{
    let ofs = value_text(alloc, texts.specials.get(Special::Ofs))?;
    let set = texts.current_record.set_count(count, ofs.as_slice());
    drop(ofs);
    set
}

/// Gives a special variable a value; NF cuts or extends the fields.
///
/// # Errors
///
/// The fault of the value's number where it is NF's, `FieldNumber` and `TextLimit` of NF, or want of memory; nothing changes.
pub fn put_special(
    alloc: Global,
    texts: &mut Texts,
    special: Special,
    value: &Value,
) -> Result<(), Stop>
    ensures ok { OnOk result ((inner : Inner) → set_special special value.now
        (with_texts texts.old inner) ≡ Ok (with_texts texts.new inner)) }
    ensures err { IfErr result (λ stop. (inner : Inner)
        → IsStopOf (set_special special value.now (with_texts texts.old inner)) stop) }
    ensures refused { OnErr result (texts.new ≡ texts.old) }
{
    if special == Special::Nf {
        let count = to_number(value)?;
        return set_count(alloc, texts, count);
    }
    texts.specials.set(special, value.kept(alloc)?);
    Ok(())
}

/// What setting a special variable comes to.
fn special_outcome(
    alloc: Global,
    texts: &mut Texts,
    special: Special,
    value: &Value,
) -> Result<Result<Reply, Fault>, AllocError>
    ensures { IfOk result (λ outcome. (s : HostState) → settled (holding texts.old s) done_reply
        (set_special_row special value.now (with_texts texts.old s.shared.inner))
        ≡ (holding texts.new s, outcome)) }
{
    match put_special(alloc, texts, special, value) {
        Ok(()) => Ok(Ok(Reply::Done)),
        Err(Stop::Fault(fault)) => Ok(Err(fault)),
        Err(Stop::NoMemory) => Err(AllocError),
    }
}

/// A special variable gets a value; NF cuts or extends the fields.
///
/// # Errors
///
/// A trap, or want of memory.
pub fn set_special(
    alloc: Global,
    handles: &Handles,
    texts: &mut Texts,
    words: &[Word],
) -> Result<Evaluated, Refusal>
    ensures { (s : HostState)
        → Evaluates handles.now (holding texts.old s) result (holding texts.new s)
        (set_special_evaluation handles.now (holding texts.old s) words.now) }
{
    let (special, behind) = special_front(words)?;
    let (handle, value, rest) = value_front(handles, behind)?;
    expect_end(rest)?;
    Ok(Evaluated {
        spent: Spent::One(handle),
        outcome: special_outcome(alloc, texts, special, value)?,
    })
}

/// The same value; a text is shared.
fn copied(value: &Value) -> Result<Value, AllocError>
    ensures { IfOk result (λ copy. copy ≡ value.now) }
{
    value.clone()
}

/// What reading a field comes to.
#[inline(always)]
fn read_outcome(
    alloc: Global,
    texts: &mut Texts,
    number: i64,
) -> Result<Result<Reply, Fault>, AllocError>
    ensures outcome { IfOk result (λ outcome. (inner : Inner)
        → replied Reply.Value (field_read number (with_texts texts.old inner)) ≡ outcome) }
    ensures same { texts.new ≡ texts.old }
{
    texts.current_record.prepare(number);
    match texts.current_record.field(number) {
        Ok(view) => Ok(Ok(Reply::Value(view.value(alloc)?))),
        Err(fault) => Ok(Err(fault)),
    }
}

/// The value of a field, or of `$0`.
///
/// # Errors
///
/// A trap, or want of memory.
#[inline(always)]
pub fn field(
    alloc: Global,
    handles: &Handles,
    texts: &mut Texts,
    words: &[Word],
) -> Result<Evaluated, Refusal>
    ensures { (s : HostState) → Evaluates handles.now (holding texts.old s) result (holding
        texts.new s) (field_evaluation handles.now (holding texts.old s) words.now) }
{
    let (number, rest) = number_front(words)?;
    expect_end(rest)?;
    Ok(Evaluated {
        spent: Spent::Nothing,
        outcome: read_outcome(alloc, texts, number)?,
    })
}

/// The text of a value that is a text.
#[inline(always)]
fn lent_text(value: &Value) -> Option<&Bytes>
    ensures { IfSome result (λ text. text.now ≡ text_of_value value.now) }
{
    match value {
        Value::Text(text) | Value::StrNum(text) => Some(text),
        Value::Uninit | Value::Num(_) => None,
    }
}

/// Sets `$0`.
///
/// # Errors
///
/// The faults of FS and of the number of fields, or want of memory; nothing changes.
#[inline(always)]
pub fn put_record(alloc: Global, texts: &mut Texts, text: Bytes) -> Result<(), Stop>
    ensures ok { OnOk result ((inner : Inner) → with_record text (with_texts texts.old inner)
        ≡ Ok (with_texts texts.new inner)) }
    ensures err { IfErr result
        (λ stop. (inner : Inner) → IsStopOf (with_record text (with_texts texts.old inner)) stop) }
    ensures refused { OnErr result (texts.new ≡ texts.old) }
    ensures substituted { texts.new.substituted ≡ texts.old.substituted }
{
    let Some(fs) = lent_text(texts.specials.get(Special::Fs)) else {
        return put_record_by_made(alloc, texts, text);
    };
    let Some(rs) = lent_text(texts.specials.get(Special::Rs)) else {
        return put_record_by_made(alloc, texts, text);
    };
    texts
        .current_record
        .set_whole(text, fs.as_slice(), rs.as_slice())
}

/// The same, where FS or RS has to be made a text first. It stands apart, so that the way of most records is short.
#[inline(never)]
fn put_record_by_made(alloc: Global, texts: &mut Texts, text: Bytes) -> Result<(), Stop>
    ensures ok { OnOk result ((inner : Inner) → with_record text (with_texts texts.old inner)
        ≡ Ok (with_texts texts.new inner)) }
    ensures err { IfErr result
        (λ stop. (inner : Inner) → IsStopOf (with_record text (with_texts texts.old inner)) stop) }
    ensures refused { OnErr result (texts.new ≡ texts.old) }
    ensures substituted { texts.new.substituted ≡ texts.old.substituted }
{
    let fs = value_text(alloc, texts.specials.get(Special::Fs))?;
    let rs = value_text(alloc, texts.specials.get(Special::Rs))?;
    let set = texts
        .current_record
        .set_whole(text, fs.as_slice(), rs.as_slice());
    drop(fs);
    drop(rs);
    set
}

/// Sets `$0` to the text of a value.
fn put_whole(alloc: Global, texts: &mut Texts, value: &Value) -> Result<(), Stop>
    ensures ok { OnOk result ((inner : Inner) → with_record (text_of_value value.now)
        (with_texts texts.old inner) ≡ Ok (with_texts texts.new inner)) }
    ensures err { IfErr result (λ stop. (inner : Inner)
        → IsStopOf (with_record (text_of_value value.now) (with_texts texts.old inner)) stop) }
    ensures refused { OnErr result (texts.new ≡ texts.old) }
{
    let text = shared_text(alloc, value)?;
    put_record(alloc, texts, text)
}

/// Sets a field from `$1` on.
fn put_field(alloc: Global, texts: &mut Texts, number: i64, value: &Value) -> Result<(), Stop>
    requires { number ≢ pos 0 }
    ensures ok { OnOk result ((inner : Inner) → field_set number value.now
        (with_texts texts.old inner) ≡ Ok (with_texts texts.new inner)) }
    ensures err { IfErr result (λ stop. (inner : Inner)
        → IsStopOf (field_set number value.now (with_texts texts.old inner)) stop) }
    ensures refused { OnErr result (texts.new ≡ texts.old) }
{
    let ofs = value_text(alloc, texts.specials.get(Special::Ofs))?;
    let set = texts
        .current_record
        .set_field(number, copied(value)?, ofs.as_slice());
    drop(ofs);
    set
}

/// Sets a field; that of 0 is `$0`.
fn store_field(alloc: Global, texts: &mut Texts, number: i64, value: &Value) -> Result<(), Stop>
    ensures ok { OnOk result ((inner : Inner) → field_set number value.now
        (with_texts texts.old inner) ≡ Ok (with_texts texts.new inner)) }
    ensures err { IfErr result (λ stop. (inner : Inner)
        → IsStopOf (field_set number value.now (with_texts texts.old inner)) stop) }
    ensures refused { OnErr result (texts.new ≡ texts.old) }
{
    if number == 0 {
        return put_whole(alloc, texts, value);
    }
    put_field(alloc, texts, number, value)
}

/// What setting a field, or `$0`, comes to.
fn field_outcome(
    alloc: Global,
    texts: &mut Texts,
    number: i64,
    value: &Value,
) -> Result<Result<Reply, Fault>, AllocError>
    ensures { IfOk result (λ outcome. (s : HostState) → settled (holding texts.old s) done_reply
        (done (field_set number value.now (with_texts texts.old s.shared.inner)))
        ≡ (holding texts.new s, outcome)) }
{
    match store_field(alloc, texts, number, value) {
        Ok(()) => Ok(Ok(Reply::Done)),
        Err(Stop::Fault(fault)) => Ok(Err(fault)),
        Err(Stop::NoMemory) => Err(AllocError),
    }
}

/// A field, or `$0`, gets a value.
///
/// # Errors
///
/// A trap, or want of memory.
#[inline(always)]
pub fn set_field(
    alloc: Global,
    handles: &Handles,
    texts: &mut Texts,
    words: &[Word],
) -> Result<Evaluated, Refusal>
    ensures { (s : HostState)
        → Evaluates handles.now (holding texts.old s) result (holding texts.new s)
        (set_field_evaluation handles.now (holding texts.old s) words.now) }
{
    let (number, behind) = number_front(words)?;
    let (handle, value, rest) = value_front(handles, behind)?;
    expect_end(rest)?;
    Ok(Evaluated {
        spent: Spent::One(handle),
        outcome: field_outcome(alloc, texts, number, value)?,
    })
}
