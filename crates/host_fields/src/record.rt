//! The record.
ghost use Rattle.std.specs.Prelude.{◌≡◌, ◌≢◌, ◌↔◌, ◌+◌, ◌-◌, ◌*◌, ◌≤◌, ◌&&◌, ℕ, not, Err, List, [], IfErr, IfOk, Ok, OnErr, OnOk, length, pos, slice_get};
ghost use Rattle.awk_values.specs.declared.value.Value.TheVariants.{StrNum, Uninit};
ghost use Rattle.sem_primitives.specs.Texts.{is_empty};
ghost use Rattle.sem_primitives.specs.FieldMeaning.{at_least, field_number};
ghost use Rattle.sem_primitives.specs.Limits.{most_text};
ghost use Rattle.host_bytes.specs.Outcomes.{IsPast, IsStopOf};
ghost use Rattle.host_fields.specs.Held.{AreHeld, IsMeasured, IsOwn, held_in};
ghost use Rattle.host_fields.specs.Calls.{IsBeyond, IsRecordOf, IsStopOfChange, IsStopOfRecord, Makes, Reads, count_set, field_set};
ghost use Rattle.host_fields.specs.Views.{IsMissing, lent, viewed};

use crate::fields::{Form, count_fields, find_field, part_of, place_of_whole, to_own, to_split};
use crate::joined::joined;
use crate::number::field_number;
use crate::sizes::{size_of_first, size_with, whole_size};
use crate::splitter::{LastSep, split};
use crate::view::{FieldView, Whole};
use awk_values::{Bytes, Fault, Stop, Value};
use host_format::{Plain, Span};
use sem_primitives::MAX_FIELDS;
use std::alloc::{AllocError, Global};
use std::marker::Model;
use std::mem::{replace, swap};

/// At least so many fields: those that are missing have no value.
fn extend(fields: &mut Vec<Value>, count: usize) -> Result<(), AllocError>
    ensures ok { OnOk result (fields.new.items ≡ at_least count fields.old.items) }
    ensures err { OnErr result (fields.new.items ≡ fields.old.items) }
{
    if count > fields.len() {
        fields.resize(count, Value::Uninit)?;
    }
    Ok(())
}

/// The number that a script gives, once the fields are values of their own.
fn number_for_own(
    form: &mut Form,
    own: &mut Vec<Value>,
    whole: &Value,
    spans: &mut Vec<Span>,
    n: i64,
) -> Result<usize, Stop>
    requires held { AreHeld form.old whole.now spans.old.items }
    requires measured { IsMeasured form.old own.old.items }
    ensures held { AreHeld form.new whole.now spans.new.items }
    ensures measured { IsMeasured form.new own.new.items }
    ensures same { (between : List ℕ)
        → held_in form.new whole.now spans.new.items own.new.items between
        ≡ held_in form.old whole.now spans.old.items own.old.items between }
    ensures own { OnOk result (IsOwn form.new) }
    ensures number { IfOk result (λ number. Ok number ≡ field_number n) }
    ensures err { IfErr result (IsStopOf (field_number n)) }
{
    let number = field_number(n)?;
    to_own(form, own, whole, spans)?;
    Ok(number)
}

/// Makes room for `$0`, of fields whose texts have this size, and puts what is to be between them in its place. Gives that size.
///
/// # Errors
///
/// `TextLimit` where `$0` would be past 67,108,864 bytes; [`Stop::NoMemory`].
fn make_room(
    room: &mut Vec<u8>,
    between: &mut Vec<u8>,
    texts: u128,
    count: usize,
    ofs: &[u8],
) -> Result<usize, Stop>
    ensures size { IfOk result (λ size. size ≡ texts) }
    ensures within { OnOk result (texts + (count - 1) * length ofs.now ≤ most_text) }
    ensures between { OnOk result (between.new.items ≡ ofs.now) }
    ensures err { (text : List ℕ) → length text ≡ texts + (count - 1) * length ofs.now
        → IfErr result (IsPast text) }
{
    let size = whole_size(texts, count, ofs.len())?;
    room.clear();
    room.reserve(size)?;
    between.clear();
    between.extend_from_slice(ofs)?;
    Ok(texts as usize)
}

/// The record and its fields (POSIX.1-2017 awk, "Variables and Special Variables"). Contracts see `$0`, and the fields from `$1` on.
///
/// Fields that are split off are parts of the record's text, until a field or NF is set. Mostly they are split off when one of them, or NF, is first
/// asked for. `$0` is built of its fields when it is read: setting a field, or NF, only makes room for it. What the lists take is kept from record to
/// record.
#[derive(Drop)]
pub struct Record {
    whole: Value,
    form: Form,
    /// The fields that are parts of `$0`.
    spans: Vec<Span>,
    /// Room for the parts of the next record.
    spare: Vec<Span>,
    /// The fields that are values of their own.
    own: Vec<Value>,
    /// What is between the fields of `$0` that is yet to be built.
    between: Vec<u8>,
    /// Room for what is between them after the next assignment.
    spare_between: Vec<u8>,
    /// Room for the text of `$0` that is yet to be built.
    room: Vec<u8>,
    last: Option<LastSep>,
    /// The length of the longest text that `$0` was set to.
    longest: usize,
}

/// `$0` gets another text.
#[inline(always)]
fn put_text(whole: &mut Value, text: Bytes)
    ensures { whole.new ≡ StrNum text }
{
    *whole = Value::StrNum(text);
}

/// Whether newlines separate fields too: where empty lines end records, unless each byte is a field.
fn do_newlines_separate(fs: &[u8], rs: &[u8]) -> bool
    ensures { result ≡ (is_empty rs.now && not (is_empty fs.now)) }
{
    rs.is_empty() && !fs.is_empty()
}

impl Model for Record {
    ghost use Rattle.host_fields.specs.Held.{AreHeld, Held, IsMeasured, held_code, held_in};
    ghost use Rattle.host_fields.specs.Splits.{IsKept};

    ghost Value = { Held };

    ghost coded = { held_code };

    ghost view = { λ r. held_in r.form r.whole r.spans.items r.own.items r.between.items };

    ghost invariant = { λ r. AreHeld r.form r.whole r.spans.items × IsMeasured r.form r.own.items × IsKept r.last };
}

impl Record {
    /// No record yet: `$0` has no value, and there are no fields. It takes no memory.
    pub fn new(alloc: Global) -> Self
        ensures { result ≡ record { whole = Uninit; fields = [] } }
    {
        Record {
            whole: Value::Uninit,
            form: Form::Own,
            spans: Vec::new(alloc),
            spare: Vec::new(alloc),
            own: Vec::new(alloc),
            between: Vec::new(alloc),
            spare_between: Vec::new(alloc),
            room: Vec::new(alloc),
            last: None,
            longest: 0,
        }
    }

    /// Sets `$0`. What separates its fields is that which FS and RS mean now. Where no fault can come of it, `$0` is split when a field or NF is asked for.
    ///
    /// # Errors
    ///
    /// `BadEre` and `EreTooLarge` of FS, also where the text is empty; `FieldNumber` where there are more than 1,048,576 fields;
    /// [`Stop::NoMemory`].
    #[inline(always)]
    pub fn set_whole(&mut self, text: Bytes, fs: &[u8], rs: &[u8]) -> Result<(), Stop>
        ensures ok { OnOk result (IsRecordOf fs.now rs.now text self.new) }
        ensures err { IfErr result (IsStopOfRecord fs.now rs.now text) }
        ensures refused { OnErr result (self.new ≡ self.old) }
    {
        if let Some(by) = Plain::of(fs) {
            if text.len() < MAX_FIELDS {
                let newlines = do_newlines_separate(fs, rs);
                self.own.clear();
                self.form = Form::Later(by, newlines);
                self.longest = self.longest.max(text.len());
                put_text(&mut self.whole, text);
                return Ok(());
            }
        }
        self.set_split(text, fs, rs)
    }

    /// The same, where `$0` is split at once. It stands apart, so that the way of most records is short.
    #[inline(never)]
    fn set_split(&mut self, text: Bytes, fs: &[u8], rs: &[u8]) -> Result<(), Stop>
        ensures ok { OnOk result (IsRecordOf fs.now rs.now text self.new) }
        ensures err { IfErr result (IsStopOfRecord fs.now rs.now text) }
        ensures refused { OnErr result (self.new ≡ self.old) }
    {
        let newlines = do_newlines_separate(fs, rs);
        split(
            &mut self.spare,
            &mut self.last,
            text.as_slice(),
            fs,
            newlines,
        )?;
        if self.spare.len() > MAX_FIELDS {
            return Err(Stop::Fault(Fault::FieldNumber));
        }
        swap(&mut self.spans, &mut self.spare);
        self.own.clear();
        self.form = Form::Parts;
        self.longest = self.longest.max(text.len());
        put_text(&mut self.whole, text);
        Ok(())
    }

    /// Sets a field from `$1` on: it keeps the value, NF is raised where it was less, and `$0` is the fields with OFS between them. `$0` is built when it
    /// is read; here its length is tested, and room is made for it.
    ///
    /// # Errors
    ///
    /// `FieldNumber` where the number is below 0 or above 1,048,576; `TextLimit` where `$0` would be past 67,108,864 bytes; [`Stop::NoMemory`].
    pub fn set_field(&mut self, n: i64, value: Value, ofs: &[u8]) -> Result<(), Stop>
        requires { n ≢ pos 0 }
        ensures ok { OnOk result (Makes ofs.now (field_set n value) self.old self.new) }
        ensures err { IfErr result (IsStopOfChange ofs.now (field_set n value) self.old) }
        ensures refused { OnErr result (self.new ≡ self.old) }
    {
        let number = number_for_own(
            &mut self.form,
            &mut self.own,
            &self.whole,
            &mut self.spans,
            n,
        )?;
        let texts = size_with(self.form, self.own.as_slice(), number - 1, &value);
        let count = self.own.len().max(number);
        let size = make_room(&mut self.room, &mut self.spare_between, texts, count, ofs)?;
        extend(&mut self.own, number)?;
        self.own[number - 1] = value;
        swap(&mut self.between, &mut self.spare_between);
        self.form = Form::Unbuilt(size);
        Ok(())
    }

    /// Sets NF: fields beyond it are cut off, those that are missing have no value, and `$0` is the fields with OFS between them, as of
    /// [`Record::set_field`].
    ///
    /// # Errors
    ///
    /// `FieldNumber` where the number is below 0 or above 1,048,576; `TextLimit` where `$0` would be past 67,108,864 bytes; [`Stop::NoMemory`].
    pub fn set_count(&mut self, n: i64, ofs: &[u8]) -> Result<(), Stop>
        ensures ok { OnOk result (Makes ofs.now (count_set n) self.old self.new) }
        ensures err { IfErr result (IsStopOfChange ofs.now (count_set n) self.old) }
        ensures refused { OnErr result (self.new ≡ self.old) }
    {
        let count = number_for_own(
            &mut self.form,
            &mut self.own,
            &self.whole,
            &mut self.spans,
            n,
        )?;
        let texts = size_of_first(self.form, self.own.as_slice(), count);
        let size = make_room(&mut self.room, &mut self.spare_between, texts, count, ofs)?;
        extend(&mut self.own, count)?;
        self.own.truncate(count);
        swap(&mut self.between, &mut self.spare_between);
        self.form = Form::Unbuilt(size);
        Ok(())
    }

    /// The length of the longest text that `$0` was set to: a field's text is a part of one at most as long.
    #[inline(always)]
    pub fn longest(&self) -> usize {
        self.longest
    }

    /// `$0`. It takes no memory.
    #[inline(always)]
    pub fn whole(&self) -> Whole<'_>
        ensures { result ≡ self.now.whole }
    {
        Whole::at(place_of_whole(
            self.form,
            &self.whole,
            self.own.as_slice(),
            self.between.as_slice(),
        ))
    }

    /// Builds `$0`, if it is yet to be built.
    fn build(&mut self) -> Result<(), AllocError>
        ensures { self.new ≡ self.old }
    {
        if let Form::Unbuilt(_) = self.form {
            let alloc = *self.own.allocator();
            let room = replace(&mut self.room, Vec::new(alloc));
            let whole = joined(room, self.own.as_slice(), self.between.as_slice())?;
            put_text(&mut self.whole, whole);
            self.form = Form::Own;
        }
        Ok(())
    }

    /// Splits `$0` for a field, or builds it where the number is 0, if that was put off: then [`Record::field`] need not read the text for it. Nothing
    /// changes, and where there is no memory for it nothing is done.
    #[inline(always)]
    pub fn prepare(&mut self, n: i64)
        ensures { self.new ≡ self.old }
    {
        if n == 0 {
            let _ = self.build();
        } else {
            let _ = to_split(&mut self.form, &self.whole, &mut self.spans);
        }
    }

    /// A field from `$1` on, where `number` counts from 0.
    #[inline(always)]
    fn own_or_part(&self, number: usize) -> FieldView<'_>
        ensures { lent result ≡ slice_get self.now.fields number }
    {
        match self.form {
            Form::Own | Form::Unbuilt(_) => match self.own.get(number) {
                Some(value) => FieldView::Own(value),
                None => FieldView::Missing,
            },
            Form::Parts => match self.spans.get(number) {
                Some(span) => FieldView::Part(part_of(&self.whole, *span)),
                None => FieldView::Missing,
            },
            Form::Later(by, newlines) => match find_field(&self.whole, by, newlines, number) {
                Some(part) => FieldView::Part(part),
                None => FieldView::Missing,
            },
        }
    }

    /// The field of a number; that of 0 is `$0`. It takes no memory: a field that is yet to be split off is found in the text, unless
    /// [`Record::prepare`] was called.
    ///
    /// # Errors
    ///
    /// `FieldNumber` where the number is below 0 or above 1,048,576.
    #[inline(always)]
    pub fn field(&self, n: i64) -> Result<FieldView<'_>, Fault>
        ensures ok { IfOk result (λ view. Reads n self.now (viewed view)) }
        ensures missing { IfOk result (λ view. IsMissing view ↔ IsBeyond n self.now) }
        ensures err { IfErr result (λ fault. field_number n ≡ Err fault) }
    {
        let number = field_number(n)?;
        if number == 0 {
            return Ok(FieldView::Whole(self.whole()));
        }
        Ok(self.own_or_part(number - 1))
    }

    /// NF, the number of fields. Nothing changes. It always succeeds, and needs no memory: where there is none for the places of fields that are still to
    /// be split off, they are only counted.
    pub fn count(&mut self) -> usize
        ensures count { result ≡ length self.old.fields }
        ensures same { self.new ≡ self.old }
    {
        let _ = to_split(&mut self.form, &self.whole, &mut self.spans);
        match self.form {
            Form::Own | Form::Unbuilt(_) => self.own.len(),
            Form::Parts => self.spans.len(),
            Form::Later(by, newlines) => count_fields(&self.whole, by, newlines),
        }
    }
}
