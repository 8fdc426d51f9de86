//! Where the fields of a record stand.
ghost use Rattle.std.specs.Prelude.{◌≡◌, ℕ, List, OnOk, length, slice_get};
ghost use Rattle.awk_values.specs.Values.{text_of_value};
ghost use Rattle.awk_values.specs.declared.value.Value.{Value as AnyValue};
ghost use Rattle.sem_primitives.specs.Fields.{pieces_of};
ghost use Rattle.host_format.specs.Separators.{separator_by};
ghost use Rattle.host_format.specs.Spans.{AreSpans, span_text};
ghost use Rattle.host_fields.specs.Held.{AreHeld, IsMeasured, IsNumericText, IsOwn, IsPartOf, IsSplit, fields_in, held_in, whole_in};
ghost use Rattle.host_fields.specs.Places.{shown};
ghost use Rattle.host_fields.specs.declared.fields.Form.TheVariants.{Parts};

use crate::counted::count_pieces;
use crate::found::find_part;
use crate::view::{Part, Place};
use awk_values::Value;
use host_format::{Plain, Span, split_plain};
use std::alloc::AllocError;

/// Where fields stand.
#[derive(Clone, Copy, Drop)]
pub(crate) enum Form {
    /// `$0` is not split yet. It is to be split by this, and by newlines where the flag says so, whatever FS and RS are by then.
    Later(Plain, bool),
    /// They are parts of `$0`, which was split.
    Parts,
    /// They are values of their own.
    Own,
    /// The same, with texts of so many bytes together; `$0` is yet to be built of them.
    Unbuilt(usize),
}

/// A part of `$0`.
#[inline(always)]
pub(crate) fn part_of(whole: &Value, span: Span) -> Part<'_>
    requires { IsPartOf whole.now span }
    ensures { result ≡ span_text (text_of_value whole.now) span }
{
    match whole {
        Value::StrNum(text) => Part::of(text, span),
        _ => unreachable!(),
    }
}

/// Puts the parts of `$0` in the place of these values.
fn fill(own: &mut Vec<Value>, whole: &Value, spans: &[Span]) -> Result<(), AllocError>
    requires { AreHeld Parts whole.now spans.now }
    ensures { OnOk result (own.new.items ≡ fields_in Parts whole.now spans.now own.old.items) }
{
    own.clear();
    for span in spans {
        own.push(Value::StrNum(part_of(whole, *span).bytes()?))?;
    }
    Ok(())
}

/// Puts the parts of `$0` that are its fields in the place of these parts.
#[inline(never)]
fn split_whole(
    spans: &mut Vec<Span>,
    whole: &Value,
    by: Plain,
    newlines: bool,
) -> Result<(), AllocError>
    requires { IsNumericText whole.now }
    ensures { OnOk result (AreSpans (text_of_value whole.now) spans.new.items
        (pieces_of (separator_by by) newlines (text_of_value whole.now))) }
{
    let Value::StrNum(text) = whole else {
        unreachable!();
    };
    split_plain(spans, text.as_slice(), by, newlines)
}

/// Splits `$0`, if that was put off.
#[inline(always)]
pub(crate) fn to_split(
    form: &mut Form,
    whole: &Value,
    spans: &mut Vec<Span>,
) -> Result<(), AllocError>
    requires { AreHeld form.old whole.now spans.old.items }
    ensures held { AreHeld form.new whole.now spans.new.items }
    ensures measured { (own : List AnyValue) → IsMeasured form.old own → IsMeasured form.new own }
    ensures same { (own : List AnyValue) (between : List ℕ)
        → held_in form.new whole.now spans.new.items own between
        ≡ held_in form.old whole.now spans.old.items own between }
    ensures ok { OnOk result (IsSplit form.new) }
{
    if let Form::Later(by, newlines) = *form {
        split_whole(spans, whole, by, newlines)?;
        *form = Form::Parts;
    }
    Ok(())
}

/// Where `$0` is.
#[inline(always)]
pub(crate) fn place_of_whole<'a>(
    form: Form,
    whole: &'a Value,
    own: &'a [Value],
    between: &'a [u8],
) -> Place<'a>
    ensures { shown result ≡ whole_in form whole.now own.now between.now }
{
    match form {
        Form::Unbuilt(_) => Place::Joined(own, between),
        Form::Later(..) | Form::Parts | Form::Own => Place::Held(whole),
    }
}

/// How many fields `$0` has that is to be split.
pub(crate) fn count_fields(whole: &Value, by: Plain, newlines: bool) -> usize
    requires { IsNumericText whole.now }
    ensures { result ≡ length (pieces_of (separator_by by) newlines (text_of_value whole.now)) }
{
    match whole {
        Value::StrNum(text) => count_pieces(text.as_slice(), by, newlines),
        _ => unreachable!(),
    }
}

/// The field of a number, counted from 0, of `$0` that is to be split. It takes no memory.
pub(crate) fn find_field(
    whole: &Value,
    by: Plain,
    newlines: bool,
    number: usize,
) -> Option<Part<'_>>
    requires { IsNumericText whole.now }
    ensures { result ≡ slice_get
        (pieces_of (separator_by by) newlines (text_of_value whole.now)) number }
{
    match whole {
        Value::StrNum(text) => match find_part(text.as_slice(), by, newlines, number) {
            Some(span) => Some(Part::of(text, span)),
            None => None,
        },
        _ => unreachable!(),
    }
}

/// The fields become values of their own.
pub(crate) fn to_own(
    form: &mut Form,
    own: &mut Vec<Value>,
    whole: &Value,
    spans: &mut Vec<Span>,
) -> Result<(), AllocError>
    requires held { AreHeld form.old whole.now spans.old.items }
    requires measured { IsMeasured form.old own.old.items }
    ensures held { AreHeld form.new whole.now spans.new.items }
    ensures measured { IsMeasured form.new own.new.items }
    ensures same { (between : List ℕ)
        → held_in form.new whole.now spans.new.items own.new.items between
        ≡ held_in form.old whole.now spans.old.items own.old.items between }
    ensures ok { OnOk result (IsOwn form.new) }
{
    to_split(form, whole, spans)?;
    if let Form::Parts = *form {
        fill(own, whole, spans.as_slice())?;
        *form = Form::Own;
    }
    Ok(())
}
