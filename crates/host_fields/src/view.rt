//! `$0` and its fields, as the record lends them.
ghost use Rattle.std.specs.Prelude.{◌≡◌, IfOk};
ghost use Rattle.host_format.specs.Spans.{IsInside, span_text};
ghost use Rattle.host_fields.specs.Places.{shown};
ghost use Rattle.host_fields.specs.Views.{viewed};

use crate::joined::joined;
use awk_values::{Bytes, Value};
use host_format::Span;
use std::alloc::{AllocError, Global};
use std::marker::Model;

/// Where `$0` is.
#[derive(Clone, Copy, Drop)]
pub(crate) enum Place<'a> {
    /// `$0`, which is there.
    Held(&'a Value),
    /// `$0` that is not built yet: the texts of these fields, with this text between them.
    Joined(&'a [Value], &'a [u8]),
}

/// `$0`, as a record lends it: nothing is copied, and no memory taken. Contracts see its value.
#[derive(Drop)]
pub struct Whole<'a> {
    place: Place<'a>,
}

impl<'a> Model for Whole<'a> {
    ghost use Rattle.awk_values.specs.contracts.value.Value as stored;
    ghost use Rattle.awk_values.specs.declared.value.Value.{Value as AnyValue};
    ghost use Rattle.host_fields.specs.Places.{shown};

    ghost Value = { AnyValue };

    ghost coded = { stored.the_row.coded };

    ghost view = { λ f. shown f.place };
}

impl<'a> Whole<'a> {
    /// What is at a place.
    #[inline(always)]
    pub(crate) fn at(place: Place<'a>) -> Whole<'a>
        ensures { result ≡ shown place.entry }
    {
        Whole { place }
    }

    /// Its value; a text is shared.
    ///
    /// # Errors
    ///
    /// There is no memory, or the count of those who share the text is full.
    #[inline(always)]
    pub fn value(&self, alloc: Global) -> Result<Value, AllocError>
        ensures { IfOk result (λ value. value ≡ self.now) }
    {
        match self.place {
            Place::Held(value) => value.clone(),
            Place::Joined(values, between) => {
                Ok(Value::StrNum(joined(Vec::new(alloc), values, between)?))
            }
        }
    }
}

/// A part of a text, as a record lends it: nothing is copied, and no memory taken. Contracts see the part.
#[derive(Drop)]
pub struct Part<'a> {
    text: &'a Bytes,
    span: Span,
}

impl<'a> Model for Part<'a> {
    ghost use Rattle.std.specs.Prelude.{List, ℕ};
    ghost use Rattle.host_format.specs.Spans.{IsInside, span_text};

    ghost Value = { List ℕ };

    ghost view = { λ p. span_text p.text.now p.span };

    ghost invariant = { λ p. IsInside p.text.now p.span };
}

impl<'a> Part<'a> {
    /// The part of a text.
    #[inline(always)]
    pub(crate) fn of(text: &'a Bytes, span: Span) -> Part<'a>
        requires { IsInside text.now span }
        ensures { result ≡ span_text text.now span }
    {
        Part { text, span }
    }

    /// The bytes of the part.
    #[inline(always)]
    pub fn as_slice(&self) -> &'a [u8]
        ensures { result.now ≡ self.now }
    {
        &self.text.as_slice()[self.span.start..self.span.end]
    }

    /// The part as a text that shares the other's bytes.
    ///
    /// # Errors
    ///
    /// The count of those who share the text is full.
    #[inline(always)]
    pub fn bytes(&self) -> Result<Bytes, AllocError>
        ensures { IfOk result (λ bytes. bytes ≡ self.now) }
    {
        self.text.part(self.span.start, self.span.end)
    }
}

/// A field, or `$0`, as a record lends it: nothing is copied, and no memory taken.
#[derive(Drop)]
pub enum FieldView<'a> {
    /// There is no such field.
    Missing,
    /// `$0`.
    Whole(Whole<'a>),
    /// A field that is a value of its own.
    Own(&'a Value),
    /// A part of the text of `$0`: a numeric string.
    Part(Part<'a>),
}

impl<'a> FieldView<'a> {
    /// Its value; a text is shared. A field that is missing has no value.
    ///
    /// # Errors
    ///
    /// There is no memory, or the count of those who share the text is full.
    #[inline(always)]
    pub fn value(&self, alloc: Global) -> Result<Value, AllocError>
        ensures { IfOk result (λ value. value ≡ viewed self.now) }
    {
        match self {
            FieldView::Missing => Ok(Value::Uninit),
            FieldView::Whole(whole) => whole.value(alloc),
            FieldView::Own(value) => (*value).clone(),
            FieldView::Part(part) => Ok(Value::StrNum(part.bytes()?)),
        }
    }
}
