//! Scalars that are read and written.
ghost use Rattle.std.specs.Prelude.{◌≡◌, ◌≤◌, true, false, Some};
ghost use Rattle.mid_program.specs.Mid.{NumberOrText, Global as GlobalSlot, Parameter as ParameterSlot, slot_form};
ghost use Rattle.mid_program.specs.ViewCode.{view_slot};
ghost use Rattle.lower_model.specs.Emission.{handle_stored, parameter_read, slot_read, slot_set, text_dropped, text_stored, value_stored};
ghost use Rattle.lower_model.specs.Small.{boxed_perhaps};
ghost use Rattle.lower_pieces.specs.Bounds.{most_places};
ghost use Rattle.lower_pieces.specs.Emits.{Emits, Reads};
ghost use Rattle.lower_pieces.specs.Forms.{view_form};
ghost use Rattle.lower_expressions.specs.Fits.{SlotFits};
ghost use Rattle.lower_expressions.specs.View.{view_layout};

use crate::function_layout::FunctionLayout;
use crate::places::{global_handle, global_number};
use host_imports::Import;
use lower_pieces::{
    Emitted, Form, LEAST, MINUS_ONE, TEXT_BESIDE, boxed_number, boxed_perhaps, copied_by, emit,
    emit_all, emit_if, import_call, moved_out, number_is, row_call, when, when_all,
};
use mid_program::Slot;
use sem_primitives::{Answer, Primitive, Sort};
use wasm_types::{IRelOp, Simple, ValType};

/// What a scalar is once it is read.
pub(crate) fn slot_form(slot: Slot) -> Form
    ensures { view_form result ≡ slot_form (view_slot slot) }
{
    match slot {
        Slot::Global(true, _) | Slot::Parameter(true, _) => Form::NumberOrText,
        Slot::Global(false, _) | Slot::Parameter(false, _) => {
            Form::PrimitiveAnswer(Answer::Of(Sort::Value))
        }
    }
}

/// Reads an unboxed global. Its number says whether a text stands beside it.
fn bare_read(layout: &FunctionLayout<'_>, out: &mut Emitted, name: usize, temporary: u32)
    requires name { name ≤ most_places }
    requires places { temporary ≤ most_places }
    ensures { Emits out.old out.new
        (slot_read (view_layout layout.now) (GlobalSlot true name) temporary) }
{
    let all = [
        Simple::GlobalGet(global_number(layout, name)),
        Simple::LocalTee(layout.bases.number(temporary)),
        Simple::I64Const(TEXT_BESIDE),
        Simple::Compare(ValType::I64, IRelOp::Eq),
    ];
    emit_all(out, &all);
    let global = global_handle(layout, name);
    let copy = [
        Simple::GlobalGet(global),
        Simple::LocalTee(layout.bases.handle(temporary)),
        row_call(Primitive::Dup),
        Simple::GlobalSet(global),
    ];
    when_all(layout.alloc, out, &copy);
}

/// Reads an unboxed parameter; where it has nothing, the global that lends its value there.
fn lent_read(
    layout: &FunctionLayout<'_>,
    out: &mut Emitted,
    name: usize,
    place: usize,
    temporary: u32,
)
    requires name { name ≤ most_places }
    requires place { place ≤ most_places }
    requires places { temporary ≤ most_places }
    ensures { Emits out.old out.new
        (parameter_read (view_layout layout.now) (Some name) place temporary) }
{
    let all = [
        Simple::LocalGet(place as u32),
        Simple::LocalTee(layout.bases.number(temporary)),
        Simple::I64Const(LEAST),
        Simple::Compare(ValType::I64, IRelOp::Eq),
    ];
    emit_all(out, &all);
    let mut global = Emitted::new(layout.alloc);
    bare_read(layout, &mut global, name, temporary);
    when(layout.alloc, out, global);
}

/// Reads an unboxed parameter.
fn parameter_read(layout: &FunctionLayout<'_>, out: &mut Emitted, place: usize, temporary: u32)
    requires place { place ≤ most_places }
    requires places { temporary ≤ most_places }
    ensures { Emits out.old out.new
        (slot_read (view_layout layout.now) (ParameterSlot true place) temporary) }
{
    match layout.script.lender(place) {
        Some(name) => lent_read(layout, out, name, place, temporary),
        None => {
            let get = Simple::LocalGet(place as u32);
            let put = Simple::LocalSet(layout.bases.number(temporary));
            emit_all(out, &[get, put]);
        }
    }
}

/// Reads a scalar.
pub(crate) fn slot_read(layout: &FunctionLayout<'_>, out: &mut Emitted, slot: Slot, temporary: u32)
    requires slot { SlotFits (view_slot slot) }
    requires places { temporary ≤ most_places }
    ensures { Emits out.old out.new
        (slot_read (view_layout layout.now) (view_slot slot) temporary) }
{
    match slot {
        Slot::Global(false, name) => {
            let global = global_handle(layout, name);
            let (get, set) = (Simple::GlobalGet(global), Simple::GlobalSet(global));
            copied_by(out, get, set, layout.bases.handle(temporary));
        }
        Slot::Global(true, name) => bare_read(layout, out, name, temporary),
        Slot::Parameter(false, place) => {
            let local = place as u32;
            let (get, set) = (Simple::LocalGet(local), Simple::LocalSet(local));
            copied_by(out, get, set, layout.bases.handle(temporary));
        }
        Slot::Parameter(true, place) => parameter_read(layout, out, place, temporary),
    }
}

/// Stores a value: a second handle, where the first stays the answer, or the only one.
fn handle_stored(
    layout: &FunctionLayout<'_>,
    out: &mut Emitted,
    only: bool,
    temporary: u32,
    put: Simple,
)
    requires { temporary ≤ most_places }
    ensures { Emits out.old out.new
        (handle_stored (view_layout layout.now) only temporary put) }
{
    let local = layout.bases.handle(temporary);
    if only {
        moved_out(out, local);
        emit(out, put);
    } else {
        copied_by(out, Simple::LocalGet(local), put, local);
    }
}

/// Stores what an unboxed name has, as a value.
fn bare_stored(
    layout: &FunctionLayout<'_>,
    out: &mut Emitted,
    only: bool,
    temporary: u32,
    put: Simple,
)
    requires { temporary ≤ most_places }
    ensures { Emits out.old out.new
        (value_stored (view_layout layout.now) only NumberOrText temporary put) }
{
    number_is(out, layout.bases.number(temporary), TEXT_BESIDE);
    let mut text = Emitted::new(layout.alloc);
    handle_stored(layout, &mut text, only, temporary, put);
    let mut number = Emitted::new(layout.alloc);
    boxed_perhaps(layout.alloc, layout.bases, &mut number, temporary, put);
    emit_if(layout.alloc, out, text, number);
}

/// Stores what stands in a temporary, as a value.
fn value_stored(
    layout: &FunctionLayout<'_>,
    out: &mut Emitted,
    only: bool,
    form: Form,
    temporary: u32,
    put: Simple,
)
    requires { temporary ≤ most_places }
    ensures { Emits out.old out.new
        (value_stored (view_layout layout.now) only (view_form form) temporary put) }
{
    match form {
        Form::PrimitiveAnswer(Answer::Of(Sort::Value)) => handle_stored(
            layout, out, only, temporary, put,
        ),
        Form::PrimitiveAnswer(Answer::Of(Sort::Number) | Answer::Truth) => {
            boxed_number(layout.bases, out, temporary);
            emit(out, put);
        }
        Form::NumberOrText => bare_stored(layout, out, only, temporary, put),
        Form::OptionalNumber => boxed_perhaps(layout.alloc, layout.bases, out, temporary, put),
        Form::PrimitiveAnswer(_) => emit_all(out, &[row_call(Primitive::Uninit), put]),
    }
}

/// Drops the text beside an unboxed name, if its number says that there is one.
pub fn text_dropped(layout: &FunctionLayout<'_>, out: &mut Emitted, name: usize)
    requires { name ≤ most_places }
    ensures { Emits out.old out.new (text_dropped (view_layout layout.now) name) }
{
    let all = [
        Simple::GlobalGet(global_number(layout, name)),
        Simple::I64Const(TEXT_BESIDE),
        Simple::Compare(ValType::I64, IRelOp::Eq),
    ];
    emit_all(out, &all);
    let global = global_handle(layout, name);
    let drop = [
        Simple::GlobalGet(global),
        import_call(Import::Drop),
        Simple::I32Const(MINUS_ONE),
        Simple::GlobalSet(global),
    ];
    when_all(layout.alloc, out, &drop);
}

/// Stores the text beside the number of a temporary, if there is one, beside an unboxed name.
fn text_stored(
    layout: &FunctionLayout<'_>,
    out: &mut Emitted,
    only: bool,
    name: usize,
    form: Form,
    temporary: u32,
)
    requires name { name ≤ most_places }
    requires places { temporary ≤ most_places }
    ensures { Emits out.old out.new
        (text_stored (view_layout layout.now) only name (view_form form) temporary) }
{
    match form {
        Form::NumberOrText => {
            number_is(out, layout.bases.number(temporary), TEXT_BESIDE);
            let put = Simple::GlobalSet(global_handle(layout, name));
            let mut text = Emitted::new(layout.alloc);
            handle_stored(layout, &mut text, only, temporary, put);
            when(layout.alloc, out, text);
        }
        Form::PrimitiveAnswer(_) | Form::OptionalNumber => {}
    }
}

/// Writes an unboxed global.
fn bare_set(
    layout: &FunctionLayout<'_>,
    out: &mut Emitted,
    only: bool,
    name: usize,
    form: Form,
    temporary: u32,
)
    requires name { name ≤ most_places }
    requires places { temporary ≤ most_places }
    ensures { Emits out.old out.new
        (slot_set (view_layout layout.now) only (GlobalSlot true name) (view_form form) temporary) }
{
    text_dropped(layout, out, name);
    text_stored(layout, out, only, name, form, temporary);
    let all = [
        Simple::LocalGet(layout.bases.number(temporary)),
        Simple::GlobalSet(global_number(layout, name)),
    ];
    emit_all(out, &all);
}

/// Writes a scalar.
pub(crate) fn slot_set(
    layout: &FunctionLayout<'_>,
    out: &mut Emitted,
    only: bool,
    slot: Slot,
    form: Form,
    temporary: u32,
)
    requires slot { SlotFits (view_slot slot) }
    requires places { temporary ≤ most_places }
    ensures { Emits out.old out.new
        (slot_set (view_layout layout.now) only (view_slot slot) (view_form form) temporary) }
{
    match slot {
        Slot::Global(false, name) => {
            let global = global_handle(layout, name);
            emit_all(out, &[Simple::GlobalGet(global), import_call(Import::Drop)]);
            value_stored(
                layout,
                out,
                only,
                form,
                temporary,
                Simple::GlobalSet(global),
            );
        }
        Slot::Global(true, name) => bare_set(layout, out, only, name, form, temporary),
        Slot::Parameter(false, place) => {
            let local = place as u32;
            emit_all(out, &[Simple::LocalGet(local), import_call(Import::Drop)]);
            value_stored(layout, out, only, form, temporary, Simple::LocalSet(local));
        }
        Slot::Parameter(true, place) => {
            let put = Simple::LocalSet(place as u32);
            emit_all(
                out,
                &[Simple::LocalGet(layout.bases.number(temporary)), put],
            );
        }
    }
}
