//! Sums in all cases: a name's number may not be there yet, or be that of the text beside it.
ghost use Rattle.std.specs.Prelude.{◌≤◌, None, Some, suc};
ghost use Rattle.wasm_types.specs.Syntax.{Instructions, Done};
ghost use Rattle.mid_program.specs.ViewCode.{view};
ghost use Rattle.lower_model.specs.Quick.{OfParameter, sum_op};
ghost use Rattle.lower_model.specs.Statements.{global_found, holder_cleared, name_numbered, number_found, number_there, numbered_or, parameter_found, source_numbered, source_taken, sum_kept, sum_taken, summed_anyway, both_asked, updated};
ghost use Rattle.lower_model.specs.Emission.{field_at};
ghost use Rattle.lower_pieces.specs.Bounds.{most_labels, most_places};
ghost use Rattle.lower_pieces.specs.Emits.{Emits, Reads};
ghost use Rattle.lower_expressions.specs.Fits.{Fits};
ghost use Rattle.lower_expressions.specs.Sources.{HolderFits, SourceFits};
ghost use Rattle.lower_expressions.specs.View.{view_layout};
ghost use Rattle.lower_quick.specs.View.{view_holder, view_source, view_sum, view_update};
ghost use Rattle.lowering.specs.Parts.{field_asked};
ghost use Rattle.lowering.specs.QuickFits.{SumFits};

use crate::evaluating::answered;
use crate::quick::name_put;
use awk_text::MAX_NUMBER;
use awk_values::Fault;
use lower_expressions::{
    FunctionLayout, field_at, global_handle, global_number, name_read, sum_op, text_dropped,
};
use lower_pieces::{
    Emitted, Form, TEXT_BESIDE, code_of, copied_by, emit, emit_all, emit_if, fail_if, number_is,
    row_call, to_number, when,
};
use lower_quick::{Holder, Source, Sum, Update};
use sem_primitives::{Answer, Primitive, Sort};
use wasm_types::{IBinOp, IRelOp, Simple, ValType};

/// Makes a number of the text beside a name, from within two labels more.
fn number_there(
    layout: &FunctionLayout<'_>,
    out: &mut Emitted,
    name: usize,
    temporary: u32,
    exit: u32,
)
    requires name { name ≤ most_places }
    requires places { temporary ≤ most_places }
    requires labels { suc (suc exit) ≤ most_labels }
    ensures { Emits out.old out.new
        (number_there (view_layout layout.now) name temporary (suc (suc exit))) }
{
    let global = global_handle(layout, name);
    let (get, set) = (Simple::GlobalGet(global), Simple::GlobalSet(global));
    copied_by(out, get, set, layout.bases.handle(temporary));
    let value = Form::PrimitiveAnswer(Answer::Of(Sort::Value));
    to_number(layout.alloc, layout.bases, out, value, temporary, exit + 2);
}

/// Makes a number of what a global has that has none, from within one label more: what is no number yet is 0.
fn global_found(
    layout: &FunctionLayout<'_>,
    out: &mut Emitted,
    name: usize,
    temporary: u32,
    exit: u32,
)
    requires name { name ≤ most_places }
    requires places { temporary ≤ most_places }
    requires labels { suc (suc exit) ≤ most_labels }
    ensures { Emits out.old out.new
        (global_found (view_layout layout.now) name temporary exit) }
{
    let local = layout.bases.number(temporary);
    number_is(out, local, TEXT_BESIDE);
    let mut some = Emitted::new(layout.alloc);
    number_there(layout, &mut some, name, temporary, exit);
    let zero = [Simple::I64Const(0), Simple::LocalSet(local)];
    let none = code_of(layout.alloc, &zero);
    emit_if(layout.alloc, out, some, none);
}

/// Puts what is read into a temporary, or what is found in its place, where that is no number.
fn numbered_or(
    layout: &FunctionLayout<'_>,
    out: &mut Emitted,
    read: Simple,
    found: Emitted,
    temporary: u32,
)
    requires { temporary ≤ most_places }
    ensures { (inside : Instructions) → Reads found Done inside
        → Emits out.old out.new (numbered_or (view_layout layout.now) read inside temporary) }
{
    let all = [
        read,
        Simple::LocalTee(layout.bases.number(temporary)),
        Simple::I64Const(TEXT_BESIDE),
        Simple::Compare(ValType::I64, IRelOp::LeS),
    ];
    emit_all(out, &all);
    when(layout.alloc, out, found);
}

/// Makes a number of what lends its value, from within one label more.
fn lender_found(
    layout: &FunctionLayout<'_>,
    out: &mut Emitted,
    name: usize,
    temporary: u32,
    exit: u32,
)
    requires name { name ≤ most_places }
    requires places { temporary ≤ most_places }
    requires labels { suc (suc (suc exit)) ≤ most_labels }
    ensures { Emits out.old out.new
        (parameter_found (view_layout layout.now) (Some name) temporary exit) }
{
    let mut found = Emitted::new(layout.alloc);
    global_found(layout, &mut found, name, temporary, exit + 1);
    let read = Simple::GlobalGet(global_number(layout, name));
    numbered_or(layout, out, read, found, temporary);
}

/// Makes a number of what a parameter has that has none, from within one label more: that of what lends at its place, or 0.
fn parameter_found(
    layout: &FunctionLayout<'_>,
    out: &mut Emitted,
    place: usize,
    temporary: u32,
    exit: u32,
)
    requires places { temporary ≤ most_places }
    requires labels { suc (suc (suc exit)) ≤ most_labels }
    ensures { Emits out.old out.new
        (number_found (view_layout layout.now) (OfParameter place) temporary exit) }
{
    match layout.script.lender(place) {
        Some(name) => lender_found(layout, out, name, temporary, exit),
        None => {
            let local = layout.bases.number(temporary);
            emit_all(out, &[Simple::I64Const(0), Simple::LocalSet(local)]);
        }
    }
}

/// Makes a number of what a name has that has none, from within one label more.
fn number_found(
    layout: &FunctionLayout<'_>,
    out: &mut Emitted,
    name: Holder,
    temporary: u32,
    exit: u32,
)
    requires name { HolderFits (view_holder name) }
    requires places { temporary ≤ most_places }
    requires labels { suc (suc (suc exit)) ≤ most_labels }
    ensures { Emits out.old out.new
        (number_found (view_layout layout.now) (view_holder name) temporary exit) }
{
    match name {
        Holder::Name(name) => global_found(layout, out, name, temporary, exit),
        Holder::Parameter(place) => parameter_found(layout, out, place, temporary, exit),
    }
}

/// Puts a name's number into a temporary.
fn name_numbered(
    layout: &FunctionLayout<'_>,
    out: &mut Emitted,
    name: Holder,
    temporary: u32,
    exit: u32,
)
    requires name { HolderFits (view_holder name) }
    requires places { temporary ≤ most_places }
    requires labels { suc (suc (suc exit)) ≤ most_labels }
    ensures { Emits out.old out.new
        (name_numbered (view_layout layout.now) (view_holder name) temporary exit) }
{
    let mut found = Emitted::new(layout.alloc);
    number_found(layout, &mut found, name, temporary, exit);
    numbered_or(layout, out, name_read(layout, name), found, temporary);
}

/// The same of a source: a constant needs no temporary.
fn source_numbered(
    layout: &FunctionLayout<'_>,
    out: &mut Emitted,
    source: Source,
    temporary: u32,
    exit: u32,
)
    requires fits { SourceFits (view_source source) }
    requires places { temporary ≤ most_places }
    requires labels { suc (suc (suc exit)) ≤ most_labels }
    ensures { Emits out.old out.new
        (source_numbered (view_layout layout.now) (view_source source) temporary exit) }
{
    match source {
        Source::Held(name) => name_numbered(layout, out, name, temporary, exit),
        Source::Constant(_) => {}
    }
}

/// Puts a source's number on the stack.
fn source_taken(layout: &FunctionLayout<'_>, out: &mut Emitted, source: Source, temporary: u32)
    requires places { temporary ≤ most_places }
    ensures { Emits out.old out.new
        (source_taken (view_layout layout.now) (view_source source) temporary) }
{
    match source {
        Source::Held(_) => emit(out, Simple::LocalGet(layout.bases.number(temporary))),
        Source::Constant(number) => emit(out, Simple::I64Const(number.cast_unsigned())),
    }
}

/// Puts what an operator gives of two numbers on the stack into a temporary, and tests it.
pub(crate) fn sum_kept(
    layout: &FunctionLayout<'_>,
    out: &mut Emitted,
    op: IBinOp,
    temporary: u32,
    exit: u32,
)
    requires places { temporary ≤ most_places }
    requires labels { exit ≤ most_labels }
    ensures { Emits out.old out.new (sum_kept (view_layout layout.now) op temporary exit) }
{
    let all = [
        Simple::Binary(ValType::I64, op),
        Simple::LocalTee(layout.bases.number(temporary)),
        Simple::I64Const(MAX_NUMBER),
        Simple::Binary(ValType::I64, IBinOp::Add),
        Simple::I64Const(1 << 54),
        Simple::Compare(ValType::I64, IRelOp::GtU),
    ];
    emit_all(out, &all);
    fail_if(layout.alloc, out, Fault::Range, exit);
}

/// Drops the text beside a name, if there is one. None stands beside a parameter.
fn holder_cleared(layout: &FunctionLayout<'_>, out: &mut Emitted, name: Holder)
    requires { HolderFits (view_holder name) }
    ensures { Emits out.old out.new
        (holder_cleared (view_layout layout.now) (view_holder name)) }
{
    match name {
        Holder::Name(name) => text_dropped(layout, out, name),
        Holder::Parameter(_) => {}
    }
}

/// A name takes what an operator gives of two numbers on the stack.
fn sum_taken(layout: &FunctionLayout<'_>, out: &mut Emitted, op: IBinOp, name: Holder, exit: u32)
    requires name { HolderFits (view_holder name) }
    requires labels { exit ≤ most_labels }
    ensures { Emits out.old out.new
        (sum_taken (view_layout layout.now) op (view_holder name) 0 exit) }
{
    sum_kept(layout, out, op, 0, exit);
    holder_cleared(layout, out, name);
    let all = [
        Simple::LocalGet(layout.bases.number(0)),
        name_put(layout, name),
    ];
    emit_all(out, &all);
}

/// Adds a sum of sources.
pub(crate) fn summed_anyway(layout: &FunctionLayout<'_>, out: &mut Emitted, sum: Sum, exit: u32)
    requires sum { SumFits (view_sum sum) }
    requires labels { suc (suc (suc exit)) ≤ most_labels }
    ensures { Emits out.old out.new
        (summed_anyway (view_layout layout.now) (view_sum sum) exit) }
{
    source_numbered(layout, out, sum.left, 0, exit);
    source_numbered(layout, out, sum.right, 1, exit);
    source_taken(layout, out, sum.left, 0);
    source_taken(layout, out, sum.right, 1);
    sum_taken(layout, out, sum_op(sum.op), sum.target, exit);
}

/// Asks for the number of a name, and for that of the field with this number; both are put on the stack.
fn field_asked(layout: &FunctionLayout<'_>, out: &mut Emitted, name: Holder, number: i64, exit: u32)
    requires name { HolderFits (view_holder name) }
    requires labels { suc (suc (suc exit)) ≤ most_labels }
    ensures { Emits out.old out.new
        (field_asked (view_layout layout.now) (view_holder name) number exit) }
{
    name_numbered(layout, out, name, 0, exit);
    let all = [
        Simple::LocalGet(layout.bases.number(0)),
        Simple::I64Const(number.cast_unsigned()),
        row_call(Primitive::Field),
        row_call(Primitive::ToNum),
    ];
    emit_all(out, &all);
}

/// Evaluates what is added to a name, and asks for both numbers, that of the name first; both are put on the stack.
fn added_asked(layout: &FunctionLayout<'_>, out: &mut Emitted, update: Update<'_>, exit: u32)
    requires name { HolderFits (view_holder update.name) }
    requires fit { Fits (view_layout layout.now) (view update.added.now) 0 0 exit }
    requires labels { suc (suc (suc exit)) ≤ most_labels }
    ensures { Emits out.old out.new
        (both_asked (view_layout layout.now) None (view_update update.entry) exit) }
{
    let form = answered(layout, out, update.added, exit);
    name_numbered(layout, out, update.name, 1, exit);
    to_number(layout.alloc, layout.bases, out, form, 0, exit);
    let all = [
        Simple::LocalGet(layout.bases.number(1)),
        Simple::LocalGet(layout.bases.number(0)),
    ];
    emit_all(out, &all);
}

/// Puts the number of a name and that of what is added on the stack.
fn both_asked(layout: &FunctionLayout<'_>, out: &mut Emitted, update: Update<'_>, exit: u32)
    requires name { HolderFits (view_holder update.name) }
    requires fit { Fits (view_layout layout.now) (view update.added.now) 0 0 exit }
    requires labels { suc (suc (suc exit)) ≤ most_labels }
    ensures { Emits out.old out.new (both_asked (view_layout layout.now)
        (field_at (view update.entry.added.now)) (view_update update.entry) exit) }
{
    match field_at(update.added) {
        Some(number) => field_asked(layout, out, update.name, number, exit),
        None => added_asked(layout, out, update, exit),
    }
}

/// Adds a sum of a name and what is evaluated first.
pub(crate) fn updated(layout: &FunctionLayout<'_>, out: &mut Emitted, update: Update<'_>, exit: u32)
    requires target { HolderFits (view_holder update.target) }
    requires name { HolderFits (view_holder update.name) }
    requires fit { Fits (view_layout layout.now) (view update.added.now) 0 0 exit }
    requires labels { suc (suc (suc exit)) ≤ most_labels }
    ensures { Emits out.old out.new
        (updated (view_layout layout.now) (view_update update.entry) exit) }
{
    both_asked(layout, out, update, exit);
    sum_taken(layout, out, sum_op(update.op), update.target, exit);
}
