//! Code with no code within it.
ghost use Rattle.std.specs.Prelude.{◌≡◌, ◌<◌, ◌≤◌, get_or, length};
ghost use Rattle.sem_primitives.specs.declared.table.Primitive.TheVariants.{Getline, Lit};
ghost use Rattle.wasm_types.specs.declared.instr.CvtOp.TheVariants.{I64ExtendI32U};
ghost use Rattle.wasm_types.specs.declared.instr.Simple.TheVariants.{Convert, GlobalGet, I64Const, LocalSet};
ghost use Rattle.mid_program.specs.Mid.{PrimitiveAnswer, OptionalNumber, a_number, a_value, form_at, slot_form};
ghost use Rattle.mid_program.specs.ViewCode.{view_slot};
ghost use Rattle.lower_model.specs.Emission.{asked, bound_read, slot_read, text_pushed};
ghost use Rattle.lower_model.specs.Places.{range_global, handle_local, number_local};
ghost use Rattle.lower_model.specs.Small.{ask_row, code_number, emit, least};
ghost use Rattle.lower_pieces.specs.Bounds.{most_places};
ghost use Rattle.lower_pieces.specs.Emits.{Emits};
ghost use Rattle.lower_pieces.specs.Forms.{view_form};
ghost use Rattle.lower_expressions.specs.Fits.{SlotFits, Within};
ghost use Rattle.lower_expressions.specs.Keeps.{keeping_in};
ghost use Rattle.lower_expressions.specs.View.{view_layout};

use crate::at::At;
use crate::function_layout::FunctionLayout;
use crate::kept::{Keeps, kept_at};
use crate::pending::asked;
use crate::places::text_pushed;
use crate::slots::{slot_form, slot_read};
use lower_pieces::{Emitted, Form, LEAST, bound_from, code_number, emit_all, row_call};
use mid_program::Slot;
use sem_primitives::{Answer, Primitive, Sort};
use wasm_types::{CvtOp, Simple};

/// Adds the reading of a record of the main input.
pub(crate) fn line(layout: &FunctionLayout<'_>, out: &mut Emitted, at: At) -> Form
    requires { Within at.temporary at.arrays at.exit }
    ensures form { view_form result ≡ a_number }
    ensures emits { Emits out.old out.new
        (λ after. asked (view_layout layout.now) Getline at.temporary at.exit
        (code_number layout.now.bases.now at.temporary after)) }
{
    asked(layout, out, Primitive::Getline, at.temporary, at.exit);
    code_number(layout.bases, out, at.temporary);
    Form::PrimitiveAnswer(Answer::Of(Sort::Number))
}

/// Adds a number, by its bits.
pub(crate) fn constant(layout: &FunctionLayout<'_>, out: &mut Emitted, bits: u64, at: At) -> Form
    requires { Within at.temporary at.arrays at.exit }
    ensures form { view_form result ≡ a_number }
    ensures emits { Emits out.old out.new (λ after. emit
        (I64Const bits) (emit (LocalSet (number_local layout.now.bases.now at.temporary)) after)) }
{
    let put = Simple::LocalSet(layout.bases.number(at.temporary));
    emit_all(out, &[Simple::I64Const(bits), put]);
    Form::PrimitiveAnswer(Answer::Of(Sort::Number))
}

/// Adds a text of the script.
pub(crate) fn text(layout: &FunctionLayout<'_>, out: &mut Emitted, place: usize, at: At) -> Form
    requires within { Within at.temporary at.arrays at.exit }
    requires there { place < length (view_layout layout.now).texts }
    ensures form { view_form result ≡ a_value }
    ensures emits { Emits out.old out.new (λ after. text_pushed (view_layout layout.now) place
        (ask_row Lit (emit (LocalSet (handle_local layout.now.bases.now at.temporary)) after))) }
{
    text_pushed(layout, out, place);
    let put = Simple::LocalSet(layout.bases.handle(at.temporary));
    emit_all(out, &[row_call(Primitive::Lit), put]);
    Form::PrimitiveAnswer(Answer::Of(Sort::Value))
}

/// Adds what a parameter is without an argument.
pub(crate) fn unset(layout: &FunctionLayout<'_>, out: &mut Emitted, at: At) -> Form
    requires { Within at.temporary at.arrays at.exit }
    ensures form { view_form result ≡ OptionalNumber }
    ensures emits { Emits out.old out.new (λ after. emit (I64Const least)
        (emit (LocalSet (number_local layout.now.bases.now at.temporary)) after)) }
{
    let put = Simple::LocalSet(layout.bases.number(at.temporary));
    emit_all(out, &[Simple::I64Const(LEAST), put]);
    Form::OptionalNumber
}

/// Adds the reading of a scalar.
pub(crate) fn variable(layout: &FunctionLayout<'_>, out: &mut Emitted, slot: Slot, at: At) -> Form
    requires within { Within at.temporary at.arrays at.exit }
    requires slot { SlotFits (view_slot slot) }
    ensures form { view_form result ≡ slot_form (view_slot slot) }
    ensures emits { Emits out.old out.new
        (slot_read (view_layout layout.now) (view_slot slot) at.temporary) }
{
    slot_read(layout, out, slot, at.temporary);
    slot_form(slot)
}

/// Adds whether the range of an item is open.
pub(crate) fn is_open(layout: &FunctionLayout<'_>, out: &mut Emitted, item: usize, at: At) -> Form
    requires within { Within at.temporary at.arrays at.exit }
    requires few { item ≤ most_places }
    ensures form { view_form result ≡ PrimitiveAnswer Answer.Truth }
    ensures emits { Emits out.old out.new
        (λ after. emit (GlobalGet (range_global item)) (emit (Convert I64ExtendI32U)
        (emit (LocalSet (number_local layout.now.bases.now at.temporary)) after))) }
{
    let all = [
        Simple::GlobalGet(item as u32 + 3),
        Simple::Convert(CvtOp::I64ExtendI32U),
        Simple::LocalSet(layout.bases.number(at.temporary)),
    ];
    emit_all(out, &all);
    Form::PrimitiveAnswer(Answer::Truth)
}

/// Adds what was kept. Where `only` what is done counts, that is nothing.
pub(crate) fn bound<'a>(
    layout: &FunctionLayout<'_>,
    keeps: &'a Keeps<'a>,
    out: &mut Emitted,
    only: bool,
    moves: bool,
    after: usize,
    at: At,
) -> Form
    requires { Within at.temporary at.arrays at.exit }
    ensures form { view_form result ≡ form_at (keeping_in keeps.now).forms after }
    ensures emits { Emits out.old out.new (bound_read (view_layout layout.now) only moves
        (form_at (keeping_in keeps.now).forms after)
        (get_or (keeping_in keeps.now).temporaries after 0) at.temporary) }
{
    let entry = kept_at(keeps, after);
    if only {
        return entry.form;
    }
    let to = at.temporary;
    bound_from(
        layout.alloc,
        layout.bases,
        out,
        moves,
        entry.form,
        entry.temporary,
        to,
    );
    entry.form
}
