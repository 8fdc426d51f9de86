//! Operands that are immediate: what they give is put on the stack where it is asked for.
ghost use Rattle.std.specs.Option.{option_map};
ghost use Rattle.std.specs.Prelude.{◌≡◌, ◌≤◌, suc};
ghost use Rattle.sem_primitives.specs.declared.sorts.Answer.TheVariants.{Truth};
ghost use Rattle.mid_program.specs.Mid.{PrimitiveAnswer};
ghost use Rattle.mid_program.specs.ViewCode.{view};
ghost use Rattle.lower_model.specs.Emission.{immediate_field, immediate_in, immediate_pushed, immediately_compared};
ghost use Rattle.lower_pieces.specs.Bounds.{most_places};
ghost use Rattle.lower_pieces.specs.Emits.{Emits};
ghost use Rattle.lower_pieces.specs.Forms.{view_form};
ghost use Rattle.lower_expressions.specs.Fits.{ImmediateFits};
ghost use Rattle.lower_expressions.specs.Parts.{constant_asked};
ghost use Rattle.lower_expressions.specs.View.{view_immediate, view_layout};

use crate::fields::field_in;
use crate::function_layout::FunctionLayout;
use crate::places::text_pushed;
use awk_values::CompareOp;
use lower_pieces::{
    Emitted, Form, MINUS_ONE, ask_row, comparison_number, emit_all, kept_code, row_call, to_value,
};
use mid_program::Code;
use sem_primitives::{Answer, Primitive};
use wasm_types::Simple;

/// An operand that can neither fail nor change anything.
#[derive(Clone, Copy, Drop)]
pub(crate) enum Immediate {
    /// A field whose number is this constant.
    Field(i64),
    /// The text of the script with this number.
    Text(usize),
    Number(i64),
}

/// The field that an operand is.
fn immediate_field(number: Option<i64>) -> Option<Immediate>
    ensures { option_map view_immediate result ≡ immediate_field number }
{
    match number {
        Some(number) => Some(Immediate::Field(number)),
        None => None,
    }
}

/// The immediate operand that code is; a number is one where a value is asked for.
pub(crate) fn immediate_in(valued: bool, code: &Code) -> Option<Immediate>
    ensures { option_map view_immediate result ≡ immediate_in valued (view code.now) }
{
    match code {
        Code::Do(operation, operands) => immediate_field(field_in(*operation, operands)),
        Code::Text(text) => Some(Immediate::Text(*text)),
        Code::Number(number) => {
            if valued {
                Some(Immediate::Number(*number))
            } else {
                None
            }
        }
        _ => None,
    }
}

/// Adds a constant, by its bits, and asks for the value that a row has of it.
fn constant_asked(out: &mut Emitted, bits: u64, primitive: Primitive)
    ensures { Emits out.old out.new (constant_asked bits primitive) }
{
    emit_all(out, &[Simple::I64Const(bits), row_call(primitive)]);
}

/// Puts the value of such an operand on the stack.
fn immediate_pushed(layout: &FunctionLayout<'_>, out: &mut Emitted, operand: Immediate)
    requires { ImmediateFits (view_layout layout.now) (view_immediate operand) }
    ensures { Emits out.old out.new
        (immediate_pushed (view_layout layout.now) (view_immediate operand)) }
{
    match operand {
        Immediate::Field(number) => constant_asked(out, number.cast_unsigned(), Primitive::Field),
        Immediate::Text(text) => {
            text_pushed(layout, out, text);
            ask_row(out, Primitive::Lit);
        }
        Immediate::Number(number) => constant_asked(out, number.cast_unsigned(), Primitive::Num),
    }
}

/// Compares what stands in a temporary with such an operand.
pub(crate) fn immediately_compared(
    layout: &FunctionLayout<'_>,
    out: &mut Emitted,
    op: CompareOp,
    form: Form,
    operand: Immediate,
    temporary: u32,
    exit: u32,
) -> Form
    requires places { suc temporary ≤ most_places }
    requires operand { ImmediateFits (view_layout layout.now) (view_immediate operand) }
    ensures form { view_form result ≡ PrimitiveAnswer Truth }
    ensures emits { Emits out.old out.new (immediately_compared
        (view_layout layout.now) op (view_form form) (view_immediate operand) temporary exit) }
{
    to_value(layout.alloc, layout.bases, out, form, temporary);
    let local = layout.bases.handle(temporary);
    let all = [
        Simple::I32Const(comparison_number(op)),
        Simple::LocalGet(local),
        Simple::I32Const(MINUS_ONE),
        Simple::LocalSet(local),
    ];
    emit_all(out, &all);
    immediate_pushed(layout, out, operand);
    ask_row(out, Primitive::Compare);
    kept_code(layout.bases, out, true, temporary, exit);
    Form::PrimitiveAnswer(Answer::Truth)
}
