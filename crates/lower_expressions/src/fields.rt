//! Fields whose numbers are constants.
ghost use Rattle.std.specs.Prelude.{◌≡◌, ◌≤◌};
ghost use Rattle.mid_program.specs.Mid.{a_value};
ghost use Rattle.mid_program.specs.ViewCode.{view, views};
ghost use Rattle.lower_model.specs.Emission.{constant_field, field_at, field_in, field_read, one_field};
ghost use Rattle.lower_pieces.specs.Bounds.{most_places};
ghost use Rattle.lower_pieces.specs.Emits.{Emits};
ghost use Rattle.lower_pieces.specs.Forms.{view_form};
ghost use Rattle.lower_expressions.specs.View.{view_layout};

use crate::function_layout::FunctionLayout;
use lower_pieces::{Emitted, Form, emit_all, row_call};
use mid_program::{Code, Operand, Operation};
use sem_primitives::{Answer, MAX_FIELDS, Primitive, Sort};
use wasm_types::Simple;

/// The greatest number of a field.
const LAST_FIELD: i64 = MAX_FIELDS as i64;

/// The constant that code is, where it is the number of a field.
fn constant_field(code: &Code) -> Option<i64>
    ensures { result ≡ constant_field (view code.now) }
{
    match code {
        Code::Number(number) => {
            if (0..=LAST_FIELD).contains(number) {
                Some(*number)
            } else {
                None
            }
        }
        _ => None,
    }
}

/// The same of an operand, where there is one and no more.
fn one_field(operands: &[Operand]) -> Option<i64>
    ensures { result ≡ one_field (views operands.now) }
{
    match operands {
        [Operand::Code(code)] => constant_field(code),
        _ => None,
    }
}

/// The number of the field that an operation reads, where it is a constant.
pub(crate) fn field_in(operation: Operation, operands: &[Operand]) -> Option<i64>
    ensures { result ≡ field_in operation (views operands.now) }
{
    match operation {
        Operation::Host(Primitive::Field) => one_field(operands),
        Operation::Host(_) | Operation::Inline(_) | Operation::AsNumber | Operation::FieldNumber =>
            None,
    }
}

/// The number of the field that code is, where it is a constant.
pub fn field_at(code: &Code) -> Option<i64>
    ensures { result ≡ field_at (view code.now) }
{
    match code {
        Code::Do(operation, operands) => field_in(*operation, operands),
        _ => None,
    }
}

/// Adds the reading of such a field, which cannot fail.
pub(crate) fn field_read(
    layout: &FunctionLayout<'_>,
    out: &mut Emitted,
    number: i64,
    temporary: u32,
) -> Form
    requires { temporary ≤ most_places }
    ensures form { view_form result ≡ a_value }
    ensures emits { Emits out.old out.new (field_read (view_layout layout.now) number temporary) }
{
    let all = [
        Simple::I64Const(number.cast_unsigned()),
        row_call(Primitive::Field),
        Simple::LocalSet(layout.bases.handle(temporary)),
    ];
    emit_all(out, &all);
    Form::PrimitiveAnswer(Answer::Of(Sort::Value))
}
