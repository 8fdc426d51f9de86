//! Operands that are evaluated: converted, and taken by an operation.
ghost use Rattle.std.specs.Prelude.{◌≡◌, ◌+◌, suc, ◌≤◌, length, map};
ghost use Rattle.mid_program.specs.Mid.{PrimitiveAnswer, answer_by, arguments};
ghost use Rattle.mid_program.specs.Sorted.{count_of};
ghost use Rattle.mid_program.specs.ViewCode.{view, view_array, views};
ghost use Rattle.lower_model.specs.Emission.{all_pushed, array_meant, one_pushed, performed};
ghost use Rattle.lower_pieces.specs.Bounds.{most_labels, most_places};
ghost use Rattle.lower_pieces.specs.Emits.{Emits};
ghost use Rattle.lower_pieces.specs.Forms.{view_form};
ghost use Rattle.lower_expressions.specs.Fits.{ArrayFits, ArraysFit};
ghost use Rattle.lower_expressions.specs.Parts.{all_joined, host_performed, joined_with, operated};
ghost use Rattle.lower_expressions.specs.View.{view_layout};

use crate::function_layout::FunctionLayout;
use crate::places::array_pushed;
use crate::walks::{all_boxed, all_converted};
use lower_pieces::{
    Emitted, Form, ask_row, calculated, emit, field_checked, kept, kept_value, moved_out,
};
use mid_program::{ArrayName, Code, Operand, Operation};
use sem_primitives::{Answer, Argument, Primitive, Sort};
use wasm_types::Simple;

/// The array that code stands for.
pub(crate) fn array_meant(code: &Code) -> ArrayName
    ensures { view_array result ≡ array_meant (view code.now) }
{
    match code {
        Code::Array(name) => *name,
        Code::Seq(_, second) | Code::Let(_, second) => array_meant(second),
        _ => ArrayName::Numbered(0),
    }
}

/// What an operation takes.
fn arguments(operation: Operation) -> &'static [Argument]
    ensures { result.now ≡ arguments operation }
{
    match operation {
        Operation::Host(primitive) => primitive.arguments(),
        Operation::Inline(_) => &[Argument::Of(Sort::Number), Argument::Of(Sort::Number)],
        Operation::AsNumber | Operation::FieldNumber => &[Argument::Of(Sort::Number)],
    }
}

/// Puts an operand on the stack.
fn one_pushed(
    layout: &FunctionLayout<'_>,
    out: &mut Emitted,
    wanted: Argument,
    code: &Code,
    temporary: u32,
)
    requires places { temporary ≤ most_places }
    requires array { ArrayFits (array_meant (view code.now)) }
    ensures { Emits out.old out.new
        (one_pushed (view_layout layout.now) wanted (view code.now) temporary) }
{
    match wanted {
        Argument::Of(Sort::Value) => moved_out(out, layout.bases.handle(temporary)),
        Argument::Of(Sort::Number) => emit(out, Simple::LocalGet(layout.bases.number(temporary))),
        Argument::Of(Sort::Array) => array_pushed(layout, out, array_meant(code)),
        Argument::Of(Sort::Iterator) | Argument::Constant(_) | Argument::Place => {}
    }
}

/// Puts operands on the stack.
pub(crate) fn all_pushed(
    layout: &FunctionLayout<'_>,
    out: &mut Emitted,
    wanted: &[Argument],
    operands: &[Operand],
    temporary: u32,
)
    requires places { temporary + count_of (views operands.now) ≤ most_places }
    requires arrays { ArraysFit (views operands.now) }
    ensures { Emits out.old out.new
        (all_pushed (view_layout layout.now) wanted.now (views operands.now) temporary) }
{
    let Some((operand, operands)) = operands.split_first() else {
        return;
    };
    let Some((first, wanted)) = wanted.split_first() else {
        return;
    };
    match operand {
        Operand::Code(code) => {
            one_pushed(layout, out, *first, code, temporary);
            all_pushed(layout, out, wanted, operands, temporary + 1);
        }
        Operand::Constant(number) => {
            emit(out, Simple::I32Const(*number));
            all_pushed(layout, out, wanted, operands, temporary);
        }
        Operand::Fresh => {}
    }
}

/// Asks the host for an operation on operands.
fn host_performed(
    layout: &FunctionLayout<'_>,
    out: &mut Emitted,
    primitive: Primitive,
    operands: &[Operand],
    temporary: u32,
    exit: u32,
)
    requires places { suc (suc temporary) + count_of (views operands.now) ≤ most_places }
    requires arrays { ArraysFit (views operands.now) }
    ensures { Emits out.old out.new
        (host_performed (view_layout layout.now) primitive (views operands.now) temporary exit) }
{
    all_pushed(layout, out, primitive.arguments(), operands, temporary);
    ask_row(out, primitive);
    kept(
        layout.bases,
        out,
        primitive.can_fault(),
        primitive.answer(),
        temporary,
        exit,
    );
}

/// Adds an operation on operands that are converted.
fn performed(
    layout: &FunctionLayout<'_>,
    out: &mut Emitted,
    operation: Operation,
    operands: &[Operand],
    temporary: u32,
    exit: u32,
)
    requires places { suc (suc temporary) + count_of (views operands.now) ≤ most_places }
    requires labels { exit ≤ most_labels }
    requires arrays { ArraysFit (views operands.now) }
    ensures { Emits out.old out.new
        (performed (view_layout layout.now) operation (views operands.now) temporary exit) }
{
    match operation {
        Operation::Host(primitive) => host_performed(
            layout, out, primitive, operands, temporary, exit,
        ),
        Operation::Inline(operator) => calculated(
            layout.alloc,
            layout.bases,
            out,
            operator,
            temporary,
            exit,
        ),
        Operation::AsNumber => {}
        Operation::FieldNumber => field_checked(layout.alloc, layout.bases, out, temporary, exit),
    }
}

/// Adds an operation on operands that are evaluated.
pub(crate) fn operated(
    layout: &FunctionLayout<'_>,
    out: &mut Emitted,
    forms: &[Form],
    operation: Operation,
    operands: &[Operand],
    temporary: u32,
    exit: u32,
)
    requires places { suc (suc temporary) + count_of (views operands.now) ≤ most_places }
    requires labels { exit ≤ most_labels }
    requires arrays { ArraysFit (views operands.now) }
    ensures { Emits out.old out.new (operated (view_layout layout.now)
        (map view_form forms.now) operation (views operands.now) temporary exit) }
{
    let wanted = arguments(operation);
    all_converted(
        layout.alloc,
        layout.bases,
        out,
        forms,
        wanted,
        operands,
        temporary,
        exit,
    );
    performed(layout, out, operation, operands, temporary, exit);
}

/// What an operation answers.
pub(crate) fn operation_form(operation: Operation) -> Form
    ensures { view_form result ≡ PrimitiveAnswer (answer_by operation) }
{
    match operation {
        Operation::Host(primitive) => Form::PrimitiveAnswer(primitive.answer()),
        Operation::Inline(_) | Operation::AsNumber | Operation::FieldNumber =>
            Form::PrimitiveAnswer(Answer::Of(Sort::Number)),
    }
}

/// Joins two subscripts that are evaluated.
fn joined(
    layout: &FunctionLayout<'_>,
    out: &mut Emitted,
    first: Form,
    second: Form,
    temporary: u32,
    exit: u32,
)
    requires places { suc (suc (suc (suc temporary))) ≤ most_places }
    requires labels { exit ≤ most_labels }
    ensures { Emits out.old out.new (joined_with (view_layout layout.now)
        (view_form first) (view_form second) temporary exit) }
{
    let bases = layout.bases;
    all_boxed(layout.alloc, bases, out, &[first, second], temporary);
    moved_out(out, bases.handle(temporary));
    moved_out(out, bases.handle(temporary + 1));
    ask_row(out, Primitive::Join);
    kept_value(bases, out, true, temporary, exit);
}

/// Joins subscripts that are evaluated: the last one, whose form stands apart, to the one before it, and so on.
pub(crate) fn all_joined(
    layout: &FunctionLayout<'_>,
    out: &mut Emitted,
    forms: &[Form],
    last: Form,
    temporary: u32,
    exit: u32,
)
    requires places { suc (suc (suc temporary)) + length forms.now ≤ most_places }
    requires labels { exit ≤ most_labels }
    ensures { Emits out.old out.new (all_joined (view_layout layout.now)
        (map view_form forms.now) (view_form last) temporary exit) }
{
    let mut second = last;
    let mut left = forms;
    while let Some((first, before)) = left.split_last() {
        let place = temporary + before.len() as u32;
        joined(layout, out, *first, second, place, exit);
        second = operation_form(Operation::Host(Primitive::Join));
        left = before;
    }
}
