//! What stands in a temporary, converted there to a number.
ghost use Rattle.std.specs.Prelude.{◌≤◌};
ghost use Rattle.mid_program.specs.Mid.{NumberOrText};
ghost use Rattle.lower_model.specs.Small.{code_number, converted, number_made, number_of_value, to_number, zeroed};
ghost use Rattle.lower_pieces.specs.Bounds.{most_labels, most_places};
ghost use Rattle.lower_pieces.specs.Emits.{Emits, Holds};
ghost use Rattle.lower_pieces.specs.Forms.{view_form};

use crate::bases::Bases;
use crate::converting::to_value;
use crate::emission::{ask_row, emit_all, emit_if_all, row_call, when, when_all};
use crate::emitted::Emitted;
use crate::faults::number_is;
use crate::form::Form;
use crate::handles::{MINUS_ONE, moved_out};
use crate::keeping::{LEAST, TEXT_BESIDE, kept_number};
use sem_primitives::{Answer, Primitive, Sort};
use std::alloc::Global;
use wasm_types::{CvtOp, IBinOp, IRelOp, Simple, ValType};

/// Makes 0 of what is no number yet.
pub fn zeroed(alloc: Global, bases: &Bases, out: &mut Emitted, temporary: u32)
    requires { temporary ≤ most_places }
    ensures { Emits out.old out.new (zeroed bases.now temporary) }
{
    let local = bases.number(temporary);
    number_is(out, local, LEAST);
    when_all(alloc, out, &[Simple::I64Const(0), Simple::LocalSet(local)]);
}

/// Makes the number of a code: 1 stays, 3 is -1, and all else is 0.
pub fn code_number(bases: &Bases, out: &mut Emitted, temporary: u32)
    requires { temporary ≤ most_places }
    ensures { Emits out.old out.new (code_number bases.now temporary) }
{
    let local = bases.number(temporary);
    number_is(out, local, 1);
    number_is(out, local, 3);
    let all = [
        Simple::Binary(ValType::I32, IBinOp::Sub),
        Simple::Convert(CvtOp::I64ExtendI32S),
        Simple::LocalSet(local),
    ];
    emit_all(out, &all);
}

/// Asks for a value's number.
fn number_of_value(bases: &Bases, out: &mut Emitted, temporary: u32, exit: u32)
    requires { temporary ≤ most_places }
    ensures { Emits out.old out.new (number_of_value bases.now temporary exit) }
{
    moved_out(out, bases.handle(temporary));
    ask_row(out, Primitive::ToNum);
    kept_number(bases, out, true, temporary, exit);
}

/// What asks for the number of a text beside, and makes 0 where there is no number yet, from within one label more.
fn number_made(alloc: Global, bases: &Bases, temporary: u32, exit: u32) -> Emitted
    requires places { temporary ≤ most_places }
    requires labels { exit ≤ most_labels }
    ensures { Holds result (number_made bases.now temporary exit) }
{
    let (handle, number) = (bases.handle(temporary), bases.number(temporary));
    let mut code = Emitted::new(alloc);
    number_is(&mut code, number, TEXT_BESIDE);
    let some = [
        Simple::LocalGet(handle),
        Simple::I32Const(MINUS_ONE),
        Simple::LocalSet(handle),
        row_call(Primitive::ToNum),
        Simple::LocalTee(number),
        Simple::I64Const(LEAST),
        Simple::Compare(ValType::I64, IRelOp::Eq),
        Simple::BrIf(exit + 2),
    ];
    let none = [Simple::I64Const(0), Simple::LocalSet(number)];
    emit_if_all(alloc, &mut code, &some, &none);
    code
}

/// Makes a number of what an unboxed name has.
fn bare_number(alloc: Global, bases: &Bases, out: &mut Emitted, temporary: u32, exit: u32)
    requires places { temporary ≤ most_places }
    requires labels { exit ≤ most_labels }
    ensures { Emits out.old out.new (to_number bases.now NumberOrText temporary exit) }
{
    let all = [
        Simple::LocalGet(bases.number(temporary)),
        Simple::I64Const(TEXT_BESIDE),
        Simple::Compare(ValType::I64, IRelOp::LeS),
    ];
    emit_all(out, &all);
    when(alloc, out, number_made(alloc, bases, temporary, exit));
}

/// Makes a number of what stands in a temporary.
pub fn to_number(
    alloc: Global,
    bases: &Bases,
    out: &mut Emitted,
    form: Form,
    temporary: u32,
    exit: u32,
)
    requires places { temporary ≤ most_places }
    requires labels { exit ≤ most_labels }
    ensures { Emits out.old out.new (to_number bases.now (view_form form) temporary exit) }
{
    match form {
        Form::PrimitiveAnswer(Answer::Of(Sort::Value)) => number_of_value(
            bases, out, temporary, exit,
        ),
        Form::PrimitiveAnswer(Answer::Input | Answer::Stream) => code_number(bases, out, temporary),
        Form::NumberOrText => bare_number(alloc, bases, out, temporary, exit),
        Form::OptionalNumber => zeroed(alloc, bases, out, temporary),
        Form::PrimitiveAnswer(_) => {}
    }
}

/// Makes of what stands in a temporary what is wanted.
pub fn converted(
    alloc: Global,
    bases: &Bases,
    out: &mut Emitted,
    form: Form,
    sort: Sort,
    temporary: u32,
    exit: u32,
)
    requires places { temporary ≤ most_places }
    requires labels { exit ≤ most_labels }
    ensures { Emits out.old out.new
        (converted bases.now (view_form form) sort temporary exit) }
{
    match sort {
        Sort::Value => to_value(alloc, bases, out, form, temporary),
        Sort::Number => to_number(alloc, bases, out, form, temporary, exit),
        Sort::Array | Sort::Iterator => {}
    }
}
