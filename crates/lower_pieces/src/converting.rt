//! What stands in a temporary, converted there.
ghost use Rattle.std.specs.Prelude.{◌≤◌};
ghost use Rattle.mid_program.specs.Mid.{NumberOrText};
ghost use Rattle.lower_model.specs.Small.{nothing_boxed, to_value};
ghost use Rattle.lower_pieces.specs.Bounds.{most_places};
ghost use Rattle.lower_pieces.specs.Emits.{Emits, Holds};
ghost use Rattle.lower_pieces.specs.Forms.{view_form};

use crate::bases::Bases;
use crate::boxing::{boxed_number, boxed_perhaps};
use crate::emission::{emit, emit_all, emit_if, row_call, when_all};
use crate::emitted::Emitted;
use crate::faults::number_is;
use crate::form::Form;
use crate::keeping::{LEAST, TEXT_BESIDE};
use sem_primitives::{Answer, Primitive, Sort};
use std::alloc::Global;
use wasm_types::{IRelOp, Simple, ValType};

/// What makes the uninitialised value where there is nothing yet, and leaves a text beside.
fn nothing_boxed(alloc: Global, bases: &Bases, temporary: u32) -> Emitted
    requires { temporary ≤ most_places }
    ensures { Holds result (nothing_boxed bases.now temporary) }
{
    let mut code = Emitted::new(alloc);
    number_is(&mut code, bases.number(temporary), LEAST);
    let put = Simple::LocalSet(bases.handle(temporary));
    when_all(alloc, &mut code, &[row_call(Primitive::Uninit), put]);
    code
}

/// Boxes what an unboxed name has, unless a text stands beside it.
fn bare_value(alloc: Global, bases: &Bases, out: &mut Emitted, temporary: u32)
    requires { temporary ≤ most_places }
    ensures { Emits out.old out.new (to_value bases.now NumberOrText temporary) }
{
    let all = [
        Simple::LocalGet(bases.number(temporary)),
        Simple::I64Const(TEXT_BESIDE),
        Simple::Compare(ValType::I64, IRelOp::LeS),
    ];
    emit_all(out, &all);
    let mut number = Emitted::new(alloc);
    boxed_number(bases, &mut number, temporary);
    emit(&mut number, Simple::LocalSet(bases.handle(temporary)));
    emit_if(alloc, out, nothing_boxed(alloc, bases, temporary), number);
}

/// Makes a value of what stands in a temporary.
pub fn to_value(alloc: Global, bases: &Bases, out: &mut Emitted, form: Form, temporary: u32)
    requires { temporary ≤ most_places }
    ensures { Emits out.old out.new (to_value bases.now (view_form form) temporary) }
{
    let local = bases.handle(temporary);
    match form {
        Form::PrimitiveAnswer(Answer::Of(Sort::Value)) => {}
        Form::PrimitiveAnswer(Answer::Of(Sort::Number) | Answer::Truth) => {
            boxed_number(bases, out, temporary);
            emit(out, Simple::LocalSet(local));
        }
        Form::NumberOrText => bare_value(alloc, bases, out, temporary),
        Form::OptionalNumber => boxed_perhaps(
            alloc,
            bases,
            out,
            temporary,
            Simple::LocalSet(local),
        ),
        Form::PrimitiveAnswer(_) => {
            emit_all(out, &[row_call(Primitive::Uninit), Simple::LocalSet(local)]);
        }
    }
}
