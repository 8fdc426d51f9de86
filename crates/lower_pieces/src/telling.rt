//! The truth of what stands in a temporary, on the stack.
ghost use Rattle.std.specs.Prelude.{◌≤◌};
ghost use Rattle.sem_primitives.specs.declared.table.Primitive.TheVariants.{Truth};
ghost use Rattle.mid_program.specs.Mid.{NumberOrText};
ghost use Rattle.wasm_types.specs.declared.instr.CvtOp.TheVariants.{I64ExtendI32U};
ghost use Rattle.wasm_types.specs.declared.instr.Simple.TheVariants.{Convert, LocalSet};
ghost use Rattle.lower_model.specs.Places.{handle_local, number_local};
ghost use Rattle.lower_model.specs.Small.{ask_row, emit, moved_out, not_zero, truth, zeroed};
ghost use Rattle.lower_pieces.specs.Bounds.{most_places};
ghost use Rattle.lower_pieces.specs.Emits.{Emits, Holds};
ghost use Rattle.lower_pieces.specs.Forms.{view_form};
ghost use Rattle.lower_pieces.specs.Fragments.{emit_truth};

use crate::bases::Bases;
use crate::emission::{ask_row, code_of, emit_all, emit_if, row_call};
use crate::emitted::Emitted;
use crate::faults::number_is;
use crate::form::Form;
use crate::handles::{MINUS_ONE, moved_out};
use crate::keeping::TEXT_BESIDE;
use crate::numbers::zeroed;
use sem_primitives::{Answer, Primitive, Sort};
use std::alloc::Global;
use wasm_types::{CvtOp, ITestOp, Simple, ValType};

/// Adds the test whether a temporary's number is not 0.
fn not_zero(bases: &Bases, out: &mut Emitted, temporary: u32)
    requires { temporary ≤ most_places }
    ensures { Emits out.old out.new (not_zero bases.now temporary) }
{
    let all = [
        Simple::LocalGet(bases.number(temporary)),
        Simple::Test(ValType::I64, ITestOp::Eqz),
        Simple::Test(ValType::I32, ITestOp::Eqz),
    ];
    emit_all(out, &all);
}

/// What puts a value's truth in the place of the number.
fn truth_put(alloc: Global, bases: &Bases, temporary: u32) -> Emitted
    requires { temporary ≤ most_places }
    ensures { Holds result (λ after. moved_out
        (handle_local bases.now temporary) (ask_row Truth (emit (Convert I64ExtendI32U)
        (emit (LocalSet (number_local bases.now temporary)) after)))) }
{
    let local = bases.handle(temporary);
    let all = [
        Simple::LocalGet(local),
        Simple::I32Const(MINUS_ONE),
        Simple::LocalSet(local),
        row_call(Primitive::Truth),
        Simple::Convert(CvtOp::I64ExtendI32U),
        Simple::LocalSet(bases.number(temporary)),
    ];
    code_of(alloc, &all)
}

/// Makes a number of what an unboxed name has, by its truth.
fn bare_told(alloc: Global, bases: &Bases, out: &mut Emitted, temporary: u32)
    requires { temporary ≤ most_places }
    ensures { Emits out.old out.new (emit_truth bases.now temporary) }
{
    number_is(out, bases.number(temporary), TEXT_BESIDE);
    let some = truth_put(alloc, bases, temporary);
    let mut none = Emitted::new(alloc);
    zeroed(alloc, bases, &mut none, temporary);
    emit_if(alloc, out, some, none);
}

/// Adds the truth of what stands in a temporary.
pub fn truth(alloc: Global, bases: &Bases, out: &mut Emitted, form: Form, temporary: u32)
    requires { temporary ≤ most_places }
    ensures { Emits out.old out.new (truth bases.now (view_form form) temporary) }
{
    match form {
        Form::PrimitiveAnswer(Answer::Of(Sort::Value)) => {
            moved_out(out, bases.handle(temporary));
            ask_row(out, Primitive::Truth);
        }
        Form::NumberOrText => {
            bare_told(alloc, bases, out, temporary);
            not_zero(bases, out, temporary);
        }
        Form::OptionalNumber => {
            zeroed(alloc, bases, out, temporary);
            not_zero(bases, out, temporary);
        }
        Form::PrimitiveAnswer(_) => not_zero(bases, out, temporary),
    }
}
