//! Faults that the module itself finds.
ghost use Rattle.std.specs.Prelude.{suc, ◌≤◌};
ghost use Rattle.lower_model.specs.Small.{fail_if, number_is};
ghost use Rattle.lower_pieces.specs.Bounds.{most_labels};
ghost use Rattle.lower_pieces.specs.Emits.{Emits};

use crate::emission::{emit_all, row_call, when_all};
use crate::emitted::Emitted;
use awk_values::Fault;
use sem_primitives::Primitive;
use std::alloc::Global;
use wasm_types::{IRelOp, Simple, ValType};

/// Keeps a fault and leaves the function, whose exit is `exit` labels further out, where the topmost operand is not 0.
pub fn fail_if(alloc: Global, out: &mut Emitted, fault: Fault, exit: u32)
    requires { exit ≤ suc most_labels }
    ensures { Emits out.old out.new (fail_if fault exit) }
{
    let all = [
        Simple::I32Const(u32::from(fault.number())),
        row_call(Primitive::Fail),
        Simple::Br(exit + 1),
    ];
    when_all(alloc, out, &all);
}

/// Adds the test whether a local has this number.
pub fn number_is(out: &mut Emitted, local: u32, number: u64)
    ensures { Emits out.old out.new (number_is local number) }
{
    let all = [
        Simple::LocalGet(local),
        Simple::I64Const(number),
        Simple::Compare(ValType::I64, IRelOp::Eq),
    ];
    emit_all(out, &all);
}
