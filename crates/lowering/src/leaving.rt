//! How a function is left, and ranges that open and close.
ghost use Rattle.std.specs.Prelude.{◌≤◌};
ghost use Rattle.sem_primitives.specs.ConstantNumbers.{flag_number};
ghost use Rattle.wasm_types.specs.declared.instr.Simple.TheVariants.{GlobalSet, I32Const};
ghost use Rattle.lower_model.specs.Places.{range_global};
ghost use Rattle.lower_model.specs.Small.{emit};
ghost use Rattle.lower_model.specs.Statements.{left_by};
ghost use Rattle.lower_pieces.specs.Bounds.{most_places};
ghost use Rattle.lower_pieces.specs.Emits.{Emits};

use lower_pieces::{Emitted, emit_all};
use wasm_types::Simple;

/// How a function is left by a fault, or by `return`.
pub(crate) const WAY_NONE: u32 = 0;

/// How a function is left by `next`.
pub(crate) const WAY_NEXT: u32 = 1;

/// How a function is left by `exit`.
pub(crate) const WAY_EXIT: u32 = 2;

/// Leaves the function in a way.
pub(crate) fn left_by(out: &mut Emitted, way: u32, exit: u32)
    ensures { Emits out.old out.new (left_by way exit) }
{
    let all = [
        Simple::I32Const(way),
        Simple::GlobalSet(0),
        Simple::Br(exit),
    ];
    emit_all(out, &all);
}

/// Opens the range of an item, or closes it.
pub(crate) fn marked(out: &mut Emitted, item: usize, opens: bool)
    requires { item ≤ most_places }
    ensures { Emits out.old out.new (λ after. emit
        (I32Const (flag_number opens)) (emit (GlobalSet (range_global item)) after)) }
{
    let all = [
        Simple::I32Const(u32::from(opens)),
        Simple::GlobalSet(item as u32 + 3),
    ];
    emit_all(out, &all);
}
