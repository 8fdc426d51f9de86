//! Handles: moved, copied and let go.
ghost use Rattle.wasm_types.specs.declared.instr.Simple.TheVariants.{LocalGet, LocalSet};
ghost use Rattle.lower_model.specs.Small.{ask, copied, copied_if_any, emptied, has_handle, let_go, moved, moved_out};
ghost use Rattle.lower_pieces.specs.Emits.{Emits, Holds};

use crate::emission::{code_of, emit, emit_all, import_call, row_call, when, when_all};
use crate::emitted::Emitted;
use host_imports::Import;
use sem_primitives::Primitive;
use std::alloc::Global;
use wasm_types::{IRelOp, Simple, ValType};

/// -1, which stands for a fault where an answer is a word of 32 bits, and for no handle in a local.
pub const MINUS_ONE: u32 = u32::MAX;

/// Adds a handle's way from its local onto the stack.
pub fn moved_out(out: &mut Emitted, local: u32)
    ensures { Emits out.old out.new (moved_out local) }
{
    let all = [
        Simple::LocalGet(local),
        Simple::I32Const(MINUS_ONE),
        Simple::LocalSet(local),
    ];
    emit_all(out, &all);
}

/// Adds a handle's way from local to local.
pub fn moved(out: &mut Emitted, from: u32, to: u32)
    ensures { Emits out.old out.new (moved from to) }
{
    moved_out(out, from);
    emit(out, Simple::LocalSet(to));
}

/// Empties a local.
pub fn emptied(out: &mut Emitted, local: u32)
    ensures { Emits out.old out.new (emptied local) }
{
    emit_all(out, &[Simple::I32Const(MINUS_ONE), Simple::LocalSet(local)]);
}

/// Adds the test whether a local has a handle.
fn has_handle(out: &mut Emitted, local: u32)
    ensures { Emits out.old out.new (has_handle local) }
{
    let all = [
        Simple::LocalGet(local),
        Simple::LocalTee(local),
        Simple::I32Const(MINUS_ONE),
        Simple::Compare(ValType::I32, IRelOp::Ne),
    ];
    emit_all(out, &all);
}

/// What lets go of what a local has.
pub fn going(alloc: Global, import: Import, local: u32) -> Emitted
    ensures { Holds result (λ after. moved_out local (ask import after)) }
{
    let all = [
        Simple::LocalGet(local),
        Simple::I32Const(MINUS_ONE),
        Simple::LocalSet(local),
        import_call(import),
    ];
    code_of(alloc, &all)
}

/// Lets go of what a local has, if it has anything.
pub fn let_go(alloc: Global, out: &mut Emitted, import: Import, local: u32)
    ensures { Emits out.old out.new (let_go import local) }
{
    has_handle(out, local);
    when(alloc, out, going(alloc, import, local));
}

/// Adds a second handle for what a local has, which goes to another local and stays where it was.
pub fn copied(out: &mut Emitted, from: u32, to: u32)
    ensures { Emits out.old out.new (copied (LocalGet from) (LocalSet from) to) }
{
    copied_by(out, Simple::LocalGet(from), Simple::LocalSet(from), to);
}

/// The same for what `get` reads and `set` writes.
pub fn copied_by(out: &mut Emitted, get: Simple, set: Simple, to: u32)
    ensures { Emits out.old out.new (copied get set to) }
{
    emit_all(
        out,
        &[get, Simple::LocalTee(to), row_call(Primitive::Dup), set],
    );
}

/// The same where there may be no handle.
pub fn copied_if_any(alloc: Global, out: &mut Emitted, get: Simple, set: Simple, to: u32)
    ensures { Emits out.old out.new (copied_if_any get set to) }
{
    let all = [
        get,
        Simple::LocalTee(to),
        Simple::I32Const(MINUS_ONE),
        Simple::Compare(ValType::I32, IRelOp::Ne),
    ];
    emit_all(out, &all);
    let copy = [
        Simple::LocalGet(to),
        Simple::LocalTee(to),
        row_call(Primitive::Dup),
        set,
    ];
    when_all(alloc, out, &copy);
}
