//! Numbers as values.
ghost use Rattle.std.specs.Prelude.{◌≤◌};
ghost use Rattle.lower_model.specs.Small.{boxed_number, boxed_perhaps};
ghost use Rattle.lower_pieces.specs.Bounds.{most_places};
ghost use Rattle.lower_pieces.specs.Emits.{Emits};

use crate::bases::Bases;
use crate::emission::{emit_all, emit_if_all, row_call};
use crate::emitted::Emitted;
use crate::faults::number_is;
use crate::keeping::LEAST;
use sem_primitives::Primitive;
use std::alloc::Global;
use wasm_types::Simple;

/// Boxes the number of a temporary.
pub fn boxed_number(bases: &Bases, out: &mut Emitted, temporary: u32)
    requires { temporary ≤ most_places }
    ensures { Emits out.old out.new (boxed_number bases.now temporary) }
{
    let number = Simple::LocalGet(bases.number(temporary));
    emit_all(out, &[number, row_call(Primitive::Num)]);
}

/// Puts a number, or that there is none yet, as a value.
pub fn boxed_perhaps(alloc: Global, bases: &Bases, out: &mut Emitted, temporary: u32, put: Simple)
    requires { temporary ≤ most_places }
    ensures { Emits out.old out.new (boxed_perhaps bases.now temporary put) }
{
    let local = bases.number(temporary);
    number_is(out, local, LEAST);
    let none = [row_call(Primitive::Uninit), put];
    let number = [Simple::LocalGet(local), row_call(Primitive::Num), put];
    emit_if_all(alloc, out, &none, &number);
}
