//! Parts of loops.
ghost use Rattle.std.specs.Prelude.{[], ◌∷◌, ◌≤◌, suc, zero};
ghost use Rattle.wasm_types.specs.Syntax.{Done, Instructions};
ghost use Rattle.mid_program.specs.Mid.{a_value};
ghost use Rattle.mid_program.specs.ViewCode.{view, view_array};
ghost use Rattle.lower_model.specs.Emission.{dropped};
ghost use Rattle.lower_model.specs.Statements.{iterator_left, key_stored};
ghost use Rattle.lower_pieces.specs.Bounds.{most_labels, most_places};
ghost use Rattle.lower_pieces.specs.Emits.{Emits, Reads};
ghost use Rattle.lower_expressions.specs.Fits.{ArrayFits, Fits};
ghost use Rattle.lower_expressions.specs.View.{view_layout};
ghost use Rattle.lowering.specs.Parts.{iterator_made, key_asked, rounds, tested_on};

use crate::evaluating::{dropped, kept_first, tested};
use host_imports::Import;
use lower_expressions::{At, FunctionLayout, array_pushed};
use lower_pieces::{
    Bases, Emitted, Form, again, ask, block, emit, emit_all, emptied, let_go, moved_out, row_call,
};
use mid_program::{ArrayName, Code};
use sem_primitives::{Answer, Primitive, Sort};
use std::alloc::Global;
use wasm_types::{IRelOp, Simple, ValType};

/// -2, which an iterator answers past the last key.
const END_CODE: u32 = u32::MAX - 1;

/// Adds what is done over and over, within a label for its end.
pub(crate) fn rounds(alloc: Global, out: &mut Emitted, turn: Emitted)
    ensures { (inside : Instructions) → Reads turn Done inside
        → Emits out.old out.new (rounds inside) }
{
    let mut code = Emitted::new(alloc);
    again(alloc, &mut code, turn);
    block(alloc, out, code);
}

/// Begins a turn again where a test holds.
pub(crate) fn tested_on(layout: &FunctionLayout<'_>, out: &mut Emitted, test: &Code, exit: u32)
    requires fit { Fits (view_layout layout.now) (view test.now) 0 0 (suc (suc exit)) }
    requires labels { suc (suc exit) ≤ most_labels }
    ensures { Emits out.old out.new
        (tested_on (view_layout layout.now) (view test.now) exit) }
{
    emit(out, Simple::Nop);
    tested(layout, out, test, exit + 2);
    emit(out, Simple::BrIf(0));
}

/// Makes an iterator over an array.
pub(crate) fn iterator_made(
    layout: &FunctionLayout<'_>,
    out: &mut Emitted,
    array: ArrayName,
    iterator: u32,
)
    requires array { ArrayFits (view_array array) }
    requires few { iterator ≤ most_places }
    ensures { Emits out.old out.new
        (iterator_made (view_layout layout.now) (view_array array) iterator) }
{
    array_pushed(layout, out, array);
    let set = Simple::LocalSet(layout.bases.iterator(iterator));
    emit_all(out, &[row_call(Primitive::Iter), set]);
}

/// Asks for the next key, and leaves the loop where there is none.
fn key_asked(bases: &Bases, out: &mut Emitted, iterator: u32)
    requires { iterator ≤ most_places }
    ensures { Emits out.old out.new (key_asked bases.now iterator) }
{
    let local = bases.iterator(iterator);
    let all = [
        Simple::LocalGet(local),
        Simple::LocalTee(local),
        row_call(Primitive::IterNext),
        Simple::LocalTee(bases.handle(0)),
        Simple::I32Const(END_CODE),
        Simple::Compare(ValType::I32, IRelOp::Eq),
        Simple::BrIf(1),
    ];
    emit_all(out, &all);
}

/// Stores the next key, which is kept in the first temporary meanwhile.
pub(crate) fn key_stored(
    layout: &FunctionLayout<'_>,
    out: &mut Emitted,
    store: &Code,
    iterator: u32,
    exit: u32,
)
    requires few { iterator ≤ most_places }
    requires fit { Fits (view_layout layout.now) (view store.now) 1 0 exit }
    ensures { Emits out.old out.new
        (key_stored (view_layout layout.now) iterator (view store.now) exit) }
{
    key_asked(layout.bases, out, iterator);
    key_kept(layout, out, store, exit);
    let_go(layout.alloc, out, Import::Drop, layout.bases.handle(0));
}

/// Adds the code that stores what is kept in the first temporary.
fn key_kept(layout: &FunctionLayout<'_>, out: &mut Emitted, store: &Code, exit: u32)
    requires { Fits (view_layout layout.now) (view store.now) 1 0 exit }
    ensures { Emits out.old out.new
        (dropped (view_layout layout.now) (a_value ∷ []) (zero ∷ []) (view store.now) 1 0 exit) }
{
    let value = Form::PrimitiveAnswer(Answer::Of(Sort::Value));
    let mut kept = kept_first(layout.alloc, out, value);
    let at = At {
        temporary: 1,
        arrays: 0,
        exit,
    };
    dropped(layout, &mut kept, out, store, at);
}

/// Lets an iterator go.
pub(crate) fn iterator_left(layout: &FunctionLayout<'_>, out: &mut Emitted, iterator: u32)
    requires { iterator ≤ most_places }
    ensures { Emits out.old out.new (iterator_left (view_layout layout.now) iterator) }
{
    emptied(out, layout.bases.handle(0));
    moved_out(out, layout.bases.iterator(iterator));
    ask(out, Import::IterFree);
}
