//! Counters in arrays: the key is kept once, and goes with the sum.
ghost use Rattle.std.specs.Prelude.{[], ◌∷◌, ◌≤◌, suc};
ghost use Rattle.wasm_types.specs.Syntax.{Instructions};
ghost use Rattle.mid_program.specs.Mid as plain;
ghost use Rattle.mid_program.specs.Mid.{form_of};
ghost use Rattle.mid_program.specs.ViewCode.{view, view_array};
ghost use Rattle.lower_model.specs.Statements.{element_given, element_numbered, tallied};
ghost use Rattle.lower_pieces.specs.Bounds.{most_labels};
ghost use Rattle.lower_pieces.specs.Emits.{Emits, Reads};
ghost use Rattle.lower_pieces.specs.Forms.{view_form};
ghost use Rattle.lower_expressions.specs.Fits.{ArrayFits};
ghost use Rattle.lower_expressions.specs.View.{view_layout};
ghost use Rattle.lower_quick.specs.View.{view_tally};
ghost use Rattle.lowering.specs.Parts.{sum_given, tally_evaluated};
ghost use Rattle.lowering.specs.QuickFits.{TallyFits};

use crate::evaluating::{answered, evaluated, kept_first};
use crate::summing::sum_kept;
use lower_expressions::{At, FunctionLayout, array_pushed, sum_op};
use lower_pieces::{
    Emitted, Form, emit_all, kept_number, moved_out, row_call, to_number, to_value,
};
use lower_quick::Tally;
use mid_program::ArrayName;
use sem_primitives::Primitive;
use wasm_types::Simple;

/// Adds a counter's key and what is added, in the first two temporaries, and gives their forms, on which what comes next may depend.
fn tally_evaluated(
    layout: &FunctionLayout<'_>,
    out: &mut Emitted,
    tally: Tally<'_>,
    exit: u32,
) -> (Form, Form)
    requires { TallyFits (view_layout layout.now) (view_tally tally) exit }
    ensures { (next : plain.Form → plain.Form → Instructions) (whole : Instructions)
        → Reads out.old (tally_evaluated (view_layout layout.now) (view_tally tally.entry) exit
        (next (form_of [] (view tally.entry.key.now))
        (form_of (form_of [] (view tally.entry.key.now) ∷ []) (view tally.entry.added.now)))) whole
        → Reads out.new (next (view_form result.0) (view_form result.1)) whole }
{
    let key = answered(layout, out, tally.key, exit);
    let mut kept = kept_first(layout.alloc, out, key);
    let at = At {
        temporary: 1,
        arrays: 0,
        exit,
    };
    let added = evaluated(layout, &mut kept, out, false, tally.added, at);
    (key, added)
}

/// Adds the number of an element: a second handle of the key asks for it, and the key stays where it is.
fn element_numbered(layout: &FunctionLayout<'_>, out: &mut Emitted, array: ArrayName, exit: u32)
    requires { ArrayFits (view_array array) }
    ensures { Emits out.old out.new
        (element_numbered (view_layout layout.now) (view_array array) exit) }
{
    array_pushed(layout, out, array);
    let key = layout.bases.handle(0);
    let all = [
        Simple::LocalGet(key),
        Simple::LocalTee(key),
        row_call(Primitive::Dup),
        row_call(Primitive::Elem),
        row_call(Primitive::ToNum),
    ];
    emit_all(out, &all);
    kept_number(layout.bases, out, true, 2, exit);
}

/// Gives the number of the third temporary to an element, and the key with it.
fn element_given(layout: &FunctionLayout<'_>, out: &mut Emitted, array: ArrayName)
    requires { ArrayFits (view_array array) }
    ensures { Emits out.old out.new
        (element_given (view_layout layout.now) (view_array array)) }
{
    array_pushed(layout, out, array);
    moved_out(out, layout.bases.handle(0));
    let all = [
        Simple::LocalGet(layout.bases.number(2)),
        row_call(Primitive::Num),
        row_call(Primitive::SetElem),
        Simple::Drop,
    ];
    emit_all(out, &all);
}

/// Adds the sum of the element's number and what is added, and gives it to an element.
fn sum_given(layout: &FunctionLayout<'_>, out: &mut Emitted, tally: Tally<'_>, exit: u32)
    requires array { ArrayFits (view_array tally.written) }
    requires labels { exit ≤ most_labels }
    ensures { Emits out.old out.new
        (sum_given (view_layout layout.now) (view_tally tally.entry) exit) }
{
    let all = [
        Simple::LocalGet(layout.bases.number(2)),
        Simple::LocalGet(layout.bases.number(1)),
    ];
    emit_all(out, &all);
    sum_kept(layout, out, sum_op(tally.op), 2, exit);
    element_given(layout, out, tally.written);
}

/// Adds a counter.
pub(crate) fn tallied(layout: &FunctionLayout<'_>, out: &mut Emitted, tally: Tally<'_>, exit: u32)
    requires fit { TallyFits (view_layout layout.now) (view_tally tally) exit }
    requires labels { suc (suc exit) ≤ most_labels }
    ensures { Emits out.old out.new
        (tallied (view_layout layout.now) (view_tally tally.entry) exit) }
{
    let (key, added) = tally_evaluated(layout, out, tally, exit);
    to_value(layout.alloc, layout.bases, out, key, 0);
    element_numbered(layout, out, tally.read, exit);
    to_number(layout.alloc, layout.bases, out, added, 1, exit);
    sum_given(layout, out, tally, exit);
}
