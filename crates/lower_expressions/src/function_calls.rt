//! Calls of functions, once what they are given is evaluated.
ghost use Rattle.std.specs.Prelude.{[], ◌≡◌, ◌+◌, ◌≤◌, map};
ghost use Rattle.mid_program.specs.Mid.{parameters_at};
ghost use Rattle.mid_program.specs.Sorted.{count_of};
ghost use Rattle.mid_program.specs.View.{view_kind};
ghost use Rattle.mid_program.specs.ViewCode.{view, views};
ghost use Rattle.lower_model.specs.Emission.{array_meant, one_given};
ghost use Rattle.lower_model.specs.Places.{made_in};
ghost use Rattle.lower_pieces.specs.Bounds.{most_labels, most_places};
ghost use Rattle.lower_pieces.specs.Emits.{Emits};
ghost use Rattle.lower_pieces.specs.Forms.{view_form};
ghost use Rattle.lower_expressions.specs.Fits.{ArrayFits, ArraysFit};
ghost use Rattle.lower_expressions.specs.Parts.{called_with, entered, passed_with, pushed_with};
ghost use Rattle.lower_expressions.specs.View.{view_layout};

use crate::at::At;
use crate::function_layout::FunctionLayout;
use crate::operands::array_meant;
use crate::places::array_pushed;
use crate::walks::{all_freed, all_given, made_in};
use host_imports::IMPORT_COUNT;
use lower_pieces::{Bases, Emitted, Form, answer_kept, emit, emit_all, moved_out};
use mid_program::{Code, Kind, Operand};
use std::alloc::Global;
use wasm_types::Simple;

/// Puts what a parameter is given on the stack.
fn one_given(
    layout: &FunctionLayout<'_>,
    out: &mut Emitted,
    kind: Kind,
    code: &Code,
    temporary: u32,
)
    requires places { temporary ≤ most_places }
    requires array { ArrayFits (array_meant (view code.now)) }
    ensures { Emits out.old out.new
        (one_given (view_layout layout.now) (view_kind kind) (view code.now) temporary) }
{
    match kind {
        Kind::Boxed => moved_out(out, layout.bases.handle(temporary)),
        Kind::Unboxed => emit(out, Simple::LocalGet(layout.bases.number(temporary))),
        Kind::Array => array_pushed(layout, out, array_meant(code)),
    }
}

/// Puts what parameters are given on the stack.
fn all_pushed(
    layout: &FunctionLayout<'_>,
    out: &mut Emitted,
    kinds: &[Kind],
    operands: &[Operand],
    temporary: u32,
    arrays: u32,
)
    requires places { temporary + count_of (views operands.now) ≤ most_places }
    requires made { arrays + made_in (views operands.now) ≤ most_places }
    requires fit { ArraysFit (views operands.now) }
    ensures { Emits out.old out.new (pushed_with (view_layout layout.now)
        (map view_kind kinds.now) (views operands.now) temporary arrays) }
{
    let Some((operand, operands)) = operands.split_first() else {
        return;
    };
    let Some((kind, kinds)) = kinds.split_first() else {
        return;
    };
    match operand {
        Operand::Code(code) => {
            one_given(layout, out, *kind, code, temporary);
            all_pushed(layout, out, kinds, operands, temporary + 1, arrays);
        }
        Operand::Constant(_) => all_pushed(layout, out, kinds, operands, temporary, arrays),
        Operand::Fresh => {
            let local = layout.bases.array(arrays);
            emit_all(out, &[Simple::LocalGet(local), Simple::LocalTee(local)]);
            all_pushed(layout, out, kinds, operands, temporary, arrays + 1);
        }
    }
}

/// The parameters of a function; of one that is not there, none.
fn parameters<'a>(layout: &FunctionLayout<'a>, function: usize) -> &'a [Kind]
    ensures { map view_kind result.now ≡ parameters_at (view_layout layout.now).calls function }
{
    match layout.script.program.routines.get(function) {
        Some(routine) => &routine.parameters,
        None => &[],
    }
}

/// Adds what a function is given, whose operands are evaluated.
fn all_passed(
    layout: &FunctionLayout<'_>,
    out: &mut Emitted,
    forms: &[Form],
    kinds: &[Kind],
    operands: &[Operand],
    temporary: u32,
    arrays: u32,
)
    requires places { temporary + count_of (views operands.now) ≤ most_places }
    requires made { arrays + made_in (views operands.now) ≤ most_places }
    requires fit { ArraysFit (views operands.now) }
    ensures { Emits out.old out.new
        (passed_with (view_layout layout.now) (map view_form forms.now)
        (map view_kind kinds.now) (views operands.now) temporary arrays) }
{
    all_given(layout, out, forms, kinds, operands, temporary);
    all_pushed(layout, out, kinds, operands, temporary, arrays);
}

/// Enters a function, and keeps what it answers.
fn entered(
    alloc: Global,
    bases: &Bases,
    out: &mut Emitted,
    function: usize,
    temporary: u32,
    exit: u32,
)
    requires function { function ≤ most_places }
    requires places { temporary ≤ most_places }
    requires labels { exit ≤ most_labels }
    ensures { Emits out.old out.new (entered bases.now function temporary exit) }
{
    emit(out, Simple::Call(function as u32 + IMPORT_COUNT as u32));
    answer_kept(alloc, bases, out, temporary, exit);
}

/// Adds a call of a function, whose operands are evaluated.
pub(crate) fn called(
    layout: &FunctionLayout<'_>,
    out: &mut Emitted,
    forms: &[Form],
    function: usize,
    operands: &[Operand],
    at: At,
)
    requires function { function ≤ most_places }
    requires places { at.temporary + count_of (views operands.now) ≤ most_places }
    requires made { at.arrays + made_in (views operands.now) ≤ most_places }
    requires fit { ArraysFit (views operands.now) }
    requires labels { at.exit ≤ most_labels }
    ensures { Emits out.old out.new (called_with (view_layout layout.now)
        (map view_form forms.now) function (views operands.now) at.temporary at.arrays at.exit) }
{
    let kinds = parameters(layout, function);
    all_passed(layout, out, forms, kinds, operands, at.temporary, at.arrays);
    entered(
        layout.alloc,
        layout.bases,
        out,
        function,
        at.temporary,
        at.exit,
    );
    all_freed(layout.bases, out, at.arrays, made_in(operands));
}
