//! The code of a function.
ghost use Rattle.std.specs.Prelude.{◌≡◌, ◌≤◌, IfOk, length, map};
ghost use Rattle.wasm_types.specs.View.{views};
ghost use Rattle.mid_program.specs.View.{view_kind};
ghost use Rattle.mid_program.specs.ViewCode.{view_steps};
ghost use Rattle.lower_model.specs.Statements.{parameters_dropped, routine_body};
ghost use Rattle.lower_pieces.specs.Bounds.{most_places};
ghost use Rattle.lower_pieces.specs.Emits.{Emits};
ghost use Rattle.lower_expressions.specs.View.{view_layout};
ghost use Rattle.lowering.specs.Parts.{answer_given, parameter_dropped, routine_code, routine_steps, routine_way};
ghost use Rattle.lowering.specs.StepFits.{StepsFit};

use crate::around::OUTERMOST;
use crate::holding::{all_emptied, iterators_swept, operands_swept};
use crate::returning::constant_given;
use crate::steps::statements;
use host_imports::Import;
use lower_expressions::FunctionLayout;
use lower_pieces::{Emitted, LEAST, ask, block, emit};
use mid_program::{Kind, Step};
use std::alloc::AllocError;
use wasm_types::{Instr, Simple};

/// Drops the value of a parameter.
fn parameter_dropped(out: &mut Emitted, kind: Kind, local: u32)
    ensures { Emits out.old out.new (parameter_dropped (view_kind kind) local) }
{
    match kind {
        Kind::Boxed => {
            emit(out, Simple::LocalGet(local));
            ask(out, Import::Drop);
        }
        Kind::Unboxed | Kind::Array => {}
    }
}

/// Drops the values of parameters.
fn parameters_dropped(layout: &FunctionLayout<'_>, out: &mut Emitted, kinds: &[Kind])
    requires { length kinds.now ≤ most_places }
    ensures { Emits out.old out.new
        (parameters_dropped (view_layout layout.now) 0 (map view_kind kinds.now)) }
{
    let mut local = 0;
    for kind in kinds {
        parameter_dropped(out, *kind, local);
        local += 1;
    }
}

/// Adds the statements of a function, after which it answers nothing.
fn body_added(layout: &FunctionLayout<'_>, out: &mut Emitted, body: &[Step])
    requires { StepsFit (view_layout layout.now) (view_steps body.now) 0 0 }
    ensures { Emits out.old out.new
        (routine_steps (view_layout layout.now) (view_steps body.now)) }
{
    statements(layout, out, body, OUTERMOST);
    constant_given(layout, out, LEAST, 1);
}

/// Adds the statements of a function, and lets what it holds go where it is left.
fn left_added(layout: &FunctionLayout<'_>, out: &mut Emitted, body: &[Step])
    requires { StepsFit (view_layout layout.now) (view_steps body.now) 0 0 }
    ensures { Emits out.old out.new
        (routine_way (view_layout layout.now) (view_steps body.now)) }
{
    let mut inside = Emitted::new(layout.alloc);
    body_added(layout, &mut inside, body);
    block(layout.alloc, out, inside);
    operands_swept(layout, out);
}

/// Lets go of iterators and of the values of parameters, and gives the answer.
fn answer_given(layout: &FunctionLayout<'_>, out: &mut Emitted, kinds: &[Kind])
    requires { length kinds.now ≤ most_places }
    ensures { Emits out.old out.new
        (answer_given (view_layout layout.now) (map view_kind kinds.now)) }
{
    iterators_swept(layout, out);
    parameters_dropped(layout, out, kinds);
    emit(out, Simple::LocalGet(layout.bases.answer()));
}

/// Adds the code of a function.
fn routine_added(layout: &FunctionLayout<'_>, out: &mut Emitted, kinds: &[Kind], body: &[Step])
    requires parameters { length kinds.now ≤ most_places }
    requires fit { StepsFit (view_layout layout.now) (view_steps body.now) 0 0 }
    ensures { Emits out.old out.new
        (routine_code (view_layout layout.now) (map view_kind kinds.now) (view_steps body.now)) }
{
    all_emptied(layout, out);
    let mut inside = Emitted::new(layout.alloc);
    left_added(layout, &mut inside, body);
    block(layout.alloc, out, inside);
    answer_given(layout, out, kinds);
}

/// The code of a function: its body is a block, whose end is the exit of one that is left, within a block whose end is that of `return`.
pub(crate) fn routine_code(
    layout: &FunctionLayout<'_>,
    kinds: &[Kind],
    body: &[Step],
) -> Result<Vec<Instr>, AllocError>
    requires parameters { length kinds.now ≤ most_places }
    requires fit { StepsFit (view_layout layout.now) (view_steps body.now) 0 0 }
    ensures { IfOk result (λ code. views code.items
        ≡ routine_body (view_layout layout.now) (map view_kind kinds.now) (view_steps body.now)) }
{
    let mut code = Emitted::new(layout.alloc);
    routine_added(layout, &mut code, kinds, body);
    code.all()
}
