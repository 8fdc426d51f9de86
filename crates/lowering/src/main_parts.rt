//! The code of `main`.
ghost use Rattle.std.specs.Prelude.{◌≡◌, ◌≤◌, IfOk, length};
ghost use Rattle.wasm_types.specs.Syntax.{Done, Instructions};
ghost use Rattle.wasm_types.specs.View.{views};
ghost use Rattle.mid_program.specs.View.{view_mid};
ghost use Rattle.mid_program.specs.ViewCode.{view_steps};
ghost use Rattle.lower_model.specs.Statements.{main_body, part_done};
ghost use Rattle.lower_pieces.specs.Bounds.{most_places};
ghost use Rattle.lower_pieces.specs.Emits.{Emits, Reads};
ghost use Rattle.lower_expressions.specs.View.{view_layout};
ghost use Rattle.lowering.specs.Parts.{first_code, main_code, part_left, parts_code, records_if};
ghost use Rattle.lowering.specs.StepFits.{LoopFits, PartsFit, StepsFit};

use crate::around::OUTERMOST;
use crate::beginning::before_parts;
use crate::holding::{all_emptied, swept};
use crate::leaving::WAY_NEXT;
use crate::records::{goes_on, items_added, records_read};
use crate::steps::statements;
use awk_values::Fault;
use lower_expressions::FunctionLayout;
use lower_pieces::{Emitted, ask_row, block, emit, emit_all, fail_if};
use mid_program::Step;
use sem_primitives::Primitive;
use std::alloc::AllocError;
use wasm_types::{CvtOp, IRelOp, ITestOp, Instr, Simple, ValType};

/// Goes on after `exit`; a fault leads out, and `next`, which is not to be there, is one.
fn part_left(layout: &FunctionLayout<'_>, out: &mut Emitted, exit: u32)
    requires { LoopFits exit }
    ensures { Emits out.old out.new (part_left (view_layout layout.now) exit) }
{
    let all = [
        Simple::GlobalGet(0),
        Simple::Test(ValType::I32, ITestOp::Eqz),
        Simple::BrIf(exit + 1),
        Simple::GlobalGet(0),
        Simple::I32Const(WAY_NEXT),
        Simple::Compare(ValType::I32, IRelOp::Eq),
    ];
    emit_all(out, &all);
    fail_if(layout.alloc, out, Fault::NextOutside, exit + 1);
    goes_on(layout, out);
}

/// Adds a part of `main`, and how it was left; its exit is `exit` labels further out.
fn part_done(layout: &FunctionLayout<'_>, out: &mut Emitted, actions: Emitted, exit: u32)
    requires { LoopFits exit }
    ensures { (code : Instructions) → Reads actions Done code
        → Emits out.old out.new (part_done (view_layout layout.now) code exit) }
{
    let mut inside = Emitted::new(layout.alloc);
    block(layout.alloc, &mut inside, actions);
    part_left(layout, &mut inside, exit);
    block(layout.alloc, out, inside);
}

/// Reads records, if the script has any use for them.
fn records_if(layout: &FunctionLayout<'_>, out: &mut Emitted, reads: bool, items: &[Step])
    requires { StepsFit (view_layout layout.now) (view_steps items.now) 0 0 }
    ensures { Emits out.old out.new
        (records_if (view_layout layout.now) reads (view_steps items.now)) }
{
    if reads {
        records_read(layout, out, items, 0);
    }
}

/// Adds what is done at the beginning, and for each record.
fn first_added(layout: &FunctionLayout<'_>, out: &mut Emitted)
    requires { PartsFit (view_layout layout.now) (view_mid layout.now.script.now.program.now) }
    ensures { Emits out.old out.new
        (first_code (view_layout layout.now) (view_mid layout.now.script.now.program.now)) }
{
    let program = layout.script.program;
    statements(layout, out, &program.begin, OUTERMOST);
    records_if(layout, out, program.reads, &program.items);
    emit(out, Simple::Br(1));
}

/// Adds both parts, and what goes before them.
fn parts_added(layout: &FunctionLayout<'_>, out: &mut Emitted)
    requires fit { PartsFit (view_layout layout.now) (view_mid layout.now.script.now.program.now) }
    requires few { length (view_mid layout.now.script.now.program.now).routines ≤ most_places }
    ensures { Emits out.old out.new
        (parts_code (view_layout layout.now) (view_mid layout.now.script.now.program.now)) }
{
    before_parts(layout, out);
    let mut first = Emitted::new(layout.alloc);
    first_added(layout, &mut first);
    part_done(layout, out, first, 0);
    ask_row(out, Primitive::BeginEnd);
    let mut last = Emitted::new(layout.alloc);
    items_added(layout, &mut last, &layout.script.program.end);
    part_done(layout, out, last, 0);
}

/// Adds the code of `main`, which gives the status once what it has is let go.
fn main_added(layout: &FunctionLayout<'_>, out: &mut Emitted)
    requires fit { PartsFit (view_layout layout.now) (view_mid layout.now.script.now.program.now) }
    requires few { length (view_mid layout.now.script.now.program.now).routines ≤ most_places }
    ensures { Emits out.old out.new
        (main_code (view_layout layout.now) (view_mid layout.now.script.now.program.now)) }
{
    all_emptied(layout, out);
    let mut inside = Emitted::new(layout.alloc);
    parts_added(layout, &mut inside);
    block(layout.alloc, out, inside);
    swept(layout, out);
    let all = [Simple::GlobalGet(1), Simple::Convert(CvtOp::I32WrapI64)];
    emit_all(out, &all);
}

/// The code of `main`.
pub(crate) fn main_code(layout: &FunctionLayout<'_>) -> Result<Vec<Instr>, AllocError>
    requires fit { PartsFit (view_layout layout.now) (view_mid layout.now.script.now.program.now) }
    requires few { length (view_mid layout.now.script.now.program.now).routines ≤ most_places }
    ensures { IfOk result (λ code. views code.items
        ≡ main_body (view_layout layout.now) (view_mid layout.now.script.now.program.now)) }
{
    let mut code = Emitted::new(layout.alloc);
    main_added(layout, &mut code);
    code.all()
}
