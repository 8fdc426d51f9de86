//! The records of the main input.
ghost use Rattle.std.specs.Prelude.{◌≤◌};
ghost use Rattle.mid_program.specs.ViewCode.{view_steps};
ghost use Rattle.lower_model.specs.Statements.{goes_on, records_read};
ghost use Rattle.lower_pieces.specs.Bounds.{most_labels};
ghost use Rattle.lower_pieces.specs.Emits.{Emits, Reads};
ghost use Rattle.lower_expressions.specs.View.{view_layout};
ghost use Rattle.lowering.specs.Parts.{assignment_made, items_code, next_taken, record_asked, record_code, record_turn, record_way};
ghost use Rattle.lowering.specs.StepFits.{LoopFits, StepsFit};

use crate::around::OUTERMOST;
use crate::holding::left_swept;
use crate::leaving::{WAY_NEXT, WAY_NONE};
use crate::steps::statements;
use lower_expressions::{FunctionLayout, pending_code};
use lower_pieces::{
    Bases, Emitted, again, ask_row, block, emit, emit_all, kept_code, number_is, when,
};
use mid_program::Step;
use sem_primitives::Primitive;
use wasm_types::{IRelOp, Simple, ValType};

/// Goes on after `next` or `exit`, once what was held is let go.
pub(crate) fn goes_on(layout: &FunctionLayout<'_>, out: &mut Emitted)
    ensures { Emits out.old out.new (goes_on (view_layout layout.now)) }
{
    emit_all(out, &[Simple::I32Const(WAY_NONE), Simple::GlobalSet(0)]);
    left_swept(layout, out);
}

/// Goes on after `next`; all else leads out.
fn next_taken(layout: &FunctionLayout<'_>, out: &mut Emitted, exit: u32)
    requires { exit ≤ most_labels }
    ensures { Emits out.old out.new (next_taken (view_layout layout.now) exit) }
{
    let all = [
        Simple::GlobalGet(0),
        Simple::I32Const(WAY_NEXT),
        Simple::Compare(ValType::I32, IRelOp::Ne),
        Simple::BrIf(exit + 1),
    ];
    emit_all(out, &all);
    goes_on(layout, out);
}

/// Adds statements of `main` that nothing left.
pub(crate) fn items_added(layout: &FunctionLayout<'_>, out: &mut Emitted, items: &[Step])
    requires { StepsFit (view_layout layout.now) (view_steps items.now) 0 0 }
    ensures { Emits out.old out.new
        (items_code (view_layout layout.now) (view_steps items.now)) }
{
    statements(layout, out, items, OUTERMOST);
    emit(out, Simple::Br(1));
}

/// Adds the items for a record, and how they were left.
fn record_added(layout: &FunctionLayout<'_>, out: &mut Emitted, items: &[Step], exit: u32)
    requires labels { exit ≤ most_labels }
    requires fit { StepsFit (view_layout layout.now) (view_steps items.now) 0 0 }
    ensures { Emits out.old out.new
        (record_code (view_layout layout.now) (view_steps items.now) exit) }
{
    let mut inside = Emitted::new(layout.alloc);
    items_added(layout, &mut inside, items);
    block(layout.alloc, out, inside);
    next_taken(layout, out, exit);
}

/// Asks for a record, and adds the test whether there is one.
fn record_asked(bases: &Bases, out: &mut Emitted, exit: u32)
    requires { exit ≤ most_labels }
    ensures { Emits out.old out.new (record_asked bases.now exit) }
{
    ask_row(out, Primitive::NextMain);
    kept_code(bases, out, true, 0, exit + 1);
    number_is(out, bases.number(0), 1);
}

/// Adds what is done where there is a record: the items for it, in a block, and the next one.
fn record_way(layout: &FunctionLayout<'_>, out: &mut Emitted, items: &[Step], exit: u32)
    requires labels { exit ≤ most_labels }
    requires fit { StepsFit (view_layout layout.now) (view_steps items.now) 0 0 }
    ensures { Emits out.old out.new
        (record_way (view_layout layout.now) (view_steps items.now) exit) }
{
    let mut inside = Emitted::new(layout.alloc);
    record_added(layout, &mut inside, items, exit);
    block(layout.alloc, out, inside);
    emit(out, Simple::Br(1));
}

/// Makes an assignment of the command line, where one stands before the next record.
fn assignment_made(layout: &FunctionLayout<'_>, out: &mut Emitted)
    ensures { Emits out.old out.new (assignment_made (view_layout layout.now)) }
{
    number_is(out, layout.bases.number(0), 2);
    when(layout.alloc, out, pending_code(layout, 0));
}

/// Adds one record, or one assignment.
fn record_turn(layout: &FunctionLayout<'_>, out: &mut Emitted, items: &[Step], exit: u32)
    requires labels { LoopFits exit }
    requires fit { StepsFit (view_layout layout.now) (view_steps items.now) 0 0 }
    ensures { Emits out.old out.new
        (record_turn (view_layout layout.now) (view_steps items.now) exit) }
{
    record_asked(layout.bases, out, exit);
    let mut way = Emitted::new(layout.alloc);
    record_way(layout, &mut way, items, exit + 2);
    when(layout.alloc, out, way);
    assignment_made(layout, out);
}

/// Reads records to the last one, with the items for each.
pub(crate) fn records_read(
    layout: &FunctionLayout<'_>,
    out: &mut Emitted,
    items: &[Step],
    exit: u32,
)
    requires labels { LoopFits exit }
    requires fit { StepsFit (view_layout layout.now) (view_steps items.now) 0 0 }
    ensures { Emits out.old out.new
        (records_read (view_layout layout.now) (view_steps items.now) exit) }
{
    let mut turn = Emitted::new(layout.alloc);
    record_turn(layout, &mut turn, items, exit);
    again(layout.alloc, out, turn);
}
