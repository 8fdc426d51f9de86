//! Texts that were read or replaced, kept while code stores them.
ghost use Rattle.std.specs.Prelude.{◌+◌, suc, ◌≤◌, map};
ghost use Rattle.sem_primitives.specs.declared.table.Primitive.TheVariants.{NewArray};
ghost use Rattle.wasm_types.specs.Syntax.{Done, Instructions};
ghost use Rattle.wasm_types.specs.declared.instr.Simple.TheVariants.{LocalSet};
ghost use Rattle.mid_program.specs.Sorted.{count_of};
ghost use Rattle.mid_program.specs.ViewCode.{view, views};
ghost use Rattle.host_imports.specs.declared.import.Import.TheVariants.{Drop};
ghost use Rattle.lower_model.specs.Emission.{keeping_closed, left_over, sequence_closed};
ghost use Rattle.lower_model.specs.Places.{array_local, handle_local};
ghost use Rattle.lower_model.specs.Small.{ask_row, code_number, emit, let_go};
ghost use Rattle.lower_pieces.specs.Bounds.{most_labels, most_places};
ghost use Rattle.lower_pieces.specs.Emits.{Emits, Reads};
ghost use Rattle.lower_pieces.specs.Forms.{view_form};
ghost use Rattle.lower_expressions.specs.Fits.{ArraysFit};
ghost use Rattle.lower_expressions.specs.Parts.{file_asked, replaced_asked, replaced_with, stored_when};
ghost use Rattle.lower_expressions.specs.View.{view_layout};

use crate::function_layout::FunctionLayout;
use crate::operands::all_pushed;
use crate::walks::all_converted;
use host_imports::Import;
use lower_pieces::{
    Bases, Emitted, Form, ask_row, code_number, emit_all, kept, kept_code, let_go, moved_from,
    moved_out, number_is, released, row_call, to_value, unused, when,
};
use mid_program::{Code, Operand};
use sem_primitives::{Answer, Argument, Primitive, Sort};
use wasm_types::{ITestOp, Simple, ValType};

/// Adds an array that is made for a call.
pub(crate) fn array_made(bases: &Bases, out: &mut Emitted, arrays: u32)
    requires { arrays ≤ most_places }
    ensures { Emits out.old out.new
        (λ after. ask_row NewArray (emit (LocalSet (array_local bases.now arrays)) after)) }
{
    let put = Simple::LocalSet(bases.array(arrays));
    emit_all(out, &[row_call(Primitive::NewArray), put]);
}

/// Keeps a text that was read or replaced.
pub(crate) fn text_kept(bases: &Bases, out: &mut Emitted, primitive: Primitive, temporary: u32)
    requires { suc temporary ≤ most_places }
    ensures { Emits out.old out.new (λ after. ask_row primitive
        (emit (LocalSet (handle_local bases.now (suc temporary))) after)) }
{
    let put = Simple::LocalSet(bases.handle(temporary + 1));
    emit_all(out, &[row_call(primitive), put]);
}

/// Drops what code left that was evaluated for what it does alone. An assignment has given its value away then, what was kept is dropped where it was kept, and
/// code in which something comes last has dropped that.
pub fn left_over(
    layout: &FunctionLayout<'_>,
    out: &mut Emitted,
    code: &Code,
    form: Form,
    temporary: u32,
)
    requires { temporary ≤ most_places }
    ensures { Emits out.old out.new
        (left_over (view_layout layout.now) (view code.now) (view_form form) temporary) }
{
    match code {
        Code::Set(_, _) | Code::Seq(_, _) | Code::Let(_, _) | Code::Bound(_, _) => {}
        _ => unused(layout.alloc, layout.bases, out, form, temporary),
    }
}

/// Lets go of a text, and of what is left of the code that stored it.
pub(crate) fn text_let_go(
    layout: &FunctionLayout<'_>,
    out: &mut Emitted,
    store: &Code,
    form: Form,
    temporary: u32,
)
    requires { suc (suc temporary) ≤ most_places }
    ensures { Emits out.old out.new (λ after. left_over
        (view_layout layout.now) (view store.now) (view_form form) (suc (suc temporary))
        (let_go Drop (handle_local layout.now.bases.now (suc temporary)) after)) }
{
    left_over(layout, out, store, form, temporary + 2);
    let local = layout.bases.handle(temporary + 1);
    let_go(layout.alloc, out, Import::Drop, local);
}

/// Adds the end of a sequence, whose last code is given, with the form of its answer. Where `only` what it does counts, the answer is dropped.
pub(crate) fn sequence_closed(
    layout: &FunctionLayout<'_>,
    out: &mut Emitted,
    only: bool,
    code: &Code,
    form: Form,
    temporary: u32,
)
    requires { temporary ≤ most_places }
    ensures { Emits out.old out.new (sequence_closed
        (view_layout layout.now) only (view code.now) (view_form form) temporary) }
{
    if only {
        left_over(layout, out, code, form, temporary);
    }
}

/// Adds the end of what is kept: it is dropped, unless it was moved away. The answer of the code that was evaluated meanwhile takes its place; where `only` what
/// it does counts, the answer is dropped.
pub(crate) fn keeping_closed(
    layout: &FunctionLayout<'_>,
    out: &mut Emitted,
    only: bool,
    code: &Code,
    held: Form,
    form: Form,
    temporary: u32,
)
    requires { suc temporary ≤ most_places }
    ensures { Emits out.old out.new (keeping_closed (view_layout
        layout.now) only (view code.now) (view_form held) (view_form form) temporary) }
{
    if only {
        left_over(layout, out, code, form, temporary + 1);
        released(layout.alloc, layout.bases, out, held, temporary);
    } else {
        released(layout.alloc, layout.bases, out, held, temporary);
        moved_from(layout.bases, out, form, temporary + 1, temporary);
    }
}

/// Asks for a record of a file, whose name is evaluated.
pub(crate) fn file_asked(
    layout: &FunctionLayout<'_>,
    out: &mut Emitted,
    form: Form,
    temporary: u32,
    exit: u32,
)
    requires { temporary ≤ most_places }
    ensures { Emits out.old out.new
        (file_asked layout.now.bases.now (view_form form) temporary exit) }
{
    to_value(layout.alloc, layout.bases, out, form, temporary);
    moved_out(out, layout.bases.handle(temporary));
    ask_row(out, Primitive::GetlineVarFile);
    kept_code(layout.bases, out, true, temporary, exit);
}

/// Stores a text where one was read, and makes the number of the code that says so.
pub(crate) fn line_stored(
    layout: &FunctionLayout<'_>,
    out: &mut Emitted,
    store: Emitted,
    temporary: u32,
)
    requires { temporary ≤ most_places }
    ensures { (added : Instructions) → Reads store Done added
        → Emits out.old out.new (λ after. stored_when layout.now.bases.now added temporary
        (code_number layout.now.bases.now temporary after)) }
{
    number_is(out, layout.bases.number(temporary), 1);
    when(layout.alloc, out, store);
    code_number(layout.bases, out, temporary);
}

/// Asks the host for a replacement, whose operands are converted.
fn replaced_asked(
    layout: &FunctionLayout<'_>,
    out: &mut Emitted,
    every: bool,
    operands: &[Operand],
    temporary: u32,
    exit: u32,
)
    requires places { temporary + count_of (views operands.now) ≤ most_places }
    requires arrays { ArraysFit (views operands.now) }
    ensures { Emits out.old out.new
        (replaced_asked (view_layout layout.now) every (views operands.now) temporary exit) }
{
    let wanted = [
        Argument::Of(Sort::Value),
        Argument::Of(Sort::Value),
        Argument::Of(Sort::Value),
    ];
    all_pushed(layout, out, &wanted, operands, temporary);
    let all = [Simple::I32Const(u32::from(every)), row_call(Primitive::Sub)];
    emit_all(out, &all);
    kept(
        layout.bases,
        out,
        true,
        Answer::Of(Sort::Number),
        temporary,
        exit,
    );
}

/// Adds a replacement, whose operands are evaluated, and the test whether nothing was replaced.
pub(crate) fn replaced(
    layout: &FunctionLayout<'_>,
    out: &mut Emitted,
    forms: &[Form],
    every: bool,
    operands: &[Operand],
    temporary: u32,
    exit: u32,
)
    requires places { temporary + count_of (views operands.now) ≤ most_places }
    requires labels { exit ≤ most_labels }
    requires arrays { ArraysFit (views operands.now) }
    ensures { Emits out.old out.new (replaced_with (view_layout layout.now)
        (map view_form forms.now) every (views operands.now) temporary exit) }
{
    let wanted = [
        Argument::Of(Sort::Value),
        Argument::Of(Sort::Value),
        Argument::Of(Sort::Value),
    ];
    all_converted(
        layout.alloc,
        layout.bases,
        out,
        forms,
        &wanted,
        operands,
        temporary,
        exit,
    );
    replaced_asked(layout, out, every, operands, temporary, exit);
    let all = [
        Simple::LocalGet(layout.bases.number(temporary)),
        Simple::Test(ValType::I64, ITestOp::Eqz),
    ];
    emit_all(out, &all);
}
