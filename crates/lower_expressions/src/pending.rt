//! Assignments of the command line, and imports that are asked until none is pending.
ghost use Rattle.std.specs.Prelude.{◌≡◌, suc, ◌≤◌, true, zero};
ghost use Rattle.wasm_types.specs.declared.instr.Simple.TheVariants.{Br};
ghost use Rattle.mid_program.specs.Mid.{Boxed, Unboxed};
ghost use Rattle.mid_program.specs.View.{view_kind};
ghost use Rattle.lower_model.specs.Emission.{asked, assigned, assigned_by_number, pending_assigned};
ghost use Rattle.lower_model.specs.Small.{emit};
ghost use Rattle.lower_pieces.specs.Bounds.{most_labels, most_places};
ghost use Rattle.lower_pieces.specs.Emits.{Emits, Holds};
ghost use Rattle.lower_expressions.specs.Parts.{asked_once, number_assigned, one_asked, one_assigned};
ghost use Rattle.lower_expressions.specs.View.{view_layout};

use crate::function_layout::FunctionLayout;
use crate::places::{global_handle, global_number};
use crate::slots::text_dropped;
use host_imports::Import;
use lower_pieces::{
    Bases, Emitted, TEXT_BESIDE, again, ask_row, emit, emit_all, import_call, kept_code, moved_out,
    number_is, row_call, when,
};
use mid_program::Kind;
use sem_primitives::Primitive;
use wasm_types::{CvtOp, Simple};

/// Gives a boxed name the value of a temporary.
fn boxed_assigned(layout: &FunctionLayout<'_>, out: &mut Emitted, name: usize, temporary: u32)
    requires name { name ≤ most_places }
    requires places { temporary ≤ most_places }
    ensures { Emits out.old out.new
        (assigned (view_layout layout.now) Boxed name temporary) }
{
    let global = global_handle(layout, name);
    emit_all(out, &[Simple::GlobalGet(global), import_call(Import::Drop)]);
    moved_out(out, layout.bases.handle(temporary));
    emit(out, Simple::GlobalSet(global));
}

/// Gives an unboxed name the text of a temporary.
fn text_assigned(layout: &FunctionLayout<'_>, out: &mut Emitted, name: usize, temporary: u32)
    requires name { name ≤ most_places }
    requires places { temporary ≤ most_places }
    ensures { Emits out.old out.new
        (assigned (view_layout layout.now) Unboxed name temporary) }
{
    text_dropped(layout, out, name);
    moved_out(out, layout.bases.handle(temporary));
    let all = [
        Simple::GlobalSet(global_handle(layout, name)),
        Simple::I64Const(TEXT_BESIDE),
        Simple::GlobalSet(global_number(layout, name)),
    ];
    emit_all(out, &all);
}

/// What gives a name the value of a temporary.
fn assigned_code(layout: &FunctionLayout<'_>, kind: Kind, name: usize, temporary: u32) -> Emitted
    requires name { name ≤ most_places }
    requires places { suc temporary ≤ most_places }
    ensures { Holds result
        (assigned (view_layout layout.now) (view_kind kind) name temporary) }
{
    let mut code = Emitted::new(layout.alloc);
    match kind {
        Kind::Boxed => boxed_assigned(layout, &mut code, name, temporary),
        Kind::Unboxed => text_assigned(layout, &mut code, name, temporary),
        Kind::Array => {}
    }
    code
}

/// Gives a scalar the value of a temporary, where its number is the one there.
fn number_assigned(
    layout: &FunctionLayout<'_>,
    out: &mut Emitted,
    kind: Kind,
    name: usize,
    temporary: u32,
)
    requires name { name ≤ most_places }
    requires places { suc temporary ≤ most_places }
    ensures { Emits out.old out.new
        (number_assigned (view_layout layout.now) (view_kind kind) name temporary) }
{
    number_is(out, layout.bases.number(temporary), name as u64);
    when(
        layout.alloc,
        out,
        assigned_code(layout, kind, name, temporary),
    );
}

/// Gives a name the value of a temporary, where its number is the one there.
fn one_assigned(
    layout: &FunctionLayout<'_>,
    out: &mut Emitted,
    kind: Kind,
    name: usize,
    temporary: u32,
)
    requires name { name ≤ most_places }
    requires places { suc temporary ≤ most_places }
    ensures { Emits out.old out.new
        (one_assigned (view_layout layout.now) (view_kind kind) name temporary) }
{
    match kind {
        Kind::Boxed | Kind::Unboxed => number_assigned(layout, out, kind, name, temporary),
        Kind::Array => {}
    }
}

/// Gives the name that has the number in a temporary the value there.
fn assigned_by_number(layout: &FunctionLayout<'_>, out: &mut Emitted, temporary: u32)
    requires { suc temporary ≤ most_places }
    ensures { Emits out.old out.new (assigned_by_number
        (view_layout layout.now) (view_layout layout.now).names zero temporary) }
{
    let mut name = 0;
    for declared in layout.script.names() {
        one_assigned(layout, out, declared.kind, name, temporary);
        name += 1;
    }
}

/// Makes an assignment of the command line, whose number and value go to a temporary.
pub fn pending_assigned(layout: &FunctionLayout<'_>, out: &mut Emitted, temporary: u32)
    requires { suc temporary ≤ most_places }
    ensures { Emits out.old out.new (pending_assigned (view_layout layout.now) temporary) }
{
    let all = [
        row_call(Primitive::PendingName),
        Simple::Convert(CvtOp::I64ExtendI32U),
        Simple::LocalSet(layout.bases.number(temporary)),
        row_call(Primitive::PendingValue),
        Simple::LocalSet(layout.bases.handle(temporary)),
    ];
    emit_all(out, &all);
    assigned_by_number(layout, out, temporary);
}

/// What makes an assignment and begins again.
pub fn pending_code(layout: &FunctionLayout<'_>, temporary: u32) -> Emitted
    requires { suc temporary ≤ most_places }
    ensures { Holds result
        (λ after. pending_assigned (view_layout layout.now) temporary (emit (Br 1) after)) }
{
    let mut code = Emitted::new(layout.alloc);
    pending_assigned(layout, &mut code, temporary);
    emit(&mut code, Simple::Br(1));
    code
}

/// Asks an import, and adds the test whether an assignment is pending.
fn asked_once(bases: &Bases, out: &mut Emitted, primitive: Primitive, temporary: u32, exit: u32)
    requires places { temporary ≤ most_places }
    requires labels { exit ≤ most_labels }
    ensures { Emits out.old out.new (asked_once bases.now primitive temporary exit) }
{
    ask_row(out, primitive);
    kept_code(bases, out, true, temporary, exit + 1);
    number_is(out, bases.number(temporary), 2);
}

/// One turn of asking.
fn one_asked(
    layout: &FunctionLayout<'_>,
    primitive: Primitive,
    temporary: u32,
    exit: u32,
) -> Emitted
    requires places { suc temporary ≤ most_places }
    requires labels { exit ≤ most_labels }
    ensures { Holds result
        (one_asked (view_layout layout.now) primitive temporary exit) }
{
    let mut code = Emitted::new(layout.alloc);
    asked_once(layout.bases, &mut code, primitive, temporary, exit);
    when(layout.alloc, &mut code, pending_code(layout, temporary));
    code
}

/// Asks an import until no assignment is pending.
pub fn asked(
    layout: &FunctionLayout<'_>,
    out: &mut Emitted,
    primitive: Primitive,
    temporary: u32,
    exit: u32,
)
    requires places { suc temporary ≤ most_places }
    requires labels { exit ≤ most_labels }
    ensures { Emits out.old out.new
        (asked (view_layout layout.now) primitive temporary exit) }
{
    again(
        layout.alloc,
        out,
        one_asked(layout, primitive, temporary, exit),
    );
}
