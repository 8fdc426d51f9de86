//! What `main` does before the script runs.
ghost use Rattle.std.specs.Prelude.{◌≡◌, ◌+◌, ◌<◌, ◌≤◌, ◌^◌, length, zero};
ghost use Rattle.sem_primitives.specs.ConstantNumbers.{kind_number};
ghost use Rattle.mid_program.specs.View.{view_kind, view_mid};
ghost use Rattle.lower_model.specs.Statements.{before_parts, declared, declared_kind, names_declared, names_made, routines_declared, started};
ghost use Rattle.lower_pieces.specs.Bounds.{most_places};
ghost use Rattle.lower_pieces.specs.Emits.{Emits};
ghost use Rattle.lower_expressions.specs.View.{view_layout};
ghost use Rattle.lowering.specs.Parts.{name_made, names_told};

use lower_expressions::{FunctionLayout, asked, global_handle, text_pushed};
use lower_pieces::{Emitted, emit_all, kept_number, row_call};
use mid_program::Kind;
use sem_primitives::{NameKind, Primitive};
use wasm_types::Simple;

/// Asks for a power, the first import that may fault, so that a fault that is there from the start is seen.
fn started(layout: &FunctionLayout<'_>, out: &mut Emitted)
    ensures { Emits out.old out.new (started (view_layout layout.now)) }
{
    let one = Simple::I64Const(1);
    emit_all(out, &[one, one, row_call(Primitive::Pow)]);
    kept_number(layout.bases, out, true, 0, 0);
}

/// The number of what a name is.
fn kind_number(kind: NameKind) -> u32
    ensures { result ≡ kind_number kind }
{
    match kind {
        NameKind::Scalar => 0,
        NameKind::ArrayOrFunction => 1,
    }
}

/// Announces a name, which is a text.
fn declared(layout: &FunctionLayout<'_>, out: &mut Emitted, kind: NameKind, text: usize)
    requires { text < length (view_layout layout.now).texts }
    ensures { Emits out.old out.new (declared (view_layout layout.now) kind text) }
{
    text_pushed(layout, out, text);
    let kind = Simple::I32Const(kind_number(kind));
    emit_all(out, &[kind, row_call(Primitive::Declare)]);
}

/// What the host is told of a name of this kind.
fn declared_kind(layout: &FunctionLayout<'_>, kind: Kind) -> NameKind
    ensures { result ≡ declared_kind (view_layout layout.now) (view_kind kind) }
{
    match kind {
        Kind::Boxed | Kind::Unboxed => NameKind::Scalar,
        Kind::Array => NameKind::ArrayOrFunction,
    }
}

/// Announces the names of the script, whose texts begin at this place.
fn names_declared(layout: &FunctionLayout<'_>, out: &mut Emitted, first: usize)
    requires there { first + length
        (view_layout layout.now).names ≤ length (view_layout layout.now).texts }
    requires few { length (view_layout layout.now).texts < 2 ^ 64 }
    ensures { Emits out.old out.new
        (names_declared (view_layout layout.now) first (view_layout layout.now).names) }
{
    let mut text = first;
    for name in layout.script.names() {
        declared(layout, out, declared_kind(layout, name.kind), text);
        text += 1;
    }
}

/// Announces the functions of the script, whose texts begin at this place.
fn routines_declared(layout: &FunctionLayout<'_>, out: &mut Emitted, first: usize)
    requires there { first + length
        (view_layout layout.now).calls ≤ length (view_layout layout.now).texts }
    requires few { length (view_layout layout.now).texts < 2 ^ 64 }
    ensures { Emits out.old out.new (routines_declared
        (view_layout layout.now) first (length (view_layout layout.now).calls)) }
{
    let past = first + layout.script.routines().len();
    for text in first..past {
        declared(layout, out, NameKind::ArrayOrFunction, text);
    }
}

/// Announces the names of the script, and its functions.
fn names_told(layout: &FunctionLayout<'_>, out: &mut Emitted)
    requires { length (view_mid layout.now.script.now.program.now).routines ≤ most_places }
    ensures { Emits out.old out.new
        (names_told (view_layout layout.now) (view_mid layout.now.script.now.program.now)) }
{
    let texts = layout.script.program.texts.as_slice().len();
    let names = layout.script.names().len();
    names_declared(layout, out, texts);
    routines_declared(layout, out, texts + names);
}

/// Gives a name what it has before the script runs.
fn name_made(layout: &FunctionLayout<'_>, out: &mut Emitted, kind: Kind, name: usize)
    requires { name ≤ most_places }
    ensures { Emits out.old out.new
        (name_made (view_layout layout.now) (view_kind kind) name) }
{
    match kind {
        Kind::Boxed => {
            let set = Simple::GlobalSet(global_handle(layout, name));
            emit_all(out, &[row_call(Primitive::Uninit), set]);
        }
        Kind::Array => {
            let set = Simple::GlobalSet(global_handle(layout, name));
            emit_all(out, &[row_call(Primitive::NewArray), set]);
        }
        Kind::Unboxed => {}
    }
}

/// Gives the names what they have before the script runs.
fn names_made(layout: &FunctionLayout<'_>, out: &mut Emitted)
    ensures { Emits out.old out.new
        (names_made (view_layout layout.now) zero (view_layout layout.now).names) }
{
    let mut name = 0;
    for declared in layout.script.names() {
        name_made(layout, out, declared.kind, name);
        name += 1;
    }
}

/// Adds what is done before the script's own statements.
pub(crate) fn before_parts(layout: &FunctionLayout<'_>, out: &mut Emitted)
    requires { length (view_mid layout.now.script.now.program.now).routines ≤ most_places }
    ensures { Emits out.old out.new
        (before_parts (view_layout layout.now) (view_mid layout.now.script.now.program.now)) }
{
    started(layout, out);
    names_told(layout, out);
    names_made(layout, out);
    asked(layout, out, Primitive::StartAssign, 0, 0);
}
