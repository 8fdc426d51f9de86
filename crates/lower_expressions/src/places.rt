//! Where names and arrays stand.
ghost use Rattle.std.specs.Prelude.{◌≡◌, ◌<◌, ◌≤◌, length};
ghost use Rattle.mid_program.specs.ViewCode.{view_array};
ghost use Rattle.lower_model.specs.Emission.{array_pushed, global_handle, global_number, text_pushed};
ghost use Rattle.lower_pieces.specs.Bounds.{most_places};
ghost use Rattle.lower_pieces.specs.Emits.{Emits};
ghost use Rattle.lower_expressions.specs.Fits.{ArrayFits};
ghost use Rattle.lower_expressions.specs.View.{view_layout};

use crate::function_layout::FunctionLayout;
use lower_pieces::{Emitted, emit, emit_all};
use mid_program::ArrayName;
use wasm_types::Simple;

/// The global of a name's handle.
pub fn global_handle(layout: &FunctionLayout<'_>, name: usize) -> u32
    requires { name ≤ most_places }
    ensures { result ≡ global_handle (view_layout layout.now) name }
{
    let name = name as u32;
    layout.script.ranges() + 3 + (name + name)
}

/// The global of a name's number.
pub fn global_number(layout: &FunctionLayout<'_>, name: usize) -> u32
    requires { name ≤ most_places }
    ensures { result ≡ global_number (view_layout layout.now) name }
{
    let name = name as u32;
    layout.script.ranges() + 4 + (name + name)
}

/// Adds an array.
pub fn array_pushed(layout: &FunctionLayout<'_>, out: &mut Emitted, array: ArrayName)
    requires { ArrayFits (view_array array) }
    ensures { Emits out.old out.new
        (array_pushed (view_layout layout.now) (view_array array)) }
{
    match array {
        ArrayName::Numbered(0) => emit(out, Simple::I32Const(0)),
        ArrayName::Numbered(1) => emit(out, Simple::I32Const(1)),
        ArrayName::Numbered(number) => {
            let name = layout.script.array_name(number - 2);
            emit(out, Simple::GlobalGet(global_handle(layout, name)));
        }
        ArrayName::Given(parameter) => emit(out, Simple::LocalGet(parameter as u32)),
    }
}

/// Adds a text's place and its length.
pub fn text_pushed(layout: &FunctionLayout<'_>, out: &mut Emitted, text: usize)
    requires { text < length (view_layout layout.now).texts }
    ensures { Emits out.old out.new (text_pushed (view_layout layout.now) text) }
{
    let span = layout.script.span(text);
    emit_all(
        out,
        &[Simple::I32Const(span.place), Simple::I32Const(span.size)],
    );
}
