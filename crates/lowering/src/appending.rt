//! Texts that are put behind a name's own: the name gives its text away for each of them, so nobody else holds it.
ghost use Rattle.std.specs.Prelude.{◌≡◌, ◌≤◌};
ghost use Rattle.mid_program.specs.ViewCode.{view};
ghost use Rattle.lower_model.specs.Statements.{chain_appended, text_appended};
ghost use Rattle.lower_pieces.specs.Bounds.{most_places};
ghost use Rattle.lower_pieces.specs.Emits.{Emits};
ghost use Rattle.lower_expressions.specs.Fits.{Fits};
ghost use Rattle.lower_expressions.specs.View.{view_layout};
ghost use Rattle.lowering.specs.Parts.{is_read, text_joined};
ghost use Rattle.lowering.specs.QuickFits.{ChainFits};

use crate::evaluating::answered;
use lower_expressions::{FunctionLayout, global_handle};
use lower_pieces::{Emitted, emit, kept_value, moved_out, row_call, to_value};
use lower_quick::concat_in;
use mid_program::Code;
use sem_primitives::Primitive;
use wasm_types::Simple;

/// Puts the value of the first temporary behind a name's text. Where both are too long the name has nothing, and the function is left.
fn text_joined(layout: &FunctionLayout<'_>, out: &mut Emitted, name: usize, exit: u32)
    requires { name ≤ most_places }
    ensures { Emits out.old out.new (text_joined (view_layout layout.now) name exit) }
{
    let global = global_handle(layout, name);
    emit(out, Simple::GlobalGet(global));
    moved_out(out, layout.bases.handle(0));
    emit(out, row_call(Primitive::Concat));
    kept_value(layout.bases, out, true, 0, exit);
    moved_out(out, layout.bases.handle(0));
    emit(out, Simple::GlobalSet(global));
}

/// Evaluates what is put behind a name's text, and puts it there.
fn text_appended(
    layout: &FunctionLayout<'_>,
    out: &mut Emitted,
    name: usize,
    code: &Code,
    exit: u32,
)
    requires name { name ≤ most_places }
    requires fit { Fits (view_layout layout.now) (view code.now) 0 0 exit }
    ensures { Emits out.old out.new
        (text_appended (view_layout layout.now) name (view code.now) exit) }
{
    let form = answered(layout, out, code, exit);
    to_value(layout.alloc, layout.bases, out, form, 0);
    text_joined(layout, out, name, exit);
}

/// Whether code reads a name.
fn is_read(code: &Code) -> bool
    ensures { result ≡ is_read (view code.now) }
{
    matches!(code, Code::Get(_))
}

/// Puts the texts of a chain behind a name's own, one after the other.
pub(crate) fn chain_appended(
    layout: &FunctionLayout<'_>,
    out: &mut Emitted,
    name: usize,
    chain: &Code,
    exit: u32,
)
    requires name { name ≤ most_places }
    requires chain { ChainFits (view_layout layout.now) (view chain.now) exit }
    ensures { Emits out.old out.new
        (chain_appended (view_layout layout.now) name (view chain.now) exit) }
{
    match concat_in(chain) {
        Some((before, code)) => {
            if is_read(before) {
                text_appended(layout, out, name, code, exit);
            } else {
                chain_appended(layout, out, name, before, exit);
                text_appended(layout, out, name, code, exit);
            }
        }
        None => {}
    }
}
