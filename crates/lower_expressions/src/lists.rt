//! Lists of values, and what takes them.
ghost use Rattle.std.specs.Prelude.{◌≡◌, ◌+◌, ◌≤◌, length, map};
ghost use Rattle.sem_primitives.specs.ConstantNumbers.{destination_number};
ghost use Rattle.lower_model.specs.Emission.{listed_asked, values_counted};
ghost use Rattle.lower_pieces.specs.Bounds.{most_places};
ghost use Rattle.lower_pieces.specs.Emits.{Emits};
ghost use Rattle.lower_pieces.specs.Forms.{view_form};
ghost use Rattle.lower_expressions.specs.Parts.{listed_with};
ghost use Rattle.lower_expressions.specs.View.{view_layout};

use crate::function_layout::FunctionLayout;
use crate::walks::{all_appended, all_boxed};
use host_imports::{Import, VariadicImport};
use lower_pieces::{Emitted, Form, emit_all, import_call, kept, kept_value};
use sem_primitives::{Answer, Destination, Listed};
use wasm_types::Simple;

fn destination_number(to: Destination) -> u32
    ensures { result ≡ destination_number to }
{
    match to {
        Destination::Standard => 0,
        Destination::Emptied => 1,
        Destination::Appended => 2,
    }
}

/// How many values are taken, beside the name of a file.
fn values_counted(to: Destination, count: u32) -> u32
    ensures { result ≡ values_counted to count }
{
    match to {
        Destination::Standard => count,
        Destination::Emptied | Destination::Appended => count.saturating_sub(1),
    }
}

/// Asks the host for what takes a list of values.
fn listed_asked(
    layout: &FunctionLayout<'_>,
    out: &mut Emitted,
    listed: Listed,
    count: u32,
    temporary: u32,
    exit: u32,
)
    requires { temporary ≤ most_places }
    ensures { Emits out.old out.new
        (listed_asked (view_layout layout.now) listed count temporary exit) }
{
    let (listing, to) = match listed {
        Listed::Sprintf => {
            let call = import_call(Import::Variadic(VariadicImport::Sprintf));
            emit_all(out, &[Simple::I32Const(count), call]);
            return kept_value(layout.bases, out, true, temporary, exit);
        }
        Listed::Print(to) => (VariadicImport::Print, to),
        Listed::Printf(to) => (VariadicImport::Printf, to),
    };
    let all = [
        Simple::I32Const(values_counted(to, count)),
        Simple::I32Const(destination_number(to)),
        import_call(Import::Variadic(listing)),
    ];
    emit_all(out, &all);
    kept(layout.bases, out, true, Answer::Done, temporary, exit);
}

/// Adds what takes a list of values that are evaluated.
pub(crate) fn listed(
    layout: &FunctionLayout<'_>,
    out: &mut Emitted,
    forms: &[Form],
    listed: Listed,
    temporary: u32,
    exit: u32,
)
    requires { temporary + length forms.now ≤ most_places }
    ensures { Emits out.old out.new
        (listed_with (view_layout layout.now) (map view_form forms.now) listed temporary exit) }
{
    all_boxed(layout.alloc, layout.bases, out, forms, temporary);
    all_appended(layout.bases, out, forms, temporary);
    listed_asked(layout, out, listed, forms.len() as u32, temporary, exit);
}
