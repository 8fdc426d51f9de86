//! What a function holds: emptied at its beginning, and let go on every way out.
ghost use Rattle.std.specs.Prelude.{◌≡◌, ◌≤◌};
ghost use Rattle.lower_model.specs.Statements.{all_emptied, has_functions, iterators_swept, left_swept, operands_swept, swept};
ghost use Rattle.lower_pieces.specs.Bounds.{most_places};
ghost use Rattle.lower_pieces.specs.Emits.{Emits};
ghost use Rattle.lower_expressions.specs.View.{view_layout};
ghost use Rattle.lowering.specs.Holding.{held_count, held_emptied, held_import, held_local, held_swept};

use host_imports::Import;
use lower_expressions::FunctionLayout;
use lower_pieces::{Bases, Emitted, WAS_LEFT, emit_all, emptied, let_go};
use wasm_types::Simple;

/// What a function holds beside its answer.
#[derive(Clone, Copy, Drop)]
pub enum Held {
    Temporaries,
    Iterators,
    Arrays,
}

/// How many of them there are.
fn count(bases: &Bases, held: Held) -> u32
    ensures count { result ≡ held_count held bases.now }
    ensures few { result ≤ most_places }
{
    match held {
        Held::Temporaries => bases.temporaries(),
        Held::Iterators => bases.iterators(),
        Held::Arrays => bases.arrays(),
    }
}

/// The local of one of them.
fn local(bases: &Bases, held: Held, place: u32) -> u32
    requires { place ≤ most_places }
    ensures { result ≡ held_local held bases.now place }
{
    match held {
        Held::Temporaries => bases.handle(place),
        Held::Iterators => bases.iterator(place),
        Held::Arrays => bases.array(place),
    }
}

/// What lets one of them go.
fn import(held: Held) -> Import
    ensures { result ≡ held_import held }
{
    match held {
        Held::Temporaries => Import::Drop,
        Held::Iterators => Import::IterFree,
        Held::Arrays => Import::FreeArray,
    }
}

/// Empties all of one sort.
fn held_emptied(bases: &Bases, out: &mut Emitted, held: Held)
    ensures { Emits out.old out.new
        (held_emptied held bases.now 0 (held_count held bases.now)) }
{
    let count = count(bases, held);
    for place in 0..count {
        emptied(out, local(bases, held, place));
    }
}

/// Empties what a function has, at its beginning.
pub(crate) fn all_emptied(layout: &FunctionLayout<'_>, out: &mut Emitted)
    ensures { Emits out.old out.new (all_emptied (view_layout layout.now)) }
{
    emit_all(
        out,
        &[
            Simple::I64Const(WAS_LEFT),
            Simple::LocalSet(layout.bases.answer()),
        ],
    );
    held_emptied(layout.bases, out, Held::Temporaries);
    held_emptied(layout.bases, out, Held::Iterators);
    held_emptied(layout.bases, out, Held::Arrays);
}

/// Lets all of one sort go.
fn held_swept(layout: &FunctionLayout<'_>, out: &mut Emitted, held: Held)
    ensures { Emits out.old out.new
        (held_swept held layout.now.bases.now 0 (held_count held layout.now.bases.now)) }
{
    let import = import(held);
    let count = count(layout.bases, held);
    for place in 0..count {
        let_go(layout.alloc, out, import, local(layout.bases, held, place));
    }
}

/// Lets go of what a function has.
pub(crate) fn swept(layout: &FunctionLayout<'_>, out: &mut Emitted)
    ensures { Emits out.old out.new (swept (view_layout layout.now)) }
{
    held_swept(layout, out, Held::Temporaries);
    held_swept(layout, out, Held::Iterators);
    held_swept(layout, out, Held::Arrays);
}

/// Lets go of temporaries and of arrays of calls.
pub(crate) fn operands_swept(layout: &FunctionLayout<'_>, out: &mut Emitted)
    ensures { Emits out.old out.new (operands_swept (view_layout layout.now)) }
{
    held_swept(layout, out, Held::Temporaries);
    held_swept(layout, out, Held::Arrays);
}

/// Lets go of iterators.
pub(crate) fn iterators_swept(layout: &FunctionLayout<'_>, out: &mut Emitted)
    ensures { Emits out.old out.new
        (iterators_swept (view_layout layout.now) 0 layout.now.bases.now.iterators) }
{
    held_swept(layout, out, Held::Iterators);
}

/// Lets go of what `next` or `exit` left in `main`: where the script has no functions, that is no more than iterators.
pub(crate) fn left_swept(layout: &FunctionLayout<'_>, out: &mut Emitted)
    ensures { Emits out.old out.new
        (left_swept (view_layout layout.now) (has_functions (view_layout layout.now).calls)) }
{
    if layout.script.routines().is_empty() {
        held_swept(layout, out, Held::Iterators);
    } else {
        swept(layout, out);
    }
}
