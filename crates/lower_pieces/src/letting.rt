//! What is in a temporary: dropped, moved to another one, or copied there.
ghost use Rattle.std.specs.Prelude.{◌≤◌};
ghost use Rattle.mid_program.specs.Mid.{NumberOrText};
ghost use Rattle.lower_model.specs.Small.{bound_from, copied_from, moved_from, number_copied, released, unused};
ghost use Rattle.lower_pieces.specs.Bounds.{most_places};
ghost use Rattle.lower_pieces.specs.Emits.{Emits};
ghost use Rattle.lower_pieces.specs.Forms.{view_form};

use crate::bases::Bases;
use crate::emission::{ask, emit_all};
use crate::emitted::Emitted;
use crate::form::Form;
use crate::handles::{copied, copied_if_any, let_go, moved, moved_out};
use host_imports::Import;
use sem_primitives::{Answer, Sort};
use std::alloc::Global;
use wasm_types::Simple;

/// Drops what is not used.
pub fn unused(alloc: Global, bases: &Bases, out: &mut Emitted, form: Form, temporary: u32)
    requires { temporary ≤ most_places }
    ensures { Emits out.old out.new (unused bases.now (view_form form) temporary) }
{
    let local = bases.handle(temporary);
    match form {
        Form::PrimitiveAnswer(Answer::Of(Sort::Value)) => {
            moved_out(out, local);
            ask(out, Import::Drop);
        }
        Form::NumberOrText => let_go(alloc, out, Import::Drop, local),
        Form::OptionalNumber | Form::PrimitiveAnswer(_) => {}
    }
}

/// Drops what was kept, unless it was moved away.
pub fn released(alloc: Global, bases: &Bases, out: &mut Emitted, form: Form, temporary: u32)
    requires { temporary ≤ most_places }
    ensures { Emits out.old out.new (released bases.now (view_form form) temporary) }
{
    let local = bases.handle(temporary);
    match form {
        Form::PrimitiveAnswer(Answer::Of(Sort::Value)) | Form::NumberOrText => {
            let_go(alloc, out, Import::Drop, local);
        }
        Form::OptionalNumber | Form::PrimitiveAnswer(_) => {}
    }
}

/// Copies a number.
fn number_copied(bases: &Bases, out: &mut Emitted, from: u32, to: u32)
    requires first { from ≤ most_places }
    requires second { to ≤ most_places }
    ensures { Emits out.old out.new (number_copied bases.now from to) }
{
    let all = [
        Simple::LocalGet(bases.number(from)),
        Simple::LocalSet(bases.number(to)),
    ];
    emit_all(out, &all);
}

/// Moves what is in a temporary to another one.
pub fn moved_from(bases: &Bases, out: &mut Emitted, form: Form, from: u32, to: u32)
    requires first { from ≤ most_places }
    requires second { to ≤ most_places }
    ensures { Emits out.old out.new (moved_from bases.now (view_form form) from to) }
{
    match form {
        Form::PrimitiveAnswer(Answer::Of(Sort::Value)) => moved(
            out,
            bases.handle(from),
            bases.handle(to),
        ),
        Form::NumberOrText => {
            number_copied(bases, out, from, to);
            moved(out, bases.handle(from), bases.handle(to));
        }
        Form::OptionalNumber | Form::PrimitiveAnswer(_) => number_copied(bases, out, from, to),
    }
}

/// Copies what an unboxed name had.
fn bare_copied(alloc: Global, bases: &Bases, out: &mut Emitted, from: u32, to: u32)
    requires first { from ≤ most_places }
    requires second { to ≤ most_places }
    ensures { Emits out.old out.new (copied_from bases.now NumberOrText from to) }
{
    number_copied(bases, out, from, to);
    let local = bases.handle(from);
    let get = Simple::LocalGet(local);
    copied_if_any(alloc, out, get, Simple::LocalSet(local), bases.handle(to));
}

/// Copies what is in a temporary to another one.
fn copied_from(alloc: Global, bases: &Bases, out: &mut Emitted, form: Form, from: u32, to: u32)
    requires first { from ≤ most_places }
    requires second { to ≤ most_places }
    ensures { Emits out.old out.new (copied_from bases.now (view_form form) from to) }
{
    match form {
        Form::PrimitiveAnswer(Answer::Of(Sort::Value)) => copied(
            out,
            bases.handle(from),
            bases.handle(to),
        ),
        Form::NumberOrText => bare_copied(alloc, bases, out, from, to),
        Form::OptionalNumber | Form::PrimitiveAnswer(_) => number_copied(bases, out, from, to),
    }
}

/// Moves or copies what is in a temporary to another one.
pub fn bound_from(
    alloc: Global,
    bases: &Bases,
    out: &mut Emitted,
    moves: bool,
    form: Form,
    from: u32,
    to: u32,
)
    requires first { from ≤ most_places }
    requires second { to ≤ most_places }
    ensures { Emits out.old out.new (bound_from bases.now moves (view_form form) from to) }
{
    if moves {
        moved_from(bases, out, form, from, to);
    } else {
        copied_from(alloc, bases, out, form, from, to);
    }
}
