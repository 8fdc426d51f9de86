//! Operands that are evaluated, one after the other.
ghost use Rattle.std.specs.Prelude.{[], ◌∷◌, ◌++◌, ◌≡◌, ◌+◌, suc, ◌≤◌, length, map};
ghost use Rattle.mid_program.specs.Sorted.{count_of};
ghost use Rattle.mid_program.specs.View.{view_kind};
ghost use Rattle.mid_program.specs.ViewCode.{views};
ghost use Rattle.lower_model.specs.Emission.{lent};
ghost use Rattle.lower_model.specs.Places.{made_in};
ghost use Rattle.lower_pieces.specs.Bounds.{most_labels, most_places};
ghost use Rattle.lower_pieces.specs.Emits.{Emits};
ghost use Rattle.lower_pieces.specs.Forms.{view_form};
ghost use Rattle.lower_expressions.specs.CodeAt.{Unrefused};
ghost use Rattle.lower_expressions.specs.Parts.{appended_with, boxed_with, converted_with, freed_with, given_one, given_with};
ghost use Rattle.lower_expressions.specs.View.{view_layout};

use crate::function_layout::FunctionLayout;
use host_imports::Import;
use lower_pieces::{
    Bases, Emitted, Form, LEAST, MINUS_ONE, TEXT_BESIDE, ask, converted, import_call, moved_out,
    number_is, to_value, when_all,
};
use mid_program::{Kind, Operand};
use sem_primitives::Argument;
use std::alloc::Global;
use wasm_types::Simple;

/// Notes the form of an operand. Where memory runs out for it nothing more is emitted.
pub(crate) fn noted(out: &mut Emitted, forms: &mut Vec<Form>, form: Form)
    ensures emits { Emits out.old out.new (λ after. after) }
    ensures forms { Unrefused out.new (forms.new.items ≡ forms.old.items ++ form ∷ []) }
    ensures few { length forms.new.items ≤ suc (length forms.old.items) }
{
    if forms.push(form).is_err() {
        out.refuse();
    }
}

/// Converts operands to what is wanted.
pub(crate) fn all_converted(
    alloc: Global,
    bases: &Bases,
    out: &mut Emitted,
    forms: &[Form],
    wanted: &[Argument],
    operands: &[Operand],
    temporary: u32,
    exit: u32,
)
    requires places { temporary + count_of (views operands.now) ≤ most_places }
    requires labels { exit ≤ most_labels }
    ensures { Emits out.old out.new (converted_with bases.now
        (map view_form forms.now) wanted.now (views operands.now) temporary exit) }
{
    let Some((operand, operands)) = operands.split_first() else {
        return;
    };
    let Some((first, wanted)) = wanted.split_first() else {
        return;
    };
    match (first, operand, forms.split_first()) {
        (Argument::Of(sort), Operand::Code(_), Some((form, forms))) => {
            converted(alloc, bases, out, *form, *sort, temporary, exit);
            all_converted(
                alloc,
                bases,
                out,
                forms,
                wanted,
                operands,
                temporary + 1,
                exit,
            );
        }
        (_, Operand::Constant(_), _) => {
            all_converted(alloc, bases, out, forms, wanted, operands, temporary, exit);
        }
        _ => {}
    }
}

/// Makes values of what stands in temporaries.
pub(crate) fn all_boxed(
    alloc: Global,
    bases: &Bases,
    out: &mut Emitted,
    forms: &[Form],
    temporary: u32,
)
    requires { temporary + length forms.now ≤ most_places }
    ensures { Emits out.old out.new
        (boxed_with bases.now (map view_form forms.now) temporary) }
{
    let mut left = forms;
    let mut place = temporary;
    while let Some((form, rest)) = left.split_first() {
        to_value(alloc, bases, out, *form, place);
        left = rest;
        place += 1;
    }
}

/// Puts the values of temporaries onto the argument list.
pub(crate) fn all_appended(bases: &Bases, out: &mut Emitted, forms: &[Form], temporary: u32)
    requires { temporary + length forms.now ≤ most_places }
    ensures { Emits out.old out.new
        (appended_with bases.now (map view_form forms.now) temporary) }
{
    let mut left = forms;
    let mut place = temporary;
    while let Some((_, rest)) = left.split_first() {
        moved_out(out, bases.handle(place));
        ask(out, Import::Arg);
        left = rest;
        place += 1;
    }
}

/// Of what lends its value an unboxed parameter is given the number, or nothing in place of a text.
fn lent(layout: &FunctionLayout<'_>, out: &mut Emitted, form: Form, temporary: u32)
    requires { temporary ≤ most_places }
    ensures { Emits out.old out.new
        (lent (view_layout layout.now) (view_form form) temporary) }
{
    match form {
        Form::NumberOrText => {
            let number = layout.bases.number(temporary);
            number_is(out, number, TEXT_BESIDE);
            let copy = layout.bases.handle(temporary);
            let dropped = [
                Simple::LocalGet(copy),
                Simple::I32Const(MINUS_ONE),
                Simple::LocalSet(copy),
                import_call(Import::Drop),
                Simple::I64Const(LEAST),
                Simple::LocalSet(number),
            ];
            when_all(layout.alloc, out, &dropped);
        }
        Form::PrimitiveAnswer(_) | Form::OptionalNumber => {}
    }
}

/// Makes of a temporary what its parameter is given.
fn given_one(layout: &FunctionLayout<'_>, out: &mut Emitted, kind: Kind, form: Form, temporary: u32)
    requires { temporary ≤ most_places }
    ensures { Emits out.old out.new
        (given_one (view_layout layout.now) (view_kind kind) (view_form form) temporary) }
{
    match kind {
        Kind::Boxed => to_value(layout.alloc, layout.bases, out, form, temporary),
        Kind::Unboxed => lent(layout, out, form, temporary),
        Kind::Array => {}
    }
}

/// Makes of temporaries what their parameters are given.
pub(crate) fn all_given(
    layout: &FunctionLayout<'_>,
    out: &mut Emitted,
    forms: &[Form],
    kinds: &[Kind],
    operands: &[Operand],
    temporary: u32,
)
    requires { temporary + count_of (views operands.now) ≤ most_places }
    ensures { Emits out.old out.new (given_with (view_layout layout.now)
        (map view_form forms.now) (map view_kind kinds.now) (views operands.now) temporary) }
{
    let Some((operand, operands)) = operands.split_first() else {
        return;
    };
    let Some((kind, kinds)) = kinds.split_first() else {
        return;
    };
    match (operand, forms.split_first()) {
        (Operand::Code(_), Some((form, forms))) => {
            given_one(layout, out, *kind, *form, temporary);
            all_given(layout, out, forms, kinds, operands, temporary + 1);
        }
        _ => all_given(layout, out, forms, kinds, operands, temporary),
    }
}

/// How many arrays are made for a call.
pub(crate) fn made_in(operands: &[Operand]) -> u32
    requires { made_in (views operands.now) ≤ most_places }
    ensures { result ≡ made_in (views operands.now) }
{
    let mut count = 0;
    for operand in operands {
        if let Operand::Fresh = operand {
            count += 1;
        }
    }
    count
}

/// Frees the arrays of a call, the last one first.
pub(crate) fn all_freed(bases: &Bases, out: &mut Emitted, arrays: u32, count: u32)
    requires { arrays + count ≤ most_places }
    ensures { Emits out.old out.new (freed_with bases.now arrays count) }
{
    let mut left = count;
    while left > 0 {
        left -= 1;
        moved_out(out, bases.array(arrays + left));
        ask(out, Import::FreeArray);
    }
}
