//! The code of expressions.
ghost use Rattle.std.specs.Prelude.{[], ◌∷◌, ◌++◌, ◌≡◌, ◌+◌, ◌≤◌, suc, Bool, length, map, IfOk, OnOk};
ghost use Rattle.mid_program.specs.Mid as plain;
ghost use Rattle.mid_program.specs.Mid.{form_of};
ghost use Rattle.mid_program.specs.Sorted.{count_of};
ghost use Rattle.mid_program.specs.ViewCode.{joined, view, view_slot, views};
ghost use Rattle.lower_expressions.specs.CodeAt.{AllFitAt, FitsAt, Unrefused, all_emitted_at, emitted_at};
ghost use Rattle.lower_pieces.specs.Emits.{Emits, Holds};
ghost use Rattle.lower_pieces.specs.Forms.{view_form};
ghost use Rattle.lower_expressions.specs.Fits.{AllFit, Fits, Within};
ghost use Rattle.lower_expressions.specs.Keeps.{keeping_in};
ghost use Rattle.lower_expressions.specs.Parts.{anyway_with, branch_with, forms_in, stored_with, sum_with};
ghost use Rattle.lower_expressions.specs.Sources.{AdditionFits};
ghost use Rattle.lower_expressions.specs.View.{view_layout};
ghost use Rattle.lower_quick.specs.View.{view_addition};

use crate::at::{At, after_array, inner_at, next, stored_at};
use crate::entry::Entry;
use crate::fields::{field_in, field_read};
use crate::function_calls::called;
use crate::function_layout::FunctionLayout;
use crate::immediates::{immediate_in, immediately_compared};
use crate::kept::{Keeps, Kept};
use crate::leaves::{bound, constant, is_open, line, text, unset, variable};
use crate::lists::listed;
use crate::operands::{all_joined, operated, operation_form};
use crate::pending::asked;
use crate::slots::slot_set;
use crate::sources::{added, addition_unsure};
use crate::storing::{
    array_made, file_asked, keeping_closed, left_over, line_stored, replaced, sequence_closed,
    text_kept, text_let_go,
};
use crate::walks::noted;
use awk_values::CompareOp;
use lower_pieces::{Emitted, Form, compared, converted, emit_if, is_value, truth};
use lower_quick::{Addition, addition_in};
use mid_program::{Code, Operand, Operation, Slot};
use sem_primitives::{Answer, Listed, Primitive, Sort};
use std::alloc::AllocError;

/// Adds the code of an expression, and gives the form of its answer. Where `only` what it does counts, an assignment moves its value, and no answer is brought to
/// its place that would be dropped there.
pub fn expression(
    layout: &FunctionLayout<'_>,
    kept: &mut Kept,
    out: &mut Emitted,
    only: bool,
    code: &Code,
    at: At,
) -> Result<Form, AllocError>
    requires { FitsAt layout.now (view code.now) at }
    ensures form { IfOk result (λ form. view_form form ≡ form_of kept.old.forms (view code.now)) }
    ensures emits { OnOk result (Emits out.old out.new
        (emitted_at layout.now only kept.old (view code.now) at)) }
    ensures kept { OnOk result (kept.new ≡ kept.old) }
{
    Ok(evaluated(layout, &Keeps::Before(kept), out, only, code, at))
}

#[tactic(auto, unfolding(lower_model::specs::Emission::emitted))]
/// Adds the code of an expression, and gives the form of its answer. Only what was emitted tells whether memory ran out.
#[cycle(expressions)]
fn evaluated<'a>(
    layout: &FunctionLayout<'_>,
    keeps: &'a Keeps<'a>,
    out: &mut Emitted,
    only: bool,
    code: &Code,
    at: At,
) -> Form
    requires { FitsAt layout.now (view code.now) at }
    ensures form { view_form result ≡ form_of (keeping_in keeps.now).forms (view code.now) }
    ensures emits { Emits out.old out.new
        (emitted_at layout.now only (keeping_in keeps.now) (view code.now) at) }
{
    match code {
        Code::Do(what, operands) => operation(layout, keeps, out, *what, operands, at),
        Code::Joined(first, others, last) => key(layout, keeps, out, first, others, last, at),
        Code::Over(what, operands) => listing(layout, keeps, out, *what, operands, at),
        Code::Compare(op, left, right) => comparison(layout, keeps, out, *op, left, right, at),
        Code::Call(function, operands) => call(layout, keeps, out, *function, operands, at),
        Code::Ask => line(layout, out, at),
        Code::AskLine(store) => line_into(layout, keeps, out, store, at),
        Code::FileLine(file, store) => file_line(layout, keeps, out, file, store, at),
        Code::Replace(all, operands, store) => replacement(
            layout, keeps, out, *all, operands, store, at,
        ),
        Code::Number(number) => constant(layout, out, number.cast_unsigned(), at),
        Code::Text(place) => text(layout, out, *place, at),
        Code::Unset => unset(layout, out, at),
        Code::Get(slot) => variable(layout, out, *slot, at),
        Code::Set(slot, value) => assignment(layout, keeps, out, only, *slot, value, at),
        Code::Array(_) => Form::PrimitiveAnswer(Answer::Of(Sort::Array)),
        Code::IsOpen(item) => is_open(layout, out, *item, at),
        Code::Choose(sort, test, yes, no) => choice(layout, keeps, out, *sort, test, yes, no, at),
        Code::Seq(first, second) => sequence(layout, keeps, out, only, first, second, at),
        Code::Let(value, rest) => keeping(layout, keeps, out, only, value, rest, at),
        Code::Bound(moves, after) => bound(layout, keeps, out, only, *moves, *after, at),
    }
}

/// Adds the code of operands, one after the other, and the forms of those that are code.
#[cycle(expressions)]
fn all_operands<'a>(
    layout: &FunctionLayout<'_>,
    keeps: &'a Keeps<'a>,
    out: &mut Emitted,
    forms: &mut Vec<Form>,
    operands: &[Operand],
    at: At,
)
    requires { AllFitAt layout.now (views operands.now) at }
    ensures forms { Unrefused out.new (map view_form forms.new.items
        ≡ map view_form forms.old.items
        ++ forms_in (keeping_in keeps.now).forms (views operands.now)) }
    ensures few { length forms.new.items
        ≤ length forms.old.items + count_of (views operands.now) }
    ensures emits { Emits out.old out.new
        (all_emitted_at layout.now (keeping_in keeps.now) (views operands.now) at) }
{
    let Some((operand, rest)) = operands.split_first() else {
        return;
    };
    match operand {
        Operand::Code(code) => {
            let form = evaluated(layout, keeps, out, false, code, at);
            noted(out, forms, form);
            all_operands(layout, keeps, out, forms, rest, next(at));
        }
        Operand::Constant(_) => all_operands(layout, keeps, out, forms, rest, at),
        Operand::Fresh => {
            array_made(layout.bases, out, at.arrays);
            all_operands(layout, keeps, out, forms, rest, after_array(at));
        }
    }
}

/// Adds an operation.
#[cycle(expressions)]
fn operation<'a>(
    layout: &FunctionLayout<'_>,
    keeps: &'a Keeps<'a>,
    out: &mut Emitted,
    what: Operation,
    operands: &[Operand],
    at: At,
) -> Form
    requires { FitsAt layout.now (plain.Do what (views operands.now)) at }
    ensures form { view_form result ≡ form_of (keeping_in keeps.now).forms
        (plain.Do what (views operands.now)) }
    ensures emits { (only : Bool) → Emits out.old out.new
        (emitted_at layout.now only (keeping_in keeps.now)
        (plain.Do what (views operands.now)) at) }
{
    if let Some(number) = field_in(what, operands) {
        return field_read(layout, out, number, at.temporary);
    }
    if let Some(addition) = addition_in(what, operands) {
        sum(layout, keeps, out, addition, what, operands, at);
        return operation_form(what);
    }
    anyway(layout, keeps, out, what, operands, at);
    operation_form(what)
}

/// Adds a sum of two sources: a few instructions where their numbers are near 0, and the code of
/// all cases elsewhere.
#[cycle(expressions)]
fn sum<'a>(
    layout: &FunctionLayout<'_>,
    keeps: &'a Keeps<'a>,
    out: &mut Emitted,
    addition: Addition,
    what: Operation,
    operands: &[Operand],
    at: At,
)
    requires sources { AdditionFits (view_addition addition) }
    requires fit { AllFit (view_layout layout.now) (views operands.now) at.temporary at.arrays
        (suc at.exit) }
    ensures { Emits out.old out.new
        (sum_with (view_layout layout.now) (keeping_in keeps.now).forms
        (keeping_in keeps.now).temporaries (view_addition addition) what
        (views operands.now) at.temporary at.arrays at.exit) }
{
    addition_unsure(layout, out, addition);
    let mut code = Emitted::new(layout.alloc);
    anyway(layout, keeps, &mut code, what, operands, inner_at(at));
    emit_if(
        layout.alloc,
        out,
        code,
        added(layout, addition, at.temporary),
    );
}

/// Adds an operation as it is in all cases: its operands, and what is done with them.
#[cycle(expressions)]
fn anyway<'a>(
    layout: &FunctionLayout<'_>,
    keeps: &'a Keeps<'a>,
    out: &mut Emitted,
    what: Operation,
    operands: &[Operand],
    at: At,
)
    requires { AllFitAt layout.now (views operands.now) at }
    ensures { Emits out.old out.new
        (anyway_with (view_layout layout.now) (keeping_in keeps.now).forms
        (keeping_in keeps.now).temporaries what
        (views operands.now) at.temporary at.arrays at.exit) }
{
    let mut forms = Vec::new(layout.alloc);
    all_operands(layout, keeps, out, &mut forms, operands, at);
    operated(layout, out, &forms, what, operands, at.temporary, at.exit);
}

/// Adds the key of subscripts. All are evaluated before any are joined.
#[cycle(expressions)]
fn key<'a>(
    layout: &FunctionLayout<'_>,
    keeps: &'a Keeps<'a>,
    out: &mut Emitted,
    first: &Code,
    others: &[Code],
    last: &Code,
    at: At,
) -> Form
    requires { FitsAt layout.now
        (joined (view first.now ∷ map view others.now) (view last.now)) at }
    ensures form { view_form result ≡ form_of (keeping_in keeps.now).forms
        (joined (view first.now ∷ map view others.now) (view last.now)) }
    ensures emits { (only : Bool)
        → Emits out.old out.new (emitted_at layout.now only (keeping_in keeps.now)
        (joined (view first.now ∷ map view others.now) (view last.now)) at) }
{
    let form = evaluated(layout, keeps, out, false, first, at);
    let mut forms = Vec::new(layout.alloc);
    noted(out, &mut forms, form);
    let mut place = next(at);
    let mut left = others;
    while let Some((other, rest)) = left.split_first() {
        let form = evaluated(layout, keeps, out, false, other, place);
        noted(out, &mut forms, form);
        place = next(place);
        left = rest;
    }
    let form = evaluated(layout, keeps, out, false, last, place);
    all_joined(layout, out, &forms, form, at.temporary, at.exit);
    operation_form(Operation::Host(Primitive::Join))
}

/// Adds what takes a list of values.
#[cycle(expressions)]
fn listing<'a>(
    layout: &FunctionLayout<'_>,
    keeps: &'a Keeps<'a>,
    out: &mut Emitted,
    what: Listed,
    operands: &[Operand],
    at: At,
) -> Form
    requires { FitsAt layout.now (plain.Over what (views operands.now)) at }
    ensures form { view_form result ≡ form_of (keeping_in keeps.now).forms
        (plain.Over what (views operands.now)) }
    ensures emits { (only : Bool) → Emits out.old out.new
        (emitted_at layout.now only (keeping_in keeps.now)
        (plain.Over what (views operands.now)) at) }
{
    let mut forms = Vec::new(layout.alloc);
    all_operands(layout, keeps, out, &mut forms, operands, at);
    listed(layout, out, &forms, what, at.temporary, at.exit);
    Form::PrimitiveAnswer(what.answer())
}

/// Adds a call of a function.
#[cycle(expressions)]
fn call<'a>(
    layout: &FunctionLayout<'_>,
    keeps: &'a Keeps<'a>,
    out: &mut Emitted,
    function: usize,
    operands: &[Operand],
    at: At,
) -> Form
    requires { FitsAt layout.now (plain.Call function (views operands.now)) at }
    ensures form { view_form result ≡ form_of (keeping_in keeps.now).forms
        (plain.Call function (views operands.now)) }
    ensures emits { (only : Bool) → Emits out.old out.new
        (emitted_at layout.now only (keeping_in keeps.now)
        (plain.Call function (views operands.now)) at) }
{
    let mut forms = Vec::new(layout.alloc);
    all_operands(layout, keeps, out, &mut forms, operands, at);
    called(layout, out, &forms, function, operands, at);
    Form::NumberOrText
}

/// Adds a comparison.
#[cycle(expressions)]
fn comparison<'a>(
    layout: &FunctionLayout<'_>,
    keeps: &'a Keeps<'a>,
    out: &mut Emitted,
    op: CompareOp,
    left: &Code,
    right: &Code,
    at: At,
) -> Form
    requires { FitsAt layout.now (plain.Compare op (view left.now) (view right.now)) at }
    ensures form { view_form result ≡ form_of (keeping_in keeps.now).forms
        (plain.Compare op (view left.now) (view right.now)) }
    ensures emits { (only : Bool) → Emits out.old out.new (emitted_at layout.now only (keeping_in keeps.now)
        (plain.Compare op (view left.now) (view right.now)) at) }
{
    let first = evaluated(layout, keeps, out, false, left, at);
    let temporary = at.temporary;
    if let Some(operand) = immediate_in(is_value(first), right) {
        return immediately_compared(layout, out, op, first, operand, temporary, at.exit);
    }
    let second = evaluated(layout, keeps, out, false, right, next(at));
    compared(
        layout.alloc,
        layout.bases,
        out,
        op,
        first,
        second,
        temporary,
        at.exit,
    );
    Form::PrimitiveAnswer(Answer::Truth)
}

/// Adds code that stores a text, which is kept, and lets go of what is left of it; in a list of its own, from within one label more.
#[cycle(expressions)]
fn stored<'a>(
    layout: &FunctionLayout<'_>,
    keeps: &'a Keeps<'a>,
    primitive: Primitive,
    store: &Code,
    at: At,
) -> Emitted
    requires fit { Fits (view_layout layout.now) (view store.now) (suc (suc at.temporary)) at.arrays
        (suc at.exit) }
    requires within { Within at.temporary at.arrays at.exit }
    ensures { Holds result (stored_with (view_layout layout.now) (keeping_in keeps.now).forms
        (keeping_in keeps.now).temporaries primitive
        (view store.now) at.temporary at.arrays at.exit) }
{
    let mut code = Emitted::new(layout.alloc);
    text_kept(layout.bases, &mut code, primitive, at.temporary);
    let entry = Entry {
        form: Form::PrimitiveAnswer(Answer::Of(Sort::Value)),
        temporary: at.temporary + 1,
    };
    let more = Keeps::Last(entry, keeps);
    let form = evaluated(layout, &more, &mut code, true, store, stored_at(at));
    text_let_go(layout, &mut code, store, form, at.temporary);
    code
}

/// Adds the reading of a record into a variable.
#[cycle(expressions)]
fn line_into<'a>(
    layout: &FunctionLayout<'_>,
    keeps: &'a Keeps<'a>,
    out: &mut Emitted,
    store: &Code,
    at: At,
) -> Form
    requires { FitsAt layout.now (plain.AskLine (view store.now)) at }
    ensures form { view_form result ≡ form_of (keeping_in keeps.now).forms
        (plain.AskLine (view store.now)) }
    ensures emits { (only : Bool) → Emits out.old out.new
        (emitted_at layout.now only (keeping_in keeps.now) (plain.AskLine (view store.now)) at) }
{
    asked(layout, out, Primitive::GetlineVar, at.temporary, at.exit);
    let store = stored(layout, keeps, Primitive::Line, store, at);
    line_stored(layout, out, store, at.temporary);
    Form::PrimitiveAnswer(Answer::Of(Sort::Number))
}

/// Adds the reading of a record of a file.
#[cycle(expressions)]
fn file_line<'a>(
    layout: &FunctionLayout<'_>,
    keeps: &'a Keeps<'a>,
    out: &mut Emitted,
    file: &Code,
    store: &Code,
    at: At,
) -> Form
    requires { FitsAt layout.now (plain.FileLine (view file.now) (view store.now)) at }
    ensures form { view_form result ≡ form_of (keeping_in keeps.now).forms
        (plain.FileLine (view file.now) (view store.now)) }
    ensures emits { (only : Bool) → Emits out.old out.new (emitted_at layout.now only (keeping_in keeps.now)
        (plain.FileLine (view file.now) (view store.now)) at) }
{
    let form = evaluated(layout, keeps, out, false, file, at);
    file_asked(layout, out, form, at.temporary, at.exit);
    let store = stored(layout, keeps, Primitive::Line, store, at);
    line_stored(layout, out, store, at.temporary);
    Form::PrimitiveAnswer(Answer::Of(Sort::Number))
}

/// Adds a replacement.
#[cycle(expressions)]
fn replacement<'a>(
    layout: &FunctionLayout<'_>,
    keeps: &'a Keeps<'a>,
    out: &mut Emitted,
    all: bool,
    operands: &[Operand],
    store: &Code,
    at: At,
) -> Form
    requires { FitsAt layout.now (plain.Replace all (views operands.now) (view store.now)) at }
    ensures form { view_form result ≡ form_of (keeping_in keeps.now).forms
        (plain.Replace all (views operands.now) (view store.now)) }
    ensures emits { (only : Bool) → Emits out.old out.new (emitted_at layout.now only (keeping_in keeps.now)
        (plain.Replace all (views operands.now) (view store.now)) at) }
{
    let mut forms = Vec::new(layout.alloc);
    all_operands(layout, keeps, out, &mut forms, operands, at);
    replaced(layout, out, &forms, all, operands, at.temporary, at.exit);
    let store = stored(layout, keeps, Primitive::SubResult, store, at);
    emit_if(layout.alloc, out, Emitted::new(layout.alloc), store);
    Form::PrimitiveAnswer(Answer::Of(Sort::Number))
}

/// Adds an assignment.
#[cycle(expressions)]
fn assignment<'a>(
    layout: &FunctionLayout<'_>,
    keeps: &'a Keeps<'a>,
    out: &mut Emitted,
    only: bool,
    slot: Slot,
    value: &Code,
    at: At,
) -> Form
    requires { FitsAt layout.now (plain.Set (view_slot slot) (view value.now)) at }
    ensures form { view_form result ≡ form_of (keeping_in keeps.now).forms
        (plain.Set (view_slot slot) (view value.now)) }
    ensures emits { Emits out.old out.new
        (emitted_at layout.now only (keeping_in keeps.now)
        (plain.Set (view_slot slot) (view value.now)) at) }
{
    let form = evaluated(layout, keeps, out, false, value, at);
    slot_set(layout, out, only, slot, form, at.temporary);
    form
}

/// The code of one of two ways, as the sort that is wanted; in a list of its own, from within one label more.
#[cycle(expressions)]
fn branch<'a>(
    layout: &FunctionLayout<'_>,
    keeps: &'a Keeps<'a>,
    sort: Sort,
    code: &Code,
    at: At,
) -> Emitted
    requires fit { Fits
        (view_layout layout.now) (view code.now) at.temporary at.arrays (suc at.exit) }
    requires within { Within at.temporary at.arrays at.exit }
    ensures { Holds result (branch_with (view_layout layout.now)
        (keeping_in keeps.now).forms (keeping_in keeps.now).temporaries sort (view code.now)
        at.temporary at.arrays at.exit) }
{
    let mut list = Emitted::new(layout.alloc);
    let inner = inner_at(at);
    let form = evaluated(layout, keeps, &mut list, false, code, inner);
    converted(
        layout.alloc,
        layout.bases,
        &mut list,
        form,
        sort,
        at.temporary,
        inner.exit,
    );
    list
}

/// Adds a choice of two.
#[cycle(expressions)]
fn choice<'a>(
    layout: &FunctionLayout<'_>,
    keeps: &'a Keeps<'a>,
    out: &mut Emitted,
    sort: Sort,
    test: &Code,
    yes: &Code,
    no: &Code,
    at: At,
) -> Form
    requires { FitsAt layout.now
        (plain.Choose sort (view test.now) (view yes.now) (view no.now)) at }
    ensures form { view_form result ≡ form_of (keeping_in keeps.now).forms
        (plain.Choose sort (view test.now) (view yes.now) (view no.now)) }
    ensures emits { (only : Bool)
        → Emits out.old out.new (emitted_at layout.now only (keeping_in keeps.now)
        (plain.Choose sort (view test.now) (view yes.now) (view no.now)) at) }
{
    let form = evaluated(layout, keeps, out, false, test, at);
    truth(layout.alloc, layout.bases, out, form, at.temporary);
    let yes = branch(layout, keeps, sort, yes, at);
    let no = branch(layout, keeps, sort, no, at);
    emit_if(layout.alloc, out, yes, no);
    Form::PrimitiveAnswer(Answer::Of(sort))
}

/// Adds one expression after another, whose answer is dropped.
#[cycle(expressions)]
fn sequence<'a>(
    layout: &FunctionLayout<'_>,
    keeps: &'a Keeps<'a>,
    out: &mut Emitted,
    only: bool,
    first: &Code,
    second: &Code,
    at: At,
) -> Form
    requires { FitsAt layout.now (plain.Seq (view first.now) (view second.now)) at }
    ensures form { view_form result ≡ form_of (keeping_in keeps.now).forms
        (plain.Seq (view first.now) (view second.now)) }
    ensures emits { Emits out.old out.new
        (emitted_at layout.now only (keeping_in keeps.now)
        (plain.Seq (view first.now) (view second.now)) at) }
{
    let form = evaluated(layout, keeps, out, true, first, at);
    left_over(layout, out, first, form, at.temporary);
    let answer = evaluated(layout, keeps, out, only, second, at);
    sequence_closed(layout, out, only, second, answer, at.temporary);
    answer
}

/// Adds an expression whose answer is kept while another one is evaluated.
#[cycle(expressions)]
fn keeping<'a>(
    layout: &FunctionLayout<'_>,
    keeps: &'a Keeps<'a>,
    out: &mut Emitted,
    only: bool,
    value: &Code,
    rest: &Code,
    at: At,
) -> Form
    requires { FitsAt layout.now (plain.Let (view value.now) (view rest.now)) at }
    ensures form { view_form result ≡ form_of (keeping_in keeps.now).forms
        (plain.Let (view value.now) (view rest.now)) }
    ensures emits { Emits out.old out.new
        (emitted_at layout.now only (keeping_in keeps.now)
        (plain.Let (view value.now) (view rest.now)) at) }
{
    let held = evaluated(layout, keeps, out, false, value, at);
    let entry = Entry {
        form: held,
        temporary: at.temporary,
    };
    let more = Keeps::Last(entry, keeps);
    let form = evaluated(layout, &more, out, only, rest, next(at));
    keeping_closed(layout, out, only, rest, held, form, at.temporary);
    form
}
