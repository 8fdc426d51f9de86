//! What expressions store.

ghost use Rattle.std.specs.Prelude.{◌≡◌, ◌∷◌, map, option_map};
ghost use Rattle.mid_program.specs.Mid.{End, form_of, source_of};
ghost use Rattle.mid_program.specs.ViewCode.{before, view, view_slot, views};
ghost use Rattle.mid_program.specs.Stores.{stores, stores_given, stores_in};
ghost use Rattle.value_kinds.specs.View.{view_form, view_kept, view_walk};
ghost use Rattle.value_kinds.specs.Walks.{after, stores_each};

use crate::form::{Form, answer_by};
use crate::kept::{Kept, form_at};
use crate::walk::Walk;
use mid_program::{Code, Operand, Slot};
use sem_primitives::{Answer, Primitive, Sort};

/// What a text that was read is, for the code that stores it.
const TEXT: Form = Form::PrimitiveAnswer(Answer::Of(Sort::Value));

/// What a number is.
const NUMBER: Form = Form::PrimitiveAnswer(Answer::Of(Sort::Number));

/// The name whose value code gives, if it does nothing else.
fn source_of(code: &Code) -> Option<Slot>
    ensures { option_map view_slot result ≡ source_of (view code.now) }
{
    match code {
        Code::Get(slot) => Some(*slot),
        Code::Do(_, _)
        | Code::Joined(_, _, _)
        | Code::Over(_, _)
        | Code::Compare(_, _, _)
        | Code::Call(_, _)
        | Code::Ask
        | Code::AskLine(_)
        | Code::FileLine(_, _)
        | Code::Replace(_, _, _)
        | Code::Number(_)
        | Code::Text(_)
        | Code::Unset
        | Code::Set(_, _)
        | Code::Array(_)
        | Code::IsOpen(_)
        | Code::Choose(_, _, _, _)
        | Code::Seq(_, _)
        | Code::Let(_, _)
        | Code::Bound(_, _) => None,
    }
}

/// Marks what code stores while this is kept, and answers the code's form.
#[cycle(marks)]
pub(crate) fn mark_code<'a>(walk: &mut Walk, kept: &'a Kept<'a>, code: &Code) -> Form
    ensures form { view_form result ≡ form_of (view_kept kept.now) (view code.now) }
    ensures walk { view_walk walk.new
        ≡ after (view_walk walk.old) (stores (view_kept kept.now) (view code.now)) }
{
    match code {
        Code::Do(operation, operands) => {
            mark_operands(walk, kept, operands);
            Form::PrimitiveAnswer(answer_by(*operation))
        }
        Code::Over(listed, operands) => {
            mark_operands(walk, kept, operands);
            Form::PrimitiveAnswer(listed.answer())
        }
        Code::Compare(_, left, right) => {
            mark_code(walk, kept, left);
            mark_code(walk, kept, right);
            Form::PrimitiveAnswer(Answer::Truth)
        }
        Code::Call(function, operands) => {
            mark_arguments(walk, kept, *function, operands);
            Form::NumberOrText
        }
        Code::Ask => {
            walk.ask();
            NUMBER
        }
        Code::AskLine(store) => {
            walk.ask();
            mark_code(walk, &Kept::Last(TEXT, kept), store);
            NUMBER
        }
        Code::FileLine(file, store) => {
            mark_code(walk, kept, file);
            mark_code(walk, &Kept::Last(TEXT, kept), store);
            NUMBER
        }
        Code::Replace(_, operands, store) => {
            mark_operands(walk, kept, operands);
            mark_code(walk, &Kept::Last(TEXT, kept), store);
            NUMBER
        }
        Code::Set(slot, value) => {
            let form = mark_code(walk, kept, value);
            walk.store(*slot, source_of(value), form);
            form
        }
        Code::Choose(sort, test, yes, no) => {
            mark_code(walk, kept, test);
            mark_code(walk, kept, yes);
            mark_code(walk, kept, no);
            Form::PrimitiveAnswer(Answer::Of(*sort))
        }
        Code::Seq(first, second) => {
            mark_code(walk, kept, first);
            mark_code(walk, kept, second)
        }
        Code::Let(own, body) => {
            let form = mark_code(walk, kept, own);
            mark_code(walk, &Kept::Last(form, kept), body)
        }
        Code::Joined(first, others, last) => {
            mark_code(walk, kept, first);
            mark_codes(walk, kept, others);
            mark_code(walk, kept, last);
            Form::PrimitiveAnswer(Primitive::Join.answer())
        }
        Code::Get(slot) => Form::of_slot(*slot),
        Code::Bound(_, place) => form_at(kept, *place),
        Code::Number(_) => NUMBER,
        Code::Text(_) => TEXT,
        Code::Unset => Form::OptionalNumber,
        Code::Array(_) => Form::PrimitiveAnswer(Answer::Of(Sort::Array)),
        Code::IsOpen(_) => Form::PrimitiveAnswer(Answer::Truth),
    }
}

/// Marks what codes store, one after the other.
#[cycle(marks)]
fn mark_codes<'a>(walk: &mut Walk, kept: &'a Kept<'a>, codes: &[Code])
    ensures { view_walk walk.new
        ≡ after (view_walk walk.old) (stores_each (view_kept kept.now) (map view codes.now)) }
{
    for code in codes {
        mark_code(walk, kept, code);
    }
}

#[cycle(marks)]
fn mark_operand<'a>(walk: &mut Walk, kept: &'a Kept<'a>, operand: &Operand)
    ensures { view_walk walk.new
        ≡ after (view_walk walk.old) (stores_in (view_kept kept.now) (before operand.now End)) }
{
    match operand {
        Operand::Code(code) => {
            mark_code(walk, kept, code);
        }
        Operand::Constant(_) | Operand::Fresh => {}
    }
}

/// Marks what operands store.
#[cycle(marks)]
fn mark_operands<'a>(walk: &mut Walk, kept: &'a Kept<'a>, operands: &[Operand])
    ensures { view_walk walk.new
        ≡ after (view_walk walk.old) (stores_in (view_kept kept.now) (views operands.now)) }
{
    for operand in operands {
        mark_operand(walk, kept, operand);
    }
}

#[cycle(marks)]
fn mark_argument<'a>(
    walk: &mut Walk,
    kept: &'a Kept<'a>,
    function: usize,
    place: usize,
    operand: &Operand,
)
    ensures { view_walk walk.new ≡ after (view_walk walk.old) (stores_given function place
        (view_kept kept.now) (before operand.now End)) }
{
    match operand {
        Operand::Code(code) => {
            let form = mark_code(walk, kept, code);
            walk.give(function, place, source_of(code), form);
        }
        Operand::Constant(_) | Operand::Fresh => {}
    }
}

/// Marks what the arguments of a call store, and the arguments themselves.
#[cycle(marks)]
fn mark_arguments<'a>(walk: &mut Walk, kept: &'a Kept<'a>, function: usize, operands: &[Operand])
    ensures { view_walk walk.new ≡ after (view_walk walk.old) (stores_given function 0
        (view_kept kept.now) (views operands.now)) }
{
    for place in 0..operands.len() {
        mark_argument(walk, kept, function, place, &operands[place]);
    }
}
