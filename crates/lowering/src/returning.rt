//! `return`: what a function answers.
ghost use Rattle.std.specs.Option.{option_map};
ghost use Rattle.std.specs.Prelude.{[], ◌≡◌, ◌≤◌, false, suc};
ghost use Rattle.sem_primitives.specs.declared.sorts.Sort.TheVariants.{Value};
ghost use Rattle.mid_program.specs.Mid as plain;
ghost use Rattle.mid_program.specs.Mid.{NumberOrText, form_of};
ghost use Rattle.mid_program.specs.ViewCode.{view};
ghost use Rattle.lower_model.specs.Emission.{emitted};
ghost use Rattle.lower_model.specs.Statements.{answer_given, constant_given, returned, text_given, word_given};
ghost use Rattle.lower_pieces.specs.Bounds.{most_labels};
ghost use Rattle.lower_pieces.specs.Emits.{Emits};
ghost use Rattle.lower_pieces.specs.Forms.{view_form};
ghost use Rattle.lower_expressions.specs.Fits.{Fits};
ghost use Rattle.lower_expressions.specs.View.{view_layout};
ghost use Rattle.lowering.specs.Parts.{either_returned, local_given, quickly_returned};
ghost use Rattle.lowering.specs.StepFits.{ReturnFits, TestFits, choice_in, parameter_in};

use crate::evaluating::{answered, tested};
use crate::testing::left_unless_pair;
use lower_expressions::FunctionLayout;
use lower_pieces::{
    Emitted, Form, LEAST, TEXT_BESIDE, TEXT_GLOBAL, block, emit, emit_all, emit_if, moved_out,
    number_is, when,
};
use lower_quick::pair_in;
use mid_program::{Code, Slot};
use sem_primitives::{Answer, Sort};
use wasm_types::Simple;

/// Gives a word as the answer.
pub(crate) fn constant_given(layout: &FunctionLayout<'_>, out: &mut Emitted, word: u64, out_of: u32)
    ensures { Emits out.old out.new (constant_given (view_layout layout.now) word out_of) }
{
    let all = [
        Simple::I64Const(word),
        Simple::LocalSet(layout.bases.answer()),
        Simple::Br(out_of),
    ];
    emit_all(out, &all);
}

/// Gives the number of a local as the answer.
fn local_given(layout: &FunctionLayout<'_>, out: &mut Emitted, local: u32, exit: u32)
    requires { exit ≤ most_labels }
    ensures { Emits out.old out.new (local_given (view_layout layout.now) local exit) }
{
    let all = [
        Simple::LocalGet(local),
        Simple::LocalSet(layout.bases.answer()),
        Simple::Br(exit + 1),
    ];
    emit_all(out, &all);
}

/// Gives the number of the first temporary as the answer.
fn word_given(layout: &FunctionLayout<'_>, out: &mut Emitted, exit: u32)
    requires { exit ≤ most_labels }
    ensures { Emits out.old out.new (word_given (view_layout layout.now) exit) }
{
    local_given(layout, out, layout.bases.number(0), exit);
}

/// Moves the text of the first temporary to where it waits.
fn text_given(layout: &FunctionLayout<'_>, out: &mut Emitted)
    ensures { Emits out.old out.new (text_given (view_layout layout.now)) }
{
    moved_out(out, layout.bases.handle(0));
    emit(out, Simple::GlobalSet(TEXT_GLOBAL));
}

/// Gives what may be a number, nothing or a text.
fn bare_given(layout: &FunctionLayout<'_>, out: &mut Emitted, exit: u32)
    requires { exit ≤ most_labels }
    ensures { Emits out.old out.new (answer_given (view_layout layout.now) NumberOrText exit) }
{
    number_is(out, layout.bases.number(0), TEXT_BESIDE);
    let mut text = Emitted::new(layout.alloc);
    text_given(layout, &mut text);
    when(layout.alloc, out, text);
    word_given(layout, out, exit);
}

/// Gives what the first temporary has as the answer.
fn answer_given(layout: &FunctionLayout<'_>, out: &mut Emitted, form: Form, exit: u32)
    requires { exit ≤ most_labels }
    ensures { Emits out.old out.new
        (answer_given (view_layout layout.now) (view_form form) exit) }
{
    match form {
        Form::PrimitiveAnswer(Answer::Of(Sort::Value)) => {
            text_given(layout, out);
            constant_given(layout, out, TEXT_BESIDE, exit + 1);
        }
        Form::NumberOrText => bare_given(layout, out, exit),
        Form::OptionalNumber | Form::PrimitiveAnswer(Answer::Of(Sort::Number) | Answer::Truth) => {
            word_given(layout, out, exit);
        }
        Form::PrimitiveAnswer(_) => constant_given(layout, out, LEAST, exit + 1),
    }
}

/// The test and both ways of a choice of values.
fn choice_in(code: &Code) -> Option<(&Code, &Code, &Code)>
    ensures { option_map (λ all. (view all.0.now, view all.1.now, view all.2.now)) result
        ≡ choice_in (view code.now) }
{
    match code {
        Code::Choose(sort, test, yes, no) => match *sort {
            Sort::Value => Some((test, yes, no)),
            Sort::Number | Sort::Array | Sort::Iterator => None,
        },
        _ => None,
    }
}

/// The place of an unboxed parameter, if that is what code reads and no global lends its value
/// there.
fn parameter_in(layout: &FunctionLayout<'_>, code: &Code) -> Option<usize>
    ensures { result ≡ parameter_in (view_layout layout.now) (view code.now) }
{
    match code {
        Code::Get(Slot::Parameter(true, place)) => match layout.script.lender(*place) {
            Some(_) => None,
            None => Some(*place),
        },
        _ => None,
    }
}

/// Returns one of two: from within a block that a quick test leaves, or after it.
#[cycle(returned)]
fn quickly_returned(
    layout: &FunctionLayout<'_>,
    out: &mut Emitted,
    test: &Code,
    yes: &Code,
    no: &Code,
    exit: u32,
)
    requires labels { suc (suc exit) ≤ most_labels }
    requires test { TestFits (view_layout layout.now) (view test.now) (suc exit) }
    requires yes { ReturnFits (view_layout layout.now) (view yes.now) (suc exit) }
    requires no { ReturnFits (view_layout layout.now) (view no.now) exit }
    ensures { Emits out.old out.new (quickly_returned
        (view_layout layout.now) (view test.now) (view yes.now) (view no.now) exit) }
{
    let mut so = Emitted::new(layout.alloc);
    left_unless_pair(layout, &mut so, test, exit + 1, 0);
    returned(layout, &mut so, yes, exit + 1);
    block(layout.alloc, out, so);
    returned(layout, out, no, exit);
}

/// Returns one of two, by an `if`.
#[cycle(returned)]
fn either_returned(
    layout: &FunctionLayout<'_>,
    out: &mut Emitted,
    test: &Code,
    yes: &Code,
    no: &Code,
    exit: u32,
)
    requires labels { suc exit ≤ most_labels }
    requires test { Fits (view_layout layout.now) (view test.now) 0 0 exit }
    requires yes { ReturnFits (view_layout layout.now) (view yes.now) (suc exit) }
    requires no { ReturnFits (view_layout layout.now) (view no.now) (suc exit) }
    ensures { Emits out.old out.new (either_returned
        (view_layout layout.now) (view test.now) (view yes.now) (view no.now) exit) }
{
    tested(layout, out, test, exit);
    let mut so = Emitted::new(layout.alloc);
    returned(layout, &mut so, yes, exit + 1);
    let mut otherwise = Emitted::new(layout.alloc);
    returned(layout, &mut otherwise, no, exit + 1);
    emit_if(layout.alloc, out, so, otherwise);
}

/// Returns one of two.
#[cycle(returned)]
fn chosen_returned(
    layout: &FunctionLayout<'_>,
    out: &mut Emitted,
    test: &Code,
    yes: &Code,
    no: &Code,
    exit: u32,
)
    requires { ReturnFits (view_layout layout.now)
        (plain.Choose Value (view test.now) (view yes.now) (view no.now)) exit }
    ensures { Emits out.old out.new (returned (view_layout layout.now)
        (plain.Choose Value (view test.now) (view yes.now) (view no.now)) exit) }
{
    if pair_in(test).is_some() {
        quickly_returned(layout, out, test, yes, no, exit);
    } else {
        either_returned(layout, out, test, yes, no, exit);
    }
}

/// Returns what comes to the first temporary.
fn plainly_returned(layout: &FunctionLayout<'_>, out: &mut Emitted, code: &Code, exit: u32)
    requires fit { Fits (view_layout layout.now) (view code.now) 0 0 exit }
    requires labels { exit ≤ most_labels }
    ensures { Emits out.old out.new
        (λ after. emitted (view_layout layout.now) false [] [] (view code.now) 0 0 exit
        (answer_given (view_layout layout.now) (form_of [] (view code.now)) exit after)) }
{
    let form = answered(layout, out, code, exit);
    answer_given(layout, out, form, exit);
}

/// Adds `return`: what is chosen is returned where it is chosen, and the number of an unboxed
/// parameter from where it is, unless a global lends its value there.
#[cycle(returned)]
pub(crate) fn returned(layout: &FunctionLayout<'_>, out: &mut Emitted, code: &Code, exit: u32)
    requires { ReturnFits (view_layout layout.now) (view code.now) exit }
    ensures { Emits out.old out.new
        (returned (view_layout layout.now) (view code.now) exit) }
{
    match choice_in(code) {
        Some((test, yes, no)) => chosen_returned(layout, out, test, yes, no, exit),
        None => match parameter_in(layout, code) {
            Some(place) => local_given(layout, out, place as u32, exit),
            None => plainly_returned(layout, out, code, exit),
        },
    }
}
