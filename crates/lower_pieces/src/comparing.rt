//! Comparison: by the host where one is a value, or a text stands beside one; else of numbers, of which one that is not there yet is 0.
ghost use Rattle.std.specs.Prelude.{◌≡◌, suc, ◌≤◌};
ghost use Rattle.sem_primitives.specs.ConstantNumbers.{comparison_number};
ghost use Rattle.lower_model.specs.Arithmetic.{bare_compared, compared, is_value, may_be_text, numbers_compared, relation, texts_beside, values_compared, zeroed_if};
ghost use Rattle.lower_pieces.specs.Bounds.{most_labels, most_places};
ghost use Rattle.lower_pieces.specs.Emits.{Emits};
ghost use Rattle.lower_pieces.specs.Forms.{view_form};
ghost use Rattle.lower_pieces.specs.Fragments.{host_compared, emit_compare};

use crate::bases::Bases;
use crate::converting::to_value;
use crate::emission::{ask_row, emit, emit_all, emit_if};
use crate::emitted::Emitted;
use crate::faults::number_is;
use crate::form::Form;
use crate::handles::moved_out;
use crate::keeping::{TEXT_BESIDE, kept_code};
use crate::numbers::zeroed;
use awk_values::CompareOp;
use sem_primitives::{Answer, Primitive, Sort};
use std::alloc::Global;
use wasm_types::{CvtOp, IBinOp, IRelOp, Simple, ValType};

/// The comparison of words that an operator is, once both are numbers.
pub fn relation(op: CompareOp) -> IRelOp
    ensures { result ≡ relation op }
{
    match op {
        CompareOp::Less => IRelOp::LtS,
        CompareOp::LessOrEqual => IRelOp::LeS,
        CompareOp::Equal => IRelOp::Eq,
        CompareOp::NotEqual => IRelOp::Ne,
        CompareOp::Greater => IRelOp::GtS,
        CompareOp::GreaterOrEqual => IRelOp::GeS,
    }
}

/// The number of an operator, as modules give it.
pub fn comparison_number(op: CompareOp) -> u32
    ensures { result ≡ comparison_number op }
{
    match op {
        CompareOp::Less => 0,
        CompareOp::LessOrEqual => 1,
        CompareOp::Equal => 2,
        CompareOp::NotEqual => 3,
        CompareOp::Greater => 4,
        CompareOp::GreaterOrEqual => 5,
    }
}

/// Whether a form is a value that only the host compares.
pub fn is_value(form: Form) -> bool
    ensures { result ≡ is_value (view_form form) }
{
    match form {
        Form::PrimitiveAnswer(Answer::Of(Sort::Number) | Answer::Truth)
        | Form::NumberOrText
        | Form::OptionalNumber => { false }
        Form::PrimitiveAnswer(_) => true,
    }
}

/// Whether a text may stand beside a number.
fn may_be_text(form: Form) -> bool
    ensures { result ≡ may_be_text (view_form form) }
{
    match form {
        Form::NumberOrText => true,
        Form::OptionalNumber | Form::PrimitiveAnswer(_) => false,
    }
}

/// Asks the host for a comparison of two values.
fn host_compared(bases: &Bases, out: &mut Emitted, op: CompareOp, temporary: u32, exit: u32)
    requires { suc temporary ≤ most_places }
    ensures { Emits out.old out.new (host_compared bases.now op temporary exit) }
{
    emit(out, Simple::I32Const(comparison_number(op)));
    moved_out(out, bases.handle(temporary));
    moved_out(out, bases.handle(temporary + 1));
    ask_row(out, Primitive::Compare);
    kept_code(bases, out, true, temporary, exit);
}

/// Adds the host's comparison.
fn values_compared(
    alloc: Global,
    bases: &Bases,
    out: &mut Emitted,
    op: CompareOp,
    left: Form,
    right: Form,
    temporary: u32,
    exit: u32,
)
    requires { suc temporary ≤ most_places }
    ensures { Emits out.old out.new
        (values_compared bases.now op (view_form left) (view_form right) temporary exit) }
{
    to_value(alloc, bases, out, left, temporary);
    to_value(alloc, bases, out, right, temporary + 1);
    host_compared(bases, out, op, temporary, exit);
}

/// Makes 0 of a number that may not be there yet.
fn zeroed_if(alloc: Global, bases: &Bases, out: &mut Emitted, form: Form, temporary: u32)
    requires { temporary ≤ most_places }
    ensures { Emits out.old out.new (zeroed_if bases.now (view_form form) temporary) }
{
    match form {
        Form::NumberOrText | Form::OptionalNumber => zeroed(alloc, bases, out, temporary),
        Form::PrimitiveAnswer(_) => {}
    }
}

/// Adds a comparison of numbers.
fn numbers_compared(
    alloc: Global,
    bases: &Bases,
    out: &mut Emitted,
    op: CompareOp,
    left: Form,
    right: Form,
    temporary: u32,
)
    requires { suc temporary ≤ most_places }
    ensures { Emits out.old out.new
        (numbers_compared bases.now op (view_form left) (view_form right) temporary) }
{
    zeroed_if(alloc, bases, out, left, temporary);
    zeroed_if(alloc, bases, out, right, temporary + 1);
    let all = [
        Simple::LocalGet(bases.number(temporary)),
        Simple::LocalGet(bases.number(temporary + 1)),
        Simple::Compare(ValType::I64, relation(op)),
        Simple::Convert(CvtOp::I64ExtendI32U),
        Simple::LocalSet(bases.number(temporary)),
    ];
    emit_all(out, &all);
}

/// Adds the test whether a text stands beside one of the two.
fn texts_beside(bases: &Bases, out: &mut Emitted, left: Form, right: Form, temporary: u32)
    requires { suc temporary ≤ most_places }
    ensures { Emits out.old out.new
        (texts_beside bases.now (view_form left) (view_form right) temporary) }
{
    let first = bases.number(temporary);
    let second = bases.number(temporary + 1);
    match (left, right) {
        (Form::NumberOrText, Form::NumberOrText) => {
            number_is(out, first, TEXT_BESIDE);
            number_is(out, second, TEXT_BESIDE);
            emit(out, Simple::Binary(ValType::I32, IBinOp::Or));
        }
        (Form::NumberOrText, Form::OptionalNumber | Form::PrimitiveAnswer(_)) => number_is(
            out,
            first,
            TEXT_BESIDE,
        ),
        (Form::OptionalNumber | Form::PrimitiveAnswer(_), _) => number_is(out, second, TEXT_BESIDE),
    }
}

/// Adds both comparisons, and the test which of them is made.
fn emit_compare(
    alloc: Global,
    bases: &Bases,
    out: &mut Emitted,
    op: CompareOp,
    left: Form,
    right: Form,
    temporary: u32,
    exit: u32,
)
    requires places { suc temporary ≤ most_places }
    requires labels { exit ≤ most_labels }
    ensures { Emits out.old out.new
        (emit_compare bases.now op (view_form left) (view_form right) temporary exit) }
{
    texts_beside(bases, out, left, right, temporary);
    let mut values = Emitted::new(alloc);
    values_compared(
        alloc,
        bases,
        &mut values,
        op,
        left,
        right,
        temporary,
        exit + 1,
    );
    let mut numbers = Emitted::new(alloc);
    numbers_compared(alloc, bases, &mut numbers, op, left, right, temporary);
    emit_if(alloc, out, values, numbers);
}

/// Adds a comparison of two numbers, beside which texts may stand.
fn bare_compared(
    alloc: Global,
    bases: &Bases,
    out: &mut Emitted,
    op: CompareOp,
    left: Form,
    right: Form,
    temporary: u32,
    exit: u32,
)
    requires places { suc temporary ≤ most_places }
    requires labels { exit ≤ most_labels }
    ensures { Emits out.old out.new
        (bare_compared bases.now op (view_form left) (view_form right) temporary exit) }
{
    if may_be_text(left) || may_be_text(right) {
        emit_compare(alloc, bases, out, op, left, right, temporary, exit);
    } else {
        numbers_compared(alloc, bases, out, op, left, right, temporary);
    }
}

/// Adds a comparison of what stands in two temporaries.
pub fn compared(
    alloc: Global,
    bases: &Bases,
    out: &mut Emitted,
    op: CompareOp,
    left: Form,
    right: Form,
    temporary: u32,
    exit: u32,
)
    requires places { suc temporary ≤ most_places }
    requires labels { exit ≤ most_labels }
    ensures { Emits out.old out.new
        (compared bases.now op (view_form left) (view_form right) temporary exit) }
{
    if is_value(left) || is_value(right) {
        values_compared(alloc, bases, out, op, left, right, temporary, exit);
    } else {
        bare_compared(alloc, bases, out, op, left, right, temporary, exit);
    }
}
