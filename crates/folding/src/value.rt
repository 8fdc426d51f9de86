//! The number of an operation on constants.

ghost use Rattle.std.specs.Prelude.{◌≡◌, ◌≤◌, ◌^◌, unsigned_abs};
ghost use Rattle.awk_text.specs.NumberText.{InRange};
ghost use Rattle.sem_primitives.specs.Numbers.{Number, number_of};
ghost use Rattle.folding.specs.Folding.{constant, of_one, of_two, value_of};
ghost use Rattle.folding.specs.View.{leading_constant, numeral};
ghost use Rattle.mid_program.specs.Mid.{End};
ghost use Rattle.mid_program.specs.MidMeaning.{arithmetic_of};
ghost use Rattle.mid_program.specs.ViewCode.{before, view, views};

use awk_text::MAX_NUMBER;
use awk_values::{Fault, add, div, int_div, mul, pow, rem, sub};
use mid_program::{Arithmetic, Code, Operand, Operation};
use sem_primitives::{MAX_FIELDS, Primitive};

/// The greatest number of a field.
const LAST_FIELD: i64 = MAX_FIELDS as i64;

/// The number, where it is in range.
fn in_range(number: i64) -> Option<i64>
    ensures { result ≡ numeral (number_of number) }
{
    if number.unsigned_abs() <= MAX_NUMBER {
        Some(number)
    } else {
        None
    }
}

/// The number of a constant.
fn constant(code: &Code) -> Option<i64>
    ensures { result ≡ numeral (constant (view code.now)) }
{
    match code {
        Code::Number(number) => in_range(*number),
        Code::Do(_, _)
        | Code::Joined(_, _, _)
        | Code::Over(_, _)
        | Code::Compare(_, _, _)
        | Code::Call(_, _)
        | Code::Ask
        | Code::AskLine(_)
        | Code::FileLine(_, _)
        | Code::Replace(_, _, _)
        | Code::Text(_)
        | Code::Unset
        | Code::Get(_)
        | Code::Set(_, _)
        | Code::Array(_)
        | Code::IsOpen(_)
        | Code::Choose(_, _, _, _)
        | Code::Seq(_, _)
        | Code::Let(_, _)
        | Code::Bound(_, _) => None,
    }
}

/// What an operator answers.
fn outcome(arithmetic: Arithmetic, left: i64, right: i64) -> Result<i64, Fault>
    requires left { InRange left }
    requires right { InRange right }
    ensures { result ≡ arithmetic_of arithmetic left right }
{
    match arithmetic {
        Arithmetic::Plus => add(left, right),
        Arithmetic::Minus => sub(left, right),
        Arithmetic::Times => mul(left, right),
        Arithmetic::Over => div(left, right),
        Arithmetic::Modulo => rem(left, right),
        Arithmetic::Truncated => int_div(left, right),
    }
}

/// The number of an operation on one number.
fn of_one(operation: Operation, operand: i64) -> Option<i64>
    ensures { (n : Number) → n.number ≡ operand → result ≡ numeral (of_one operation (Some n)) }
{
    match operation {
        Operation::AsNumber => Some(operand),
        Operation::FieldNumber => {
            if (0..=LAST_FIELD).contains(&operand) {
                Some(operand)
            } else {
                None
            }
        }
        Operation::Host(_) | Operation::Inline(_) => None,
    }
}

/// The number of an operation on two numbers.
fn of_two(operation: Operation, left: i64, right: i64) -> Option<i64>
    requires left { InRange left }
    requires right { InRange right }
    ensures { (m n : Number) → m.number ≡ left → n.number ≡ right → result
        ≡ numeral (of_two operation (Some m) (Some n)) }
{
    let outcome = match operation {
        Operation::Inline(arithmetic) => outcome(arithmetic, left, right),
        Operation::Host(Primitive::Pow) => pow(left, right),
        Operation::Host(_) | Operation::AsNumber | Operation::FieldNumber => return None,
    };
    match outcome {
        Ok(number) => in_range(number),
        Err(_) => None,
    }
}

/// The number of an operand that is a constant.
fn constant_at(operand: &Operand) -> Option<i64>
    ensures { result ≡ numeral (leading_constant (before operand.now End)) }
{
    match operand {
        Operand::Code(code) => constant(code),
        Operand::Constant(_) | Operand::Fresh => None,
    }
}

/// The number of an operation on constants, unless it faults.
pub(crate) fn value_of(operation: Operation, operands: &[Operand]) -> Option<i64>
    ensures { result ≡ numeral (value_of operation (views operands.now)) }
{
    match operands {
        [operand] => of_one(operation, constant_at(operand)?),
        [left, right] => of_two(operation, constant_at(left)?, constant_at(right)?),
        _ => None,
    }
}
