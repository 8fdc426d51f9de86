//! The code of expressions, with its constant parts computed.

ghost use Rattle.std.specs.Prelude.{◌≡◌, map};
ghost use Rattle.folding.specs.Folding.{folded, reduced, same};
ghost use Rattle.mid_program.specs.Mid.{End, Number};
ghost use Rattle.mid_program.specs.ViewCode.{before, view, views};
ghost use Rattle.mid_program.specs.Rewriting.{codes_in};

use crate::value::value_of;
use mid_program::{Code, Operand};

/// Puts a number in the place of code.
fn set_number(code: &mut Code, number: i64)
    ensures { view code.new ≡ Number number }
{
    *code = Code::Number(number);
}

/// Computes the constant parts of code, those of its operands first.
#[cycle(folding)]
pub(crate) fn fold_code(code: &mut Code)
    ensures { view code.new ≡ folded (view code.old) }
{
    match code {
        Code::Do(operation, operands) => {
            fold_operands(operands);
            match value_of(*operation, operands) {
                Some(number) => set_number(code, number),
                None => {}
            }
        }
        Code::Joined(first, others, last) => {
            fold_code(first);
            fold_codes(others);
            fold_code(last);
        }
        Code::Over(_, operands) => fold_operands(operands),
        Code::Compare(_, left, right) => {
            fold_code(left);
            fold_code(right);
        }
        Code::Call(_, operands) => fold_operands(operands),
        Code::AskLine(store) => fold_code(store),
        Code::FileLine(file, store) => {
            fold_code(file);
            fold_code(store);
        }
        Code::Replace(_, operands, store) => {
            fold_operands(operands);
            fold_code(store);
        }
        Code::Set(_, value) => fold_code(value),
        Code::Choose(_, test, yes, no) => {
            fold_code(test);
            fold_code(yes);
            fold_code(no);
        }
        Code::Seq(first, second) => {
            fold_code(first);
            fold_code(second);
        }
        Code::Let(kept, body) => {
            fold_code(kept);
            fold_code(body);
        }
        Code::Ask
        | Code::Number(_)
        | Code::Text(_)
        | Code::Unset
        | Code::Get(_)
        | Code::Array(_)
        | Code::IsOpen(_)
        | Code::Bound(_, _) => {}
    }
}

#[cycle(folding)]
fn fold_operand(operand: &mut Operand)
    ensures { before operand.new End ≡ codes_in same reduced (before operand.old End) }
{
    match operand {
        Operand::Code(code) => fold_code(code),
        Operand::Constant(_) | Operand::Fresh => {}
    }
}

#[cycle(folding)]
fn fold_operands(operands: &mut Vec<Operand>)
    ensures { views operands.new.items ≡ codes_in same reduced (views operands.old.items) }
{
    for operand in operands.iter_mut() {
        fold_operand(operand);
    }
}

#[cycle(folding)]
fn fold_codes(codes: &mut Vec<Code>)
    ensures { map view codes.new.items ≡ map folded (map view codes.old.items) }
{
    for code in codes.iter_mut() {
        fold_code(code);
    }
}
