//! The code of expressions, with lanes at its names.

ghost use Rattle.std.specs.Prelude.{◌≡◌, map};
ghost use Rattle.mid_program.specs.Mid.{Do, End};
ghost use Rattle.mid_program.specs.ViewCode.{before, view, views};
ghost use Rattle.mid_program.specs.Rewriting.{code_in, codes_in};
ghost use Rattle.value_kinds.specs.View.{slots};

use crate::names::Names;
use mid_program::{Code, Operand};

/// Gives lanes to the names in code.
#[cycle(lanes)]
pub(crate) fn lane_code(names: Names<'_>, code: &mut Code)
    ensures { view code.new ≡ code_in (slots names.entry) Do (view code.old) }
{
    match code {
        Code::Do(_, operands) => lane_operands(names, operands),
        Code::Joined(first, others, last) => {
            lane_code(names, first);
            lane_codes(names, others);
            lane_code(names, last);
        }
        Code::Over(_, operands) => lane_operands(names, operands),
        Code::Compare(_, left, right) => {
            lane_code(names, left);
            lane_code(names, right);
        }
        Code::Call(_, operands) => lane_operands(names, operands),
        Code::AskLine(store) => lane_code(names, store),
        Code::FileLine(file, store) => {
            lane_code(names, file);
            lane_code(names, store);
        }
        Code::Replace(_, operands, store) => {
            lane_operands(names, operands);
            lane_code(names, store);
        }
        Code::Set(slot, value) => {
            *slot = names.slot(*slot);
            lane_code(names, value);
        }
        Code::Choose(_, test, yes, no) => {
            lane_code(names, test);
            lane_code(names, yes);
            lane_code(names, no);
        }
        Code::Seq(first, second) => {
            lane_code(names, first);
            lane_code(names, second);
        }
        Code::Let(kept, body) => {
            lane_code(names, kept);
            lane_code(names, body);
        }
        Code::Get(slot) => *slot = names.slot(*slot),
        Code::Ask
        | Code::Number(_)
        | Code::Text(_)
        | Code::Unset
        | Code::Array(_)
        | Code::IsOpen(_)
        | Code::Bound(_, _) => {}
    }
}

#[cycle(lanes)]
fn lane_operand(names: Names<'_>, operand: &mut Operand)
    ensures { before operand.new End ≡ codes_in (slots names.entry) Do (before operand.old End) }
{
    match operand {
        Operand::Code(code) => lane_code(names, code),
        Operand::Constant(_) | Operand::Fresh => {}
    }
}

#[cycle(lanes)]
fn lane_operands(names: Names<'_>, operands: &mut Vec<Operand>)
    ensures { views operands.new.items
        ≡ codes_in (slots names.entry) Do (views operands.old.items) }
{
    for operand in operands.iter_mut() {
        lane_operand(names, operand);
    }
}

#[cycle(lanes)]
fn lane_codes(names: Names<'_>, codes: &mut Vec<Code>)
    ensures { map view codes.new.items
        ≡ map (code_in (slots names.entry) Do) (map view codes.old.items) }
{
    for code in codes.iter_mut() {
        lane_code(names, code);
    }
}
