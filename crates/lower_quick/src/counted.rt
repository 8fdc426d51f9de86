//! Comparisons of an unboxed name with how many fields there are.
ghost use Rattle.std.specs.Option.{option_map};
ghost use Rattle.std.specs.Prelude.{◌≡◌};
ghost use Rattle.mid_program.specs.ViewCode.{view, views};
ghost use Rattle.lower_quick.specs.Operands.{reads_special};
ghost use Rattle.lower_quick.specs.View.{view_counted};
ghost use Rattle.lower_model.specs.Quick.{counted_in, field_count, is_count};

use crate::source::{Holder, name_in};
use awk_values::CompareOp;
use mid_program::{Code, Operand, Operation};
use sem_primitives::{Primitive, Special};

/// A comparison of a name with how many fields there are.
#[derive(Clone, Copy, Drop)]
pub struct Counted {
    pub op: CompareOp,
    pub name: Holder,
}

/// Whether operands are the number of `NF`.
fn is_count(operands: &[Operand]) -> bool
    ensures { result ≡ is_count (views operands.now) }
{
    if operands.len() != 1 {
        return false;
    }
    match &operands[0] {
        Operand::Constant(number) => *number == u32::from(Special::Nf.number()),
        Operand::Code(_) | Operand::Fresh => false,
    }
}

/// Whether a primitive reads a special variable.
fn reads_special(primitive: Primitive) -> bool
    ensures { result ≡ reads_special primitive }
{
    matches!(primitive, Primitive::GetSpecial)
}

/// Whether code is how many fields there are.
fn field_count(code: &Code) -> bool
    ensures { result ≡ field_count (view code.now) }
{
    let Code::Do(operation, operands) = code else {
        return false;
    };
    match operation {
        Operation::Host(primitive) => {
            if reads_special(*primitive) {
                is_count(operands)
            } else {
                false
            }
        }
        Operation::Inline(_) | Operation::AsNumber | Operation::FieldNumber => false,
    }
}

/// The comparison of a name with how many fields there are that a test is, if it is one.
pub fn counted_in(test: &Code) -> Option<Counted>
    ensures { option_map view_counted result ≡ counted_in (view test.now) }
{
    match test {
        Code::Compare(op, left, right) if field_count(right) => Some(Counted {
            op: *op,
            name: name_in(left)?,
        }),
        _ => None,
    }
}
