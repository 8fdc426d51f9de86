//! Sums and differences of sources, wherever they stand.
ghost use Rattle.std.specs.Option.{option_map};
ghost use Rattle.std.specs.Prelude.{◌≡◌};
ghost use Rattle.mid_program.specs.ViewCode.{views};
ghost use Rattle.lower_quick.specs.View.{view_addition, view_source};
ghost use Rattle.lower_model.specs.Quick.{addition_in, addition_of, is_sum, two_added};

use crate::operands::two_codes;
use crate::source::{Source, is_near, source_in};
use mid_program::{Arithmetic, Operand, Operation};

/// A sum or a difference of two sources.
#[derive(Clone, Copy, Drop)]
pub struct Addition {
    pub op: Arithmetic,
    pub left: Source,
    pub right: Source,
}

pub(crate) fn is_sum(op: Arithmetic) -> bool
    ensures { result ≡ is_sum op }
{
    matches!(op, Arithmetic::Plus | Arithmetic::Minus)
}

/// The sum of two sources, if it may be in range.
pub(crate) fn addition_of(
    op: Arithmetic,
    left: Option<Source>,
    right: Option<Source>,
) -> Option<Addition>
    ensures { option_map view_addition result
        ≡ addition_of op (option_map view_source left) (option_map view_source right) }
{
    match (left, right) {
        (Some(left), Some(right)) if is_sum(op) && is_near(left) && is_near(right) => {
            Some(Addition { op, left, right })
        }
        _ => None,
    }
}

/// The sum of two operands.
fn two_added(op: Arithmetic, operands: &[Operand]) -> Option<Addition>
    ensures { option_map view_addition result ≡ two_added op (views operands.now) }
{
    let (left, right) = two_codes(operands)?;
    addition_of(op, source_in(left), source_in(right))
}

/// The sum or difference of two sources that an operation is, if it is one that may be in range.
pub fn addition_in(operation: Operation, operands: &[Operand]) -> Option<Addition>
    ensures { option_map view_addition result ≡ addition_in operation (views operands.now) }
{
    match operation {
        Operation::Inline(op) => two_added(op, operands),
        Operation::Host(_) | Operation::AsNumber | Operation::FieldNumber => None,
    }
}
