//! Comparisons of an unboxed name with a constant.
ghost use Rattle.std.specs.Option.{option_map};
ghost use Rattle.std.specs.Prelude.{◌≡◌};
ghost use Rattle.mid_program.specs.ViewCode.{view};
ghost use Rattle.lower_quick.specs.View.{view_holder, view_within};
ghost use Rattle.lower_model.specs.Quick.{compared_within, test_within};

use crate::source::{Holder, constant_in, name_in};
use awk_text::MAX_NUMBER;
use awk_values::CompareOp;
use mid_program::Code;

/// The least number.
const LEAST_NUMBER: i64 = -(MAX_NUMBER as i64);

/// Of a name the numbers from the least one on, up to one that is so much greater.
#[derive(Clone, Copy, Drop)]
pub struct Within {
    pub name: Holder,
    pub width: u64,
}

/// The numbers of which the comparison with a constant is true.
fn compared_within(op: CompareOp, name: Holder, number: i64) -> Option<Within>
    ensures { option_map view_within result ≡ compared_within op (view_holder name) number }
{
    let below = number.abs_diff(LEAST_NUMBER);
    let width = match op {
        CompareOp::Less => below.checked_sub(1)?,
        CompareOp::LessOrEqual => below,
        CompareOp::Equal | CompareOp::NotEqual | CompareOp::Greater | CompareOp::GreaterOrEqual =>
            return None,
    };
    Some(Within { name, width })
}

/// The numbers of a name of which a test is true, where it compares the name with a constant.
pub fn test_within(test: &Code) -> Option<Within>
    ensures { option_map view_within result ≡ test_within (view test.now) }
{
    match test {
        Code::Compare(op, left, right) => {
            compared_within(*op, name_in(left)?, constant_in(right)?)
        }
        _ => None,
    }
}
