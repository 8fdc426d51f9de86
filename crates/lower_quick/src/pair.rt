//! Comparisons of sources.
ghost use Rattle.std.specs.Option.{option_map};
ghost use Rattle.std.specs.Prelude.{◌≡◌};
ghost use Rattle.mid_program.specs.ViewCode.{view};
ghost use Rattle.lower_quick.specs.View.{view_pair};
ghost use Rattle.lower_model.specs.Quick.{contrary, pair_in};

use crate::source::{Source, source_in};
use awk_values::CompareOp;
use mid_program::Code;

/// A comparison of two sources.
#[derive(Clone, Copy, Drop)]
pub struct Pair {
    pub op: CompareOp,
    pub left: Source,
    pub right: Source,
}

/// The comparison of sources that a test is, if it is one.
pub fn pair_in(test: &Code) -> Option<Pair>
    ensures { option_map view_pair result ≡ pair_in (view test.now) }
{
    match test {
        Code::Compare(op, left, right) => Some(Pair {
            op: *op,
            left: source_in(left)?,
            right: source_in(right)?,
        }),
        _ => None,
    }
}

/// The operator that holds where this one does not.
pub fn contrary(op: CompareOp) -> CompareOp
    ensures { result ≡ contrary op }
{
    match op {
        CompareOp::Less => CompareOp::GreaterOrEqual,
        CompareOp::LessOrEqual => CompareOp::Greater,
        CompareOp::Equal => CompareOp::NotEqual,
        CompareOp::NotEqual => CompareOp::Equal,
        CompareOp::Greater => CompareOp::LessOrEqual,
        CompareOp::GreaterOrEqual => CompareOp::Less,
    }
}
