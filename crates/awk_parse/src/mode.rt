//! What an expression must be where it stands.

ghost use Rattle.std.specs.Prelude.{◌≡◌};
ghost use Rattle.awk_grammar.specs.Tree.{floor, normal, fits, op_right};
ghost use Rattle.awk_grammar.specs.Reading.{under};
ghost use Rattle.awk_grammar.specs.View.{view, view_binary};
ghost use Rattle.awk_parse.specs.Seen.{view_mode, view_infix};

use crate::peek::Infix;
use awk_grammar::{BinaryOp, Expr, is_field, level};

/// What an expression must be where it stands: any, or only what binds tighter than what is before it.
#[derive(Clone, Copy)]
pub enum Mode {
    Whole,
    AfterOr,
    AfterAnd,
    AfterMatch,
    AfterCompare,
    AfterConcat,
    AfterSum,
    Factor,
    /// After `<`: no operator, no step, no `getline`.
    Plain,
    LValue,
    /// After `$`.
    InField,
}

/// The least level of an expression there.
pub(crate) fn floor(mode: Mode) -> u8
    ensures { result ≡ floor (view_mode mode) }
{
    match mode {
        Mode::Whole => 0,
        Mode::AfterOr => 2,
        Mode::AfterAnd => 3,
        Mode::AfterMatch => 5,
        Mode::AfterCompare => 6,
        Mode::AfterConcat => 7,
        Mode::AfterSum => 8,
        Mode::Factor => 9,
        Mode::Plain | Mode::InField => 12,
        Mode::LValue => 13,
    }
}

/// Whether a step may stand after an expression there.
pub(crate) fn is_normal(mode: Mode) -> bool
    ensures { result ≡ normal (view_mode mode) }
{
    !matches!(mode, Mode::Plain | Mode::LValue | Mode::InField)
}

/// Whether an expression may stand there.
pub(crate) fn fits(mode: Mode, e: &Expr) -> bool
    ensures { result ≡ fits (view_mode mode) (view e.now) }
{
    match mode {
        Mode::InField => is_field(e),
        _ => level(e) >= floor(mode),
    }
}

/// What is read after a sign there.
pub(crate) fn under(mode: Mode) -> Mode
    ensures { view_mode result ≡ under (view_mode mode) }
{
    match mode {
        Mode::InField => Mode::InField,
        _ => Mode::Factor,
    }
}

/// What is read after an operator that is none of assignment.
fn after_operator(op: BinaryOp) -> Mode
    ensures { view_mode result ≡ op_right (view_binary op) }
{
    match op {
        BinaryOp::Or => Mode::AfterOr,
        BinaryOp::And => Mode::AfterAnd,
        BinaryOp::Match | BinaryOp::NoMatch => Mode::AfterMatch,
        BinaryOp::Less
        | BinaryOp::LessEqual
        | BinaryOp::Equal
        | BinaryOp::NotEqual
        | BinaryOp::Greater
        | BinaryOp::GreaterEqual => Mode::AfterCompare,
        BinaryOp::Concat => Mode::AfterConcat,
        BinaryOp::Add | BinaryOp::Subtract => Mode::AfterSum,
        BinaryOp::Multiply | BinaryOp::Divide | BinaryOp::Modulo | BinaryOp::Power => Mode::Factor,
    }
}

/// What is read after what stands between two sides.
pub(crate) fn right_of(op: Infix) -> Mode
    ensures { view_mode result ≡ op_right (view_infix op) }
{
    match op {
        Infix::Binary(op) => after_operator(op),
        Infix::Assign(_) => Mode::Whole,
    }
}
