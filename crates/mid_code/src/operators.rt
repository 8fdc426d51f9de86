//! Constants and operators.

ghost use Rattle.std.specs.Prelude.{◌≡◌, IfOk};
ghost use Rattle.awk_grammar.specs.View.{view_binary, view_unary};
ghost use Rattle.sem_primitives.specs.declared.sorts.Sort.TheVariants as sort;
ghost use Rattle.mid_program.specs.Mid as plain;
ghost use Rattle.sem_scripts.specs.Steps.{constant, or_nought};
ghost use Rattle.mid_program.specs.Translation.{combined, one_code, prefixed, truth_code, two, zero_code};
ghost use Rattle.mid_program.specs.ViewCode.{view};
ghost use Rattle.mid_code.specs.Made.{Makes};

use crate::build::{binary, chosen, number, truth, unary, untruth};
use crate::fallible::{all_three, both, in_box};
use awk_grammar::{BinaryOp, UnaryOp};
use awk_text::number_of;
use awk_values::CompareOp;
use mid_program::{Arithmetic, Code, Operation};
use sem_primitives::{Primitive, Sort};
use std::alloc::{AllocError, Global};

/// The number of a constant; constants of a script are in range, and for others it is 0.
pub(crate) fn constant(text: &[u8]) -> i64
    ensures { result ≡ (or_nought (constant text.now)).number }
{
    match number_of(text) {
        Ok(number) => number,
        Err(_) => 0,
    }
}

/// An operator before its operand.
pub(crate) fn prefixed(
    alloc: Global,
    op: UnaryOp,
    operand: Result<Code, AllocError>,
) -> Result<Code, AllocError>
    ensures { (e : plain.Code) → Makes operand e → Makes result (prefixed (view_unary op) e) }
{
    let operand = operand?;
    match op {
        UnaryOp::Not => untruth(alloc, operand),
        UnaryOp::Plus => unary(alloc, Operation::AsNumber, operand),
        UnaryOp::Minus => {
            let operation = Operation::Inline(Arithmetic::Minus);
            binary(alloc, operation, Code::Number(0), operand)
        }
    }
}

/// What the module does with two numbers.
fn inline(
    alloc: Global,
    arithmetic: Arithmetic,
    left: Box<Code>,
    right: Box<Code>,
) -> Result<Code, AllocError>
    ensures { IfOk result (λ code. view code ≡ plain.Do (Operation.Inline arithmetic) (two (view
        left.value) (view right.value))) }
{
    binary(
        alloc,
        Operation::Inline(arithmetic),
        Box::into_inner(left),
        Box::into_inner(right),
    )
}

/// What the host does with two operands.
fn host(
    alloc: Global,
    primitive: Primitive,
    left: Box<Code>,
    right: Box<Code>,
) -> Result<Code, AllocError>
    ensures { IfOk result (λ code. view code ≡ plain.Do (Operation.Host primitive) (two (view
        left.value) (view right.value))) }
{
    binary(
        alloc,
        Operation::Host(primitive),
        Box::into_inner(left),
        Box::into_inner(right),
    )
}

/// Whether both are true.
fn both_true(alloc: Global, left: Box<Code>, right: Box<Code>) -> Result<Code, AllocError>
    ensures { IfOk result (λ code. view code ≡ plain.Choose sort.Number (view left.value)
        (truth_code (view right.value)) zero_code) }
{
    let right = in_box(alloc, truth(alloc, Box::into_inner(right)));
    let (left, right, zero) = all_three(Ok(left), right, number(alloc, 0))?;
    Ok(chosen(Sort::Number, left, right, zero))
}

/// Whether one is true.
fn one_true(alloc: Global, left: Box<Code>, right: Box<Code>) -> Result<Code, AllocError>
    ensures { IfOk result (λ code. view code ≡ plain.Choose sort.Number (view left.value) one_code
        (truth_code (view right.value))) }
{
    let right = in_box(alloc, truth(alloc, Box::into_inner(right)));
    let (left, right, one) = all_three(Ok(left), right, number(alloc, 1))?;
    Ok(chosen(Sort::Number, left, one, right))
}

/// An operator between operands in boxes.
fn between(
    alloc: Global,
    op: BinaryOp,
    left: Box<Code>,
    right: Box<Code>,
) -> Result<Code, AllocError>
    ensures { IfOk result (λ code. view code ≡ combined (view_binary op) (view left.value) (view
        right.value)) }
{
    match op {
        BinaryOp::Or => one_true(alloc, left, right),
        BinaryOp::And => both_true(alloc, left, right),
        BinaryOp::Match => host(alloc, Primitive::Matches, left, right),
        BinaryOp::NoMatch => {
            let matched = host(alloc, Primitive::Matches, left, right)?;
            untruth(alloc, matched)
        }
        BinaryOp::Less => Ok(Code::Compare(CompareOp::Less, left, right)),
        BinaryOp::LessEqual => Ok(Code::Compare(CompareOp::LessOrEqual, left, right)),
        BinaryOp::Equal => Ok(Code::Compare(CompareOp::Equal, left, right)),
        BinaryOp::NotEqual => Ok(Code::Compare(CompareOp::NotEqual, left, right)),
        BinaryOp::Greater => Ok(Code::Compare(CompareOp::Greater, left, right)),
        BinaryOp::GreaterEqual => Ok(Code::Compare(CompareOp::GreaterOrEqual, left, right)),
        BinaryOp::Concat => host(alloc, Primitive::Concat, left, right),
        BinaryOp::Add => inline(alloc, Arithmetic::Plus, left, right),
        BinaryOp::Subtract => inline(alloc, Arithmetic::Minus, left, right),
        BinaryOp::Multiply => inline(alloc, Arithmetic::Times, left, right),
        BinaryOp::Divide => inline(alloc, Arithmetic::Over, left, right),
        BinaryOp::Modulo => inline(alloc, Arithmetic::Modulo, left, right),
        BinaryOp::Power => host(alloc, Primitive::Pow, left, right),
    }
}

/// An operator between its operands.
pub(crate) fn combined(
    alloc: Global,
    op: BinaryOp,
    left: Result<Code, AllocError>,
    right: Result<Code, AllocError>,
) -> Result<Code, AllocError>
    ensures { (a b : plain.Code) → Makes left a → Makes right b
        → Makes result (combined (view_binary op) a b) }
{
    let (left, right) = both(in_box(alloc, left), in_box(alloc, right))?;
    between(alloc, op, left, right)
}

/// One of two values, by the truth of a test.
pub(crate) fn conditional(
    alloc: Global,
    test: Result<Code, AllocError>,
    yes: Result<Code, AllocError>,
    no: Result<Code, AllocError>,
) -> Result<Code, AllocError>
    ensures { (a b c : plain.Code) → Makes test a → Makes yes b → Makes no c
        → Makes result (plain.Choose sort.Value a b c) }
{
    let (yes, no) = (in_box(alloc, yes), in_box(alloc, no));
    let (test, yes, no) = all_three(in_box(alloc, test), yes, no)?;
    Ok(chosen(Sort::Value, test, yes, no))
}
