//! Arithmetic that the module carries out itself. Operands stand in a temporary and in the one behind it; the result goes to the first.
ghost use Rattle.std.specs.Prelude.{suc, ◌≤◌};
ghost use Rattle.lower_model.specs.Arithmetic.{any_product, calculated, factors_differ, far_off, field_checked, near_product, out_of_range, ranged, times, two_numbers, unless_broken, unless_zero};
ghost use Rattle.lower_model.specs.Small.{emit};
ghost use Rattle.wasm_types.specs.declared.instr.Simple.TheVariants.{LocalSet};
ghost use Rattle.lower_pieces.specs.Bounds.{most_labels, most_places};
ghost use Rattle.lower_pieces.specs.Emits.{Emits, Holds};
ghost use Rattle.lower_pieces.specs.Fragments.{product_inside};

use crate::bases::Bases;
use crate::emission::{block, emit, emit_all};
use crate::emitted::Emitted;
use crate::faults::fail_if;
use awk_text::MAX_NUMBER;
use awk_values::Fault;
use mid_program::Arithmetic;
use sem_primitives::MAX_FIELDS;
use std::alloc::Global;
use wasm_types::{CvtOp, IBinOp, IRelOp, ITestOp, Simple, ValType};

/// Numbers of at most this size are near 0: the product of two is in range.
const NEAR: u64 = 1 << 26;

/// Adds the test whether a local's number is out of range.
fn out_of_range(out: &mut Emitted, local: u32)
    ensures { Emits out.old out.new (out_of_range local) }
{
    let all = [
        Simple::LocalGet(local),
        Simple::I64Const(MAX_NUMBER),
        Simple::Binary(ValType::I64, IBinOp::Add),
        Simple::I64Const(1 << 54),
        Simple::Compare(ValType::I64, IRelOp::GtU),
    ];
    emit_all(out, &all);
}

/// Adds an operation on the numbers of two locals, whose result goes to a third one.
fn combined(out: &mut Emitted, op: IBinOp, left: u32, right: u32, to: u32)
    ensures { Emits out.old out.new
        (λ after. two_numbers left right op (emit (LocalSet to) after)) }
{
    let all = [
        Simple::LocalGet(left),
        Simple::LocalGet(right),
        Simple::Binary(ValType::I64, op),
        Simple::LocalSet(to),
    ];
    emit_all(out, &all);
}

/// Adds a sum or a difference.
fn ranged(alloc: Global, out: &mut Emitted, op: IBinOp, left: u32, right: u32, exit: u32)
    requires { exit ≤ most_labels }
    ensures { Emits out.old out.new (ranged op left right exit) }
{
    combined(out, op, left, right, left);
    out_of_range(out, left);
    fail_if(alloc, out, Fault::Range, exit);
}

/// Adds the test whether a product passed 64 bits.
fn factors_differ(out: &mut Emitted, product: u32, left: u32, right: u32)
    ensures { Emits out.old out.new (factors_differ product left right) }
{
    let all = [
        Simple::LocalGet(product),
        Simple::LocalGet(left),
        Simple::LocalGet(left),
        Simple::Test(ValType::I64, ITestOp::Eqz),
        Simple::Convert(CvtOp::I64ExtendI32U),
        Simple::Binary(ValType::I64, IBinOp::Add),
        Simple::Binary(ValType::I64, IBinOp::DivS),
        Simple::LocalGet(right),
        Simple::Compare(ValType::I64, IRelOp::Ne),
        Simple::LocalGet(left),
        Simple::I64Const(0),
        Simple::Compare(ValType::I64, IRelOp::Ne),
        Simple::Binary(ValType::I32, IBinOp::And),
    ];
    emit_all(out, &all);
}

/// Adds a product of any two numbers, which stands in `product` until it is known to be in range.
fn any_product(alloc: Global, out: &mut Emitted, left: u32, right: u32, product: u32, exit: u32)
    requires { exit ≤ suc most_labels }
    ensures { Emits out.old out.new (any_product left right product exit) }
{
    combined(out, IBinOp::Mul, left, right, product);
    factors_differ(out, product, left, right);
    out_of_range(out, product);
    emit(out, Simple::Binary(ValType::I32, IBinOp::Or));
    fail_if(alloc, out, Fault::Range, exit);
    emit_all(out, &[Simple::LocalGet(product), Simple::LocalSet(left)]);
}

/// Adds the test whether a local's number is far from 0.
fn far_off(out: &mut Emitted, local: u32)
    ensures { Emits out.old out.new (far_off local) }
{
    let all = [
        Simple::LocalGet(local),
        Simple::I64Const(NEAR),
        Simple::Binary(ValType::I64, IBinOp::Add),
        Simple::I64Const(NEAR + NEAR),
        Simple::Compare(ValType::I64, IRelOp::GtU),
    ];
    emit_all(out, &all);
}

/// The product of two numbers near 0, which leaves two blocks. Where one is far, the inner block alone is left.
fn near_product(alloc: Global, left: u32, right: u32) -> Emitted
    ensures { Holds result (near_product left right) }
{
    let mut code = Emitted::new(alloc);
    far_off(&mut code, left);
    emit(&mut code, Simple::BrIf(0));
    far_off(&mut code, right);
    emit(&mut code, Simple::BrIf(0));
    combined(&mut code, IBinOp::Mul, left, right, left);
    emit(&mut code, Simple::Br(1));
    code
}

/// What a product's block has inside: the quick way in a block of its own, and then that of all cases.
fn product_inside(alloc: Global, left: u32, right: u32, product: u32, exit: u32) -> Emitted
    requires { exit ≤ most_labels }
    ensures { Holds result (product_inside left right product exit) }
{
    let mut code = Emitted::new(alloc);
    block(alloc, &mut code, near_product(alloc, left, right));
    any_product(alloc, &mut code, left, right, product, exit + 1);
    code
}

/// Adds a product.
fn times(alloc: Global, out: &mut Emitted, left: u32, right: u32, product: u32, exit: u32)
    requires { exit ≤ most_labels }
    ensures { Emits out.old out.new (times left right product exit) }
{
    block(
        alloc,
        out,
        product_inside(alloc, left, right, product, exit),
    );
}

/// Leaves where a divisor is 0.
fn unless_zero(alloc: Global, out: &mut Emitted, right: u32, exit: u32)
    requires { exit ≤ most_labels }
    ensures { Emits out.old out.new (unless_zero right exit) }
{
    let all = [
        Simple::LocalGet(right),
        Simple::Test(ValType::I64, ITestOp::Eqz),
    ];
    emit_all(out, &all);
    fail_if(alloc, out, Fault::DivisionByZero, exit);
}

/// Leaves where a quotient is not whole.
fn unless_broken(alloc: Global, out: &mut Emitted, left: u32, right: u32, exit: u32)
    requires { exit ≤ most_labels }
    ensures { Emits out.old out.new (unless_broken left right exit) }
{
    let all = [
        Simple::LocalGet(left),
        Simple::LocalGet(right),
        Simple::Binary(ValType::I64, IBinOp::RemS),
        Simple::I64Const(0),
        Simple::Compare(ValType::I64, IRelOp::Ne),
    ];
    emit_all(out, &all);
    fail_if(alloc, out, Fault::Inexact, exit);
}

/// Adds an operator of arithmetic with its checks.
pub fn calculated(
    alloc: Global,
    bases: &Bases,
    out: &mut Emitted,
    operator: Arithmetic,
    temporary: u32,
    exit: u32,
)
    requires places { suc (suc temporary) ≤ most_places }
    requires labels { exit ≤ most_labels }
    ensures { Emits out.old out.new (calculated bases.now operator temporary exit) }
{
    let left = bases.number(temporary);
    let right = bases.number(temporary + 1);
    match operator {
        Arithmetic::Plus => ranged(alloc, out, IBinOp::Add, left, right, exit),
        Arithmetic::Minus => ranged(alloc, out, IBinOp::Sub, left, right, exit),
        Arithmetic::Times => times(alloc, out, left, right, bases.number(temporary + 2), exit),
        Arithmetic::Over => {
            unless_zero(alloc, out, right, exit);
            unless_broken(alloc, out, left, right, exit);
            combined(out, IBinOp::DivS, left, right, left);
        }
        Arithmetic::Modulo => {
            unless_zero(alloc, out, right, exit);
            combined(out, IBinOp::RemS, left, right, left);
        }
        Arithmetic::Truncated => {
            unless_zero(alloc, out, right, exit);
            combined(out, IBinOp::DivS, left, right, left);
        }
    }
}

/// Leaves where a temporary's number is no field's.
pub fn field_checked(alloc: Global, bases: &Bases, out: &mut Emitted, temporary: u32, exit: u32)
    requires places { temporary ≤ most_places }
    requires labels { exit ≤ most_labels }
    ensures { Emits out.old out.new (field_checked bases.now temporary exit) }
{
    let all = [
        Simple::LocalGet(bases.number(temporary)),
        Simple::I64Const(MAX_FIELDS as u64),
        Simple::Compare(ValType::I64, IRelOp::GtU),
    ];
    emit_all(out, &all);
    fail_if(alloc, out, Fault::FieldNumber, exit);
}
