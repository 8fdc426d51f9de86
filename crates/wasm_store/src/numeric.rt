//! Integer operators (Core 1.0, section 4.3.2).
ghost use Rattle.std.specs.Int.{w32, w64};
ghost use Rattle.std.specs.Prelude.{◌≡◌};
ghost use Rattle.wasm_store.specs.Integers.{quotient_signed, binary_at, unary_at, test_at, compare_at};
ghost use Rattle.wasm_store.specs.IntegerParts.{difference, quotient_unsigned, remainder_signed, remainder_unsigned, shifted_left, shifted_right_signed, shifted_right_unsigned, rotated_left, rotated_right};
ghost use Rattle.wasm_store.specs.Words.{binary_of, unary_of, test_of, compare_of, converted};

use crate::trap::TrapKind;
use crate::word::Word;
use wasm_types::{CvtOp, IBinOp, IRelOp, ITestOp, IUnOp, ValType};

#[inline(always)]
fn div_s_32(a: u32, b: u32) -> Result<u32, TrapKind>
    ensures { result ≡ quotient_signed w32 a b }
{
    if b == 0 {
        return Err(TrapKind::DivideByZero);
    }
    match a.cast_signed().checked_div(b.cast_signed()) {
        Some(q) => Ok(q.cast_unsigned()),
        None => Err(TrapKind::IntegerOverflow),
    }
}

#[inline(always)]
fn div_s_64(a: u64, b: u64) -> Result<u64, TrapKind>
    ensures { result ≡ quotient_signed w64 a b }
{
    if b == 0 {
        return Err(TrapKind::DivideByZero);
    }
    match a.cast_signed().checked_div(b.cast_signed()) {
        Some(q) => Ok(q.cast_unsigned()),
        None => Err(TrapKind::IntegerOverflow),
    }
}

#[inline(always)]
fn rem_s_32(a: u32, b: u32) -> Result<u32, TrapKind>
    ensures { result ≡ remainder_signed w32 a b }
{
    if b == 0 {
        return Err(TrapKind::DivideByZero);
    }
    Ok(
        a.cast_signed()
            .wrapping_rem(b.cast_signed())
            .cast_unsigned(),
    )
}

#[inline(always)]
fn rem_s_64(a: u64, b: u64) -> Result<u64, TrapKind>
    ensures { result ≡ remainder_signed w64 a b }
{
    if b == 0 {
        return Err(TrapKind::DivideByZero);
    }
    Ok(
        a.cast_signed()
            .wrapping_rem(b.cast_signed())
            .cast_unsigned(),
    )
}

#[inline(always)]
fn div_u_32(a: u32, b: u32) -> Result<u32, TrapKind>
    ensures { result ≡ quotient_unsigned a b }
{
    if b == 0 {
        Err(TrapKind::DivideByZero)
    } else {
        Ok(a / b)
    }
}

#[inline(always)]
fn div_u_64(a: u64, b: u64) -> Result<u64, TrapKind>
    ensures { result ≡ quotient_unsigned a b }
{
    if b == 0 {
        Err(TrapKind::DivideByZero)
    } else {
        Ok(a / b)
    }
}

#[inline(always)]
fn rem_u_32(a: u32, b: u32) -> Result<u32, TrapKind>
    ensures { result ≡ remainder_unsigned a b }
{
    if b == 0 {
        Err(TrapKind::DivideByZero)
    } else {
        Ok(a % b)
    }
}

#[inline(always)]
fn rem_u_64(a: u64, b: u64) -> Result<u64, TrapKind>
    ensures { result ≡ remainder_unsigned a b }
{
    if b == 0 {
        Err(TrapKind::DivideByZero)
    } else {
        Ok(a % b)
    }
}

#[inline(always)]
fn shr_s_32(a: u32, b: u32) -> u32
    ensures { result ≡ shifted_right_signed w32 a b }
{
    a.cast_signed().wrapping_shr(b).cast_unsigned()
}

#[inline(always)]
fn shr_s_64(a: u64, b: u64) -> u64
    ensures { result ≡ shifted_right_signed w64 a b }
{
    a.cast_signed()
        .wrapping_shr((b % 64) as u32)
        .cast_unsigned()
}

#[inline(always)]
fn binary_32(op: IBinOp, a: u32, b: u32) -> Result<u32, TrapKind>
    ensures { result ≡ binary_at w32 op a b }
{
    match op {
        IBinOp::Add => Ok(a.wrapping_add(b)),
        IBinOp::Sub => Ok(a.wrapping_sub(b)),
        IBinOp::Mul => Ok(a.wrapping_mul(b)),
        IBinOp::DivS => div_s_32(a, b),
        IBinOp::DivU => div_u_32(a, b),
        IBinOp::RemS => rem_s_32(a, b),
        IBinOp::RemU => rem_u_32(a, b),
        IBinOp::And => Ok(a & b),
        IBinOp::Or => Ok(a | b),
        IBinOp::Xor => Ok(a ^ b),
        IBinOp::Shl => Ok(a.wrapping_shl(b)),
        IBinOp::ShrS => Ok(shr_s_32(a, b)),
        IBinOp::ShrU => Ok(a.wrapping_shr(b)),
        IBinOp::Rotl => Ok(a.rotate_left(b % 32)),
        IBinOp::Rotr => Ok(a.rotate_right(b % 32)),
    }
}

#[inline(always)]
fn binary_64(op: IBinOp, a: u64, b: u64) -> Result<u64, TrapKind>
    ensures { result ≡ binary_at w64 op a b }
{
    match op {
        IBinOp::Add => Ok(a.wrapping_add(b)),
        IBinOp::Sub => Ok(a.wrapping_sub(b)),
        IBinOp::Mul => Ok(a.wrapping_mul(b)),
        IBinOp::DivS => div_s_64(a, b),
        IBinOp::DivU => div_u_64(a, b),
        IBinOp::RemS => rem_s_64(a, b),
        IBinOp::RemU => rem_u_64(a, b),
        IBinOp::And => Ok(a & b),
        IBinOp::Or => Ok(a | b),
        IBinOp::Xor => Ok(a ^ b),
        IBinOp::Shl => Ok(a << (b % 64)),
        IBinOp::ShrS => Ok(shr_s_64(a, b)),
        IBinOp::ShrU => Ok(a >> (b % 64)),
        IBinOp::Rotl => Ok(a.rotate_left((b % 64) as u32)),
        IBinOp::Rotr => Ok(a.rotate_right((b % 64) as u32)),
    }
}

#[inline(always)]
fn unary_32(op: IUnOp, a: u32) -> u32
    ensures { result ≡ unary_at w32 op a }
{
    match op {
        IUnOp::Clz => a.leading_zeros(),
        IUnOp::Ctz => a.trailing_zeros(),
        IUnOp::Popcnt => a.count_ones(),
    }
}

#[inline(always)]
fn unary_64(op: IUnOp, a: u64) -> u64
    ensures { result ≡ unary_at w64 op a }
{
    u64::from(match op {
        IUnOp::Clz => a.leading_zeros(),
        IUnOp::Ctz => a.trailing_zeros(),
        IUnOp::Popcnt => a.count_ones(),
    })
}

#[inline(always)]
fn compare_32(op: IRelOp, a: u32, b: u32) -> bool
    ensures { result ≡ compare_at w32 op a b }
{
    match op {
        IRelOp::Eq => a == b,
        IRelOp::Ne => a != b,
        IRelOp::LtS => a.cast_signed() < b.cast_signed(),
        IRelOp::LtU => a < b,
        IRelOp::GtS => a.cast_signed() > b.cast_signed(),
        IRelOp::GtU => a > b,
        IRelOp::LeS => a.cast_signed() <= b.cast_signed(),
        IRelOp::LeU => a <= b,
        IRelOp::GeS => a.cast_signed() >= b.cast_signed(),
        IRelOp::GeU => a >= b,
    }
}

#[inline(always)]
fn compare_64(op: IRelOp, a: u64, b: u64) -> bool
    ensures { result ≡ compare_at w64 op a b }
{
    match op {
        IRelOp::Eq => a == b,
        IRelOp::Ne => a != b,
        IRelOp::LtS => a.cast_signed() < b.cast_signed(),
        IRelOp::LtU => a < b,
        IRelOp::GtS => a.cast_signed() > b.cast_signed(),
        IRelOp::GtU => a > b,
        IRelOp::LeS => a.cast_signed() <= b.cast_signed(),
        IRelOp::LeU => a <= b,
        IRelOp::GeS => a.cast_signed() >= b.cast_signed(),
        IRelOp::GeU => a >= b,
    }
}

/// What an operator makes of two values. None where one of them is of another type.
///
/// # Errors
///
/// [`TrapKind::DivideByZero`] for a division or remainder by 0, [`TrapKind::IntegerOverflow`] for a signed quotient that is no integer
/// of the width.
#[inline(always)]
pub fn binary(ty: ValType, op: IBinOp, a: Word, b: Word) -> Option<Result<Word, TrapKind>>
    ensures { result ≡ binary_of ty op a b }
{
    match (ty, a, b) {
        (ValType::I32, Word::I32(a), Word::I32(b)) => Some(binary_32(op, a, b).map(Word::I32)),
        (ValType::I64, Word::I64(a), Word::I64(b)) => Some(binary_64(op, a, b).map(Word::I64)),
        _ => None,
    }
}

/// What an operator makes of a value. None where it is of another type.
#[inline(always)]
pub fn unary(ty: ValType, op: IUnOp, a: Word) -> Option<Word>
    ensures { result ≡ unary_of ty op a }
{
    match (ty, a) {
        (ValType::I32, Word::I32(a)) => Some(Word::I32(unary_32(op, a))),
        (ValType::I64, Word::I64(a)) => Some(Word::I64(unary_64(op, a))),
        _ => None,
    }
}

/// The answer of a test, as the 32-bit integer 1 or 0. None where the value is of another type.
#[inline(always)]
pub fn test(ty: ValType, op: ITestOp, a: Word) -> Option<Word>
    ensures { result ≡ test_of ty op a }
{
    let answer = match (ty, op, a) {
        (ValType::I32, ITestOp::Eqz, Word::I32(a)) => a == 0,
        (ValType::I64, ITestOp::Eqz, Word::I64(a)) => a == 0,
        _ => return None,
    };
    Some(Word::I32(u32::from(answer)))
}

/// The answer of a comparison, as the 32-bit integer 1 or 0. None where one of the values is of another type.
#[inline(always)]
pub fn compare(ty: ValType, op: IRelOp, a: Word, b: Word) -> Option<Word>
    ensures { result ≡ compare_of ty op a b }
{
    let answer = match (ty, a, b) {
        (ValType::I32, Word::I32(a), Word::I32(b)) => compare_32(op, a, b),
        (ValType::I64, Word::I64(a), Word::I64(b)) => compare_64(op, a, b),
        _ => return None,
    };
    Some(Word::I32(u32::from(answer)))
}

/// What a conversion makes of a value. None where it is of another type.
#[inline(always)]
pub fn convert(op: CvtOp, a: Word) -> Option<Word>
    ensures { result ≡ converted op a }
{
    match (op, a) {
        (CvtOp::I32WrapI64, Word::I64(a)) => Some(Word::I32((a % (1 << 32)) as u32)),
        (CvtOp::I64ExtendI32S, Word::I32(a)) => {
            Some(Word::I64(i64::from(a.cast_signed()).cast_unsigned()))
        }
        (CvtOp::I64ExtendI32U, Word::I32(a)) => Some(Word::I64(u64::from(a))),
        (CvtOp::I32Extend8S, Word::I32(a)) => {
            Some(Word::I32(i32::from(((a % (1 << 8)) as u8).cast_signed()).cast_unsigned()))
        }
        (CvtOp::I32Extend16S, Word::I32(a)) => {
            Some(Word::I32(i32::from(((a % (1 << 16)) as u16).cast_signed()).cast_unsigned()))
        }
        (CvtOp::I64Extend8S, Word::I64(a)) => {
            Some(Word::I64(i64::from(((a % (1 << 8)) as u8).cast_signed()).cast_unsigned()))
        }
        (CvtOp::I64Extend16S, Word::I64(a)) => {
            Some(Word::I64(i64::from(((a % (1 << 16)) as u16).cast_signed()).cast_unsigned()))
        }
        (CvtOp::I64Extend32S, Word::I64(a)) => {
            Some(Word::I64(i64::from(((a % (1 << 32)) as u32).cast_signed()).cast_unsigned()))
        }
        _ => None,
    }
}
