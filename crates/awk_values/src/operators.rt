//! The operators of arithmetic, on whole numbers from -2^53 to 2^53 (POSIX.1-2017 awk, "Expressions in awk").
ghost use Rattle.std.specs.Int.{int_pow};
ghost use Rattle.std.specs.Prelude.{◌≡◌, ◌<◌, ◌≤◌, ◌^◌, ◌↔◌, IfSome, IsSome, unsigned_abs};
ghost use Rattle.awk_text.specs.NumberText.{InRange};
ghost use Rattle.awk_values.specs.Operators.{checked, difference, inverse_power, power, product, quotient, remainder, sum, truncated_quotient};

use crate::Fault;
use awk_text::MAX_NUMBER;

fn checked(number: i64) -> Result<i64, Fault>
    ensures { result ≡ checked number }
{
    if number.unsigned_abs() <= MAX_NUMBER {
        Ok(number)
    } else {
        Err(Fault::Range)
    }
}

/// The sum.
///
/// # Errors
///
/// [`Fault::Range`] where it is outside the range.
pub fn add(left: i64, right: i64) -> Result<i64, Fault>
    requires left { InRange left }
    requires right { InRange right }
    ensures { result ≡ sum left right }
{
    checked(left + right)
}

/// The difference.
///
/// # Errors
///
/// [`Fault::Range`] where it is outside the range.
pub fn sub(left: i64, right: i64) -> Result<i64, Fault>
    requires left { InRange left }
    requires right { InRange right }
    ensures { result ≡ difference left right }
{
    checked(left - right)
}

/// The product.
///
/// # Errors
///
/// [`Fault::Range`] where it is outside the range.
pub fn mul(left: i64, right: i64) -> Result<i64, Fault>
    requires left { InRange left }
    requires right { InRange right }
    ensures { result ≡ product left right }
{
    match left.checked_mul(right) {
        Some(number) => checked(number),
        None => Err(Fault::Range),
    }
}

/// The quotient, which is whole.
///
/// # Errors
///
/// [`Fault::DivisionByZero`] where the divisor is 0, and [`Fault::Inexact`] where it does not divide.
pub fn div(left: i64, right: i64) -> Result<i64, Fault>
    requires left { InRange left }
    requires right { InRange right }
    ensures { result ≡ quotient left right }
{
    if right == 0 {
        Err(Fault::DivisionByZero)
    } else if left % right == 0 {
        Ok(left / right)
    } else {
        Err(Fault::Inexact)
    }
}

/// The quotient, truncated towards 0.
///
/// # Errors
///
/// [`Fault::DivisionByZero`] where the divisor is 0.
pub fn int_div(left: i64, right: i64) -> Result<i64, Fault>
    requires left { InRange left }
    requires right { InRange right }
    ensures { result ≡ truncated_quotient left right }
{
    if right == 0 {
        return Err(Fault::DivisionByZero);
    }
    let quotient = left / right;
    Ok(quotient)
}

/// The remainder, with the sign of the left operand.
///
/// # Errors
///
/// [`Fault::DivisionByZero`] where the divisor is 0.
pub fn rem(left: i64, right: i64) -> Result<i64, Fault>
    requires left { InRange left }
    requires right { InRange right }
    ensures { result ≡ remainder left right }
{
    if right == 0 {
        Err(Fault::DivisionByZero)
    } else {
        Ok(left % right)
    }
}

/// A power of 0, 1 or -1; no other base is answered.
fn unit_power(base: i64, exponent: u64) -> Option<i64>
    ensures value { IfSome result (λ number. number ≡ int_pow base exponent) }
    ensures some { IsSome result ↔ (unsigned_abs base ≤ 1) }
{
    match base {
        0 => Some(if exponent == 0 { 1 } else { 0 }),
        1 => Some(1),
        -1 => Some(if exponent % 2 == 0 { 1 } else { -1 }),
        _ => None,
    }
}

/// One over a power.
fn inverse_power(base: i64, exponent: u64) -> Result<i64, Fault>
    ensures { result ≡ inverse_power base exponent }
{
    if base == 0 {
        return Err(Fault::DivisionByZero);
    }
    match unit_power(base, exponent) {
        Some(number) => Ok(number),
        None => Err(Fault::Inexact),
    }
}

fn large_power(base: i64, exponent: u64) -> Result<i64, Fault>
    requires { 2 ≤ unsigned_abs base }
    ensures { result ≡ checked (int_pow base exponent) }
{
    let Ok(exponent) = u32::try_from(exponent) else {
        return Err(Fault::Range);
    };
    match base.checked_pow(exponent) {
        Some(number) => checked(number),
        None => Err(Fault::Range),
    }
}

/// The power.
///
/// # Errors
///
/// [`Fault::Range`] where it is outside the range. With a negative exponent, [`Fault::DivisionByZero`] of the base 0, and
/// [`Fault::Inexact`] of every other base but 1 and -1.
pub fn pow(base: i64, exponent: i64) -> Result<i64, Fault>
    requires base { InRange base }
    requires exponent { InRange exponent }
    ensures { result ≡ power base exponent }
{
    let magnitude = exponent.unsigned_abs();
    if exponent < 0 {
        return inverse_power(base, magnitude);
    }
    match unit_power(base, magnitude) {
        Some(number) => checked(number),
        None => large_power(base, magnitude),
    }
}
