ghost use Rattle.std.specs.Prelude.{if◌then◌else◌, ◌≡◌, Some, None, ℕ, ◌+◌, ◌-◌, ◌*◌, ◌/◌, ◌%◌, ◌^◌, ◌<◌, ◌≤◌, ◌==◌, ◌↔◌, IfSome, IsTrue, min, pos};
ghost use Rattle.awk_text.specs.Number.{capped, largest, ranged, denominator, is_nonzero_text, looks_numeric_text, number_of_text, numerator, truncated_of_text, value_after, whole_value};
ghost use Rattle.awk_text.specs.NumberText.{IsNonzero, IsNumberOf, IsNumericLooking, IsTruncatedValue, IsWholeValue};
ghost use Rattle.awk_text.specs.Parts.{parts};
ghost use Rattle.awk_text.specs.Reading.{AreDigits};

use crate::reading::{Numeral, read_numeral, spaces};
use thiserror::Error;

/// Why a text has no number.
#[derive(Clone, Copy, Debug, PartialEq, Eq, Drop, Error)]
pub enum NumberFault {
    /// It is whole and outside -2^53 to 2^53.
    #[error("the number is outside -2^53 to 2^53")]
    Range,
    /// It is not whole.
    #[error("the number is not whole")]
    Fraction,
}

/// The largest number; the least is its negation. POSIX has none, since its numbers are floating ones. Here they are the whole ones from -2^53 to 2^53, both
/// included.
pub const MAX_NUMBER: u64 = 1 << 53;

/// The number that digits go on from `before`, cut to one past the range.
#[tactic(auto, using(crate::proofs::Values::cut_step))]
fn more_digits(before: u64, digits: &[u8]) -> u64
    requires { before ≤ largest + 1 }
    ensures { result ≡ capped (value_after before digits.now) }
{
    let mut number = before;
    for digit in digits {
        let next = number * 10 + u64::from(digit.saturating_sub(b'0'));
        number = next.min(MAX_NUMBER + 1);
    }
    number
}

/// The number that digits stand for, cut to 64 bits.
#[tactic(auto, using(crate::proofs::Values::cut_step))]
fn scale_of(digits: &[u8]) -> u64
    ensures { result ≡ min (value_after 0 digits.now) (2 ^ 64 - 1) }
{
    let mut number = 0u64;
    for digit in digits {
        number = number
            .saturating_mul(10)
            .saturating_add(u64::from(digit.saturating_sub(b'0')));
    }
    number
}

/// The number with zeros behind it, cut to one past the range.
#[tactic(auto, using(crate::proofs::Values::power_step, crate::proofs::Values::zeros_end))]
fn with_zeros(before: u64, zeros: u64) -> u64
    requires { before ≤ largest + 1 }
    ensures { result ≡ capped (before * 10 ^ zeros) }
{
    let mut number = before;
    for _place in 0..zeros.min(16) {
        number = (number * 10).min(MAX_NUMBER + 1);
    }
    number
}

fn are_zeros(digits: &[u8]) -> bool
    requires { AreDigits digits.now }
    ensures { result ≡ (value_after 0 digits.now == 0) }
{
    for digit in digits {
        if *digit != b'0' {
            return false;
        }
    }
    true
}

/// The number of digits alone; none where another byte is among them, or past the range. Most fields that hold a number are so.
#[tactic(auto, using(crate::proofs::Plain::next_value, crate::proofs::Plain::next_digits))]
#[inline(always)]
fn plain_number(text: &[u8]) -> Option<i64>
    ensures digits { IfSome result (λ n. AreDigits text.now) }
    ensures value { IfSome result (λ n. n ≡ pos (value_after 0 text.now)) }
    ensures in_range { IfSome result (λ n. value_after 0 text.now ≤ largest) }
{
    let mut number = 0u64;
    for byte in text {
        if !byte.is_ascii_digit() {
            return None;
        }
        number = number * 10 + u64::from(*byte - b'0');
        if number > MAX_NUMBER {
            return None;
        }
    }
    Some(number as i64)
}

/// The magnitude towards 0, cut to one past the range, and whether it is exact.
fn magnitude(numeral: &Numeral<'_>) -> (u64, bool)
    requires whole { AreDigits (parts numeral.now).whole }
    requires fraction { AreDigits (parts numeral.now).fraction }
    ensures towards_zero { result.0
        ≡ capped (numerator (parts numeral.now) / denominator (parts numeral.now)) }
    ensures exact { result.1
        ≡ (numerator (parts numeral.now) % denominator (parts numeral.now) == 0) }
{
    let scale = scale_of(numeral.exponent);
    if numeral.exponent_negative {
        let len = numeral.whole.len();
        let (whole, below) = numeral.whole.split_at(len - len.min(scale as usize));
        let exact = are_zeros(below) && are_zeros(numeral.fraction);
        (more_digits(0, whole), exact)
    } else {
        let taken = numeral.fraction.len().min(scale as usize);
        let (above, below) = numeral.fraction.split_at(taken);
        let shown = more_digits(more_digits(0, numeral.whole), above);
        (with_zeros(shown, scale - taken as u64), are_zeros(below))
    }
}

fn ranged_number(negative: bool, magnitude: u64) -> Result<i64, NumberFault>
    ensures { result ≡ ranged negative magnitude }
{
    if magnitude > MAX_NUMBER {
        return Err(NumberFault::Range);
    }
    let number = magnitude as i64;
    Ok(if negative { -number } else { number })
}

/// The number of a number text, if it is whole.
fn whole_number(numeral: &Numeral<'_>) -> Result<i64, NumberFault>
    requires whole { AreDigits (parts numeral.now).whole }
    requires fraction { AreDigits (parts numeral.now).fraction }
    ensures { result ≡ whole_value (parts numeral.now) }
{
    match magnitude(numeral) {
        (number, true) => ranged_number(numeral.negative, number),
        (_, false) => Err(NumberFault::Fraction),
    }
}

/// The number of a text: that of its longest prefix that is number text, or 0 where no prefix is.
///
/// Number text is what POSIX awk calls a decimal-floating-constant (POSIX.1-2017 awk, "Expressions in awk"), after optional space bytes
/// and an optional sign; there is no hexadecimal, no infinity and no NaN. The number lies from -2^53 to 2^53.
///
/// # Errors
///
/// [`NumberFault::Fraction`] where the value is not whole, and else [`NumberFault::Range`] where it is outside the range.
#[tactic(auto, using(crate::proofs::Plain::digits_number))]
pub fn number_of(text: &[u8]) -> Result<i64, NumberFault>
    ensures value { result ≡ number_of_text text.now }
    ensures meaning { IsNumberOf IsWholeValue text.now result }
{
    if let Some(number) = plain_number(text) {
        return Ok(number);
    }
    match read_numeral(text) {
        None => Ok(0),
        Some((numeral, _)) => whole_number(&numeral),
    }
}

/// The number of a text as by [`number_of`], cut to the whole number towards 0.
///
/// # Errors
///
/// [`NumberFault::Range`] where the number that is cut is outside the range; never [`NumberFault::Fraction`].
#[tactic(auto, using(crate::proofs::Plain::digits_truncated))]
pub fn truncated_of(text: &[u8]) -> Result<i64, NumberFault>
    ensures value { result ≡ truncated_of_text text.now }
    ensures meaning { IsNumberOf IsTruncatedValue text.now result }
{
    if let Some(number) = plain_number(text) {
        return Ok(number);
    }
    match read_numeral(text) {
        None => Ok(0),
        Some((numeral, _)) => ranged_number(numeral.negative, magnitude(&numeral).0),
    }
}

/// Whether a text is number text with nothing but space bytes behind it, as a numeric string is (POSIX.1-2017 awk, "Expressions in awk").
#[tactic(auto, using(crate::proofs::Plain::digits_look))]
pub fn looks_numeric(text: &[u8]) -> bool
    ensures value { result ≡ looks_numeric_text text.now }
    ensures meaning { IsTrue result ↔ IsNumericLooking text.now }
{
    if !text.is_empty() && plain_number(text).is_some() {
        return true;
    }
    match read_numeral(text) {
        None => false,
        Some((_, rest)) => spaces(rest) == rest.len(),
    }
}

/// The number of a text of any bytes that looks numeric; none of another.
#[inline(never)]
fn numeric_otherwise(text: &[u8]) -> Option<Result<i64, NumberFault>>
    ensures { result ≡ (if looks_numeric_text text.now then Some (number_of_text text.now) else None) }
{
    let (numeral, rest) = read_numeral(text)?;
    if spaces(rest) == rest.len() {
        Some(whole_number(&numeral))
    } else {
        None
    }
}

/// The number of a text that looks numeric, as [`number_of`] gives it; none of one that does not, as [`looks_numeric`] tells. A text of digits alone is read once.
///
/// # Errors
///
/// As of [`number_of`].
#[tactic(auto, using(crate::proofs::Plain::digits_number, crate::proofs::Plain::digits_look))]
#[inline(always)]
pub fn numeric_of(text: &[u8]) -> Option<Result<i64, NumberFault>>
    ensures { result ≡ (if looks_numeric_text text.now then Some (number_of_text text.now) else None) }
{
    match plain_number(text) {
        Some(number) if !text.is_empty() => Some(Ok(number)),
        _ => numeric_otherwise(text),
    }
}

/// Whether the longest prefix that is number text has a mantissa digit other than 0; false where no prefix is number text.
///
/// This is the truth of a numeric string: it never faults, however long the exponent or the fraction.
pub fn is_nonzero(text: &[u8]) -> bool
    ensures value { result ≡ is_nonzero_text text.now }
    ensures meaning { IsTrue result ↔ IsNonzero text.now }
{
    match read_numeral(text) {
        None => false,
        Some((numeral, _)) => !(are_zeros(numeral.whole) & are_zeros(numeral.fraction)),
    }
}
