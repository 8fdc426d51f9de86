//! Intervals: the counts in braces.
ghost use Rattle.std.specs.Prelude.{◌≡◌, ◌≤◌, option_map, min, true, ◌+◌, ◌*◌, ◌-◌};
ghost use Rattle.ere_syntax.specs.Readers.{digits_at};
ghost use Rattle.ere_syntax.specs.Signs.{is_digit};
ghost use Rattle.ere_syntax.specs.Counts.{begins_number, closing, counted, counts_and, fitting, saturated, times_and, upto};

use crate::bracket::{behind, starts};
use crate::tree::Times;

/// The greatest count of an interval.
const MAX_COUNT: u16 = 255;

/// A count past this one is kept as this one, which no repetition takes.
const PAST: u16 = MAX_COUNT + 1;

/// The counts of an interval as they are written, those past `PAST` as `PAST`.
#[derive(Clone, Copy)]
pub(crate) struct Counts {
    low: u16,
    high: Option<u16>,
}

impl Counts {
    /// The counts, where the first is not past the second and neither is past `MAX_COUNT`.
    pub(crate) fn times(self) -> Option<Times>
        ensures { option_map (λ t. times_and t.low t.high) result ≡ fitting self.low self.high }
    {
        match self.high {
            None => {
                if self.low <= MAX_COUNT {
                    Some(Times {
                        low: self.low as u8,
                        high: None,
                    })
                } else {
                    None
                }
            }
            Some(high) => {
                if self.low <= high && high <= MAX_COUNT {
                    Some(Times {
                        low: self.low as u8,
                        high: Some(high as u8),
                    })
                } else {
                    None
                }
            }
        }
    }
}

fn is_digit(byte: u8) -> bool
    ensures { result ≡ is_digit byte }
{
    b'0' <= byte && byte <= b'9'
}

fn begins_number(text: &[u8]) -> bool
    ensures { result ≡ begins_number text.now }
{
    match text {
        [first, ..] => is_digit(*first),
        [] => false,
    }
}

/// The number with one more digit.
fn longer(number: u16, digit: u8) -> u16
    requires room { number ≤ 256 }
    requires is_digit { is_digit digit ≡ true }
    ensures small { result ≤ 256 }
    ensures value { result ≡ min (number * 10 + (digit - 48)) 256 }
{
    let longer = number * 10 + u16::from(digit - b'0');
    if longer < PAST { longer } else { PAST }
}

/// The number of the digits at the front, and what follows them.
fn digits(text: &[u8]) -> (u16, &[u8])
    ensures number { result.0 ≡ saturated 0 (digits_at text.now).0 }
    ensures rest { result.1.now ≡ (digits_at text.now).1 }
{
    let mut number = 0u16;
    for (place, byte) in text.iter().enumerate() {
        if !is_digit(*byte) {
            return (number, &text[place..]);
        }
        number = longer(number, *byte);
    }
    (number, &text[text.len()..])
}

/// The counts, where the closing brace stands at the front.
fn closing(low: u16, high: Option<u16>, text: &[u8]) -> Option<(Counts, &[u8])>
    ensures { option_map (λ x. counts_and x.0.low x.0.high x.1.now) result
        ≡ closing low high text.now }
{
    if starts(b'}', text) {
        Some((Counts { low, high }, behind(text)))
    } else {
        None
    }
}

/// The counts, behind the comma.
fn upto(low: u16, text: &[u8]) -> Option<(Counts, &[u8])>
    ensures { option_map (λ x. counts_and x.0.low x.0.high x.1.now) result ≡ upto low text.now }
{
    if begins_number(text) {
        let (high, rest) = digits(text);
        closing(low, Some(high), rest)
    } else {
        closing(low, None, text)
    }
}

/// The counts of the interval that begins here, behind its brace, and what follows it; nothing where none begins.
pub(crate) fn interval(text: &[u8]) -> Option<(Counts, &[u8])>
    ensures { option_map (λ x. counts_and x.0.low x.0.high x.1.now) result ≡ counted text.now }
{
    if !begins_number(text) {
        return None;
    }
    let (low, rest) = digits(text);
    if starts(b',', rest) {
        upto(low, behind(rest))
    } else {
        closing(low, Some(low), rest)
    }
}
