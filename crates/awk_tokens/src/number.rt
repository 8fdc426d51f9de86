//! The longest number at the front of bytes.

ghost use Rattle.std.specs.Prelude.{◌≡◌, ◌≤◌, length, IfSome};
ghost use Rattle.awk_tokens.specs.Numbers.{is_digit, begins_digit};
ghost use Rattle.awk_tokens.specs.Reading.{digit_count, some_count, scale_at, exponent_length, digits_length, fraction_length, number_of};

fn digits(bytes: &[u8]) -> usize
    ensures count { result ≡ digit_count bytes.now }
    ensures within { result ≤ length bytes.now }
{
    bytes
        .iter()
        .take_while(|b| b'0' <= **b && **b <= b'9')
        .count()
}

fn some_digits(bytes: &[u8]) -> Option<usize>
    ensures count { result ≡ some_count (digit_count bytes.now) }
    ensures within { IfSome result (λ n. n ≤ length bytes.now) }
{
    match digits(bytes) {
        0 => None,
        count => Some(count),
    }
}

/// How long the digits at the front are, with a sign before them or without.
#[tactic(auto, unfolding(crate::specs::Reading::scale_at))]
fn scale(bytes: &[u8]) -> Option<usize>
    ensures count { result ≡ scale_at bytes.now }
    ensures within { IfSome result (λ n. n ≤ length bytes.now) }
{
    match bytes {
        [b'+' | b'-', rest @ ..] => some_digits(rest).map(|count| count + 1),
        _ => some_digits(bytes),
    }
}

/// How long the exponent at the front is; no mark counts without digits.
#[tactic(auto, unfolding(crate::specs::Reading::exponent_length))]
fn exponent(bytes: &[u8]) -> usize
    ensures count { result ≡ exponent_length bytes.now }
    ensures within { result ≤ length bytes.now }
{
    match bytes {
        [b'e' | b'E', rest @ ..] => match scale(rest) {
            Some(count) => count + 1,
            None => 0,
        },
        _ => 0,
    }
}

fn digits_and_exponent(bytes: &[u8]) -> usize
    ensures count { result ≡ digits_length bytes.now }
    ensures within { result ≤ length bytes.now }
{
    let count = digits(bytes);
    count + exponent(&bytes[count..])
}

#[tactic(auto, unfolding(crate::specs::Reading::fraction_length, crate::specs::Reading::exponent_length))]
fn fraction(bytes: &[u8]) -> usize
    ensures count { result ≡ fraction_length bytes.now }
    ensures within { result ≤ length bytes.now }
{
    match bytes {
        [b'.', rest @ ..] => digits_and_exponent(rest) + 1,
        _ => exponent(bytes),
    }
}

/// How many bytes of the longest number stand after its first byte.
#[tactic(auto, unfolding(crate::specs::Reading::number_at))]
pub(crate) fn number(bytes: &[u8]) -> Option<usize>
    ensures { result ≡ number_of bytes.now }
{
    match bytes {
        [b'0'..=b'9', rest @ ..] => {
            let count = digits(rest);
            Some(count + fraction(&rest[count..]))
        }
        [b'.', rest @ ..] => match rest {
            [b'0'..=b'9', ..] => Some(digits_and_exponent(rest)),
            _ => None,
        },
        _ => None,
    }
}
