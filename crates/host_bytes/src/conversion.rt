//! Conversions of a format, and how they are read.
ghost use Rattle.std.specs.Prelude.{◌≡◌, ◌≤◌, IfSome, MatchOption, length, option_map, take_while};
ghost use Rattle.awk_text.specs.Number.{value_after};
ghost use Rattle.awk_text.specs.Reading.{digits_at, is_digit};
ghost use Rattle.sem_primitives.specs.Formats.{Converts, Malformed, conversion_at, has_flag, is_flag, precision_at, specifier_of};
ghost use Rattle.host_bytes.specs.Conversions.{conversion_is, cut, piece_is, specifier_is, wide_at};

/// A width and a precision are at most this.
const MOST_WIDTH: usize = 65_535;

/// What the letter of a conversion asks for.
#[derive(Clone, Copy)]
pub(crate) enum Specifier {
    Whole(Whole),
    Fixed,
    Text,
    Char,
}

/// How a whole number is written.
#[derive(Clone, Copy)]
pub(crate) enum Whole {
    Signed,
    Octal,
    Unsigned,
    LowerHex,
    UpperHex,
}

/// A conversion of a format.
#[derive(Clone, Copy)]
pub(crate) struct Conversion<'a> {
    /// The flags, as they stand in the format.
    pub(crate) flags: &'a [u8],
    pub(crate) width: usize,
    pub(crate) precision: Option<usize>,
    pub(crate) specifier: Specifier,
}

impl Conversion<'_> {
    /// Whether a flag stands in it.
    pub(crate) fn has(self, flag: u8) -> bool
        ensures { result ≡ has_flag flag (conversion_is self.entry) }
    {
        self.flags.contains(&flag)
    }
}

/// What a percent sign and what follows it stand for.
#[derive(Clone, Copy)]
pub(crate) enum Directive<'a> {
    /// A percent sign.
    Percent,
    Converts(Conversion<'a>),
}

fn count_flags(text: &[u8]) -> usize
    ensures { result ≡ length (take_while is_flag text.now) }
{
    text.iter()
        .take_while(|b| **b == b'-' || **b == b'+' || **b == b' ' || **b == b'#' || **b == b'0')
        .count()
}

fn count_digits(text: &[u8]) -> usize
    ensures { result ≡ length (take_while is_digit text.now) }
{
    text.iter()
        .take_while(|b| b'0' <= **b && **b <= b'9')
        .count()
}

/// The number that digits stand for, cut to one past the greatest width.
#[tactic(auto, using(awk_text::proofs::Values::cut_step))]
fn number_of(digits: &[u8]) -> usize
    ensures { result ≡ cut (value_after 0 digits.now) }
{
    let mut number = 0usize;
    for digit in digits {
        let next = number * 10 + usize::from(digit.saturating_sub(b'0'));
        number = next.min(MOST_WIDTH + 1);
    }
    number
}

/// The number of the digits at the front, cut to one past the greatest width, and what follows.
fn split_number(text: &[u8]) -> (usize, &[u8])
    ensures value { result.0 ≡ cut (value_after 0 (digits_at text.now).0) }
    ensures rest { result.1.now ≡ (digits_at text.now).1 }
    ensures shorter { length result.1.now ≤ length text.now }
{
    let (digits, rest) = text.split_at(count_digits(text));
    (number_of(digits), rest)
}

/// What the point and its digits say, cut to one past the greatest precision, and what follows.
fn split_precision(text: &[u8]) -> (Option<usize>, &[u8])
    ensures value { result.0 ≡ option_map cut (precision_at text.now).0 }
    ensures rest { result.1.now ≡ (precision_at text.now).1 }
    ensures shorter { length result.1.now ≤ length text.now }
{
    match text {
        [b'.', rest @ ..] => {
            let (number, rest) = split_number(rest);
            (Some(number), rest)
        }
        _ => (None, text),
    }
}

/// What a letter asks for.
fn specifier_of(letter: u8) -> Option<Specifier>
    ensures { option_map specifier_is result ≡ specifier_of letter }
{
    match letter {
        b'd' | b'i' => Some(Specifier::Whole(Whole::Signed)),
        b'o' => Some(Specifier::Whole(Whole::Octal)),
        b'u' => Some(Specifier::Whole(Whole::Unsigned)),
        b'x' => Some(Specifier::Whole(Whole::LowerHex)),
        b'X' => Some(Specifier::Whole(Whole::UpperHex)),
        b'f' => Some(Specifier::Fixed),
        b's' => Some(Specifier::Text),
        b'c' => Some(Specifier::Char),
        _ => None,
    }
}

/// The conversion at the front, and what follows it, if there is one.
fn split_conversion(text: &[u8]) -> Option<(Conversion<'_>, &[u8])>
    ensures value { MatchOption result ((wide_at text.now).0 ≡ Malformed)
        (λ x. wide_at text.now ≡ (Converts (conversion_is x.0), x.1.now)) }
    ensures shorter { IfSome result (λ x. length x.1.now ≤ length text.now) }
{
    let (flags, rest) = text.split_at(count_flags(text));
    let (width, rest) = split_number(rest);
    let (precision, rest) = split_precision(rest);
    let [letter, rest @ ..] = rest else {
        return None;
    };
    let specifier = specifier_of(*letter)?;
    if width.max(precision.unwrap_or(0)) > MOST_WIDTH {
        return None;
    }
    let conversion = Conversion {
        flags,
        width,
        precision,
        specifier,
    };
    Some((conversion, rest))
}

/// What a percent sign before this text stands for, and what follows that, unless it is malformed.
pub(crate) fn split_directive(text: &[u8]) -> Option<(Directive<'_>, &[u8])>
    ensures value { MatchOption result ((conversion_at text.now).0 ≡ Malformed)
        (λ x. conversion_at text.now ≡ (piece_is x.0, x.1.now)) }
    ensures shorter { IfSome result (λ x. length x.1.now ≤ length text.now) }
{
    match text {
        [b'%', rest @ ..] => Some((Directive::Percent, rest)),
        _ => {
            let (conversion, rest) = split_conversion(text)?;
            Some((Directive::Converts(conversion), rest))
        }
    }
}
