//! Values as conversions write them (POSIX.1-2017 awk, "Formatted output"; XBD 5), in whole numbers.
ghost use Rattle.std.specs.Prelude.{◌≡◌, ◌%◌, ◌++◌, [], Err, IfErr, IfOk, None, Ok, decimal, false, option_to_list, unsigned_abs};
ghost use Rattle.std.specs.Fmt.{digits};
ghost use Rattle.awk_values.specs.Values.{text_of_value};
ghost use Rattle.sem_primitives.specs.Formats.{Char, char_of, converted, first_bytes, fraction_text, hex_mark, integer_text, number_text, octal_mark, padded, sign_of, unsigned, with_precision};
ghost use Rattle.host_bytes.specs.Conversions.{begins_with_zero, body_text, conversion_is, places_text, whole_text};
ghost use Rattle.host_bytes.specs.Growing.{Grows};

use crate::conversion::{Conversion, Specifier, Whole};
use crate::digits::Digits;
use crate::growing::Growing;
use crate::padding::{Parts, put_number, put_padded_text};
use awk_text::{looks_numeric, text_of};
use awk_values::{Fault, Value, to_number, truncated};

/// What stands before the digits of a signed number.
fn sign_of(conversion: Conversion<'_>, number: i64) -> &'static [u8]
    ensures { result.now ≡ sign_of (conversion_is conversion.entry) number }
{
    if number < 0 {
        b"-"
    } else if conversion.has(b'+') {
        b"+"
    } else if conversion.has(b' ') {
        b" "
    } else {
        b""
    }
}

/// Adds a whole number with a sign or a mark.
fn put_integer(
    out: &mut Growing,
    conversion: Conversion<'_>,
    front: &[u8],
    number: u64,
    digits: Digits,
)
    ensures { Grows out.old out.new (Ok (integer_text (conversion_is conversion.entry) number
        front.now digits)) }
{
    let parts = Parts::whole(front, conversion.precision, number, digits.as_slice());
    put_number(out, conversion, conversion.precision, parts);
}

/// Whether digits begin with a 0.
fn begins_with_zero(digits: &[u8]) -> bool
    ensures { result ≡ begins_with_zero digits.now }
{
    match digits {
        [first, ..] => *first == b'0',
        [] => false,
    }
}

/// The parts of an octal number: with the flag `#` a 0 before digits that do not begin with one.
fn marked_octal<'a>(conversion: Conversion<'_>, parts: Parts<'a>) -> Parts<'a>
    ensures front { result.front.now ≡ parts.entry.front.now }
    ensures body { body_text result
        ≡ octal_mark (conversion_is conversion.entry) (body_text parts.entry) }
{
    let has_zero = parts.zeros > 0 || begins_with_zero(parts.digits);
    if conversion.has(b'#') && !has_zero {
        Parts { zeros: 1, ..parts }
    } else {
        parts
    }
}

/// Adds a number in octal.
fn put_octal(out: &mut Growing, conversion: Conversion<'_>, number: u64)
    ensures { Grows out.old out.new (Ok (number_text (conversion_is conversion.entry)
        conversion.entry.precision [] (octal_mark (conversion_is conversion.entry)
        (with_precision conversion.entry.precision number (digits 8 false number))))) }
{
    let digits = Digits::of(number, 8, false);
    let parts = Parts::whole(&[], conversion.precision, number, digits.as_slice());
    let parts = marked_octal(conversion, parts);
    put_number(out, conversion, conversion.precision, parts);
}

/// What stands before the digits of a hexadecimal number.
fn hex_mark(conversion: Conversion<'_>, number: u64, mark: &'static [u8]) -> &'static [u8]
    ensures { result.now ≡ hex_mark (conversion_is conversion.entry) number mark.now }
{
    if conversion.has(b'#') && number != 0 {
        mark
    } else {
        b""
    }
}

/// Adds a whole number. Its bits are those of a number without a sign, where it is written as one.
fn put_whole(out: &mut Growing, conversion: Conversion<'_>, whole: Whole, number: i64)
    ensures { Grows out.old out.new
        (Ok (whole_text (conversion_is conversion.entry) whole number)) }
{
    let bits = number.cast_unsigned();
    match whole {
        Whole::Signed => {
            let size = number.unsigned_abs();
            let sign = sign_of(conversion, number);
            put_integer(out, conversion, sign, size, Digits::of(size, 10, false));
        }
        Whole::Octal => put_octal(out, conversion, bits),
        Whole::Unsigned => {
            put_integer(out, conversion, &[], bits, Digits::of(bits, 10, false));
        }
        Whole::LowerHex => {
            let mark = hex_mark(conversion, bits, b"0x");
            put_integer(out, conversion, mark, bits, Digits::of(bits, 16, false));
        }
        Whole::UpperHex => {
            let mark = hex_mark(conversion, bits, b"0X");
            put_integer(out, conversion, mark, bits, Digits::of(bits, 16, true));
        }
    }
}

/// How many zeros stand after the point of a number that is whole, if the point stands.
fn places_of(conversion: Conversion<'_>) -> Option<usize>
    ensures { places_text result
        ≡ fraction_text (conversion_is conversion.entry) conversion.entry.precision }
{
    match conversion.precision {
        None => Some(6),
        Some(0) => { if conversion.has(b'#') { Some(0) } else { None } }
        Some(places) => Some(places),
    }
}

/// Adds a number with a point and places.
fn put_fixed(out: &mut Growing, conversion: Conversion<'_>, number: i64)
    ensures { Grows out.old out.new (Ok (number_text (conversion_is conversion.entry) None
        (sign_of (conversion_is conversion.entry) number) (decimal (unsigned_abs number)
        ++ fraction_text (conversion_is conversion.entry) conversion.entry.precision))) }
{
    let digits = Digits::of(number.unsigned_abs(), 10, false);
    let parts = Parts {
        front: sign_of(conversion, number),
        zeros: 0,
        digits: digits.as_slice(),
        places: places_of(conversion),
    };
    put_number(out, conversion, None, parts);
}

/// Adds a text, cut to the precision.
fn put_text(out: &mut Growing, conversion: Conversion<'_>, text: &[u8])
    ensures { Grows out.old out.new (Ok (padded (conversion_is conversion.entry)
        (first_bytes conversion.entry.precision text.now))) }
{
    let most = conversion.precision.unwrap_or(text.len());
    put_padded_text(out, conversion, &text[..most.min(text.len())]);
}

/// Adds the text of a value.
fn put_string(out: &mut Growing, conversion: Conversion<'_>, value: &Value)
    ensures { Grows out.old out.new (Ok (padded (conversion_is conversion.entry)
        (first_bytes conversion.entry.precision (text_of_value value.now)))) }
{
    match value {
        Value::Uninit => put_text(out, conversion, &[]),
        Value::Num(number) => put_text(out, conversion, text_of(*number).as_bytes()),
        Value::Text(text) | Value::StrNum(text) => put_text(out, conversion, text.as_slice()),
    }
}

/// The byte of a number, modulo 256.
fn byte_of(number: i64) -> u8
    ensures { result ≡ unsigned number % 256 }
{
    (number.cast_unsigned() % 256) as u8
}

/// The byte that `c` writes of a value: that of a number, or the first of a text.
fn char_of(value: &Value) -> Result<Option<u8>, Fault>
    ensures ok { IfOk result (λ byte. char_of value.now ≡ Ok (option_to_list byte)) }
    ensures err { IfErr result (λ fault. char_of value.now ≡ Err fault) }
{
    match value {
        Value::Uninit => Ok(None),
        Value::Num(number) => Ok(Some(byte_of(*number))),
        Value::Text(text) => Ok(text.as_slice().first().copied()),
        Value::StrNum(text) => {
            if looks_numeric(text.as_slice()) {
                Ok(Some(byte_of(truncated(value)?)))
            } else {
                Ok(text.as_slice().first().copied())
            }
        }
    }
}

/// Adds the byte that `c` writes of a value, if there is one.
fn put_char(out: &mut Growing, conversion: Conversion<'_>, value: &Value)
    ensures { Grows out.old out.new
        (converted (conversion_is conversion.entry) Char value.now) }
{
    match char_of(value) {
        Ok(None) => put_padded_text(out, conversion, &[]),
        Ok(Some(byte)) => put_padded_text(out, conversion, &[byte]),
        Err(fault) => out.refuse(fault),
    }
}

/// Adds what a conversion makes of a value.
pub(crate) fn put_converted(out: &mut Growing, conversion: Conversion<'_>, value: &Value)
    ensures { Grows out.old out.new (converted (conversion_is conversion.entry)
        (conversion_is conversion.entry).specifier value.now) }
{
    match conversion.specifier {
        Specifier::Whole(whole) => match truncated(value) {
            Ok(number) => put_whole(out, conversion, whole, number),
            Err(fault) => out.refuse(fault),
        },
        Specifier::Fixed => match to_number(value) {
            Ok(number) => put_fixed(out, conversion, number),
            Err(fault) => out.refuse(fault),
        },
        Specifier::Text => put_string(out, conversion, value),
        Specifier::Char => put_char(out, conversion, value),
    }
}
