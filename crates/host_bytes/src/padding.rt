//! Texts of conversions, and how they fill their width.
ghost use Rattle.std.specs.Prelude.{◌≡◌, ◌-◌, Ok, length};
ghost use Rattle.sem_primitives.specs.Formats.{filled, number_text, padded, with_precision};
ghost use Rattle.host_bytes.specs.Conversions.{body_text, conversion_is, parts_text, places_text};
ghost use Rattle.host_bytes.specs.Growing.{Grows};

use crate::conversion::Conversion;
use crate::growing::Growing;

/// The text of a number but for its padding, in parts.
#[derive(Clone, Copy)]
pub(crate) struct Parts<'a> {
    /// What stands before the digits.
    pub(crate) front: &'a [u8],
    /// How many zeros stand before the digits.
    pub(crate) zeros: usize,
    pub(crate) digits: &'a [u8],
    /// How many zeros stand after the point, if there is one.
    pub(crate) places: Option<usize>,
}

impl<'a> Parts<'a> {
    /// A number, with the least count of digits that a precision asks for. A precision of 0 asks for none of the number 0.
    pub(crate) fn whole(
        front: &'a [u8],
        precision: Option<usize>,
        number: u64,
        digits: &'a [u8],
    ) -> Parts<'a>
        ensures front { result.front.now ≡ front.now }
        ensures body { body_text result ≡ with_precision precision number digits.now }
    {
        let (zeros, digits) = match precision {
            None => (0, digits),
            Some(least) => {
                if least == 0 && number == 0 {
                    (0, &digits[..0])
                } else {
                    (least.saturating_sub(digits.len()), digits)
                }
            }
        };
        Parts {
            front,
            zeros,
            digits,
            places: None,
        }
    }

    /// How far the text is short of a width.
    fn gap(self, width: usize) -> usize
        ensures { result ≡ width - length (parts_text self.entry) }
    {
        let gap = width
            .saturating_sub(self.front.len())
            .saturating_sub(self.zeros)
            .saturating_sub(self.digits.len());
        match self.places {
            None => gap,
            Some(places) => gap.saturating_sub(1).saturating_sub(places),
        }
    }

    /// The same with zeros before the digits up to a width.
    fn filled(self, width: usize) -> Parts<'a>
        ensures front { result.front.now ≡ self.entry.front.now }
        ensures body { body_text result
            ≡ filled (width - length self.entry.front.now) (body_text self.entry) }
    {
        let bare = Parts { zeros: 0, ..self };
        let zeros = self.zeros.max(bare.gap(width));
        Parts { zeros, ..self }
    }
}

/// Adds a text in parts.
fn put_parts(out: &mut Growing, parts: Parts<'_>)
    ensures { Grows out.old out.new (Ok (parts_text parts.entry)) }
{
    out.put(parts.front);
    out.fill(b'0', parts.zeros);
    out.put(parts.digits);
    if let Some(places) = parts.places {
        out.put(b".");
        out.fill(b'0', places);
    }
}

/// Adds a text at the right end of its width, or with the flag `-` at the left end.
pub(crate) fn put_padded_text(out: &mut Growing, conversion: Conversion<'_>, text: &[u8])
    ensures { Grows out.old out.new (Ok (padded (conversion_is conversion.entry) text.now)) }
{
    let gap = conversion.width.saturating_sub(text.len());
    if conversion.has(b'-') {
        out.put(text);
        out.fill(b' ', gap);
    } else {
        out.fill(b' ', gap);
        out.put(text);
    }
}

/// Adds the text of a number, whose front is its sign or its mark, as [`put_padded_text`] does. Zeros stand before the digits where the flag `0` counts.
pub(crate) fn put_number(
    out: &mut Growing,
    conversion: Conversion<'_>,
    precision: Option<usize>,
    parts: Parts<'_>,
)
    ensures { Grows out.old out.new (Ok (number_text (conversion_is conversion.entry) precision
        parts.entry.front.now (body_text parts.entry))) }
{
    let is_filled = precision.is_none() && conversion.has(b'0') && !conversion.has(b'-');
    let parts = if is_filled {
        parts.filled(conversion.width)
    } else {
        parts
    };
    let gap = parts.gap(conversion.width);
    if conversion.has(b'-') {
        put_parts(out, parts);
        out.fill(b' ', gap);
    } else {
        out.fill(b' ', gap);
        put_parts(out, parts);
    }
}
