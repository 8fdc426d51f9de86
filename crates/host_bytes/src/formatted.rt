//! Formatting.
ghost use Rattle.std.specs.Prelude.{◌≡◌, IfErr, IfOk, None, Ok, OnOk, []};
ghost use Rattle.sem_primitives.specs.Formats.{formatted};
ghost use Rattle.host_bytes.specs.Conversions.{piece_is};
ghost use Rattle.host_bytes.specs.Growing.{Grows, IsMade};
ghost use Rattle.host_bytes.specs.Outcomes.{IsStopOf};
ghost use Rattle.host_bytes.specs.Steps.{IsLeftBy, step, text_of_step};

use crate::conversion::{Directive, split_directive};
use crate::converted::put_converted;
use crate::growing::Growing;
use awk_values::{Bytes, Fault, Stop, Value};
use memchr::memchr;
use std::alloc::Global;
use std::mem;

/// The least room that a new text begins with: most texts are longer than their format.
const ROOM: usize = 24;

/// Adds what a directive stands for, and gives the values that are left.
fn put_directive<'a>(
    out: &mut Growing,
    directive: Directive<'_>,
    values: &'a [Value],
) -> &'a [Value]
    ensures text { Grows out.old out.new (text_of_step (step (piece_is directive.entry) values.now)) }
    ensures left { IsLeftBy (step (piece_is directive.entry) values.now) result.now }
{
    match directive {
        Directive::Percent => {
            out.put(b"%");
            values
        }
        Directive::Converts(conversion) => {
            let [value, left @ ..] = values else {
                out.refuse(Fault::Format);
                return values;
            };
            put_converted(out, conversion, value);
            left
        }
    }
}

/// Adds the text of a format and values to an empty text.
fn put_formatted(out: &mut Growing, format: &[u8], values: &[Value])
    requires empty { out.old.bytes.items ≡ [] }
    requires open { out.old.stop ≡ None }
    ensures { IsMade out.new.stop out.new.bytes.items (formatted format.now values.now) }
{
    let mut rest = format;
    let mut left = values;
    while let Some(at) = memchr(b'%', rest) {
        out.put(&rest[..at]);
        let Some((directive, after)) = split_directive(&rest[at + 1..]) else {
            out.refuse(Fault::Format);
            return;
        };
        left = put_directive(out, directive, left);
        rest = after;
    }
    out.put(rest);
}

/// Makes a text that of a format and values, in the room that it has (POSIX.1-2017 awk, "Formatted output"; XBD 5). A conversion is a percent sign,
/// flags of `-`, `+`, space, `#` and `0`, a width, a point with a precision, and one of `d i o x X u c s f`; width and precision are at most 65,535.
/// `%%` is a percent sign. Values that are left over do not count.
///
/// # Errors
///
/// In the order of the format: `Format` where a conversion is malformed or lacks a value, `Range` and `Fraction` of a value's number, and
/// `TextLimit` where the text so far is past 67,108,864 bytes. [`Stop::NoMemory`] beside these. The text may be any then.
pub fn format_into(out: &mut Vec<u8>, format: &[u8], values: &[Value]) -> Result<(), Stop>
    ensures ok { OnOk result (formatted format.now values.now ≡ Ok out.new.items) }
    ensures err { IfErr result (IsStopOf (formatted format.now values.now)) }
{
    let alloc = *out.allocator();
    out.clear();
    let mut text = Growing {
        bytes: mem::replace(out, Vec::new(alloc)),
        stop: None,
    };
    put_formatted(&mut text, format, values);
    let Growing { bytes, stop } = text;
    *out = bytes;
    match stop {
        None => Ok(()),
        Some(stop) => Err(stop),
    }
}

/// The text of a format and values, as [`format_into`] makes it.
///
/// # Errors
///
/// Those of [`format_into`].
pub fn format(alloc: Global, format: &[u8], values: &[Value]) -> Result<Bytes, Stop>
    ensures ok { IfOk result (λ text. formatted format.now values.now ≡ Ok text) }
    ensures err { IfErr result (IsStopOf (formatted format.now values.now)) }
{
    let mut out = Vec::with_capacity(alloc, format.len().max(ROOM))?;
    format_into(&mut out, format, values)?;
    Ok(Bytes::from_vec(out)?)
}
