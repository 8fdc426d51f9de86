//! What separates fields, kept from one record to the next.
ghost use Rattle.std.specs.Prelude.{◌≡◌, IfErr, IfOk, OnOk};
ghost use Rattle.sem_primitives.specs.Fields.{separator_of};
ghost use Rattle.host_bytes.specs.Outcomes.{IsStopOf};
ghost use Rattle.host_format.specs.Separators.{Separates};
ghost use Rattle.host_fields.specs.Splits.{AreFields, IsKept};

use awk_values::Stop;
use host_format::{Sep, Span, split_into};
use std::alloc::Global;

/// What separated the last fields, and the FS that meant it.
#[derive(Drop)]
pub(crate) struct LastSep {
    fs: Vec<u8>,
    sep: Sep,
}

/// The separator of an FS.
fn sep_of(alloc: Global, fs: &[u8]) -> Result<LastSep, Stop>
    ensures ok { IfOk result (λ last. (last.fs.items ≡ fs.now) × Separates fs.now last.sep) }
    ensures err { IfErr result (IsStopOf (separator_of fs.now)) }
{
    let sep = Sep::of(alloc, fs)?;
    let fs = Vec::from_slice(alloc, fs)?;
    Ok(LastSep { fs, sep })
}

/// Puts the fields of a text, as parts of it, in the place of these parts, by a separator that is read anew. It stands apart for its large locals.
#[inline(never)]
fn split_anew(
    spans: &mut Vec<Span>,
    last: &mut Option<LastSep>,
    text: &[u8],
    fs: &[u8],
    newlines: bool,
) -> Result<(), Stop>
    requires { IsKept last.old }
    ensures ok { OnOk result (AreFields fs.now newlines text.now spans.new.items) }
    ensures err { IfErr result (IsStopOf (separator_of fs.now)) }
    ensures kept { IsKept last.new }
{
    let mut fresh = sep_of(*spans.allocator(), fs)?;
    split_into(spans, text, &mut fresh.sep, newlines)?;
    *last = Some(fresh);
    Ok(())
}

/// Puts the fields of a text, as parts of it, in the place of these parts. An expression is read and built only where FS is another than at the last
/// record.
pub(crate) fn split(
    spans: &mut Vec<Span>,
    last: &mut Option<LastSep>,
    text: &[u8],
    fs: &[u8],
    newlines: bool,
) -> Result<(), Stop>
    requires { IsKept last.old }
    ensures ok { OnOk result (AreFields fs.now newlines text.now spans.new.items) }
    ensures err { IfErr result (IsStopOf (separator_of fs.now)) }
    ensures kept { IsKept last.new }
{
    if let Some(last) = last {
        if last.fs.as_slice() == fs {
            return split_into(spans, text, &mut last.sep, newlines);
        }
    }
    split_anew(spans, last, text, fs, newlines)
}
