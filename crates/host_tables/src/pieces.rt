//! The pieces of a value's text.
ghost use Rattle.std.specs.Prelude.{◌≡◌, IfErr, IfNone, IfOk, IfSome, false, true};
ghost use Rattle.awk_values.specs.Values.{text_of_value};
ghost use Rattle.awk_values.specs.declared.fault.Stop.TheVariants as stops;
ghost use Rattle.sem_primitives.specs.Fields.{Separator, pieces_of};
ghost use Rattle.sem_primitives.specs.TextMeaning.{splits_at};
ghost use Rattle.host_bytes.specs.Outcomes.{IsStopOf};
ghost use Rattle.host_format.specs.Separators.{IsAnySep, IsSep};
ghost use Rattle.host_format.specs.Spans.{AreSpans};
ghost use Rattle.host_tables.specs.Splits.{ArePieces, IsFound, Parts};

use awk_values::{Bytes, Fault, Stop, Value, to_text};
use host_format::{Expressions, Sep, Span, split_text};
use std::alloc::{AllocError, Global};

/// The pieces of a text at a separator.
fn plain_pieces(alloc: Global, text: Bytes, mut sep: Sep) -> Result<(Bytes, Vec<Span>), Stop>
    requires { IsAnySep sep }
    ensures ok { (s : Separator) → IsSep sep s
        → IfOk result (λ x. (x.0 ≡ text) × AreSpans x.0 x.1.items (pieces_of s false x.0)) }
    ensures err { IfErr result (λ stop. stop ≡ stops.NoMemory) }
{
    let spans = split_text(alloc, text.as_slice(), &mut sep, false)?;
    Ok((text, spans))
}

/// The separator that a value's text means, unless it is an expression.
fn plain(between: &Bytes, is_ere: bool) -> Option<Sep>
    ensures some { IfSome result (λ sep. Parts (splits_at is_ere between.now) sep) }
    ensures any { IfSome result IsAnySep }
    ensures none { IfNone result (splits_at is_ere between.now ≡ splits_at true between.now) }
{
    if is_ere {
        return None;
    }
    Sep::plain(between.as_slice())
}

/// The text of a value, and its pieces as parts of it.
fn pieces(
    alloc: Global,
    expressions: &mut Expressions,
    value: &Value,
    between: &Value,
    is_ere: bool,
) -> Result<(Bytes, Vec<Span>), Stop>
    ensures ok { IfOk result (λ x. ArePieces (text_of_value value.now)
        (splits_at is_ere (text_of_value between.now)) x.0 x.1.items) }
    ensures err { IfErr result (IsStopOf (splits_at is_ere (text_of_value between.now))) }
{
    let between = to_text(alloc, between)?;
    let text = to_text(alloc, value)?;
    if let Some(sep) = plain(&between, is_ere) {
        return plain_pieces(alloc, text, sep);
    }
    let matcher = expressions.automaton(alloc, &between)?;
    let spans = matcher.split(alloc, text.as_slice())?;
    Ok((text, spans))
}

/// What splitting comes to: the text of a value and its pieces, or a fault.
pub(crate) fn split_outcome(
    alloc: Global,
    expressions: &mut Expressions,
    value: &Value,
    between: &Value,
    is_ere: bool,
) -> Result<Result<(Bytes, Vec<Span>), Fault>, AllocError>
    ensures { IfOk result (λ found. IsFound (text_of_value value.now)
        (splits_at is_ere (text_of_value between.now)) found) }
{
    match pieces(alloc, expressions, value, between, is_ere) {
        Ok(found) => Ok(Ok(found)),
        Err(Stop::Fault(fault)) => Ok(Err(fault)),
        Err(Stop::NoMemory) => Err(AllocError),
    }
}
