//! The text that a call of the host was given and that has the error which the call kept.
ghost use Rattle.std.specs.Prelude.{◌≡◌, ◌↔◌, Err, IfSome, IsTrue, true};
ghost use Rattle.run_modules.specs.Seen.{IsAbout};
ghost use Rattle.host_calls.specs.Runs.{sight};
ghost use Rattle.sem_primitives.specs.Eres.{expression_of};

use awk_values::{Bytes, Fault, Stop, Value, to_number, to_text, truncated};
use host_calls::{Host, Import, Special, VariadicImport};
use host_format::Matcher;
use run_report::Subject;
use script_places::{CodeBefore, Push};
use sem_primitives::Primitive;
use std::alloc::Global;
use wasm_machine::Machine;
use world_core::World;

/// A text that was an operand; where the code that put it on the stack begins, and where what it is made of was read first.
#[derive(Drop)]
struct Found {
    text: Bytes,
    start: usize,
    read: usize,
}

/// How many operands may stand in each other.
const MOST_NESTED: usize = 40;

/// The text of a value.
fn text_of(alloc: Global, value: &Value) -> Option<Bytes> {
    to_text(alloc, value).ok()
}

/// A text of the module's memory.
fn literal(alloc: Global, machine: &Machine, from: u32, size: u32) -> Option<Bytes> {
    let end = (from as usize).checked_add(size as usize)?;
    let bytes = machine.memory().get(from as usize..end)?;
    Bytes::from_slice(alloc, bytes).ok()
}

/// The special variable of a number, but NF.
fn special_of(number: u32) -> Option<Special> {
    match number {
        0 => Some(Special::Argc),
        1 => Some(Special::Convfmt),
        2 => Some(Special::Filename),
        3 => Some(Special::Fnr),
        4 => Some(Special::Fs),
        6 => Some(Special::Nr),
        7 => Some(Special::Ofmt),
        8 => Some(Special::Ofs),
        9 => Some(Special::Ors),
        10 => Some(Special::Rlength),
        11 => Some(Special::Rs),
        12 => Some(Special::Rstart),
        13 => Some(Special::Subsep),
        _ => None,
    }
}

/// The value of a field; none where its number is out of range, or there is no memory.
fn field_value<W: World>(alloc: Global, host: &Host<W>, number: i64) -> Option<Value> {
    match host.field(number) {
        Ok(view) => view.value(alloc).ok(),
        Err(_) => None,
    }
}

/// The text of an operand that is not made of others.
fn simple_text<W: World>(
    alloc: Global,
    code: &CodeBefore<'_>,
    host: &mut Host<W>,
    push: Push,
) -> Option<Found>
    ensures { sight W.state host.new ≡ sight W.state host.old }
{
    let (text, start, read) = match push {
        Push::Held { start, handle } => (text_of(alloc, host.value(handle)?)?, start, start),
        Push::Field { start, number } => {
            let value = field_value(alloc, host, number.bits.cast_signed())?;
            (text_of(alloc, &value)?, start, number.read.min(start))
        }
        Push::Literal { start, from, size } => {
            (literal(alloc, code.machine, from, size)?, start, start)
        }
        Push::Number { start, number } => {
            let value = Value::Num(number.bits.cast_signed());
            (text_of(alloc, &value)?, start, number.read.min(start))
        }
        Push::Special { start, number } => {
            (host.special_text(special_of(number)?).ok()?, start, start)
        }
        Push::Moved { .. } | Push::Element | Push::Joined => return None,
    };
    Some(Found { text, start, read })
}

/// The text of an element, by the text of its key.
fn element_text<W: World>(
    alloc: Global,
    code: &CodeBefore<'_>,
    host: &Host<W>,
    key: Found,
) -> Option<Found> {
    let array = code.array(key.start)?;
    let text = text_of(alloc, host.element(array, &key.text)?)?;
    let start = key.start.checked_sub(1)?;
    Some(Found {
        text,
        start,
        read: key.read.min(start),
    })
}

/// Two texts as one.
fn joined(alloc: Global, left: Found, right: Found) -> Option<Found> {
    let mut text = Vec::new(alloc);
    text.extend_from_slice(left.text.as_slice()).ok()?;
    text.extend_from_slice(right.text.as_slice()).ok()?;
    Some(Found {
        text: Bytes::from_vec(text).ok()?,
        start: left.start,
        read: left.read.min(right.read),
    })
}

/// The text of the operand that is the topmost one at a place of the code, where it can be read again; so many operands may stand in each other.
fn operand<W: World>(
    alloc: Global,
    code: &CodeBefore<'_>,
    host: &mut Host<W>,
    at: usize,
    nested: usize,
) -> Option<Found>
    ensures { sight W.state host.new ≡ sight W.state host.old }
{
    if nested == 0 {
        return None;
    }
    match code.push(at)? {
        Push::Moved { start, written } => {
            let found = operand(alloc, code, host, written, nested - 1)?;
            Some(Found {
                text: found.text,
                start,
                read: found.read,
            })
        }
        Push::Element => {
            let key = operand(alloc, code, host, at.checked_sub(1)?, nested - 1)?;
            element_text(alloc, code, host, key)
        }
        Push::Joined => {
            let right = operand(alloc, code, host, at.checked_sub(1)?, nested - 1)?;
            let left = operand(alloc, code, host, right.start, nested - 1)?;
            joined(alloc, left, right)
        }
        push => simple_text(alloc, code, host, push),
    }
}

/// Whether a number is not to be had for this fault.
fn is_fault(number: Result<i64, Fault>, fault: Fault) -> bool
    ensures { IsTrue result ↔ number ≡ Err fault }
{
    match number {
        Ok(_) => false,
        Err(own) => own == fault,
    }
}

/// A text whose number, or the whole part of it, is not to be had for this fault.
fn blamed_value(text: Bytes, fault: Fault) -> Option<Subject>
    ensures { IfSome result (IsAbout fault) }
{
    let value = Value::Text(text.clone().ok()?);
    let whole = is_fault(to_number(&value), fault);
    if whole || is_fault(truncated(&value), fault) {
        Some(Subject::Value(text))
    } else {
        None
    }
}

/// Whether a text is no expression for this fault.
fn is_refused(alloc: Global, text: Bytes, fault: Fault) -> bool
    ensures { result ≡ true → expression_of text ≡ Err fault }
{
    match Matcher::of(alloc, text) {
        Ok(_matcher) => false,
        Err(Stop::Fault(own)) => own == fault,
        Err(Stop::NoMemory) => false,
    }
}

/// A text that is no expression for this fault.
fn blamed_expression(alloc: Global, text: Bytes, fault: Fault) -> Option<Subject>
    ensures { IfSome result (IsAbout fault) }
{
    if is_refused(alloc, text.clone().ok()?, fault) {
        Some(Subject::Expression(text))
    } else {
        None
    }
}

/// A text as what a fault was about, if it has that fault.
fn blamed(alloc: Global, text: Bytes, fault: Fault) -> Option<Subject>
    ensures { IfSome result (IsAbout fault) }
{
    match fault {
        Fault::Range | Fault::Fraction => blamed_value(text, fault),
        Fault::BadEre | Fault::EreTooLarge => blamed_expression(alloc, text, fault),
        _ => None,
    }
}

/// The text of the operand whose code ends at a place, if it can be read again and nothing was changed since.
fn text_at<W: World>(
    alloc: Global,
    code: &CodeBefore<'_>,
    host: &mut Host<W>,
    end: usize,
) -> Option<Bytes>
    ensures { sight W.state host.new ≡ sight W.state host.old }
{
    let found = operand(alloc, code, host, end, MOST_NESTED)?;
    if code.only_reads(found.read) {
        Some(found.text)
    } else {
        None
    }
}

/// The operand whose code ends at a place, if it has the fault.
fn tried<W: World>(
    alloc: Global,
    code: &CodeBefore<'_>,
    host: &mut Host<W>,
    end: usize,
    fault: Fault,
) -> Option<Subject>
    ensures same { sight W.state host.new ≡ sight W.state host.old }
    ensures about { IfSome result (IsAbout fault) }
{
    blamed(alloc, text_at(alloc, code, host, end)?, fault)
}

/// Where the code ends of the value to the left of one whose code ends at a place.
fn value_left_of(code: &CodeBefore<'_>, end: usize) -> Option<usize> {
    code.value(code.start(end)?)
}

/// Where the code of a value ends that was an operand before so many others, which end at a place.
fn value_before(code: &CodeBefore<'_>, at: usize, others: usize) -> Option<usize> {
    let mut end = code.value(at)?;
    for _ in 0..others {
        end = value_left_of(code, end)?;
    }
    Some(end)
}

/// The side of a comparison that has the fault. The left one is tried first, so it must be known before the right one is told.
fn compared<W: World>(
    alloc: Global,
    code: &CodeBefore<'_>,
    host: &mut Host<W>,
    fault: Fault,
) -> Option<Subject>
    ensures same { sight W.state host.new ≡ sight W.state host.old }
    ensures about { IfSome result (IsAbout fault) }
{
    let right = code.value(code.call)?;
    let text = text_at(alloc, code, host, value_left_of(code, right)?)?;
    match blamed(alloc, text, fault) {
        None => tried(alloc, code, host, right, fault),
        left => left,
    }
}

/// The one of so many values that end at a place which has the fault; none unless all of them are known and no other has it.
fn only_one<W: World>(
    alloc: Global,
    code: &CodeBefore<'_>,
    host: &mut Host<W>,
    at: usize,
    count: usize,
    fault: Fault,
) -> Option<Subject>
    ensures same { sight W.state host.new ≡ sight W.state host.old }
    ensures about { IfSome result (IsAbout fault) }
{
    let mut found = None;
    let mut at = Some(at);
    for _ in 0..count {
        let end = code.value(at?)?;
        let text = text_at(alloc, code, host, end)?;
        if let Some(subject) = blamed(alloc, text, fault) {
            if found.is_some() {
                return None;
            }
            found = Some(subject);
        }
        at = code.start(end);
    }
    found
}

/// How many values a format has, and where they end.
fn formatted(code: &CodeBefore<'_>, listing: VariadicImport) -> Option<(usize, usize)> {
    let call = code.call;
    let count = match listing {
        VariadicImport::Sprintf => code.constant(call, 1)?,
        VariadicImport::Printf => code.constant(call, 2)?,
        VariadicImport::Print => return None,
    };
    let end = match (listing, code.constant(call, 1)?) {
        (VariadicImport::Sprintf, _) | (_, 0) => call,
        _ => code.start(code.value(call)?)?,
    };
    Some((count.checked_sub(1)? as usize, end))
}

/// FS, if it has the fault.
fn separator<W: World>(alloc: Global, host: &Host<W>, fault: Fault) -> Option<Subject>
    ensures { IfSome result (IsAbout fault) }
{
    blamed(alloc, host.special_text(Special::Fs).ok()?, fault)
}

/// The text that has the fault which the last step of a machine kept, if that was a call whose operands can be read again: they stand in what they were read
/// from, and nothing was changed since.
pub(crate) fn argument<W: World>(
    alloc: Global,
    machine: &Machine,
    host: &mut Host<W>,
    fault: Fault,
) -> Option<Subject>
    ensures same { sight W.state host.new ≡ sight W.state host.old }
    ensures about { IfSome result (IsAbout fault) }
{
    let code = CodeBefore::new(machine)?;
    let call = code.call;
    match code.import(call)? {
        Import::OfPrimitive(Primitive::Compare) => compared(alloc, &code, host, fault),
        Import::Variadic(listing) => {
            let (count, end) = formatted(&code, listing)?;
            only_one(alloc, &code, host, end, count, fault)
        }
        Import::OfPrimitive(
            Primitive::ToNum
            | Primitive::IntOf
            | Primitive::SetSpecial
            | Primitive::Matches
            | Primitive::Match
            | Primitive::Split,
        ) => tried(alloc, &code, host, value_before(&code, call, 0)?, fault),
        Import::OfPrimitive(Primitive::Sub) => {
            tried(alloc, &code, host, value_before(&code, call, 2)?, fault)
        }
        _ => separator(alloc, host, fault),
    }
}
