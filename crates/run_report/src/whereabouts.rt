//! Where a script was, and the lines that tell it.
ghost use Rattle.std.specs.Prelude.{◌≡◌, ◌++◌, IfOk, OnOk, decimal};
ghost use Rattle.run_report.specs.WhereTexts.{call_text, calls_text, function_text, is_told, line_text, more_text, name_text, plain, plain_byte, read_text, site_text, told_text, where_text};

use crate::end::RunEnd;
use crate::subject::{Subject, push_about};
use awk_values::Bytes;
use itoa::Buffer;
use std::alloc::{AllocError, Global};

/// Where a call of a function stands, or what is at work: the number of the statement's place in its function's code, and its line in the script, unless it is at
/// no statement; and the function that it is in, if it is in one.
#[derive(Drop)]
pub struct CallSite {
    pub place: Option<usize>,
    pub line: Option<usize>,
    pub function: Option<Bytes>,
}

/// Where a script was, and what it had read.
#[derive(Drop)]
pub struct Whereabouts {
    /// What was at work, then the calls that waited, the innermost first; not all where there are many.
    pub sites: Vec<CallSite>,
    /// How many calls there are besides.
    pub more: usize,
    pub nr: Bytes,
    pub fnr: Bytes,
    pub filename: Bytes,
    /// What its error was about, if that is known.
    pub about: Option<Subject>,
}

pub(crate) fn push_number(text: &mut Vec<u8>, number: usize) -> Result<(), AllocError>
    ensures { OnOk result (text.new.items ≡ text.old.items ++ decimal number) }
{
    let mut digits = Buffer::new();
    text.extend_from_slice(digits.format(number).as_bytes())
}

/// The byte that is told for one of a text that a script or its input made: `?` for one that would end the line or steer a terminal.
pub(crate) fn plain_byte(byte: u8) -> u8
    ensures { result ≡ plain_byte byte }
{
    if byte < 32 || byte == 127 { b'?' } else { byte }
}

/// Adds a text that a script or its input made.
pub(crate) fn push_plain(text: &mut Vec<u8>, bytes: &[u8]) -> Result<(), AllocError>
    ensures { OnOk result (text.new.items ≡ text.old.items ++ plain bytes.now) }
{
    for byte in bytes {
        text.push(plain_byte(*byte))?;
    }
    Ok(())
}

fn push_line(text: &mut Vec<u8>, line: Option<usize>) -> Result<(), AllocError>
    ensures { OnOk result (text.new.items ≡ text.old.items ++ line_text line) }
{
    match line {
        Some(number) => {
            text.extend_from_slice("line ".as_bytes())?;
            push_number(text, number)
        }
        None => text.extend_from_slice("no statement".as_bytes()),
    }
}

fn push_name(text: &mut Vec<u8>, name: &[u8]) -> Result<(), AllocError>
    ensures { OnOk result (text.new.items ≡ text.old.items ++ name_text name.now) }
{
    text.extend_from_slice(" in function ".as_bytes())?;
    text.extend_from_slice(name)?;
    Ok(())
}

fn push_function(text: &mut Vec<u8>, function: &Option<Bytes>) -> Result<(), AllocError>
    ensures { OnOk result (text.new.items ≡ text.old.items ++ function_text function.now) }
{
    match function {
        Some(name) => push_name(text, name.as_slice()),
        None => Ok(()),
    }
}

fn push_site(text: &mut Vec<u8>, site: &CallSite) -> Result<(), AllocError>
    ensures { OnOk result (text.new.items ≡ text.old.items ++ site_text site.now) }
{
    push_line(text, site.line)?;
    push_function(text, &site.function)
}

/// Adds what the script had read.
fn push_read(text: &mut Vec<u8>, found: &Whereabouts) -> Result<(), AllocError>
    ensures { OnOk result (text.new.items ≡ text.old.items ++ read_text found.now) }
{
    text.extend_from_slice(", NR=".as_bytes())?;
    push_plain(text, found.nr.as_slice())?;
    text.extend_from_slice(" FNR=".as_bytes())?;
    push_plain(text, found.fnr.as_slice())?;
    text.extend_from_slice(" FILENAME=".as_bytes())?;
    push_plain(text, found.filename.as_slice())?;
    text.push(b'\n')?;
    Ok(())
}

fn push_call(text: &mut Vec<u8>, site: &CallSite) -> Result<(), AllocError>
    ensures { OnOk result (text.new.items ≡ text.old.items ++ call_text site.now) }
{
    text.extend_from_slice("  called at ".as_bytes())?;
    push_site(text, site)?;
    text.push(b'\n')?;
    Ok(())
}

fn push_calls(text: &mut Vec<u8>, calls: &[CallSite]) -> Result<(), AllocError>
    ensures { OnOk result (text.new.items ≡ text.old.items ++ calls_text calls.now) }
{
    for site in calls {
        push_call(text, site)?;
    }
    Ok(())
}

fn push_more(text: &mut Vec<u8>, more: usize) -> Result<(), AllocError>
    ensures { OnOk result (text.new.items ≡ text.old.items ++ more_text more) }
{
    if more == 0 {
        return Ok(());
    }
    text.extend_from_slice("  and ".as_bytes())?;
    push_number(text, more)?;
    text.extend_from_slice(" more calls\n".as_bytes())?;
    Ok(())
}

fn push_told(text: &mut Vec<u8>, found: &Whereabouts) -> Result<(), AllocError>
    ensures { OnOk result (text.new.items ≡ text.old.items ++ told_text found.now) }
{
    let Some((first, calls)) = found.sites.split_first() else {
        return Ok(());
    };
    text.extend_from_slice("  at ".as_bytes())?;
    push_site(text, first)?;
    push_read(text, found)?;
    push_calls(text, calls)?;
    push_more(text, found.more)?;
    push_about(text, &found.about)
}

/// Whether of such an end it is told where the script was: not where it ended by itself, and not where it did not begin.
fn is_told(end: &RunEnd) -> bool
    ensures { result ≡ is_told end.now }
{
    match end {
        RunEnd::Ended(_) | RunEnd::Refused(_) => false,
        RunEnd::Faulted(_)
        | RunEnd::OutOfSteps
        | RunEnd::Exhausted
        | RunEnd::NoMemory
        | RunEnd::Trapped(_) => true,
    }
}

/// The lines for the standard error that tell where a script was, after the one that tells how it ended. Each begins with two spaces. There are none where
/// the script ended by itself, or did not begin.
///
/// # Errors
///
/// For want of memory.
pub fn where_text(alloc: Global, end: &RunEnd, found: &Whereabouts) -> Result<Vec<u8>, AllocError>
    ensures { IfOk result (λ text. text.items ≡ where_text end.now found.now) }
{
    let mut text = Vec::new(alloc);
    if is_told(end) {
        push_told(&mut text, found)?;
    }
    Ok(text)
}
