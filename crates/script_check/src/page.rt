//! Findings as text.

ghost use Rattle.std.specs.Prelude.{◌≡◌, ◌<◌, ◌++◌, IfOk, OnOk, decimal, drop, take};
ghost use Rattle.script_check.specs.Page.{blank_of, blanks, excerpt, finding_text, first_line, head, hex_digit, is_control, last_line, line_number, line_text, name_after, name_alone, page_text, place_text, said_text, severity_text, shown, shown_byte};
ghost use Rattle.script_check.specs.Remarks.{view_finding, view_findings, view_said};

use crate::finding::{Finding, Said, Severity};
use crate::lines::{first_line, last_line, line_number};
use std::alloc::{AllocError, Global};

/// How long a line of a script is at most that is shown.
const MAX_SHOWN: usize = 1_000;

/// Adds a number.
fn push_number(out: &mut Vec<u8>, alloc: Global, number: usize) -> Result<(), AllocError>
    ensures { OnOk result (out.new.items ≡ out.old.items ++ decimal number) }
{
    let digits = format!(in alloc; "{number}")?;
    out.extend_from_slice(digits.as_bytes())
}

/// Whether a byte controls a terminal; a tab does not.
fn is_control(byte: u8) -> bool
    ensures { result ≡ is_control byte }
{
    byte != b'\t' && (byte < 0x20 || byte == 0x7f)
}

/// A digit of 16.
fn hex_digit(n: u8) -> u8
    requires { n < 16 }
    ensures { result ≡ hex_digit n }
{
    if n < 10 { b'0' + n } else { b'a' + (n - 10) }
}

/// Adds a byte of a script; one that controls a terminal as `\x` and two digits.
fn push_byte(out: &mut Vec<u8>, byte: u8) -> Result<(), AllocError>
    ensures { OnOk result (out.new.items ≡ out.old.items ++ shown_byte byte) }
{
    if is_control(byte) {
        let escape = [b'\\', b'x', hex_digit(byte / 16), hex_digit(byte % 16)];
        out.extend_from_slice(&escape)
    } else {
        Ok(out.push(byte)?)
    }
}

/// Adds bytes of a script.
fn push_shown(out: &mut Vec<u8>, text: &[u8]) -> Result<(), AllocError>
    ensures { OnOk result (out.new.items ≡ out.old.items ++ shown text.now) }
{
    for byte in text {
        push_byte(out, *byte)?;
    }
    Ok(())
}

/// What is as wide as a byte that is shown: nothing for a byte within a character.
fn blank_of(byte: u8) -> &'static str
    ensures { result.now ≡ blank_of byte }
{
    if byte == b'\t' {
        "\t"
    } else if is_control(byte) {
        "    "
    } else if byte >= 0x80 && byte < 0xc0 {
        ""
    } else {
        " "
    }
}

/// Adds what is as wide as bytes that are shown.
fn push_blanks(out: &mut Vec<u8>, text: &[u8]) -> Result<(), AllocError>
    ensures { OnOk result (out.new.items ≡ out.old.items ++ blanks text.now) }
{
    for byte in text {
        out.extend_from_slice(blank_of(*byte).as_bytes())?;
    }
    Ok(())
}

fn severity_text(severity: Severity) -> &'static str
    ensures { result.now ≡ severity_text severity }
{
    match severity {
        Severity::Error => "error: ",
        Severity::Warning => "warning: ",
        Severity::Note => "note: ",
    }
}

/// Adds a name with no word before it.
fn push_name_alone(out: &mut Vec<u8>, name: &[u8]) -> Result<(), AllocError>
    ensures { OnOk result (out.new.items ≡ out.old.items ++ name_alone name.now) }
{
    if name.is_empty() {
        return Ok(());
    }
    push_shown(out, name)?;
    out.extend_from_slice(" ".as_bytes())
}

/// Adds a name after a word.
fn push_name_after(out: &mut Vec<u8>, name: &[u8]) -> Result<(), AllocError>
    ensures { OnOk result (out.new.items ≡ out.old.items ++ name_after name.now) }
{
    if name.is_empty() {
        return out.extend_from_slice(": ".as_bytes());
    }
    out.extend_from_slice(" ".as_bytes())?;
    push_shown(out, name)?;
    out.extend_from_slice(": ".as_bytes())
}

/// Adds what stands before the explanation.
fn push_head(out: &mut Vec<u8>, word: &str, name: &[u8]) -> Result<(), AllocError>
    ensures { OnOk result (out.new.items ≡ out.old.items ++ head word.now name.now) }
{
    if word.is_empty() {
        return push_name_alone(out, name);
    }
    out.extend_from_slice(word.as_bytes())?;
    push_name_after(out, name)
}

/// Adds the line that an explanation ends in.
fn push_line_number(out: &mut Vec<u8>, alloc: Global, line: Option<usize>) -> Result<(), AllocError>
    ensures { OnOk result (out.new.items ≡ out.old.items ++ line_text line) }
{
    match line {
        None => Ok(()),
        Some(number) => {
            out.extend_from_slice(" ".as_bytes())?;
            push_number(out, alloc, number)
        }
    }
}

/// Adds what is said, with no newline.
fn push_said(out: &mut Vec<u8>, alloc: Global, said: &Said<'_>) -> Result<(), AllocError>
    ensures { OnOk result (out.new.items ≡ out.old.items ++ said_text (view_said said.now)) }
{
    out.extend_from_slice(severity_text(said.severity).as_bytes())?;
    push_head(out, said.word, said.name)?;
    out.extend_from_slice(said.text.as_bytes())?;
    push_line_number(out, alloc, said.line)
}

/// Adds the file's name, the line and the column, which counts bytes.
fn push_place(
    out: &mut Vec<u8>,
    alloc: Global,
    file: &[u8],
    before: &[u8],
) -> Result<(), AllocError>
    ensures { OnOk result (out.new.items ≡ out.old.items ++ place_text file.now before.now) }
{
    push_shown(out, file)?;
    out.extend_from_slice(":".as_bytes())?;
    push_number(out, alloc, line_number(before))?;
    out.extend_from_slice(":".as_bytes())?;
    push_number(out, alloc, last_line(before).len() + 1)?;
    out.extend_from_slice(": ".as_bytes())
}

/// Adds a line, and a caret under the place before which it has these bytes.
fn push_excerpt(out: &mut Vec<u8>, before: &[u8], after: &[u8]) -> Result<(), AllocError>
    ensures { OnOk result (out.new.items ≡ out.old.items ++ excerpt before.now after.now) }
{
    if before.len() + after.len() > MAX_SHOWN {
        return Ok(());
    }
    push_shown(out, before)?;
    push_shown(out, after)?;
    out.extend_from_slice("\n".as_bytes())?;
    push_blanks(out, before)?;
    out.extend_from_slice("^\n".as_bytes())
}

/// What a script has before a place, and from there on.
fn cut_at(script: &[u8], place: usize) -> (&[u8], &[u8])
    ensures before { result.0.now ≡ take place script.now }
    ensures after { result.1.now ≡ drop place script.now }
{
    if place <= script.len() {
        (&script[..place], &script[place..])
    } else {
        (script, &[])
    }
}

/// Adds a finding: the file's name, the line, the column in bytes, and what is said; then the line, if it is not too long, and a caret under the place.
fn push_finding(
    out: &mut Vec<u8>,
    alloc: Global,
    file: &[u8],
    script: &[u8],
    found: &Finding<'_>,
) -> Result<(), AllocError>
    ensures { OnOk result (out.new.items
        ≡ out.old.items ++ finding_text file.now script.now (view_finding found.now)) }
{
    let (before, after) = cut_at(script, found.start);
    push_place(out, alloc, file, before)?;
    push_said(out, alloc, &found.said)?;
    out.extend_from_slice("\n".as_bytes())?;
    push_excerpt(out, last_line(before), first_line(after))
}

/// The findings of a script as text, one after the other: of each the file, the line, the column in bytes and what is said; then the line, if it has at most
/// 1,000 bytes, and a caret under the place.
///
/// # Errors
///
/// Where memory is wanting.
pub fn page_of(
    alloc: Global,
    file: &[u8],
    script: &[u8],
    found: &[Finding<'_>],
) -> Result<Vec<u8>, AllocError>
    ensures { IfOk result
        (λ page. page.items ≡ page_text file.now script.now (view_findings found.now)) }
{
    let mut out = Vec::new(alloc);
    for one in found {
        push_finding(&mut out, alloc, file, script, one)?;
    }
    Ok(out)
}
