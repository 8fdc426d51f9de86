//! What an error was about, and the line that tells it.
ghost use Rattle.std.specs.Prelude.{◌≡◌, ◌++◌, ◌≤◌, OnOk, Some, length};
ghost use Rattle.run_report.specs.SubjectTexts.{about_text, continues_at, cut_length, cut_text, quoted_after, quoted_byte, rest_text, subject_text};

use crate::escapes::push_shown;
use crate::whereabouts::push_number;
use awk_values::Bytes;
use std::alloc::AllocError;

/// What an error was about.
#[derive(Drop)]
pub enum Subject {
    /// A file that did not open, or whose read or write failed, by its name.
    File(Bytes),
    /// A read of the standard input failed.
    StandardInput,
    /// A write to the standard output failed.
    StandardOutput,
    /// A text that is no regular expression, or is past a limit.
    Expression(Bytes),
    /// A text whose number is not whole, or is out of range.
    Value(Bytes),
}

/// How many bytes of a text are shown at most.
const MOST_SHOWN: usize = 60;

/// Adds a byte as it stands between quotes in a script, after another one.
fn push_quoted_byte(text: &mut Vec<u8>, before: u8, byte: u8) -> Result<(), AllocError>
    ensures { OnOk result (text.new.items ≡ text.old.items ++ quoted_byte before byte) }
{
    if byte == b'"' || byte == b'\\' {
        return text.extend_from_slice(&[b'\\', byte]);
    }
    if byte == b'\n' {
        return text.extend_from_slice(&[b'\\', b'n']);
    }
    push_shown(text, before, byte)
}

/// Adds bytes as they stand between quotes in a script.
#[tactic(auto, unfolding(crate::specs::SubjectTexts::quoted_after))]
fn push_quoted(text: &mut Vec<u8>, bytes: &[u8]) -> Result<(), AllocError>
    ensures { OnOk result (text.new.items ≡ text.old.items ++ quoted_after 0 bytes.now) }
{
    let mut before = 0;
    for byte in bytes {
        push_quoted_byte(text, before, *byte)?;
        before = *byte;
    }
    Ok(())
}

/// Whether the byte at a place of a text goes on with a character of UTF-8.
fn continues_at(text: &[u8], at: usize) -> bool
    ensures { result ≡ continues_at text.now at }
{
    match text.get(at) {
        Some(byte) => *byte >= 128 && *byte < 192,
        None => false,
    }
}

/// How many bytes of a text are shown.
fn cut_length(text: &[u8]) -> usize
    ensures value { result ≡ cut_length text.now }
    ensures within { result ≤ length text.now }
{
    if text.len() <= MOST_SHOWN {
        return text.len();
    }
    if !continues_at(text, MOST_SHOWN) {
        return MOST_SHOWN;
    }
    if !continues_at(text, MOST_SHOWN - 1) {
        return MOST_SHOWN - 1;
    }
    if continues_at(text, MOST_SHOWN - 2) {
        MOST_SHOWN - 3
    } else {
        MOST_SHOWN - 2
    }
}

/// Adds how many bytes are not shown.
fn push_rest(text: &mut Vec<u8>, more: usize) -> Result<(), AllocError>
    ensures { OnOk result (text.new.items ≡ text.old.items ++ rest_text more) }
{
    if more == 0 {
        return Ok(());
    }
    text.extend_from_slice(" and ".as_bytes())?;
    push_number(text, more)?;
    text.extend_from_slice(" more bytes".as_bytes())?;
    Ok(())
}

/// Adds a text in quotes, and cuts it where it is long.
fn push_cut(text: &mut Vec<u8>, bytes: &[u8]) -> Result<(), AllocError>
    ensures { OnOk result (text.new.items ≡ text.old.items ++ cut_text bytes.now) }
{
    let shown = cut_length(bytes);
    text.push(b'"')?;
    push_quoted(text, &bytes[..shown])?;
    text.push(b'"')?;
    push_rest(text, bytes.len() - shown)
}

/// Adds a word, and a text in quotes.
fn push_worded(text: &mut Vec<u8>, word: &str, bytes: &[u8]) -> Result<(), AllocError>
    ensures { OnOk result (text.new.items ≡ text.old.items ++ (word.now ++ cut_text bytes.now)) }
{
    text.extend_from_slice(word.as_bytes())?;
    push_cut(text, bytes)
}

fn push_subject(text: &mut Vec<u8>, subject: &Subject) -> Result<(), AllocError>
    ensures { OnOk result (text.new.items ≡ text.old.items ++ subject_text subject.now) }
{
    match subject {
        Subject::File(name) => push_worded(text, "file ", name.as_slice()),
        Subject::StandardInput => text.extend_from_slice("standard input".as_bytes()),
        Subject::StandardOutput => text.extend_from_slice("standard output".as_bytes()),
        Subject::Expression(ere) => push_worded(text, "expression ", ere.as_slice()),
        Subject::Value(value) => push_worded(text, "value ", value.as_slice()),
    }
}

fn push_some(text: &mut Vec<u8>, subject: &Subject) -> Result<(), AllocError>
    ensures { OnOk result (text.new.items ≡ text.old.items ++ about_text (Some subject.now)) }
{
    text.extend_from_slice("  ".as_bytes())?;
    push_subject(text, subject)?;
    text.push(b'\n')?;
    Ok(())
}

/// Adds the line that tells what an error was about, if it is known.
pub(crate) fn push_about(text: &mut Vec<u8>, about: &Option<Subject>) -> Result<(), AllocError>
    ensures { OnOk result (text.new.items ≡ text.old.items ++ about_text about.now) }
{
    match about {
        Some(subject) => push_some(text, subject),
        None => Ok(()),
    }
}
