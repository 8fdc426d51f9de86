//! How often the statements of a script were executed, what its run took, and the texts that tell it.
ghost use Rattle.std.specs.Prelude.{◌≡◌, ◌+◌, ◌++◌, IfOk, OnOk, codes};
ghost use Rattle.run_report.specs.CountTexts.{aligned, at_line, count_text, count_word, head, head_if, last_newline, listed_byte, stats_text};

use crate::whereabouts::{plain_byte, push_number, push_plain};
use awk_values::Bytes;
use itoa::Buffer;
use std::alloc::{AllocError, Global};

/// A place of the module of a script, at which a statement or a part of one begins: how many tokens of the script stand before it, and how often it was passed.
#[derive(Clone, Copy, Debug, PartialEq, Eq, Drop)]
pub struct PlaceCount {
    pub before: usize,
    pub count: u64,
}

/// What is counted of a run.
#[derive(Drop)]
pub struct RunCounts {
    /// The first place that begins on each line, by the line's number; lines are counted from 1.
    pub lines: Vec<Option<PlaceCount>>,
    /// How many steps of the module were taken.
    pub steps: u64,
    /// The text of NR.
    pub records: Bytes,
    /// The greatest number of values that there were at once.
    pub values: usize,
}

/// The first place that begins on a line.
fn at_line(lines: &[Option<PlaceCount>], number: usize) -> Option<PlaceCount>
    ensures { result ≡ at_line lines.now number }
{
    match lines.get(number) {
        Some(first) => *first,
        None => None,
    }
}

/// Adds a word at the right of as many blanks as there are, less its length.
fn push_aligned(text: &mut Vec<u8>, blanks: &[u8], word: &[u8]) -> Result<(), AllocError>
    ensures { OnOk result (text.new.items ≡ text.old.items ++ aligned blanks.now word.now) }
{
    if word.len() < blanks.len() {
        text.extend_from_slice(&blanks[word.len()..])?;
    }
    text.extend_from_slice(word)?;
    Ok(())
}

/// Adds how often the first statement was executed that begins on a line: `-` where none does, `#####` where it never was.
fn push_count(text: &mut Vec<u8>, first: Option<PlaceCount>) -> Result<(), AllocError>
    ensures { OnOk result
        (text.new.items ≡ text.old.items ++ aligned (codes "         ") (count_word first)) }
{
    let blanks = "         ".as_bytes();
    match first {
        None => push_aligned(text, blanks, "-".as_bytes()),
        Some(place) if place.count == 0 => push_aligned(text, blanks, "#####".as_bytes()),
        Some(place) => {
            let mut digits = Buffer::new();
            push_aligned(text, blanks, digits.format(place.count).as_bytes())
        }
    }
}

/// Adds what stands before the text of a line: the count and the line's number.
fn push_head(text: &mut Vec<u8>, counts: &RunCounts, number: usize) -> Result<(), AllocError>
    ensures { OnOk result (text.new.items ≡ text.old.items ++ head counts.now number) }
{
    push_count(text, at_line(&counts.lines, number))?;
    text.push(b':')?;
    let mut digits = Buffer::new();
    push_aligned(text, "     ".as_bytes(), digits.format(number).as_bytes())?;
    text.push(b':')?;
    Ok(())
}

/// The byte that is told for one of a line of a script.
fn listed_byte(byte: u8) -> u8
    ensures { result ≡ listed_byte byte }
{
    if byte == b'\t' {
        byte
    } else {
        plain_byte(byte)
    }
}

/// Adds the head of a line, if a line begins.
fn push_head_if(
    text: &mut Vec<u8>,
    begins: bool,
    counts: &RunCounts,
    number: usize,
) -> Result<(), AllocError>
    ensures { OnOk result (text.new.items ≡ text.old.items ++ head_if begins counts.now number) }
{
    if begins {
        push_head(text, counts, number)
    } else {
        Ok(())
    }
}

/// Ends the last line, if it has begun.
fn push_last_newline(text: &mut Vec<u8>, begins: bool) -> Result<(), AllocError>
    ensures { OnOk result (text.new.items ≡ text.old.items ++ last_newline begins) }
{
    if !begins {
        text.push(b'\n')?;
    }
    Ok(())
}

/// The number of the next line.
fn next_line(number: usize) -> Result<usize, AllocError>
    ensures { IfOk result (λ next. next ≡ number + 1) }
{
    match number.checked_add(1) {
        Some(next) => Ok(next),
        None => Err(AllocError),
    }
}

/// Each line of a script with its number and how often the first statement was executed that begins on it, as gcov lists them.
///
/// # Errors
///
/// For want of memory.
#[tactic(auto, unfolding(crate::specs::CountTexts::listing))]
pub fn count_text(alloc: Global, script: &[u8], counts: &RunCounts) -> Result<Vec<u8>, AllocError>
    ensures { IfOk result (λ text. text.items ≡ count_text script.now counts.now) }
{
    let mut text = Vec::new(alloc);
    let mut begins = true;
    let mut number: usize = 1;
    for byte in script {
        push_head_if(&mut text, begins, counts, number)?;
        begins = *byte == b'\n';
        if begins {
            text.push(b'\n')?;
            number = next_line(number)?;
        } else {
            text.push(listed_byte(*byte))?;
        }
    }
    push_last_newline(&mut text, begins)?;
    Ok(text)
}

/// The lines for the standard error that tell what a run took: steps, records and values. Each begins with two spaces.
///
/// # Errors
///
/// For want of memory.
pub fn stats_text(alloc: Global, counts: &RunCounts) -> Result<Vec<u8>, AllocError>
    ensures { IfOk result (λ text. text.items ≡ stats_text counts.now) }
{
    let mut text = Vec::from_slice(alloc, "  steps ".as_bytes())?;
    let mut digits = Buffer::new();
    text.extend_from_slice(digits.format(counts.steps).as_bytes())?;
    text.extend_from_slice("\n  records ".as_bytes())?;
    push_plain(&mut text, counts.records.as_slice())?;
    text.extend_from_slice("\n  values ".as_bytes())?;
    push_number(&mut text, counts.values)?;
    text.push(b'\n')?;
    Ok(text)
}
