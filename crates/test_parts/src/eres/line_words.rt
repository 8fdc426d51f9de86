//! The words of a line.
use awk_text::unescape;
use std::alloc::{AllocError, Global};

/// How many parts are read of a line.
const PARTS: usize = 4;

/// A word as it stands; the empty one where there is none.
pub(crate) fn word(line: &str, place: usize) -> &str {
    line.split('\t').nth(place).unwrap_or("")
}

/// A word that is a letter; `a` where there is none.
pub(crate) fn letter(line: &str, place: usize) -> u8 {
    *word(line, place).as_bytes().first().unwrap_or(&b'a')
}

/// The bytes that a word stands for.
pub(crate) fn bytes(alloc: Global, line: &str, place: usize) -> Result<Vec<u8>, AllocError> {
    unescape(alloc, word(line, place).as_bytes())
}

/// A word as a number; 0 where it is none.
pub(crate) fn number(line: &str, place: usize) -> usize {
    word(line, place).parse::<usize>().unwrap_or(0)
}

/// Puts a part so often behind a text.
fn add(text: &mut Vec<u8>, part: &[u8], count: usize) -> Result<(), AllocError> {
    for _ in 0..count {
        text.extend_from_slice(part)?;
    }
    Ok(())
}

/// The parts from a word on, each so many times as the word behind it says.
pub(crate) fn built(alloc: Global, line: &str, from: usize) -> Result<Vec<u8>, AllocError> {
    let mut text = Vec::new(alloc);
    for turn in 0..PARTS {
        let place = from.saturating_add(2 * turn);
        let part = bytes(alloc, line, place)?;
        add(&mut text, &part, number(line, place.saturating_add(1)))?;
    }
    Ok(text)
}
