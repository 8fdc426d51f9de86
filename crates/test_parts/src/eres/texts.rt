//! The expression of a line, and the text that it is matched against.
use crate::eres::call::Call;
use crate::eres::line_words::{built, bytes, letter, number};
use std::alloc::{AllocError, Global};

/// What a text of words repeats.
static WORDS: [u8; 32] = *b"the quick brown fox.jumped over ";

/// What a text of matches repeats.
static MATCHES: [u8; 10] = *b"axxxxxxxxx";

pub(crate) fn expression_of(alloc: Global, call: Call, line: &str) -> Result<Vec<u8>, AllocError> {
    match call {
        Call::Read => built(alloc, line, 1),
        Call::Found => built(alloc, line, 2),
        Call::Long | Call::LongAll => bytes(alloc, line, 3),
        _ => bytes(alloc, line, 1),
    }
}

pub(crate) fn text_of(alloc: Global, call: Call, line: &str) -> Result<Vec<u8>, AllocError> {
    match call {
        Call::All => built(alloc, line, 2),
        Call::Found => bytes(alloc, line, 1),
        Call::Long | Call::LongAll => long_text(alloc, letter(line, 1), number(line, 2)),
        Call::Reversed => vec![in alloc; b'a'; 4],
        _ => bytes(alloc, line, 2),
    }
}

/// The place of a line's text from which a match is looked for.
pub(crate) fn from_of(call: Call, line: &str) -> usize {
    match call {
        Call::First => number(line, 3),
        _ => 0,
    }
}

/// A byte of a long text.
fn byte_at(kind: u8, place: usize) -> u8 {
    match kind {
        b'x' => b'x',
        b'w' => WORDS[place % 32],
        b'g' => MATCHES[place % 10],
        _ => b'a',
    }
}

fn fill(text: &mut [u8], kind: u8) {
    for place in 0..text.len() {
        text[place] = byte_at(kind, place);
    }
}

/// A long text: `a` of one letter, `c` of one letter and another at its end, `x` of another letter, `w` of words, `g` of matches.
fn long_text(alloc: Global, kind: u8, length: usize) -> Result<Vec<u8>, AllocError> {
    let mut text = vec![in alloc; b'a'; length]?;
    fill(&mut text, kind);
    if kind == b'c' {
        text.push(b'c')?;
    }
    Ok(text)
}
