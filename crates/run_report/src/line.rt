//! What is told, as a line for the standard error.
ghost use Rattle.std.specs.Prelude.{◌≡◌, [], ◌∷◌, ◌++◌, IfOk, OnOk};
ghost use Rattle.run_report.specs.EndTexts.{alone, line_of, named, numbered, spaced};
ghost use Rattle.run_report.specs.Parts.{maybe_word, word_of, words_of};
ghost use Rattle.std.specs.Io.KnownBytes.{Appends};

use itoa::Buffer;
use std::alloc::{AllocError, Global};
use std::io;
use std::io::Write;

/// A part of what a name carries: a word of our own, a number, or a name of a script.
#[derive(Clone, Copy, Drop)]
pub(crate) enum Part<'a> {
    Word(&'static str),
    Number(usize),
    Name(&'a [u8]),
}

/// A name and the parts that it carries, in order.
#[derive(Clone, Copy, Drop)]
pub(crate) struct Told<'a> {
    name: &'static str,
    first: Option<Part<'a>>,
    second: Option<Part<'a>>,
}

impl<'a> Told<'a> {
    pub(crate) fn alone(name: &'static str) -> Told<'a>
        ensures { words_of result ≡ alone name.now }
    {
        Told {
            name,
            first: None,
            second: None,
        }
    }

    pub(crate) fn with(name: &'static str, part: Part<'a>) -> Told<'a>
        ensures { words_of result ≡ name.now ∷ (word_of part.entry ∷ []) }
    {
        Told {
            name,
            first: Some(part),
            second: None,
        }
    }

    pub(crate) fn with_both(name: &'static str, first: Part<'a>, second: Part<'a>) -> Told<'a>
        ensures { words_of result ≡ name.now ∷ (word_of first.entry ∷ (word_of second.entry ∷ [])) }
    {
        Told {
            name,
            first: Some(first),
            second: Some(second),
        }
    }

    /// With a line, a place, an index or a length.
    pub(crate) fn numbered(name: &'static str, number: usize) -> Told<'a>
        ensures { words_of result ≡ numbered name.now number }
    {
        Told::with(name, Part::Number(number))
    }

    /// With a name of the script.
    pub(crate) fn named(fault: &'static str, name: &'a [u8]) -> Told<'a>
        ensures { words_of result ≡ named fault.now name.now }
    {
        Told::with(fault, Part::Name(name))
    }
}

/// Adds a part to a line, after a space.
fn push_part(line: &mut Vec<u8>, part: Part<'_>) -> Result<(), AllocError>
    ensures { OnOk result (line.new.items ≡ line.old.items ++ spaced (word_of part.entry ∷ [])) }
{
    line.push(b' ')?;
    match part {
        Part::Word(word) => line.extend_from_slice(word.as_bytes()),
        Part::Number(number) => {
            let mut digits = Buffer::new();
            line.extend_from_slice(digits.format(number).as_bytes())
        }
        Part::Name(name) => line.extend_from_slice(name),
    }
}

/// Adds a part to a line, after a space, if there is one.
fn push_maybe(line: &mut Vec<u8>, part: Option<Part<'_>>) -> Result<(), AllocError>
    ensures { OnOk result (line.new.items ≡ line.old.items ++ spaced (maybe_word part.entry)) }
{
    match part {
        Some(part) => push_part(line, part),
        None => Ok(()),
    }
}

/// The line of a name and what it carries.
#[tactic(auto, unfolding(crate::specs::EndTexts::line_of))]
pub(crate) fn line_of(alloc: Global, told: Told<'_>) -> Result<Vec<u8>, AllocError>
    ensures { IfOk result (λ line. line.items ≡ line_of (words_of told.entry)) }
{
    let mut line = Vec::from_slice(alloc, "awkwasm:".as_bytes())?;
    push_part(&mut line, Part::Word(told.name))?;
    push_maybe(&mut line, told.first)?;
    push_maybe(&mut line, told.second)?;
    line.push(b'\n')?;
    Ok(line)
}

/// Writes a part, after a space.
#[tactic(auto, using(crate::proofs::Written::both))]
fn write_part<W: Write>(to: &mut W, part: Part<'_>) -> io::Result<()>
    ensures { OnOk result (Appends (W.contents to.old) (W.contents to.new)
        (spaced (word_of part.entry ∷ []))) }
{
    to.write_all(" ".as_bytes())?;
    match part {
        Part::Word(word) => to.write_all(word.as_bytes()),
        Part::Number(number) => {
            let mut digits = Buffer::new();
            to.write_all(digits.format(number).as_bytes())
        }
        Part::Name(name) => to.write_all(name),
    }
}

/// Writes a part, after a space, if there is one.
#[tactic(auto, using(crate::proofs::Written::none))]
fn write_maybe<W: Write>(to: &mut W, part: Option<Part<'_>>) -> io::Result<()>
    ensures { OnOk result (Appends (W.contents to.old) (W.contents to.new)
        (spaced (maybe_word part.entry))) }
{
    match part {
        Some(part) => write_part(to, part),
        None => Ok(()),
    }
}

/// Writes the line of a name and what it carries, in parts. It takes no memory.
#[tactic(auto, using(crate::proofs::Written::both), unfolding(crate::specs::EndTexts::line_of))]
pub(crate) fn write_line<W: Write>(to: &mut W, told: Told<'_>) -> io::Result<()>
    ensures { OnOk result (Appends (W.contents to.old) (W.contents to.new)
        (line_of (words_of told.entry))) }
{
    to.write_all("awkwasm:".as_bytes())?;
    write_part(to, Part::Word(told.name))?;
    write_maybe(to, told.first)?;
    write_maybe(to, told.second)?;
    to.write_all("\n".as_bytes())
}
