//! The texts of single bytes, which many pieces of a long text share.
ghost use Rattle.std.specs.Prelude.{◌≡◌, ◌∷◌, [], IfOk};

use awk_values::Bytes;
use std::alloc::{AllocError, Global};
use std::marker::Model;

/// How many bytes there are.
const MANY: usize = 256;

/// A byte, and its text.
#[derive(Drop)]
struct Letter {
    byte: u8,
    text: Bytes,
    ghost exact: { text ≡ byte ∷ [] },
}

/// The texts of single bytes that were asked for so far, each in the place of its byte. They change no answer, so a clause sees nothing of them.
#[derive(Drop)]
pub struct ByteTexts {
    kept: Vec<Option<Letter>>,
}

impl Model for ByteTexts {
    ghost Value = { Unit {0} };

    ghost view = { λ k. tt };
}

/// The places, none of which is taken.
#[inline(never)]
fn places(kept: &mut Vec<Option<Letter>>) -> Result<(), AllocError> {
    for _ in kept.len()..MANY {
        kept.push(None)?;
    }
    Ok(())
}

/// Puts the text of a byte in its place.
fn renew(alloc: Global, place: &mut Option<Letter>, byte: u8) -> Result<Bytes, AllocError>
    ensures { IfOk result (λ text. text ≡ byte ∷ []) }
{
    let text = Bytes::from_slice(alloc, &[byte])?;
    let given = text.clone()?;
    *place = Some(Letter { byte, text });
    Ok(given)
}

/// The text of a byte, by its place.
fn text_at(alloc: Global, place: &mut Option<Letter>, byte: u8) -> Result<Bytes, AllocError>
    ensures { IfOk result (λ text. text ≡ byte ∷ []) }
{
    if let Some(kept) = place {
        if kept.byte == byte {
            return kept.text.clone();
        }
    }
    renew(alloc, place, byte)
}

impl ByteTexts {
    /// No byte was asked for yet. It takes no memory.
    pub(crate) fn new(alloc: Global) -> ByteTexts {
        ByteTexts {
            kept: Vec::new(alloc),
        }
    }

    /// The text of a byte. It is shared with what is kept.
    pub(crate) fn text(&mut self, alloc: Global, byte: u8) -> Result<Bytes, AllocError>
        ensures { IfOk result (λ text. text ≡ byte ∷ []) }
    {
        if self.kept.len() < MANY {
            places(&mut self.kept)?;
        }
        match self.kept.get_mut(usize::from(byte)) {
            Some(place) => text_at(alloc, place, byte),
            None => Bytes::from_slice(alloc, &[byte]),
        }
    }
}
