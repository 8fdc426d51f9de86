//! The texts of literals, which a script asks for again and again.
ghost use Rattle.std.specs.Prelude.{◌≡◌, IfOk};

use awk_values::Bytes;
use std::alloc::{AllocError, Global};
use std::marker::Model;

/// How many are kept.
const MANY: usize = 64;

/// Texts that a module had in its memory when it asked for them last, by their places. They change no answer, so a clause sees nothing of them: what is kept is
/// given only where the memory has the same bytes still.
#[derive(Drop)]
pub struct Literals {
    kept: Vec<Option<Bytes>>,
}

impl Model for Literals {
    ghost Value = { Unit {0} };

    ghost view = { λ l. tt };
}

impl Literals {
    /// No literal was asked for yet. It takes no memory.
    pub fn new(alloc: Global) -> Literals {
        Literals {
            kept: Vec::new(alloc),
        }
    }

    /// Keeps a text, unless memory runs out.
    fn keep(&mut self, slot: usize, text: Bytes) {
        if self.kept.is_empty() && self.kept.resize(MANY, None).is_err() {
            return;
        }
        if let Some(kept) = self.kept.get_mut(slot) {
            *kept = Some(text);
        }
    }

    /// The text of these bytes, which stand at this place of the memory.
    pub(crate) fn text(
        &mut self,
        alloc: Global,
        place: usize,
        bytes: &[u8],
    ) -> Result<Bytes, AllocError>
        ensures { IfOk result (λ text. text ≡ bytes.now) }
    {
        let slot = place % MANY;
        if let Some(Some(text)) = self.kept.get(slot) {
            if text.is(bytes) {
                return text.clone();
            }
        }
        let text = Bytes::from_slice(alloc, bytes)?;
        self.keep(slot, text.clone()?);
        Ok(text)
    }
}
