//! The operands of the command line, which are the elements of ARGV as they are now.
ghost use Rattle.std.specs.Prelude.{◌≡◌, IfOk, decimal};
ghost use Rattle.host_worlds.specs.States.{argv_texts};

use awk_text::{NumText, text_of};
use awk_values::{Bytes, to_text};
use host_arrays::Arrays;
use host_streams::Operands;
use std::alloc::{AllocError, Global};

/// The elements of ARGV (POSIX.1-2017 awk, "Variables and Special Variables").
#[derive(Drop)]
pub(crate) struct Argv<'a> {
    pub(crate) arrays: &'a Arrays,
    pub(crate) alloc: Global,
}

/// The key of a number.
fn key_of(number: u32) -> NumText
    ensures { result ≡ decimal number }
{
    text_of(i64::from(number))
}

/// The text of an element of ARGV, empty where there is none.
fn argv_text(alloc: Global, arrays: &Arrays, number: u32) -> Result<Bytes, AllocError>
    ensures { IfOk result (λ text. text ≡ argv_texts arrays.now number) }
{
    let key = key_of(number);
    match arrays.get(Arrays::ARGV, key.as_bytes()) {
        Some(value) => match to_text(alloc, value) {
            Ok(text) => Ok(text),
            Err(_) => Err(AllocError),
        },
        None => Bytes::from_slice(alloc, &[]),
    }
}

impl<'a> Operands for Argv<'a> {
    ghost use Rattle.host_worlds.specs.States.{argv_texts};

    ghost text = { λ a n. argv_texts a.arrays.now n };

    fn operand(&self, number: u32) -> Result<Bytes, AllocError> {
        argv_text(self.alloc, self.arrays, number)
    }
}
