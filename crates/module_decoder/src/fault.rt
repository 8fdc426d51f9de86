//! Why bytes are refused.

ghost use Rattle.std.specs.Prelude.{◌≡◌};
ghost use Rattle.module_decoder.specs.declared.fault.DecodeFault.TheVariants.{NoMemory};

use std::alloc::{AllocError, AllocFailed};
use thiserror::Error;

/// Why bytes are refused. A place is that of a byte, counted from 0.
#[derive(Debug, Drop, PartialEq, Eq, Error)]
pub enum DecodeFault {
    /// One of the first 8 bytes is not that of a module of version 1.
    #[error("the header is not that of a module of version 1")]
    BadHeader,
    /// The input ends within the header, or within a section by its size. Carries the input's length.
    #[error("the module ends too early, after {0} bytes")]
    Truncated(usize),
    /// The place of the id of a section that is unknown, out of order or doubled, does not fill its size, or has a malformed part.
    #[error("byte {0}: malformed section")]
    BadSection(usize),
    /// The place of the first byte of an integer that is too long or has unused bits set.
    #[error("byte {0}: malformed integer")]
    BadInteger(usize),
    /// The place of a byte that begins no instruction here, or of a reserved byte that is not 0.
    #[error("byte {0}: unknown instruction, or a reserved byte that is not 0")]
    BadOpcode(usize),
    /// The place of a floating-point instruction or type.
    #[error("byte {0}: floating point is not supported")]
    Float(usize),
    /// The module is past a limit: 16 MiB, 4,000 nested blocks, 50,000 locals, 256 pages, 65,536 table elements.
    #[error("the module exceeds a limit")]
    TooLarge,
    /// There was no memory.
    #[error("out of memory")]
    NoMemory,
}

impl From<AllocError> for DecodeFault {
    ghost from_gives = { λ _ e. e ≡ NoMemory };

    fn from(_e: AllocError) -> DecodeFault {
        DecodeFault::NoMemory
    }
}

impl<T: Drop> From<AllocFailed<T>> for DecodeFault {
    ghost from_gives = { λ _ e. e ≡ NoMemory };

    fn from(_e: AllocFailed<T>) -> DecodeFault {
        DecodeFault::NoMemory
    }
}
