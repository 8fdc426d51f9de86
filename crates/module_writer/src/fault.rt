//! Why a module is not written.

ghost use Rattle.std.specs.Prelude.{◌≡◌};
ghost use Rattle.module_writer.specs.declared.fault.WriteFault.TheVariants.{NoMemory};

use std::alloc::{AllocError, AllocFailed};
use thiserror::Error;

/// Why a module is not written.
#[derive(Debug, Drop, PartialEq, Eq, Error)]
pub enum WriteFault {
    /// The module is past a limit: 16 MiB, 4,000 nested blocks, 50,000 locals, 256 pages, 65,536 table elements.
    #[error("the module exceeds a limit")]
    TooLarge,
    /// There was no memory.
    #[error("out of memory")]
    NoMemory,
}

impl From<AllocError> for WriteFault {
    ghost from_gives = { λ _ e. e ≡ NoMemory };

    fn from(_e: AllocError) -> WriteFault {
        WriteFault::NoMemory
    }
}

impl<T: Drop> From<AllocFailed<T>> for WriteFault {
    ghost from_gives = { λ _ e. e ≡ NoMemory };

    fn from(_e: AllocFailed<T>) -> WriteFault {
        WriteFault::NoMemory
    }
}
