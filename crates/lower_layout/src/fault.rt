//! Why a script has no module.
use std::alloc::{AllocError, AllocFailed};
use thiserror::Error;

/// Why a script has no module.
#[derive(Clone, Copy, Debug, PartialEq, Eq, Drop, Error)]
pub enum LowerFault {
    /// Its texts and names, or its code, take more than 16,777,216 bytes, or it has more functions than that.
    #[error("TooLarge")]
    TooLarge,
    #[error("NoMemory")]
    NoMemory,
}

impl From<AllocError> for LowerFault {
    ghost use Rattle.std.specs.Prelude.{◌≡◌};
    ghost use Rattle.lower_layout.specs.declared.fault.LowerFault.TheVariants.{NoMemory};

    ghost from_gives = { λ _ e. e ≡ NoMemory };

    fn from(_e: AllocError) -> LowerFault {
        LowerFault::NoMemory
    }
}

impl<T: Drop> From<AllocFailed<T>> for LowerFault {
    ghost use Rattle.std.specs.Prelude.{◌≡◌};
    ghost use Rattle.lower_layout.specs.declared.fault.LowerFault.TheVariants.{NoMemory};

    ghost from_gives = { λ _ e. e ≡ NoMemory };

    fn from(_e: AllocFailed<T>) -> LowerFault {
        LowerFault::NoMemory
    }
}
