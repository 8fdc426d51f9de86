//! Why a text has no tree.
ghost use Rattle.std.specs.Prelude.{◌≡◌};
ghost use Rattle.ere_syntax.specs.declared.fault.EreFault.TheVariants.{NoMemory};

use std::alloc::{AllocError, AllocFailed};
use std::error::Error;
use std::fmt;

/// Why a regular expression is refused.
#[derive(Clone, Copy, Debug, PartialEq, Eq)]
pub enum EreFault {
    /// The text has no tree. Reading stopped at this offset.
    BadEre(usize),
    /// The text has a tree, which passes 10,000 positions after counts are expanded, or a nesting of 1,000.
    EreTooLarge,
    /// Memory ran out.
    NoMemory,
}

impl fmt::Display for EreFault {
    fn fmt<W: fmt::Write>(&self, f: &mut fmt::Formatter<W>) -> fmt::Result {
        match self {
            EreFault::BadEre(place) => write!(f, "BadEre {place}"),
            EreFault::EreTooLarge => f.write_str("EreTooLarge"),
            EreFault::NoMemory => f.write_str("NoMemory"),
        }
    }
}

impl Error for EreFault {}

impl From<AllocError> for EreFault {
    ghost from_gives = { λ _ e. e ≡ NoMemory };

    fn from(_: AllocError) -> EreFault {
        EreFault::NoMemory
    }
}

impl<T: Drop> From<AllocFailed<T>> for EreFault {
    ghost from_gives = { λ _ e. e ≡ NoMemory };

    fn from(_: AllocFailed<T>) -> EreFault {
        EreFault::NoMemory
    }
}
