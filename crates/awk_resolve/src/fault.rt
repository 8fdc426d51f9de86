//! Names that stand by themselves, and the refusals that carry them.

ghost use Rattle.std.specs.Prelude.{◌≡◌, Some, IfOk};
ghost use Rattle.awk_resolve.specs.ViewRefused.{view_refused};
ghost use Rattle.awk_resolve.specs.ViewResolved.{IsCause};

use std::alloc::{AllocError, Global};
use std::fmt;
use std::marker::Model;
use thiserror::Error;

/// A name of a script. Contracts see its bytes.
#[derive(Debug, Drop)]
pub struct Name {
    bytes: Vec<u8>,
}

impl Model for Name {
    ghost use Rattle.std.specs.Prelude.{ℕ, List};

    ghost Value = { List ℕ };

    ghost view = { λ n. n.bytes.items };
}

impl Name {
    /// A name of these bytes.
    pub fn new(alloc: Global, bytes: &[u8]) -> Result<Self, AllocError>
        ensures { IfOk result (λ name. name ≡ bytes.now) }
    {
        let mut own = Vec::new(alloc);
        own.extend_from_slice(bytes)?;
        Ok(Name { bytes: own })
    }

    /// Its bytes.
    pub fn as_slice(&self) -> &[u8]
        ensures { result.now ≡ self.now }
    {
        self.bytes.as_slice()
    }
}

impl fmt::Display for Name {
    ghost use Rattle.std.specs.Prelude.{Some, encode_utf8_all};

    ghost output = { λ n. Some (encode_utf8_all n) };

    fn fmt<W: fmt::Write>(&self, f: &mut fmt::Formatter<W>) -> fmt::Result {
        for byte in &self.bytes {
            write!(f, "{}", *byte as char)?;
        }
        Ok(())
    }
}

/// Why a script is refused for its names. It is shown as its name and the name that it carries, as `KindClash x`. Each refusal is for the first place in the
/// script, and comes only where none before it in this list does.
#[derive(Debug, Drop, Error)]
pub enum ResolveFault {
    /// A function after 1,000 others, or one of more than 100 parameters.
    #[error("TooMany {0}")]
    TooMany(Name),
    /// A name of two functions or of two parameters of one function; a function or parameter with a special variable's name;
    /// a parameter or variable with a function's name.
    #[error("DuplicateName {0}")]
    DuplicateName(Name),
    /// A call of a function that the script lacks.
    #[error("UnknownFunction {0}")]
    UnknownFunction(Name),
    /// A call with more arguments than the function has parameters.
    #[error("ArgCount {0}")]
    ArgCount(Name),
    /// A name used as an array and as a scalar, or a parameter that is an array where the argument is no bare name.
    #[error("KindClash {0}")]
    KindClash(Name),
    /// Memory was wanting.
    #[error("NoMemory")]
    NoMemory,
}

impl From<AllocError> for ResolveFault {
    ghost use Rattle.std.specs.Prelude.{◌≡◌};
    ghost use Rattle.awk_resolve.specs.declared.fault.ResolveFault.TheVariants.{NoMemory};

    ghost from_gives = { λ _ e. e ≡ NoMemory };

    fn from(_error: AllocError) -> Self {
        ResolveFault::NoMemory
    }
}

/// Which refusal it is.
#[derive(Clone, Copy)]
pub(crate) enum Reason {
    TooMany,
    DuplicateName,
    UnknownFunction,
    ArgCount,
    KindClash,
}

/// A refusal, with the name as it stands in the script.
#[derive(Clone, Copy)]
pub(crate) struct Refused<'a> {
    pub reason: Reason,
    pub name: &'a [u8],
}

impl Refused<'_> {
    /// It with a name of its own.
    pub(crate) fn fault(self, alloc: Global) -> ResolveFault
        ensures { IsCause result (Some (view_refused self.entry)) }
    {
        let Ok(name) = Name::new(alloc, self.name) else {
            return ResolveFault::NoMemory;
        };
        match self.reason {
            Reason::TooMany => ResolveFault::TooMany(name),
            Reason::DuplicateName => ResolveFault::DuplicateName(name),
            Reason::UnknownFunction => ResolveFault::UnknownFunction(name),
            Reason::ArgCount => ResolveFault::ArgCount(name),
            Reason::KindClash => ResolveFault::KindClash(name),
        }
    }
}
