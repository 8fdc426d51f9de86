//! Why a run stops.
ghost use Rattle.std.specs.Prelude.{◌≡◌};
ghost use Rattle.awk_values.specs.Faults.{fault_number};
ghost use Rattle.awk_values.specs.FaultNames.{fault_name};

use std::alloc::AllocError;
use std::{error, fmt};
use thiserror::Error;

/// A fault of a run, by its name.
#[derive(Clone, Copy, Debug, PartialEq, Eq, Drop)]
pub enum Fault {
    /// A number is outside -2^53 to 2^53.
    Range,
    /// A text's number is not whole.
    Fraction,
    /// A divisor is 0, or 0 has a negative exponent.
    DivisionByZero,
    /// A quotient, or a power with a negative exponent, is not whole.
    Inexact,
    /// A field's number, or NF, is below 0 or above 1,048,576.
    FieldNumber,
    /// A format of `printf` or `sprintf` is malformed, or lacks an argument.
    Format,
    /// A text is no extended regular expression.
    BadEre,
    /// An extended regular expression is past a limit.
    EreTooLarge,
    /// A text is past 67,108,864 bytes.
    TextLimit,
    /// A file of the main input did not open.
    OpenInput,
    /// The main input could not be read.
    ReadFailed,
    /// An output file did not open.
    OpenOutput,
    /// A write failed.
    WriteFailed,
    /// 256 streams are open, and one more is wanted.
    TooManyStreams,
    /// `next` was run where no record is processed.
    NextOutside,
    /// An assignment of the command line is to what is no variable.
    BadAssignment,
}

impl Fault {
    /// The fault's number, from 1 to 16, as modules keep it.
    pub fn number(self) -> u8
        ensures { result ≡ fault_number self }
    {
        match self {
            Fault::Range => 1,
            Fault::Fraction => 2,
            Fault::DivisionByZero => 3,
            Fault::Inexact => 4,
            Fault::FieldNumber => 5,
            Fault::Format => 6,
            Fault::BadEre => 7,
            Fault::EreTooLarge => 8,
            Fault::TextLimit => 9,
            Fault::OpenInput => 10,
            Fault::ReadFailed => 11,
            Fault::OpenOutput => 12,
            Fault::WriteFailed => 13,
            Fault::TooManyStreams => 14,
            Fault::NextOutside => 15,
            Fault::BadAssignment => 16,
        }
    }

    /// The fault's name, as messages give it.
    pub fn name(self) -> &'static str
        ensures { result.now ≡ fault_name self }
    {
        match self {
            Fault::Range => "Range",
            Fault::Fraction => "Fraction",
            Fault::DivisionByZero => "DivisionByZero",
            Fault::Inexact => "Inexact",
            Fault::FieldNumber => "FieldNumber",
            Fault::Format => "Format",
            Fault::BadEre => "BadEre",
            Fault::EreTooLarge => "EreTooLarge",
            Fault::TextLimit => "TextLimit",
            Fault::OpenInput => "OpenInput",
            Fault::ReadFailed => "ReadFailed",
            Fault::OpenOutput => "OpenOutput",
            Fault::WriteFailed => "WriteFailed",
            Fault::TooManyStreams => "TooManyStreams",
            Fault::NextOutside => "NextOutside",
            Fault::BadAssignment => "BadAssignment",
        }
    }
}

impl fmt::Display for Fault {
    ghost use Rattle.std.specs.Prelude.{Some};

    ghost output = { λ f. Some (fault_name f) };

    fn fmt<W: fmt::Write>(&self, f: &mut fmt::Formatter<W>) -> fmt::Result {
        f.write_str(self.name())
    }
}

impl error::Error for Fault {}

/// Why a step of the host stops: a fault, or want of memory.
#[derive(Clone, Copy, Debug, PartialEq, Eq, Drop, Error)]
pub enum Stop {
    #[error("{0}")]
    Fault(Fault),
    #[error("NoMemory")]
    NoMemory,
}

impl From<AllocError> for Stop {
    ghost use Rattle.awk_values.specs.declared.fault.Stop.TheVariants.{NoMemory};
    ghost use Rattle.std.specs.Prelude.{◌≡◌};

    ghost from_gives = { λ _ e. e ≡ NoMemory };

    fn from(_error: AllocError) -> Stop {
        Stop::NoMemory
    }
}

impl From<Fault> for Stop {
    ghost use Rattle.awk_values.specs.declared.fault.Stop.TheVariants as stop;
    ghost use Rattle.std.specs.Prelude.{◌≡◌};

    ghost from_gives = { λ f e. e ≡ stop.Fault f };

    fn from(fault: Fault) -> Stop {
        Stop::Fault(fault)
    }
}
